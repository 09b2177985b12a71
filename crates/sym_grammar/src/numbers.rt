//! Reading numbers from their digits.
ghost use Rattle.std.specs.Prelude.{◌≡◌, ◌^◌, ◌<◌, ◌≤◌, pos, neg_ℤ, IfSome, IfOk};
ghost use Rattle.sym_rules.specs.RuleReading.{integer_of};
ghost use Rattle.sym_rules.specs.Cuts.{from};
ghost use Rattle.sym_records.specs.FieldReading.{decimal_value};
ghost use Rattle.sym_grammar.specs.internal.Given.{Gives};
ghost use Rattle.sym_grammar.specs.internal.Runs.{hex_field, ten_digit, digits_upto};

use sym_edges::Stop;
use sym_records::hex_digit;
use sym_rules::TextKind;

/// The hexadecimal number in a field, and the bytes after the field, in one pass over its digits.
#[inline]
#[tactic(auto, using(crate::proofs::DigitLemmas::field_done, crate::proofs::DigitLemmas::field_end, crate::proofs::DigitLemmas::field_bad, crate::proofs::DigitLemmas::field_long, sym_rules::proofs::CutLemmas::rest_stop, sym_rules::proofs::CutLemmas::rest_end))]
pub(crate) fn hex_field(field: &[u8]) -> Result<(u64, &[u8]), Stop<TextKind>>
    ensures number { Gives result (λ x. (x.0, x.1.now)) (hex_field field.now) }
    ensures rest { IfOk result (λ x. x.1.now ≡ from 32 field.now) }
{
    let mut n: u64 = 0;
    for (at, b) in field.iter().enumerate() {
        if *b == b' ' {
            return Ok((n, field.split_at(at).1));
        }
        if at >= 16 {
            return Err(Stop::Fault(TextKind::Hex));
        }
        match hex_digit(*b) {
            Some(v) => n = n * 16 + u64::from(v),
            None => return Err(Stop::Fault(TextKind::Hex)),
        }
    }
    Ok((n, &[]))
}

/// The value of a decimal digit.
#[inline]
fn ten_digit(b: u8) -> Option<u8>
    ensures digit { result ≡ ten_digit b }
    ensures small { IfSome result (λ v. v < 10) }
{
    match b {
        b'0'..=b'9' => Some(b - b'0'),
        _ => None,
    }
}

/// The number with these one to 20 decimal digits, if it is at most `limit`.
#[inline]
#[tactic(auto, using(crate::proofs::NumberLemmas::upto_none, crate::proofs::NumberLemmas::upto_long, crate::proofs::NumberLemmas::upto_more, crate::proofs::NumberLemmas::upto_bad, crate::proofs::NumberLemmas::upto_passed, crate::proofs::NumberLemmas::upto_great, crate::proofs::NumberLemmas::upto_end))]
fn digits_upto(word: &[u8], limit: u64) -> Option<u64>
    requires { limit ≤ 2 ^ 63 }
    ensures digits { result ≡ digits_upto limit word.now }
    ensures small { IfSome result (λ n. n ≤ limit) }
{
    if word.is_empty() {
        return None;
    }
    if word.len() > 20 {
        return None;
    }
    let most = limit / 10;
    let mut n: u64 = 0;
    for (at, b) in word.iter().enumerate() {
        if n > most {
            return None;
        }
        match ten_digit(*b) {
            Some(v) => n = n * 10 + u64::from(v),
            None => return None,
        }
    }
    if n > limit {
        return None;
    }
    Some(n)
}

/// The number with these one to 20 decimal digits, if it is below 2^32.
#[inline]
#[tactic(auto, using(crate::proofs::NumberLemmas::decimal_is))]
pub(crate) fn decimal_value(word: &[u8]) -> Option<u32>
    ensures { result ≡ decimal_value word.now }
{
    match digits_upto(word, 0xffff_ffff) {
        Some(n) => Some(n as u32),
        None => None,
    }
}

/// The integer with these digits, after an optional `-`, if it is from -2^63 to 2^63 - 1.
#[tactic(auto, using(crate::proofs::NumberLemmas::integer_none, crate::proofs::NumberLemmas::negative_some, crate::proofs::NumberLemmas::negative_none, crate::proofs::NumberLemmas::positive_some, crate::proofs::NumberLemmas::positive_none))]
pub(crate) fn integer_of(word: &[u8]) -> Option<i64>
    ensures { result ≡ integer_of word.now }
{
    if word.is_empty() {
        return None;
    }
    if word[0] == b'-' {
        return match digits_upto(word.split_at(1).1, 0x8000_0000_0000_0000) {
            Some(n) => Some(negative(n)),
            None => None,
        };
    }
    match digits_upto(word, 0x7fff_ffff_ffff_ffff) {
        Some(n) => Some(n as i64),
        None => None,
    }
}

/// The negative of a number.
#[inline]
fn negative(n: u64) -> i64
    requires { n ≤ 2 ^ 63 }
    ensures { result ≡ neg_ℤ (pos n) }
{
    if n == 0x8000_0000_0000_0000 {
        i64::MIN
    } else {
        -(n as i64)
    }
}
