//! The parts of a path.
ghost use Rattle.std.specs.Prelude.{◌≡◌, ◌<◌, ◌≤◌, ◌^◌, ◌++◌, length, take, true, IfOk, IfSome};
ghost use Rattle.std.specs.List.{list_all};
ghost use Rattle.std.specs.Option.{option_map};
ghost use Rattle.rust_names.specs.Legacy.{is_digit, undashed};
ghost use Rattle.rust_names.specs.internal.Reading.{digits_in_front, number_upto, cut_of, is_plain, pieces_text, parts_text, later_text, kept};

use crate::piece::{add_shown, piece_of, written_length};
use sym_edges::OutOfMemory;

#[inline(always)]
pub(crate) fn is_digit(b: u8) -> bool
    ensures { result ≡ is_digit b }
{
    b'0' <= b && b <= b'9'
}

/// How many decimal digits there are at the start of the bytes.
#[tactic(auto, using(crate::proofs::DigitLemmas::digits_stop, crate::proofs::DigitLemmas::digits_more, crate::proofs::DigitLemmas::digits_end))]
#[inline(always)]
pub(crate) fn count_digits(bytes: &[u8]) -> usize
    ensures count { result ≡ length (digits_in_front bytes.now) }
    ensures within { result ≤ length bytes.now }
{
    for (at, b) in bytes.iter().enumerate() {
        if !is_digit(*b) {
            return at;
        }
    }
    bytes.len()
}

/// The number that decimal digits without a leading zero write, if it is at most `most`.
#[tactic(auto, using(crate::proofs::DigitLemmas::number_none, crate::proofs::DigitLemmas::number_zero, crate::proofs::DigitLemmas::number_other, crate::proofs::DigitLemmas::number_past, crate::proofs::DigitLemmas::number_more, crate::proofs::DigitLemmas::all_more, crate::proofs::DigitLemmas::number_is))]
#[inline(always)]
pub(crate) fn number_upto(most: usize, digits: &[u8]) -> Option<usize>
    requires { most < 2 ^ 63 }
    ensures number { result ≡ number_upto most digits.now }
    ensures within { IfSome result (λ n. n ≤ most) }
    ensures some { IfSome result (λ n. 0 < length digits.now) }
{
    if digits.is_empty() || digits[0] == b'0' {
        return None;
    }
    let mut number: u64 = 0;
    for b in digits {
        if !is_digit(*b) {
            return None;
        }
        number = number
            .saturating_mul(10)
            .saturating_add(u64::from(*b - b'0'));
    }
    if number > most as u64 {
        return None;
    }
    Some(number as usize)
}

/// The bytes of the first part, and the bytes after them.
#[tactic(auto, using(crate::proofs::DigitLemmas::cut_none, crate::proofs::DigitLemmas::cut_some))]
fn cut_of(bytes: &[u8]) -> Option<(&[u8], &[u8])>
    ensures cut { option_map (λ x. (x.0.now, x.1.now)) result ≡ cut_of bytes.now }
    ensures shorter { IfSome result (λ x. length x.1.now < length bytes.now) }
{
    let (digits, after) = bytes.split_at(count_digits(bytes));
    match number_upto(after.len(), digits) {
        Some(length) => Some(after.split_at(length)),
        None => None,
    }
}

/// The bytes without their first `_`, if a `$` follows it.
fn undashed(bytes: &[u8]) -> &[u8]
    ensures { result.now ≡ undashed bytes.now }
{
    if bytes.starts_with(b"_$") {
        return bytes.split_at(1).1;
    }
    bytes
}

/// Whether a byte stands for itself, whatever follows it.
#[inline]
fn is_plain(b: u8) -> bool
    ensures { result ≡ is_plain b }
{
    b'!' <= b && b <= b'~' && b != b'$' && b != b'.'
}

/// How many bytes at the start stand for themselves, whatever follows them.
#[tactic(auto, using(crate::proofs::PieceLemmas::plain_front))]
fn count_plain(bytes: &[u8]) -> usize
    ensures within { result ≤ length bytes.now }
    ensures plain { list_all is_plain (take result bytes.now) ≡ true }
{
    for (at, b) in bytes.iter().enumerate() {
        if !is_plain(*b) {
            return at;
        }
    }
    bytes.len()
}

/// Adds what bytes show as pieces; returns false if they are no pieces.
fn add_pieces(text: &mut Vec<u8>, bytes: &[u8]) -> Result<bool, OutOfMemory>
    ensures { IfOk result (λ added. option_map (λ t. text.old.items ++ t) (pieces_text bytes.now) ≡ kept added text.new.items) }
{
    let mut rest = bytes;
    'pieces: while !rest.is_empty() {
        let (plain, after) = rest.split_at(count_plain(rest));
        text.extend_from_slice(plain)?;
        if after.is_empty() {
            return Ok(true);
        }
        match piece_of(after) {
            Some(piece) => {
                add_shown(text, piece)?;
                rest = after.split_at(written_length(piece)).1;
            }
            None => return Ok(false),
        }
    }
    Ok(true)
}

/// Adds what bytes show as parts, with `::` before each; returns false if they are no parts.
fn add_later_parts(text: &mut Vec<u8>, bytes: &[u8]) -> Result<bool, OutOfMemory>
    ensures { IfOk result (λ added. option_map (λ t. text.old.items ++ t) (later_text bytes.now) ≡ kept added text.new.items) }
{
    let mut rest = bytes;
    'parts: while !rest.is_empty() {
        match cut_of(rest) {
            Some((part, later)) => {
                text.extend_from_slice(b"::")?;
                if !add_pieces(text, undashed(part))? {
                    return Ok(false);
                }
                rest = later;
            }
            None => return Ok(false),
        }
    }
    Ok(true)
}

/// Adds what bytes show as one or more parts, with `::` between them; returns false if they are no
/// parts.
pub(crate) fn add_parts(text: &mut Vec<u8>, bytes: &[u8]) -> Result<bool, OutOfMemory>
    ensures { IfOk result (λ added. option_map (λ t. text.old.items ++ t) (parts_text bytes.now) ≡ kept added text.new.items) }
{
    match cut_of(bytes) {
        Some((part, later)) => {
            if !add_pieces(text, undashed(part))? {
                return Ok(false);
            }
            let added = add_later_parts(text, later)?;
            Ok(added)
        }
        None => Ok(false),
    }
}
