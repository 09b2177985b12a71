//! The fields of a line, read from left to right. Each call returns a value and the bytes after it.
ghost use Rattle.std.specs.Prelude.{◌≡◌, ◌<◌, length, IfOk};
ghost use Rattle.sym_rules.specs.RuleReading.{words};
ghost use Rattle.sym_records.specs.FieldReading.{word_at, name_at, hex_at, mark_at, marked_at, decimal_at, ranges_at, last_at};
ghost use Rattle.sym_grammar.specs.internal.Given.{Gives};
ghost use Rattle.sym_grammar.specs.internal.Runs.{range_run};

use crate::numbers::{decimal_value, hex_field};
use std::alloc::Global;
use sym_edges::Stop;
use sym_records::{Extent, Extents};
use sym_rules::{ByteText, TextKind, cut_word, skip_spaces};

/// The next field.
#[inline]
#[tactic(auto, using(crate::proofs::FieldLemmas::field_some, crate::proofs::FieldLemmas::field_none, crate::proofs::FieldLemmas::from_shorter), unfolding(sym_records::specs::FieldReading::word_at))]
pub(crate) fn word_at(bytes: &[u8]) -> Result<(&[u8], &[u8]), Stop<TextKind>>
    ensures word { Gives result (λ x. (x.0.now, x.1.now)) (word_at bytes.now) }
    ensures shorter { IfOk result (λ x. length x.1.now < length bytes.now) }
{
    let field = skip_spaces(bytes);
    if field.is_empty() {
        return Err(Stop::Fault(TextKind::Fields));
    }
    let (word, rest) = cut_word(field);
    Ok((word, rest))
}

/// The next field as a hexadecimal number.
#[inline]
#[tactic(auto, using(crate::proofs::FieldLemmas::hex_first, crate::proofs::FieldLemmas::hex_none, crate::proofs::FieldLemmas::from_shorter), unfolding(crate::specs::internal::Runs::hex_field))]
pub(crate) fn hex_at(bytes: &[u8]) -> Result<(u64, &[u8]), Stop<TextKind>>
    ensures number { Gives result (λ x. (x.0, x.1.now)) (hex_at bytes.now) }
    ensures shorter { IfOk result (λ x. length x.1.now < length bytes.now) }
{
    let field = skip_spaces(bytes);
    if field.is_empty() {
        return Err(Stop::Fault(TextKind::Fields));
    }
    hex_field(field)
}

/// The next field as a decimal number.
#[inline]
#[tactic(auto, unfolding(sym_records::specs::FieldReading::decimal_at))]
pub(crate) fn decimal_at(bytes: &[u8]) -> Result<(u32, &[u8]), Stop<TextKind>>
    ensures { Gives result (λ x. (x.0, x.1.now)) (decimal_at bytes.now) }
{
    let (word, rest) = word_at(bytes)?;
    match decimal_value(word) {
        Some(n) => Ok((n, rest)),
        None => Err(Stop::Fault(TextKind::Decimal)),
    }
}

/// Whether the next field is `m`, and the bytes after it; if it is not, all bytes.
#[inline]
#[tactic(auto, unfolding(sym_records::specs::FieldReading::mark_at))]
fn mark_at(bytes: &[u8]) -> (bool, &[u8])
    ensures many { result.0 ≡ (mark_at bytes.now).0 }
    ensures rest { result.1.now ≡ (mark_at bytes.now).1 }
{
    let (word, rest) = cut_word(skip_spaces(bytes));
    if word == b"m".as_slice() {
        (true, rest)
    } else {
        (false, bytes)
    }
}

/// An optional `m`, then a hexadecimal number.
#[inline]
#[tactic(auto, unfolding(sym_records::specs::FieldReading::marked_at))]
pub(crate) fn marked_at(bytes: &[u8]) -> Result<((bool, u64), &[u8]), Stop<TextKind>>
    ensures { Gives result (λ x. (x.0, x.1.now)) (marked_at bytes.now) }
{
    let (many, rest) = mark_at(bytes);
    let (n, later) = hex_at(rest)?;
    Ok(((many, n), later))
}

/// All remaining bytes as a name.
#[tactic(auto, using(crate::proofs::FieldLemmas::name_some, crate::proofs::FieldLemmas::name_none), unfolding(sym_records::specs::FieldReading::name_at))]
pub(crate) fn name_at(alloc: Global, bytes: &[u8]) -> Result<ByteText, Stop<TextKind>>
    ensures { Gives result (λ x. x) (name_at bytes.now) }
{
    let name = skip_spaces(bytes);
    if name.is_empty() {
        return Err(Stop::Fault(TextKind::Fields));
    }
    Ok(ByteText::of(Vec::from_slice(alloc, name)?))
}

/// The last field, as a decimal number.
#[inline]
#[tactic(auto, using(crate::proofs::FieldLemmas::end_some, crate::proofs::FieldLemmas::end_none), unfolding(sym_records::specs::FieldReading::last_at))]
pub(crate) fn last_at(bytes: &[u8]) -> Result<u32, Stop<TextKind>>
    ensures { Gives result (λ x. x) (last_at bytes.now) }
{
    let (n, rest) = decimal_at(bytes)?;
    if skip_spaces(rest).is_empty() {
        Ok(n)
    } else {
        Err(Stop::Fault(TextKind::Fields))
    }
}

/// The next range: its address and its size.
#[tactic(auto, unfolding(crate::specs::internal::Runs::range_run))]
fn range_at(bytes: &[u8]) -> Result<(Extent, &[u8]), Stop<TextKind>>
    ensures range { Gives result (λ x. (x.0, x.1.now)) (range_run bytes.now) }
    ensures shorter { IfOk result (λ x. length x.1.now < length bytes.now) }
{
    let (address, rest) = hex_at(bytes)?;
    let (size, later) = hex_at(rest)?;
    Ok((Extent { address, size }, later))
}

/// All remaining bytes as ranges.
#[tactic(auto, using(crate::proofs::FieldLemmas::skip_stays, crate::proofs::FieldLemmas::ranges_more, crate::proofs::FieldLemmas::ranges_fault, crate::proofs::FieldLemmas::ranges_some, crate::proofs::FieldLemmas::ranges_none, crate::proofs::FieldLemmas::ranges_start))]
pub(crate) fn ranges_at(alloc: Global, bytes: &[u8]) -> Result<Extents, Stop<TextKind>>
    ensures { Gives result (λ x. x) (ranges_at bytes.now) }
{
    let mut ranges = Vec::new(alloc);
    let mut rest = skip_spaces(bytes);
    'turns: while !rest.is_empty() {
        match range_at(rest) {
            Ok((range, later)) => {
                ranges.push(range)?;
                rest = skip_spaces(later);
            }
            Err(stop) => return Err(stop),
        }
    }
    if ranges.is_empty() {
        return Err(Stop::Fault(TextKind::Fields));
    }
    Ok(Extents::of(ranges))
}
