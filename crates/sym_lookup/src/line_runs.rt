//! Consecutive line records that are ascending and disjoint.
ghost use Rattle.std.specs.Prelude.{◌≡◌, ℕ, ◌+◌, ◌<◌, ◌≤◌, ◌^◌, nat_le, length, drop};
ghost use Rattle.std.specs.Bool.{OnTrue};
ghost use Rattle.std.specs.List.{position_from};
ghost use Rattle.sym_meaning.specs.TextNames.{is_line_at};
ghost use Rattle.sym_lookup.specs.internal.Risings.{line_end, RisesTo, is_inline};
ghost use Rattle.sym_lookup.specs.UnderOf.{AreRising};

use crate::scans::is_line_at;
use sym_records::SymLine;

/// The end of a line record, if it begins at or after the address `low` and its end is below 2^64.
#[inline]
fn end_from(line: &SymLine, low: u64) -> Option<u64>
    ensures { RisesTo low line.now result }
{
    match line {
        SymLine::Line { address, size, .. } if low <= *address => address.checked_add(*size),
        _ => None,
    }
}

/// Whether the records are line records that are ascending and disjoint.
#[tactic(auto, using(crate::proofs::RisingLemmas::rising_more, crate::proofs::RisingLemmas::rising_all))]
pub(crate) fn are_rising(records: &[SymLine]) -> bool
    ensures { OnTrue result (AreRising 0 records.now) }
{
    let mut low = 0;
    'records: for at in 0..records.len() {
        let Some(end) = end_from(&records[at], low) else {
            return false;
        };
        low = end;
    }
    true
}

fn is_inline(line: &SymLine) -> bool
    ensures { result ≡ is_inline line.now }
{
    matches!(line, SymLine::Inline { .. })
}

/// The number of `INLINE` records before the first record of another kind.
#[tactic(auto, using(crate::proofs::RisingLemmas::skip_more))]
pub(crate) fn inlines_in_front(records: &[SymLine]) -> usize
    ensures within { result ≤ length records.now }
    ensures same { (first x : ℕ) → position_from (is_line_at x) (first + result) (drop result records.now) ≡ position_from (is_line_at x) first records.now }
{
    'records: for at in 0..records.len() {
        if !is_inline(&records[at]) {
            return at;
        }
    }
    records.len()
}

/// Whether a line record ends at or below an address.
#[inline]
fn ends_by(line: &SymLine, address: u64) -> bool
    ensures { result ≡ nat_le (line_end line.now) address }
{
    match line {
        SymLine::Line {
            address: start,
            size,
            ..
        } => *start <= address && *size <= address - *start,
        _ => true,
    }
}

/// The place of the line record that covers an address, by binary search.
pub(crate) fn line_by_halves(records: &[SymLine], first: usize, address: u64) -> Option<usize>
    requires rising { AreRising 0 records.now }
    requires fits { first + length records.now < 2 ^ 64 }
    ensures { result ≡ position_from (is_line_at address) first records.now }
{
    let at = records.partition_point(|line| ends_by(line, address));
    if at >= records.len() {
        return None;
    }
    if is_line_at(&records[at], address) {
        return Some(first + at);
    }
    None
}
