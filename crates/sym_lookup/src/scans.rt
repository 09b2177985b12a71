//! Looking up an address by scans.
ghost use Rattle.std.specs.Prelude.{◌≡◌, ℕ, ◌+◌, ◌<◌, ◌≤◌, ◌^◌, if◌then◌else◌, length, drop, replicate, slice_get, None, IfOk, IfSome};
ghost use Rattle.std.specs.List.{list_any, position, position_from};
ghost use Rattle.std.specs.Option.{option_map};
ghost use Rattle.sym_meaning.specs.TextNames.{is_within, under, is_func_at, is_line_at, is_inline_at, level_count};
ghost use Rattle.sym_lookup.specs.declared.answers.Answer.TheVariants as answer;
ghost use Rattle.sym_lookup.specs.Answers.{chain_from, chain_places, line_place, func_place, nearer, greater, nearest_public, is_public_of, begins_between, public_place, answer_of};
ghost use Rattle.sym_lookup.specs.internal.Scans.{is_under, level_end, sooner, AreFirsts};
ghost use Rattle.sym_records.specs.declared.line.Extent.{Extent};

use crate::answers::{Answer, PlaceList};
use std::alloc::Global;
use sym_edges::OutOfMemory;
use sym_records::{Extent, SymFile, SymLine};

/// Whether the address is one of the `size` addresses from a first one on.
#[inline]
pub(crate) fn is_within(start: u64, size: u64, address: u64) -> bool
    ensures { result ≡ is_within start size address }
{
    start <= address && address - start < size
}

/// Whether the record is a `FUNC` that covers the address.
#[inline]
pub(crate) fn is_func_at(line: &SymLine, address: u64) -> bool
    ensures { result ≡ is_func_at address line.now }
{
    match line {
        SymLine::Func {
            address: start,
            size,
            ..
        } => is_within(*start, *size, address),
        _ => false,
    }
}

/// Whether the record is a line record that covers the address.
#[inline]
pub(crate) fn is_line_at(line: &SymLine, address: u64) -> bool
    ensures { result ≡ is_line_at address line.now }
{
    match line {
        SymLine::Line {
            address: start,
            size,
            ..
        } => is_within(*start, *size, address),
        _ => false,
    }
}

/// Whether some range has the address.
fn has_address(ranges: &[Extent], address: u64) -> bool
    ensures { result ≡ list_any (λ (r : Extent). is_within r.address r.size address) ranges.now }
{
    ranges
        .iter()
        .any(|range| is_within(range.address, range.size, address))
}

/// Whether the record is an `INLINE` of the level that covers the address.
pub(crate) fn is_inline_at(line: &SymLine, level: u64, address: u64) -> bool
    ensures { result ≡ is_inline_at level address line.now }
{
    match line {
        SymLine::Inline {
            level: own,
            ranges,
            ..
        } => u64::from(*own) == level && has_address(ranges.as_slice(), address),
        _ => false,
    }
}

fn is_under(line: &SymLine) -> bool
    ensures { result ≡ is_under line.now }
{
    matches!(line, SymLine::Inline { .. } | SymLine::Line { .. })
}

/// The records directly under a `FUNC`, given the records after it.
#[tactic(auto, using(crate::proofs::UnderLemmas::under_begins, crate::proofs::UnderLemmas::under_more, crate::proofs::UnderLemmas::under_stops, crate::proofs::UnderLemmas::under_all))]
pub(crate) fn under(lines: &[SymLine]) -> &[SymLine]
    ensures under { result.now ≡ under lines.now }
    ensures within { length result.now ≤ length lines.now }
{
    'records: for at in 0..lines.len() {
        if !is_under(&lines[at]) {
            return lines.split_at(at).0;
        }
    }
    lines
}

/// One more than the level of an `INLINE`, or 0 for another record.
fn level_end(line: &SymLine) -> u64
    ensures result { result ≡ level_end line.now }
    ensures small { result < 2 ^ 33 }
{
    match line {
        SymLine::Inline { level, .. } => u64::from(*level) + 1,
        _ => 0,
    }
}

/// One more than the highest level, or 0 if there is no `INLINE`.
#[tactic(auto, using(crate::proofs::UnderLemmas::levels_more))]
pub(crate) fn level_count(records: &[SymLine]) -> u64
    ensures { result ≡ level_count records.now }
{
    let mut count = 0;
    let mut rest = records;
    'records: while let Some((line, later)) = rest.split_first() {
        count = level_end(line).max(count);
        rest = later;
    }
    count
}

/// The place of the first line record that covers the address. The first record has the place
/// `first`.
#[tactic(auto, using(crate::proofs::PlaceLemmas::placed_more, crate::proofs::PlaceLemmas::placed_found, crate::proofs::PlaceLemmas::placed_none))]
fn line_from(records: &[SymLine], first: usize, address: u64) -> Option<usize>
    requires { first + length records.now < 2 ^ 64 }
    ensures { result ≡ position_from (is_line_at address) first records.now }
{
    for (at, line) in records.iter().enumerate() {
        if is_line_at(line, address) {
            return Some(first + at);
        }
    }
    None
}

/// The place of the first `INLINE` of the level that covers the address. The first record has the
/// place `first`.
#[tactic(auto, using(crate::proofs::PlaceLemmas::placed_more, crate::proofs::PlaceLemmas::placed_found, crate::proofs::PlaceLemmas::placed_none))]
fn inline_from(records: &[SymLine], first: usize, level: u64, address: u64) -> Option<usize>
    requires { first + length records.now < 2 ^ 64 }
    ensures { result ≡ position_from (is_inline_at level address) first records.now }
{
    for (at, line) in records.iter().enumerate() {
        if is_inline_at(line, level, address) {
            return Some(first + at);
        }
    }
    None
}

/// If the record is an `INLINE` that covers the address, it becomes the first of its level,
/// provided that the list has this level.
fn note_inline(firsts: &mut Vec<Option<usize>>, place: usize, line: &SymLine, address: u64)
    ensures { (level : ℕ) → slice_get firsts.new.items level ≡ option_map (sooner level address place line.now) (slice_get firsts.old.items level) }
{
    let SymLine::Inline { level, ranges, .. } = line else {
        return;
    };
    let level = *level as usize;
    if level >= firsts.len() {
        return;
    }
    if has_address(ranges.as_slice(), address) {
        firsts[level] = Some(place);
    }
}

/// A list without a place for each level below `count`.
fn no_places(alloc: Global, count: usize) -> Result<Vec<Option<usize>>, OutOfMemory>
    ensures { IfOk result (λ places. places.items ≡ replicate count None) }
{
    let mut places = Vec::with_capacity(alloc, count)?;
    'levels: for level in 0..count {
        places.push(None)?;
    }
    Ok(places)
}

/// For each level below `count`, the first `INLINE` that covers the address, found in one pass.
fn firsts_at(
    alloc: Global,
    records: &[SymLine],
    first: usize,
    count: usize,
    address: u64,
) -> Result<Vec<Option<usize>>, OutOfMemory>
    requires { first + length records.now < 2 ^ 64 }
    ensures { IfOk result (λ firsts. AreFirsts first address records.now firsts.items) }
{
    let mut firsts = no_places(alloc, count)?;
    'records: for at in (0..records.len()).rev() {
        note_inline(&mut firsts, first + at, &records[at], address);
    }
    Ok(firsts)
}

/// The place of the first `INLINE` of a level that covers the address. It is in `firsts` if this
/// list has the level; otherwise the records are scanned.
fn first_of_level(
    firsts: &[Option<usize>],
    records: &[SymLine],
    first: usize,
    level: u64,
    address: u64,
) -> Option<usize>
    requires fits { first + length records.now < 2 ^ 64 }
    requires firsts { AreFirsts first address records.now firsts.now }
    ensures { result ≡ position_from (is_inline_at level address) first records.now }
{
    match firsts.get(level as usize) {
        Some(found) => *found,
        None => inline_from(records, first, level, address),
    }
}

/// The first `INLINE` of each level that covers the address, up to the first level without one.
#[tactic(auto, using(crate::proofs::PlaceLemmas::chain_more, crate::proofs::PlaceLemmas::chain_stops))]
fn chain_from(
    alloc: Global,
    records: &[SymLine],
    first: usize,
    address: u64,
) -> Result<PlaceList, OutOfMemory>
    requires { first + length records.now < 2 ^ 64 }
    ensures { IfOk result (λ chain. chain ≡ chain_from first address 0 (level_count records.now) records.now) }
{
    let count = level_count(records);
    let held = records.len().min(count as usize);
    let firsts = firsts_at(alloc, records, first, held, address)?;
    let mut chain = Vec::new(alloc);
    'levels: for level in 0..count {
        let Some(place) = first_of_level(firsts.as_slice(), records, first, level, address) else {
            return Ok(PlaceList::of(chain));
        };
        chain.push(place)?;
    }
    Ok(PlaceList::of(chain))
}

/// The records directly under the `FUNC` at a place.
pub(crate) fn under_func(lines: &[SymLine], func: usize) -> &[SymLine]
    requires { func < length lines.now }
    ensures under { result.now ≡ under (drop (func + 1) lines.now) }
    ensures within { func + 1 + length result.now ≤ length lines.now }
    ensures fits { func + 1 + length result.now < 2 ^ 64 }
{
    under(lines.split_at(func + 1).1)
}

/// The answer for a `FUNC` that covers the address.
#[tactic(auto, unfolding(crate::specs::Answers::chain_places, crate::specs::Answers::line_place))]
pub(crate) fn in_function(
    alloc: Global,
    lines: &[SymLine],
    func: usize,
    address: u64,
) -> Result<Answer, OutOfMemory>
    requires { func < length lines.now }
    ensures { IfOk result (λ found. found ≡ answer.Function func (chain_places lines.now func address) (line_place lines.now func address)) }
{
    let records = under_func(lines, func);
    let chain = chain_from(alloc, records, func + 1, address)?;
    let line = line_from(records, func + 1, address);
    Ok(Answer::Function { func, chain, line })
}

/// The place of the first `FUNC` that covers the address.
#[tactic(auto, unfolding(crate::specs::Answers::func_place))]
fn func_at(lines: &[SymLine], address: u64) -> Option<usize>
    ensures place { result ≡ func_place lines.now address }
    ensures within { IfSome result (λ func. func < length lines.now) }
{
    lines.iter().position(|line| is_func_at(line, address))
}

fn greater(a: u64, other: Option<u64>) -> Option<u64>
    ensures { result ≡ greater a other }
{
    match other {
        None => Some(a),
        Some(b) => Some(a.max(b)),
    }
}

/// The greater of `other` and the address of a `PUBLIC`. A `PUBLIC` above the address does not
/// count.
fn nearer(line: &SymLine, address: u64, other: Option<u64>) -> Option<u64>
    ensures { result ≡ nearer address line.now other }
{
    match line {
        SymLine::Public { address: at, .. } if *at <= address => greater(*at, other),
        _ => other,
    }
}

/// The greatest address of a `PUBLIC` at or below the address.
#[tactic(auto, using(crate::proofs::PublicLemmas::nearest_more, crate::proofs::PublicLemmas::nearest_end, crate::proofs::PublicLemmas::nearest_all))]
fn nearest_public(lines: &[SymLine], address: u64) -> Option<u64>
    ensures { result ≡ nearest_public lines.now address }
{
    let mut nearest = None;
    'lines: for at in (0..lines.len()).rev() {
        nearest = nearer(&lines[at], address, nearest);
    }
    nearest
}

fn is_public_of(line: &SymLine, a: u64) -> bool
    ensures { result ≡ is_public_of a line.now }
{
    match line {
        SymLine::Public { address, .. } => *address == a,
        _ => false,
    }
}

/// Whether the record is a `FUNC` that begins at an address from `a` to `last`, both included.
fn begins_between(line: &SymLine, a: u64, last: u64) -> bool
    ensures { result ≡ begins_between a last line.now }
{
    match line {
        SymLine::Func { address, .. } => a <= *address && *address <= last,
        _ => false,
    }
}

/// Whether some `FUNC` begins at an address from `a` to `last`, both included.
fn begins(lines: &[SymLine], a: u64, last: u64) -> bool
    ensures { result ≡ list_any (begins_between a last) lines.now }
{
    lines.iter().any(|line| begins_between(line, a, last))
}

/// The place of the first `PUBLIC` at an address.
fn first_public(lines: &[SymLine], a: u64) -> Option<usize>
    ensures { result ≡ position (is_public_of a) lines.now }
{
    lines.iter().position(|line| is_public_of(line, a))
}

/// The place of the first `PUBLIC` at the address `a`, unless a `FUNC` begins at an address from
/// there to `address`.
fn public_from(lines: &[SymLine], a: u64, address: u64) -> Option<usize>
    ensures { result ≡ (if list_any (begins_between a address) lines.now then None else position (is_public_of a) lines.now) }
{
    if begins(lines, a, address) {
        return None;
    }
    first_public(lines, a)
}

/// The place of the `PUBLIC` before the address.
#[tactic(auto, unfolding(crate::specs::Answers::public_place))]
fn public_at(lines: &[SymLine], address: u64) -> Option<usize>
    ensures { result ≡ public_place lines.now address }
{
    match nearest_public(lines, address) {
        None => None,
        Some(a) => public_from(lines, a, address),
    }
}

/// The answer at an address.
#[tactic(auto, unfolding(crate::specs::Answers::answer_of))]
pub fn answer_at(alloc: Global, file: &SymFile, address: u64) -> Result<Answer, OutOfMemory>
    ensures { IfOk result (λ found. found ≡ answer_of file.now address) }
{
    let lines = file.as_slice();
    match func_at(lines, address) {
        Some(func) => {
            let found = in_function(alloc, lines, func, address)?;
            Ok(found)
        }
        None => match public_at(lines, address) {
            Some(index) => Ok(Answer::Public { index }),
            None => Ok(Answer::Nothing),
        },
    }
}
