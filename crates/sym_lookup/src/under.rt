//! The records under a `FUNC`, stored so that those at an address are found by binary search.
ghost use Rattle.std.specs.Prelude.{◌≡◌, ℕ, ◌+◌, ◌<◌, ◌^◌, nat_le, true, List, length, IfOk, OnOk, IfSome};
ghost use Rattle.std.specs.List.{sum_by};
ghost use Rattle.std.specs.Option.{is_some};
ghost use Rattle.sym_records.specs.declared.line.SymLine.{SymLine};
ghost use Rattle.sym_meaning.specs.TextNames.{level_count};
ghost use Rattle.sym_lookup.specs.declared.answers.Answer.TheVariants as answer;
ghost use Rattle.sym_lookup.specs.Answers.{chain_from, chain_places, line_place};
ghost use Rattle.sym_lookup.specs.UnderOf.{chain_in, IsLineFinder, IsUnder, AreUnders};
ghost use Rattle.sym_lookup.specs.internal.HeldUnders.{range_count, is_func, is_held, AreHeld};

use crate::answers::{Answer, PlaceList};
use crate::line_runs::{are_rising, inlines_in_front, line_by_halves};
use crate::scans::{in_function, level_count, under_func};
use crate::stretches::{Kind, PlaceMap, by_level, level_map, place_at, place_map};
use std::alloc::Global;
use sym_edges::OutOfMemory;
use sym_records::SymLine;

/// How the line record that covers an address is found.
#[derive(Drop)]
pub enum LineFinder {
    /// By binary search: the line records from `first` to `end` are ascending and disjoint.
    Rising { first: u32, end: u32 },
    /// By a map of the line records.
    Map { map: PlaceMap },
}

/// The records under the `FUNC` at a place: a map for each level of `INLINE` records, and a way to
/// find the line records.
#[derive(Drop)]
pub struct Under {
    func: u32,
    levels: Vec<PlaceMap>,
    lines: LineFinder,
}

/// A map of the `INLINE` records of each level, up to the first level that has none.
fn levels_of(alloc: Global, records: &[SymLine], first: usize) -> Result<Vec<PlaceMap>, OutOfMemory>
    requires { first + length records.now < 2 ^ 32 }
    ensures { IfOk result (λ levels. (x : ℕ) → x < 2 ^ 64 → chain_in levels.items x ≡ chain_from first x 0 (level_count records.now) records.now) }
{
    let count = level_count(records);
    let held = records.len().min(count as usize);
    let leveled = by_level(alloc, records, first, held)?;
    let mut levels = Vec::new(alloc);
    'levels: for level in 0..count {
        let Some(map) = level_map(alloc, leveled.as_slice(), level, first, records)? else {
            return Ok(levels);
        };
        levels.push(map)?;
    }
    Ok(levels)
}

/// The places that the maps give at an address, in order, up to the first map that gives none.
fn chain_at(alloc: Global, levels: &[PlaceMap], address: u64) -> Result<PlaceList, OutOfMemory>
    ensures { IfOk result (λ chain. chain ≡ chain_in levels.now address) }
{
    let mut chain = Vec::new(alloc);
    'levels: for at in 0..levels.len() {
        let Some(place) = place_at(&levels[at], address) else {
            return Ok(PlaceList::of(chain));
        };
        chain.push(place)?;
    }
    Ok(PlaceList::of(chain))
}

/// The way to find the line records under a `FUNC`. It is binary search if they are ascending and
/// disjoint, and only `INLINE` records come before them.
fn line_finder(alloc: Global, lines: &[SymLine], func: usize) -> Result<LineFinder, OutOfMemory>
    requires within { func < length lines.now }
    requires few { length lines.now < 2 ^ 32 }
    ensures { IfOk result (λ finder. IsLineFinder lines.now func finder) }
{
    let records = under_func(lines, func);
    let skip = inlines_in_front(records);
    if are_rising(records.split_at(skip).1) {
        return Ok(LineFinder::Rising {
            first: (func + 1 + skip) as u32,
            end: (func + 1 + records.len()) as u32,
        });
    }
    let map = place_map(alloc, Kind::Lines, func + 1, records)?;
    Ok(LineFinder::Map { map })
}

/// The first line record under a `FUNC` that covers an address.
pub(crate) fn line_in(under: &Under, lines: &[SymLine], address: u64) -> Option<usize>
    requires { IsLineFinder lines.now under.now.func under.now.lines }
    ensures { result ≡ line_place lines.now under.now.func address }
{
    match &under.lines {
        LineFinder::Rising { first, end } => {
            let first = *first as usize;
            line_by_halves(&lines[first..*end as usize], first, address)
        }
        LineFinder::Map { map } => place_at(map, address),
    }
}

/// Makes the maps and the line finder of the `FUNC` at a place.
fn under_of(alloc: Global, lines: &[SymLine], func: usize) -> Result<Under, OutOfMemory>
    requires within { func < length lines.now }
    requires few { length lines.now < 2 ^ 32 }
    ensures func { IfOk result (λ under. under.func ≡ func) }
    ensures under { IfOk result (λ under. IsUnder lines.now under) }
{
    let levels = levels_of(alloc, under_func(lines, func), func + 1)?;
    let finder = line_finder(alloc, lines, func)?;
    Ok(Under {
        func: func as u32,
        levels,
        lines: finder,
    })
}

fn is_func(line: &SymLine) -> bool
    ensures { result ≡ is_func line.now }
{
    matches!(line, SymLine::Func { .. })
}

/// Up to this many ranges under a `FUNC`, the index stores nothing, and they are scanned.
const FEW: usize = 32;

/// The number of ranges of a record under a `FUNC`, but at least one.
fn range_count(line: &SymLine) -> usize
    ensures { result ≡ range_count line.now }
{
    match line {
        SymLine::Inline { ranges, .. } => ranges.len().max(1),
        _ => 1,
    }
}

/// Whether some records have at most a few ranges.
fn are_few(records: &[SymLine]) -> bool
    ensures { result ≡ nat_le (sum_by range_count records.now) 32 }
{
    let mut room = FEW;
    'records: for at in 0..records.len() {
        let many = range_count(&records[at]);
        if many > room {
            return false;
        }
        room -= many;
    }
    true
}

/// Whether the record at a place is a `FUNC` with more than a few ranges under it.
fn is_held(lines: &[SymLine], func: usize) -> bool
    requires { func < length lines.now }
    ensures { result ≡ is_held lines.now func }
{
    is_func(&lines[func]) && !are_few(under_func(lines, func))
}

/// Adds the maps and the line finder of the `FUNC` at a place, which is the next that has more than
/// a few ranges under it.
#[tactic(auto, using(crate::proofs::UnderOfLemmas::unders_joined, crate::proofs::HeldLemmas::held_joined))]
fn push_under(
    alloc: Global,
    unders: &mut Vec<Under>,
    lines: &[SymLine],
    func: usize,
) -> Result<(), OutOfMemory>
    requires within { func < length lines.now }
    requires few { length lines.now < 2 ^ 32 }
    requires unders { AreUnders lines.now unders.old.items }
    requires held { AreHeld lines.now 0 func unders.old.items }
    requires next { is_held lines.now func ≡ true }
    ensures unders { OnOk result (AreUnders lines.now unders.new.items) }
    ensures held { OnOk result (AreHeld lines.now 0 (func + 1) unders.new.items) }
{
    let under = under_of(alloc, lines, func)?;
    unders.push(under)?;
    Ok(())
}

/// The maps and line finders of all `FUNC` records that have more than a few ranges under them, in
/// order.
#[tactic(auto, using(crate::proofs::HeldLemmas::held_skipped))]
pub(crate) fn unders_of(alloc: Global, lines: &[SymLine]) -> Result<Vec<Under>, OutOfMemory>
    requires { length lines.now < 2 ^ 32 }
    ensures unders { IfOk result (λ unders. AreUnders lines.now unders.items) }
    ensures held { IfOk result (λ unders. AreHeld lines.now 0 (length lines.now) unders.items) }
{
    let mut unders = Vec::new(alloc);
    'lines: for at in 0..lines.len() {
        if !is_held(lines, at) {
            continue;
        }
        push_under(alloc, &mut unders, lines, at)?;
    }
    Ok(unders)
}

/// The stored maps and line finder of the `FUNC` at a place, by binary search.
#[tactic(auto, using(crate::proofs::UnderOfLemmas::under_there))]
pub(crate) fn under_at(unders: &[Under], func: usize) -> Option<&Under>
    ensures func { IfSome result (λ under. under.now.func ≡ func) }
    ensures under { IfSome result (λ under. (lines : List SymLine) → AreUnders lines unders.now → IsUnder lines under.now) }
    ensures held { (lines : List SymLine) → AreHeld lines 0 (length lines) unders.now → is_some result ≡ is_held lines func }
{
    let at = unders.partition_point(|under| (under.func as usize) < func);
    if at >= unders.len() {
        return None;
    }
    let under = &unders[at];
    if under.func as usize != func {
        return None;
    }
    Some(under)
}

/// The maps of the `INLINE` records of each level.
pub(crate) fn level_maps(under: &Under) -> &[PlaceMap]
    ensures { result.now ≡ under.now.levels.items }
{
    under.levels.as_slice()
}

/// The answer for a `FUNC`, given its maps and its line finder.
fn in_under(
    alloc: Global,
    under: &Under,
    lines: &[SymLine],
    address: u64,
) -> Result<Answer, OutOfMemory>
    requires { IsUnder lines.now under.now }
    ensures { IfOk result (λ found. found ≡ answer.Function under.now.func (chain_places lines.now under.now.func address) (line_place lines.now under.now.func address)) }
{
    let chain = chain_at(alloc, under.levels.as_slice(), address)?;
    let line = line_in(under, lines, address);
    Ok(Answer::Function {
        func: under.func as usize,
        chain,
        line,
    })
}

/// The answer for a `FUNC` that covers the address, by what the index stores of it, if anything.
pub(crate) fn held_in_function(
    alloc: Global,
    unders: &[Under],
    lines: &[SymLine],
    func: usize,
    address: u64,
) -> Result<Answer, OutOfMemory>
    requires within { func < length lines.now }
    requires unders { AreUnders lines.now unders.now }
    ensures { IfOk result (λ found. found ≡ answer.Function func (chain_places lines.now func address) (line_place lines.now func address)) }
{
    match under_at(unders, func) {
        Some(under) => {
            let found = in_under(alloc, under, lines, address)?;
            Ok(found)
        }
        None => {
            let found = in_function(alloc, lines, func, address)?;
            Ok(found)
        }
    }
}
