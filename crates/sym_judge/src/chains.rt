//! The chains of calls of functions with many levels, by their numbers: one map from addresses for each function, so that comparing two chains is
//! comparing two numbers.
ghost use Rattle.std.specs.Prelude.{◌≡◌, ◌≤◌, ◌<◌, ◌^◌, ◌++◌, ◌&&◌, ℕ, Bool, true, false, [], ◌∷◌, List, Option, IfOk, OnOk, IfSome, length, slice_get, if◌then◌else◌};
ghost use Rattle.std.specs.Bool.{OnTrue};
ghost use Rattle.std.specs.Option.{is_some};
ghost use Rattle.sym_records.specs.declared.line.SymLine.{SymLine};
ghost use Rattle.step_maps.specs.Stepping.{Stepping, value_at};
ghost use Rattle.step_maps.specs.declared.stretch.FirstItem.{FirstItem};
ghost use Rattle.sym_lookup.specs.Answers.{chain_places};
ghost use Rattle.sym_lookup.specs.PlaceMaps.{IsBefore};
ghost use Rattle.sym_lookup.specs.UnderOf.{chain_in};
ghost use Rattle.sym_judge.specs.declared.chain_numbers.Entry.{Entry};
ghost use Rattle.sym_judge.specs.declared.chains.ChainPart.TheVariants.{Nothing};
ghost use Rattle.sym_judge.specs.internal.Chains.{Keeps, Shown, Means, IsPart, calls_there, AreMapped, IsChainMap, AreFuncChains};

use crate::calls::Calls;
use crate::chain_numbers::{Numbers, call_number, joined_number};
use crate::doubtful_addresses::nearer;
use crate::indexed_files::IndexedFile;
use std::alloc::Global;
use step_maps::{FirstItem, StepMap};
use sym_edges::OutOfMemory;
use sym_lookup::place_run;

/// Which `INLINE` of a level is the first at each address.
pub(crate) type LevelMap = StepMap<Option<FirstItem>>;

/// The calls that some levels have at an address.
#[derive(Clone, Copy)]
pub enum ChainPart {
    /// The first level has no call.
    Nothing,
    /// Each level has a call, and their chain has this number.
    Whole(u32),
    /// Some level has no call; the chain of the levels before it has this number.
    Ended(u32),
    /// The chain has no number: the first file does not have one of the calls.
    Unlike,
}

/// The calls of some levels at each address.
pub(crate) type ChainMap = StepMap<ChainPart>;

/// The calls from an address up to an end above it.
#[derive(Clone, Copy)]
pub struct PartRun {
    pub part: ChainPart,
    pub end: Option<u64>,
}

/// The chains of the `FUNC` at a place.
#[derive(Drop)]
pub struct FuncChains {
    pub func: usize,
    pub chains: ChainMap,
}

/// The number of levels up to which chains are compared call by call; no map is made of them.
const FEW: usize = 16;

fn stop_at(stops: &[u64], index: usize) -> Option<u64>
    ensures { result ≡ slice_get stops.now index }
{
    stops.get(index).copied()
}

/// The calls that a map has at an address, and an end up to which they are the same.
fn part_run(map: &ChainMap, address: u64) -> PartRun
    ensures above { IsBefore result.end address }
    ensures same { (y : ℕ) → address ≤ y → IsBefore result.end y → value_at Nothing map.now y ≡ result.part }
{
    let stops = map.stops();
    let count = stops.partition_point(|stop| *stop <= address);
    PartRun {
        part: map.at(ChainPart::Nothing, address),
        end: stop_at(stops, count),
    }
}

/// The calls of a number; `full` says that each level has one.
fn numbered(number: Option<u32>, full: bool) -> ChainPart
    ensures { (own : List SymLine) (entries : List Entry) (calls : List Shown) → IfSome number (λ n. Means own entries n calls) → IsPart own entries calls full result }
{
    match (number, full) {
        (Some(number), true) => ChainPart::Whole(number),
        (Some(number), false) => ChainPart::Ended(number),
        (None, _) => ChainPart::Unlike,
    }
}

/// The call of a level, given the place of its `INLINE`.
fn level_part(
    calls: &Calls<'_, '_>,
    numbers: &mut Numbers,
    place: Option<usize>,
) -> Result<ChainPart, OutOfMemory>
    ensures keeps { OnOk result (Keeps numbers.old.entries.items numbers.new.entries.items) }
    ensures part { IfOk result (λ part. IsPart calls.now.own numbers.new.entries.items (calls_there calls.now.other place) (is_some place) part) }
{
    let Some(place) = place else {
        return Ok(ChainPart::Nothing);
    };
    let Some(call) = calls.at(place) else {
        return Ok(ChainPart::Unlike);
    };
    let number = call_number(numbers, call)?;
    Ok(numbered(number, true))
}

/// The calls of levels, given the number for the calls of the first levels, of which each has one,
/// and the calls of the others.
fn longer_part(
    numbers: &mut Numbers,
    number: u32,
    back: ChainPart,
) -> Result<ChainPart, OutOfMemory>
    ensures keeps { OnOk result (Keeps numbers.old.entries.items numbers.new.entries.items) }
    ensures part { IfOk result (λ part. (own : List SymLine) (c d : List Shown) (g : Bool) → Means own numbers.old.entries.items number c → IsPart own numbers.old.entries.items d g back → IsPart own numbers.new.entries.items (c ++ d) g part) }
{
    match back {
        ChainPart::Nothing => Ok(ChainPart::Ended(number)),
        ChainPart::Whole(other) => Ok(numbered(joined_number(numbers, number, other)?, true)),
        ChainPart::Ended(other) => Ok(numbered(joined_number(numbers, number, other)?, false)),
        ChainPart::Unlike => Ok(ChainPart::Unlike),
    }
}

/// The calls of levels, given those of the first levels and those of the others.
fn joined_part(
    numbers: &mut Numbers,
    front: ChainPart,
    back: ChainPart,
) -> Result<ChainPart, OutOfMemory>
    ensures keeps { OnOk result (Keeps numbers.old.entries.items numbers.new.entries.items) }
    ensures part { IfOk result (λ part. (own : List SymLine) (c d : List Shown) (f g : Bool) → IsPart own numbers.old.entries.items c f front → IsPart own numbers.old.entries.items d g back → IsPart own numbers.new.entries.items (if f then c ++ d else c) (f && g) part) }
{
    match front {
        ChainPart::Whole(number) => longer_part(numbers, number, back),
        other => Ok(other),
    }
}

/// The calls of one level at each address.
fn level_map(
    alloc: Global,
    calls: &Calls<'_, '_>,
    numbers: &mut Numbers,
    level: &LevelMap,
) -> Result<ChainMap, OutOfMemory>
    ensures keeps { OnOk result (Keeps numbers.old.entries.items numbers.new.entries.items) }
    ensures mapped { IfOk result (λ map. AreMapped calls.now.own calls.now.other numbers.new.entries.items (level.now ∷ []) map) }
{
    let mut map = StepMap::new(alloc);
    let mut address = 0;
    'runs: loop {
        let run = place_run(level, address);
        let part = level_part(calls, numbers, run.place)?;
        map.set(address, part)?;
        match run.end {
            None => return Ok(map),
            Some(end) => address = end,
        }
    }
}

/// The calls of levels at each address, given those of the first levels and those of the others.
fn joined_map(
    alloc: Global,
    numbers: &mut Numbers,
    front: &ChainMap,
    back: &ChainMap,
) -> Result<ChainMap, OutOfMemory>
    ensures keeps { OnOk result (Keeps numbers.old.entries.items numbers.new.entries.items) }
    ensures mapped { IfOk result (λ map. (own lines : List SymLine) (ms ns : List (Stepping (Option FirstItem))) → AreMapped own lines numbers.old.entries.items ms front.now → AreMapped own lines numbers.old.entries.items ns back.now → AreMapped own lines numbers.new.entries.items (ms ++ ns) map) }
{
    let mut map = StepMap::new(alloc);
    let mut address = 0;
    'runs: loop {
        let mine = part_run(front, address);
        let theirs = part_run(back, address);
        let part = joined_part(numbers, mine.part, theirs.part)?;
        map.set(address, part)?;
        match nearer(mine.end, theirs.end) {
            None => return Ok(map),
            Some(end) => address = end,
        }
    }
}

/// The number of levels in the first part when levels are split in two: the greatest power of two below their count, so that equal chains are split
/// alike.
fn half_of(count: usize) -> usize
    requires { 1 < count }
    ensures some { 0 < result }
    ensures less { result < count }
{
    let mut half = 1;
    'doubled: while half < count - half {
        half += half;
    }
    half
}

/// The calls of levels at each address, by splitting the levels in two.
fn chain_map(
    alloc: Global,
    calls: &Calls<'_, '_>,
    numbers: &mut Numbers,
    levels: &[LevelMap],
) -> Result<ChainMap, OutOfMemory>
    requires { 0 < length levels.now }
    ensures keeps { OnOk result (Keeps numbers.old.entries.items numbers.new.entries.items) }
    ensures mapped { IfOk result (λ map. AreMapped calls.now.own calls.now.other numbers.new.entries.items levels.now map) }
{
    if levels.len() == 1 {
        return level_map(alloc, calls, numbers, &levels[0]);
    }
    let (front, back) = levels.split_at(half_of(levels.len()));
    let first = chain_map(alloc, calls, numbers, front)?;
    let second = chain_map(alloc, calls, numbers, back)?;
    joined_map(alloc, numbers, &first, &second)
}

/// The levels of a function, if it has many.
fn many_levels<'f>(side: &IndexedFile<'f>, func: usize) -> Option<&'f [LevelMap]>
    ensures some { IfSome result (λ levels. 0 < length levels.now) }
    ensures chain { IfSome result (λ levels. (x : ℕ) → x < 2 ^ 64 → chain_in levels.now x ≡ chain_places side.now func x) }
{
    let levels = side.levels(func)?;
    if levels.len() <= FEW {
        return None;
    }
    Some(levels)
}

/// Whether a function has many levels.
pub(crate) fn has_many(side: &IndexedFile<'_>, func: usize) -> bool {
    many_levels(side, func).is_some()
}

/// Adds the chains of a function with many levels.
fn push_func(
    alloc: Global,
    calls: &Calls<'_, '_>,
    numbers: &mut Numbers,
    funcs: &mut Vec<FuncChains>,
    func: usize,
) -> Result<(), OutOfMemory>
    requires { AreFuncChains calls.now.own calls.now.other numbers.old.entries.items funcs.old.items }
    ensures keeps { OnOk result (Keeps numbers.old.entries.items numbers.new.entries.items) }
    ensures are { OnOk result (AreFuncChains calls.now.own calls.now.other numbers.new.entries.items funcs.new.items) }
{
    let Some(levels) = many_levels(calls.side(), func) else {
        return Ok(());
    };
    let chains = chain_map(alloc, calls, numbers, levels)?;
    funcs.push(FuncChains { func, chains })?;
    Ok(())
}

/// The chains of functions with many levels, each once; the places of the functions are given in their order.
pub(crate) fn func_chains(
    alloc: Global,
    calls: &Calls<'_, '_>,
    numbers: &mut Numbers,
    places: &[usize],
) -> Result<Vec<FuncChains>, OutOfMemory>
    ensures keeps { OnOk result (Keeps numbers.old.entries.items numbers.new.entries.items) }
    ensures are { IfOk result (λ funcs. AreFuncChains calls.now.own calls.now.other numbers.new.entries.items funcs.items) }
{
    let mut funcs = Vec::new(alloc);
    'places: for at in 0..places.len() {
        if at > 0 && places[at - 1] == places[at] {
            continue;
        }
        push_func(alloc, calls, numbers, &mut funcs, places[at])?;
    }
    Ok(funcs)
}

/// The chains of the function at a place, by binary search.
pub(crate) fn chains_of(funcs: &[FuncChains], func: usize) -> Option<&ChainMap>
    ensures { IfSome result (λ map. (own lines : List SymLine) (entries : List Entry) → AreFuncChains own lines entries funcs.now → IsChainMap own lines entries func map.now) }
{
    let at = funcs.partition_point(|known| known.func < func);
    if at >= funcs.len() {
        return None;
    }
    let known = &funcs[at];
    if known.func != func {
        return None;
    }
    Some(&known.chains)
}

/// Whether there are no calls.
fn is_nothing(part: ChainPart) -> bool
    ensures { OnTrue result ((own : List SymLine) (entries : List Entry) (calls : List Shown) (full : Bool) → IsPart own entries calls full part → calls ≡ []) }
{
    match part {
        ChainPart::Nothing => true,
        _ => false,
    }
}

/// Whether calls have a number.
fn has_number(part: ChainPart, number: u32) -> bool
    ensures { OnTrue result ((own : List SymLine) (entries : List Entry) (calls : List Shown) (full : Bool) → IsPart own entries calls full part → Means own entries number calls) }
{
    match part {
        ChainPart::Whole(known) => known == number,
        ChainPart::Ended(known) => known == number,
        _ => false,
    }
}

/// Whether the calls of both have one number, or neither has calls.
pub(crate) fn have_one_number(a: ChainPart, b: ChainPart) -> bool
    ensures { OnTrue result ((own : List SymLine) (entries : List Entry) (c d : List Shown) (f g : Bool) → IsPart own entries c f a → IsPart own entries d g b → c ≡ d) }
{
    match a {
        ChainPart::Nothing => is_nothing(b),
        ChainPart::Whole(number) => has_number(b, number),
        ChainPart::Ended(number) => has_number(b, number),
        ChainPart::Unlike => false,
    }
}
