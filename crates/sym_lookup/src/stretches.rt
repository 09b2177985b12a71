//! The addresses of records as stretches, and the first record at each address.
ghost use Rattle.std.specs.Prelude.{◌≡◌, ℕ, ◌+◌, ◌<◌, ◌^◌, ◌++◌, List, [], ◌∷◌, None, length, slice_get, IfOk, OnOk};
ghost use Rattle.std.specs.List.{position_from};
ghost use Rattle.std.specs.Option.{option_map};
ghost use Rattle.step_maps.specs.Covers.{AreStretches, first_item};
ghost use Rattle.step_maps.specs.Stepping.{value_at};
ghost use Rattle.step_maps.specs.declared.stretch.FirstItem.{FirstItem};
ghost use Rattle.sym_lookup.specs.internal.Kinds.{is_at, extents_of, stretch_of, extent_stretches, stretches_of};
ghost use Rattle.sym_lookup.specs.PlaceMaps.{place_in, IsPlaceMap, IsPlaceRun};
ghost use Rattle.sym_lookup.specs.internal.Levels.{bucket, AreEmpty, HaveStretches, AreLeveled, IsLevelMap};
ghost use Rattle.sym_lookup.specs.declared.stretches.Kind.TheVariants as kind;
ghost use Rattle.sym_records.specs.declared.line.SymLine.{SymLine};

use crate::answers::PlaceRun;
use std::alloc::Global;
use step_maps::{FirstItem, StepMap, Stretch, first_items};
use sym_edges::OutOfMemory;
use sym_records::{Extent, SymLine};

/// The kinds of records that have ranges of addresses.
#[derive(Clone, Copy)]
pub enum Kind {
    Functions,
    Inits,
    Lines,
    /// The `INLINE` records of a level.
    Level(u64),
}

/// A map of the first record at each address.
pub type PlaceMap = StepMap<Option<FirstItem>>;

/// Adds the stretch of a range, if the range is not empty.
#[tactic(auto, using(step_maps::proofs::StretchLemmas::stretches_push))]
fn push_extent(stretches: &mut Vec<Stretch>, index: u32, extent: Extent) -> Result<(), OutOfMemory>
    requires { AreStretches stretches.old.items }
    ensures same { OnOk result (stretches.new.items ≡ stretches.old.items ++ stretch_of index extent) }
    ensures stretches { OnOk result (AreStretches stretches.new.items) }
{
    if extent.size == 0 {
        return Ok(());
    }
    stretches.push(Stretch {
        first: extent.address,
        last: extent.address.saturating_add(extent.size - 1),
        index,
        class: 0,
    })?;
    Ok(())
}

/// Adds the stretches of ranges.
fn push_extents(
    stretches: &mut Vec<Stretch>,
    index: u32,
    extents: &[Extent],
) -> Result<(), OutOfMemory>
    requires { AreStretches stretches.old.items }
    ensures same { OnOk result (stretches.new.items ≡ stretches.old.items ++ extent_stretches index extents.now) }
    ensures stretches { OnOk result (AreStretches stretches.new.items) }
{
    let mut rest = extents;
    'extents: while let Some((extent, later)) = rest.split_first() {
        push_extent(stretches, index, *extent)?;
        rest = later;
    }
    Ok(())
}

/// Adds the stretch of one range.
fn push_run(
    stretches: &mut Vec<Stretch>,
    index: u32,
    address: u64,
    size: u64,
) -> Result<(), OutOfMemory>
    requires { AreStretches stretches.old.items }
    ensures same { OnOk result (stretches.new.items ≡ stretches.old.items ++ extent_stretches index (record { address = address; size = size } ∷ [])) }
    ensures stretches { OnOk result (AreStretches stretches.new.items) }
{
    push_extent(stretches, index, Extent { address, size })
}

/// Adds the stretches of a record, if it is of the kind.
fn push_record(
    stretches: &mut Vec<Stretch>,
    kind: Kind,
    index: u32,
    line: &SymLine,
) -> Result<(), OutOfMemory>
    requires { AreStretches stretches.old.items }
    ensures same { OnOk result (stretches.new.items ≡ stretches.old.items ++ extent_stretches index (extents_of kind line.now)) }
    ensures stretches { OnOk result (AreStretches stretches.new.items) }
{
    match (kind, line) {
        (Kind::Functions, SymLine::Func { address, size, .. })
        | (Kind::Inits, SymLine::Init { address, size, .. })
        | (Kind::Lines, SymLine::Line { address, size, .. }) => {
            push_run(stretches, index, *address, *size)
        }
        (
            Kind::Level(level),
            SymLine::Inline {
                level: own,
                ranges,
                ..
            },
        ) if u64::from(*own) == level => { push_extents(stretches, index, ranges.as_slice()) }
        _ => Ok(()),
    }
}

/// The stretches of the records of a kind. The first record has the place `first`.
fn stretches_of(
    alloc: Global,
    kind: Kind,
    first: usize,
    records: &[SymLine],
) -> Result<Vec<Stretch>, OutOfMemory>
    requires { first + length records.now < 2 ^ 32 }
    ensures same { IfOk result (λ stretches. stretches.items ≡ stretches_of kind first records.now) }
    ensures stretches { IfOk result (λ stretches. AreStretches stretches.items) }
{
    let mut stretches = Vec::new(alloc);
    'records: for at in 0..records.len() {
        push_record(&mut stretches, kind, (first + at) as u32, &records[at])?;
    }
    Ok(stretches)
}

/// The map of the first record of a kind at each address. The time for n ranges is O(n log n),
/// however they overlap.
#[tactic(auto, using(step_maps::proofs::StretchLemmas::stretches_push))]
pub(crate) fn place_map(
    alloc: Global,
    kind: Kind,
    first: usize,
    records: &[SymLine],
) -> Result<PlaceMap, OutOfMemory>
    requires { first + length records.now < 2 ^ 32 }
    ensures { IfOk result (λ map. IsPlaceMap (λ x. position_from (is_at kind x) first records.now) map) }
{
    let stretches = stretches_of(alloc, kind, first, records)?;
    let map = first_items(alloc, stretches.as_slice())?;
    Ok(map)
}

/// An empty list of stretches for each level below `count`.
fn no_stretches(alloc: Global, count: usize) -> Result<Vec<Vec<Stretch>>, OutOfMemory>
    ensures { IfOk result (λ leveled. AreEmpty leveled.items) }
{
    let mut leveled = Vec::new(alloc);
    'levels: for level in 0..count {
        leveled.push(Vec::new(alloc))?;
    }
    Ok(leveled)
}

/// Adds the stretches of an `INLINE` to those of its level, provided that the list has this level.
fn push_inline(
    leveled: &mut Vec<Vec<Stretch>>,
    index: u32,
    line: &SymLine,
) -> Result<(), OutOfMemory>
    requires { HaveStretches leveled.old.items }
    ensures same { OnOk result ((level : ℕ) → bucket leveled.new.items level ≡ option_map (λ s. s ++ extent_stretches index (extents_of (kind.Level level) line.now)) (bucket leveled.old.items level)) }
    ensures stretches { OnOk result (HaveStretches leveled.new.items) }
{
    let SymLine::Inline { level, ranges, .. } = line else {
        return Ok(());
    };
    let level = *level as usize;
    if level >= leveled.len() {
        return Ok(());
    }
    push_extents(&mut leveled[level], index, ranges.as_slice())
}

/// For each level below `count`, the stretches of its `INLINE` records. The first record has the
/// place `first`.
pub(crate) fn by_level(
    alloc: Global,
    records: &[SymLine],
    first: usize,
    count: usize,
) -> Result<Vec<Vec<Stretch>>, OutOfMemory>
    requires { first + length records.now < 2 ^ 32 }
    ensures { IfOk result (λ leveled. AreLeveled first records.now leveled.items) }
{
    let mut leveled = no_stretches(alloc, count)?;
    'records: for at in 0..records.len() {
        push_inline(&mut leveled, (first + at) as u32, &records[at])?;
    }
    Ok(leveled)
}

/// The map of the first `INLINE` of a level at each address, given the stretches of the level;
/// `None` if there are no stretches.
fn stretch_map(alloc: Global, stretches: &[Stretch]) -> Result<Option<PlaceMap>, OutOfMemory>
    requires { AreStretches stretches.now }
    ensures { (level first : ℕ) (records : List SymLine) → stretches.now ≡ stretches_of (kind.Level level) first records → IfOk result (λ map. IsLevelMap level first records map) }
{
    if stretches.is_empty() {
        return Ok(None);
    }
    let map = first_items(alloc, stretches)?;
    Ok(Some(map))
}

/// The map of the first `INLINE` of a level at each address, made by a scan of the records.
fn scanned_map(
    alloc: Global,
    level: u64,
    first: usize,
    records: &[SymLine],
) -> Result<Option<PlaceMap>, OutOfMemory>
    requires { first + length records.now < 2 ^ 32 }
    ensures { IfOk result (λ map. IsLevelMap level first records.now map) }
{
    let stretches = stretches_of(alloc, Kind::Level(level), first, records)?;
    stretch_map(alloc, stretches.as_slice())
}

/// The map of the first `INLINE` of a level at each address; `None` if there is none. If the list
/// does not have the level, the records are scanned.
pub(crate) fn level_map(
    alloc: Global,
    leveled: &[Vec<Stretch>],
    level: u64,
    first: usize,
    records: &[SymLine],
) -> Result<Option<PlaceMap>, OutOfMemory>
    requires few { first + length records.now < 2 ^ 32 }
    requires leveled { AreLeveled first records.now leveled.now }
    ensures { IfOk result (λ map. IsLevelMap level first records.now map) }
{
    match leveled.get(level as usize) {
        Some(stretches) => stretch_map(alloc, stretches.as_slice()),
        None => scanned_map(alloc, level, first, records),
    }
}

/// The place that an item of a map gives.
#[inline]
fn place_of(item: Option<FirstItem>) -> Option<usize>
    ensures { result ≡ option_map (λ (i : FirstItem). i.index) item }
{
    match item {
        None => None,
        Some(item) => Some(item.index as usize),
    }
}

/// The place of the first record at an address.
pub(crate) fn place_at(map: &PlaceMap, address: u64) -> Option<usize>
    ensures { result ≡ place_in map.now address }
{
    place_of(map.at(None, address))
}

/// The stop at an index.
#[inline]
fn stop_at(stops: &[u64], index: usize) -> Option<u64>
    ensures { result ≡ slice_get stops.now index }
{
    stops.get(index).copied()
}

/// The place of the first record at an address, and an end up to which this record is the first.
pub(crate) fn run_at(map: &PlaceMap, address: u64) -> PlaceRun
    ensures { IsPlaceRun (place_in map.now) address result }
{
    let stops = map.stops();
    let count = stops.partition_point(|stop| *stop <= address);
    let end = stop_at(stops, count);
    if count == 0 {
        return PlaceRun { place: None, end };
    }
    let values = map.values();
    let place = place_of(values[count - 1]);
    PlaceRun { place, end }
}
