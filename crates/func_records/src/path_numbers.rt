//! The FILE numbers of the paths in use, found by the unit and the number in its line table.
ghost use Rattle.std.specs.Prelude.{◌≡◌, ℕ, List, ◌<◌, ◌^◌, length, map, slice_get, unwrap_or, IfOk, IfSome};
ghost use Rattle.std.specs.List.{All};
ghost use Rattle.std.specs.List.Sorted.{IsStrictlySortedBy};
ghost use Rattle.func_records.specs.internal.Texts.{text_cmp};
ghost use Rattle.func_records.specs.internal.Gathering.{bytes_of, path_at};
ghost use Rattle.func_records.specs.internal.Spelling.{unit_numbers, row_of, IsNumbered};

use crate::numbers::{number_guessed, number_in, number_of};
use crate::path_list::PathRef;
use debug_units::Units;
use line_program::PathTexts;
use std::alloc::Global;
use std::marker::Model;
use std::thread::Threads;
use sym_edges::OutOfMemory;
use unit_workers::Crew;

/// How many slots there may be beside four for each path.
const SPARE_SLOTS: usize = 1024;

/// A path of a unit, by its number in the unit's line table, and its FILE number.
#[derive(Clone, Copy, Debug, PartialEq, Eq, PartialOrd, Ord)]
pub struct NumberedPath {
    pub unit: u32,
    pub path: u32,
    pub number: u32,
}

/// The FILE number of a path of a unit: the number of its text among the sorted ones. It is 0 if
/// the unit has no such path, or the text is not among them.
#[tactic(auto, using(crate::proofs::RowLemmas::no_unit, crate::proofs::RowLemmas::no_path_there, crate::proofs::RowLemmas::path_numbered))]
fn number_in_table(
    alloc: Global,
    units: &Units<'_>,
    sorted: &[&[u8]],
    unit: u32,
    path: u32,
) -> Result<u32, OutOfMemory>
    requires sorted { IsStrictlySortedBy text_cmp sorted.now }
    requires few { length sorted.now < 2 ^ 32 }
    ensures { IfOk result (λ number. number ≡ unwrap_or (slice_get (row_of (unit_numbers (bytes_of sorted.now) units.now) unit) path) 0) }
{
    let Some(part) = units.unit(unit) else {
        return Ok(0);
    };
    let table = part.lines.table();
    if path as usize >= table.path_count() {
        return Ok(0);
    }
    let mut texts = PathTexts::new(alloc);
    let text = table.path(path, &mut texts)?;
    Ok(number_of(sorted, text))
}

/// A path with its FILE number, given its text, if it is a path of a unit's table. The place `guess`
/// is tried first.
#[tactic(auto, using(crate::proofs::RowLemmas::ref_numbered))]
fn number_ref(
    units: &Units<'_>,
    sorted: &[&[u8]],
    at: PathRef,
    text: &[u8],
    guess: u32,
) -> Option<NumberedPath>
    requires sorted { IsStrictlySortedBy text_cmp sorted.now }
    requires few { length sorted.now < 2 ^ 32 }
    requires text { text.now ≡ path_at units.now at }
    ensures { IfSome result (IsNumbered (unit_numbers (bytes_of sorted.now) units.now)) }
{
    let unit = at.unit;
    let path = at.path?;
    let part = units.unit(unit)?;
    if path as usize >= part.lines.table().path_count() {
        return None;
    }
    let number = number_guessed(sorted, text, guess);
    Some(NumberedPath { unit, path, number })
}

/// The FILE numbers of some paths, given their texts. For each path its place in `guesses` is tried
/// first.
fn number_refs(
    alloc: Global,
    units: &Units<'_>,
    sorted: &[&[u8]],
    refs: &[PathRef],
    texts: &[&[u8]],
    guesses: &[u32],
) -> Result<Vec<NumberedPath>, OutOfMemory>
    requires sorted { IsStrictlySortedBy text_cmp sorted.now }
    requires few { length sorted.now < 2 ^ 32 }
    requires texts { bytes_of texts.now ≡ map (path_at units.now) refs.now }
    ensures { IfOk result (λ list. All (IsNumbered (unit_numbers (bytes_of sorted.now) units.now)) list.items) }
{
    let mut list = Vec::with_capacity(alloc, refs.len())?;
    'refs: for place in 0..refs.len() {
        let guess = number_in(guesses, place);
        if let Some(one) = number_ref(units, sorted, refs[place], texts[place], guess) {
            list.push(one)?;
        }
    }
    Ok(list)
}

/// The paths of a sorted list in slots, and for each unit the place at which its path 0 would be.
/// Most paths stand at that place plus their number, and what stands between two of them is the
/// later one. A path that would need more than four slots for each path before it and `SPARE_SLOTS`
/// stands in the next slot.
fn spread(
    alloc: Global,
    list: &[NumberedPath],
    units: usize,
) -> Result<(Vec<NumberedPath>, Vec<usize>), OutOfMemory>
    ensures { IfOk result (λ made. (rows : List (List ℕ)) → All (IsNumbered rows) list.now → All (IsNumbered rows) made.0.items) }
{
    let mut slots = Vec::with_capacity(alloc, list.len())?;
    let mut origins = vec![in alloc; 0; units]?;
    let mut unit = usize::MAX;
    let mut origin: usize = 0;
    'list: for place in 0..list.len() {
        let one = list[place];
        if one.unit as usize != unit {
            unit = one.unit as usize;
            origin = slots.len().wrapping_sub(one.path as usize);
            if unit < units {
                origins[unit] = origin;
            }
        }
        let at = origin.wrapping_add(one.path as usize);
        let most = place.saturating_mul(4).saturating_add(SPARE_SLOTS);
        let end = if at < most {
            at + 1
        } else {
            slots.len().saturating_add(1)
        };
        slots.resize(end, one)?;
    }
    Ok((slots, origins))
}

/// The FILE numbers of the paths in use. Only these are stored, so a line table that many units
/// share takes no memory for each of them. `origins` only says where a path is looked for first. In
/// the Rust, C++ and C programs that were measured each path was there.
#[derive(Drop)]
pub struct PathNumbers<'n, 'a> {
    alloc: Global,
    units: &'n Units<'a>,
    sorted: &'n [&'n [u8]],
    slots: Vec<NumberedPath>,
    origins: Vec<usize>,
}

impl<'n, 'a> Model for PathNumbers<'n, 'a> {
    ghost use Rattle.std.specs.Prelude.{List, ℕ};
    ghost use Rattle.std.specs.List.{All};
    ghost use Rattle.func_records.specs.internal.Gathering.{bytes_of};
    ghost use Rattle.func_records.specs.internal.Spelling.{unit_numbers, CanNumber, IsNumbered};

    ghost Value = { List (List ℕ) };

    ghost view = { λ p. unit_numbers (bytes_of p.sorted.now) p.units.now };

    ghost invariant = { λ p. CanNumber p.sorted.now × All (IsNumbered (unit_numbers (bytes_of p.sorted.now) p.units.now)) p.slots.items };
}

impl<'n, 'a> PathNumbers<'n, 'a> {
    /// The numbers of these paths among the sorted texts of all paths in use.
    pub fn of<R: Threads + Sync>(
        crew: &Crew<'_, R>,
        units: &'n Units<'a>,
        sorted: &'n [&'n [u8]],
        refs: &[PathRef],
        texts: &[&[u8]],
        guesses: &[u32],
    ) -> Result<PathNumbers<'n, 'a>, OutOfMemory>
        requires sorted { IsStrictlySortedBy text_cmp sorted.now }
        requires few { length sorted.now < 2 ^ 32 }
        requires texts { bytes_of texts.now ≡ map (path_at units.now) refs.now }
        ensures { IfOk result (λ numbers. numbers ≡ unit_numbers (bytes_of sorted.now) units.now) }
    {
        let alloc = crew.alloc();
        let mut list = number_refs(alloc, units, sorted, refs, texts, guesses)?;
        crew.sort(list.as_mut_slice())?;
        let (slots, origins) = spread(alloc, list.as_slice(), units.as_slice().len())?;
        Ok(PathNumbers {
            alloc,
            units,
            sorted,
            slots,
            origins,
        })
    }

    /// The path in a slot, if it is this one.
    #[inline]
    fn stored_at(&self, place: usize, unit: u32, path: u32) -> Option<NumberedPath>
        ensures numbered { IfSome result (IsNumbered self.now) }
        ensures same { IfSome result (λ one. (one.unit ≡ unit) × (one.path ≡ path)) }
    {
        let one = *self.slots.get(place)?;
        if one.unit == unit && one.path == path {
            return Some(one);
        }
        None
    }

    /// The FILE number of a path that is not where it is looked for first.
    #[inline(never)]
    fn search(&self, unit: u32, path: u32) -> Result<NumberedPath, OutOfMemory>
        ensures numbered { IfOk result (IsNumbered self.now) }
        ensures same { IfOk result (λ one. (one.unit ≡ unit) × (one.path ≡ path)) }
    {
        let sought = NumberedPath {
            unit,
            path,
            number: 0,
        };
        let place = self.slots.partition_point(|one| *one < sought);
        if let Some(one) = self.stored_at(place, unit, path) {
            return Ok(one);
        }
        let number = number_in_table(self.alloc, self.units, self.sorted, unit, path)?;
        Ok(NumberedPath { unit, path, number })
    }

    /// The FILE number of a path of a unit, or 0.
    #[inline(always)]
    pub fn number(&self, unit: u32, path: u32) -> Result<NumberedPath, OutOfMemory>
        ensures numbered { IfOk result (IsNumbered self.now) }
        ensures same { IfOk result (λ one. (one.unit ≡ unit) × (one.path ≡ path)) }
    {
        let origin = self.origins.get(unit as usize).copied().unwrap_or(0);
        match self.stored_at(origin.wrapping_add(path as usize), unit, path) {
            Some(one) => Ok(one),
            None => self.search(unit, path),
        }
    }

    /// The FILE number of a path of the same unit as `last`, which is often the path itself.
    #[inline]
    pub fn number_after(&self, last: NumberedPath, path: u32) -> Result<NumberedPath, OutOfMemory>
        requires numbered { IsNumbered self.now last }
        ensures numbered { IfOk result (IsNumbered self.now) }
        ensures same { IfOk result (λ one. (one.unit ≡ last.unit) × (one.path ≡ path)) }
    {
        if last.path == path {
            return Ok(last);
        }
        self.number(last.unit, path)
    }
}
