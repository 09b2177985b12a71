//! The paths that records name, by their numbers.
ghost use Rattle.std.specs.Prelude.{◌≡◌, ℕ, List, ◌||◌, [], IfOk, OnOk};
ghost use Rattle.std.specs.Str.{bytes_eq};
ghost use Rattle.debug_units.specs.declared.unit_read.UnitRead.{UnitRead};
ghost use Rattle.func_flatten.specs.LineRuns.{unit_paths};
ghost use Rattle.func_records.specs.FuncRecords.{path_in};
ghost use Rattle.debug_units.specs.CallPaths.{no_path};
ghost use Rattle.func_records.specs.internal.Gathering.{path_at, has_path};

use clean_names::name_omitted;
use debug_units::Units;
use line_program::PathTexts;
use place_guesses::PlaceGuesses;
use std::alloc::Global;
use std::marker::Model;
use sym_edges::OutOfMemory;

/// A path, by its number in the line table of a unit. Without a number it is an unknown path.
#[derive(Clone, Copy, Debug, PartialEq, Eq)]
pub struct PathRef {
    pub unit: u32,
    pub path: Option<u32>,
}

/// Paths, most of them once each.
#[derive(Drop)]
pub struct PathList {
    refs: Vec<PathRef>,
    guesses: PlaceGuesses,
}

impl Model for PathList {
    ghost use Rattle.std.specs.Prelude.{List};
    ghost use Rattle.func_records.specs.declared.path_list.PathRef.{PathRef};

    ghost Value = { List PathRef };

    ghost view = { λ l. l.refs.items };
}

/// The text for an unknown path.
#[tactic(auto, unfolding(debug_units::specs::CallPaths::no_path))]
pub fn no_path() -> &'static [u8]
    ensures { result.now ≡ no_path }
{
    name_omitted()
}

/// The path with this number in a unit's line table, made in `texts`.
#[tactic(auto, unfolding(func_flatten::specs::LineRuns::unit_paths))]
pub fn path_in<'u>(
    units: &'u Units<'_>,
    unit: u32,
    path: u32,
    texts: &'u mut PathTexts,
) -> Result<&'u [u8], OutOfMemory>
    ensures { IfOk result (λ text. text.now ≡ path_in units.now unit path) }
{
    let Some(part) = units.unit(unit) else {
        return Ok(&[]);
    };
    let table = part.lines.table();
    if path as usize >= table.path_count() {
        return Ok(&[]);
    }
    table.path(path, texts)
}

/// The text of a path, made in `texts`.
pub fn path_text<'u>(
    units: &'u Units<'_>,
    at: PathRef,
    texts: &'u mut PathTexts,
) -> Result<&'u [u8], OutOfMemory>
    ensures { IfOk result (λ text. text.now ≡ path_at units.now at) }
{
    match at.path {
        Some(path) => path_in(units, at.unit, path, texts),
        None => Ok(no_path()),
    }
}

/// A key that distinguishes a path from most others.
fn key_of(at: PathRef) -> u64 {
    match at.path {
        Some(path) => u64::from(at.unit) << 32 | u64::from(path),
        None => u64::MAX,
    }
}

/// Where the guess for a path is. `starts` has for each unit the number of paths in the units
/// before it, plus 1. The guess for unknown paths is at 0.
fn own_slot(starts: &[usize], at: PathRef) -> usize {
    let Some(path) = at.path else {
        return 0;
    };
    match starts.get(at.unit as usize) {
        Some(start) => start.saturating_add(path as usize),
        None => 0,
    }
}

impl PathList {
    /// No paths yet, with room for this many guesses.
    pub fn new(alloc: Global, slots: usize) -> Result<PathList, OutOfMemory>
        ensures { IfOk result (λ list. list ≡ []) }
    {
        Ok(PathList {
            refs: Vec::new(alloc),
            guesses: PlaceGuesses::new(alloc, slots)?,
        })
    }

    /// The paths, without spare room.
    pub fn into_refs(self) -> Vec<PathRef>
        ensures { result.items ≡ self }
    {
        let PathList {
            mut refs,
            guesses: _,
        } = self;
        refs.shrink_to_fit();
        refs
    }

    /// Adds a path, given where its guess is, unless it is known to be in the list.
    #[tactic(auto, using(crate::proofs::PathLemmas::path_known, crate::proofs::PathLemmas::path_added))]
    fn put(&mut self, slot: usize, at: PathRef) -> Result<(), OutOfMemory>
        ensures { OnOk result ((units : List UnitRead) (path : List ℕ) → has_path units self.new path ≡ (has_path units self.old path || bytes_eq path (path_at units at))) }
    {
        let _place = self.guesses.place_or_add(slot, &mut self.refs, at)?;
        Ok(())
    }

    /// Adds a path, unless it is known to be in the list.
    pub fn add(&mut self, at: PathRef) -> Result<(), OutOfMemory>
        ensures { OnOk result ((units : List UnitRead) (path : List ℕ) → has_path units self.new path ≡ (has_path units self.old path || bytes_eq path (path_at units at))) }
    {
        let slot = self.guesses.slot_of(key_of(at));
        self.put(slot, at)
    }

    /// Adds paths. Each has a guess of its own, which `own_slot` finds by `starts`.
    pub fn add_all(&mut self, starts: &[usize], refs: &[PathRef]) -> Result<(), OutOfMemory>
        ensures { OnOk result ((units : List UnitRead) (path : List ℕ) → has_path units self.new path ≡ (has_path units self.old path || has_path units refs.now path)) }
    {
        'refs: for place in 0..refs.len() {
            let at = refs[place];
            self.put(own_slot(starts, at), at)?;
        }
        Ok(())
    }
}
