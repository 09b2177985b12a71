//! The table of a unit's entries.
ghost use Rattle.std.specs.Prelude.{◌≡◌, ◌≤◌, ◌^◌, [], length, map, unwrap_or, OnOk};
ghost use Rattle.std.specs.List.{slice_get};
ghost use Rattle.sym_edges.specs.Rising.{RisesFrom, StandBelow};
ghost use Rattle.abbrev_units.specs.Faults.{Gives};
ghost use Rattle.die_walk.specs.EntryTable.{DieFields, EntryTable, entries_ahead, entry_table};
ghost use Rattle.die_walk.specs.Scopes.{scope_of};
ghost use Rattle.die_walk.specs.Steps.{TableOf};
ghost use Rattle.die_walk.specs.internal.Near.{AreNear};

use crate::die::Die;
use crate::heads::EntryList;
use crate::root::Root;
use crate::scopes::scope_of;
use crate::walker::Walker;
use abbrev_units::{Abbrevs, DwarfFault, Picks, Sections, Unit};
use leb_cursor::Cursor;
use std::alloc::Global;
use std::marker::Model;
use sym_edges::{FILE_LIMIT, OutOfMemory, Stop};

/// Kept entries in their order and, if their tree is deep, the nearest scope around each entry.
#[derive(Drop)]
pub struct DieList<'a> {
    entries: EntryList<'a>,
    near: Vec<Option<u32>>,
}

impl<'a> Model for DieList<'a> {
    ghost use Rattle.std.specs.Prelude.{List};
    ghost use Rattle.die_walk.specs.EntryTable.{DieFields};
    ghost use Rattle.die_walk.specs.internal.Near.{AreNear};

    ghost Value = { List DieFields };

    ghost view = { λ l. l.entries.dies };

    ghost invariant = { λ l. AreNear l.entries.dies l.near.items };
}

impl<'a> DieList<'a> {
    #[inline]
    pub fn len(&self) -> usize
        ensures { result ≡ length self.now }
    {
        self.entries.len()
    }

    /// The entry at an index.
    #[inline]
    pub fn get(&self, entry: usize) -> Option<Die<'_, 'a>>
        ensures { result ≡ slice_get self.now entry }
    {
        self.entries.get(entry)
    }

    /// The number of entries that begin before a place, by binary search.
    #[inline]
    pub fn count_before(&self, place: u64) -> usize
        requires { RisesFrom 0 (map (λ (d : DieFields). d.at) self.now) }
        ensures { StandBelow (λ (d : DieFields). d.at) place result self.now }
    {
        self.entries.count_before(place)
    }

    /// The nearest class, structure, union or namespace around the entry at an index, in a few steps at any depth.
    #[inline]
    pub fn scope_around(&self, entry: usize) -> Option<u32>
        ensures { result ≡ scope_of self.now entry }
    {
        scope_of(&self.entries, self.near.as_slice(), entry)
    }
}

/// The root of a unit and its kept entries; the first of these is the root.
#[derive(Drop)]
pub struct DieTable<'a> {
    root: Root<'a>,
    dies: DieList<'a>,
}

impl<'a> Model for DieTable<'a> {
    ghost use Rattle.die_walk.specs.EntryTable.{EntryTable};

    ghost Value = { EntryTable };

    ghost view = { λ t. record { root = t.root; dies = t.dies } };
}

impl<'a> DieTable<'a> {
    /// A table of these entries; `near` has the nearest scope around each of the first ones.
    pub(crate) fn of(root: Root<'a>, entries: EntryList<'a>, near: Vec<Option<u32>>) -> DieTable<'a>
        requires { AreNear entries.dies near.items }
        ensures { result ≡ record { root = root.entry; dies = entries.entry.dies } }
    {
        DieTable {
            root,
            dies: DieList { entries, near },
        }
    }

    pub fn root(&self) -> &Root<'a>
        ensures { result.now ≡ self.now.root }
    {
        &self.root
    }

    pub fn dies(&self) -> &DieList<'a>
        ensures { result.now ≡ self.now.dies }
    {
        &self.dies
    }
}

/// The walk from its first state. This is a function of its own, so that its loop can use all registers.
#[inline(never)]
#[tactic(auto, using(crate::proofs::WalkLemmas::walked_start, crate::proofs::WalkLemmas::walked_more, crate::proofs::WalkLemmas::walked_end, crate::proofs::WalkLemmas::walked_stopped, crate::proofs::WalkLemmas::step_short, crate::proofs::WalkLemmas::step_shorter, crate::proofs::WalkLemmas::short_start))]
fn walk_all<'a>(
    walker: &mut Walker<'_, 'a>,
    abbrevs: &Abbrevs,
    entries: Cursor<'a>,
) -> Result<(), Stop<DwarfFault>>
    requires start { entries ≡ entries_ahead walker.old.own.sections walker.old.own.unit }
    requires ordered { walker.old.own.unit.body ≤ walker.old.own.unit.end }
    requires inside { walker.old.own.unit.end ≤ length walker.old.own.sections.info }
    requires small { length walker.old.own.sections.info ≤ 2 ^ 29 }
    requires dies { walker.old.dies ≡ [] }
    requires levels { walker.old.open_levels ≡ [] }
    ensures { TableOf result walker.new (entry_table walker.old.own.sections walker.old.own.unit abbrevs.now) }
{
    let mut cursor = entries;
    let mut picks = Picks::new();
    'entries: loop {
        match walker.step(abbrevs, &mut picks, &mut cursor) {
            Ok(true) => {}
            Ok(false) => break,
            Err(stop) => return Err(stop),
        }
    }
    walker.round()?;
    Ok(())
}

/// A guess of how many bytes a unit has for each kept entry; the room that is reserved at first
/// depends on it. Unused room is given back.
const BYTES_A_KEPT_ENTRY: u64 = 32;

/// The size of the `.debug_str` of the supplementary file, if it was read.
fn sup_size(sections: &Sections<'_>) -> usize
    ensures { result ≡ length (unwrap_or sections.now.sup_strs []) }
{
    match &sections.sup_strs {
        Some(strs) => strs.bytes().len(),
        None => 0,
    }
}

/// The entries of a unit (DWARF 5, 7.5.2), or their first fault, which is in `.debug_info`: `Ends`, `LebLong` or `NoZero` at the code or the value,
/// `UnknownForm` where a value of an unknown form would begin, `NoAbbrev` at the entry. The root is kept, and classes, structures, unions, inlined
/// subroutines, subprograms and namespaces. If `.debug_info` or a section of texts has more than 2^29 bytes, the result is out of memory, since
/// places are stored in four bytes; no file that is dumped has such a section.
pub fn walk<'a>(
    alloc: Global,
    sections: &Sections<'a>,
    unit: &Unit,
    abbrevs: &Abbrevs,
) -> Result<DieTable<'a>, Stop<DwarfFault>>
    requires ordered { unit.now.body ≤ unit.now.end }
    requires inside { unit.now.end ≤ length sections.now.info }
    ensures { Gives result (entry_table sections.now unit.now abbrevs.now) }
{
    if sections.info.len() > FILE_LIMIT
        || sections.strs.bytes().len() > FILE_LIMIT
        || sections.line_str.bytes().len() > FILE_LIMIT
        || sup_size(sections) > FILE_LIMIT
    {
        return Err(Stop::NoMemory);
    }
    let room = unit.end.saturating_sub(unit.body) / BYTES_A_KEPT_ENTRY;
    let mut walker = Walker::with_room(alloc, sections, unit, room as usize)?;
    let entries = Cursor::new(sections.info, unit.body as usize, unit.end as usize);
    walk_all(&mut walker, abbrevs, entries)?;
    Ok(walker.into_table(alloc)?)
}
