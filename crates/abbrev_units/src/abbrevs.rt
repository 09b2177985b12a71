//! The abbreviations of a unit.
ghost use Rattle.std.specs.Prelude.{◌≡◌, ◌⊎◌, ◌<◌, ◌&&◌, nat_lt, nat_le, [], length, get_or, slice_get, Ok, Err, IfOk, OnOk, OnErr};
ghost use Rattle.std.specs.Ordering.{nat_cmp};
ghost use Rattle.std.specs.BTreeMap.{BTreeMap, get};
ghost use Rattle.sym_edges.specs.Outside.{MatchStop};
ghost use Rattle.abbrev_units.specs.Faults.{Gives};
ghost use Rattle.abbrev_units.specs.Abbreviations.{used_at, abbrevs_of, abbrev_of};
ghost use Rattle.abbrev_units.specs.Places.{IsDense, HasPlaces};
ghost use Rattle.abbrev_units.specs.SpecFields.{Abbrev};
ghost use Rattle.abbrev_units.specs.internal.Listed.{AreHeld, LeavesAt, abbrevs_in};

use crate::abbrev::read_abbrev;
use crate::fault::{DwarfFault, DwarfKind, in_section};
use crate::form_table::FormTable;
use crate::lists::{Head, Lists};
use crate::sections::Sections;
use crate::text::cursor_from;
use crate::unit::Unit;
use crate::view::Abbrev;
use leb_cursor::{Cursor, CursorFault};
use std::alloc::Global;
use std::collections::BTreeMap;
use std::marker::Model;
use sym_edges::{Located, OutOfMemory, Sect, Stop};

/// Most tables have no more than 128 abbreviations.
const USUAL: usize = 128;

/// Abbreviations, with their attributes in one list.
#[derive(Drop)]
struct AbbrevList {
    heads: Vec<Head>,
    lists: Lists,
}

impl Model for AbbrevList {
    ghost use Rattle.std.specs.Prelude.{List};
    ghost use Rattle.abbrev_units.specs.SpecFields.{Abbrev};
    ghost use Rattle.abbrev_units.specs.internal.Listed.{AreHeld, abbrevs_in};

    ghost Value = { List Abbrev };

    ghost view = { λ a. abbrevs_in a.lists.specs.items a.heads.items };

    ghost invariant = { λ a. AreHeld a.lists a.heads.items };
}

/// Reads abbreviations up to the end of their list.
#[tactic(auto, using(crate::proofs::AbbrevLemmas::abbrevs_shorter, crate::proofs::ListedLemmas::reads_begin, crate::proofs::ListedLemmas::reads_more, crate::proofs::ListedLemmas::reads_held, crate::proofs::ListedLemmas::reads_end, crate::proofs::ListedLemmas::reads_stopped))]
fn read_list(
    heads: &mut Vec<Head>,
    lists: &mut Lists,
    cursor: &mut Cursor<'_>,
    forms: &FormTable,
) -> Result<(), Stop<CursorFault>>
    requires { heads.old.items ≡ [] }
    ensures held { OnOk result (AreHeld lists.new heads.new.items) }
    ensures read { LeavesAt result (abbrevs_in lists.new.specs.items heads.new.items) cursor.new (used_at forms.now cursor.old) }
{
    'abbrevs: loop {
        let Some(head) = read_abbrev(lists, cursor, forms)? else {
            return Ok(());
        };
        heads.push(head)?;
    }
}

impl AbbrevList {
    fn new(alloc: Global) -> AbbrevList
        ensures { result ≡ [] }
    {
        AbbrevList {
            heads: Vec::new(alloc),
            lists: Lists::new(alloc),
        }
    }

    #[inline]
    fn len(&self) -> usize
        ensures { result ≡ length self.now }
    {
        self.heads.len()
    }

    fn code_at(&self, number: usize) -> u64
        requires { number < length self.now }
        ensures { (other : Abbrev) → result ≡ (get_or self.now number other).code }
    {
        self.heads[number].code
    }

    #[inline]
    fn get(&self, number: usize) -> Option<Abbrev<'_>>
        ensures { result ≡ slice_get self.now number }
    {
        match self.heads.as_slice().get(number) {
            Some(head) => Some(Abbrev::of(&self.lists, head)),
            None => None,
        }
    }

    /// Gives unused room back.
    #[tactic(auto, using(crate::proofs::ListedLemmas::held_shrunk))]
    fn shrink(&mut self)
        ensures { self.new ≡ self.old }
    {
        self.heads.shrink_to_fit();
        self.lists.shrink();
    }

    /// Removes all abbreviations; the lists keep their memory.
    fn clear(&mut self)
        ensures { self.new ≡ [] }
    {
        self.heads.clear();
        self.lists.clear();
    }

    /// Reads abbreviations in place of the previous ones. A call that fails leaves none.
    fn read(&mut self, cursor: &mut Cursor<'_>, forms: &FormTable) -> Result<(), Stop<CursorFault>>
        ensures read { LeavesAt result self.new cursor.new (used_at forms.now cursor.old) }
        ensures none { OnErr result (self.new ≡ []) }
    {
        self.clear();
        self.heads.reserve(USUAL)?;
        self.lists.reserve()?;
        let read = read_list(&mut self.heads, &mut self.lists, cursor, forms);
        if read.is_err() {
            self.heads.clear();
        }
        read
    }
}

/// The abbreviations of a unit, which are found by their code. Producers number them 1, 2 and so on, so their codes give their indices. If there are
/// other codes, a map has the indices.
#[derive(Drop)]
pub struct Abbrevs {
    list: AbbrevList,
    dense: usize,
    places: BTreeMap<u64, usize>,
}

impl Model for Abbrevs {
    ghost use Rattle.std.specs.Prelude.{List};
    ghost use Rattle.abbrev_units.specs.SpecFields.{Abbrev};
    ghost use Rattle.abbrev_units.specs.Places.{AreFound};

    ghost Value = { List Abbrev };

    ghost view = { λ a. a.list };

    ghost invariant = { λ a. AreFound a.list a.dense a.places };
}

/// How many of the first codes are 1, 2 and so on.
#[tactic(auto, using(crate::proofs::PlaceLemmas::dense_more))]
fn count_dense(list: &AbbrevList) -> usize
    ensures { IsDense result list.now }
{
    let mut count = 0;
    'dense: while count < list.len() {
        if list.code_at(count) != count as u64 + 1 {
            return count;
        }
        count += 1;
    }
    count
}

/// The indices of the first abbreviation of each code.
#[tactic(auto, using(crate::proofs::PlaceLemmas::places_none, crate::proofs::PlaceLemmas::places_more))]
fn find_places(alloc: Global, list: &AbbrevList) -> Result<BTreeMap<u64, usize>, OutOfMemory>
    ensures { IfOk result (λ places. HasPlaces places 0 list.now) }
{
    let mut places = BTreeMap::new(alloc);
    'places: for place in (0..list.len()).rev() {
        let _earlier = places.insert(list.code_at(place), place)?;
    }
    Ok(places)
}

/// The map of `find_places`; an empty map if all codes are dense.
fn places_of(
    alloc: Global,
    list: &AbbrevList,
    dense: usize,
) -> Result<BTreeMap<u64, usize>, OutOfMemory>
    ensures { IfOk result (λ places. (dense ≡ length list.now) ⊎ HasPlaces places 0 list.now) }
{
    if dense == list.len() {
        return Ok(BTreeMap::new(alloc));
    }
    find_places(alloc, list)
}

/// Whether a code is one of the dense codes, 1 to `dense`.
#[inline]
fn is_front(dense: usize, code: u64) -> bool
    ensures { result ≡ (nat_lt 0 code && nat_le code dense) }
{
    0 < code && code <= dense as u64
}

#[inline]
fn place_of(places: &BTreeMap<u64, usize>, code: u64) -> Option<usize>
    ensures { result ≡ get nat_cmp places.now code }
{
    places.get(&code).copied()
}

impl Abbrevs {
    fn new(alloc: Global) -> Abbrevs
        ensures { result ≡ [] }
    {
        Abbrevs {
            list: AbbrevList::new(alloc),
            dense: 0,
            places: BTreeMap::new(alloc),
        }
    }

    /// Reads abbreviations in place of the previous ones. A call that fails leaves none.
    fn read(
        &mut self,
        alloc: Global,
        cursor: &mut Cursor<'_>,
        forms: &FormTable,
    ) -> Result<(), Stop<CursorFault>>
        ensures { LeavesAt result self.new cursor.new (used_at forms.now cursor.old) }
    {
        self.dense = 0;
        self.list.read(cursor, forms)?;
        let dense = count_dense(&self.list);
        let Ok(places) = places_of(alloc, &self.list, dense) else {
            self.list.clear();
            return Err(Stop::NoMemory);
        };
        self.dense = dense;
        self.places = places;
        Ok(())
    }

    /// The first abbreviation of a code. Allocates no memory.
    #[inline]
    #[tactic(auto, using(crate::proofs::PlaceLemmas::found_front, crate::proofs::PlaceLemmas::found_nowhere, crate::proofs::PlaceLemmas::found_by_map, crate::proofs::PlaceLemmas::missed_by_map))]
    pub fn find(&self, code: u64) -> Option<Abbrev<'_>>
        ensures { result ≡ abbrev_of code self.now }
    {
        if is_front(self.dense, code) {
            return self.list.get(code as usize - 1);
        }
        if self.dense == self.list.len() {
            return None;
        }
        match place_of(&self.places, code) {
            Some(place) => self.list.get(place),
            None => None,
        }
    }

    /// The number of abbreviations.
    #[inline]
    pub fn len(&self) -> usize
        ensures { result ≡ length self.now }
    {
        self.list.len()
    }

    /// An abbreviation by its index, counted from 0.
    #[inline]
    pub fn get(&self, number: usize) -> Option<Abbrev<'_>>
        ensures { result ≡ slice_get self.now number }
    {
        self.list.get(number)
    }
}

/// Memory that is reused for the abbreviations of one unit after another.
#[derive(Drop)]
pub struct AbbrevScratch {
    abbrevs: Abbrevs,
    forms: FormTable,
}

impl Model for AbbrevScratch {
    ghost use Rattle.std.specs.Prelude.{List};
    ghost use Rattle.abbrev_units.specs.SpecFields.{Abbrev};

    ghost Value = { List Abbrev };

    ghost view = { λ s. s.abbrevs };
}

impl AbbrevScratch {
    /// No abbreviations yet. Allocates no memory.
    pub fn new(alloc: Global) -> AbbrevScratch
        ensures { result ≡ [] }
    {
        AbbrevScratch {
            abbrevs: Abbrevs::new(alloc),
            forms: FormTable::new(alloc),
        }
    }

    /// Reads the abbreviations of a unit (DWARF 5, 7.5.3) in place of the previous ones, or returns the first fault: `OffsetOutside` in `.debug_info`
    /// at the start of the unit, if the place of the abbreviations is after the end of `.debug_abbrev`; or `Ends` or `LebLong` in `.debug_abbrev`.
    /// What a call that fails leaves is not specified.
    #[tactic(auto, unfolding(crate::specs::Abbreviations::abbrevs_of))]
    pub fn read(
        &mut self,
        alloc: Global,
        sections: &Sections<'_>,
        unit: &Unit,
    ) -> Result<(), Stop<DwarfFault>>
        ensures { MatchStop result
            (λ _. abbrevs_of sections.now unit.now ≡ Ok self.new)
            (λ fault. abbrevs_of sections.now unit.now ≡ Err fault)
            (Prim.Unit {0}) }
    {
        if unit.abbrev_at > sections.abbrevs.len() as u64 {
            return Err(Stop::Fault(Located {
                kind: DwarfKind::OffsetOutside,
                section: Sect::Info,
                at: unit.start as usize,
            }));
        }
        let mut cursor = cursor_from(sections.abbrevs, unit.abbrev_at as usize);
        self.forms.set(alloc, unit.wide)?;
        match self.abbrevs.read(alloc, &mut cursor, &self.forms) {
            Ok(()) => Ok(()),
            Err(Stop::Fault(fault)) => Err(Stop::Fault(in_section(Sect::Abbrev, fault))),
            Err(Stop::NoMemory) => Err(Stop::NoMemory),
        }
    }

    /// The abbreviations that were read last.
    #[inline]
    pub fn abbrevs(&self) -> &Abbrevs
        ensures { result.now ≡ self.now }
    {
        &self.abbrevs
    }
}

/// The abbreviations of a unit (DWARF 5, 7.5.3), or the first fault, as for [`AbbrevScratch::read`].
pub fn read_abbrevs(
    alloc: Global,
    sections: &Sections<'_>,
    unit: &Unit,
) -> Result<Abbrevs, Stop<DwarfFault>>
    ensures { Gives result (abbrevs_of sections.now unit.now) }
{
    let mut scratch = AbbrevScratch::new(alloc);
    scratch.read(alloc, sections, unit)?;
    let mut abbrevs = scratch.abbrevs;
    abbrevs.list.shrink();
    Ok(abbrevs)
}
