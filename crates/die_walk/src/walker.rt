//! The walk over the entries of a unit.
ghost use Rattle.std.specs.Prelude.{◌≡◌, ◌<◌, ◌≤◌, ◌-◌, ◌+◌, ◌^◌, ◌==◌, if◌then◌else◌, Some, true, false, [], length, OnOk, IfOk};
ghost use Rattle.sym_edges.specs.declared.fault.Stop.TheVariants.{Fault};
ghost use Rattle.abbrev_units.specs.DebugSections.{first_place};
ghost use Rattle.abbrev_units.specs.KeptTags.{is_kept_tag};
ghost use Rattle.abbrev_units.specs.Picks.{no_picks};
ghost use Rattle.die_walk.specs.Marks.{value_fault};
ghost use Rattle.die_walk.specs.Marks.Mark.{Close};
ghost use Rattle.die_walk.specs.Steps.{innermost, keeps, opened, begun_by, added_by, entered_by, moved, rounded, entered_at, moved_at, step_at, Steps, Moves, IsShort, table_in};
ghost use Rattle.die_walk.specs.internal.Heads.{AreSmall, Says, homes_of};

use crate::entry_heads::{Frame, Parts, first_place, parts_of, push_fit, push_wide};
use crate::heads::EntryList;
use crate::root::{Root, make_root};
use crate::scopes::list_scopes;
use crate::table::DieTable;
use abbrev_units::{
    Abbrev, Abbrevs, DwarfFault, DwarfKind, FormFault, Picks, Sections, Unit, in_section,
};
use leb_cursor::Cursor;
use std::alloc::Global;
use std::marker::Model;
use sym_edges::{Located, OutOfMemory, Sect, Stop};

/// The greatest depth of a tree in which a search for a scope goes up level by level.
const SHALLOW: usize = 64;

/// A walk: its sections and its unit, the kept entries so far, the root's attributes, and for each open list of children the index of the nearest
/// kept entry around it.
#[derive(Drop)]
pub struct Walker<'w, 'a> {
    sections: &'w Sections<'a>,
    unit: &'w Unit,
    dies: EntryList<'a>,
    root: Root<'a>,
    open_levels: Vec<Option<u32>>,
}

impl<'w, 'a> Model for Walker<'w, 'a> {
    ghost use Rattle.std.specs.Prelude.{◌≡◌};
    ghost use Rattle.die_walk.specs.Steps.{Owned, Walked};
    ghost use Rattle.die_walk.specs.internal.Heads.{AreSmall, homes_of};

    ghost Value = { Walked };

    ghost view = { λ w. record { dies = w.dies.dies; root = w.root; open_levels = w.open_levels.items; own = record { sections = w.sections.now; unit = w.unit.now } } };

    ghost invariant = { λ w. (w.dies.homes ≡ homes_of w.sections.now) × AreSmall (homes_of w.sections.now) };
}

/// A fault of a value, as the reason why the walk stops.
#[tactic(auto, unfolding(crate::specs::Marks::value_fault))]
fn value_stop(fault: FormFault) -> Stop<DwarfFault>
    ensures { result ≡ Fault (value_fault fault) }
{
    Stop::Fault(match fault {
        FormFault::Cursor(fault) => in_section(Sect::Info, fault),
        FormFault::Unknown { at } => Located {
            kind: DwarfKind::UnknownForm,
            section: Sect::Info,
            at,
        },
    })
}

#[inline]
fn innermost(levels: &[Option<u32>]) -> Option<u32>
    ensures { result ≡ innermost levels.now }
{
    if levels.is_empty() {
        return None;
    }
    levels[levels.len() - 1]
}

impl<'w, 'a> Walker<'w, 'a> {
    /// A walk before its first entry, with room for `room` kept entries.
    pub fn with_room(
        alloc: Global,
        sections: &'w Sections<'a>,
        unit: &'w Unit,
        room: usize,
    ) -> Result<Walker<'w, 'a>, OutOfMemory>
        requires { AreSmall (homes_of sections.now) }
        ensures dies { IfOk result (λ walker. walker.dies ≡ []) }
        ensures levels { IfOk result (λ walker. walker.open_levels ≡ []) }
        ensures own { IfOk result (λ walker. walker.own ≡ record { sections = sections.now; unit = unit.now }) }
    {
        Ok(Walker {
            sections,
            unit,
            dies: EntryList::with_room(alloc, sections, room)?,
            root: Root {
                at: 0,
                low: None,
                stmt_list: None,
                comp_dir: None,
                str_offsets_base: None,
                addr_base: None,
                rnglists_base: None,
            },
            open_levels: Vec::new(alloc),
        })
    }

    /// The table that the walk made. The room for open lists of children was doubled when it was full, so its size shows whether the tree is deep.
    pub fn into_table(self, alloc: Global) -> Result<DieTable<'a>, OutOfMemory>
        ensures { IfOk result (λ table. table ≡ table_in self.entry) }
    {
        let Walker {
            sections: _,
            unit: _,
            mut dies,
            root,
            open_levels,
        } = self;
        dies.shrink();
        let near = list_scopes(alloc, &dies, open_levels.capacity() > SHALLOW)?;
        Ok(DieTable::of(root, dies, near))
    }

    /// The place of an entry, counted through the file and its supplementary file, and its parent.
    #[inline(always)]
    fn frame(&self, at: u32) -> Frame
        requires { at ≤ 2 ^ 29 }
        ensures { result ≡ record { at = first_place self.now.own.sections.is_sup + at; parent = innermost self.now.open_levels } }
    {
        let sections = self.sections;
        Frame {
            at: first_place(sections.is_sup) + at,
            parent: innermost(self.open_levels.as_slice()),
        }
    }

    /// What an entry has besides its tag, its addresses and its call.
    #[inline(always)]
    fn parts(&self, picks: &Picks, frame: Frame) -> Parts
        ensures says { Says self.now.own.sections self.now.own.unit self.now.root.str_offsets_base picks.now result }
        ensures frame { result.frame ≡ frame }
    {
        parts_of(self.sections, self.unit, &self.root, picks, frame)
    }

    /// Adds a kept entry, given its picks, if it fits into a head and a site. Returns false and adds nothing if it does not fit.
    #[inline(always)]
    fn add_fit(&mut self, picks: &Picks, at: u32, tag: u64) -> Result<bool, OutOfMemory>
        requires { at ≤ 2 ^ 29 }
        ensures added { IfOk result (λ fits. fits ≡ true → self.new ≡ added_by self.old.own.sections self.old.own.unit self.old at tag picks.now) }
        ensures same { IfOk result (λ fits. fits ≡ false → self.new ≡ self.old) }
    {
        let parts = self.parts(picks, self.frame(at));
        push_fit(&mut self.dies, parts, tag, picks)
    }

    /// Adds any kept entry, given its picks. This is a function of its own, since few entries need it.
    #[inline(never)]
    fn add_wide(&mut self, picks: &Picks, at: u32, tag: u64) -> Result<(), OutOfMemory>
        requires { at ≤ 2 ^ 29 }
        ensures { OnOk result (self.new ≡ added_by self.old.own.sections self.old.own.unit self.old at tag picks.now) }
    {
        let parts = self.parts(picks, self.frame(at));
        push_wide(&mut self.dies, parts, tag, picks)
    }

    /// Adds a kept entry, given its picks.
    #[inline(always)]
    fn add(&mut self, picks: &Picks, at: u32, tag: u64) -> Result<(), OutOfMemory>
        requires { at ≤ 2 ^ 29 }
        ensures { OnOk result (self.new ≡ added_by self.old.own.sections self.old.own.unit self.old at tag picks.now) }
    {
        if self.add_fit(picks, at, tag)? {
            return Ok(());
        }
        self.add_wide(picks, at, tag)
    }

    /// Adds the first entry, which is the root, given its picks.
    #[inline(never)]
    #[tactic(auto, using(crate::proofs::StepLemmas::begun_is))]
    fn begin(&mut self, picks: &Picks, at: u32, tag: u64) -> Result<(), OutOfMemory>
        requires first { length self.old.dies ≡ 0 }
        requires small { at ≤ 2 ^ 29 }
        ensures { OnOk result (self.new ≡ begun_by self.old.own.sections self.old.own.unit self.old at tag picks.now) }
    {
        self.root = make_root(self.sections, self.unit, at, picks);
        self.add(picks, at, tag)
    }

    /// Makes a root if the unit has no entries.
    #[tactic(auto, using(crate::proofs::StepLemmas::begun_none), unfolding(crate::specs::Steps::rounded))]
    pub fn round(&mut self) -> Result<(), OutOfMemory>
        requires { self.old.own.unit.body ≤ 2 ^ 29 }
        ensures { OnOk result (self.new ≡ rounded self.old.own.sections self.old.own.unit self.old) }
    {
        if !self.dies.is_empty() {
            return Ok(());
        }
        let body = self.unit.body as u32;
        self.begin(&Picks::new(), body, 0)
    }

    /// Adds a kept entry that is not the first, and removes all picks. This is a function of its own, so that the loop over entries can use all
    /// registers.
    #[inline(never)]
    #[tactic(auto, unfolding(crate::specs::Steps::entered_by))]
    fn add_picked(&mut self, picks: &mut Picks, at: u32, tag: u64) -> Result<(), OutOfMemory>
        requires kept { is_kept_tag tag ≡ true }
        requires later { (length self.old.dies == 0) ≡ false }
        requires small { at ≤ 2 ^ 29 }
        ensures added { OnOk result (self.new ≡ entered_by self.old.own.sections self.old.own.unit self.old at tag picks.old) }
        ensures cleared { picks.new ≡ no_picks }
    {
        let added = self.add(picks, at, tag);
        picks.clear();
        added
    }

    /// Adds a kept entry, and removes all picks.
    #[tactic(auto, unfolding(crate::specs::Steps::entered_by))]
    fn add_any(&mut self, picks: &mut Picks, at: u32, tag: u64) -> Result<(), OutOfMemory>
        requires kept { keeps self.old tag ≡ true }
        requires small { at ≤ 2 ^ 29 }
        ensures added { OnOk result (self.new ≡ entered_by self.old.own.sections self.old.own.unit self.old at tag picks.old) }
        ensures cleared { picks.new ≡ no_picks }
    {
        if !self.dies.is_empty() {
            return self.add_picked(picks, at, tag);
        }
        let added = self.begin(picks, at, tag);
        picks.clear();
        added
    }

    /// Closes a list of children.
    #[tactic(auto, unfolding(crate::specs::Steps::moved))]
    fn leave(&mut self)
        ensures { self.new ≡ moved self.old.own.sections self.old.own.unit self.old Close }
    {
        let _level = self.open_levels.pop();
    }

    /// Whether an entry with this abbreviation is kept: by its tag, or because it is the first.
    #[inline]
    fn keeps(&self, found: &Abbrev<'_>) -> bool
        ensures { result ≡ keeps self.now found.now.tag }
    {
        self.dies.is_empty() || found.is_kept()
    }

    /// Reads an entry, without its children, by the specs of its values, and returns whether it is kept. This serves the first entry, which is the
    /// root, an entry that the takes do not read, and an entry with a fault.
    #[inline(never)]
    #[tactic(auto, using(crate::proofs::StepLemmas::passed_over, crate::proofs::StepLemmas::passed_refused, crate::proofs::StepLemmas::taken, crate::proofs::StepLemmas::taken_refused))]
    fn take_slowly(
        &mut self,
        picks: &mut Picks,
        cursor: &mut Cursor<'a>,
        at: u32,
        found: &Abbrev<'_>,
    ) -> Result<bool, Stop<DwarfFault>>
        requires { at ≤ 2 ^ 29 }
        ensures moves { Moves result self.new cursor.new (entered_at self.old.own.sections self.old.own.unit self.old at found.now cursor.old) }
        ensures kept { IfOk result (λ kept. kept ≡ keeps self.old found.now.tag) }
        ensures cleared { OnOk result (picks.new ≡ no_picks) }
    {
        if !self.keeps(found) {
            picks.clear();
            found.skip(cursor).map_err(value_stop)?;
            return Ok(false);
        }
        match found.read_picks(picks, cursor) {
            Ok(()) => {}
            Err(fault) => return Err(value_stop(fault)),
        }
        self.add_any(picks, at, found.tag())?;
        Ok(true)
    }

    /// Calls `take_slowly` with copies of the cursor and the abbreviation, so that those of the
    /// loop over entries stay in registers.
    #[inline(always)]
    fn take_apart(
        &mut self,
        picks: &mut Picks,
        cursor: &mut Cursor<'a>,
        at: u32,
        found: &Abbrev<'_>,
    ) -> Result<bool, Stop<DwarfFault>>
        requires { at ≤ 2 ^ 29 }
        ensures moves { Moves result self.new cursor.new (entered_at self.old.own.sections self.old.own.unit self.old at found.now cursor.old) }
        ensures kept { IfOk result (λ kept. kept ≡ keeps self.old found.now.tag) }
        ensures cleared { OnOk result (picks.new ≡ no_picks) }
    {
        let mut behind = cursor.fork();
        let other = found.fork();
        let taken = self.take_slowly(picks, &mut behind, at, &other);
        *cursor = behind;
        taken
    }

    /// Reads an entry, without its children, and returns whether it is kept.
    #[inline(always)]
    #[tactic(auto, using(crate::proofs::StepLemmas::passed_by, crate::proofs::StepLemmas::taken))]
    fn take_entry(
        &mut self,
        picks: &mut Picks,
        cursor: &mut Cursor<'a>,
        at: u32,
        found: &Abbrev<'_>,
    ) -> Result<bool, Stop<DwarfFault>>
        requires picks { picks.old ≡ no_picks }
        requires small { at ≤ 2 ^ 29 }
        ensures moves { Moves result self.new cursor.new (entered_at self.old.own.sections self.old.own.unit self.old at found.now cursor.old) }
        ensures kept { IfOk result (λ kept. kept ≡ keeps self.old found.now.tag) }
        ensures cleared { OnOk result (picks.new ≡ no_picks) }
    {
        if self.dies.is_empty() || !found.read(picks, cursor) {
            return self.take_apart(picks, cursor, at, found);
        }
        if !found.is_kept() {
            return Ok(false);
        }
        self.add_picked(picks, at, found.tag())?;
        Ok(true)
    }

    /// The index of the nearest kept entry around the children of the entry that was read last.
    fn own_number(&self, kept: bool) -> Option<u32>
        requires { kept ≡ true → (1 ≤ length self.now.dies) × (length self.now.dies ≤ 2 ^ 32) }
        ensures { result ≡ (if kept then Some (length self.now.dies - 1) else innermost self.now.open_levels) }
    {
        if kept {
            return Some((self.dies.len() - 1) as u32);
        }
        innermost(self.open_levels.as_slice())
    }

    /// Opens a list of children.
    fn open(&mut self, own: Option<u32>) -> Result<(), OutOfMemory>
        ensures { OnOk result (self.new ≡ opened self.old true own) }
    {
        self.open_levels.push(own)?;
        Ok(())
    }

    /// Reads an entry and, if it has children, opens the list of them.
    #[tactic(auto, using(crate::proofs::StepLemmas::moved_plain, crate::proofs::StepLemmas::moved_refused, crate::proofs::StepLemmas::kept_few))]
    fn enter(
        &mut self,
        picks: &mut Picks,
        cursor: &mut Cursor<'a>,
        at: u32,
        found: &Abbrev<'_>,
    ) -> Result<(), Stop<DwarfFault>>
        requires few { length self.old.dies < 2 ^ 32 }
        requires picks { picks.old ≡ no_picks }
        requires small { at ≤ 2 ^ 29 }
        ensures moves { Moves result self.new cursor.new (moved_at self.old.own.sections self.old.own.unit self.old at found.now cursor.old) }
        ensures cleared { OnOk result (picks.new ≡ no_picks) }
    {
        let kept = match self.take_entry(picks, cursor, at, found) {
            Ok(kept) => kept,
            Err(stop) => return Err(stop),
        };
        if !found.children() {
            return Ok(());
        }
        let own = self.own_number(kept);
        self.open(own)?;
        Ok(())
    }

    /// Reads the next mark; false at the end of the unit.
    #[tactic(auto, using(crate::proofs::WalkLemmas::step_end, crate::proofs::WalkLemmas::step_cut, crate::proofs::WalkLemmas::step_close, crate::proofs::WalkLemmas::step_unknown, crate::proofs::WalkLemmas::step_entry, crate::proofs::WalkLemmas::step_stopped))]
    pub fn step(
        &mut self,
        abbrevs: &Abbrevs,
        picks: &mut Picks,
        cursor: &mut Cursor<'a>,
    ) -> Result<bool, Stop<DwarfFault>>
        requires short { IsShort (length self.old.dies) cursor.old }
        requires picks { picks.old ≡ no_picks }
        ensures step { Steps result self.new cursor.new (step_at self.old.own.sections self.old.own.unit abbrevs.now self.old cursor.old) }
        ensures cleared { OnOk result (picks.new ≡ no_picks) }
        ensures still { IfOk result (λ went. went ≡ false → self.new ≡ self.old) }
    {
        if cursor.is_at_end() {
            return Ok(false);
        }
        let at = cursor.at();
        let code = match cursor.uleb() {
            Ok(code) => code,
            Err(fault) => return Err(Stop::Fault(in_section(Sect::Info, fault))),
        };
        if code == 0 {
            self.leave();
            return Ok(true);
        }
        let Some(found) = abbrevs.find(code) else {
            return Err(Stop::Fault(Located {
                kind: DwarfKind::NoAbbrev,
                section: Sect::Info,
                at,
            }));
        };
        match self.enter(picks, cursor, at as u32, &found) {
            Ok(()) => Ok(true),
            Err(stop) => Err(stop),
        }
    }
}
