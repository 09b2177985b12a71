//! An abbreviation of a table.
ghost use Rattle.std.specs.Prelude.{◌≡◌, true, false, Ok, OnErr};
ghost use Rattle.abbrev_units.specs.Faults.{left_by};
ghost use Rattle.abbrev_units.specs.Values.{behind_values};
ghost use Rattle.abbrev_units.specs.KeptTags.{is_kept_tag};
ghost use Rattle.abbrev_units.specs.Picks.{left_with, no_picks, picks_at};
ghost use Rattle.abbrev_units.specs.internal.Listed.{IsHeld, abbrev_in};

use crate::fault::FormFault;
use crate::filled::Filled;
use crate::lists::{Head, Lists};
use crate::slots::{Picks, keep};
use crate::spec::Spec;
use crate::take::read_takes;
use leb_cursor::Cursor;
use std::marker::Model;

/// An abbreviation: its code, the tag of its entries (DWARF 5, table 7.3), whether they have children, and their attributes.
#[derive(Drop)]
pub struct Abbrev<'t> {
    lists: &'t Lists,
    head: &'t Head,
}

impl<'t> Model for Abbrev<'t> {
    ghost use Rattle.abbrev_units.specs.SpecFields.{Abbrev};
    ghost use Rattle.abbrev_units.specs.internal.Listed.{IsHeld, abbrev_in};

    ghost Value = { Abbrev };

    ghost view = { λ a. abbrev_in a.lists.now.specs.items a.head.now };

    ghost invariant = { λ a. IsHeld a.lists.now a.head.now };
}

/// Reads the values of attributes, and picks the needed ones, of each attribute the first. What a call that fails leaves is not specified.
#[tactic(auto, using(crate::proofs::PickLemmas::picks_begin, crate::proofs::PickLemmas::picks_refused, crate::proofs::PickLemmas::picks_end))]
fn pick_values(picks: &mut Picks, cursor: &mut Cursor<'_>, specs: &[Spec]) -> Result<(), FormFault>
    ensures { left_with result picks.new cursor.new ≡ picks_at specs.now cursor.old }
{
    let mut filled = Filled::none();
    picks.clear();
    'specs: for spec in specs {
        match spec.read(cursor) {
            Ok(value) => {
                let slot = filled.fill(spec.attribute(), true);
                picks.put(slot, keep(slot, value));
            }
            Err(fault) => return Err(fault),
        }
    }
    Ok(())
}

impl<'t> Abbrev<'t> {
    #[inline(always)]
    pub(crate) fn of(lists: &'t Lists, head: &'t Head) -> Abbrev<'t>
        requires { IsHeld lists.now head.now }
        ensures { result ≡ abbrev_in lists.now.specs.items head.now }
    {
        Abbrev { lists, head }
    }

    /// A copy of the abbreviation.
    #[inline(always)]
    pub fn fork(&self) -> Abbrev<'t>
        ensures { result ≡ self.now }
    {
        Abbrev {
            lists: self.lists,
            head: self.head,
        }
    }

    #[inline(always)]
    pub fn code(&self) -> u64
        ensures { result ≡ self.now.code }
    {
        self.head.code
    }

    #[inline(always)]
    pub fn tag(&self) -> u64
        ensures { result ≡ self.now.tag }
    {
        self.head.tag
    }

    /// Whether the entries are kept, by their tag.
    #[inline(always)]
    pub fn is_kept(&self) -> bool
        ensures { result ≡ is_kept_tag self.now.tag }
    {
        self.head.kept
    }

    #[inline(always)]
    pub fn children(&self) -> bool
        ensures { result ≡ self.now.children }
    {
        self.head.children
    }

    pub fn specs(&self) -> &'t [Spec]
        ensures { result.now ≡ self.now.specs }
    {
        let run = self.head.specs;
        &self.lists.specs.as_slice()[run.from as usize..run.to as usize]
    }

    /// Reads the values by takes: the needed ones are picked if the entries are kept, and all others are passed. Returns false if there are no takes,
    /// or a value is not there; then nothing is promised about the picks, and the cursor is where it was.
    #[inline(always)]
    #[tactic(auto, using(crate::proofs::TakeLemmas::read_picked, crate::proofs::TakeLemmas::read_passed, crate::proofs::TakeLemmas::read_none))]
    pub fn read(&self, picks: &mut Picks, cursor: &mut Cursor<'_>) -> bool
        requires { picks.old ≡ no_picks }
        ensures picked { result ≡ true → is_kept_tag self.now.tag ≡ true → picks_at self.now.specs cursor.old ≡ Ok (picks.new, cursor.new) }
        ensures passed { result ≡ true → behind_values self.now.specs cursor.old ≡ Ok cursor.new }
        ensures none { result ≡ true → is_kept_tag self.now.tag ≡ false → picks.new ≡ no_picks }
        ensures still { result ≡ false → cursor.new ≡ cursor.old }
    {
        if !self.head.has_takes {
            return false;
        }
        let run = self.head.takes;
        let takes = &self.lists.takes.as_slice()[run.from as usize..run.to as usize];
        let mut probe = cursor.fork();
        if !read_takes(picks, &mut probe, takes, self.head.tail) {
            return false;
        }
        *cursor = probe;
        true
    }

    /// Reads the values by their specs, and picks the needed ones, of each attribute the first. What a call that fails leaves is not specified.
    pub fn read_picks(&self, picks: &mut Picks, cursor: &mut Cursor<'_>) -> Result<(), FormFault>
        ensures { left_with result picks.new cursor.new ≡ picks_at self.now.specs cursor.old }
    {
        pick_values(picks, cursor, self.specs())
    }

    /// Passes the values of the attributes, one after another. After a fault the cursor is where it was.
    #[inline(never)]
    #[tactic(auto, using(crate::proofs::PickLemmas::picks_passed, crate::proofs::PickLemmas::picks_faulty))]
    pub fn skip(&self, cursor: &mut Cursor<'_>) -> Result<(), FormFault>
        ensures passed { left_by result cursor.new ≡ behind_values self.now.specs cursor.old }
        ensures kept { OnErr result (cursor.new ≡ cursor.old) }
    {
        let mut picks = Picks::new();
        let mut probe = cursor.fork();
        self.read_picks(&mut picks, &mut probe)?;
        *cursor = probe;
        Ok(())
    }
}
