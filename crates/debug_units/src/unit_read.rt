//! The units of a file, as they were read.
ghost use Rattle.std.specs.Prelude.{◌≡◌, IfSome};
ghost use Rattle.std.specs.List.{slice_get};
ghost use Rattle.std.specs.Option.{option_copied};
ghost use Rattle.range_set.specs.Canonical.{IsCanonical};
ghost use Rattle.debug_units.specs.UnitEntries.{AreRead, die_in};

use crate::shared_lines::SharedLines;
use crate::span_sets::SpanSets;
use die_walk::{Die, DieTable};
use std::marker::Model;
use sym_edges::Span;

/// An entry, given by the number of its unit and its own number in the unit.
#[derive(Clone, Copy, Debug, PartialEq, Eq)]
pub struct EntryRef {
    pub unit: u32,
    pub entry: u32,
}

/// What was read of a unit.
#[derive(Drop)]
pub struct UnitRead<'a> {
    pub die: DieTable<'a>,
    pub spans: SpanSets,
    pub lines: SharedLines<'a>,
}

impl<'a> UnitRead<'a> {
    /// The entry with a number.
    #[inline]
    pub fn entry(&self, entry: usize) -> Option<Die<'_, 'a>>
        ensures { result ≡ slice_get self.now.die.dies entry }
    {
        self.die.dies().get(entry)
    }

    /// The addresses of the entry with a number.
    #[inline]
    pub fn ranges(&self, entry: usize) -> Option<&[Span]>
        ensures set { option_copied result ≡ slice_get self.now.spans entry }
        ensures canonical { IfSome result (λ spans. IsCanonical spans.now) }
    {
        self.spans.get(entry)
    }
}

/// The units of a file in the order of their places.
#[derive(Drop)]
pub struct Units<'a> {
    parts: Vec<UnitRead<'a>>,
}

impl<'a> Model for Units<'a> {
    ghost use Rattle.std.specs.Prelude.{List};
    ghost use Rattle.debug_units.specs.declared.unit_read.UnitRead.{UnitRead};
    ghost use Rattle.debug_units.specs.UnitEntries.{AreRead};

    ghost Value = { List UnitRead };

    ghost view = { λ u. u.parts.items };

    ghost invariant = { λ u. AreRead u.parts.items };
}

impl<'a> Units<'a> {
    /// Allocates no memory. There must be less than 2^32 parts, and less than 2^32 entries in all of them. Each entry must have a set, which is empty
    /// if the entry does not count. The places of the entries must rise through all parts.
    pub fn of(parts: Vec<UnitRead<'a>>) -> Units<'a>
        requires { AreRead parts.items }
        ensures { result ≡ parts.entry.items }
    {
        Units { parts }
    }

    pub fn as_slice(&self) -> &[UnitRead<'a>]
        ensures units { result.now ≡ self.now }
        ensures read { AreRead self.now }
    {
        self.parts.as_slice()
    }

    /// The entry that an `EntryRef` names.
    pub fn entry(&self, at: EntryRef) -> Option<Die<'_, 'a>>
        ensures { result ≡ die_in self.now at }
    {
        let part = self.unit(at.unit)?;
        part.entry(at.entry as usize)
    }

    /// The unit with a number.
    #[inline]
    pub fn unit(&self, unit: u32) -> Option<&UnitRead<'a>>
        ensures { option_copied result ≡ slice_get self.now unit }
    {
        self.parts.get(unit as usize)
    }
}
