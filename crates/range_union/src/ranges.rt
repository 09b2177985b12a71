//! A union of ranges, kept as ranges of which no two overlap.
ghost use Rattle.std.specs.Prelude.{◌≡◌, ℕ, ◌<◌, ◌||◌, false, [], MatchOption, OnOk, OnErr};
ghost use Rattle.sym_edges.specs.Addresses.{Range};
ghost use Rattle.range_union.specs.Ranges.{overlap, any_overlap, range_to};
ghost use Rattle.range_union.specs.internal.Entries.{ranges_by, last_below, AreApart, IsTaken};

use std::alloc::Global;
use std::collections::BTreeMap;
use std::marker::Model;
use sym_edges::OutOfMemory;

/// Ranges of addresses, of which no two overlap; a map from their starts to their ends.
#[derive(Drop)]
pub struct RangeUnion {
    ends: BTreeMap<u128, u128>,
}

impl Model for RangeUnion {
    ghost use Rattle.std.specs.Prelude.{List};
    ghost use Rattle.sym_edges.specs.Addresses.{Range};
    ghost use Rattle.range_union.specs.internal.Entries.{ranges_by, AreApart};

    ghost Value = { List Range };

    ghost view = { λ t. ranges_by t.ends.entries };

    ghost invariant = { λ t. AreApart t.ends.entries };
}

/// The last range that starts below an address, if there is one.
fn last_before(ends: &BTreeMap<u128, u128>, below: u128) -> Option<(u128, u128)>
    ensures { result ≡ last_below below ends.now.entries }
{
    match ends.range(..below).next_back() {
        Some((start, end)) => Some((*start, *end)),
        None => None,
    }
}

impl RangeUnion {
    pub fn new(alloc: Global) -> RangeUnion
        ensures { result ≡ [] }
    {
        RangeUnion {
            ends: BTreeMap::new(alloc),
        }
    }

    /// Whether the range from `start` up to `end`, which must not be empty, overlaps one of the
    /// ranges. The last one that starts below `end` decides.
    pub fn meets(&self, start: u128, end: u128) -> bool
        requires { start < end }
        ensures { result ≡ any_overlap (range_to start end) self.now }
    {
        match last_before(&self.ends, end) {
            Some((_, last)) => start < last,
            None => false,
        }
    }

    /// Adds a range, which must not be empty. The ranges that it overlaps are taken out, and it is
    /// widened to include them. So each range is put in once and taken out at most once.
    pub fn put(&mut self, start: u128, end: u128) -> Result<(), OutOfMemory>
        requires { start < end }
        ensures more { OnOk result ((a b : ℕ) → a < b → any_overlap (range_to a b) self.new ≡ (any_overlap (range_to a b) self.old || overlap (range_to a b) (range_to start end))) }
        ensures no_other { (a b : ℕ) → a < b → (any_overlap (range_to a b) self.old || overlap (range_to a b) (range_to start end)) ≡ false → any_overlap (range_to a b) self.new ≡ false }
    {
        put_range(&mut self.ends, start, end)
    }

    /// Adds a range, which must not be empty or overlap one of the ranges.
    pub fn add(&mut self, start: u128, end: u128) -> Result<(), OutOfMemory>
        requires some { start < end }
        requires apart { any_overlap (range_to start end) self.old ≡ false }
        ensures more { OnOk result ((q : Range) → any_overlap q self.new ≡ (any_overlap q self.old || overlap q (range_to start end))) }
        ensures kept { OnErr result (self.new ≡ self.old) }
    {
        add_range(&mut self.ends, start, end)
    }
}

#[tactic(auto, using(crate::proofs::RangeLemmas::put_apart, crate::proofs::RangeLemmas::put_overlaps))]
fn add_range(ends: &mut BTreeMap<u128, u128>, start: u128, end: u128) -> Result<(), OutOfMemory>
    requires all { AreApart ends.old.entries }
    requires some { start < end }
    requires apart { any_overlap (range_to start end) (ranges_by ends.old.entries) ≡ false }
    ensures all { AreApart ends.new.entries }
    ensures more { OnOk result ((q : Range) → any_overlap q (ranges_by ends.new.entries) ≡ (any_overlap q (ranges_by ends.old.entries) || overlap q (range_to start end))) }
    ensures kept { OnErr result (ends.new.entries ≡ ends.old.entries) }
{
    ends.insert(start, end)?;
    Ok(())
}

/// Takes out the last range that overlaps the one from `start` up to `end`, if there is one. The
/// latter range must not be empty.
#[tactic(auto, using(crate::proofs::RangeLemmas::none_left, crate::proofs::RangeLemmas::past_none, crate::proofs::RangeLemmas::taken_apart, crate::proofs::RangeLemmas::taken))]
fn take_met(ends: &mut BTreeMap<u128, u128>, start: u128, end: u128) -> Option<(u128, u128)>
    requires apart { AreApart ends.old.entries }
    requires some { start < end }
    ensures apart { AreApart ends.new.entries }
    ensures taken { MatchOption result ((ends.new.entries ≡ ends.old.entries) × (any_overlap (range_to start end) (ranges_by ends.old.entries) ≡ false)) (λ r. IsTaken start end r.0 r.1 ends.old.entries ends.new.entries) }
{
    match last_before(ends, end) {
        None => None,
        Some((low, high)) => {
            if high <= start {
                return None;
            }
            ends.remove(&low);
            Some((low, high))
        }
    }
}

fn put_range(ends: &mut BTreeMap<u128, u128>, start: u128, end: u128) -> Result<(), OutOfMemory>
    requires apart { AreApart ends.old.entries }
    requires some { start < end }
    ensures apart { AreApart ends.new.entries }
    ensures more { OnOk result ((a b : ℕ) → a < b → any_overlap (range_to a b) (ranges_by ends.new.entries) ≡ (any_overlap (range_to a b) (ranges_by ends.old.entries) || overlap (range_to a b) (range_to start end))) }
    ensures no_other { (a b : ℕ) → a < b → (any_overlap (range_to a b) (ranges_by ends.old.entries) || overlap (range_to a b) (range_to start end)) ≡ false → any_overlap (range_to a b) (ranges_by ends.new.entries) ≡ false }
{
    let mut first = start;
    let mut last = end;
    'met: while let Some((low, high)) = take_met(ends, first, last) {
        first = first.min(low);
        last = last.max(high);
    }
    ends.insert(first, last)?;
    Ok(())
}
