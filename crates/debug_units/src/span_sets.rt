//! The addresses of entries. Most entries have none, and many have those of another entry.
ghost use Rattle.std.specs.Prelude.{◌≡◌, ◌<◌, [], ◌∷◌, ◌++◌, Some, true, length, IfOk, IfSome, OnOk, List};
ghost use Rattle.std.specs.List.{slice_get};
ghost use Rattle.std.specs.Option.{option_copied};
ghost use Rattle.sym_edges.specs.Addresses.{Range};
ghost use Rattle.range_set.specs.Canonical.{IsCanonical};

use flat_lists::FlatLists;
use range_set::RangeSet;
use std::alloc::Global;
use std::marker::Model;
use sym_edges::{OutOfMemory, Span};

/// The number of sets, and of ranges, for which memory is reserved at first.
const USUAL: usize = 16;

/// The addresses of a unit's entries, one set for each entry; the set is empty if the entry does not count. Sets have numbers, and number 0 is the
/// empty set. So an entry without addresses takes four bytes, and so does an entry with the set of an earlier one.
#[derive(Drop)]
pub struct SpanSets {
    numbers: Vec<u32>,
    sets: FlatLists<Span>,
}

impl Model for SpanSets {
    ghost use Rattle.std.specs.Prelude.{List};
    ghost use Rattle.sym_edges.specs.Addresses.{Range};
    ghost use Rattle.debug_units.specs.internal.NumberedSets.{sets_of, AreNumbered};

    ghost Value = { List (List Range) };

    ghost view = { λ s. sets_of s.sets s.numbers.items };

    ghost invariant = { λ s. AreNumbered s.sets s.numbers.items };
}

/// The number of an entry's set.
#[inline]
fn number_of(numbers: &[u32], entry: usize) -> Option<u32>
    ensures { result ≡ slice_get numbers.now entry }
{
    match numbers.get(entry) {
        Some(number) => Some(*number),
        None => None,
    }
}

impl SpanSets {
    /// The addresses of no entry yet, with room for those of `count` entries.
    #[tactic(auto, using(crate::proofs::SetLemmas::none_numbered))]
    pub fn with_room(alloc: Global, count: usize) -> Result<SpanSets, OutOfMemory>
        ensures { IfOk result (λ sets. sets ≡ []) }
    {
        let mut sets = FlatLists::with_room(alloc, USUAL, USUAL)?;
        sets.push(&[])?;
        Ok(SpanSets {
            numbers: Vec::with_capacity(alloc, count)?,
            sets,
        })
    }

    /// Adds an entry without addresses.
    #[inline]
    #[tactic(auto, using(crate::proofs::SetLemmas::number_added, crate::proofs::SetLemmas::empty_added))]
    pub fn push_none(&mut self) -> Result<(), OutOfMemory>
        ensures { OnOk result (self.new ≡ self.old ++ [] ∷ []) }
    {
        self.numbers.push(0)?;
        Ok(())
    }

    /// Adds the addresses of an entry.
    #[tactic(auto, using(crate::proofs::SetLemmas::numbered_kept, crate::proofs::SetLemmas::number_added, crate::proofs::SetLemmas::set_numbered, crate::proofs::SetLemmas::set_added))]
    pub fn push(&mut self, set: &RangeSet) -> Result<(), OutOfMemory>
        ensures { OnOk result (self.new ≡ self.old ++ set.now ∷ []) }
    {
        let spans = set.spans();
        if spans.is_empty() {
            return self.push_none();
        }
        let number = self.sets.len();
        if number > u32::MAX as usize {
            return Err(OutOfMemory);
        }
        self.numbers.reserve(1)?;
        self.sets.push(spans)?;
        self.numbers.push_reserved(number as u32);
        Ok(())
    }

    /// Adds an entry that has the addresses of an earlier one.
    #[tactic(auto, using(crate::proofs::SetLemmas::numbered_kept, crate::proofs::SetLemmas::number_added, crate::proofs::SetLemmas::number_there, crate::proofs::SetLemmas::again_added))]
    pub fn push_again(&mut self, entry: usize) -> Result<(), OutOfMemory>
        requires { entry < length self.old }
        ensures { OnOk result ((set : List Range) → slice_get self.old entry ≡ Some set → self.new ≡ self.old ++ set ∷ []) }
    {
        let number = match number_of(self.numbers.as_slice(), entry) {
            Some(number) => number,
            None => unreachable!(),
        };
        self.numbers.push(number)?;
        Ok(())
    }

    /// Releases the memory that is not used.
    #[tactic(auto, using(crate::proofs::SetLemmas::numbered_kept))]
    pub fn shrink(&mut self)
        ensures { self.new ≡ self.old }
    {
        self.numbers.shrink_to_fit();
        self.sets.shrink();
    }

    /// The addresses of the entry with a number.
    #[inline]
    #[tactic(auto, using(crate::proofs::SetLemmas::none_there, crate::proofs::SetLemmas::empty_there, crate::proofs::SetLemmas::by_number, crate::proofs::SetLemmas::canonical_there))]
    pub fn get(&self, entry: usize) -> Option<&[Span]>
        ensures set { option_copied result ≡ slice_get self.now entry }
        ensures canonical { IfSome result (λ spans. IsCanonical spans.now) }
    {
        let Some(number) = number_of(self.numbers.as_slice(), entry) else {
            return None;
        };
        if number == 0 {
            return Some(&[]);
        }
        match self.sets.get(number as usize) {
            Some(spans) => Some(spans),
            None => None,
        }
    }

    /// The number of the entry's set: entries with the same number have the same set. 0 if there is no such entry.
    #[inline]
    pub fn number(&self, entry: usize) -> usize {
        match number_of(self.numbers.as_slice(), entry) {
            Some(number) => number as usize,
            None => 0,
        }
    }

    /// Whether both entries exist and their sets have the same number, so that the sets are equal. Sets that were added separately have different
    /// numbers, unless they are empty.
    #[inline]
    #[tactic(auto, using(crate::proofs::SetLemmas::same_there))]
    pub fn are_same(&self, one: usize, other: usize) -> bool
        ensures { result ≡ true → slice_get self.now one ≡ slice_get self.now other }
    {
        let Some(first) = number_of(self.numbers.as_slice(), one) else {
            return false;
        };
        let Some(second) = number_of(self.numbers.as_slice(), other) else {
            return false;
        };
        first == second
    }
}
