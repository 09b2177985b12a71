//! Inlined copies with the same set of addresses as an earlier copy directly in the same entry.
//! They are at no address the first copy.
ghost use Rattle.std.specs.Prelude.{◌≡◌, true, Some, IfOk};
ghost use Rattle.std.specs.List.{slice_get};
ghost use Rattle.inline_chain.specs.internal.Copies.{HasEarlier};

use debug_units::UnitRead;
use std::alloc::{AllocError, Global};
use std::collections::BTreeMap;

/// The copies that were met. `firsts` has, by the number of a set, the first copy with the set.
/// `others` has, by a set and an entry, the first copy directly in that entry, if that is not the
/// one in `firsts`. What is found in these lists is checked before it is used.
#[derive(Drop)]
pub struct MetCopies {
    firsts: Vec<u32>,
    others: BTreeMap<(usize, u32), u32>,
}

/// Whether `entry`, an earlier entry, is directly in the entry `class`.
fn stands_in(row: &[Option<u32>], entry: usize, class: u32) -> bool
    ensures { result ≡ true → slice_get row.now entry ≡ Some (Some class) }
{
    let Some(above) = row.get(entry) else {
        return false;
    };
    match *above {
        Some(number) => number == class,
        None => false,
    }
}

/// Whether `entry`, an earlier entry, is an inlined copy directly in the entry `class`, with the
/// same set of addresses as `number`.
#[tactic(auto, using(crate::proofs::CollectLemmas::earlier_is))]
fn is_earlier(part: &UnitRead<'_>, row: &[Option<u32>], entry: u32, number: u32, class: u32) -> bool
    ensures { result ≡ true → HasEarlier part.now.die.dies part.now.spans row.now number (Some class) }
{
    let Some(die) = part.entry(entry as usize) else {
        return false;
    };
    if !die.is_inlined() {
        return false;
    }
    if !stands_in(row, entry as usize, class) {
        return false;
    }
    part.spans.are_same(entry as usize, number as usize)
}

/// The first copy with the set of this number, if it is noted.
fn first_of(firsts: &[u32], set: usize) -> Option<u32> {
    match firsts.get(set) {
        Some(first) => Some(*first),
        None => None,
    }
}

impl MetCopies {
    /// No copies yet. Allocates no memory.
    pub fn new(alloc: Global) -> MetCopies {
        MetCopies {
            firsts: Vec::new(alloc),
            others: BTreeMap::new(alloc),
        }
    }

    /// Forgets the copies, and keeps the list's memory.
    pub fn clear(&mut self) {
        self.firsts.clear();
        self.others.clear();
    }

    /// Notes the first copy that has a set. The numbers of sets rise, so the list is filled up to this one.
    fn note_first(&mut self, set: usize, number: u32) -> Result<(), AllocError> {
        if set >= self.firsts.len() {
            self.firsts.resize(set.saturating_add(1), number)?;
        }
        if set < self.firsts.len() {
            self.firsts[set] = number;
        }
        Ok(())
    }

    /// Whether an earlier copy directly in the entry `class` has this set, if the first copy with
    /// the set is in another entry. If there is none, the copy is noted.
    fn meet_other(
        &mut self,
        part: &UnitRead<'_>,
        row: &[Option<u32>],
        set: usize,
        number: u32,
        class: u32,
    ) -> Result<bool, AllocError>
        ensures { IfOk result (λ met. met ≡ true → HasEarlier part.now.die.dies part.now.spans row.now number (Some class)) }
    {
        if let Some(other) = self.others.get(&(set, class)).copied() {
            if is_earlier(part, row, other, number, class) {
                return Ok(true);
            }
        }
        let _before = self.others.insert((set, class), number)?;
        Ok(false)
    }

    /// Whether an earlier copy directly in the entry `class` has the same set as the copy `number`.
    /// If there is none, the copy is noted.
    pub fn meet(
        &mut self,
        part: &UnitRead<'_>,
        row: &[Option<u32>],
        number: u32,
        class: u32,
    ) -> Result<bool, AllocError>
        ensures { IfOk result (λ met. met ≡ true → HasEarlier part.now.die.dies part.now.spans row.now number (Some class)) }
    {
        let set = part.spans.number(number as usize);
        if set == 0 {
            return Ok(false);
        }
        let Some(first) = first_of(self.firsts.as_slice(), set) else {
            self.note_first(set, number)?;
            return Ok(false);
        };
        // The list may have been filled up at this index with the copy of a later set.
        if !part.spans.are_same(first as usize, number as usize) {
            self.note_first(set, number)?;
            return Ok(false);
        }
        if is_earlier(part, row, first, number, class) {
            return Ok(true);
        }
        self.meet_other(part, row, set, number, class)
    }
}
