//! A list of lists, stored as one list of members and the place where each list ends.
ghost use Rattle.std.specs.Prelude.{◌≡◌, ◌<◌, ◌≤◌, ◌-◌, [], ◌∷◌, ◌++◌, Some, length, take, drop, IfOk, OnOk, OnErr};
ghost use Rattle.std.specs.List.{slice_get};
ghost use Rattle.std.specs.Option.{option_copied};
ghost use Rattle.flat_lists.specs.Ends.{begun};

use std::alloc::Global;
use std::marker::Model;
use sym_edges::OutOfMemory;

/// A list of lists that grows at its end. All lists together have fewer than 2^32 members; adding a
/// list that would exceed this fails like a lack of memory.
#[derive(Drop)]
pub struct FlatLists<T> {
    ends: Vec<u32>,
    members: Vec<T>,
}

impl<T> Model for FlatLists<T> {
    ghost use Rattle.std.specs.Prelude.{List, length};
    ghost use Rattle.flat_lists.specs.Ends.{lists_to, AreEnds};

    ghost Value = { List (List T) };

    ghost view = { λ l. lists_to 0 l.ends.items l.members.items };

    ghost invariant = { λ l. AreEnds 0 l.ends.items (length l.members.items) };
}

/// Where list `k` begins: at the end of the one before it, or at 0.
#[inline]
fn begun(ends: &[u32], k: usize) -> u32
    requires { k < length ends.now }
    ensures { result ≡ begun 0 ends.now k }
{
    if k == 0 {
        return 0;
    }
    ends[k - 1]
}

/// The members from `start` up to `end`, without `end`.
#[inline]
#[tactic(auto, using(crate::proofs::EndLemmas::part_is))]
fn list_between<T>(members: &[T], start: usize, end: usize) -> &[T]
    requires rising { start ≤ end }
    requires inside { end ≤ length members.now }
    ensures { result.now ≡ take (end - start) (drop start members.now) }
{
    let (front, _) = members.split_at(end);
    let (_, list) = front.split_at(start);
    list
}

impl<T> FlatLists<T> {
    /// A list of no lists. Allocates no memory.
    pub fn new(alloc: Global) -> FlatLists<T>
        ensures { result ≡ [] }
    {
        FlatLists {
            ends: Vec::new(alloc),
            members: Vec::new(alloc),
        }
    }

    /// A list of no lists, with memory for `lists` lists that have `members` members together.
    pub fn with_room(
        alloc: Global,
        lists: usize,
        members: usize,
    ) -> Result<FlatLists<T>, OutOfMemory>
        ensures { IfOk result (λ lists. lists ≡ []) }
    {
        Ok(FlatLists {
            ends: Vec::with_capacity(alloc, lists)?,
            members: Vec::with_capacity(alloc, members)?,
        })
    }

    /// Adds a list at the end, and moves its members. If there is not enough memory, nothing
    /// changes.
    #[tactic(auto, using(crate::proofs::EndLemmas::list_added, crate::proofs::EndLemmas::end_added))]
    pub fn append(&mut self, list: &mut Vec<T>) -> Result<(), OutOfMemory>
        ensures added { OnOk result (self.new ≡ self.old ++ list.old.items ∷ []) }
        ensures kept { OnErr result (self.new ≡ self.old) }
    {
        let end = self.members.len().saturating_add(list.len());
        if end > u32::MAX as usize {
            return Err(OutOfMemory);
        }
        self.ends.reserve(1)?;
        self.members.append(list)?;
        self.ends.push_reserved(end as u32);
        Ok(())
    }

    /// Frees the memory that no list uses.
    pub fn shrink(&mut self)
        ensures { self.new ≡ self.old }
    {
        self.ends.shrink_to_fit();
        self.members.shrink_to_fit();
    }

    /// The number of lists.
    #[inline]
    #[tactic(auto, using(crate::proofs::EndLemmas::count_is))]
    pub fn len(&self) -> usize
        ensures { result ≡ length self.now }
    {
        self.ends.len()
    }

    /// List `k`, or `None` if there are not that many.
    #[inline]
    pub fn get(&self, k: usize) -> Option<&[T]>
        ensures { option_copied result ≡ slice_get self.now k }
    {
        let Some(end) = self.ends.get(k) else {
            return None;
        };
        let start = begun(self.ends.as_slice(), k);
        Some(list_between(self.members.as_slice(), start as usize, *end as usize))
    }

    /// List `k`, which must exist.
    #[inline]
    pub fn at(&self, k: usize) -> &[T]
        requires { k < length self.now }
        ensures { Some result.now ≡ slice_get self.now k }
    {
        match self.get(k) {
            Some(list) => list,
            None => unreachable!(),
        }
    }
}

impl<T: Copy> FlatLists<T> {
    /// Adds a copy of a list at the end. If there is not enough memory, nothing changes.
    #[tactic(auto, using(crate::proofs::EndLemmas::list_added, crate::proofs::EndLemmas::end_added))]
    pub fn push(&mut self, list: &[T]) -> Result<(), OutOfMemory>
        ensures added { OnOk result (self.new ≡ self.old ++ list.now ∷ []) }
        ensures kept { OnErr result (self.new ≡ self.old) }
    {
        let end = self.members.len().saturating_add(list.len());
        if end > u32::MAX as usize {
            return Err(OutOfMemory);
        }
        self.ends.reserve(1)?;
        self.members.extend_from_slice(list)?;
        self.ends.push_reserved(end as u32);
        Ok(())
    }

    /// Removes all lists, and makes room for `lists` new ones. The memory of the old ones is
    /// reused.
    pub fn clear(&mut self, lists: usize) -> Result<(), OutOfMemory>
        ensures { OnOk result (self.new ≡ []) }
    {
        self.ends.clear();
        self.members.clear();
        self.ends.reserve(lists)?;
        Ok(())
    }

    /// A copy of the lists that takes no more memory than they need.
    pub fn copied(&self, alloc: Global) -> Result<FlatLists<T>, OutOfMemory>
        ensures { IfOk result (λ lists. lists ≡ self.now) }
    {
        Ok(FlatLists {
            ends: Vec::from_slice(alloc, self.ends.as_slice())?,
            members: Vec::from_slice(alloc, self.members.as_slice())?,
        })
    }
}
