//! The nearest scope around each entry.
ghost use Rattle.std.specs.Prelude.{◌≡◌, [], IfOk};
ghost use Rattle.die_walk.specs.Scopes.{scope_around, scope_of};
ghost use Rattle.die_walk.specs.internal.Near.{AreNear};

use crate::heads::EntryList;
use std::alloc::Global;
use sym_edges::OutOfMemory;

/// The nearest scope around an entry, given its parent. The search goes from parent to parent, up
/// to a scope or to an entry whose nearest scope is in the list.
fn scope_from(
    entries: &EntryList<'_>,
    near: &[Option<u32>],
    entry: usize,
    parent: Option<u32>,
) -> Option<u32>
    requires { AreNear entries.now.dies near.now }
    ensures { result ≡ scope_around entries.now.dies entry parent }
{
    let mut limit = entry;
    let mut next = parent;
    'around: loop {
        let number = next?;
        if number as usize >= limit {
            return None;
        }
        let die = entries.get(number as usize)?;
        if die.is_scope() {
            return Some(number);
        }
        if let Some(known) = near.get(number as usize) {
            return *known;
        }
        limit = number as usize;
        next = die.parent();
    }
}

/// The nearest scope around the entry at an index, given a list with the nearest scopes of some entries.
#[inline]
#[tactic(auto, using(crate::proofs::ScopeLemmas::of_entry, crate::proofs::ScopeLemmas::of_none))]
pub fn scope_of(entries: &EntryList<'_>, near: &[Option<u32>], entry: usize) -> Option<u32>
    requires { AreNear entries.now.dies near.now }
    ensures { result ≡ scope_of entries.now.dies entry }
{
    let die = entries.get(entry)?;
    scope_from(entries, near, entry, die.parent())
}

/// The nearest scope around each entry if the tree is deep; an empty list if it is not, since the search is short then.
#[tactic(auto, using(crate::proofs::ScopeLemmas::near_none, crate::proofs::ScopeLemmas::near_more))]
pub fn list_scopes(
    alloc: Global,
    entries: &EntryList<'_>,
    is_deep: bool,
) -> Result<Vec<Option<u32>>, OutOfMemory>
    ensures { IfOk result (λ near. AreNear entries.now.dies near.items) }
{
    if !is_deep {
        return Ok(Vec::new(alloc));
    }
    let mut near = Vec::with_capacity(alloc, entries.len())?;
    'entries: for entry in 0..entries.len() {
        let scope = scope_of(entries, near.as_slice(), entry);
        near.push(scope)?;
    }
    Ok(near)
}
