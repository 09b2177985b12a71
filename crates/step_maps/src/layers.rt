//! The map of first items of stretches that may overlap.
ghost use Rattle.std.specs.Prelude.{◌≡◌, ℕ, ◌+◌, ◌^◌, ◌<◌, ◌≤◌, true, false, nat_le, nat_lt, if◌then◌else◌, None, Some, IfSome, IfOk, OnOk};
ghost use Rattle.std.specs.List.Sorted.{IsPermutation};
ghost use Rattle.step_maps.specs.Stepping.{last_from, value_at};
ghost use Rattle.step_maps.specs.Covers.{reaches, AreStretches};
ghost use Rattle.step_maps.specs.Ends.{BelowEnd};
ghost use Rattle.step_maps.specs.internal.Laying.{own_item, laid, ascends, AreSteady, sooner};

use crate::overlays::{over, overlay};
use crate::steps::StepMap;
use crate::stretch::{FirstItem, Stretch};
use std::alloc::Global;
use sym_edges::OutOfMemory;

/// A list of at most this many stretches is not cut in two, but handled stop by stop
/// (`one_by_one`).
const FEW: usize = 4;

/// The whole list and, of the parts, only those of at most this many stretches are tried in sorted
/// order. To sort larger parts too would take too long.
const SHORT: usize = 64;

/// The first item at each address. If no stretches overlap, they are laid one after another.
/// Otherwise the list is cut in two, and the map of the front half is laid over that of the back
/// half.
pub(crate) fn layered(
    alloc: Global,
    items: &[Stretch],
) -> Result<StepMap<Option<FirstItem>>, OutOfMemory>
    requires { AreStretches items.now }
    ensures { IfOk result (λ steps. (a : ℕ) → a < 2 ^ 64 → value_at None steps a ≡ laid items.now a) }
{
    if items.len() > SHORT && !is_ascending(items) {
        if let Some(steps) = disjoint(alloc, items)? {
            return Ok(steps);
        }
    }
    halved(alloc, items)
}

/// The map of the stretches, from a sorted copy, if none of them overlap; otherwise `None`.
#[tactic(auto, using(crate::proofs::SortedLemmas::stretches_moved, crate::proofs::SortedLemmas::sorted_laid))]
fn disjoint(
    alloc: Global,
    items: &[Stretch],
) -> Result<Option<StepMap<Option<FirstItem>>>, OutOfMemory>
    requires { AreStretches items.now }
    ensures { IfOk result (λ found. IfSome found (λ steps. (a : ℕ) → a < 2 ^ 64 → value_at None steps a ≡ laid items.now a)) }
{
    let sorted = sorted_by_first(alloc, items)?;
    if !is_ascending(sorted.as_slice()) {
        return Ok(None);
    }
    let steps = in_order(alloc, sorted.as_slice())?;
    Ok(Some(steps))
}

fn sorted_by_first(alloc: Global, items: &[Stretch]) -> Result<Vec<Stretch>, OutOfMemory>
    ensures { IfOk result (λ sorted. IsPermutation items.now sorted.items) }
{
    let mut sorted = Vec::from_slice(alloc, items)?;
    sorted.sort_unstable_by_key(|item| item.first);
    Ok(sorted)
}

/// The map of the stretches. If they ascend, they are laid in their order. Otherwise the list is
/// cut in two, and the map of the front half is laid over that of the back half; short lists are
/// handled without cutting if possible.
fn halved(alloc: Global, items: &[Stretch]) -> Result<StepMap<Option<FirstItem>>, OutOfMemory>
    requires { AreStretches items.now }
    ensures { IfOk result (λ steps. (a : ℕ) → a < 2 ^ 64 → value_at None steps a ≡ laid items.now a) }
{
    if is_ascending(items) {
        let steps = in_order(alloc, items)?;
        return Ok(steps);
    }
    if items.len() <= FEW {
        let steps = one_by_one(alloc, items)?;
        return Ok(steps);
    }
    if items.len() <= SHORT {
        if let Some(steps) = disjoint(alloc, items)? {
            return Ok(steps);
        }
    }
    let (front, back) = items.split_at(items.len() / 2);
    let upper = halved(alloc, front)?;
    let lower = halved(alloc, back)?;
    let both = overlay(alloc, &upper, &lower)?;
    Ok(both)
}

fn is_ascending(items: &[Stretch]) -> bool
    ensures { result ≡ ascends items.now }
{
    let Some((first, after)) = items.split_first() else {
        return true;
    };
    let mut last = first.last;
    let mut rest = after;
    'items: while let Some((next, later)) = rest.split_first() {
        if next.first <= last {
            return false;
        }
        last = next.last;
        rest = later;
    }
    true
}

/// The map of stretches that ascend.
fn in_order(alloc: Global, items: &[Stretch]) -> Result<StepMap<Option<FirstItem>>, OutOfMemory>
    requires all { AreStretches items.now }
    requires up { ascends items.now ≡ true }
    ensures { IfOk result (λ steps. (a : ℕ) → a < 2 ^ 64 → value_at None steps a ≡ laid items.now a) }
{
    let mut steps = StepMap::with_room(alloc, items.len() + items.len())?;
    let Some((first, after)) = items.split_first() else {
        return Ok(steps);
    };
    lay_behind(&mut steps, *first)?;
    let mut last = first.last;
    let mut rest = after;
    'items: while let Some((item, later)) = rest.split_first() {
        lay_behind(&mut steps, *item)?;
        last = item.last;
        rest = later;
    }
    Ok(steps)
}

/// Adds a stretch that begins at or above the last stop.
#[inline]
fn lay_behind(steps: &mut StepMap<Option<FirstItem>>, item: Stretch) -> Result<(), OutOfMemory>
    requires some { item.first ≤ item.last }
    requires last { last_from 0 steps.old.stops ≤ item.first }
    ensures at { OnOk result ((a : ℕ) → a < 2 ^ 64 → value_at None steps.new a ≡ (if nat_lt item.last a then None else if nat_le item.first a then Some (record { index = item.index; class = item.class; shared = false }) else value_at None steps.old a)) }
    ensures last { OnOk result (last_from 0 steps.new.stops ≤ item.last + 1) }
{
    let alone = FirstItem {
        index: item.index,
        class: item.class,
        shared: false,
    };
    steps.set(item.first, Some(alone))?;
    if item.last == u64::MAX {
        return Ok(());
    }
    steps.set(item.last + 1, None)?;
    Ok(())
}

/// The map of a few stretches. At each address at which a stretch begins, or which follows the end
/// of one, all are searched for the first that contains the address.
fn one_by_one(alloc: Global, items: &[Stretch]) -> Result<StepMap<Option<FirstItem>>, OutOfMemory>
    ensures { IfOk result (λ steps. (a : ℕ) → a < 2 ^ 64 → value_at None steps a ≡ laid items.now a) }
{
    let mut steps = StepMap::with_room(alloc, items.len() + items.len() + 1)?;
    let mut at: u64 = 0;
    steps.set(at, laid_at(items, at))?;
    'stops: while let Some(next) = next_stop(items, at) {
        steps.set(next, laid_at(items, next))?;
        at = next;
    }
    Ok(steps)
}

fn own_item(item: Stretch, a: u64) -> Option<FirstItem>
    ensures { result ≡ own_item item a }
{
    if item.first <= a && a <= item.last {
        return Some(FirstItem {
            index: item.index,
            class: item.class,
            shared: false,
        });
    }
    None
}

#[tactic(auto, unfolding(crate::specs::internal::Laying::laid))]
fn laid_at(items: &[Stretch], a: u64) -> Option<FirstItem>
    ensures { result ≡ laid items.now a }
{
    let Some((item, later)) = items.split_first() else {
        return None;
    };
    over(own_item(*item, a), laid_at(later, a))
}

/// The lowest address above `at` at which a stretch begins, or which follows the end of one.
fn next_stop(items: &[Stretch], at: u64) -> Option<u64>
    ensures steady { AreSteady items.now at result }
    ensures above { BelowEnd at result }
{
    let Some((item, later)) = items.split_first() else {
        return None;
    };
    sooner(stop_of(*item, at), next_stop(later, at))
}

fn stop_of(item: Stretch, at: u64) -> Option<u64>
    ensures steady { (a : ℕ) → at ≤ a → a < 2 ^ 64 → BelowEnd a result → reaches item a ≡ reaches item at }
    ensures above { BelowEnd at result }
{
    if at < item.first {
        return Some(item.first);
    }
    if item.last < at || item.last == u64::MAX {
        return None;
    }
    Some(item.last + 1)
}

fn sooner(x: Option<u64>, y: Option<u64>) -> Option<u64>
    ensures { result ≡ sooner x y }
{
    let Some(first) = x else {
        return y;
    };
    let Some(second) = y else {
        return x;
    };
    Some(first.min(second))
}
