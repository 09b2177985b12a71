//! Examples with ample memory and thousands of stretches (`step_maps`).
ghost use Rattle.std.specs.Prelude.{◌≤◌, IfOk};
ghost use Rattle.step_maps.specs.Covers.{AreStretches};

use crate::comparison::same;
use std::alloc::{AllocError, Global};
use std::test::Fail;
use step_maps::{Cover, FirstItem, Stretch, covers, first_items, overlay};
use sym_edges::OutOfMemory;

fn stretch(first: u64, last: u64, index: u32, class: u32) -> Stretch
    requires { first ≤ last }
    ensures { result.first ≤ result.last }
{
    Stretch {
        first,
        last,
        index,
        class,
    }
}

/// Stretches in descending order, each of four addresses, that overlap by one address.
#[tactic(auto, using(step_maps::proofs::StretchLemmas::stretches_push))]
fn falling(alloc: Global, count: u32) -> Result<Vec<Stretch>, AllocError>
    ensures { IfOk result (λ items. AreStretches items.items) }
{
    let mut items = Vec::new(alloc);
    for k in 0..count {
        let first = (count - k) as u64 * 3;
        items.push(stretch(first, first + 3, k, k % 2))?;
    }
    Ok(items)
}

/// Stretches of four addresses in no order: the first 70 are disjoint, and each of the next 70 has the addresses of one of them.
#[tactic(auto, using(step_maps::proofs::StretchLemmas::stretches_push))]
fn scattered(alloc: Global, count: u32) -> Result<Vec<Stretch>, AllocError>
    ensures { IfOk result (λ items. AreStretches items.items) }
{
    let mut items = Vec::new(alloc);
    for k in 0..count {
        let first = (k as u64 * 37 % 70) * 8;
        items.push(stretch(first, first + 3, k, k % 3))?;
    }
    Ok(items)
}

/// The number of covers, and where the first and the last of them begin and end.
fn outermost(found: &[Cover]) -> [u64; 5] {
    let mut ends = [found.len() as u64, 0, 0, 0, 0];
    if let Some(cover) = found.first() {
        ends[1] = cover.first;
        ends[2] = cover.last;
    }
    if let Some(cover) = found.last() {
        ends[3] = cover.first;
        ends[4] = cover.last;
    }
    ends
}

#[test]
fn thousands_of_stretches_are_covered(rt: HostRuntime) -> Result<(), Fail> {
    let items = falling(rt.alloc(), 5000)?;
    let found = covers(rt.alloc(), items.as_slice())?;
    let wanted = [5000, 3, 5, 15000, 15003];
    same(&rt, "the covers", &outermost(found.as_slice()), &wanted);
    Ok(())
}

/// Ten times the number of an item, counted from 1, plus 1 if the item is shared; 0 if there is no item.
fn mark(item: Option<FirstItem>) -> u64 {
    match item {
        None => 0,
        Some(item) => (u64::from(item.index) + 1) * 10 + u64::from(item.shared),
    }
}

/// The covers of scattered stretches, and the first items at addresses.
fn both_of_scattered(alloc: Global, count: u32) -> Result<Vec<u64>, OutOfMemory> {
    let items = scattered(alloc, count)?;
    let found = covers(alloc, items.as_slice())?;
    let steps = first_items(alloc, items.as_slice())?;
    let mut both = Vec::from_slice(alloc, &outermost(found.as_slice()))?;
    for place in [0, 3, 4, 8, 555, 556] {
        both.push(mark(steps.at(None, place)))?;
    }
    Ok(both)
}

#[test]
fn stretches_that_are_apart_need_no_order(rt: HostRuntime) -> Result<(), Fail> {
    let wanted = [70, 0, 3, 552, 555, 10, 10, 0, 540, 180, 0];
    same(&rt, "apart", &both_of_scattered(rt.alloc(), 70)?, &wanted);
    let wanted = [70, 0, 3, 552, 555, 11, 11, 0, 540, 180, 0];
    same(&rt, "but two", &both_of_scattered(rt.alloc(), 71)?, &wanted);
    Ok(())
}

/// The first items at addresses, from a map that was overlaid with itself.
fn marks(alloc: Global, places: &[u64]) -> Result<Vec<u64>, OutOfMemory> {
    let items = falling(alloc, 5000)?;
    let steps = first_items(alloc, items.as_slice())?;
    let both = overlay(alloc, &steps, &steps)?;
    let mut marks = Vec::new(alloc);
    for place in places {
        marks.push(mark(both.at(None, *place)))?;
    }
    Ok(marks)
}

#[test]
fn thousands_of_stretches_are_laid_over_themselves(rt: HostRuntime) -> Result<(), Fail> {
    let places = [2, 5, 6, 7, 9, 14999, 15000, 15003, 15004];
    let wanted = [0, 50000, 49991, 49990, 49981, 20, 11, 10, 0];
    same(&rt, "marks", &marks(rt.alloc(), &places)?, &wanted);
    Ok(())
}
