//! The records of a level. The addresses of each entry are together.
ghost use Rattle.std.specs.Prelude.{◌≡◌, ℕ, ◌<◌, ◌++◌, [], ◌∷◌, length, IfOk, OnOk};
ghost use Rattle.std.specs.List.{list_any};
ghost use Rattle.range_set.specs.Members.{holds_any};
ghost use Rattle.range_set.specs.Canonical.{IsCanonical};
ghost use Rattle.step_maps.specs.Covers.{reaches};
ghost use Rattle.step_maps.specs.SpanStretches.{AreFit};
ghost use Rattle.inline_chain.specs.InlineRuns.{IsOrdered, spans_of, first_address};
ghost use Rattle.inline_chain.specs.internal.Copies.{SortedFrom, of_class, front_count};
ghost use Rattle.inline_chain.specs.internal.Levels.{AddsGroup, AddsParts, IsMade, AddsLevel, Rising, AreOfLevel};

use crate::inline_run::InlineRun;
use range_set::{RangeSet, of_ranges};
use std::alloc::{AllocError, Global};
use step_maps::Stretch;
use sym_edges::{OutOfMemory, Span};

/// The most ranges that a record has.
const RANGES: usize = 16384;

/// Sets `spans` to the stretches, as spans.
fn fill_spans(group: &[Stretch], spans: &mut Vec<Span>) -> Result<(), AllocError>
    requires { AreFit group.now }
    ensures { OnOk result ((a : ℕ) → holds_any spans.new.items a ≡ list_any (λ s. reaches s a) group.now) }
{
    spans.clear();
    let mut rest = group;
    'group: while let Some((stretch, later)) = rest.split_first() {
        spans.push(Span::new(stretch.first, stretch.last + 1))?;
        rest = later;
    }
    Ok(())
}

/// The set of sorted and disjoint ranges.
#[tactic(auto, using(range_set::proofs::OneList::one_list))]
fn set_of(alloc: Global, spans: &[Span]) -> Result<RangeSet, OutOfMemory>
    requires { IsCanonical spans.now }
    ensures { IfOk result (λ set. set ≡ spans.now) }
{
    let set = of_ranges(alloc, spans)?;
    let _held = set.spans();
    Ok(set)
}

/// Adds the records of an entry with many ranges. Each record has 16,384 ranges, and the last one
/// has the rest.
fn push_parts(
    alloc: Global,
    made: &mut Vec<InlineRun>,
    level: u32,
    entry: u32,
    spans: &[Span],
) -> Result<(), OutOfMemory>
    requires { IsCanonical spans.now }
    ensures { OnOk result (AddsParts level entry spans.now made.old.items made.new.items) }
{
    let mut rest = spans;
    'parts: while rest.len() > RANGES {
        let (part, later) = rest.split_at(RANGES);
        made.push(InlineRun {
            level,
            entry,
            spans: set_of(alloc, part)?,
        })?;
        rest = later;
    }
    if rest.is_empty() {
        return Ok(());
    }
    made.push(InlineRun {
        level,
        entry,
        spans: set_of(alloc, rest)?,
    })?;
    Ok(())
}

/// Adds the records of an entry's ranges; nearly always this is a single record.
#[tactic(auto, using(crate::proofs::PartLemmas::parts_one))]
fn push_set(
    alloc: Global,
    made: &mut Vec<InlineRun>,
    level: u32,
    entry: u32,
    spans: RangeSet,
) -> Result<(), OutOfMemory>
    ensures { OnOk result (AddsParts level entry spans made.old.items made.new.items) }
{
    if spans.is_empty() || spans.len() > RANGES {
        return push_parts(alloc, made, level, entry, spans.spans());
    }
    made.push(InlineRun {
        level,
        entry,
        spans,
    })?;
    Ok(())
}

/// Adds the record of one stretch. Its set of addresses needs no memory.
#[tactic(auto, using(crate::proofs::PartLemmas::group_one))]
fn push_one(
    made: &mut Vec<InlineRun>,
    level: u32,
    entry: u32,
    one: Stretch,
) -> Result<(), OutOfMemory>
    requires { AreFit (one ∷ []) }
    ensures { OnOk result (AddsGroup level entry (one ∷ []) made.old.items made.new.items) }
{
    made.push(InlineRun {
        level,
        entry,
        spans: RangeSet::of_span(Span::new(one.first, one.last + 1)),
    })?;
    Ok(())
}

/// Adds the records of the stretches of one entry. The memory of `spans` is reused.
fn push_group(
    alloc: Global,
    made: &mut Vec<InlineRun>,
    spans: &mut Vec<Span>,
    level: u32,
    entry: u32,
    group: &[Stretch],
) -> Result<(), OutOfMemory>
    requires { AreFit group.now }
    ensures { OnOk result (AddsGroup level entry group.now made.old.items made.new.items) }
{
    if let [one] = group {
        return push_one(made, level, entry, *one);
    }
    fill_spans(group, spans)?;
    let set = of_ranges(alloc, spans.as_slice())?;
    // By the contract of this call, the ranges of the set are canonical.
    let _held = set.spans();
    push_set(alloc, made, level, entry, set)
}

/// Sorts stretches by class. Stretches of one class stay in their order.
fn sort_by_class(items: &mut Vec<Stretch>) -> Result<(), AllocError>
    ensures same { OnOk result ((x : ℕ) → of_class x items.new.items ≡ of_class x items.old.items) }
    ensures sorted { OnOk result (SortedFrom 0 items.new.items) }
    ensures fit { OnOk result (AreFit items.old.items → AreFit items.new.items) }
{
    items.sort_by_key(|item| item.class)?;
    Ok(())
}

/// How many stretches at the beginning are of a class.
fn front_count(items: &[Stretch], class: u32) -> usize
    ensures { result ≡ front_count class items.now }
{
    let mut count: usize = 0;
    let mut rest = items;
    'items: while let Some((item, later)) = rest.split_first() {
        if item.class != class {
            return count;
        }
        count += 1;
        rest = later;
    }
    count
}

/// Sets `made` to the records of sorted stretches, entry by entry.
fn fill_groups(
    alloc: Global,
    level: u32,
    items: &[Stretch],
    made: &mut Vec<InlineRun>,
    spans: &mut Vec<Span>,
) -> Result<(), OutOfMemory>
    requires fit { AreFit items.now }
    requires sorted { SortedFrom 0 items.now }
    ensures { OnOk result (IsMade level items.now made.new.items) }
{
    made.clear();
    let mut rest = items;
    'groups: while let Some((first, _)) = rest.split_first() {
        let entry = first.class;
        let (group, later) = rest.split_at(front_count(rest, entry));
        push_group(alloc, made, spans, level, entry, group)?;
        rest = later;
    }
    Ok(())
}

/// The first address of a record.
fn first_address(spans: &RangeSet) -> u64
    ensures { result ≡ first_address spans.now }
{
    match spans.get(0) {
        Some(span) => span.start(),
        None => 0,
    }
}

/// Sorts the records of a level by their first addresses.
fn sort_by_address(made: &mut Vec<InlineRun>, level: u32) -> Result<(), AllocError>
    requires { Rising level made.old.items }
    ensures same { OnOk result ((x : ℕ) → spans_of level x made.new.items ≡ spans_of level x made.old.items) }
    ensures level { OnOk result (AreOfLevel level made.old.items → AreOfLevel level made.new.items) }
    ensures sorted { OnOk result (AreOfLevel level made.old.items → IsOrdered made.new.items) }
{
    made.sort_by_key(|run| first_address(&run.spans))?;
    Ok(())
}

/// Sorts a level by class and adds its records. The memory of `made` and `spans` is reused; what they hold does not matter.
pub fn push_level(
    alloc: Global,
    runs: &mut Vec<InlineRun>,
    level: u32,
    items: &mut Vec<Stretch>,
    made: &mut Vec<InlineRun>,
    spans: &mut Vec<Span>,
) -> Result<(), OutOfMemory>
    requires { AreFit items.old.items }
    ensures { OnOk result (AddsLevel level items.old.items runs.old.items runs.new.items) }
{
    sort_by_class(items)?;
    fill_groups(alloc, level, items.as_slice(), made, spans)?;
    sort_by_address(made, level)?;
    runs.append(made)?;
    Ok(())
}
