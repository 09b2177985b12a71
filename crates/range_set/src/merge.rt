//! The union of spans, and of two sets.
ghost use Rattle.std.specs.Prelude.{◌≡◌, ℕ, ◌≤◌, ◌||◌, true, [], length, IfOk, OnOk, IsOk};
ghost use Rattle.std.specs.List.Sorted.{IsNonDecreasingBy, IsPermutation};
ghost use Rattle.range_set.specs.Members.{holds_any};
ghost use Rattle.range_set.specs.Canonical.{IsCanonical};
ghost use Rattle.range_set.specs.Building.{AreAscending, StartsBefore};

use crate::builder::SetBuilder;
use crate::set::RangeSet;
use std::alloc::Global;
use sym_edges::{OutOfMemory, Span};

/// The set of the addresses that are in some span. With at most one span it allocates no memory.
pub fn of_ranges(alloc: Global, spans: &[Span]) -> Result<RangeSet, OutOfMemory>
    ensures members { IfOk result (λ set. (a : ℕ) → holds_any set a ≡ holds_any spans.now a) }
    ensures few { length spans.now ≤ 1 → IsOk result }
{
    match spans {
        [] => Ok(RangeSet::empty()),
        [span] => Ok(RangeSet::of_span(*span)),
        _ => {
            if are_apart(spans) {
                return Ok(RangeSet::of_many(Vec::from_slice(alloc, spans)?));
            }
            if are_ascending(spans) {
                return of_sorted(alloc, spans);
            }
            let sorted = sorted_copy(alloc, spans)?;
            of_sorted(alloc, sorted.as_slice())
        }
    }
}

/// The set of the addresses that are in some span. The `Vec` is consumed. If it has two or more
/// spans, and these are sorted, disjoint and not touching, it becomes the list of the set.
pub fn of_owned(alloc: Global, spans: Vec<Span>) -> Result<RangeSet, OutOfMemory>
    ensures { IfOk result (λ set. (a : ℕ) → holds_any set a ≡ holds_any spans.items a) }
{
    if spans.len() > 1 && are_apart(spans.as_slice()) {
        return Ok(RangeSet::of_many(spans));
    }
    of_ranges(alloc, spans.as_slice())
}

/// Whether each span ends below the start of the next.
#[tactic(auto, using(crate::proofs::JoinLemmas::apart_first, crate::proofs::JoinLemmas::apart_more, crate::proofs::JoinLemmas::apart_end))]
fn are_apart(spans: &[Span]) -> bool
    ensures { result ≡ true → IsCanonical spans.now }
{
    let Some((first, later)) = spans.split_first() else {
        return true;
    };
    let mut end = first.end();
    let mut rest = later;
    'spans: while let Some((span, after)) = rest.split_first() {
        if span.start() <= end {
            return false;
        }
        end = span.end();
        rest = after;
    }
    true
}

/// Whether each span starts at or above the start of the one before it.
fn are_ascending(spans: &[Span]) -> bool
    ensures { result ≡ true → AreAscending spans.now }
{
    spans.is_sorted_by(|span, next| span.start() <= next.start())
}

/// A copy of the spans in the order of their starts.
pub(crate) fn sorted_copy(alloc: Global, spans: &[Span]) -> Result<Vec<Span>, OutOfMemory>
    ensures permutation { IfOk result (λ sorted. IsPermutation spans.now sorted.items) }
    ensures ascending { IfOk result (λ sorted. AreAscending sorted.items) }
{
    let mut sorted = Vec::from_slice(alloc, spans)?;
    sort_by_start(&mut sorted);
    Ok(sorted)
}

fn sort_by_start(spans: &mut [Span])
    ensures permutation { IsPermutation spans.old spans.new }
    ensures sorted { IsNonDecreasingBy (λ span. span.start) spans.new }
{
    spans.sort_unstable_by_key(|span| span.start());
}

/// The set of the addresses of spans that are in the order of their starts.
fn of_sorted(alloc: Global, spans: &[Span]) -> Result<RangeSet, OutOfMemory>
    requires { AreAscending spans.now }
    ensures members { IfOk result (λ set. (a : ℕ) → holds_any set a ≡ holds_any spans.now a) }
{
    let mut built = SetBuilder::new(alloc);
    push_all(&mut built, spans)?;
    built.finish()
}

/// The set of the addresses that are in either list, by one merge.
pub(crate) fn join_spans(
    alloc: Global,
    left: &[Span],
    right: &[Span],
) -> Result<RangeSet, OutOfMemory>
    requires left { IsCanonical left.now }
    requires right { IsCanonical right.now }
    ensures members { IfOk result (λ set. (a : ℕ) → holds_any set a ≡ (holds_any left.now a || holds_any right.now a)) }
{
    let mut built = SetBuilder::new(alloc);
    let rest = push_merged(&mut built, left, right)?;
    push_all(&mut built, rest)?;
    built.finish()
}

/// Adds the spans of both lists in the order of their starts until one list ends, and returns what is left of the other.
fn push_merged<'a>(
    built: &mut SetBuilder,
    left: &'a [Span],
    right: &'a [Span],
) -> Result<&'a [Span], OutOfMemory>
    requires left { IsCanonical left.now }
    requires right { IsCanonical right.now }
    requires empty { built.old ≡ [] }
    ensures members { IfOk result (λ rest. (a : ℕ) → (holds_any built.new a || holds_any rest.now a) ≡ (holds_any left.now a || holds_any right.now a)) }
    ensures ascending { IfOk result (λ rest. AreAscending rest.now) }
    ensures last { IfOk result (λ rest. StartsBefore built.new rest.now) }
{
    let mut xs = left;
    let mut ys = right;
    'spans: while let Some((x, xs_after)) = xs.split_first() {
        let Some((y, ys_after)) = ys.split_first() else {
            return Ok(xs);
        };
        if x.start() <= y.start() {
            built.push(*x)?;
            xs = xs_after;
        } else {
            built.push(*y)?;
            ys = ys_after;
        }
    }
    Ok(ys)
}

/// Adds spans in the order of their starts.
fn push_all(built: &mut SetBuilder, spans: &[Span]) -> Result<(), OutOfMemory>
    requires ascending { AreAscending spans.now }
    requires last { StartsBefore built.old spans.now }
    ensures members { OnOk result ((a : ℕ) → holds_any built.new a ≡ (holds_any built.old a || holds_any spans.now a)) }
{
    let mut rest = spans;
    'spans: while let Some((span, after)) = rest.split_first() {
        built.push(*span)?;
        rest = after;
    }
    Ok(())
}
