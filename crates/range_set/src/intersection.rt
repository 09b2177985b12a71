//! The intersection of two sets.
ghost use Rattle.std.specs.Prelude.{◌≡◌, ℕ, ◌≤◌, ◌||◌, ◌&&◌, max, true, IfOk, OnOk};
ghost use Rattle.range_set.specs.Members.{holds, holds_any};
ghost use Rattle.range_set.specs.Canonical.{IsCanonical};
ghost use Rattle.range_set.specs.Building.{last_start};

use crate::builder::SetBuilder;
use crate::set::RangeSet;
use std::alloc::Global;
use sym_edges::{OutOfMemory, Span};

/// The set of the addresses that are in both lists, by one merge.
pub(crate) fn meet_spans(
    alloc: Global,
    left: &[Span],
    right: &[Span],
) -> Result<RangeSet, OutOfMemory>
    requires left { IsCanonical left.now }
    requires right { IsCanonical right.now }
    ensures members { IfOk result (λ set. (a : ℕ) → holds_any set a ≡ (holds_any left.now a && holds_any right.now a)) }
{
    let mut built = SetBuilder::new(alloc);
    let mut xs = left;
    let mut ys = right;
    'spans: while let (Some((x, xs_after)), Some((y, ys_after))) = (
        xs.split_first(),
        ys.split_first(),
    ) {
        push_overlap(&mut built, *x, *y)?;
        if x.end() <= y.end() {
            xs = xs_after;
        } else {
            ys = ys_after;
        }
    }
    built.finish()
}

/// Adds the addresses that are in both spans.
fn push_overlap(built: &mut SetBuilder, x: Span, y: Span) -> Result<(), OutOfMemory>
    requires { (a : ℕ) → holds x a ≡ true → holds y a ≡ true → last_start built.old ≤ a }
    ensures members { OnOk result ((a : ℕ) → holds_any built.new a ≡ (holds_any built.old a || (holds x a && holds y a))) }
    ensures last { OnOk result (last_start built.new ≤ max (last_start built.old) (max x.start y.start)) }
{
    let start = x.start().max(y.start());
    let end = x.end().min(y.end());
    if start < end {
        built.push(Span::new(start, end))?;
    }
    Ok(())
}
