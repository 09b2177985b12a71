//! The difference of two sets.
ghost use Rattle.std.specs.Prelude.{◌≡◌, ℕ, ◌≤◌, ◌<◌, ◌||◌, ◌&&◌, nat_le, nat_lt, max, not, IfOk, OnOk};
ghost use Rattle.range_set.specs.Members.{holds, holds_any};
ghost use Rattle.range_set.specs.Canonical.{IsCanonical};
ghost use Rattle.range_set.specs.Building.{last_start};

use crate::builder::SetBuilder;
use crate::set::RangeSet;
use std::alloc::Global;
use sym_edges::{OutOfMemory, Span};

/// The set of the addresses that are in the first list and not in the second, by one merge.
pub(crate) fn minus_spans(
    alloc: Global,
    left: &[Span],
    right: &[Span],
) -> Result<RangeSet, OutOfMemory>
    requires left { IsCanonical left.now }
    requires right { IsCanonical right.now }
    ensures members { IfOk result (λ set. (a : ℕ) → holds_any set a ≡ (holds_any left.now a && not (holds_any right.now a))) }
{
    let mut built = SetBuilder::new(alloc);
    let mut xs = left;
    let mut cuts = right;
    'spans: while let Some((x, xs_after)) = xs.split_first() {
        cuts = push_cut(&mut built, *x, cuts)?;
        xs = xs_after;
    }
    built.finish()
}

/// Adds the addresses of a span that are in none of the cuts. Returns the cuts that may reach
/// beyond the span.
fn push_cut<'a>(
    built: &mut SetBuilder,
    span: Span,
    cuts: &'a [Span],
) -> Result<&'a [Span], OutOfMemory>
    requires cuts { IsCanonical cuts.now }
    requires last { last_start built.old ≤ span.start }
    ensures members { OnOk result ((a : ℕ) → holds_any built.new a ≡ (holds_any built.old a || (holds span a && not (holds_any cuts.now a)))) }
    ensures last { OnOk result (last_start built.new ≤ span.end) }
    ensures canonical { IfOk result (λ rest. IsCanonical rest.now) }
    ensures beyond { IfOk result (λ rest. (a : ℕ) → span.end ≤ a → holds_any rest.now a ≡ holds_any cuts.now a) }
{
    let mut from = span.start();
    let mut rest = cuts;
    'cuts: while let Some((cut, after)) = rest.split_first() {
        if span.end() <= cut.start() {
            break;
        }
        push_between(built, from, cut.start())?;
        if span.end() < cut.end() {
            return Ok(rest);
        }
        from = from.max(cut.end());
        rest = after;
    }
    push_between(built, from, span.end())?;
    Ok(rest)
}

/// Adds the addresses from `from` up to `to`, without `to`, if there are any.
fn push_between(built: &mut SetBuilder, from: u64, to: u64) -> Result<(), OutOfMemory>
    requires { from < to → last_start built.old ≤ from }
    ensures members { OnOk result ((a : ℕ) → holds_any built.new a ≡ (holds_any built.old a || (nat_le from a && nat_lt a to))) }
    ensures last { OnOk result (last_start built.new ≤ max (last_start built.old) from) }
{
    if from < to {
        built.push(Span::new(from, to))?;
    }
    Ok(())
}
