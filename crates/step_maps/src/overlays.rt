//! One map of first items laid over another.
ghost use Rattle.std.specs.Prelude.{◌≡◌, ℕ, ◌+◌, ◌<◌, ◌≤◌, length, slice_index, None, IfOk, MatchBool};
ghost use Rattle.step_maps.specs.Stepping.{IsStepping, held_from, value_at};
ghost use Rattle.step_maps.specs.Overlays.{over};
ghost use Rattle.step_maps.specs.internal.Places.{IsNextFirst};

use crate::steps::StepMap;
use crate::stretch::FirstItem;
use std::alloc::Global;
use sym_edges::OutOfMemory;

/// The map in which one map of first items lies over another, by one merge. Where the upper map has
/// an item, this item is the first.
pub fn overlay(
    alloc: Global,
    upper: &StepMap<Option<FirstItem>>,
    lower: &StepMap<Option<FirstItem>>,
) -> Result<StepMap<Option<FirstItem>>, OutOfMemory>
    ensures { IfOk result (λ both. (a : ℕ) → value_at None both a ≡ over (value_at None upper.now a) (value_at None lower.now a)) }
{
    merge(
        alloc,
        upper.stops(),
        upper.values(),
        lower.stops(),
        lower.values(),
    )
}

/// The upper item if there is one, otherwise the lower one. If there are both, the result is shared if either item is, or if their classes differ.
#[inline]
pub(crate) fn over(top: Option<FirstItem>, below: Option<FirstItem>) -> Option<FirstItem>
    ensures { result ≡ over top below }
{
    let Some(upper) = top else {
        return below;
    };
    let Some(lower) = below else {
        return top;
    };
    let shared = upper.shared || (lower.shared || upper.class != lower.class);
    Some(FirstItem {
        index: upper.index,
        class: upper.class,
        shared,
    })
}

/// Whether the lower of the two next stops is that of the first list.
#[inline]
fn takes_first(xs: &[u64], i: usize, ys: &[u64], j: usize) -> bool
    requires more { i + j < length xs.now + length ys.now }
    requires first { i ≤ length xs.now }
    requires second { j ≤ length ys.now }
    ensures { IsNextFirst result xs.now i ys.now j }
{
    if i == xs.len() {
        return false;
    }
    if j == ys.len() {
        return true;
    }
    xs[i] <= ys[j]
}

fn merge(
    alloc: Global,
    xs: &[u64],
    x_values: &[Option<FirstItem>],
    ys: &[u64],
    y_values: &[Option<FirstItem>],
) -> Result<StepMap<Option<FirstItem>>, OutOfMemory>
    requires first { IsStepping xs.now x_values.now }
    requires second { IsStepping ys.now y_values.now }
    ensures { IfOk result (λ both. (a : ℕ) → value_at None both a ≡ over (held_from None xs.now x_values.now a) (held_from None ys.now y_values.now a)) }
{
    let mut both = StepMap::with_room(alloc, xs.len() + ys.len())?;
    let mut i = 0;
    let mut j = 0;
    let mut x = None;
    let mut y = None;
    'turns: for turn in 0..xs.len() + ys.len() {
        if takes_first(xs, i, ys, j) {
            x = x_values[i];
            both.set(xs[i], over(x, y))?;
            i += 1;
            continue;
        }
        y = y_values[j];
        both.set(ys[j], over(x, y))?;
        j += 1;
    }
    Ok(both)
}
