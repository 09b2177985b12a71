//! The first of several stretches at each address.
ghost use Rattle.std.specs.Prelude.{◌≡◌, ℕ, ◌^◌, ◌<◌, None, IfOk};
ghost use Rattle.step_maps.specs.Stepping.{value_at};
ghost use Rattle.step_maps.specs.Covers.{AreStretches, AreCovers, first_item};

use crate::joins::joined_covers;
use crate::layers::layered;
use crate::steps::StepMap;
use crate::stretch::{CoverList, FirstItem, Stretch};
use std::alloc::Global;
use sym_edges::{ListOf, OutOfMemory};

/// The first item of the list at each address. The time for n stretches is O(n log n), however they
/// overlap, and O(n) if they ascend.
#[tactic(auto, using(crate::proofs::FirstLemmas::first_where_laid))]
pub fn first_items(
    alloc: Global,
    items: &[Stretch],
) -> Result<StepMap<Option<FirstItem>>, OutOfMemory>
    requires { AreStretches items.now }
    ensures { IfOk result (λ steps. (a : ℕ) → a < 2 ^ 64 → value_at None steps a ≡ first_item items.now a) }
{
    let steps = layered(alloc, items)?;
    Ok(steps)
}

/// For each address in some stretch, which stretch is the first in the list that contains it. The
/// time for n stretches is O(n log n), however they overlap, and O(n) if they ascend.
pub fn covers(alloc: Global, items: &[Stretch]) -> Result<CoverList, OutOfMemory>
    requires { AreStretches items.now }
    ensures { IfOk result (λ covers. AreCovers items.now covers) }
{
    let steps = layered(alloc, items)?;
    let covers = joined_covers(alloc, steps.stops(), steps.values())?;
    Ok(ListOf::of(covers))
}
