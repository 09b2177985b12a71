//! Laws of runs: they are maximal, and a function has only one list of them.
ghost use Rattle.std.specs.Prelude.{◌≡◌, ℕ, ◌<◌, List, Option, None};
ghost use Rattle.step_maps.specs.Stepping.{Stepping, IsStepping, last_from, value_at};
ghost use Rattle.step_maps.specs.Runs.{Run, IsRuns, AreMaximal, between};
ghost use Rattle.step_maps.specs.StepRuns.{Differ, pieces};

/// A function of addresses has only one list of runs.
#[tactic(auto, using(crate::proofs::OneRuns::one_runs))]
pub fn same_values_same_runs<V>()
    ensures { (f : ℕ → Option V) (xs ys : List (Run V)) → IsRuns f xs → IsRuns f ys → xs ≡ ys }
{}

/// Each run is an interval on which the function is defined and constant, and it can't be made longer.
#[tactic(auto, using(crate::proofs::MaximalLemmas::maximal))]
pub fn runs_are_maximal<V>()
    ensures { (f : ℕ → Option V) (xs : List (Run V)) → IsRuns f xs → AreMaximal f xs }
{}

/// The intervals between the stops of a step map, up to an end above all stops, are its runs if no
/// two neighbouring values are equal and the first value is not `None`.
#[tactic(auto, using(crate::proofs::PieceLemmas::pieces_are_runs))]
pub fn steps_are_runs<V>()
    ensures { (end : ℕ) (steps : Stepping (Option V)) → IsStepping steps.stops steps.values → Differ None steps.values → last_from 0 steps.stops < end → IsRuns (between 0 end (value_at None steps)) (pieces end steps) }
{}
