//! The rows of an entry in a list, and whether it has rows.
ghost use Rattle.std.specs.Prelude.{◌≡◌, ℕ, ◌+◌, ◌<◌, ◌^◌, ◌∷◌, ◌||◌, None, Some, not, false, IfOk};
ghost use Rattle.std.specs.List.{list_any};
ghost use Rattle.sym_edges.specs.Outside.{MatchStop};
ghost use Rattle.frame_rows.specs.Steps.{has_cfa};
ghost use Rattle.frame_rows.specs.Rows.{rows_fault, AreRows};
ghost use Rattle.frame_rows.specs.CieLeft.{cie_left};

use crate::cie_state::CieState;
use crate::row::{Row, RowAt, RowList};
use crate::stepper::Stepper;
use frame_entries::Fde;
use std::alloc::Global;
use sym_edges::{Reason, Stop};

/// Whether an earlier row lacked a rule for the CFA, which `lacking` says, or this row lacks one.
fn lack_rule(lacking: bool, row: &Row) -> bool
    ensures { result ≡ (lacking || not (has_cfa row.now)) }
{
    lacking || row.cfa.is_none()
}

/// Whether the stepper's row or a later one lacks a rule for the CFA; or the reason against the first bad instruction.
fn lack_cfa(stepper: &mut Stepper<'_, '_>) -> Result<bool, Stop<Reason>>
    requires fresh { stepper.old.failed ≡ false }
    requires going { stepper.old.refused ≡ None }
    ensures fault { MatchStop result (λ _. stepper.old.fault ≡ None) (λ why. stepper.old.fault ≡ Some why) (Unit {0}) }
    ensures lack { IfOk result (λ lack. lack ≡ list_any (λ r. not (has_cfa r.row)) (stepper.old.here ∷ stepper.old.later)) }
{
    let mut lacking = lack_rule(false, stepper.row());
    'rows: while stepper.step()? {
        lacking = lack_rule(lacking, stepper.row());
    }
    stepper.finish()?;
    Ok(lacking)
}

/// A list of the stepper's row and all later ones.
fn collect(alloc: Global, stepper: &mut Stepper<'_, '_>) -> Result<Vec<RowAt>, Stop<Reason>>
    requires fresh { stepper.old.failed ≡ false }
    requires going { stepper.old.refused ≡ None }
    requires good { stepper.old.fault ≡ None }
    ensures { MatchStop result (λ rows. rows.items ≡ stepper.old.here ∷ stepper.old.later) (λ _. ⊥) (Unit {0}) }
{
    let mut rows = Vec::new(alloc);
    rows.push(RowAt {
        address: stepper.address(),
        row: *stepper.row(),
    })?;
    'rows: while stepper.step()? {
        rows.push(RowAt {
            address: stepper.address(),
            row: *stepper.row(),
        })?;
    }
    Ok(rows)
}

/// Succeeds if an entry has rows, and otherwise returns the reason for which it has none, given the
/// state after its CIE. All instructions are executed, and no row is kept.
pub fn check_rows_behind(alloc: Global, state: &CieState, fde: &Fde<'_>) -> Result<(), Stop<Reason>>
    requires behind { state.now ≡ cie_left fde.now }
    requires some { 0 < fde.now.size }
    requires fits { fde.now.start + fde.now.size < 2 ^ 64 }
    ensures { MatchStop result (λ _. rows_fault fde.now ≡ None) (λ why. rows_fault fde.now ≡ Some why) (Unit {0}) }
{
    let mut stepper = Stepper::begin(alloc, state, fde)?;
    let lacking = match lack_cfa(&mut stepper) {
        Ok(lacking) => lacking,
        Err(stop) => return Err(stop),
    };
    if lacking {
        return Err(Stop::Fault(Reason::Cfa));
    }
    Ok(())
}

/// The rows of an entry by their addresses, given the state after its CIE. If there is a bad
/// instruction, the reason against the first one is returned. Otherwise, if some address of the
/// range has no rule for the CFA, the reason is `Cfa`.
#[tactic(auto, using(crate::proofs::EntryLemmas::rows_good))]
pub fn rows_behind(alloc: Global, state: &CieState, fde: &Fde<'_>) -> Result<RowList, Stop<Reason>>
    requires behind { state.now ≡ cie_left fde.now }
    requires some { 0 < fde.now.size }
    requires fits { fde.now.start + fde.now.size < 2 ^ 64 }
    ensures rows { MatchStop result (λ rows. AreRows fde.now rows) (λ _. Unit {0}) (Unit {0}) }
    ensures exact { MatchStop result (λ _. rows_fault fde.now ≡ None) (λ why. rows_fault fde.now ≡ Some why) (Unit {0}) }
{
    check_rows_behind(alloc, state, fde)?;
    let mut stepper = Stepper::begin(alloc, state, fde)?;
    let rows = collect(alloc, &mut stepper)?;
    Ok(RowList::of(rows))
}

/// The rows of an entry by their addresses. If there is a bad instruction, the reason against the
/// first one is returned. Otherwise, if some address of the range has no rule for the CFA, the
/// reason is `Cfa`.
pub fn rows(alloc: Global, fde: &Fde<'_>) -> Result<RowList, Stop<Reason>>
    requires some { 0 < fde.now.size }
    requires fits { fde.now.start + fde.now.size < 2 ^ 64 }
    ensures rows { MatchStop result (λ rows. AreRows fde.now rows) (λ _. Unit {0}) (Unit {0}) }
    ensures exact { MatchStop result (λ _. rows_fault fde.now ≡ None) (λ why. rows_fault fde.now ≡ Some why) (Unit {0}) }
{
    let state = CieState::of(alloc, fde)?;
    rows_behind(alloc, &state, fde)
}
