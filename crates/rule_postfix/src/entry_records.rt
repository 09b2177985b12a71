//! The records of an entry.
ghost use Rattle.std.specs.Prelude.{◌≡◌, ◌+◌, ◌++◌, ◌^◌, ◌<◌, ◌≤◌, Some, None, length, take};
ghost use Rattle.sym_edges.specs.Outside.{MatchStop};
ghost use Rattle.frame_rows.specs.CieLeft.{cie_left};
ghost use Rattle.frame_rows.specs.Rows.{row_at, rows_fault};
ghost use Rattle.sym_records.specs.Canon.{canon_text};
ghost use Rattle.rule_postfix.specs.FrameLines.{frame_lines};
ghost use Rattle.rule_postfix.specs.FrameMeaning.{KeepsRows};

use crate::open_init::{OpenInit, spell_steps};
use frame_entries::Fde;
use frame_rows::{CieState, Stepper};
use std::alloc::Global;
use sym_edges::{Reason, Stop};
use sym_records::ByteText;

/// Adds the text of an entry's frame records, with addresses counted from `base`, given the state after its CIE. If the entry has no records, returns
/// the reason; some of the text may be added by then.
pub fn spell_entry(
    alloc: Global,
    text: &mut Vec<u8>,
    open: &mut OpenInit,
    state: &CieState,
    fde: &Fde<'_>,
    base: u64,
) -> Result<(), Stop<Reason>>
    requires behind { state.now ≡ cie_left fde.now }
    requires some { 0 < fde.now.size }
    requires fits { fde.now.start + fde.now.size < 2 ^ 64 }
    requires based { base ≤ fde.now.start }
    ensures text { MatchStop result
        (λ _. text.new.items ≡ text.old.items ++ canon_text (frame_lines fde.now (row_at fde.now) fde.now.start fde.now.size base))
        (λ _. take (length text.old.items) text.new.items ≡ text.old.items)
        (Unit {0}) }
    ensures exact { MatchStop result (λ _. rows_fault fde.now ≡ None) (λ why. rows_fault fde.now ≡ Some why) (Unit {0}) }
{
    let mut stepper = match Stepper::begin(alloc, state, fde) {
        Ok(stepper) => stepper,
        Err(stop) => return Err(stop),
    };
    let end = fde.start + fde.size;
    let lacking = match spell_steps(alloc, fde, text, open, &mut stepper, end, base) {
        Ok(lacking) => lacking,
        Err(stop) => return Err(stop),
    };
    if lacking {
        return Err(Stop::Fault(Reason::Cfa));
    }
    Ok(())
}

/// Returns the text of an entry's frame records, with addresses counted from `base`, or the reason for which it has none: that of its first bad
/// instruction or else, if some address of its range has no CFA rule, `Cfa`. Evaluating the text gives what the rows give.
#[tactic(auto, using(crate::proofs::MeaningLemmas::entry_kept))]
pub fn translate(alloc: Global, fde: &Fde<'_>, base: u64) -> Result<ByteText, Stop<Reason>>
    requires some { 0 < fde.now.size }
    requires fits { fde.now.start + fde.now.size < 2 ^ 64 }
    requires based { base ≤ fde.now.start }
    ensures text { MatchStop result (λ text. text ≡ canon_text (frame_lines fde.now (row_at fde.now) fde.now.start fde.now.size base)) (λ _. Unit {0}) (Unit {0}) }
    ensures means { MatchStop result (λ _. KeepsRows base (frame_lines fde.now (row_at fde.now) fde.now.start fde.now.size base) fde.now) (λ _. Unit {0}) (Unit {0}) }
    ensures exact { MatchStop result (λ _. rows_fault fde.now ≡ None) (λ why. rows_fault fde.now ≡ Some why) (Unit {0}) }
{
    let state = CieState::of(alloc, fde)?;
    let mut text = Vec::new(alloc);
    let mut open = OpenInit::new(alloc);
    match spell_entry(alloc, &mut text, &mut open, &state, fde, base) {
        Ok(()) => Ok(ByteText::of(text)),
        Err(stop) => Err(stop),
    }
}
