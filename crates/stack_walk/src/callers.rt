//! How one step leads to the next.
ghost use Rattle.std.specs.Prelude.{◌≡◌, map};
ghost use Rattle.stack_walk.specs.Walk.{value_of, caller_regs, first_place, cfa_from, cfa_of, floor_of, return_address, caller_of, place_after};

use crate::steps::{WalkEnd, WalkStep};
use cfi_eval::{Frame, Outcome, Regs};

/// Where a step is, with the registers there and the CFA of the step before.
#[derive(Clone, Copy)]
pub struct Place {
    pub rip: u64,
    pub at: u64,
    pub regs: Regs,
    pub before: Option<u64>,
}

/// The place of the first step, given its address.
pub fn first_place(regs: &Regs, rip: u64) -> Place
    ensures { result ≡ first_place regs.now rip }
{
    Place {
        rip,
        at: rip,
        regs: *regs,
        before: None,
    }
}

fn value_of(outcome: Outcome) -> Option<u64>
    ensures { result ≡ value_of outcome }
{
    match outcome {
        Outcome::Value(value) => Some(value),
        Outcome::Undefined | Outcome::Failed(_) => None,
    }
}

/// The outcomes that are values.
fn values_of(outcomes: &[Outcome; 16]) -> [Option<u64>; 16]
    ensures { result ≡ map value_of outcomes.now }
{
    let mut values = [None; 16];
    'registers: for register in 0..16 {
        values[register] = value_of(outcomes[register]);
    }
    values
}

/// The registers of the caller.
fn caller_regs(frame: &Frame) -> Regs
    ensures { result ≡ caller_regs frame.now }
{
    Regs {
        values: values_of(&frame.regs),
        rip: value_of(frame.ra),
    }
}

/// The CFA, if it is above that of the step before.
fn cfa_from(before: Option<u64>, cfa: u64) -> Result<u64, WalkEnd>
    ensures { result ≡ cfa_from before cfa }
{
    match before {
        None => Ok(cfa),
        Some(before) => {
            if before < cfa {
                return Ok(cfa);
            }
            Err(WalkEnd::CfaLow { before, cfa })
        }
    }
}

/// The value of the CFA, or the end of the walk.
fn cfa_of(before: Option<u64>, cfa: Outcome) -> Result<u64, WalkEnd>
    ensures { result ≡ cfa_of before cfa }
{
    match cfa {
        Outcome::Undefined => Err(WalkEnd::CfaUndefined),
        Outcome::Failed(why) => Err(WalkEnd::CfaFailed(why)),
        Outcome::Value(cfa) => cfa_from(before, cfa),
    }
}

/// The return address, or the end of the walk.
fn return_address(signal: bool, ra: Outcome) -> Result<u64, WalkEnd>
    ensures { result ≡ return_address signal ra }
{
    match ra {
        Outcome::Undefined => Err(WalkEnd::RaUndefined),
        Outcome::Failed(why) => Err(WalkEnd::RaFailed(why)),
        Outcome::Value(ra) => {
            if !signal && ra == 0 {
                return Err(WalkEnd::RaZero);
            }
            Ok(ra)
        }
    }
}

/// The place of the caller.
fn caller_of(signal: bool, before: Option<u64>, frame: &Frame) -> Result<Place, WalkEnd>
    ensures { result ≡ caller_of signal before frame.now }
{
    let floor = if signal { None } else { before };
    let cfa = cfa_of(floor, frame.cfa)?;
    let ra = return_address(signal, frame.ra)?;
    let at = if signal { ra } else { ra - 1 };
    Ok(Place {
        rip: ra,
        at,
        regs: caller_regs(frame),
        before: Some(cfa),
    })
}

/// The place of the caller of a step, or why the walk ends at the step.
pub fn place_after(here: &Place, step: &WalkStep) -> Result<Place, WalkEnd>
    ensures { result ≡ place_after here.now.before step.now }
{
    match &step.frame {
        Err(end) => Err(*end),
        Ok(frame) => caller_of(step.signal, here.before, frame),
    }
}
