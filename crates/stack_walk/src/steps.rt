//! What a walk gives.
use cfi_eval::{Cause, Frame};
use sym_edges::ListOf;
use sym_lookup::Answer;

/// The state has no rip, so no walk can begin.
#[derive(Clone, Copy, Debug, PartialEq, Eq)]
pub struct NoRip;

/// A step of a walk.
#[derive(Debug, Drop)]
pub struct WalkStep {
    /// The state's rip, or the return address of the step before.
    pub rip: u64,
    /// The address that is looked up: rip itself in the first step and after a signal's frame,
    /// otherwise the address one below rip, which is in the call.
    pub at: u64,
    /// The rules are those of a signal's frame.
    pub signal: bool,
    /// What the rules evaluate to, or why there are none.
    pub frame: Result<Frame, WalkEnd>,
    /// Which records name the address that is looked up, or rip in a signal's frame.
    pub answer: Answer,
}

/// The steps of a walk, the innermost first.
pub type WalkSteps = ListOf<WalkStep>;

/// Why a walk ends at its last step.
#[derive(Clone, Copy, Debug, PartialEq, Eq)]
pub enum WalkEnd {
    /// The address lies in no module.
    NoModule,
    /// Its module has no records.
    NoSymbols,
    /// No INIT covers the address.
    NoRules,
    CfaUndefined,
    CfaFailed(Cause),
    /// The CFA is not above that of the step before.
    CfaLow { before: u64, cfa: u64 },
    RaUndefined,
    RaFailed(Cause),
    RaZero,
    /// The step is the last one that a walk may have.
    Limit,
}

/// The steps of a walk, and why there are no more.
#[derive(Debug, Drop)]
pub struct Walk {
    pub steps: WalkSteps,
    pub end: WalkEnd,
}
