//! Walking down a stack, given the records of symbol files (Breakpad's symbol_files.md, "STACK CFI").
//!
//! A walk goes through a process (`specs/Walk.antt`): its memory, and for each address the records of its module and whether it is code.
//! [`take_step`] looks up the address of a place, given what is [`Known`] of it, and evaluates the rules there. [`place_after`] gives the place of
//! the caller, until a rule has no value or there are no rules. Each step has its address, the values of its rules and which records name it; the end
//! of a walk says why it ended.
//!
//! [`walk`] is the walk from a state file, given one symbol file, of at most 1,024 steps. Every
//! address lies in the one module, and neither frames of signals nor calls to nowhere are
//! recognized. The [`laws`] say of the walks through every process that each step is the caller of
//! the one before and that the frames lie above one another, except frames of signals.
//!
//! A reader begins with `specs/Walk.antt` and `specs/Callers.antt`. Then come `steps` (what a walk
//! gives), `records` and `known` (a step), `callers` (how one step leads to the next) and `descent`
//! (the walk).
#![tactic(auto)]

mod callers;
mod descent;
mod known;
pub mod laws;
mod records;
mod steps;

pub use callers::{Place, first_place, place_after};
pub use descent::walk;
pub use known::{Known, take_step};
pub use records::Records;
pub use steps::{NoRip, Walk, WalkEnd, WalkStep, WalkSteps};
