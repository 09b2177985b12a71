//! The values of the rules of frame records (Breakpad's symbol_files.md, "STACK CFI"): the caller's
//! registers at an address, given registers and memory.
//!
//! `eval` gives the value of a rule's words, given `Regs` and a memory. `Memory` is a memory made
//! of runs of bytes; any other type that gives a byte for each address can be one (`ByteMemory`).
//! `init_at` finds the record whose rules apply at an address, and `RulesAt` has these rules,
//! overridden by the changes after that record. `frame_of` evaluates rules, and `frame_from` and
//! `frame_at` evaluate those that apply at an address.
#![tactic(auto)]

// Registers and memory.
mod byte_memory;
mod memory;
mod registers;

// The result of a rule.
mod outcome;

// The value of a rule.
mod postfix;

// The rules at an address, and all their values.
mod frame;
mod rules;

pub use byte_memory::ByteMemory;
pub use frame::{frame_at, frame_from, frame_of};
pub use memory::{MemRun, Memory};
pub use outcome::{Cause, Frame, Outcome};
pub use postfix::eval;
pub use registers::Regs;
pub use rules::{RulesAt, init_at};
