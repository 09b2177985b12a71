//! The rows of a frame description entry (FDE): for each address of its range the rule of the canonical frame address (CFA) and a rule for each
//! register (DWARF 5, 6.4).
//!
//! [`rows`] executes the call frame instructions of an entry's CIE and then the entry's own. It
//! gives the row at each address at which the location changes; between two of these addresses the
//! row stays the same. Its contract compares the rows with `specs/Rows.antt`, in which the row at
//! an address is what a replay from the first instruction leaves there. `specs/Instructions.antt`
//! says how an instruction is read, with one line for each opcode. `specs/Steps.antt` says which
//! effect each instruction has, in the standard's order, and what an effect does to the location,
//! the row and the row stack. [`inspect`] only checks the instructions, and accepts any address
//! range. The one loop that executes instructions is in `run`; all calls use it.
//!
//! A [`Stepper`] goes over the rows one after the other and keeps only the current one; `next`
//! returns columns outside of which no column has changed. After memory ran out, each later step
//! reports that again.
//!
//! The instructions of a CIE leave the same state for each of its FDEs: a [`CieState`] is made
//! once, and [`rows_behind`], [`inspect_behind`], [`check_rows_behind`] and `Stepper::begin` begin
//! with it. A stepper that begins with a [`CieState`] has not checked the entry's own instructions
//! beforehand. Once it meets the first bad one, each step returns the reason against it.
//!
//! An entry with a bad instruction is refused with the reason against the first one; the CIE's
//! instructions come before its own. Any other entry is refused only if some address of its range
//! has no CFA rule, and the reason is `Cfa`. A row keeps the place of a DWARF expression's bytes.
//! When an instruction with an expression is executed, it is refused as `Expression` if rule text
//! cannot express the expression. The CIE's instructions are executed once for all FDEs of the CIE.
#![tactic(auto)]

// The rows, and the instructions that make them.
mod columns;
mod instruction;
mod row;

// Reading an instruction, and executing it.
mod decoder;
mod effect;
mod machine;

// All instructions of an entry.
mod cie_state;
mod entry_rows;
mod held_context;
mod inspection;
mod run;
mod stepper;

// For proofs in other crates.
pub mod laws;

pub use crate::cie_state::CieState;
pub use crate::columns::Columns;
pub use crate::entry_rows::{check_rows_behind, rows, rows_behind};
pub use crate::inspection::{inspect, inspect_behind};
pub use crate::row::{CfaRule, Row, RowAt, RowList, Rule};
pub use crate::stepper::Stepper;
