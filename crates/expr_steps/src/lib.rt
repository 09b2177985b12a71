//! The operations of DWARF expressions (DWARF 5, 2.5), and which expressions of frame entries the rules of a symbol file can express.
//!
//! [`Operation::read`] reads an operation: the constants, the registers with an offset, and the few
//! operations on them that the frame entries of linkers and libraries have. A [`StepReader`] gives
//! the steps of an expression: a constant and an `and`, `shl` or `ge` directly after it are one
//! step. [`find_standing`] says whether rules can express an expression. They can if it is made of
//! steps, each step finds its values, one value is left, and the steps take at most 1,024 words. It
//! also says whether the expression needs the canonical frame address (CFA) below its own values.
//! `specs/Operations.antt`, `specs/Steps.antt` and `specs/Standing.antt` have the definitions, in
//! this order.
//!
//! Other crates define which words a step has in rule text, and which value an expression has. A [`Place`] says where the bytes of an expression are.
//! No call allocates memory.
#![tactic(auto)]

// Operations, and reading them.
mod decoder;
mod operation;

// The steps of expressions.
mod step;
mod step_reader;

// Which expressions rule text can express, and where they are.
mod place;
mod standing;

// Laws, for proofs of other crates.
pub mod laws;

pub use crate::operation::Operation;
pub use crate::place::Place;
pub use crate::standing::{Standing, find_standing};
pub use crate::step::Step;
pub use crate::step_reader::StepReader;
