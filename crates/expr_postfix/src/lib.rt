//! DWARF expressions of frame entries (DWARF 5, 2.5 and 6.4.2.3) as the words of rules (Breakpad's symbol_files.md, "STACK CFI").
//!
//! [`tokens`] gives the words of an expression if rule text can express it, and otherwise a fault
//! (`expr_steps` has the test). [`rule_tokens`] gives the words of a rule that may also fetch the
//! word at the expression's value. `specs/ExprTokens.antt` defines the words, step by step.
//!
//! Evaluating the words gives the value of the expression, or its failure with the same cause, for all registers, memory and CFA
//! (`laws::words_have_the_value`). `specs/ExprValue.antt` defines that value by the standard's operations; `cfi_eval` defines what words evaluate to.
#![tactic(auto)]

mod expr_tokens;
pub mod laws;

pub use crate::expr_tokens::{rule_tokens, tokens};
