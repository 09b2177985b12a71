//! State files: the registers and the memory with which rules of frame records are evaluated.
//!
//! A state file is a text of lines: `REG name hex` gives the value of a register, `MEM hex bytes` the bytes of memory from an address on. A later
//! line overrides an earlier one. `read_state` gives the state, or the first fault with its line.
#![tactic(auto)]

// What may be wrong with the text.
mod fault;

// How it is cut, and what its words say.
mod cuts;
mod line;
mod numbers;
mod registers;

// The state.
mod state;

pub use fault::{StateFault, StateKind};
pub use numbers::hex_value;
pub use state::{State, read_state};
