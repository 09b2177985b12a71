//! The rules of frame records in a Breakpad symbol file: their words, their spelling and their reading.
//!
//! A rule says how to find a register of the caller. It has a target, whose name is followed by
//! `:`, and the words of a postfix expression (Breakpad's symbol_files.md). `are_rules` tests
//! whether a line can carry rules, and `rules_length` gives their length in bytes. There are two
//! ways to spell. `put_rules` and the other `put` calls hand rules to a sink, through a buffer, and
//! allocate no memory. The `write_` calls write numbers and names into a line that has room for
//! them, backward from its end. `cut_word`, `skip_spaces` and the `trim_` calls cut a line into its
//! fields.
#![tactic(auto)]

// The rules, and the faults of a text with rules.
mod rules;
mod text_fault;

// Which rules a text can spell.
mod validity;

// The fields of a line, and the registers, given their names.
mod cuts;
mod registers;

// How rules are spelled.
mod backward;
mod sink_buffer;
mod sink_rules;
mod waiting_bytes;
mod words;

pub use backward::{write_byte, write_bytes, write_decimal, write_hex, write_last, write_signed};
pub use cuts::{cut_word, is_blank, skip_spaces, trim_crs, trim_margin};
pub use registers::{register_name, register_named, register_of, write_register};
pub use rules::{ByteText, RuleName, RuleText, Rules, Target, Token, Tokens};
pub use sink_buffer::{hand_on, put, put_word};
pub use sink_rules::put_rules;
pub use text_fault::{TextFault, TextKind};
pub use validity::{are_rules, are_unparted};
pub use waiting_bytes::Waiting;
pub use words::rules_length;
