//! Makes names for the lines of a text out of any bytes.
//!
//! A name ends a line (Breakpad's symbol_files.md), so it is not empty, does not begin with a
//! space, and has no bytes that end lines. `clean` makes a name of any bytes, as a separate list;
//! `add_cleaned` adds this name to a text. `is_clean` tests whether cleaning does not change a
//! name. `unspaced` and `shown_byte` are single steps of cleaning, for names that are made piece by
//! piece.
#![tactic(auto)]

mod cleaner;
pub mod laws;

pub use cleaner::{NAME_LIMIT, add_cleaned, clean, is_clean, name_omitted, shown_byte, unspaced};
