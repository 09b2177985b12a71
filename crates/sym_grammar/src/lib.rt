//! A reader of symbol files that come in pieces of any size.
//!
//! A `Reader` is fed a symbol file (Breakpad's symbol_files.md) in pieces of any size, and returns
//! its records once the text has ended. Its contract is about the bytes that may follow: if the
//! text goes on with some bytes and then ends, the result is the reading of all bytes, wherever
//! they were cut. A fault is returned as soon as the byte that decides it was fed, with the number
//! of its line. After a fault, and after memory ran out, each further call returns the same. The
//! reader stores the records and the start of one line, at most 2^20 bytes. A line that is wholly
//! in a piece is not copied. `read_file` uses the reader to read a symbol file from a store.
#![tactic(auto)]

// How a text is cut into lines.
mod cuts;

// The fields.
mod fields;
mod numbers;
mod rules;
mod words;

// The records and their keywords.
mod keys;
mod records;

// Reading one line after another.
mod pieces;
mod progress;
mod reader;

// Reading a file from a store.
mod input;
mod refusal;

// Laws about all of these.
pub mod laws;

pub use input::read_file;
pub use reader::Reader;
pub use refusal::{SymEnd, SymRefusal};
pub use sym_rules::{TextFault, TextKind};
