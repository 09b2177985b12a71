//! A generated ELF file with a given number of units, as a load of known size.
//!
//! [`make`] returns a statically linked x86-64 program that does nothing: each of its n units
//! (DWARF 4 and 5 in turn) has two functions of 32 bytes, one inlined copy, four lines and two
//! frame entries. Every twentieth frame entry is one that a dump omits. `specs/Made.antt` gives
//! every byte.
#![tactic(auto)]

mod file;
mod frames;
mod lines;
mod pieces;
mod section;
mod units;

pub use file::make;
