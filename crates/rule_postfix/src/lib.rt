//! Frame entries as frame records (Breakpad's symbol_files.md, STACK CFI INIT and STACK CFI).
//!
//! [`translate`] gives the records of one entry: an INIT with the rules of its first row, and a
//! record of changes at each address at which the row differs from the row at the address before.
//! If a column becomes unspecified, which no rule can say, a new INIT begins. `specs/RowParts.antt`
//! says which rules mean the same and which targets are unruled, `specs/RowRules.antt` how rules
//! are spelled and in which order they come, and `specs/FrameLines.antt` which records a range has,
//! given the row at each of its addresses.
//!
//! [`translate_all`] goes over the entries of both sections, first those of `.eh_frame`, and writes an entry unless there is a reason to leave it
//! out. The reasons are: its fields cannot be read; an instruction is bad; an address has no CFA rule; the range is not wholly in one range of code;
//! the range overlaps that of an entry written before. Each entry that is left out is listed with its first reason. `specs/Written.antt` has this
//! choice, and `specs/Covering.antt` its result: each address of a written entry is covered by one INIT, and no other address by any.
//!
//! `cie_states` caches the states that the instructions of CIEs leave, for the entries that share a CIE.
//!
//! Records are spelled backward, into a line (`backward_line`) that has room for all rules (`rules`). The words of a DWARF expression, which
//! `expr_postfix` gives, may be longer, so the rules of a record with an expression are added one by one (`long_rules`).
//!
//! Entries are translated in shares, in parallel, each share as if no range were taken before it. If a range of a share overlaps a taken range, that
//! share is translated anew, in turn.
//!
//! The modules are best read in this order: `parts`, `column_target`, `backward_line`, `rules`,
//! `change_record`, `long_rules`, `open_init`, `entry_records`, `omission`, `written_ranges`,
//! `cie_states`, `progress`, `shares`, `all`.
#![tactic(auto)]

mod all;
mod backward_line;
mod change_record;
mod cie_states;
mod column_target;
mod entry_records;
pub mod laws;
mod long_rules;
mod omission;
mod open_init;
mod parts;
mod progress;
mod rules;
mod shares;
mod written_ranges;

pub use crate::all::{Frames, translate_all};
pub use crate::entry_records::translate;
pub use crate::omission::{Omission, Omissions};
