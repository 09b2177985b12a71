//! What a checker finds in the records of a symbol file (Breakpad's symbol_files.md).
//!
//! A valid list of records can still be inconsistent: a number that is given twice, a line record
//! whose file is missing, functions that overlap. There are nine kinds of [`Finding`]. Each is a
//! condition on a record and the records before it; if the record refers to a `FILE` or an
//! `INLINE_ORIGIN`, on all records. [`findings`] lists them by record and then by kind. The records
//! of a file have no findings exactly if they meet all conditions of `sym_meaning`'s
//! `HasNoFindings` ([`laws::nothing_found`]).
//!
//! All this is found in one pass, which stores what later records need: the numbers that were
//! given, the ranges of functions and of frames, and the `FUNC` or `STACK CFI INIT` that is open.
//! If addresses ascend, as in nearly all files, each record takes a few comparisons, and otherwise
//! a binary search.
#![tactic(auto)]

// The kinds of finding.
mod kind;

// What the records before a record say.
mod met_ranges;
mod numbers;
mod records_before;

// The findings of one record, and of all.
mod finding_list;
mod judgement;

// Laws about the findings.
pub mod laws;

pub use finding_list::findings;
pub use kind::{Finding, FindingKind, FindingList};
pub use records_before::OpenInit;
