//! Whether two symbol files say the same (Breakpad's symbol_files.md).
//!
//! [`judge`] returns yes if, at every address, both files name the same function, the same inlined calls and the same line, and have frame rules of
//! the same forms. Otherwise it returns the least address at which they differ, and the first [`Aspect`] in which they differ there. Records may have
//! another order and other numbers. What `PUBLIC`, `MODULE` and `INFO` say is not compared.
//!
//! The form of a rule is the sum that its words compute (a register, the CFA or nothing, plus a number), or what memory holds at such a sum. So
//! `16 $rsp +` has the form of `$rsp 16 +`. If a register that a call keeps has no rule, the form is the register itself. Other words are their own
//! form: if files differ in them, their rules may still evaluate to the same values. [`laws`] say that rules of one form give one outcome, what a yes
//! means for look-up and unwinding, and that a file says the same as itself.
//!
//! A reader begins with `specs/Forms.antt`, `specs/Alike.antt`, `specs/Rulings.antt` and
//! `specs/SameMeaning.antt`. Then come `terms` and `forms`, `rule_tables` (the rules that count at
//! an address), `rule_maps` (the same by binary search, for an INIT with many rules), `held_forms`
//! (the forms of long rules), `rule_aliases` (long rules with the same words), `file_rules` (a file
//! with these) and `frames`; `aliases` (numbers that have one name) and `names`; `copies` (files of
//! the same records), `blocks` and `doubtful_addresses` (if records say the same in both files,
//! nothing else is compared there); `calls` (named by the numbers of the first file),
//! `chain_numbers`, `chains` and `function_pairs` (what is found out once for a function or for
//! two); and `record_stops` (the addresses at which both are looked up), `half_comparison` and
//! `judgement`, which use `indexed_files` and `file_pair`.
#![tactic(auto)]

mod aliases;
mod blocks;
mod calls;
mod chain_numbers;
mod chains;
mod copies;
mod doubtful_addresses;
mod file_pair;
mod file_rules;
mod forms;
mod frames;
mod function_pairs;
mod half_comparison;
mod held_forms;
mod indexed_files;
mod judgement;
pub mod laws;
mod names;
mod record_stops;
mod rule_aliases;
mod rule_maps;
mod rule_tables;
mod ruling;
mod terms;

pub use judgement::judge;
pub use ruling::{Aspect, Half, Ruling};
pub use terms::{Base, Sum, Term};
