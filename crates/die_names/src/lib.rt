//! The names of the entries of a file's units (DWARF 5, 2.15 and 3.3.8).
//!
//! The way of an entry is the entry itself and the entries that at most 16 links lead to, by DW_AT_abstract_origin or else by DW_AT_specification,
//! into any unit. The name of the entry is the first linkage name on its way. If there is none, it is the first name on the way, after the names of
//! the classes, structures, unions and namespaces around the entry that has this name, joined by `::`. If there is no name either, it is
//! `<name omitted>`. [`name_of`] says which entry gives the name, and how. [`name_text`] gives the cleaned text of the name, an [`EntryNameText`].
//! [`name_slice`] gives the bytes of the file if it has the name as it is. The target of a link is found by binary search, in the entry's own unit
//! first, then among all units.
//!
//! Best read in this order: `specs/Names.antt`, `specs/NameRefs.antt`, `guesses`, `entry_search`,
//! `name_source`, `joined_name`, `kept`, `parts`.
#![tactic(auto)]

mod entry_search;
mod guesses;
mod joined_name;
mod kept;
mod name_source;
mod parts;

pub use crate::guesses::LinkGuesses;
pub use crate::joined_name::{name_slice, name_text, scope_name};
pub use crate::kept::{EntryNameText, clean_slice};
pub use crate::name_source::{How, NameRef, name_by, name_of};
pub use crate::parts::{NameParts, name_parts};
