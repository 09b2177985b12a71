//! Zero-terminated texts of a section, which are found by their places: string tables of ELF files (System V gABI, "String Table") and the text
//! sections of DWARF 5 (7.5.5, 7.26).
//!
//! Many places may be in one long text, or in one long run of spaces. So at most 131,072 bytes are held of a text, and at most 65,536 of its leading
//! spaces: no more are shown (`specs/Spaces.antt`). A [`TextTable`] knows where long runs of spaces end, and where the last text does.
#![tactic(auto)]

pub mod laws;
mod spaces;
mod table;

pub use crate::table::{TextTable, end_of_texts, held_front, held_text, start_of};
