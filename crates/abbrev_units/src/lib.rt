//! Units, abbreviations and values of debugging information (DWARF 5, 7.4 and 7.5, and the corresponding sections of DWARF 4), in the 32-bit and in
//! the 64-bit format.
//!
//! [`units`] gives the units of `.debug_info`: where each unit, its entries and its abbreviations begin, where the unit ends, and its version; or the
//! first fault in their headers. [`read_abbrevs`] gives the abbreviations of a unit. [`AbbrevScratch::read`] does the same and reuses the memory of
//! the previous ones. [`Abbrevs::find`] gives the first abbreviation of a code. [`read_form`] reads the value of a form. [`Spec::read`] reads that of
//! an attribute, whose form was looked up once. [`Abbrev::skip`] passes the values of an entry. [`Abbrev::read_picks`] reads them and keeps those
//! that are needed, each in its slot. [`Abbrev::read`] does the same by a short way. [`read_text`] gives the text of a value, as a slice of the file.
//!
//! Each contract is an equation with a definition: `specs/Units.antt` has the headers field by field, `specs/Abbreviations.antt` the lists of
//! attributes, `specs/FormValue.antt` the value of a form by the table of forms in `code_table`, and `specs/Texts.antt` the texts. A [`DwarfFault`]
//! says what is wrong, in which section and where. Only lists allocate memory.
#![tactic(auto)]

mod abbrev;
mod abbrevs;
mod fault;
mod filled;
mod form;
mod form_table;
pub mod laws;
mod length;
mod lists;
mod sections;
mod slots;
mod spec;
mod take;
mod text;
mod unit;
mod value;
mod view;

pub use crate::abbrevs::{AbbrevScratch, Abbrevs, read_abbrevs};
pub use crate::fault::{DwarfFault, DwarfKind, FormFault, HeaderFault, header_fault, in_section};
pub use crate::form::read_form;
pub use crate::length::{Contents, read_contents};
pub use crate::sections::Sections;
pub use crate::slots::{Class, Pick, Picks, Slot};
pub use crate::spec::Spec;
pub use crate::text::{cursor_from, read_place, read_text, text_in, text_place};
pub use crate::unit::{Unit, UnitList, UnitPart, units};
pub use crate::value::{Given, Value};
pub use crate::view::Abbrev;
