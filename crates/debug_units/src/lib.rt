//! The units of a file, as they were read.
//!
//! [`Units`] has what was read of each unit, in the order of their places: its entries, the addresses of each entry ([`SpanSets`]), and its line
//! table. Units that name the same line table share it ([`SharedLines`]).
//!
//! `specs/Owners.antt` defines, for the crates above, which function owns an address, which inlined copies are on the chain of the address, and which
//! line it has.
//!
//! Best read in this order: `specs/UnitEntries.antt`, `specs/Owners.antt`, `unit_read`,
//! `span_sets`, `shared_lines`.
#![tactic(auto)]

pub mod laws;
mod shared_lines;
mod span_sets;
mod unit_read;

pub use crate::shared_lines::SharedLines;
pub use crate::span_sets::SpanSets;
pub use crate::unit_read::{EntryRef, UnitRead, Units};
