//! The addresses of an entry of `.debug_info` (DWARF 5, 2.17; DWARF 4, 2.17).
//!
//! [`ranges_of`] gives the set of all addresses in the ranges of an entry, if the entry counts: a subprogram that is not a declaration, or an inlined
//! subroutine. Other entries have no addresses, and their attributes are ignored. The ranges are those of the entry's list (DW_AT_ranges). The list
//! is in `.debug_rnglists` (DWARF 5, 7.25), or before version 5 in `.debug_ranges` (DWARF 4, 2.17.3). An entry without a list has one range if it has
//! both DW_AT_low_pc and DW_AT_high_pc. A range counts only if it is not empty and one range of the code encloses it. Any other range is left out
//! whole, so code that a linker removed is not taken for code. The ranges of code are an [`Enclosing`](range_set::Enclosing), which is made once for
//! an image. [`unit_base`] gives the address from which the offsets in a unit's lists count. [`listed_at`] gives the place of an entry's list.
//! Entries of one unit with lists at the same place have the same set, so a caller that needs many sets can read each list once.
//!
//! The contracts are exact in both directions. `specs/EntryRanges.antt` defines the pairs of addresses that an entry gives, or its first fault, and a
//! test whether one address is in these pairs. The set contains an address exactly if the test says so. `specs/ListItems.antt` defines the items of
//! lists, `specs/ListPairs.antt` what each item does, and `specs/Places.antt` the places to which an entry refers, and addresses by index.
//!
//! A list is read once, item by item, and only its ranges are kept. No memory is allocated for an entry without a list, or for a list in which each
//! range touches or overlaps the one before.
//!
//! The modules are best read in this order: `entry`, `list`, `gatherer`, `effect`, `item`,
//! `places`.
#![tactic(auto)]

mod effect;
mod entry;
mod gatherer;
mod item;
pub mod laws;
mod list;
mod places;

pub use crate::entry::{counts_at, listed_at, ranges_of, unit_base};
