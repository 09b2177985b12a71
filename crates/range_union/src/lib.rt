//! Addresses as ranges of which no two overlap.
//!
//! [`RangeUnion`] takes ranges in any order. A new range takes the place of those that it overlaps,
//! and is widened to include them. So each range is put in once and taken out at most once. `meets`
//! says whether a range overlaps one of them (`specs/Ranges.antt`).
#![tactic(auto)]

mod ranges;

pub use ranges::RangeUnion;
