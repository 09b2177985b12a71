//! Sets of addresses.
//!
//! A [`RangeSet`] is a list of spans that are sorted and disjoint and do not touch. Contracts see
//! it as this list. [`of_ranges`] makes the set of all addresses that are in some span of a slice,
//! and [`of_owned`] the same of a `Vec`. `join` has the addresses that are in either of two sets,
//! `meet` those in both, and `minus` those in the first and not in the second. `has` looks one
//! address up. Their contracts say for every address whether it is in the result. Only one such
//! list represents a set of addresses ([`same_addresses_same_list`]), so these contracts determine
//! every span of a result.
//!
//! An [`Enclosing`] says whether one span of a slice encloses a range of addresses. A set of addresses cannot say this, since it joins spans that
//! touch.
//!
//! A set of one span, by far the most frequent, and the empty set allocate no memory beyond the struct.
//!
//! Read the module `set` first. Then come `builder`, which makes sets, and the merges that use it
//! (`merge`, `intersection` and `difference`); then `search` and `law`. `outermost` uses none of
//! these but a sort of `merge`.
#![tactic(auto)]

mod builder;
mod difference;
mod intersection;
mod law;
mod merge;
mod outermost;
mod search;
mod set;

pub use law::same_addresses_same_list;
pub use merge::{of_owned, of_ranges};
pub use outermost::Enclosing;
pub use set::RangeSet;
