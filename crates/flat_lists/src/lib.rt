//! Many short lists in one long one.
//!
//! [`FlatLists`] holds the members of all its lists one after another, and for each list the place
//! where it ends. A list takes four bytes beside its members and has no allocation of its own.
//! Contracts see a list of lists (`specs/Ends.antt`).
#![tactic(auto)]

mod lists;

pub use lists::FlatLists;
