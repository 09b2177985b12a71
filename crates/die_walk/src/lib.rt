//! The entries of a unit of `.debug_info` (DWARF 5, 2.2, 2.3 and 7.5): its root, and the entries that give functions, their names and their inlined
//! copies.
//!
//! [`walk`] goes over the entries of a unit once. It keeps the root, and each entry with the tag of a class, a structure, a union, an inlined
//! subroutine, a subprogram or a namespace, in their order. The parent of a kept entry is its nearest kept ancestor. For each entry the attributes
//! that matter here are kept. If an entry has an attribute twice, the first one counts. An attribute is absent if its value has another class than
//! the standard gives it, or leads to no text. Texts are slices of the file. The attributes of the root that hold for the whole unit are a [`Root`].
//!
//! The contract compares the result with definitions in three steps. `specs/Marks.antt` defines what the unit has, one after another: entries with
//! their values, and the zeros that end lists of children; all faults and places are defined there. `specs/EntryTree.antt` defines the tree of these
//! entries: the parent of an entry is the last entry before it that is one level less deep. `specs/EntryTable.antt` defines the attributes, each by
//! its class (`specs/Attributes.antt` of `abbrev_units`). The code keeps a stack of the kept entries around the current one. Entries that are not
//! kept take no memory, and no recursion follows the tree.
#![tactic(auto)]

mod die;
mod entry_heads;
mod heads;
pub mod laws;
mod root;
mod scopes;
mod table;
mod walker;

pub use crate::die::Die;
pub use crate::root::Root;
pub use crate::table::{DieList, DieTable, walk};
