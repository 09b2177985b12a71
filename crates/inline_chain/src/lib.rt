//! The inlined copies of functions by address (DWARF 5, 3.3.8; Breakpad's symbol_files.md, INLINE records).
//!
//! Which inlined copies are at an address is decided level by level. The copy of a level is the
//! first one, in the order of `.debug_info`, that has the address and is directly in the copy of
//! the level before. At level 0 it is directly in the function that owns the address. Entries of
//! other kinds in between do not count. [`InlineTrees`] finds, once for all pieces, the first
//! inlined copy directly in each entry at each address. [`inlines`] goes down from a piece of a
//! function, level by level, and cuts the copies in an entry to the addresses that the entry itself
//! has there. So a copy has no addresses outside the entry that it is in, even if DWARF gives it
//! more.
//!
//! `specs/InlineRuns.antt` defines the result, one address at a time, by the chain that
//! `debug_units` defines. The other definitions there serve the code alone. For n ranges of inlined
//! copies in a unit, the trees take n log n steps. A piece takes one step for each range on its
//! levels, each with a search.
//!
//! The modules are best read in this order: `inline_run`, `inside`, `met_copies`, `children`,
//! `class_links`, `cover_sweep`, `tree_scratch`, `trees`, `levels`, `groups`, `inline_list`.
#![tactic(auto)]

mod children;
mod class_links;
mod cover_sweep;
mod groups;
mod inline_list;
mod inline_run;
mod inside;
pub mod laws;
mod levels;
mod met_copies;
mod tree_scratch;
mod trees;

pub use crate::inline_list::{LevelLists, inlines};
pub use crate::inline_run::{InlineRun, InlineRuns};
pub use crate::trees::InlineTrees;
