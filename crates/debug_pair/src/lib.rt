//! What belongs to a binary: its separate debug file, found by the build id (GDB manual, "Debugging Information in Separate Files"); the
//! supplementary file to which either links (DWARF 5, 7.3.6); and its symbol file (Breakpad's symbol_files.md).
//!
//! [`pair`] returns the image of both files if they are of one build: both have a build id, and the two ids are equal. [`debug_path`] gives the path
//! of the debug file of a build below a root directory, as distributions lay them out. [`make_id`] gives the id that a symbol file has in MODULE,
//! given the build's identity of 16 bytes; [`build_identity`] gives that identity for a build id. [`symbol_path`] gives the path of the symbol file
//! in a store.
//!
//! [`find_sup_link`] reads the link of an image to its supplementary file, [`sup_path`] gives the
//! path of that file, and [`is_linked`] says whether a file is the one that the link means.
#![tactic(auto)]

mod fault;
mod identity;
mod pair_check;
mod place;
mod sup_link;
mod sup_place;
mod symbol_place;

pub use fault::{PairFault, ShortId, SupFault};
pub use identity::{build_identity, hex_text, make_id};
pub use pair_check::pair;
pub use place::debug_path;
pub use sup_link::{SupLink, find_sup_link, is_linked};
pub use sup_place::sup_path;
pub use symbol_place::symbol_path;
