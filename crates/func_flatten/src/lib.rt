//! The functions of a file by address (DWARF 5, 3.3; Breakpad's symbol_files.md, FUNC, line and PUBLIC records).
//!
//! The owner of an address is the first function, in the order of `.debug_info`, that has the address. [`pieces`] gives a [`Piece`] for each maximal
//! run of addresses with one owner, by address, and marks those pieces whose first address a function with another name has too. [`lines_of`] gives
//! the lines in a piece, from the line table of its unit: a [`LineRun`] for each maximal run of addresses with one path and one line. [`publics`]
//! gives one [`PublicAt`] for each address of a function symbol that no piece has. All addresses are those of the ELF file; the base is subtracted
//! when records are made from them.
//!
//! The definitions are in `specs/`: `Pieces`, `LineRuns` and `Publics`, each of which asks one address at a time. The owner and its line are those of
//! `debug_units`, its name is that of `die_names`. The other modules there are for the code alone. The code takes all functions' ranges as stretches.
//! It drops those that repeat an earlier one, since many units have the same inline functions, and sweeps the others once (`step_maps::covers`). If two
//! functions have the first address of a run, the stretches that have this address get classes by their functions' names, and are swept once more
//! (`step_maps::first_items`). Names are compared only if their hashes are equal. Lines are made stop by stop, and sorted symbols are merged with the
//! pieces.
//!
//! The modules are best read in this order: `piece`, `set_owners`, `functions`; for names `name_keys`, `scope_keys`, `name_classes`; then `repeats`,
//! `cover_marks`, `owners`, `line_run`, `lines`, `public`, `uncovered`, `laws`.
#![tactic(auto)]

mod cover_marks;
mod functions;
pub mod laws;
mod line_run;
mod lines;
mod name_classes;
mod name_keys;
mod owners;
mod piece;
mod public;
mod repeats;
mod scope_keys;
mod set_owners;
mod uncovered;

pub use crate::line_run::LineRun;
pub use crate::lines::lines_of;
pub use crate::owners::pieces;
pub use crate::piece::{Piece, PieceList};
pub use crate::public::{PublicAt, PublicList};
pub use crate::uncovered::publics;
