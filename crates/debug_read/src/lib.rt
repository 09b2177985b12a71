//! All debugging information of a file, read by any number of workers: the units of `.debug_info` (DWARF 5, 7.5) with their entries, the addresses of
//! the entries and the line tables of the units, and the frame entries of `.eh_frame` and `.debug_frame` (DWARF 5, 6.4.1; LSB Core, ".eh_frame").
//!
//! [`read_debug`] returns a [`DebugRead`], or the first fault of the file after its image was read. Faults have this order, whatever worker finds a
//! fault and when: the headers of all units; then each unit that is read, in the order of the section, with its abbreviations, its entries, the base
//! of its range lists, the ranges entry by entry, its line table; then the same for a supplementary file; then `.eh_frame`; then `.debug_frame`.
//! Units of other versions than 4 and 5, type units and split units have a header and are not read.
//!
//! `specs/UnitSays.antt` has what a unit says, as a chain of the readings of the crates below, and `specs/DebugSays.antt` what a file says; each is a
//! value or the first fault. What is kept of a unit is a relation: `specs/UnitsRead.antt` says that its entries are those of its entry table, that
//! each entry has exactly the addresses of its ranges that are code, and that the lines are those of the unit's line table. None of these definitions
//! mentions the workers or the order in which they drew the units.
//!
//! A unit's line table is kept only if the unit has a function that is not merely declared, since only the units of functions are asked for lines.
//! The table of another unit is read for its faults, and the empty table takes its place. Line tables are read after the units, once for each offset
//! and compilation directory, and all units that name a table share what was read. The faults of a table are the same whichever unit names it. So if
//! nothing is kept of a table, it is read once for its offset, and not at all if a table at that offset was read for a unit with a function.
//!
//! Each worker reads the units that it draws, one at a time, by a function of the file and the unit's number (`unit_workers`). What the workers found
//! is then joined with the line tables in the order of the units. All units are read, also after one that is refused. Abbreviations that several
//! units name are read first, once.
//!
//! [`SupTargets`] says to which units of a supplementary file (DWARF 5, 7.3.6) the entries of the file lead.
//!
//! Best read in this order: `specs/UnitSays.antt`, `specs/UnitsRead.antt`, `specs/DebugSays.antt`;
//! then `units` with `shared_abbrevs` and `ranges`; `lines`, `named_tables`, `unit_tables`,
//! `debug`, `sup_targets`.
#![tactic(auto)]

mod debug;
mod fault;
mod found;
pub mod laws;
mod lines;
mod named_tables;
mod ranges;
mod sections;
mod shared_abbrevs;
mod sup_targets;
mod unit_tables;
mod units;

pub use crate::debug::read_debug;
pub use crate::fault::DebugFault;
pub use crate::found::DebugRead;
pub use crate::sections::sections_of;
pub use crate::sup_targets::SupTargets;
