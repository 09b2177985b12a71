//! Line tables: which file and line the code at an address comes from (DWARF 5, 6.2; DWARF 4, 6.2).
//!
//! [`read_lines`] reads the table at an offset of `.debug_line`, of versions 2 to 5 and in both
//! formats: its header, its tables of directories and files, and its program. The opcodes of the
//! program are executed on the registers and give sequences of rows. If there is a fault, the first
//! one is returned with its place. A [`LineTable`] gives the line of each address
//! ([`LineTable::line_at`]). It is in the first sequence whose range is code and contains the
//! address. Of the sequence's rows at or below the address, the one with the greatest address
//! counts, and of several such rows the last one. Lines change only at [`LineTable::stops`]; to go
//! over the addresses of a function, walk these with [`LineTable::line_from`]. Each file has a path
//! ([`LineTable::file`], [`LineTable::path`]), joined with its directory and cleaned. A path is made
//! when it is asked for, in memory that is reused ([`PathTexts`]), since most files of a table are
//! named by no line and no call. A [`LineScratch`] is memory that is reused for one table after
//! another.
//!
//! The definitions are in `specs/`, in the standard's order: `Headers`, `FileTables`, `Paths`;
//! `Opcodes` (how they are read) and `LineRows` (what they do); `LineAt` (the line of an address,
//! by a search of all rows); `LineTables` (a whole table). The model of a table in contracts is
//! defined in `specs/LineMaps.antt`: a step map of lines, and the files' paths. The code sorts a
//! sequence's rows only if they are not in order. It finds the sequence that counts at each address
//! with `step_maps`, and paints the rows once.
//!
//! Read the modules in this order: `program`, `opcode`, `opcode_reader`, `machine` and
//! `program_run`; then `header`, `entries`, `tables` and `paths`; then `row_order`, `stretches`,
//! `line_map` and `table`; then `scratch` and `lines`.
#![tactic(auto)]

mod entries;
mod entry_format;
mod fault;
mod file_entry;
mod header;
pub mod laws;
mod line_map;
mod lines;
mod machine;
mod opcode;
mod opcode_reader;
mod path_line;
mod paths;
mod program;
mod program_run;
mod row;
mod row_order;
mod scratch;
mod stretches;
mod table;
mod tables;

pub use crate::lines::read_lines;
pub use crate::paths::{PathPair, PathTexts};
pub use crate::scratch::LineScratch;
pub use crate::table::LineTable;
