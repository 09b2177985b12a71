//! Core files of Linux x86-64: what a process left when it crashed.
//!
//! A core is an ELF64 file (System V gABI) whose loaded segments have the process's memory, and whose notes of the owner `CORE` have the states of
//! its threads (NT_PRSTATUS) and the files that it had mapped (NT_FILE), as Linux writes them.
//!
//! [`HeldBytes`] takes the bytes of a file piece by piece and keeps them in blocks, except blocks that are all zeros. A contract sees it as the list
//! of all bytes; a stream is refused exactly if it has more than 2^40 bytes, or more than 2^32 in blocks that are kept.
//!
//! [`read_core`] promises one equation: it returns what `specs/Core.antt` gives for the bytes of
//! the file. This is the first fault in the order of [`CoreFault`], or a [`Core`] with its memory,
//! its threads and its modules. The only other result is that memory ran out. Contracts see a core
//! as its bytes, its segments, its threads in the order of their notes, and its modules in the
//! order of the mapped files. [`Core::byte`], [`Core::word`] and [`Core::is_code`] return what
//! `specs/Memory.antt` and `specs/Code.antt` say of an address. If several segments give an address
//! a byte, the first of them counts. A core file that was cut off has the bytes that are in the
//! file.
//!
//! A module is a file that was mapped from its start on (`specs/Modules.antt`). If its own ELF
//! header and program headers are in memory (`specs/LoadedImages.antt`), they give its end, its
//! base and its build id; otherwise it ends with its mappings.
//!
//! A reader begins with the files of specs/, in the order of `specs/Lib.antt`. Then come
//! `byte_list` (numbers at a place), `blocks` and `held` (the bytes); `header`, `segments`,
//! `notes`, `threads`, `gather` and `files` (what the file says); `memory` and `front` (the bytes
//! at an address); `images`, `ids`, `names`, `pages`, `code` and `modules` (what was loaded); and
//! `core_read`, which puts them together.
#![tactic(auto)]

mod blocks;
mod byte_list;
mod code;
mod constants;
mod core_read;
mod fault;
mod files;
mod front;
mod gather;
mod header;
mod held;
mod ids;
mod images;
mod memory;
mod modules;
mod names;
mod notes;
mod pages;
mod part;
mod segments;
mod stored;
#[cfg(test)]
mod tests;
mod threads;

pub use byte_list::{ByteList, read_u16, read_u32, read_u64};
pub use core_read::{Core, read_core};
pub use fault::{CoreFault, TooLong};
pub use held::HeldBytes;
pub use modules::Module;
pub use segments::Segment;
pub use stored::read_held;
pub use threads::{Registers, Thread};
