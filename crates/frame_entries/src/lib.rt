//! The frame description entries (FDEs) of `.eh_frame` and `.debug_frame` (DWARF 5, 6.4.1; LSB Core, ".eh_frame"), and pointers by their encoding.
//!
//! [`entries`] gives the FDEs of a section in their order, in `.debug_frame` also those in the
//! 64-bit format. Each FDE has its range, the factors of its CIE, the encoding of pointers, the
//! CIE's instructions and its own; or else the first reason to leave it out. The reasons are its
//! CIE (no CIE starts at the place that the FDE names, or a field of the CIE cannot be read), an
//! augmentation that is not understood, an encoding that is not read, a return address column that
//! is not that of x86-64, and a field of its own. If the entries of a section do not follow each
//! other up to its end, the section is refused with its first fault, at the entry with the fault.
//!
//! The contract compares the result with definitions over the list of all entries of the section:
//! `specs/Listing.antt` has that list, `specs/Cies.antt` says what the bytes of a CIE mean, and
//! `specs/FrameEntries.antt` says which CIE an FDE has and what the FDE's fields are. The code goes
//! over the section once and reads each CIE once. An [`EntryList`] has the places of the FDEs, and
//! reads an FDE when it is asked for. The CIE of an FDE is found by binary search, since places
//! rise. An [`Fde`] has the place of its CIE; if FDEs of one section have the same place, they have
//! the same fields of a CIE (`specs/SharedCies.antt`).
//!
//! [`read_pointer`] reads a pointer, given the address of its field. The instructions of an [`Fde`] use it with the entry's encoding, which is always
//! one that it reads.
#![tactic(auto)]

mod augmentation;
mod cie;
mod description;
mod entry_list;
mod fault;
pub mod laws;
mod numbers;
mod pointer;
mod raw_entries;
mod section_cies;

pub use crate::description::{Body, Entry, Fde};
pub use crate::entry_list::{EntryList, entries};
pub use crate::fault::{FrameFault, FrameKind};
pub use crate::pointer::read_pointer;
