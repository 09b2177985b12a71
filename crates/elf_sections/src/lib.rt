//! The image of an ELF64 x86-64 file: its sections, base, code, build id, identity and function symbols.
//!
//! `read_image` reads the file header, the section and program header tables, the notes and the
//! symbol table (System V ABI, ELF64; LSB notes). If a file has any of twelve faults, it is refused
//! with the first of them, in the order of `ElfFault`. Otherwise the result is an `Image`. Each of
//! its parts is defined by a condition on the headers of the file. `Image::with_debug` joins the
//! image of a stripped binary and that of its separate debug file.
//!
//! A reader of compressed sections uses the [`Tables`] of a file; [`read_loaded`], which gives the
//! image with its sections as they are in the file; and [`Image::with_sections`], which puts
//! inflated sections in their place.
//!
//! A file may share entries and strings with other files in a supplementary file (DWARF 5, 7.3.6). The image keeps the sections that link to that
//! file. [`read_sup_tables`] and [`read_sup_parts`] read the file, and [`Image::with_sup`] adds its sections to the image.
#![tactic(auto)]

mod code;
mod constants;
mod debug_image;
mod fault;
mod header;
mod image;
mod image_reader;
mod links;
mod notes;
mod numbers;
mod program;
mod section;
mod symbols;
mod tables;
mod text_identity;

pub use fault::ElfFault;
pub use image::{DebugParts, Image};
pub use image_reader::{read_image, read_loaded, read_sup_parts};
pub use links::LinkSection;
pub use section::{SectionHeader, begins, is_section_read, read_content};
pub use symbols::Symbol;
pub use tables::{Tables, read_sup_tables, read_tables};
