//! The image of an ELF file whose sections of debugging information may be compressed (System V gABI, "Section Compression", and GNU's older form
//! with names `.zdebug_..`).
//!
//! [`read_packed`] reads a file up to the data of its compressed sections, [`inflate_sections`]
//! inflates them by several workers, and [`PackedImage::unpack`] makes the image, whose parts are
//! slices of the file and of the inflated data. Together they return the image of
//! `specs/FullImage.antt`, or its first fault. If the caller does not want compressed sections to
//! be inflated, they return what `read_image` returns.
//!
//! [`read_packed_sup`], [`inflate_supplement`] and [`PackedSup::unpack`] do the same for a supplementary file (DWARF 5, 7.3.6), which has neither
//! segments nor code; its image is that of `specs/SupImage.antt`.
//!
//! Read the modules in this order: `names`, `stream`, `tables`, `packed`, `supplement`,
//! `inflations`.
#![tactic(auto)]

mod inflations;
mod names;
mod packed;
mod stream;
mod supplement;
mod tables;

pub use inflations::{Inflations, inflate_sections, inflate_supplement};
pub use packed::{PackedImage, read_packed};
pub use stream::Stream;
pub use supplement::{PackedSup, read_packed_sup};
