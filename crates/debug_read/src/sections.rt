//! The sections of an image.
ghost use Rattle.std.specs.Prelude.{◌≡◌, IfOk};
ghost use Rattle.std.specs.Option.{option_map};
ghost use Rattle.elf_sections.specs.DebugView.{debug_view};
ghost use Rattle.debug_read.specs.ImageSections.{sections_of, sup_sections_of};

use abbrev_units::Sections;
use elf_sections::{DebugParts, Image};
use std::alloc::{AllocError, Global};
use sym_edges::Sect;
use text_table::TextTable;

/// The sections of debugging information in an image.
pub fn sections_of<'a>(alloc: Global, image: &Image<'a>) -> Result<Sections<'a>, AllocError>
    ensures { IfOk result (λ sections. sections ≡ sections_of image.now) }
{
    let line_str = TextTable::new(alloc, image.section(Sect::LineStr).bytes)?;
    let strs = TextTable::new(alloc, image.section(Sect::Str).bytes)?;
    let sup_strs = match image.sup() {
        Some(sup) => Some(TextTable::new(alloc, sup.strs.bytes)?),
        None => None,
    };
    Ok(Sections {
        info: image.section(Sect::Info).bytes,
        abbrevs: image.section(Sect::Abbrev).bytes,
        line: image.section(Sect::Line).bytes,
        line_str,
        strs,
        str_offsets: image.section(Sect::StrOffsets).bytes,
        addr: image.section(Sect::Addr).bytes,
        ranges: image.section(Sect::Ranges).bytes,
        rnglists: image.section(Sect::Rnglists).bytes,
        sup_strs,
        is_sup: false,
    })
}

/// The sections of a supplementary file (DWARF 5, 7.3.6), of which only entries and their names are read.
pub fn sup_sections_of<'a>(
    alloc: Global,
    sup: Option<DebugParts<'a>>,
) -> Result<Sections<'a>, AllocError>
    ensures { IfOk result (λ sections. sections ≡ sup_sections_of (option_map debug_view sup.entry)) }
{
    let (info, abbrevs, line_str, strs, str_offsets): (
        &'a [u8],
        &'a [u8],
        &'a [u8],
        &'a [u8],
        &'a [u8],
    ) = match sup {
        Some(sup) => (
            sup.info.bytes,
            sup.abbrevs.bytes,
            sup.line_str.bytes,
            sup.strs.bytes,
            sup.str_offsets.bytes,
        ),
        None => (&[], &[], &[], &[], &[]),
    };
    Ok(Sections {
        info,
        abbrevs,
        line: &[],
        line_str: TextTable::new(alloc, line_str)?,
        strs: TextTable::new(alloc, strs)?,
        str_offsets,
        addr: &[],
        ranges: &[],
        rnglists: &[],
        sup_strs: None,
        is_sup: true,
    })
}
