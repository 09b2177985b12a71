//! What the section headers say before anything is inflated.
ghost use Rattle.std.specs.Prelude.{◌≡◌, ◌^◌, ◌<◌, position, map, length, IfOk};
ghost use Rattle.std.specs.Option.{option_map};
ghost use Rattle.full_image.specs.Compressed.{stream_of};
ghost use Rattle.full_image.specs.StreamView.{stream_view};
ghost use Rattle.full_image.specs.FullImage.{is_cut, is_refused, sections_fault, are_too_long, streams, streams_by};
ghost use Rattle.full_image.specs.internal.Front.{tables_fault};

use crate::names::{is_flagged, is_packed, is_read};
use crate::stream::{Stream, stream_in, stream_of};
use elf_sections::{ElfFault, SectionHeader, Tables, is_section_read, read_content};
use std::alloc::{AllocError, Global};
use sym_edges::FILE_LIMIT;

#[tactic(auto, unfolding(crate::specs::FullImage::is_cut))]
fn is_cut(file: &[u8], table: &[u8], section: &SectionHeader) -> bool
    ensures { result ≡ is_cut file.now table.now section.now }
{
    is_read(table, section) && read_content(file, section).is_none()
}

#[tactic(auto, unfolding(crate::specs::FullImage::is_refused))]
fn is_refused(file: &[u8], table: &[u8], section: &SectionHeader) -> bool
    ensures { result ≡ is_refused file.now table.now section.now }
{
    if is_packed(table, section) {
        stream_in(file, section).is_none()
    } else {
        is_section_read(table, section) && is_flagged(section)
    }
}

fn first_cut(file: &[u8], table: &[u8], sections: &[SectionHeader]) -> Option<usize>
    ensures { result ≡ position (is_cut file.now table.now) sections.now }
{
    sections
        .iter()
        .position(|section| is_cut(file, table, section))
}

fn first_refused(file: &[u8], table: &[u8], sections: &[SectionHeader]) -> Option<usize>
    ensures { result ≡ position (is_refused file.now table.now) sections.now }
{
    sections
        .iter()
        .position(|section| is_refused(file, table, section))
}

/// The first fault of the sections: that of the first section that is read and extends past the end
/// of the file; if there is none, that of the first one that is compressed but cannot be inflated.
#[tactic(auto, unfolding(crate::specs::FullImage::sections_fault))]
pub fn find_section_fault(tables: &Tables<'_>) -> Option<ElfFault>
    ensures { result ≡ sections_fault tables.now }
{
    let file = tables.file();
    let names = tables.names();
    let sections = tables.sections();
    if let Some(index) = first_cut(file, names, sections) {
        return Some(ElfFault::SectionBytes {
            index: index as u32,
        });
    }
    match first_refused(file, names, sections) {
        None => None,
        Some(index) => Some(ElfFault::Compressed {
            index: index as u32,
        }),
    }
}

/// The first fault of the sections. If `full`, compressed sections are inflated, otherwise they are
/// refused.
pub fn find_fault(tables: &Tables<'_>, full: bool) -> Option<ElfFault>
    ensures { result ≡ tables_fault full tables.now }
{
    if full {
        find_section_fault(tables)
    } else {
        tables.find_section_fault()
    }
}

fn collect_streams<'a>(
    alloc: Global,
    file: &'a [u8],
    names: &[u8],
    sections: &[SectionHeader],
) -> Result<Vec<Option<Stream<'a>>>, AllocError>
    ensures { IfOk result (λ v. map (option_map stream_view) v.items ≡ map (stream_of file.now names.now) sections.now) }
{
    let mut found = Vec::with_capacity(alloc, sections.len())?;
    'sections: for section in sections {
        found.push(stream_of(file, names, section))?;
    }
    Ok(found)
}

/// The data of each compressed section.
#[tactic(auto, unfolding(crate::specs::FullImage::streams))]
pub fn find_streams<'a>(
    alloc: Global,
    tables: &Tables<'a>,
) -> Result<Vec<Option<Stream<'a>>>, AllocError>
    ensures data { IfOk result (λ v. map (option_map stream_view) v.items ≡ streams tables.now) }
    ensures few { IfOk result (λ v. length (map (option_map stream_view) v.items) < 2 ^ 16) }
{
    collect_streams(alloc, tables.file(), tables.names(), tables.sections())
}

/// The data of each compressed section if these are inflated, otherwise an empty list.
pub fn streams_by<'a>(
    alloc: Global,
    tables: &Tables<'a>,
    full: bool,
) -> Result<Vec<Option<Stream<'a>>>, AllocError>
    ensures data { IfOk result (λ v. map (option_map stream_view) v.items ≡ streams_by full tables.now) }
    ensures few { IfOk result (λ v. length (map (option_map stream_view) v.items) < 2 ^ 16) }
{
    if full {
        find_streams(alloc, tables)
    } else {
        Ok(Vec::new(alloc))
    }
}

/// Whether all data together inflates to more bytes than a file may have.
#[tactic(auto, using(crate::proofs::SizeLemmas::size_more, crate::proofs::SizeLemmas::size_past, crate::proofs::SizeLemmas::size_within))]
pub fn are_too_long(streams: &[Option<Stream<'_>>]) -> bool
    ensures { result ≡ are_too_long (map (option_map stream_view) streams.now) }
{
    let mut left = FILE_LIMIT as u64;
    'streams: for stream in streams {
        if let Some(stream) = stream {
            if stream.size > left {
                return true;
            }
            left -= stream.size;
        }
    }
    false
}
