//! A file before its compressed sections are inflated, and its image after that.
ghost use Rattle.std.specs.Prelude.{◌≡◌, ◌^◌, ◌<◌, true, Some, None, Ok, Err, map, length, position, is_none, MatchResult};
ghost use Rattle.std.specs.Option.{option_map, option_or};
ghost use Rattle.elf_sections.specs.FileHeader.{header_fault};
ghost use Rattle.sym_edges.specs.Outside.{MatchStop};
ghost use Rattle.elf_sections.specs.Sections.{sections, names, names_fault};
ghost use Rattle.elf_sections.specs.Image.{part_view, image_by, with_sections};
ghost use Rattle.elf_sections.specs.DebugView.{debug_view};
ghost use Rattle.full_image.specs.Compressed.{is_called};
ghost use Rattle.full_image.specs.StreamView.{stream_view};
ghost use Rattle.full_image.specs.FullImage.{Packed, any_image, streams_by, outcomes_of, inflate_fault, full_part, full_sections};
ghost use Rattle.full_image.specs.internal.Front.{bytes_by, IsFront};

use crate::inflations::Inflations;
use crate::names::{is_called, is_packed};
use crate::stream::Stream;
use crate::tables::{are_too_long, find_fault, streams_by};
use elf_sections::{
    DebugParts, ElfFault, Image, SectionHeader, Tables, read_content, read_loaded, read_tables,
};
use std::alloc::Global;
use std::marker::Model;
use sym_edges::{Part, Sect, Stop};

/// What is known of a file before its compressed sections are inflated, if it has had no fault so
/// far.
#[derive(Drop)]
pub struct PackedImage<'a> {
    full: bool,
    tables: Tables<'a>,
    plain: Image<'a>,
    streams: Vec<Option<Stream<'a>>>,
}

impl<'a> Model for PackedImage<'a> {
    ghost use Rattle.std.specs.Prelude.{map};
    ghost use Rattle.std.specs.Option.{option_map};
    ghost use Rattle.full_image.specs.StreamView.{stream_view};
    ghost use Rattle.full_image.specs.FullImage.{Packed};
    ghost use Rattle.full_image.specs.internal.Front.{IsFront};

    ghost Value = { Packed };

    ghost view = { λ p. record { full = p.full; file = p.tables } };

    ghost invariant = { λ p. IsFront p.full p.tables p.plain (map (option_map stream_view) p.streams.items) };
}

/// The number of the first section with this name, in either spelling.
fn find_called(names: &[u8], sections: &[SectionHeader], which: Sect) -> Option<usize>
    ensures { result ≡ position (is_called names.now which) sections.now }
{
    sections
        .iter()
        .position(|section| is_called(names, section, which))
}

/// The bytes of a section, inflated if it is compressed.
#[tactic(auto, unfolding(elf_sections::specs::Sections::bytes_of))]
fn bytes_at<'a>(
    tables: &Tables<'a>,
    inflated: &'a Inflations,
    index: usize,
    section: &SectionHeader,
) -> &'a [u8]
    ensures { result.now ≡ bytes_by inflated.now tables.now index section.now }
{
    if !is_packed(tables.names(), section) {
        return read_content(tables.file(), section).unwrap_or(&[]);
    }
    match inflated.get(index) {
        Some(Some(bytes)) => bytes.as_slice(),
        _ => &[],
    }
}

/// The bytes and the address of the first section with this name, in either spelling.
#[tactic(auto, using(crate::proofs::PartLemmas::part_none))]
fn full_part<'a>(tables: &Tables<'a>, inflated: &'a Inflations, which: Sect) -> Part<'a>
    requires { inflated.now ≡ outcomes_of (record { full = true; file = tables.now }) }
    ensures { part_view result ≡ full_part tables.now which }
{
    match find_called(tables.names(), tables.sections(), which) {
        None => Part {
            bytes: &[],
            address: 0,
        },
        Some(index) => {
            let section = &tables.sections()[index];
            Part {
                bytes: bytes_at(tables, inflated, index, section),
                address: section.address,
            }
        }
    }
}

/// The sections of debugging information.
#[tactic(auto, unfolding(crate::specs::FullImage::full_sections))]
fn full_sections<'a>(tables: &Tables<'a>, inflated: &'a Inflations) -> DebugParts<'a>
    requires { inflated.now ≡ outcomes_of (record { full = true; file = tables.now }) }
    ensures { debug_view result ≡ full_sections tables.now }
{
    DebugParts {
        info: full_part(tables, inflated, Sect::Info),
        abbrevs: full_part(tables, inflated, Sect::Abbrev),
        line: full_part(tables, inflated, Sect::Line),
        line_str: full_part(tables, inflated, Sect::LineStr),
        strs: full_part(tables, inflated, Sect::Str),
        str_offsets: full_part(tables, inflated, Sect::StrOffsets),
        addr: full_part(tables, inflated, Sect::Addr),
        ranges: full_part(tables, inflated, Sect::Ranges),
        rnglists: full_part(tables, inflated, Sect::Rnglists),
        debug_frame: full_part(tables, inflated, Sect::DebugFrame),
    }
}

/// The number of the first section whose data is bad.
fn first_bad(inflated: &Inflations) -> Option<usize>
    ensures { result ≡ position is_none inflated.now }
{
    inflated.as_slice().iter().position(|out| out.is_none())
}

/// The image of a file with its inflated sections, or the fault of the first section whose data is
/// bad.
pub fn inflate_parts<'a>(
    tables: &Tables<'a>,
    plain: Image<'a>,
    inflated: &'a Inflations,
) -> Result<Image<'a>, ElfFault>
    requires outcomes { inflated.now ≡ outcomes_of (record { full = true; file = tables.now }) }
    requires few { length inflated.now < 2 ^ 16 }
    ensures exact { MatchResult result
        (λ i. image_by (inflate_fault inflated.now) (with_sections (full_sections tables.now) plain.entry) ≡ Ok i)
        (λ fault. image_by (inflate_fault inflated.now) (with_sections (full_sections tables.now) plain.entry) ≡ Err fault) }
{
    match first_bad(inflated) {
        Some(index) => Err(ElfFault::Inflate {
            index: index as u32,
        }),
        None => Ok(plain.with_sections(full_sections(tables, inflated))),
    }
}

/// Reads a file whose tables have no fault, up to the data of its compressed sections.
#[tactic(auto, using(crate::proofs::FrontLemmas::refused_long, crate::proofs::FrontLemmas::is_front))]
fn pack_tables<'a>(
    alloc: Global,
    tables: Tables<'a>,
    full: bool,
) -> Result<PackedImage<'a>, Stop<ElfFault>>
    requires { option_or (header_fault tables) (names_fault tables) ≡ None }
    ensures exact { MatchStop result
        (λ p. p ≡ record { full = full; file = tables.entry }) (λ fault. any_image full tables.entry ≡ Err fault) (Unit {0}) }
{
    if let Some(fault) = find_fault(&tables, full) {
        return Err(Stop::Fault(fault));
    }
    let plain = match read_loaded(alloc, &tables) {
        Ok(plain) => plain,
        Err(stop) => return Err(stop),
    };
    let streams = streams_by(alloc, &tables, full)?;
    if are_too_long(&streams) {
        return Err(Stop::Fault(ElfFault::InflatedTooLong));
    }
    Ok(PackedImage {
        full,
        tables,
        plain,
        streams,
    })
}

/// Reads a file up to the data of its compressed sections, or returns its first fault. If `full` is false, compressed sections are refused.
pub fn read_packed<'a>(
    alloc: Global,
    bytes: &'a [u8],
    full: bool,
) -> Result<PackedImage<'a>, Stop<ElfFault>>
    ensures exact { MatchStop result
        (λ p. p ≡ record { full = full; file = bytes.now }) (λ fault. any_image full bytes.now ≡ Err fault) (Unit {0}) }
{
    match read_tables(alloc, bytes) {
        Ok(tables) => pack_tables(alloc, tables, full),
        Err(stop) => Err(stop),
    }
}

impl<'a> PackedImage<'a> {
    /// The data of each section that is compressed, by the number of the section.
    pub fn streams(&self) -> &[Option<Stream<'a>>]
        ensures data { map (option_map stream_view) result.now ≡ streams_by self.now.full self.now.file }
        ensures few { length result.now < 2 ^ 16 }
    {
        self.streams.as_slice()
    }

    /// The image, or the fault of the first section whose data is bad. Its parts are slices of the
    /// file and of the inflated sections.
    #[tactic(auto, using(crate::proofs::FrontLemmas::plain_image, crate::proofs::FrontLemmas::few_outcomes))]
    pub fn unpack(self, inflated: &'a Inflations) -> Result<Image<'a>, ElfFault>
        requires { inflated.now ≡ outcomes_of self }
        ensures exact { MatchResult result (λ i. any_image self.entry.full self.entry.file ≡ Ok i) (λ fault. any_image self.entry.full self.entry.file ≡ Err fault) }
    {
        if self.full {
            let plain = self.plain;
            inflate_parts(&self.tables, plain, inflated)
        } else {
            Ok(self.plain)
        }
    }
}
