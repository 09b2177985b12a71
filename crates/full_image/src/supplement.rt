//! A supplementary file before its compressed sections are inflated, and its image after that.
ghost use Rattle.std.specs.Prelude.{◌≡◌, ◌^◌, ◌<◌, true, None, Ok, Err, map, length, MatchResult};
ghost use Rattle.std.specs.Option.{option_map, option_or};
ghost use Rattle.sym_edges.specs.Outside.{MatchStop};
ghost use Rattle.elf_sections.specs.FileHeader.{sup_header_fault};
ghost use Rattle.elf_sections.specs.Sections.{names_fault};
ghost use Rattle.full_image.specs.StreamView.{stream_view};
ghost use Rattle.full_image.specs.FullImage.{streams, outcomes_of};
ghost use Rattle.full_image.specs.SupImage.{sup_image};

use crate::inflations::Inflations;
use crate::packed::inflate_parts;
use crate::stream::Stream;
use crate::tables::{are_too_long, find_section_fault, find_streams};
use elf_sections::{ElfFault, Image, Tables, read_sup_parts, read_sup_tables};
use std::alloc::Global;
use std::marker::Model;
use sym_edges::Stop;

/// What is known of a supplementary file before its compressed sections are inflated, if it has had
/// no fault so far.
#[derive(Drop)]
pub struct PackedSup<'a> {
    tables: Tables<'a>,
    plain: Image<'a>,
    streams: Vec<Option<Stream<'a>>>,
}

impl<'a> Model for PackedSup<'a> {
    ghost use Rattle.std.specs.Prelude.{List, ℕ, map};
    ghost use Rattle.std.specs.Option.{option_map};
    ghost use Rattle.full_image.specs.StreamView.{stream_view};
    ghost use Rattle.full_image.specs.internal.SupFront.{IsSupFront};

    ghost Value = { List ℕ };

    ghost view = { λ p. p.tables };

    ghost invariant = { λ p. IsSupFront p.tables p.plain (map (option_map stream_view) p.streams.items) };
}

/// Reads a supplementary file whose tables have no fault, up to the data of its compressed
/// sections.
#[tactic(auto, using(crate::proofs::SupFrontLemmas::refused_long, crate::proofs::SupFrontLemmas::is_front))]
fn pack_tables<'a>(alloc: Global, tables: Tables<'a>) -> Result<PackedSup<'a>, Stop<ElfFault>>
    requires { option_or (sup_header_fault tables) (names_fault tables) ≡ None }
    ensures exact { MatchStop result (λ p. p ≡ tables.entry) (λ fault. sup_image tables.entry ≡ Err fault) (Unit {0}) }
{
    if let Some(fault) = find_section_fault(&tables) {
        return Err(Stop::Fault(fault));
    }
    let streams = find_streams(alloc, &tables)?;
    if are_too_long(&streams) {
        return Err(Stop::Fault(ElfFault::InflatedTooLong));
    }
    let plain = read_sup_parts(alloc, &tables)?;
    Ok(PackedSup {
        tables,
        plain,
        streams,
    })
}

/// Reads a supplementary file up to the data of its compressed sections, or returns its first fault.
pub fn read_packed_sup<'a>(alloc: Global, bytes: &'a [u8]) -> Result<PackedSup<'a>, Stop<ElfFault>>
    ensures exact { MatchStop result (λ p. p ≡ bytes.now) (λ fault. sup_image bytes.now ≡ Err fault) (Unit {0}) }
{
    match read_sup_tables(alloc, bytes) {
        Ok(tables) => pack_tables(alloc, tables),
        Err(stop) => Err(stop),
    }
}

impl<'a> PackedSup<'a> {
    /// The data of each section that is compressed, by the number of the section.
    pub fn streams(&self) -> &[Option<Stream<'a>>]
        ensures data { map (option_map stream_view) result.now ≡ streams self.now }
        ensures few { length result.now < 2 ^ 16 }
    {
        self.streams.as_slice()
    }

    /// The image, or the fault of the first section whose data is bad. Its parts are slices of the
    /// file and of the inflated sections.
    #[tactic(auto, using(crate::proofs::FrontLemmas::few_outcomes))]
    pub fn unpack(self, inflated: &'a Inflations) -> Result<Image<'a>, ElfFault>
        requires { inflated.now ≡ outcomes_of (record { full = true; file = self }) }
        ensures exact { MatchResult result (λ i. sup_image self.entry ≡ Ok i) (λ fault. sup_image self.entry ≡ Err fault) }
    {
        let plain = self.plain;
        inflate_parts(&self.tables, plain, inflated)
    }
}
