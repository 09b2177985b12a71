//! The file header, the section headers and their names, as they were read.
ghost use Rattle.std.specs.Prelude.{◌≡◌, ◌+◌, ◌*◌, ◌≤◌, ◌<◌, ◌^◌, not, ℕ, List, Some, None, IfOk, length, position, option_and_then, slice_get, nat_le, is_none};
ghost use Rattle.std.specs.List.{list_any};
ghost use Rattle.std.specs.Option.{option_copied, option_or};
ghost use Rattle.sym_edges.specs.Outside.{MatchStop};
ghost use Rattle.elf_sections.specs.FileHeader.{header_fault, sup_header_fault, header_of};
ghost use Rattle.elf_sections.specs.Strings.{string_at};
ghost use Rattle.elf_sections.specs.Sections.{sections_from, sections, content, leaves_file, is_compressed, names, names_fault, bytes_fault, compressed_fault};
ghost use Rattle.elf_sections.specs.ElfNumbers.{section_header_size};
ghost use Rattle.elf_sections.specs.declared.fault.ElfFault.TheVariants.{SectionBytes, Compressed};

use crate::constants::SECTION_HEADER;
use crate::fault::ElfFault;
use crate::header::{FileHeader, read_header, read_sup_header};
use crate::section::{
    SectionHeader, begins, does_leave, is_compressed_section, read_content, read_section,
};
use std::alloc::{AllocError, Global};
use std::marker::Model;
use sym_edges::Stop;
use text_table::end_of_texts;

/// A file whose file header, section headers and names have been read.
#[derive(Drop)]
pub struct Tables<'a> {
    file: &'a [u8],
    header: FileHeader,
    sections: Vec<SectionHeader>,
    names: &'a [u8],
}

impl<'a> Model for Tables<'a> {
    ghost use Rattle.std.specs.Prelude.{List, ℕ};
    ghost use Rattle.elf_sections.specs.Kept.{AreTables};

    ghost Value = { List ℕ };

    ghost view = { λ t. t.file.now };

    ghost invariant = { λ t. AreTables t.file.now t.header t.sections.items t.names.now };
}

/// The tables of a file, or the first fault of its header, its section table and its names.
pub fn read_tables(alloc: Global, file: &[u8]) -> Result<Tables<'_>, Stop<ElfFault>>
    ensures read { MatchStop result
        (λ tables. (option_or (header_fault file.now) (names_fault file.now) ≡ None) × (tables ≡ file.now))
        (λ fault. option_or (header_fault file.now) (names_fault file.now) ≡ Some fault) (Unit {0}) }
{
    match read_header(file) {
        Ok(header) => tables_behind(alloc, file, header),
        Err(fault) => Err(Stop::Fault(fault)),
    }
}

/// The tables of a supplementary file, which may be of any type, or the first fault of its header,
/// its section table and its names.
pub fn read_sup_tables(alloc: Global, file: &[u8]) -> Result<Tables<'_>, Stop<ElfFault>>
    ensures read { MatchStop result
        (λ tables. (option_or (sup_header_fault file.now) (names_fault file.now) ≡ None) × (tables ≡ file.now))
        (λ fault. option_or (sup_header_fault file.now) (names_fault file.now) ≡ Some fault) (Unit {0}) }
{
    match read_sup_header(file) {
        Ok(header) => tables_behind(alloc, file, header),
        Err(fault) => Err(Stop::Fault(fault)),
    }
}

/// The tables of a file with this file header, or the fault of its names.
#[tactic(auto, using(crate::proofs::TableLemmas::length_sections), unfolding(crate::specs::Sections::sections, crate::specs::Sections::name_table, crate::specs::Sections::names, crate::specs::Sections::names_fault))]
fn tables_behind(
    alloc: Global,
    file: &[u8],
    header: FileHeader,
) -> Result<Tables<'_>, Stop<ElfFault>>
    requires header { header ≡ header_of file.now }
    requires fits { header.section_table + section_header_size * header.section_count ≤ length file.now }
    ensures read { MatchStop result
        (λ tables. (names_fault file.now ≡ None) × (tables ≡ file.now)) (λ fault. names_fault file.now ≡ Some fault) (Unit {0}) }
{
    let table = header.section_table as usize;
    let sections = read_sections(alloc, file, table, header.section_count as usize)?;
    match content_at(file, &sections, header.names_index as usize) {
        None => Err(Stop::Fault(ElfFault::SectionNames)),
        Some(names) => {
            if has_open_name(names, &sections) {
                Err(Stop::Fault(ElfFault::SectionNames))
            } else {
                Ok(Tables {
                    file,
                    header,
                    sections,
                    names,
                })
            }
        }
    }
}

impl<'a> Tables<'a> {
    /// The whole file.
    pub fn file(&self) -> &'a [u8]
        ensures { result.now ≡ self.now }
    {
        self.file
    }

    pub fn header(&self) -> FileHeader
        ensures { result ≡ header_of self.now }
    {
        self.header
    }

    /// All section headers. Their number fits into 16 bits.
    pub fn sections(&self) -> &[SectionHeader]
        ensures headers { result.now ≡ sections self.now }
        ensures few { length (sections self.now) < 2 ^ 16 }
    {
        self.sections.as_slice()
    }

    pub fn names(&self) -> &'a [u8]
        ensures { result.now ≡ names self.now }
    {
        self.names
    }

    /// The fault of the first section that is read and extends past the end of the file. If there
    /// is none, the fault of the first section that is compressed.
    #[tactic(auto, unfolding(crate::specs::Sections::bytes_fault, crate::specs::Sections::compressed_fault))]
    pub fn find_section_fault(&self) -> Option<ElfFault>
        ensures { result ≡ option_or (bytes_fault self.now) (compressed_fault self.now) }
    {
        if let Some(index) = first_leaving(self.file, self.names, &self.sections) {
            return Some(ElfFault::SectionBytes {
                index: index as u32,
            });
        }
        match first_compressed(self.names, &self.sections) {
            None => None,
            Some(index) => Some(ElfFault::Compressed {
                index: index as u32,
            }),
        }
    }
}

/// All section headers of a table that lies in the file.
#[tactic(auto, using(crate::proofs::TableLemmas::sections_none, crate::proofs::TableLemmas::sections_more))]
pub fn read_sections(
    alloc: Global,
    file: &[u8],
    table: usize,
    count: usize,
) -> Result<Vec<SectionHeader>, AllocError>
    requires { table + section_header_size * count ≤ length file.now }
    ensures { IfOk result (λ v. v.items ≡ sections_from file.now table count) }
{
    let mut sections = Vec::with_capacity(alloc, count)?;
    'headers: for k in 0..count {
        sections.push(read_section(file, table + SECTION_HEADER * k))?;
    }
    Ok(sections)
}

/// The bytes of the section with this index. `None` if there is no such section, or if it extends
/// past the end of the file.
pub fn content_at<'a>(file: &'a [u8], sections: &[SectionHeader], index: usize) -> Option<&'a [u8]>
    ensures { option_copied result ≡ option_and_then (content file.now) (slice_get sections.now index) }
{
    match sections.get(index) {
        None => None,
        Some(section) => read_content(file, section),
    }
}

fn is_past(section: &SectionHeader, table: &[u8], end: usize) -> bool
    requires { (at : ℕ) → is_none (string_at table.now at) ≡ nat_le end at }
    ensures { result ≡ is_none (string_at table.now section.now.name) }
{
    end <= section.name as usize
}

/// Whether some section's name is not zero-ended inside the table.
#[tactic(auto, unfolding(crate::specs::Strings::string_at))]
pub fn has_open_name(table: &[u8], sections: &[SectionHeader]) -> bool
    ensures { result ≡ list_any (λ s. is_none (string_at table.now s.name)) sections.now }
{
    let end = end_of_texts(table);
    sections.iter().any(|section| is_past(section, table, end))
}

fn first_leaving(file: &[u8], table: &[u8], sections: &[SectionHeader]) -> Option<usize>
    ensures { result ≡ position (leaves_file file.now table.now) sections.now }
{
    sections
        .iter()
        .position(|section| does_leave(file, table, section))
}

fn first_compressed(table: &[u8], sections: &[SectionHeader]) -> Option<usize>
    ensures { result ≡ position (is_compressed table.now) sections.now }
{
    sections
        .iter()
        .position(|section| is_compressed_section(table, section))
}
