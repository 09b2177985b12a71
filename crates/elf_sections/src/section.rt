//! Section headers (ELF64).
ghost use Rattle.std.specs.Prelude.{◌≡◌, ◌+◌, ◌≤◌, length, find, drop, nat_eq};
ghost use Rattle.std.specs.Option.{option_copied};
ghost use Rattle.std.specs.List.{starts_with};
ghost use Rattle.elf_sections.specs.Sections.{section_at, content, is_empty_kind, is_read_kind, is_read, leaves_file, is_compressed, has_flag};
ghost use Rattle.elf_sections.specs.ElfNumbers.{section_header_size};

use crate::constants::{
    SECTION_HEADER, SHF_COMPRESSED, SHT_DYNSYM, SHT_NOBITS, SHT_NOTE, SHT_NULL, SHT_STRTAB,
    SHT_SYMTAB,
};
use crate::numbers::{read_u32, read_u64};

/// The fields of a section header that are read.
#[derive(Clone, Copy, Debug)]
pub struct SectionHeader {
    /// `sh_name`
    pub name: u32,
    /// `sh_type`
    pub kind: u32,
    /// `sh_flags`
    pub flags: u64,
    /// `sh_addr`
    pub address: u64,
    /// `sh_offset`
    pub offset: u64,
    /// `sh_size`
    pub size: u64,
    /// `sh_link`
    pub link: u32,
}

#[tactic(auto, unfolding(crate::specs::Sections::section_at))]
pub fn read_section(file: &[u8], at: usize) -> SectionHeader
    requires { at + section_header_size ≤ length file.now }
    ensures { result ≡ section_at file.now at }
{
    SectionHeader {
        name: read_u32(file, at),
        kind: read_u32(file, at + 4),
        flags: read_u64(file, at + 8),
        address: read_u64(file, at + 16),
        offset: read_u64(file, at + 24),
        size: read_u64(file, at + 32),
        link: read_u32(file, at + 40),
    }
}

/// The bytes of a section, or `None` if they extend past the end of the file.
#[tactic(auto, unfolding(crate::specs::Sections::content, crate::specs::Sections::is_empty_kind))]
pub fn read_content<'a>(file: &'a [u8], section: &SectionHeader) -> Option<&'a [u8]>
    ensures { option_copied result ≡ content file.now section.now }
{
    if section.kind == SHT_NULL || section.kind == SHT_NOBITS {
        return Some(&[]);
    }
    let len = file.len() as u64;
    if section.offset <= len && section.size <= len - section.offset {
        let rest = file.split_at(section.offset as usize).1;
        Some(rest.split_at(section.size as usize).0)
    } else {
        None
    }
}

/// Whether `front` is in the table of names at this place.
pub fn begins(table: &[u8], at: u32, front: &[u8]) -> bool
    ensures { result ≡ starts_with nat_eq (drop at table.now) front.now }
{
    let at = at as usize;
    if at <= table.len() {
        table.split_at(at).1.starts_with(front)
    } else {
        let none: &[u8] = &[];
        none.starts_with(front)
    }
}

/// The first section with this zero-ended name.
pub fn find_named<'s>(
    sections: &'s [SectionHeader],
    names: &[u8],
    ended: &[u8],
) -> Option<&'s SectionHeader>
    ensures { option_copied result ≡ find (λ s. starts_with nat_eq (drop s.name names.now) ended.now) sections.now }
{
    sections
        .iter()
        .find(|section| begins(names, section.name, ended))
}

#[tactic(auto, unfolding(crate::specs::Sections::is_read_kind))]
fn is_read_for_kind(section: &SectionHeader) -> bool
    ensures { result ≡ is_read_kind section.now }
{
    let kind = section.kind;
    kind == SHT_SYMTAB || (kind == SHT_DYNSYM || (kind == SHT_STRTAB || kind == SHT_NOTE))
}

/// Whether the section is read, because of its type or its name.
#[tactic(auto, unfolding(crate::specs::Sections::is_read, crate::specs::Sections::is_named))]
pub fn is_section_read(table: &[u8], section: &SectionHeader) -> bool
    ensures { result ≡ is_read table.now section.now }
{
    let name = section.name;
    is_read_for_kind(section)
        || (begins(table, name, b".debug_info\0")
            || (begins(table, name, b".debug_abbrev\0")
                || (begins(table, name, b".debug_line\0")
                    || (begins(table, name, b".debug_line_str\0")
                        || (begins(table, name, b".debug_str\0")
                            || (begins(table, name, b".debug_str_offsets\0")
                                || (begins(table, name, b".debug_addr\0")
                                    || (begins(table, name, b".debug_ranges\0")
                                        || (begins(table, name, b".debug_rnglists\0")
                                            || (begins(table, name, b".debug_frame\0")
                                                || (begins(table, name, b".eh_frame\0")
                                                    || begins(table, name, b".text\0"))))))))))))
}

#[tactic(auto, unfolding(crate::specs::Sections::leaves_file))]
pub fn does_leave(file: &[u8], table: &[u8], section: &SectionHeader) -> bool
    ensures { result ≡ leaves_file file.now table.now section.now }
{
    is_section_read(table, section) && read_content(file, section).is_none()
}

#[tactic(auto, unfolding(crate::specs::Sections::is_compressed, crate::specs::Sections::is_named_from))]
pub fn is_compressed_section(table: &[u8], section: &SectionHeader) -> bool
    ensures { result ≡ is_compressed table.now section.now }
{
    (is_section_read(table, section) && section.flags & SHF_COMPRESSED != 0)
        || begins(table, section.name, b".zdebug_")
}
