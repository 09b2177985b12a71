//! The file header (ELF64).
ghost use Rattle.std.specs.Prelude.{◌≡◌, ◌≤◌, ◌+◌, ◌*◌, ℕ, nat_le, None, Some, length, MatchResult, IfOk, OnOk, IsTrue};
ghost use Rattle.elf_sections.specs.FileHeader.{header_of, header_fault, sup_header_fault, machine_fault, ident_fault, section_table_fault, has_sections};
ghost use Rattle.elf_sections.specs.ElfNumbers.{file_header_size, section_header_size};

use crate::constants::{
    EI_CLASS, EI_DATA, ELFCLASS64, ELFDATA2LSB, EM_X86_64, ET_DYN, ET_EXEC, FILE_HEADER,
    SECTION_HEADER, SHN_LORESERVE,
};
use crate::fault::ElfFault;
use crate::numbers::{read_u16, read_u64};

/// The fields of the file header that are read.
#[derive(Clone, Copy, Debug)]
pub struct FileHeader {
    /// `e_phoff`
    pub program_table: u64,
    /// `e_shoff`
    pub section_table: u64,
    /// `e_phentsize`
    pub program_size: u16,
    /// `e_phnum`
    pub program_count: u16,
    /// `e_shentsize`
    pub section_size: u16,
    /// `e_shnum`
    pub section_count: u16,
    /// `e_shstrndx`
    pub names_index: u16,
}

/// The file header of an ELF64 x86-64 executable or shared object whose section header table lies in the file.
#[tactic(auto, unfolding(crate::specs::FileHeader::header_fault))]
pub fn read_header(file: &[u8]) -> Result<FileHeader, ElfFault>
    ensures read { MatchResult result
        (λ header. (header_fault file.now ≡ None) × (header ≡ header_of file.now))
        (λ fault. header_fault file.now ≡ Some fault) }
    ensures fits { IfOk result (λ header. header.section_table + section_header_size * header.section_count ≤ length file.now) }
    ensures long { OnOk result (file_header_size ≤ length file.now) }
{
    if let Some(fault) = find_ident_fault(file) {
        return Err(fault);
    }
    header_with_sections(file)
}

/// The file header of a supplementary file. The conditions are those of `read_header`, but the file
/// may be of any type.
#[tactic(auto, unfolding(crate::specs::FileHeader::sup_header_fault))]
pub fn read_sup_header(file: &[u8]) -> Result<FileHeader, ElfFault>
    ensures read { MatchResult result
        (λ header. (sup_header_fault file.now ≡ None) × (header ≡ header_of file.now))
        (λ fault. sup_header_fault file.now ≡ Some fault) }
    ensures fits { IfOk result (λ header. header.section_table + section_header_size * header.section_count ≤ length file.now) }
{
    if let Some(fault) = find_machine_fault(file) {
        return Err(fault);
    }
    header_with_sections(file)
}

/// The fields of the file header, or the fault `SectionTable` if its section header table does not
/// lie in the file.
#[tactic(auto, unfolding(crate::specs::FileHeader::section_table_fault))]
fn header_with_sections(file: &[u8]) -> Result<FileHeader, ElfFault>
    requires { file_header_size ≤ length file.now }
    ensures read { MatchResult result
        (λ header. (section_table_fault file.now ≡ None) × (header ≡ header_of file.now))
        (λ fault. section_table_fault file.now ≡ Some fault) }
    ensures fits { IfOk result (λ header. header.section_table + section_header_size * header.section_count ≤ length file.now) }
{
    let header = header_in(file);
    if section_table_fits(&header, file.len()) {
        Ok(header)
    } else {
        Err(ElfFault::SectionTable)
    }
}

#[tactic(auto, unfolding(crate::specs::FileHeader::ident_fault, crate::specs::FileHeader::is_other_kind, crate::specs::FileHeader::type_of))]
fn find_ident_fault(file: &[u8]) -> Option<ElfFault>
    ensures first { result ≡ ident_fault file.now }
    ensures long { result ≡ None → file_header_size ≤ length file.now }
{
    if let Some(fault) = find_machine_fault(file) {
        return Some(fault);
    }
    let kind = read_u16(file, 16);
    if !(kind == ET_EXEC || kind == ET_DYN) {
        return Some(ElfFault::Kind);
    }
    None
}

#[tactic(auto, unfolding(crate::specs::FileHeader::machine_fault, crate::specs::FileHeader::is_not_elf, crate::specs::FileHeader::machine_of))]
fn find_machine_fault(file: &[u8]) -> Option<ElfFault>
    ensures first { result ≡ machine_fault file.now }
    ensures long { result ≡ None → file_header_size ≤ length file.now }
{
    if file.len() < FILE_HEADER || file.split_at(4).0 != b"\x7fELF".as_slice() {
        return Some(ElfFault::NotElf);
    }
    if file[EI_CLASS] != ELFCLASS64 {
        return Some(ElfFault::Class);
    }
    if file[EI_DATA] != ELFDATA2LSB {
        return Some(ElfFault::Order);
    }
    if read_u16(file, 18) != EM_X86_64 {
        return Some(ElfFault::Machine);
    }
    None
}

#[tactic(auto, unfolding(crate::specs::FileHeader::header_of))]
fn header_in(file: &[u8]) -> FileHeader
    requires { file_header_size ≤ length file.now }
    ensures { result ≡ header_of file.now }
{
    FileHeader {
        program_table: read_u64(file, 32),
        section_table: read_u64(file, 40),
        program_size: read_u16(file, 54),
        program_count: read_u16(file, 56),
        section_size: read_u16(file, 58),
        section_count: read_u16(file, 60),
        names_index: read_u16(file, 62),
    }
}

/// Whether `count` entries of `size` bytes from `start` lie in a file of `len` bytes.
pub fn table_fits(start: u64, size: usize, count: u16, len: usize) -> bool
    requires { size ≤ 64 }
    ensures { result ≡ nat_le (start + size * count) len }
{
    start <= len as u64 && size * count as usize <= len - start as usize
}

#[tactic(auto, unfolding(crate::specs::FileHeader::has_sections))]
fn section_table_fits(header: &FileHeader, len: usize) -> bool
    ensures exact { result ≡ has_sections header.now len }
    ensures fits { IsTrue result → header.now.section_table + section_header_size * header.now.section_count ≤ len }
{
    (header.section_table > 0 && (header.section_count > 0 && header.section_count < SHN_LORESERVE))
        && (header.section_size as usize == SECTION_HEADER
            && table_fits(
                header.section_table,
                SECTION_HEADER,
                header.section_count,
                len,
            ))
}
