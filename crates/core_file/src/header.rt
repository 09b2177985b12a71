//! The file header (ELF64).
ghost use Rattle.std.specs.Prelude.{◌≡◌, ◌≤◌, ◌<◌, ◌+◌, ◌*◌, None, Some, length, IsTrue, IfOk, MatchResult};
ghost use Rattle.elf_sections.specs.ElfNumbers.{file_header_size, program_header_size};
ghost use Rattle.elf_sections.specs.FileHeader.{header_of};
ghost use Rattle.core_file.specs.CoreHeader.{ident_fault, has_segments, header_fault};

use crate::byte_list::{ByteList, read_u16, read_u64, stands_at};
use crate::constants::{
    EI_CLASS, EI_DATA, ELFCLASS64, ELFDATA2LSB, EM_X86_64, ET_CORE, FILE_HEADER, PN_XNUM,
    PROGRAM_HEADER,
};
use crate::fault::CoreFault;
use crate::held::HeldBytes;

/// What a file header says of the program headers.
#[derive(Clone, Copy, Debug)]
pub struct Header {
    /// `e_phoff`
    pub table: u64,
    /// `e_phentsize`
    pub size: u16,
    /// `e_phnum`
    pub count: u16,
}

#[tactic(auto, unfolding(elf_sections::specs::FileHeader::header_of))]
pub fn read_header<B: ByteList>(list: &B) -> Header
    requires { file_header_size ≤ length (B.bytes list.now) }
    ensures table { result.table ≡ (header_of (B.bytes list.now)).program_table }
    ensures size { result.size ≡ (header_of (B.bytes list.now)).program_size }
    ensures count { result.count ≡ (header_of (B.bytes list.now)).program_count }
{
    Header {
        table: read_u64(list, 32),
        size: read_u16(list, 54),
        count: read_u16(list, 56),
    }
}

#[tactic(auto, unfolding(crate::specs::CoreHeader::ident_fault, elf_sections::specs::FileHeader::is_not_elf, elf_sections::specs::FileHeader::type_of, elf_sections::specs::FileHeader::machine_of))]
fn find_ident_fault(file: &HeldBytes) -> Option<CoreFault>
    ensures first { result ≡ ident_fault file.now }
    ensures long { result ≡ None → file_header_size ≤ length file.now }
{
    if file.len() < FILE_HEADER || !stands_at(file, 0, 4, b"\x7fELF") {
        return Some(CoreFault::NotElf);
    }
    if file.byte(EI_CLASS) != ELFCLASS64 {
        return Some(CoreFault::Class);
    }
    if file.byte(EI_DATA) != ELFDATA2LSB {
        return Some(CoreFault::Order);
    }
    if read_u16(file, 18) != EM_X86_64 {
        return Some(CoreFault::Machine);
    }
    if read_u16(file, 16) != ET_CORE {
        return Some(CoreFault::Kind);
    }
    None
}

#[tactic(auto, unfolding(crate::specs::CoreHeader::has_segments, elf_sections::specs::Programs::has_programs))]
fn has_segments(file: &HeldBytes, header: Header) -> bool
    requires table { header.table ≡ (header_of file.now).program_table }
    requires size { header.size ≡ (header_of file.now).program_size }
    requires count { header.count ≡ (header_of file.now).program_count }
    ensures exact { result ≡ has_segments file.now }
    ensures fits { IsTrue result → 0 < header.count → header.table + program_header_size * header.count ≤ length file.now }
{
    let end = u128::from(header.table) + PROGRAM_HEADER as u128 * u128::from(header.count);
    (header.count == 0 || (header.size as usize == PROGRAM_HEADER && end <= file.len() as u128))
        && header.count != PN_XNUM
}

/// The file header of a core file, if its program header table lies in the file.
#[tactic(auto, unfolding(crate::specs::CoreHeader::header_fault))]
pub fn find_header(file: &HeldBytes) -> Result<Header, CoreFault>
    ensures read { MatchResult result
        (λ header. (header_fault file.now ≡ None) × (header.table ≡ (header_of file.now).program_table) × (header.count ≡ (header_of file.now).program_count))
        (λ fault. header_fault file.now ≡ Some fault) }
    ensures fits { IfOk result (λ header. 0 < header.count → header.table + program_header_size * header.count ≤ length file.now) }
{
    if let Some(fault) = find_ident_fault(file) {
        return Err(fault);
    }
    let header = read_header(file);
    if has_segments(file, header) {
        Ok(header)
    } else {
        Err(CoreFault::ProgramTable)
    }
}
