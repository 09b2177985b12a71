//! Program headers (ELF64), and the base: the address of the first loaded segment.
ghost use Rattle.std.specs.Prelude.{◌≡◌, ◌+◌, ◌*◌, ◌<◌, ◌≤◌, IsTrue, ◌==◌, None, Some, MatchResult, length, find};
ghost use Rattle.std.specs.Option.{option_map_or};
ghost use Rattle.elf_sections.specs.FileHeader.{header_of};
ghost use Rattle.elf_sections.specs.Programs.{program_at, programs_from, loaded_address, program_fault, has_programs, base};
ghost use Rattle.elf_sections.specs.ElfNumbers.{program_header_size, pt_load};

use crate::constants::{PROGRAM_HEADER, PT_LOAD};
use crate::fault::ElfFault;
use crate::header::{FileHeader, table_fits};
use crate::numbers::{read_u32, read_u64};
use crate::tables::Tables;

/// The fields of a program header that are read.
#[derive(Clone, Copy, Debug)]
pub struct ProgramHeader {
    /// `p_type`
    pub kind: u32,
    /// `p_vaddr`
    pub address: u64,
}

#[tactic(auto, unfolding(crate::specs::Programs::program_at))]
fn read_program(file: &[u8], at: usize) -> ProgramHeader
    requires { at + program_header_size ≤ length file.now }
    ensures { result ≡ program_at file.now at }
{
    ProgramHeader {
        kind: read_u32(file, at),
        address: read_u64(file, at + 16),
    }
}

/// The address of the first loaded segment of a program header table, or 0 if there is none. The
/// table must lie in the file unless it is empty.
#[tactic(auto, using(crate::proofs::ProgramLemmas::address_found, crate::proofs::ProgramLemmas::address_passed, crate::proofs::ProgramLemmas::address_none))]
fn find_loaded(file: &[u8], table: usize, count: usize) -> u64
    requires { 0 < count → table + program_header_size * count ≤ length file.now }
    ensures { result ≡ loaded_address (programs_from file.now table 0 count) }
{
    'headers: for k in 0..count {
        let program = read_program(file, table + PROGRAM_HEADER * k);
        if program.kind == PT_LOAD {
            return program.address;
        }
    }
    0
}

#[tactic(auto, unfolding(crate::specs::Programs::has_programs))]
fn program_table_fits(header: &FileHeader, len: usize) -> bool
    ensures exact { result ≡ has_programs header.now len }
    ensures fits { IsTrue result → 0 < header.now.program_count
        → header.now.program_table + program_header_size * header.now.program_count ≤ len }
{
    header.program_count == 0
        || (header.program_size as usize == PROGRAM_HEADER
            && table_fits(
                header.program_table,
                PROGRAM_HEADER,
                header.program_count,
                len,
            ))
}

/// The base of a file, or its fault if its program header table cannot be read.
#[tactic(auto, unfolding(crate::specs::Programs::program_fault, crate::specs::Programs::base, crate::specs::Programs::has_programs, crate::specs::Programs::programs))]
pub fn read_base(tables: &Tables<'_>) -> Result<u64, ElfFault>
    ensures { MatchResult result
        (λ address. (program_fault tables.now ≡ None) × (address ≡ base tables.now))
        (λ fault. program_fault tables.now ≡ Some fault) }
{
    let header = tables.header();
    let file = tables.file();
    if !program_table_fits(&header, file.len()) {
        return Err(ElfFault::ProgramTable);
    }
    Ok(find_loaded(
        file,
        header.program_table as usize,
        header.program_count as usize,
    ))
}
