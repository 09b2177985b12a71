//! The segments of a file, by its program headers (ELF64).
ghost use Rattle.std.specs.Prelude.{◌≡◌, ◌+◌, ◌*◌, ◌<◌, ◌≤◌, length, position, IfOk, IfSome};
ghost use Rattle.elf_sections.specs.ElfNumbers.{program_header_size};
ghost use Rattle.core_file.specs.Segments.{segment_at, segments_from, is_bad};

use crate::byte_list::{ByteList, read_u32, read_u64};
use crate::constants::{PROGRAM_HEADER, PT_LOAD, PT_NOTE};
use crate::held::HeldBytes;
use std::alloc::Global;
use sym_edges::OutOfMemory;

/// The fields of a program header that are read.
#[derive(Clone, Copy, Debug, PartialEq, Eq)]
pub struct Segment {
    /// `p_type`
    pub kind: u32,
    /// `p_flags`
    pub flags: u32,
    /// `p_offset`
    pub offset: u64,
    /// `p_vaddr`
    pub address: u64,
    /// `p_filesz`
    pub file_size: u64,
    /// `p_memsz`
    pub memory_size: u64,
}

#[tactic(auto, unfolding(crate::specs::Segments::segment_at))]
fn read_segment<B: ByteList>(list: &B, at: usize) -> Segment
    requires { at + program_header_size ≤ length (B.bytes list.now) }
    ensures { result ≡ segment_at (B.bytes list.now) at }
{
    let _len = list.len();
    Segment {
        kind: read_u32(list, at),
        flags: read_u32(list, at + 4),
        offset: read_u64(list, at + 8),
        address: read_u64(list, at + 16),
        file_size: read_u64(list, at + 32),
        memory_size: read_u64(list, at + 40),
    }
}

/// The first program headers of a table. A table that is not empty lies in the list.
#[tactic(auto, using(crate::proofs::SegmentLemmas::segments_none, crate::proofs::SegmentLemmas::segments_more))]
pub fn read_segments<B: ByteList>(
    alloc: Global,
    list: &B,
    table: usize,
    count: usize,
) -> Result<Vec<Segment>, OutOfMemory>
    requires { 0 < count → table + program_header_size * count ≤ length (B.bytes list.now) }
    ensures { IfOk result (λ v. v.items ≡ segments_from (B.bytes list.now) table count) }
{
    let _len = list.len();
    let mut segments = Vec::with_capacity(alloc, count)?;
    'headers: for k in 0..count {
        segments.push(read_segment(list, table + PROGRAM_HEADER * k))?;
    }
    Ok(segments)
}

/// Whether it is a segment of notes that extends past the end of the file, or a loaded one whose bytes extend past the last address.
#[tactic(auto, unfolding(crate::specs::Segments::is_bad))]
fn is_bad(file: &HeldBytes, segment: &Segment) -> bool
    ensures { result ≡ is_bad file.now segment.now }
{
    let size = u128::from(segment.file_size);
    (segment.kind == PT_NOTE && u128::from(segment.offset) + size > file.len() as u128)
        || (segment.kind == PT_LOAD && u128::from(segment.address) + size > 1 << 64)
}

pub fn find_bad(file: &HeldBytes, segments: &[Segment]) -> Option<usize>
    ensures first { result ≡ position (is_bad file.now) segments.now }
    ensures within { IfSome result (λ index. index < length segments.now) }
{
    segments.iter().position(|segment| is_bad(file, segment))
}
