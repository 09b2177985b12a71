//! Files that were loaded, by their own headers in memory.
ghost use Rattle.std.specs.Prelude.{◌≡◌, ◌+◌, ◌<◌, ◌≤◌, ◌^◌, length, find, IsTrue, IfOk, IfSome, Option};
ghost use Rattle.std.specs.Option.{option_copied, option_map};
ghost use Rattle.elf_sections.specs.ElfNumbers.{file_header_size};
ghost use Rattle.core_file.specs.LoadedImages.{page_down, page_up, is_load, is_file_header, headers_at, top, image_end, image_base, image_by, image_at, place_of};
ghost use Rattle.core_file.specs.internal.ImageViews.{image_view};

use crate::byte_list::{ByteList, stands_at};
use crate::constants::{
    EI_CLASS, EI_DATA, ELFCLASS64, ELFDATA2LSB, FILE_HEADER, PAGE, PROGRAM_HEADER, PT_LOAD,
};
use crate::front::Front;
use crate::header::read_header;
use crate::memory::ProcessMemory;
use crate::segments::{Segment, read_segments};
use std::alloc::Global;
use sym_edges::OutOfMemory;

/// A loaded file: the address that its headers give for its first loaded segment, and its program headers.
#[derive(Debug, Drop)]
pub struct Image {
    pub first: u64,
    pub headers: Vec<Segment>,
}

/// The start of the page of an address.
#[tactic(auto, unfolding(crate::specs::LoadedImages::page_down))]
pub fn page_down(a: u128) -> u128
    ensures exact { result ≡ page_down a }
    ensures below { result ≤ a }
{
    a / PAGE as u128 * PAGE as u128
}

/// The first start of a page at or above an address.
#[tactic(auto, unfolding(crate::specs::LoadedImages::page_up))]
pub fn page_up(a: u128) -> u128
    requires { a < 2 ^ 100 }
    ensures exact { result ≡ page_up a }
    ensures near { result ≤ a + 4095 }
{
    (a + (PAGE as u128 - 1)) / PAGE as u128 * PAGE as u128
}

#[tactic(auto, unfolding(crate::specs::LoadedImages::is_file_header))]
fn is_file_header<B: ByteList>(head: &B) -> bool
    ensures exact { result ≡ is_file_header (B.bytes head.now) }
    ensures long { IsTrue result → file_header_size ≤ length (B.bytes head.now) }
{
    if head.len() != FILE_HEADER {
        return false;
    }
    stands_at(head, 0, 4, b"\x7fELF")
        && (head.byte(EI_CLASS) == ELFCLASS64
            && (head.byte(EI_DATA) == ELFDATA2LSB
                && read_header(head).size as usize == PROGRAM_HEADER))
}

/// The program headers at an address, if all of them are in memory.
#[tactic(auto, using(crate::proofs::ImageLemmas::headers_past, crate::proofs::ImageLemmas::headers_cut, crate::proofs::ImageLemmas::headers_none, crate::proofs::ImageLemmas::headers_whole))]
fn read_headers(
    alloc: Global,
    memory: &ProcessMemory<'_>,
    start: u64,
) -> Result<Vec<Segment>, OutOfMemory>
    ensures { IfOk result (λ v. v.items ≡ headers_at memory.now start) }
{
    let head = Front::of(memory, start, FILE_HEADER as u64);
    if !is_file_header(&head) {
        return Ok(Vec::new(alloc));
    }
    let header = read_header(&head);
    let Some(at) = start.checked_add(header.table) else {
        return Ok(Vec::new(alloc));
    };
    let size = PROGRAM_HEADER * header.count as usize;
    let table = Front::of(memory, at, size as u64);
    if table.len() != size {
        return Ok(Vec::new(alloc));
    }
    read_segments(alloc, &table, 0, header.count as usize)
}

/// The greatest end of a loaded segment.
#[tactic(auto, using(crate::proofs::ImageLemmas::top_load, crate::proofs::ImageLemmas::top_other, crate::proofs::ImageLemmas::top_begin, crate::proofs::ImageLemmas::top_end))]
fn top(headers: &[Segment]) -> u128
    ensures exact { result ≡ top headers.now }
    ensures small { result < 2 ^ 66 }
{
    let mut top: u128 = 0;
    let mut rest = headers;
    'headers: while let Some((s, later)) = rest.split_first() {
        if s.kind == PT_LOAD {
            top = top.max(u128::from(s.address) + u128::from(s.memory_size));
        }
        rest = later;
    }
    top
}

impl Image {
    /// The end of a loaded file in whole pages, if it begins at an address.
    #[tactic(auto, unfolding(crate::specs::LoadedImages::image_end))]
    pub fn end(&self, start: u64) -> u128
        ensures { result ≡ image_end start (image_view self.now) }
    {
        let end = u128::from(start) + top(self.headers.as_slice());
        page_up(end.saturating_sub(page_down(u128::from(self.first))))
    }

    /// The address of its first loaded segment in the process; the addresses of its symbols count from there.
    #[tactic(auto, unfolding(crate::specs::LoadedImages::image_base))]
    pub fn base(&self, start: u64) -> u128
        ensures { result ≡ image_base start (image_view self.now) }
    {
        let first = u128::from(self.first);
        u128::from(start) + first - page_down(first)
    }

    /// Where a segment of a file was loaded, or none if that is below address 0.
    #[tactic(auto, unfolding(crate::specs::LoadedImages::place_of))]
    pub fn place(&self, start: u64, segment: &Segment) -> Option<u128>
        ensures { result ≡ place_of start (image_view self.now) segment.now }
    {
        let low = page_down(u128::from(self.first));
        let at = u128::from(start) + u128::from(segment.address);
        if low <= at { Some(at - low) } else { None }
    }
}

fn find_load(headers: &[Segment]) -> Option<&Segment>
    ensures { option_copied result ≡ find is_load headers.now }
{
    headers.iter().find(|s| s.kind == PT_LOAD)
}

/// The file with these headers, if it has a loaded segment and its end and its base are below 2^64.
fn image_of(start: u64, headers: Vec<Segment>) -> Option<Image>
    ensures image { option_map image_view result ≡ image_by start headers.items (find is_load headers.items) }
    ensures end { IfSome result (λ i. image_end start (image_view i) < 2 ^ 64) }
    ensures base { IfSome result (λ i. image_base start (image_view i) < 2 ^ 64) }
{
    let Some(load) = find_load(headers.as_slice()) else {
        return None;
    };
    let image = Image {
        first: load.address,
        headers,
    };
    if image.end(start) < 1 << 64 && image.base(start) < 1 << 64 {
        Some(image)
    } else {
        None
    }
}

/// The file that was loaded at an address, if its headers are in memory there.
#[tactic(auto, unfolding(crate::specs::LoadedImages::image_at))]
pub fn read_image(
    alloc: Global,
    memory: &ProcessMemory<'_>,
    start: u64,
) -> Result<Option<Image>, OutOfMemory>
    ensures image { IfOk result (λ image. option_map image_view image ≡ image_at memory.now start) }
    ensures end { IfOk result (λ image. IfSome image (λ i. image_end start (image_view i) < 2 ^ 64)) }
    ensures base { IfOk result (λ image. IfSome image (λ i. image_base start (image_view i) < 2 ^ 64)) }
{
    let headers = read_headers(alloc, memory, start)?;
    Ok(image_of(start, headers))
}
