//! The data of a compressed section.
ghost use Rattle.std.specs.Prelude.{◌≡◌, ◌≤◌, length};
ghost use Rattle.std.specs.Int.{from_be_bytes, w64};
ghost use Rattle.std.specs.Option.{option_map};
ghost use Rattle.elf_sections.specs.Numbers.{u32_at, u64_at};
ghost use Rattle.full_image.specs.Compressed.{behind_header, behind_magic, stream_in, stream_of};
ghost use Rattle.full_image.specs.StreamView.{stream_view};

use crate::names::{is_flagged, is_packed};
use elf_sections::{SectionHeader, read_content};

/// The size in bytes of an `Elf64_Chdr`: `ch_type`, a reserved word, `ch_size` and `ch_addralign`.
const COMPRESSION_HEADER: usize = 24;

/// `ELFCOMPRESS_ZLIB`
const ELFCOMPRESS_ZLIB: u32 = 1;

/// Data that zlib compressed, and the size to which it should inflate.
#[derive(Clone, Copy, Debug)]
pub struct Stream<'a> {
    pub bytes: &'a [u8],
    pub size: u64,
}

/// The number in the first four bytes.
#[tactic(auto, unfolding(elf_sections::specs::Numbers::u32_at, leb_cursor::specs::Readings::fixed_sum))]
fn front_u32(bytes: &[u8]) -> u32
    requires { 4 ≤ length bytes.now }
    ensures { result ≡ u32_at bytes.now 0 }
{
    u32::from_le_bytes([bytes[0], bytes[1], bytes[2], bytes[3]])
}

/// The number in the second eight bytes.
#[tactic(auto, unfolding(elf_sections::specs::Numbers::u64_at, leb_cursor::specs::Readings::fixed_sum))]
fn second_u64(bytes: &[u8]) -> u64
    requires { 16 ≤ length bytes.now }
    ensures { result ≡ u64_at bytes.now 8 }
{
    let field = bytes.split_at(8).1;
    u64::from_le_bytes([
        field[0], field[1], field[2], field[3], field[4], field[5], field[6], field[7],
    ])
}

/// The number in the first eight bytes, with the highest byte first.
fn front_high_u64(bytes: &[u8]) -> u64
    requires { 8 ≤ length bytes.now }
    ensures { result ≡ from_be_bytes w64 bytes.now }
{
    u64::from_be_bytes([
        bytes[0], bytes[1], bytes[2], bytes[3], bytes[4], bytes[5], bytes[6], bytes[7],
    ])
}

/// The data after a compression header, or `None` if the header does not fit or is not that of
/// zlib.
#[tactic(auto, unfolding(crate::specs::Compressed::behind_header))]
fn behind_header(content: &[u8]) -> Option<Stream<'_>>
    ensures { option_map stream_view result ≡ behind_header content.now }
{
    if content.len() < COMPRESSION_HEADER || front_u32(content) != ELFCOMPRESS_ZLIB {
        return None;
    }
    Some(Stream {
        bytes: content.split_at(COMPRESSION_HEADER).1,
        size: second_u64(content),
    })
}

/// The data after `ZLIB` and its size, or `None` if these are not there.
#[tactic(auto, unfolding(crate::specs::Compressed::behind_magic))]
fn behind_magic(content: &[u8]) -> Option<Stream<'_>>
    ensures { option_map stream_view result ≡ behind_magic content.now }
{
    if content.len() < 12 || content.split_at(4).0 != b"ZLIB".as_slice() {
        return None;
    }
    Some(Stream {
        bytes: content.split_at(12).1,
        size: front_high_u64(content.split_at(4).1),
    })
}

/// The data of a compressed section, after the header that its form has.
#[tactic(auto, unfolding(crate::specs::Compressed::stream_in, elf_sections::specs::Sections::bytes_of))]
pub fn stream_in<'a>(file: &'a [u8], section: &SectionHeader) -> Option<Stream<'a>>
    ensures { option_map stream_view result ≡ stream_in file.now section.now }
{
    let content = read_content(file, section).unwrap_or(&[]);
    if is_flagged(section) {
        behind_header(content)
    } else {
        behind_magic(content)
    }
}

/// The data of a section, if it is compressed.
#[tactic(auto, unfolding(crate::specs::Compressed::stream_of))]
pub fn stream_of<'a>(file: &'a [u8], table: &[u8], section: &SectionHeader) -> Option<Stream<'a>>
    ensures { option_map stream_view result ≡ stream_of file.now table.now section.now }
{
    if is_packed(table, section) {
        stream_in(file, section)
    } else {
        None
    }
}
