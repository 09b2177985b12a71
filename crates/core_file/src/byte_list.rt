//! Lists of bytes that are read by place, and numbers at a place, with the lowest byte first.
ghost use Rattle.std.specs.Prelude.{◌≡◌, ℕ, ◌+◌, ◌<◌, ◌≤◌, List, length, slice_index, take, drop, IfOk};
ghost use Rattle.std.specs.Str.{bytes_eq};
ghost use Rattle.elf_sections.specs.Numbers.{u16_at, u32_at, u64_at};

use std::alloc::Global;
use sym_edges::OutOfMemory;

/// A list of bytes.
pub trait ByteList {
    ghost bytes: { Self → List ℕ };

    /// How many bytes there are.
    fn len(&self) -> usize
        ensures { result ≡ length (bytes self.now) };

    /// The byte at a place.
    fn byte(&self, at: usize) -> u8
        requires { at < length (bytes self.now) }
        ensures { result ≡ slice_index (bytes self.now) at };
}

#[tactic(auto, unfolding(elf_sections::specs::Numbers::u16_at, leb_cursor::specs::Readings::fixed_sum))]
pub fn read_u16<B: ByteList>(list: &B, at: usize) -> u16
    requires { at + 2 ≤ length (B.bytes list.now) }
    ensures { result ≡ u16_at (B.bytes list.now) at }
{
    let _len = list.len();
    u16::from_le_bytes([list.byte(at), list.byte(at + 1)])
}

#[tactic(auto, unfolding(elf_sections::specs::Numbers::u32_at, leb_cursor::specs::Readings::fixed_sum))]
pub fn read_u32<B: ByteList>(list: &B, at: usize) -> u32
    requires { at + 4 ≤ length (B.bytes list.now) }
    ensures { result ≡ u32_at (B.bytes list.now) at }
{
    let _len = list.len();
    u32::from_le_bytes([
        list.byte(at),
        list.byte(at + 1),
        list.byte(at + 2),
        list.byte(at + 3),
    ])
}

#[tactic(auto, unfolding(elf_sections::specs::Numbers::u64_at, leb_cursor::specs::Readings::fixed_sum))]
pub fn read_u64<B: ByteList>(list: &B, at: usize) -> u64
    requires { at + 8 ≤ length (B.bytes list.now) }
    ensures { result ≡ u64_at (B.bytes list.now) at }
{
    let _len = list.len();
    u64::from_le_bytes([
        list.byte(at),
        list.byte(at + 1),
        list.byte(at + 2),
        list.byte(at + 3),
        list.byte(at + 4),
        list.byte(at + 5),
        list.byte(at + 6),
        list.byte(at + 7),
    ])
}

/// Whether the `len` bytes at a place are this text.
#[tactic(auto, using(crate::proofs::ByteLemmas::other_length, crate::proofs::ByteLemmas::front_more, crate::proofs::ByteLemmas::other_byte, crate::proofs::ByteLemmas::all_bytes_same))]
pub fn stands_at<B: ByteList>(list: &B, at: usize, len: usize, text: &[u8]) -> bool
    requires { at + len ≤ length (B.bytes list.now) }
    ensures { result ≡ bytes_eq (take len (drop at (B.bytes list.now))) text.now }
{
    let _len = list.len();
    if len != text.len() {
        return false;
    }
    for (i, b) in text.iter().enumerate() {
        if list.byte(at + i) != *b {
            return false;
        }
    }
    true
}

/// A copy of this many bytes from a place on.
#[tactic(auto, using(crate::proofs::ByteLemmas::copy_more))]
pub fn copy<B: ByteList>(
    alloc: Global,
    list: &B,
    at: usize,
    size: usize,
) -> Result<Vec<u8>, OutOfMemory>
    requires { at + size ≤ length (B.bytes list.now) }
    ensures { IfOk result (λ v. v.items ≡ take size (drop at (B.bytes list.now))) }
{
    let _len = list.len();
    let mut bytes = Vec::with_capacity(alloc, size)?;
    'bytes: for i in 0..size {
        bytes.push(list.byte(at + i))?;
    }
    Ok(bytes)
}
