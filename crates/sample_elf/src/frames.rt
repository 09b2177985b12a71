//! The frame entries.
ghost use Rattle.std.specs.Prelude.{◌≡◌, ◌<◌, ◌≤◌, ◌*◌, ◌++◌, OnOk, IfOk, ◌==◌, ◌%◌, if◌then◌else◌};
ghost use Rattle.sample_elf.specs.Made.{usual, bad, frame_entry, unit_frames, frames};

use crate::pieces::put_all;
use std::alloc::Global;
use sym_edges::OutOfMemory;

/// The CIE of all entries.
const COMMON_ENTRY: [u8; 24] = [
    20, 0, 0, 0, 0, 0, 0, 0, 1, 0x7a, 0x52, 0, 1, 0x78, 16, 1, 0x1b, 0x0c, 7, 8, 0x90, 1, 0, 0,
];

/// Adds an entry with its instructions.
#[tactic(auto, unfolding(crate::specs::Made::frame_entry))]
fn put_entry(bytes: &mut Vec<u8>, n: u32, j: u32, instructions: &[u8]) -> Result<(), OutOfMemory>
    requires few { n ≤ 20000 }
    requires inside { j < 2 * n }
    ensures { OnOk result (bytes.new.items ≡ bytes.old.items ++ frame_entry n j instructions.now) }
{
    let n = u64::from(n);
    let j = u64::from(j);
    let way = (1_u64 << 32) + 32 * j - (64 * n + 24 + 24 * j + 8);
    put_all(
        bytes,
        &[
            &20_u32.to_le_bytes(),
            &((28 + 24 * j) as u32).to_le_bytes(),
            &(way as u32).to_le_bytes(),
            &32_u32.to_le_bytes(),
            instructions,
        ],
    )
}

/// The instructions of a unit's second entry, which are bad in every tenth unit.
fn second_of(k: u32) -> &'static [u8]
    ensures { result.now ≡ (if k % 10 == 9 then bad else usual) }
{
    if k % 10 == 9 {
        return &[0, 0x0b, 0, 0, 0, 0, 0, 0];
    }
    &[0, 0x41, 0x0e, 16, 0x86, 2, 0, 0]
}

/// Adds the entries of a unit.
#[tactic(auto, using(crate::proofs::PieceLemmas::both), unfolding(crate::specs::Made::unit_frames))]
fn put_frames(bytes: &mut Vec<u8>, n: u32, k: u32) -> Result<(), OutOfMemory>
    requires few { n ≤ 20000 }
    requires inside { k < n }
    ensures { OnOk result (bytes.new.items ≡ bytes.old.items ++ unit_frames n k) }
{
    put_entry(bytes, n, 2 * k, &[0, 0x41, 0x0e, 16, 0x86, 2, 0, 0])?;
    put_entry(bytes, n, 2 * k + 1, second_of(k))
}

/// `.eh_frame`.
#[tactic(auto, using(crate::proofs::PieceLemmas::no_pieces, crate::proofs::PieceLemmas::ended), unfolding(crate::specs::Made::frames, crate::specs::Made::common_entry))]
pub fn make_frames(alloc: Global, n: u32) -> Result<Vec<u8>, OutOfMemory>
    requires few { n ≤ 20000 }
    ensures { IfOk result (λ bytes. bytes.items ≡ frames n) }
{
    let mut bytes = Vec::from_slice(alloc, &COMMON_ENTRY)?;
    'units: for k in 0..n {
        put_frames(&mut bytes, n, k)?;
    }
    bytes.extend_from_slice(&[0, 0, 0, 0])?;
    Ok(bytes)
}
