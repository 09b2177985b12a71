//! Where spaces end in a section.
ghost use Rattle.std.specs.Prelude.{◌≡◌, ℕ, ◌≤◌, ◌<◌, ◌+◌, ◌*◌, not, false, length, slice_index, IfOk};
ghost use Rattle.std.specs.List.{position_or_len};
ghost use Rattle.clean_names.specs.Names.{is_space};
ghost use Rattle.text_table.specs.Ends.{spaces_end, AreEnds};

use clean_names::unspaced;
use std::alloc::{AllocError, Global};
use std::marker::Model;

/// The number of bytes of a block.
const BLOCK: usize = 4096;

/// The number of leading spaces.
#[tactic(auto, using(crate::proofs::EndLemmas::spaces_passed, crate::proofs::EndLemmas::skip_less))]
pub fn count_spaces(bytes: &[u8]) -> usize
    ensures { result ≡ position_or_len (λ b. not (is_space b)) bytes.now }
{
    bytes.len() - unspaced(bytes).len()
}

/// Where the spaces from a place on end.
#[tactic(auto, using(crate::proofs::EndLemmas::span_within), unfolding(crate::specs::Ends::spaces_end))]
fn find_end(bytes: &[u8], at: usize) -> usize
    requires { at ≤ length bytes.now }
    ensures end { result ≡ spaces_end bytes.now at }
    ensures order { at ≤ result }
    ensures inside { result ≤ length bytes.now }
{
    at + count_spaces(bytes.split_at(at).1)
}

/// A section, and for the start of each of its blocks where the spaces from there on end. So the search for the end of spaces passes at most one
/// block.
#[derive(Drop)]
pub struct SpaceEnds<'a> {
    bytes: &'a [u8],
    block: usize,
    ends: Vec<usize>,
}

impl<'a> Model for SpaceEnds<'a> {
    ghost use Rattle.std.specs.Prelude.{List, ℕ};
    ghost use Rattle.text_table.specs.Ends.{AreEnds};

    ghost Value = { List ℕ };

    ghost view = { λ s. s.bytes.now };

    ghost invariant = { λ s. AreEnds s.bytes.now s.block s.ends.items };
}

/// For the start of each block, where the spaces from there on end.
#[tactic(auto, using(crate::proofs::EndLemmas::end_again))]
fn find_ends(alloc: Global, bytes: &[u8], block: usize) -> Result<Vec<usize>, AllocError>
    requires some { 0 < block }
    requires small { block ≤ 32768 }
    ensures { IfOk result (λ ends. AreEnds bytes.now block ends.items) }
{
    let count = bytes.len() / block + 1;
    let mut ends = Vec::with_capacity(alloc, count)?;
    let mut end = find_end(bytes, 0);
    'starts: for k in 0..count {
        let start = k * block;
        if end < start {
            end = find_end(bytes, start);
        }
        ends.push(end)?;
    }
    Ok(ends)
}

/// Whether spaces reach from the start of some block to the start of the next one.
#[tactic(auto, using(crate::proofs::EndLemmas::near_so_far))]
fn are_far(ends: &[usize], block: usize) -> bool
    requires { 0 < block }
    ensures { result ≡ false → (k : ℕ) → k < length ends.now → slice_index ends.now k ≤ (k + 1) * block }
{
    for (k, end) in ends.iter().enumerate() {
        if *end / block > k {
            return true;
        }
    }
    false
}

impl<'a> SpaceEnds<'a> {
    pub fn of(alloc: Global, bytes: &'a [u8]) -> Result<SpaceEnds<'a>, AllocError>
        ensures { IfOk result (λ ends. ends ≡ bytes.now) }
    {
        let block = BLOCK;
        Ok(SpaceEnds {
            bytes,
            block,
            ends: find_ends(alloc, bytes, block)?,
        })
    }

    /// Whether spaces fill a whole block. If not, there are never more than 65,536 spaces.
    #[tactic(auto, using(crate::proofs::EndLemmas::all_near))]
    pub fn are_far(&self) -> bool
        ensures { result ≡ false → (at : ℕ) → at ≤ length self.now → spaces_end self.now at ≤ at + 65536 }
    {
        are_far(self.ends.as_slice(), self.block)
    }

    /// Where the spaces from a place on end.
    #[tactic(auto, using(crate::proofs::EndLemmas::end_order))]
    pub fn from(&self, at: usize) -> usize
        requires { at ≤ length self.now }
        ensures end { result ≡ spaces_end self.now at }
        ensures order { at ≤ result }
    {
        let block = at / self.block;
        if block + 1 < self.ends.len() {
            let next = (block + 1) * self.block;
            let front = self.bytes.split_at(at).1.split_at(next - at).0;
            let spaces = count_spaces(front);
            if spaces < front.len() {
                at + spaces
            } else {
                self.ends[block + 1]
            }
        } else {
            find_end(self.bytes, at)
        }
    }
}
