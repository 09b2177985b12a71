//! Runs of consecutive addresses in memory.
ghost use Rattle.std.specs.Prelude.{◌≡◌, ◌≤◌, length};
ghost use Rattle.core_file.specs.Memory.{front_at, word_at};

use crate::byte_list::{ByteList, read_u64};
use crate::memory::ProcessMemory;
use std::marker::Model;

/// The bytes from an address on, up to a count or to the first address that has none.
#[derive(Drop)]
pub struct Front<'m, 'a> {
    memory: &'m ProcessMemory<'a>,
    address: u64,
    size: usize,
}

impl<'m, 'a> Model for Front<'m, 'a> {
    ghost use Rattle.std.specs.Prelude.{◌≡◌, List, ℕ, length};
    ghost use Rattle.core_file.specs.Memory.{front_at};

    ghost Value = { List ℕ };

    ghost view = { λ f. front_at f.memory.now f.address f.size };

    ghost invariant = { λ f. length (front_at f.memory.now f.address f.size) ≡ f.size };
}

/// How many addresses in a row, from this one on, have a byte; `want` at most.
#[tactic(auto, using(crate::proofs::FrontLemmas::front_none, crate::proofs::FrontLemmas::front_more, crate::proofs::FrontLemmas::front_stop, crate::proofs::FrontLemmas::front_past))]
fn count_held(memory: &ProcessMemory<'_>, address: u64, want: u64) -> u64
    ensures within { result ≤ want }
    ensures held { length (front_at memory.now address result) ≡ result }
    ensures all { front_at memory.now address want ≡ front_at memory.now address result }
{
    let mut held: u64 = 0;
    'extents: while held < want {
        let Some(at) = address.checked_add(held) else {
            return held;
        };
        let extent = memory.extent(at);
        if extent == 0 {
            return held;
        }
        held += extent.min(want - held);
    }
    held
}

impl<'m, 'a> Front<'m, 'a> {
    pub fn of(memory: &'m ProcessMemory<'a>, address: u64, want: u64) -> Front<'m, 'a>
        ensures { result ≡ front_at memory.now address want }
    {
        let held = count_held(memory, address, want);
        Front {
            memory,
            address,
            size: held as usize,
        }
    }
}

impl<'m, 'a> ByteList for Front<'m, 'a> {
    ghost use Rattle.std.specs.Prelude.{List, ℕ};

    ghost bytes = { λ f. f };

    fn len(&self) -> usize {
        self.size
    }

    #[tactic(auto, using(crate::proofs::FrontLemmas::front_byte, crate::proofs::FrontLemmas::front_below))]
    fn byte(&self, at: usize) -> u8 {
        match self.memory.byte(self.address + at as u64) {
            None => 0,
            Some(b) => b,
        }
    }
}

/// The eight bytes at an address as a number, the lowest first, if all of them are in memory.
#[tactic(auto, unfolding(crate::specs::Memory::word_at))]
pub fn word(memory: &ProcessMemory<'_>, address: u64) -> Option<u64>
    ensures { result ≡ word_at memory.now address }
{
    let front = Front::of(memory, address, 8);
    if front.len() == 8 {
        Some(read_u64(&front, 0))
    } else {
        None
    }
}
