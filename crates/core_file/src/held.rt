//! A long stream of bytes, of which blocks of zeros are not kept in memory.
ghost use Rattle.std.specs.Prelude.{◌≡◌, ◌++◌, [], true, false};
ghost use Rattle.sym_edges.specs.Outside.{MatchStop};
ghost use Rattle.core_file.specs.HeldBlocks.{is_too_long};

use crate::blocks::{Blocks, add, byte_in, count_bytes};
use crate::byte_list::ByteList;
use crate::fault::TooLong;
use std::alloc::Global;
use std::marker::Model;
use sym_edges::Stop;

/// The size of a block in bytes.
const BLOCK: usize = 4096;

/// How many bytes a core file may have: 2^40.
const LIMIT: usize = 0x100_0000_0000;

/// How many of these bytes may be kept: 2^32.
const ROOM: usize = 0x1_0000_0000;

/// The bytes of a stream, which contracts see as a list. They are kept in blocks of 4,096 bytes, except blocks that are all zeros. In a core file,
/// the stack of each thread has eight million bytes that are nearly all zeros, so little more is kept than what the process wrote.
#[derive(Debug, Drop)]
pub struct HeldBytes {
    blocks: Blocks,
}

impl Model for HeldBytes {
    ghost use Rattle.std.specs.Prelude.{List, ℕ};
    ghost use Rattle.core_file.specs.internal.Joined.{all_bytes, IsStream};

    ghost Value = { List ℕ };

    ghost view = { λ h. all_bytes h.blocks };

    ghost invariant = { λ h. IsStream h.blocks };
}

impl HeldBytes {
    /// An empty stream. Allocates no memory.
    pub fn new(alloc: Global) -> HeldBytes
        ensures { result ≡ [] }
    {
        HeldBytes {
            blocks: Blocks {
                size: BLOCK,
                limit: LIMIT,
                room: ROOM,
                count: 0,
                places: Vec::new(alloc),
                held: Vec::new(alloc),
                tail: Vec::new(alloc),
            },
        }
    }

    /// Adds the next bytes of the stream. They are too many exactly if the stream would have more than 2^40, or more than 2^32 in complete blocks
    /// that are not all zeros. After a refusal nothing is promised about what is kept.
    pub fn push(&mut self, piece: &[u8]) -> Result<(), Stop<TooLong>>
        ensures { MatchStop result
            (λ _. (self.new ≡ self.old ++ piece.now) × (is_too_long (self.old ++ piece.now) ≡ false))
            (λ _. is_too_long (self.old ++ piece.now) ≡ true) (Unit {0}) }
    {
        add(&mut self.blocks, piece)
    }
}

impl ByteList for HeldBytes {
    ghost use Rattle.std.specs.Prelude.{List, ℕ};

    ghost bytes = { λ h. h };

    fn len(&self) -> usize {
        count_bytes(&self.blocks)
    }

    #[tactic(auto, using(crate::proofs::KeepLemmas::few_places))]
    fn byte(&self, at: usize) -> u8 {
        let blocks = &self.blocks;
        byte_in(
            blocks.size,
            blocks.places.as_slice(),
            blocks.held.as_slice(),
            blocks.tail.as_slice(),
            at,
        )
    }
}
