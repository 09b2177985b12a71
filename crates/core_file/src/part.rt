//! Runs of bytes of a file.
ghost use Rattle.std.specs.Prelude.{◌≡◌, ◌+◌, ◌≤◌, length, take, drop};

use crate::byte_list::ByteList;
use crate::held::HeldBytes;
use std::marker::Model;

/// A run of `size` bytes of a file, from the place `from` on.
#[derive(Debug, Drop)]
pub struct FilePart<'a> {
    bytes: &'a HeldBytes,
    from: usize,
    size: usize,
}

impl<'a> Model for FilePart<'a> {
    ghost use Rattle.std.specs.Prelude.{◌+◌, ◌≤◌, List, ℕ, length, take, drop};

    ghost Value = { List ℕ };

    ghost view = { λ p. take p.size (drop p.from p.bytes.now) };

    ghost invariant = { λ p. p.from + p.size ≤ length p.bytes.now };
}

impl<'a> FilePart<'a> {
    pub fn new(bytes: &'a HeldBytes, from: usize, size: usize) -> FilePart<'a>
        requires { from + size ≤ length bytes.now }
        ensures { result ≡ take size (drop from bytes.now) }
    {
        FilePart { bytes, from, size }
    }

    /// A run of these bytes, from a place on.
    #[tactic(auto, using(crate::proofs::PartLemmas::part_of_part, crate::proofs::PartLemmas::length_part))]
    pub fn part(&self, at: usize, size: usize) -> FilePart<'a>
        requires { at + size ≤ length self.now }
        ensures { result ≡ take size (drop at self.now) }
    {
        let _len = self.bytes.len();
        FilePart {
            bytes: self.bytes,
            from: self.from + at,
            size,
        }
    }
}

impl<'a> ByteList for FilePart<'a> {
    ghost use Rattle.std.specs.Prelude.{List, ℕ};

    ghost bytes = { λ p. p };

    #[tactic(auto, using(crate::proofs::PartLemmas::length_part))]
    fn len(&self) -> usize {
        self.size
    }

    #[tactic(auto, using(crate::proofs::PartLemmas::length_part, crate::proofs::PartLemmas::byte_of_part))]
    fn byte(&self, at: usize) -> u8 {
        let _len = self.bytes.len();
        self.bytes.byte(self.from + at)
    }
}
