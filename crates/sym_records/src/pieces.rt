//! Texts that are stored in pieces.
ghost use Rattle.std.specs.Prelude.{◌≡◌, [], ◌++◌, OnOk};
ghost use Rattle.sym_records.specs.Spelled.{text_bytes};

use std::alloc::Global;
use std::mem::replace;
use sym_edges::OutOfMemory;
use sym_rules::ByteText;

/// A piece with at least this many bytes is full: no more lines are added to it.
const PIECE: usize = 1 << 20;

/// Memory beyond `PIECE` for the line that makes a piece full. If this line is longer, the piece
/// grows.
const SPARE: usize = 1 << 17;

/// A text in pieces. Lines are added to the last piece, and `turn` is called between lines. A long
/// text is never copied as a whole, and little of its memory stays unused.
#[derive(Debug, Drop)]
pub struct TextPieces {
    pub full: Vec<ByteText>,
    pub last: Vec<u8>,
}

impl TextPieces {
    pub fn new(alloc: Global) -> TextPieces
        ensures { text_bytes result ≡ [] }
    {
        TextPieces {
            full: Vec::new(alloc),
            last: Vec::new(alloc),
        }
    }

    /// Begins another piece if the last one is full. The text stays the same.
    #[tactic(auto, using(crate::proofs::SpelledLemmas::turned))]
    pub fn turn(&mut self, alloc: Global) -> Result<(), OutOfMemory>
        ensures { OnOk result (text_bytes self.new ≡ text_bytes self.old) }
    {
        if self.last.len() < PIECE {
            return Ok(());
        }
        let next = Vec::with_capacity(alloc, PIECE + SPARE)?;
        let full = replace(&mut self.last, next);
        self.full.push(ByteText::of(full))?;
        Ok(())
    }

    /// Adds another text at the end. Its pieces are moved, not copied.
    #[tactic(auto, using(crate::proofs::SpelledLemmas::joined))]
    pub fn append(&mut self, text: TextPieces) -> Result<(), OutOfMemory>
        ensures { OnOk result (text_bytes self.new ≡ text_bytes self.old ++ text_bytes text) }
    {
        let TextPieces { mut full, last } = text;
        let front = replace(&mut self.last, last);
        self.full.push(ByteText::of(front))?;
        self.full.append(&mut full)?;
        Ok(())
    }
}
