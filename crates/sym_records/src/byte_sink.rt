//! A sink that collects bytes in memory.
ghost use Rattle.std.specs.Prelude.{◌≡◌, ◌≤◌, ◌<◌, ◌++◌, [], length, take, Some, Ok, IfOk, OnErr};
ghost use Rattle.sym_edges.specs.Outside.{append_told, Rose};

use std::alloc::Global;
use sym_edges::{Failed, OutOfMemory, Sink};
use sym_rules::{ByteText, Waiting, hand_on};

/// A sink that collects the bytes that it takes. It fails if memory runs out.
#[derive(Drop)]
pub struct ByteSink {
    pub bytes: Vec<u8>,
    pub faults: u64,
}

impl ByteSink {
    /// A sink that has taken nothing.
    pub fn new(alloc: Global) -> ByteSink
        ensures { result.bytes.items ≡ [] }
    {
        ByteSink {
            bytes: Vec::new(alloc),
            faults: 0,
        }
    }

    /// The bytes that were taken, followed by those that wait in a buffer.
    pub(crate) fn into_text<const N: usize>(
        self,
        waiting: &mut Waiting<N>,
    ) -> Result<ByteText, OutOfMemory>
        ensures { IfOk result (λ t. t ≡ self.bytes.items ++ waiting.old) }
    {
        let mut sink = self;
        match hand_on(&mut sink, waiting) {
            Ok(()) => Ok(ByteText::of(sink.bytes)),
            Err(Failed) => Err(OutOfMemory),
        }
    }
}

impl Sink for ByteSink {
    ghost taken = { λ s. Some s.bytes.items };

    ghost faults = { λ s. s.faults };

    fn write(&mut self, piece: &[u8]) -> Result<usize, Failed> {
        if piece.is_empty() {
            return Ok(0);
        }
        match self.bytes.extend_from_slice(piece) {
            Ok(()) => Ok(piece.len()),
            Err(_) => {
                self.faults = self.faults.saturating_add(1);
                Err(Failed)
            }
        }
    }
}
