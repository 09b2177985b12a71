//! A sink over a stream of the system.
ghost use Rattle.std.specs.Prelude.{◌≡◌, None};

use crate::fault::Failed;
use crate::retry::write_retrying;
use crate::sink::Sink;
use std::io::Write;

/// A stream of the system, such as standard output. Each piece is handed to the system in one call, and nothing is buffered. Contracts do not see the
/// bytes. Each error of the system is counted, and also each write of 0 bytes. A write that a signal interrupts is tried again.
#[derive(Drop)]
pub struct StreamSink<W: Write + Drop> {
    stream: W,
    faults: u64,
}

impl<W: Write + Drop> StreamSink<W> {
    pub fn new(stream: W) -> StreamSink<W>
        ensures taken { ⟦<StreamSink<W> as Sink>⟧.taken result ≡ None }
        ensures faults { ⟦<StreamSink<W> as Sink>⟧.faults result ≡ 0 }
    {
        StreamSink { stream, faults: 0 }
    }
}

impl<W: Write + Drop> Sink for StreamSink<W> {
    ghost taken = { λ _. None };

    ghost faults = { λ s. s.faults };

    fn write(&mut self, piece: &[u8]) -> Result<usize, Failed> {
        if piece.is_empty() {
            return Ok(0);
        }
        match write_retrying(&mut self.stream, piece) {
            Ok(count) if count > 0 => Ok(count),
            _ => {
                self.faults = self.faults.saturating_add(1);
                Err(Failed)
            }
        }
    }
}
