//! Bytes that are handed to a sink through a buffer.
ghost use Rattle.std.specs.Prelude.{◌≡◌, ◌≤◌, [], ◌∷◌, OnOk, OnErr};
ghost use Rattle.sym_edges.specs.Outside.{append_told, AddsFront, Rose};
ghost use Rattle.sym_rules.specs.Buffer.{Hands};

use crate::waiting_bytes::Waiting;
use sym_edges::{Failed, Sink, write_all};

/// Hands all bytes that wait to the sink.
pub fn hand_on<O: Sink, const N: usize>(
    sink: &mut O,
    waiting: &mut Waiting<N>,
) -> Result<(), Failed>
    ensures written { OnOk result (O.taken sink.new ≡ append_told (O.taken sink.old) waiting.old) }
    ensures empty { OnOk result (waiting.new ≡ []) }
    ensures front { OnErr result (AddsFront (O.taken sink.old) (O.taken sink.new) waiting.old) }
    ensures faults { O.faults sink.old ≤ O.faults sink.new }
    ensures cause { OnErr result (Rose (O.faults sink.old) (O.faults sink.new)) }
{
    match write_all(sink, waiting.as_slice()) {
        Ok(()) => {
            waiting.clear();
            Ok(())
        }
        Err(Failed) => Err(Failed),
    }
}

/// Puts bytes after those that wait. If they do not fit into the buffer, the bytes that wait are
/// handed to the sink first. Bytes that do not fit into an empty buffer go directly to the sink.
#[tactic(auto, using(crate::proofs::BufferLemmas::hands_held, crate::proofs::BufferLemmas::hands_failed, crate::proofs::BufferLemmas::hands_next, crate::proofs::BufferLemmas::hands_through, crate::proofs::BufferLemmas::hands_through_failed))]
pub fn put<O: Sink, const N: usize>(
    sink: &mut O,
    waiting: &mut Waiting<N>,
    bytes: &[u8],
) -> Result<(), Failed>
    ensures { Hands result (O.taken sink.old) (O.faults sink.old) waiting.old bytes.now (O.taken sink.new) (O.faults sink.new) waiting.new }
{
    if bytes.len() <= waiting.room() {
        waiting.put(bytes);
        return Ok(());
    }
    match hand_on(sink, waiting) {
        Ok(()) => {}
        Err(Failed) => return Err(Failed),
    }
    if bytes.len() <= waiting.room() {
        waiting.put(bytes);
        return Ok(());
    }
    match write_all(sink, bytes) {
        Ok(()) => Ok(()),
        Err(Failed) => Err(Failed),
    }
}

/// Puts a space and a word after the bytes that wait.
pub fn put_word<O: Sink, const N: usize>(
    sink: &mut O,
    waiting: &mut Waiting<N>,
    word: &[u8],
) -> Result<(), Failed>
    ensures { Hands result (O.taken sink.old) (O.faults sink.old) waiting.old (32 ∷ word.now) (O.taken sink.new) (O.faults sink.new) waiting.new }
{
    match put(sink, waiting, b" ") {
        Ok(()) => {}
        Err(Failed) => return Err(Failed),
    }
    put(sink, waiting, word)
}
