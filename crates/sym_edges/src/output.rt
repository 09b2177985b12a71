//! Writing all bytes to a sink.
ghost use Rattle.std.specs.Prelude.{◌≡◌, ◌≤◌, OnOk, OnErr};
ghost use Rattle.sym_edges.specs.Outside.{append_told, AddsFront, Rose};

use crate::fault::Failed;
use crate::sink::Sink;

/// Writes all bytes. If it fails, only a prefix of them was added, which may be empty. Allocates no memory.
pub fn write_all<O: Sink>(sink: &mut O, bytes: &[u8]) -> Result<(), Failed>
    ensures written { OnOk result (O.taken sink.new ≡ append_told (O.taken sink.old) bytes.now) }
    ensures front { OnErr result (AddsFront (O.taken sink.old) (O.taken sink.new) bytes.now) }
    ensures faults { O.faults sink.old ≤ O.faults sink.new }
    ensures cause { OnErr result (Rose (O.faults sink.old) (O.faults sink.new)) }
{
    let mut rest = bytes;
    'pieces: while !rest.is_empty() {
        match sink.write(rest) {
            Ok(count) => rest = rest.split_at(count).1,
            Err(Failed) => return Err(Failed),
        }
    }
    Ok(())
}
