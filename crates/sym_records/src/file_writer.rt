//! Writing all records of a file into a sink.
ghost use Rattle.std.specs.Prelude.{◌≡◌, ◌≤◌, Ok, OnOk, OnErr};
ghost use Rattle.sym_edges.specs.Outside.{append_told, AddsFront, Rose};
ghost use Rattle.sym_records.specs.Canon.{canon_text};
ghost use Rattle.sym_rules.specs.Buffer.{Hands};
ghost use Rattle.sym_records.specs.Reading.{reading};

use crate::file::SymFile;
use crate::line::SymLine;
use crate::line_speller::put_record;
use sym_edges::{Failed, Sink};
use sym_rules::{Waiting, hand_on};

/// Puts the canonical spelling of records into the buffer.
fn put_records<O: Sink, const N: usize>(
    sink: &mut O,
    waiting: &mut Waiting<N>,
    lines: &[SymLine],
) -> Result<(), Failed>
    ensures { Hands result (O.taken sink.old) (O.faults sink.old) waiting.old (canon_text lines.now) (O.taken sink.new) (O.faults sink.new) waiting.new }
{
    for line in lines {
        match put_record(sink, waiting, line) {
            Ok(()) => {}
            Err(Failed) => return Err(Failed),
        }
    }
    Ok(())
}

/// Writes the canonical spelling of all records, in pieces of up to 64 KiB. If it fails, a prefix of that spelling was added. What was written reads
/// back as the records. Allocates no memory.
pub fn write_file<O: Sink>(file: &SymFile, sink: &mut O) -> Result<(), Failed>
    ensures written { OnOk result (O.taken sink.new ≡ append_told (O.taken sink.old) (canon_text file.now)) }
    ensures front { OnErr result (AddsFront (O.taken sink.old) (O.taken sink.new) (canon_text file.now)) }
    ensures faults { O.faults sink.old ≤ O.faults sink.new }
    ensures cause { OnErr result (Rose (O.faults sink.old) (O.faults sink.new)) }
    ensures reads { reading (canon_text file.now) ≡ Ok file.now }
{
    let mut waiting = Waiting::<65536>::new();
    match put_records(sink, &mut waiting, file.as_slice()) {
        Ok(()) => {}
        Err(Failed) => return Err(Failed),
    }
    match hand_on(sink, &mut waiting) {
        Ok(()) => Ok(()),
        Err(Failed) => Err(Failed),
    }
}
