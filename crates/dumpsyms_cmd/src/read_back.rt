//! The records that a reader gives for a text that was just spelled.
ghost use Rattle.std.specs.Prelude.{◌≡◌, Ok, IfOk};
ghost use Rattle.sym_records.specs.Reading.{reading};

use std::alloc::Global;
use sym_edges::{Failed, OutOfMemory};
use sym_grammar::Reader;
use sym_records::{ByteSink, SymFile, SymText};

/// The bytes of a text, which read back as its records.
fn bytes_of(alloc: Global, text: &SymText) -> Result<Vec<u8>, OutOfMemory>
    ensures { IfOk result (λ bytes. reading bytes.items ≡ Ok text.now) }
{
    let mut sink = ByteSink::new(alloc);
    match text.write(&mut sink) {
        Ok(()) => {}
        Err(Failed) => return Err(OutOfMemory),
    }
    let ByteSink { bytes, .. } = sink;
    Ok(bytes)
}

/// The records of a text. The text is valid, so the reader stops only if memory runs out.
pub fn read_back(alloc: Global, text: &SymText) -> Result<SymFile, OutOfMemory>
    ensures { IfOk result (λ file. file ≡ text.now) }
{
    let bytes = bytes_of(alloc, text)?;
    let mut reader = Reader::new(alloc);
    match reader.feed(alloc, bytes.as_slice()) {
        Ok(()) => {}
        Err(_) => return Err(OutOfMemory),
    }
    match reader.finish(alloc) {
        Ok(file) => Ok(file),
        Err(_) => Err(OutOfMemory),
    }
}
