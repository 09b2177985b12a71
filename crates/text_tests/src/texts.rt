//! Texts that are read.
use std::alloc::Global;
use std::test::Fail;
use sym_grammar::Reader;
use sym_records::SymFile;

/// The records of a text.
pub fn file_of_text(alloc: Global, text: &[u8]) -> Result<SymFile, Fail> {
    let mut reader = Reader::new(alloc);
    reader.feed(alloc, text)?;
    Ok(reader.finish(alloc)?)
}
