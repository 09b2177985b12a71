//! Lines of words.
ghost use Rattle.std.specs.Prelude.{◌≡◌, ◌++◌, map, OnOk};
ghost use Rattle.sym_records.specs.Canon.{spaced};
ghost use Rattle.sym_records.specs.Fields.{hex};
ghost use Rattle.stack_text.specs.Lines.{line};

use std::alloc::{AllocError, Global};
use sym_edges::OutOfMemory;
use sym_lookup::SharedText;
use sym_records::HexText;

/// Adds words with one space before each but the first.
pub(crate) fn add_words(text: &mut Vec<u8>, first: &[u8], words: &[&[u8]]) -> Result<(), AllocError>
    ensures { OnOk result (text.new.items ≡ text.old.items ++ spaced first.now (map (λ word. word.now) words.now)) }
{
    text.extend_from_slice(first)?;
    'words: for word in words {
        text.push(b' ')?;
        text.extend_from_slice(word)?;
    }
    Ok(())
}

/// Adds a line of such words.
pub fn add_line(text: &mut Vec<u8>, first: &[u8], words: &[&[u8]]) -> Result<(), AllocError>
    ensures { OnOk result (text.new.items ≡ text.old.items ++ line (spaced first.now (map (λ word. word.now) words.now))) }
{
    add_words(text, first, words)?;
    text.push(b'\n')?;
    Ok(())
}

/// Adds a line of such words to a text with shared parts.
pub(crate) fn share_line(
    alloc: Global,
    text: &mut SharedText,
    first: &[u8],
    words: &[&[u8]],
) -> Result<(), OutOfMemory>
    ensures { OnOk result (text.new ≡ text.old ++ line (spaced first.now (map (λ word. word.now) words.now))) }
{
    let mut made = Vec::new(alloc);
    add_line(&mut made, first, words)?;
    text.add(made.as_slice())
}

/// Adds a number in hexadecimal.
pub fn add_hex(text: &mut Vec<u8>, number: u64) -> Result<(), AllocError>
    ensures { OnOk result (text.new.items ≡ text.old.items ++ hex number) }
{
    let digits = HexText::of(number);
    text.extend_from_slice(digits.as_slice())
}
