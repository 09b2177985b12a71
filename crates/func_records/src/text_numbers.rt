//! Spells the records of the paths and the names in use.
ghost use Rattle.std.specs.Prelude.{◌≡◌, ◌++◌, ◌<◌, ◌^◌, None, true, length, OnOk};
ghost use Rattle.sym_records.specs.Canon.{canon, canon_text};
ghost use Rattle.clean_names.specs.Cleaning.{cleaned};
ghost use Rattle.sym_records.specs.Spelled.{text_bytes};
ghost use Rattle.sym_records.specs.Validity.{fields_fit, first_bad_from};
ghost use Rattle.sym_records.specs.declared.place.Place.TheVariants.{Inside};
ghost use Rattle.func_records.specs.FuncRecords.{numbered_lines};
ghost use Rattle.func_records.specs.internal.Gathering.{bytes_of};
ghost use Rattle.func_records.specs.internal.Numbering.{numbered};
ghost use Rattle.clean_names.specs.Cleaning.{AreClean};

use std::alloc::Global;
use sym_edges::OutOfMemory;
use sym_records::laws::{cleaned_bytes_are_names, records_of_functions_fit};
use sym_records::{TextPieces, add_file, add_origin};

/// Which records give numbers to texts.
#[derive(Clone, Copy)]
pub enum Numbering {
    /// FILE records, for paths.
    Files,
    /// INLINE_ORIGIN records, for names.
    Origins,
}

/// Adds the record of a text.
fn add_text(
    numbering: Numbering,
    number: u32,
    bytes: &[u8],
    text: &mut Vec<u8>,
) -> Result<(), OutOfMemory>
    ensures text { OnOk result (text.new.items ≡ text.old.items ++ canon (numbered numbering number (cleaned bytes.now))) }
    ensures fit { fields_fit (numbered numbering number (cleaned bytes.now)) ≡ true }
{
    cleaned_bytes_are_names();
    records_of_functions_fit();
    match numbering {
        Numbering::Files => add_file(text, number, bytes),
        Numbering::Origins => add_origin(text, number, bytes),
    }
}

/// Adds the records of texts, numbered from 0.
pub fn add_texts(
    alloc: Global,
    numbering: Numbering,
    texts: &[&[u8]],
    text: &mut TextPieces,
) -> Result<(), OutOfMemory>
    requires few { length texts.now < 2 ^ 32 }
    requires clean { AreClean (bytes_of texts.now) }
    ensures text { OnOk result (text_bytes text.new ≡ text_bytes text.old ++ canon_text (numbered_lines (numbered numbering) 0 (bytes_of texts.now))) }
    ensures fit { OnOk result (first_bad_from 0 Inside (numbered_lines (numbered numbering) 0 (bytes_of texts.now)) ≡ None) }
{
    'texts: for number in 0..texts.len() {
        add_text(numbering, number as u32, texts[number], &mut text.last)?;
        text.turn(alloc)?;
    }
    Ok(())
}
