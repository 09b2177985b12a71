//! Common information entries.
ghost use Rattle.std.specs.Prelude.{◌≡◌, drop};
ghost use Rattle.frame_entries.specs.internal.KnownEncodings.{LastIsRead};
ghost use Rattle.frame_entries.specs.Cies.{is_version, is_augmented, cie_fields, cie_behind, cie_of};

use crate::augmentation::{Encodings, is_understood, read_encodings};
use crate::numbers::{Numbers, read_augmentation, read_numbers};
use crate::raw_entries::cursor_over;
use leb_cursor::Cursor;
use std::marker::Model;
use sym_edges::Reason;

/// What the FDEs of a CIE need from it: the code and data alignment factors, the encoding of pointers, whether there is an augmentation, and the
/// initial instructions.
#[derive(Debug, Drop)]
pub struct CieParts<'a> {
    pub code_align: u64,
    pub data_align: i64,
    pub encoding: u8,
    pub augmented: bool,
    pub initial_instructions: &'a [u8],
}

impl<'a> Model for CieParts<'a> {
    ghost use Rattle.std.specs.Prelude.{IsTrue};
    ghost use Rattle.frame_entries.specs.Pointers.{is_encoding};
    ghost use Rattle.frame_entries.specs.CieFields.{CieFields};

    ghost Value = { CieFields };

    ghost view = { λ p. record {
      code_align = p.code_align;
      data_align = p.data_align;
      encoding = p.encoding;
      augmented = p.augmented;
      initial_instructions = p.initial_instructions.now;
    } };

    ghost invariant = { λ p. IsTrue (is_encoding p.encoding) };
}

/// A CIE, read once: its place, and its fields or the reason why it cannot be used.
#[derive(Debug, Drop)]
pub struct Cie<'a> {
    pub at: usize,
    pub parts: Result<CieParts<'a>, Reason>,
}

/// The bytes from a place on.
#[inline]
pub fn rest_from(bytes: &[u8], at: usize) -> &[u8]
    ensures { result.now ≡ drop at bytes.now }
{
    if at <= bytes.len() { &bytes[at..] } else { &[] }
}

#[inline]
#[tactic(auto, unfolding(crate::specs::Cies::is_version))]
fn is_version(version: u8) -> bool
    ensures { result ≡ is_version version }
{
    version == 1 || version == 3 || version == 4
}

/// The fields of a CIE once all are read, or the reason why its encoding of pointers or its return
/// address column is not accepted.
#[tactic(auto, unfolding(crate::specs::Cies::cie_fields))]
fn judge<'a>(
    augmented: bool,
    numbers: Numbers,
    encodings: Encodings,
    initial_instructions: &'a [u8],
) -> Result<CieParts<'a>, Reason>
    requires { LastIsRead encodings }
    ensures { result ≡ cie_fields augmented numbers encodings initial_instructions.now }
{
    if !encodings.known {
        return Err(Reason::Encoding);
    }
    if numbers.column != 16 {
        return Err(Reason::Column);
    }
    Ok(CieParts {
        code_align: numbers.code_align,
        data_align: numbers.data_align,
        encoding: encodings.pointer,
        augmented,
        initial_instructions,
    })
}

/// Reads a CIE after its augmentation string.
#[tactic(auto, unfolding(crate::specs::Cies::cie_behind, crate::specs::Cies::is_augmented))]
fn read_behind<'a>(
    cursor: &mut Cursor<'a>,
    version: u8,
    text: &[u8],
    body: &'a [u8],
) -> Result<CieParts<'a>, Reason>
    ensures { result ≡ cie_behind version text.now body.now cursor.old }
{
    let Ok(numbers) = read_numbers(cursor, version) else {
        return Err(Reason::Cie);
    };
    let Ok(augmentation) = read_augmentation(cursor, !text.is_empty()) else {
        return Err(Reason::Cie);
    };
    if !numbers.sizes {
        return Err(Reason::Cie);
    }
    match read_encodings(text, augmentation) {
        Ok(encodings) => judge(
            !text.is_empty(),
            numbers,
            encodings,
            rest_from(body, cursor.at()),
        ),
        Err(reason) => Err(reason),
    }
}

/// Reads a CIE from the bytes of its body.
#[tactic(auto, unfolding(crate::specs::Cies::cie_of))]
pub fn read_cie(body: &[u8]) -> Result<CieParts<'_>, Reason>
    ensures { result ≡ cie_of body.now }
{
    let mut cursor = cursor_over(body);
    let Ok(version) = cursor.u8() else {
        return Err(Reason::Cie);
    };
    let Ok(text) = cursor.text() else {
        return Err(Reason::Cie);
    };
    if !is_version(version) {
        return Err(Reason::Cie);
    }
    if !is_understood(text) {
        return Err(Reason::Augmentation);
    }
    read_behind(&mut cursor, version, text, body)
}
