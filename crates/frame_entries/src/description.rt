//! Frame description entries.
ghost use Rattle.std.specs.Prelude.{◌≡◌};
ghost use Rattle.frame_entries.specs.FrameEntries.{fde_of, body_under};

use crate::cie::{CieParts, rest_from};
use crate::numbers::read_augmentation;
use crate::pointer::{format_of, read_number, read_pointer};
use crate::raw_entries::cursor_over;
use leb_cursor::CursorFault;
use std::marker::Model;
use sym_edges::{Reason, Sect};

/// A frame description entry that can be used (DWARF 5, 6.4.1): the place of its CIE in the section, its address range, the fields of the CIE with
/// the initial instructions, its own instructions, and the address of its own instructions. Its encoding is one that [`read_pointer`] reads.
#[derive(Debug, Drop)]
pub struct Fde<'a> {
    pub cie: usize,
    pub start: u64,
    pub size: u64,
    pub code_align: u64,
    pub data_align: i64,
    pub encoding: u8,
    pub initial_instructions: &'a [u8],
    pub instructions: &'a [u8],
    pub instructions_address: u64,
}

impl<'a> Model for Fde<'a> {
    ghost use Rattle.std.specs.Prelude.{IsTrue};
    ghost use Rattle.frame_entries.specs.Pointers.{is_encoding};
    ghost use Rattle.frame_entries.specs.FdeFields.{FdeFields};

    ghost Value = { FdeFields };

    ghost view = { λ f. record {
      cie = f.cie;
      start = f.start;
      size = f.size;
      code_align = f.code_align;
      data_align = f.data_align;
      encoding = f.encoding;
      initial_instructions = f.initial_instructions.now;
      instructions = f.instructions.now;
      instructions_address = f.instructions_address;
    } };

    ghost invariant = { λ f. IsTrue (is_encoding f.encoding) };
}

/// The fields of an entry, or the first reason to leave it out.
#[derive(Debug, Drop)]
pub enum Body<'a> {
    Good(Fde<'a>),
    Bad(Reason),
}

/// A frame description entry of a section: `at` is the place of its first byte.
#[derive(Debug, Drop)]
pub struct Entry<'a> {
    pub section: Sect,
    pub at: u64,
    pub body: Body<'a>,
}

/// Reads an FDE from its body, which has the address `base`.
#[tactic(auto, unfolding(crate::specs::FrameEntries::fde_of, crate::specs::FrameEntries::address_at))]
fn read_fde<'a>(
    place: usize,
    cie: &CieParts<'a>,
    base: u64,
    body: &'a [u8],
) -> Result<Fde<'a>, CursorFault>
    ensures { result ≡ fde_of place cie.now base body.now }
{
    let mut cursor = cursor_over(body);
    let start = read_pointer(&mut cursor, cie.encoding, base)?;
    let size = read_number(&mut cursor, format_of(cie.encoding))?;
    let _augmentation = read_augmentation(&mut cursor, cie.augmented)?;
    Ok(Fde {
        cie: place,
        start,
        size,
        code_align: cie.code_align,
        data_align: cie.data_align,
        encoding: cie.encoding,
        initial_instructions: cie.initial_instructions,
        instructions: rest_from(body, cursor.at()),
        instructions_address: base.wrapping_add(cursor.at() as u64),
    })
}

/// The fields of an FDE whose CIE is at a place, or the reason to leave the FDE out.
pub fn read_body<'a>(
    place: usize,
    parts: &Result<CieParts<'a>, Reason>,
    base: u64,
    body: &'a [u8],
) -> Body<'a>
    ensures { result ≡ body_under place parts.now base body.now }
{
    match parts {
        Err(reason) => Body::Bad(*reason),
        Ok(cie) => match read_fde(place, cie, base, body) {
            Ok(fde) => Body::Good(fde),
            Err(_) => Body::Bad(Reason::Entry),
        },
    }
}
