//! The texts of values.
ghost use Rattle.std.specs.Prelude.{◌≡◌, ◌≤◌, ◌+◌, ◌*◌, ◌^◌, length, take, drop, MatchOption, option_and_then, OnErr};
ghost use Rattle.std.specs.Option.{option_copied};
ghost use Rattle.leb_cursor.specs.Ahead.{gave};
ghost use Rattle.leb_cursor.specs.Readings.{fixed_at};
ghost use Rattle.abbrev_units.specs.Texts.{ahead_from, place_width, text_in, number_in, text_place, text_of};

use crate::sections::Sections;
use crate::value::Value;
use leb_cursor::{Cursor, CursorFault};
use text_table::held_text;

/// A cursor at a place of a section.
#[inline]
#[tactic(auto, using(crate::proofs::TextLemmas::whole_ahead))]
pub fn cursor_from(bytes: &[u8], place: usize) -> Cursor<'_>
    requires { place ≤ length bytes.now }
    ensures { result ≡ ahead_from place bytes.now }
{
    Cursor::new(bytes, place, bytes.len())
}

/// What is held of the zero-terminated text at a place of a section.
#[inline]
#[tactic(auto, using(crate::proofs::TextLemmas::text_beyond), unfolding(crate::specs::Texts::text_in))]
pub fn text_in(bytes: &[u8], place: u64) -> Option<&[u8]>
    ensures { option_copied result ≡ text_in bytes.now place }
{
    if place > bytes.len() as u64 {
        return None;
    }
    let mut cursor = cursor_from(bytes, place as usize);
    Some(held_text(cursor.text().ok()?))
}

/// Reads a section offset: four bytes, or eight in the 64-bit format (DWARF 5, 7.4). After a fault the cursor is where it was.
#[inline]
pub fn read_place(cursor: &mut Cursor<'_>, wide: bool) -> Result<u64, CursorFault>
    ensures read { gave result cursor.new ≡ fixed_at (place_width wide) cursor.old }
    ensures kept { OnErr result (cursor.new ≡ cursor.old) }
{
    if wide {
        return Ok(cursor.u64()?);
    }
    Ok(u64::from(cursor.u32()?))
}

/// The section offset that is at a place of another section.
#[inline]
#[tactic(auto, using(crate::proofs::TextLemmas::number_beyond), unfolding(crate::specs::Texts::number_in))]
pub fn place_in(bytes: &[u8], place: u64, wide: bool) -> Option<u64>
    ensures { result ≡ number_in (place_width wide) bytes.now place }
{
    if place > bytes.len() as u64 {
        return None;
    }
    let mut cursor = cursor_from(bytes, place as usize);
    read_place(&mut cursor, wide).ok()
}

/// The place of a text, given its index: `.debug_str_offsets` has the offset of each text, from the unit's base on (DWARF 5, 7.26); none without a
/// base.
#[inline]
#[tactic(auto, using(crate::proofs::TextLemmas::number_beyond))]
pub fn text_place(offsets: &[u8], wide: bool, base: Option<u64>, index: u64) -> Option<u64>
    ensures { result ≡ text_place offsets.now wide base index }
{
    let width = if wide { 8 } else { 4 };
    let place = base?.checked_add(index.checked_mul(width)?)?;
    place_in(offsets, place, wide)
}

/// What is held of the text of a value of class string. `home` is the section that the value is in, `wide` says whether its unit has the 64-bit
/// format, and `base` is the unit's str_offsets_base. None if the value has another class, the text is not terminated by a zero byte, or the base is
/// missing. Allocates no memory.
#[inline]
#[tactic(auto, unfolding(crate::specs::Texts::text_of), using(crate::proofs::TextLemmas::text_is))]
pub fn read_text<'a>(
    sections: &Sections<'a>,
    home: &'a [u8],
    wide: bool,
    base: Option<u64>,
    value: Value,
) -> Option<&'a [u8]>
    ensures { option_copied result ≡ text_of sections.now home.now wide base value }
{
    match value {
        Value::InlineText(place) => text_in(home, place as u64),
        Value::StrAt(place) => sections.strs.text(place),
        Value::LineStrAt(place) => sections.line_str.text(place),
        Value::StrIndex(index) => {
            sections
                .strs
                .text(text_place(sections.str_offsets, wide, base, index)?)
        }
        _ => None,
    }
}
