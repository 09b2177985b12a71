//! Pointers by their encoding.
ghost use Rattle.std.specs.Prelude.{◌≡◌, IsTrue, OnErr};
ghost use Rattle.leb_cursor.specs.Ahead.{gave};
ghost use Rattle.frame_entries.specs.Pointers.{is_format, format_of, is_encoding, number_at, applied, pointer_at};

use leb_cursor::{Cursor, CursorFault};

/// The format of a pointer: how its number is written.
#[derive(Clone, Copy, PartialEq, Eq, Debug)]
pub enum Format {
    /// Eight bytes, signed or not: modulo 2^64 both are the same.
    U64,

    /// An unsigned LEB128.
    Uleb,
    U16,
    U32,

    /// A signed LEB128.
    Sleb,
    I16,
    I32,
}

/// Whether the low four bits of an encoding are a format.
#[inline]
#[tactic(auto, unfolding(crate::specs::Pointers::is_format))]
pub fn is_format(encoding: u8) -> bool
    ensures { result ≡ is_format encoding }
{
    let format = encoding % 16;
    format <= 4 || (9 <= format && format <= 12)
}

/// Whether pointers of that encoding are read by [`read_pointer`].
#[inline]
#[tactic(auto, unfolding(crate::specs::Pointers::is_encoding))]
pub fn is_encoding(encoding: u8) -> bool
    ensures { result ≡ is_encoding encoding }
{
    encoding < 0x20 && is_format(encoding)
}

#[inline]
#[tactic(auto, unfolding(crate::specs::Pointers::format_of))]
pub fn format_of(encoding: u8) -> Format
    ensures { result ≡ format_of encoding }
{
    match encoding % 16 {
        1 => Format::Uleb,
        2 => Format::U16,
        3 => Format::U32,
        9 => Format::Sleb,
        10 => Format::I16,
        11 => Format::I32,
        _ => Format::U64,
    }
}

/// Reads a number in a format, modulo 2^64.
#[inline]
#[tactic(auto, unfolding(crate::specs::Pointers::number_at))]
pub fn read_number(cursor: &mut Cursor<'_>, format: Format) -> Result<u64, CursorFault>
    ensures read { gave result cursor.new ≡ number_at format cursor.old }
    ensures kept { OnErr result (cursor.new ≡ cursor.old) }
{
    match format {
        Format::U64 => cursor.u64(),
        Format::Uleb => cursor.uleb(),
        Format::U16 => Ok(u64::from(cursor.u16()?)),
        Format::U32 => Ok(u64::from(cursor.u32()?)),
        Format::Sleb => Ok(cursor.sleb()?.cast_unsigned()),
        Format::I16 => Ok(i64::from(cursor.u16()?.cast_signed()).cast_unsigned()),
        Format::I32 => Ok(i64::from(cursor.u32()?.cast_signed()).cast_unsigned()),
    }
}

/// The value of a pointer, given the address of its field and the number in the field.
#[inline]
#[tactic(auto, unfolding(crate::specs::Pointers::applied))]
fn apply(encoding: u8, address: u64, number: u64) -> u64
    ensures { result ≡ applied encoding address number }
{
    if encoding < 0x10 {
        number
    } else {
        number.wrapping_add(address)
    }
}

/// Reads a pointer whose field has the address `address` (LSB Core, ".eh_frame", "DWARF Exception Header Encoding"). A fault is the cursor's, and
/// leaves the cursor as it was.
#[inline]
#[tactic(auto, unfolding(crate::specs::Pointers::pointer_at))]
pub fn read_pointer(cursor: &mut Cursor<'_>, encoding: u8, address: u64) -> Result<u64, CursorFault>
    requires known { IsTrue (is_encoding encoding) }
    ensures read { gave result cursor.new ≡ pointer_at encoding address cursor.old }
    ensures kept { OnErr result (cursor.new ≡ cursor.old) }
{
    let number = read_number(cursor, format_of(encoding))?;
    Ok(apply(encoding, address, number))
}
