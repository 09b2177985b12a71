//! The length at the start of a unit or of a line table (DWARF 5, 7.2.2 and 7.4).
ghost use Rattle.std.specs.Prelude.{◌≡◌, OnErr};
ghost use Rattle.leb_cursor.specs.Ahead.{gave};
ghost use Rattle.abbrev_units.specs.InitialLength.{length_by, length_at, contents_at};

use crate::fault::{DwarfKind, HeaderFault};
use leb_cursor::Cursor;
use std::marker::Model;

/// A length, and whether the format is the 64-bit one.
#[derive(Clone, Copy)]
pub struct InitialLength {
    pub count: u64,
    pub wide: bool,
}

/// What the length counts; `wide` says whether the format is the 64-bit one.
#[derive(Drop)]
pub struct Contents<'a> {
    pub wide: bool,
    pub ahead: Cursor<'a>,
}

impl<'a> Model for Contents<'a> {
    ghost use Rattle.abbrev_units.specs.Contents.{Contents};

    ghost Value = { Contents };

    ghost view = { λ c. record { wide = c.wide; ahead = c.ahead } };
}

/// Reads a length, given its first four bytes.
#[tactic(auto, unfolding(crate::specs::InitialLength::length_by))]
fn read_behind(cursor: &mut Cursor<'_>, first: u32) -> Result<InitialLength, HeaderFault>
    ensures { gave result cursor.new ≡ length_by first cursor.old }
{
    if first < 0xffff_fff0 {
        return Ok(InitialLength {
            count: u64::from(first),
            wide: false,
        });
    }
    if first != 0xffff_ffff {
        return Err(HeaderFault::Start(DwarfKind::Reserved));
    }
    let count = cursor.u64().or(Err(HeaderFault::Start(DwarfKind::Ends)))?;
    Ok(InitialLength { count, wide: true })
}

#[tactic(auto, unfolding(crate::specs::InitialLength::length_at))]
fn read_length(cursor: &mut Cursor<'_>) -> Result<InitialLength, HeaderFault>
    ensures { gave result cursor.new ≡ length_at cursor.old }
{
    let first = cursor.u32().or(Err(HeaderFault::Start(DwarfKind::Ends)))?;
    read_behind(cursor, first)
}

/// Reads a length, and passes what it counts. The faults are for the start of the length: it is reserved, is cut off, or leaves the section. After a
/// fault the cursor is where it was.
#[tactic(auto, unfolding(crate::specs::InitialLength::contents_at))]
pub fn read_contents<'a>(cursor: &mut Cursor<'a>) -> Result<Contents<'a>, HeaderFault>
    ensures read { gave result cursor.new ≡ contents_at cursor.old }
    ensures kept { OnErr result (cursor.new ≡ cursor.old) }
{
    let mut probe = cursor.fork();
    let length = read_length(&mut probe)?;
    let ahead = probe
        .part(length.count)
        .or(Err(HeaderFault::Start(DwarfKind::Ends)))?;
    *cursor = probe;
    Ok(Contents {
        wide: length.wide,
        ahead,
    })
}
