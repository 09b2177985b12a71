//! The header of a line table, up to its tables of directories and files (DWARF 5, 6.2.4).
ghost use Rattle.std.specs.Prelude.{◌≡◌, ◌<◌, length, IfOk};
ghost use Rattle.leb_cursor.specs.Ahead.{gave, gave_as};
ghost use Rattle.abbrev_units.specs.Faults.{left_by};
ghost use Rattle.line_program.specs.Headers.{byte_at, this_byte_at, some_byte_at, is_version, sizes_at, operations_at, program_at, header_behind, header_at, table_at};
ghost use Rattle.line_program.specs.Lists.{several_at};

use crate::program::Program;
use abbrev_units::{Contents, DwarfKind, HeaderFault, read_contents, read_place};
use leb_cursor::{Cursor, CursorFault};
use std::marker::Model;

/// The fields that the program depends on, the bytes of both tables, and the bytes of the program.
#[derive(Drop)]
pub struct Header<'a> {
    pub program: Program<'a>,

    /// Whether the format is the 64-bit one.
    pub wide: bool,
    pub tables: Cursor<'a>,
    pub opcodes: Cursor<'a>,
}

impl<'a> Model for Header<'a> {
    ghost use Rattle.line_program.specs.HeaderFields.{HeaderFields};

    ghost Value = { HeaderFields };

    ghost view = { λ h. record { program = h.program; wide = h.wide; tables = h.tables; opcodes = h.opcodes } };
}

/// Passes a byte that must be `must`.
#[tactic(auto, unfolding(crate::specs::Headers::this_byte_at))]
fn pass_byte(cursor: &mut Cursor<'_>, must: u8) -> Result<(), HeaderFault>
    ensures { left_by result cursor.new ≡ this_byte_at must cursor.old }
{
    let byte = cursor.u8()?;
    if byte != must {
        return Err(HeaderFault::Start(DwarfKind::LineHeader));
    }
    Ok(())
}

/// Reads a byte that must not be 0.
#[tactic(auto, unfolding(crate::specs::Headers::some_byte_at))]
fn read_some_byte(cursor: &mut Cursor<'_>) -> Result<u8, HeaderFault>
    ensures read { gave result cursor.new ≡ some_byte_at cursor.old }
    ensures some { IfOk result (λ byte. 0 < byte) }
{
    let byte = cursor.u8()?;
    if byte == 0 {
        return Err(HeaderFault::Start(DwarfKind::LineHeader));
    }
    Ok(byte)
}

#[inline]
#[tactic(auto, unfolding(crate::specs::Headers::is_version))]
fn is_version(version: u16) -> bool
    ensures { result ≡ is_version version }
{
    2 <= version && version <= 5
}

/// Passes address_size and segment_selector_size, which only version 5 has.
#[tactic(auto, unfolding(crate::specs::Headers::sizes_at))]
fn pass_sizes(cursor: &mut Cursor<'_>, version: u16) -> Result<(), HeaderFault>
    ensures { left_by result cursor.new ≡ sizes_at version cursor.old }
{
    if version != 5 {
        return Ok(());
    }
    pass_byte(cursor, 8)?;
    pass_byte(cursor, 0)?;
    Ok(())
}

/// Passes maximum_operations_per_instruction, which only versions from 4 on have.
#[tactic(auto, unfolding(crate::specs::Headers::operations_at))]
fn pass_operations(cursor: &mut Cursor<'_>, version: u16) -> Result<(), HeaderFault>
    ensures { left_by result cursor.new ≡ operations_at version cursor.old }
{
    if version < 4 {
        return Ok(());
    }
    let operations = cursor.u8()?;
    if operations > 1 {
        return Err(HeaderFault::Start(DwarfKind::LineHeader));
    }
    Ok(())
}

/// Reads `count` bytes; if there are fewer, the fault is at the first missing byte.
#[tactic(auto, using(crate::proofs::HeaderLemmas::bytes_taken, crate::proofs::HeaderLemmas::bytes_short, crate::proofs::HeaderLemmas::taken_length))]
fn read_bytes<'a>(cursor: &mut Cursor<'a>, count: u8) -> Result<&'a [u8], HeaderFault>
    ensures read { gave_as (λ bytes. bytes.now) result cursor.new ≡ several_at byte_at count cursor.old }
    ensures all { IfOk result (λ bytes. length bytes.now ≡ count) }
{
    let end = cursor.end();
    match cursor.take(u64::from(count)) {
        Ok(bytes) => Ok(bytes),
        Err(_) => Err(HeaderFault::Cursor(CursorFault::Ends { at: end })),
    }
}

/// Reads the fields of the header that the program depends on.
#[tactic(auto, unfolding(crate::specs::Headers::program_at))]
fn read_program<'a>(cursor: &mut Cursor<'a>, version: u16) -> Result<Program<'a>, HeaderFault>
    ensures { gave result cursor.new ≡ program_at version cursor.old }
{
    let minimum_length = cursor.u8()?;
    pass_operations(cursor, version)?;
    let _default_is_stmt = cursor.u8()?;
    let line_base = cursor.u8()?;
    let line_range = read_some_byte(cursor)?;
    let opcode_base = read_some_byte(cursor)?;
    let lengths = read_bytes(cursor, opcode_base - 1)?;
    Ok(Program {
        version,
        minimum_length,
        line_base: line_base.cast_signed(),
        line_range,
        line_factor: 65535 / u32::from(line_range) + 1,
        opcode_base,
        lengths,
    })
}

/// Reads a header after its version.
#[tactic(auto, unfolding(crate::specs::Headers::header_behind))]
fn read_behind<'a>(
    mut cursor: Cursor<'a>,
    version: u16,
    wide: bool,
) -> Result<Header<'a>, HeaderFault>
    ensures { result ≡ header_behind version wide cursor.entry }
{
    pass_sizes(&mut cursor, version)?;
    let length = read_place(&mut cursor, wide)?;
    let Ok(mut tables) = cursor.part(length) else {
        return Err(HeaderFault::Start(DwarfKind::LineHeader));
    };
    let program = read_program(&mut tables, version)?;
    Ok(Header {
        program,
        wide,
        tables,
        opcodes: cursor,
    })
}

/// Reads a header, given the bytes that the table's length counts.
#[tactic(auto, unfolding(crate::specs::Headers::header_at))]
fn read_header<'a>(contents: Contents<'a>) -> Result<Header<'a>, HeaderFault>
    ensures { result ≡ header_at contents.entry }
{
    let Contents { wide, mut ahead } = contents;
    let version = ahead.u16()?;
    if !is_version(version) {
        return Err(HeaderFault::Start(DwarfKind::LineVersion));
    }
    read_behind(ahead, version, wide)
}

/// Reads the length and the header of the next table.
#[tactic(auto, unfolding(crate::specs::Headers::table_at))]
pub fn read_table<'a>(mut cursor: Cursor<'a>) -> Result<Header<'a>, HeaderFault>
    ensures { result ≡ table_at cursor.entry }
{
    let contents = read_contents(&mut cursor)?;
    read_header(contents)
}
