//! The files of the rows.
use crate::cores::core_at;
use crate::hello::{Parts, hello, whole};
use std::alloc::{AllocError, Global};
use test_rows::elf::{
    A_C, EIGHT_OR_FOUR, ENTRIES, FUNCTIONS, ID, LINES, LONG_CODE, NOPS, NULL, Section, THREE_ROWS,
    TWO_FILES, entry_of, file_of, file_with, line_table, put, small_and, unit_of, with_functions,
};

/// An entry: its code, its name, its first address and its length, and the bytes after these.
pub type Entry = (u8, &'static [u8], u64, u64, &'static [u8]);

/// What a file is made of.
#[derive(Clone, Copy)]
pub enum Given {
    Bytes(&'static [u8]),
    /// The file of the function `main` at 1000.
    Small,
    /// The small file with another byte at an offset.
    Changed(usize, u8),
    /// The small file with one more section.
    And(Section<'static>),
    /// Code from 1000 on, without a build id.
    Code(&'static [u8]),
    /// Code from 1000 to 1020, these units and these frames at 2000.
    Units(&'static [&'static [u8]], &'static [u8]),
    /// Code from 1000 to 1020, these units and their abbreviations.
    Abbreviated(&'static [&'static [u8]], &'static [u8]),
    /// `main` at 1000, and `b` and `a` at 1008.
    Symbols,
    /// A unit with these entries. The lines are 3 from 1000 on, 9 from 1004 on, and 4 from 100c to 1020.
    Entries(&'static [Entry]),
    /// The same in the 64-bit format.
    WideEntries(&'static [Entry]),
    /// The same as `Entries`, with code from 1000 to 2020.
    InLongCode(&'static [Entry]),
    /// The same with this section as `.debug_info`.
    WithInfo(Section<'static>),
    /// `f` with the lines of two files, and `g` in another unit. If true, `g` has the lines of the
    /// same table, otherwise those of a second table.
    TwoUnits(bool),
    /// The function `f` of eight bytes at this address, and the symbol of the small file.
    Covered(u64),
    /// Only code from 1000 to 1020, and frames.
    Stripped(&'static [u8]),
    /// The program of a C compiler.
    Hello,
    /// The same program without debug information and symbols.
    HelloStripped,
    /// The core file of a thread with this rip, and these bytes on its stack.
    Core(u64, &'static [u8]),
}

/// Texts, one after the other.
pub fn joined(alloc: Global, parts: &[&[u8]]) -> Result<Vec<u8>, AllocError> {
    let mut whole = Vec::new(alloc);
    for part in parts {
        whole.extend_from_slice(part)?;
    }
    Ok(whole)
}

/// The small file with another byte at an offset.
fn changed(alloc: Global, offset: usize, byte: u8) -> Result<Vec<u8>, AllocError> {
    let mut bytes = small_and(alloc, NULL)?;
    if let Some(slot) = bytes.get_mut(offset) {
        *slot = byte;
    }
    Ok(bytes)
}

/// `main` at 1000, and `b` and `a` at 1008.
fn two_at_one_address(alloc: Global) -> Result<Vec<u8>, AllocError> {
    let b: &[u8] = b"\x06\0\0\0\x12\0\x02\0\x08\x10\0\0\0\0\0\0\x04\0\0\0\0\0\0\0";
    let a: &[u8] = b"\x08\0\0\0\x12\0\x02\0\x08\x10\0\0\0\0\0\0\x04\0\0\0\0\0\0\0";
    let entries = joined(alloc, &[&ENTRIES, b, a])?;
    file_with(alloc, &[(1, 0)], &entries, b"\0main\0b\0a\0", NULL)
}

/// A file that has only code, from 1000 on.
pub fn of_code(alloc: Global, bytes: &[u8]) -> Result<Vec<u8>, AllocError> {
    let code = (".text", [1, 6, 0x1000, 0], bytes);
    file_of(alloc, &[(1, 0)], &[NULL, code])
}

fn of_units<'a>(
    alloc: Global,
    units: &'a [u8],
    abbreviations: &'a [u8],
    frames: &'a [u8],
) -> Result<Vec<u8>, AllocError> {
    let sections = [
        NULL,
        ID,
        LONG_CODE,
        (".debug_info", [1, 0, 0, 0], units),
        (".debug_abbrev", [1, 0, 0, 0], abbreviations),
        (".eh_frame", [1, 2, 0x2000, 0], frames),
    ];
    file_of(alloc, &[(1, 0)], &sections)
}

fn bytes_of(alloc: Global, entries: &[Entry]) -> Result<Vec<u8>, AllocError> {
    let mut bytes = Vec::new(alloc);
    for (code, name, first, length, rest) in entries {
        bytes.extend_from_slice(&entry_of(alloc, *code, name, *first, *length)?)?;
        bytes.extend_from_slice(rest)?;
    }
    Ok(bytes)
}

/// The length of the 64-bit format, and the bytes after it.
fn wide(alloc: Global, parts: &[&[u8]]) -> Result<Vec<u8>, AllocError> {
    let bytes = joined(alloc, parts)?;
    let mut whole = Vec::new(alloc);
    put(&mut whole, 4, &[0xffff_ffff])?;
    put(&mut whole, 8, &[bytes.len() as u64])?;
    whole.extend_from_slice(&bytes)?;
    Ok(whole)
}

fn of_wide_entries(alloc: Global, entries: &[Entry]) -> Result<Vec<u8>, AllocError> {
    let bytes = bytes_of(alloc, entries)?;
    let header = b"\x04\0\0\0\0\0\0\0\0\0\x08\x01\0\0\0\0\0\0\0\0/s\0".as_slice();
    let unit = wide(alloc, &[header, &bytes, b"\0"])?;
    let mut header = Vec::new(alloc);
    put(&mut header, 2, &[4])?;
    put(
        &mut header,
        8,
        &[LINES.len().saturating_add(A_C.len()) as u64],
    )?;
    let lines = wide(alloc, &[&header, LINES, A_C, THREE_ROWS])?;
    with_functions(alloc, NOPS, &unit, &lines)
}

/// A unit with these entries, in code from 1000 on.
fn of_entries(alloc: Global, code: &[u8], entries: &[Entry]) -> Result<Vec<u8>, AllocError> {
    let bytes = bytes_of(alloc, entries)?;
    let unit = unit_of(alloc, 0, &bytes)?;
    let lines = line_table(alloc, A_C, THREE_ROWS)?;
    with_functions(alloc, code, &unit, &lines)
}

/// A section of units and the lines of the first, in code from 1000 to 1020.
fn of_info<'a>(
    alloc: Global,
    name: &'a str,
    header: [u64; 4],
    info: &'a [u8],
    lines: &'a [u8],
) -> Result<Vec<u8>, AllocError> {
    let sections = [
        NULL,
        ID,
        LONG_CODE,
        (name, header, info),
        (".debug_abbrev", [1, 0, 0, 0], FUNCTIONS),
        (".debug_line", [1, 0, 0, 0], lines),
    ];
    file_of(alloc, &[(1, 0)], &sections)
}

/// The same with the lines of three rows.
fn with_info(alloc: Global, info: Section<'static>) -> Result<Vec<u8>, AllocError> {
    let (name, header, bytes) = info;
    let lines = line_table(alloc, A_C, THREE_ROWS)?;
    of_info(alloc, name, header, bytes, &lines)
}

/// The same, with code from 1000 to 2020.
fn in_long_code(alloc: Global, entries: &[Entry]) -> Result<Vec<u8>, AllocError> {
    let code = Vec::from_elem(alloc, 0x90u8, 0x1020)?;
    of_entries(alloc, code.as_slice(), entries)
}

/// The units and the line tables of `f` and `g`.
fn two_units(alloc: Global, is_one_table: bool) -> Result<(Vec<u8>, Vec<u8>), AllocError> {
    let names = b"b.c\0\0\0\0a\x01.c\0\0\0\0a\x02.c\0\0\0\0\0";
    let mut lines = line_table(alloc, names, TWO_FILES)?;
    let second = if is_one_table { 0 } else { lines.len() as u64 };
    lines.extend_from_slice(&line_table(alloc, A_C, THREE_ROWS)?)?;
    let f = entry_of(alloc, 2, b"f\0", 0x1000, 0xc)?;
    let g = entry_of(alloc, 2, b"g\0", 0x100c, 0x14)?;
    let mut units = unit_of(alloc, 0, &f)?;
    units.extend_from_slice(&unit_of(alloc, second, &g)?)?;
    Ok((units, lines))
}

fn of_two_units(alloc: Global, is_one_table: bool) -> Result<Vec<u8>, AllocError> {
    let (units, lines) = two_units(alloc, is_one_table)?;
    with_functions(alloc, NOPS, &units, &lines)
}

fn stripped<'a>(alloc: Global, frames: &'a [u8]) -> Result<Vec<u8>, AllocError> {
    let frames = (".eh_frame", [1, 2, 0x2000, 0], frames);
    file_of(alloc, &[(1, 0)], &[NULL, ID, LONG_CODE, frames])
}

/// The debug file of code from 1000 to 1020 with the two units of `f` and `g`, and no bytes for code and frames.
pub fn debug_file(alloc: Global) -> Result<Vec<u8>, AllocError> {
    let (units, lines) = two_units(alloc, false)?;
    let sections = [
        NULL,
        ID,
        (".text", [8, 6, 0x1000, 0], NOPS),
        (".eh_frame", [8, 2, 0x2000, 0], NOPS),
        (".debug_info", [1, 0, 0, 0], units.as_slice()),
        (".debug_abbrev", [1, 0, 0, 0], FUNCTIONS),
        (".debug_line", [1, 0, 0, 0], lines.as_slice()),
    ];
    file_of(alloc, &[(1, 0)], &sections)
}

fn with_symbols(alloc: Global, first: u64) -> Result<Vec<u8>, AllocError> {
    let f = entry_of(alloc, 2, b"f\0", first, 8)?;
    let unit = unit_of(alloc, 0, &f)?;
    let lines = line_table(alloc, b"\0", b"")?;
    let sections = [
        NULL,
        ID,
        LONG_CODE,
        (".symtab", [2, 0, 0, 4], &ENTRIES),
        (".strtab", [3, 0, 0, 0], b"\0main\0"),
        (".debug_info", [1, 0, 0, 0], unit.as_slice()),
        (".debug_abbrev", [1, 0, 0, 0], FUNCTIONS),
        (".debug_line", [1, 0, 0, 0], lines.as_slice()),
    ];
    file_of(alloc, &[(1, 0)], &sections)
}

pub fn file_by(alloc: Global, given: Given) -> Result<Vec<u8>, AllocError> {
    match given {
        Given::Bytes(bytes) => Vec::from_slice(alloc, bytes),
        Given::Small => small_and(alloc, NULL),
        Given::Changed(offset, byte) => changed(alloc, offset, byte),
        Given::And(section) => small_and(alloc, section),
        Given::Code(bytes) => of_code(alloc, bytes),
        Given::Units(units, frames) => {
            of_units(alloc, &joined(alloc, units)?, EIGHT_OR_FOUR, frames)
        }
        Given::Abbreviated(units, abbreviations) => {
            of_units(alloc, &joined(alloc, units)?, abbreviations, b"")
        }
        Given::Symbols => two_at_one_address(alloc),
        Given::Entries(entries) => of_entries(alloc, NOPS, entries),
        Given::InLongCode(entries) => in_long_code(alloc, entries),
        Given::WideEntries(entries) => of_wide_entries(alloc, entries),
        Given::WithInfo(info) => with_info(alloc, info),
        Given::TwoUnits(is_one_table) => of_two_units(alloc, is_one_table),
        Given::Covered(first) => with_symbols(alloc, first),
        Given::Stripped(frames) => stripped(alloc, frames),
        Given::Hello => whole(alloc),
        Given::HelloStripped => hello(alloc, ID, Parts::Stripped),
        Given::Core(rip, stack) => core_at(alloc, rip, stack),
    }
}
