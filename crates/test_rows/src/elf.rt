//! Small ELF files, made field by field: the file header, the program headers, the bytes of the sections, and last the section headers.

use std::alloc::{AllocError, Global};

/// A section: its name, sh_type, sh_flags, sh_addr and sh_link, and its bytes.
pub type Section<'a> = (&'a str, [u64; 4], &'a [u8]);

pub const NULL: Section<'static> = ("", [0; 4], b"");

/// The build id 00 01 .. 13.
pub const ID: Section<'static> = (
    ".note.gnu.build-id",
    [7, 0, 0, 0],
    b"\x04\0\0\0\x14\0\0\0\x03\0\0\0GNU\0\0\x01\x02\x03\x04\x05\x06\x07\x08\x09\x0a\x0b\x0c\x0d\x0e\x0f\x10\x11\x12\x13",
);

/// Code from 1000 to 1010.
pub const CODE: Section<'static> = (
    ".text",
    [1, 6, 0x1000, 0],
    b"\xf3\x0f\x1e\xfa\x31\xc0\xc3\x90\xc3\x90\x90\x90\x90\x90\x90\x90",
);

/// Code from 1000 to 1020.
pub const LONG_CODE: Section<'static> = (".text", [1, 6, 0x1000, 0], NOPS);

/// 32 bytes of code.
pub const NOPS: &[u8] = &[0x90; 32];

/// The first entry of each symbol table, and a function at 1000 whose name is at 1.
pub const ENTRIES: [u8; 48] =
    *b"\0\0\0\0\0\0\0\0\0\0\0\0\0\0\0\0\0\0\0\0\0\0\0\0\x01\0\0\0\x12\0\x02\0\0\x10\0\0\0\0\0\0\x04\0\0\0\0\0\0\0";

/// Abbreviations of a compile unit with a language: at 0 one with eight bytes, at 8 one with four.
pub const EIGHT_OR_FOUR: &[u8] = b"\x01\x11\0\x13\x07\0\0\0\x01\x11\0\x13\x06\0\0\0";

/// A unit of version 4 and 16 bytes: a header of 11 bytes, code 1 and four bytes.
pub const UNIT: &[u8] = b"\x0c\0\0\0\x04\0\x08\0\0\0\x08\x01\0\0\0\0";

/// The same with the abbreviation at 0, whose language has eight bytes: the unit is too short.
pub const CUT_UNIT: &[u8] = b"\x0c\0\0\0\x04\0\0\0\0\0\x08\x01\0\0\0\0";

/// A unit of version 3, which is not read.
pub const VERSION_3: &[u8] = b"\x07\0\0\0\x03\0\0\0\0\0\x08";

/// Abbreviations: 1 a compile unit with a line table and a directory, 2 a function with a name, 3 an inlined copy, 4 a function with children, 5 a
/// function without a name, 6 an inlined copy with children, 7 an inlined copy without the place of its call.
pub const FUNCTIONS: &[u8] =
    b"\x01\x11\x01\x10\x17\x1b\x08\0\0\x02\x2e\0\x03\x08\x11\x01\x12\x06\0\0\
    \x03\x1d\0\x03\x08\x11\x01\x12\x06\x58\x0b\x59\x0b\0\0\x04\x2e\x01\x03\x08\x11\x01\x12\x06\0\0\
    \x05\x2e\0\x11\x01\x12\x06\0\0\
    \x06\x1d\x01\x03\x08\x11\x01\x12\x06\x58\x0b\x59\x0b\0\0\
    \x07\x1d\0\x03\x08\x11\x01\x12\x06\0\0\0";

/// The header of a line table of version 4 up to its files, without its lengths.
pub const LINES: &[u8] = b"\x01\x01\x01\xfb\x0e\x0d\0\x01\x01\x01\x01\0\0\0\x01\0\0\x01\0";

/// The file `a.c` of a line table.
pub const A_C: &[u8] = b"a.c\0\0\0\0\0";

/// Rows of one file: line 3 at 1000, line 9 at 1004, line 4 at 100c, end at 1020.
pub const THREE_ROWS: &[u8] =
    b"\0\x09\x02\0\x10\0\0\0\0\0\0\x03\x02\x01\x02\x04\x03\x06\x01\x02\x08\x03\x7b\x01\x02\x14\0\x01\x01";

/// Rows of two files: line 1 of the first at 1000, line 2 of the second at 1008, no line at 1010, end at 1018.
pub const TWO_FILES: &[u8] =
    b"\0\x09\x02\0\x10\0\0\0\0\0\0\x01\x02\x08\x04\x02\x03\x01\x01\x02\x08\x03\x7e\x01\x02\x08\0\x01\x01";

/// A line table of version 4 with these files and this program.
pub fn line_table(alloc: Global, files: &[u8], program: &[u8]) -> Result<Vec<u8>, AllocError> {
    let mut table = Vec::new(alloc);
    let header = LINES.len().saturating_add(files.len());
    let whole = header.saturating_add(program.len()).saturating_add(6);
    put(&mut table, 4, &[whole as u64])?;
    put(&mut table, 2, &[4])?;
    put(&mut table, 4, &[header as u64])?;
    table.extend_from_slice(LINES)?;
    table.extend_from_slice(files)?;
    table.extend_from_slice(program)?;
    Ok(table)
}

/// A unit of version 4 with the line table at an offset, the directory `/s`, and these entries.
pub fn unit_of(alloc: Global, lines: u64, entries: &[u8]) -> Result<Vec<u8>, AllocError> {
    let mut unit = Vec::new(alloc);
    let length = entries.len().saturating_add(16);
    put(&mut unit, 4, &[length as u64])?;
    unit.extend_from_slice(b"\x04\0\0\0\0\0\x08\x01")?;
    put(&mut unit, 4, &[lines])?;
    unit.extend_from_slice(b"/s\0")?;
    unit.extend_from_slice(entries)?;
    unit.push(0)?;
    Ok(unit)
}

/// An entry, given its code, its name, its first address and its length.
pub fn entry_of(
    alloc: Global,
    code: u8,
    name: &[u8],
    first: u64,
    length: u64,
) -> Result<Vec<u8>, AllocError> {
    let mut entry = Vec::new(alloc);
    entry.push(code)?;
    entry.extend_from_slice(name)?;
    put(&mut entry, 8, &[first])?;
    put(&mut entry, 4, &[length])?;
    Ok(entry)
}

/// A file with a build id, code, symbols followed by their names, and one more section.
pub fn file_with<'a>(
    alloc: Global,
    programs: &[(u64, u64)],
    entries: &'a [u8],
    names: &'a [u8],
    more: Section<'a>,
) -> Result<Vec<u8>, AllocError> {
    let symbols = (".symtab", [2, 0, 0, 4], entries);
    let names = (".strtab", [3, 0, 0, 0], names);
    file_of(alloc, programs, &[NULL, ID, CODE, symbols, names, more])
}

/// The file of the function `main` at 1000, with one more section.
pub fn small_and(alloc: Global, more: Section<'_>) -> Result<Vec<u8>, AllocError> {
    file_with(alloc, &[(1, 0)], &ENTRIES, b"\0main\0", more)
}

/// A file with a build id, code from 1000 on, units with the abbreviations `FUNCTIONS`, and line tables.
pub fn with_functions<'a>(
    alloc: Global,
    code: &'a [u8],
    units: &'a [u8],
    lines: &'a [u8],
) -> Result<Vec<u8>, AllocError> {
    let code = (".text", [1, 6, 0x1000, 0], code);
    let info = (".debug_info", [1, 0, 0, 0], units);
    let abbreviations = (".debug_abbrev", [1, 0, 0, 0], FUNCTIONS);
    let table = (".debug_line", [1, 0, 0, 0], lines);
    let sections = [NULL, ID, code, info, abbreviations, table];
    file_of(alloc, &[(1, 0)], &sections)
}

/// Adds numbers of a width, the lowest byte first.
pub fn put(bytes: &mut Vec<u8>, width: usize, numbers: &[u64]) -> Result<(), AllocError> {
    for number in numbers {
        for byte in number.to_le_bytes().iter().take(width) {
            bytes.push(*byte)?;
        }
    }
    Ok(())
}

/// Adds a section header, given the offsets of the name and of the bytes.
fn put_header(
    headers: &mut Vec<u8>,
    section: Section<'_>,
    name: u64,
    offset: u64,
) -> Result<(), AllocError> {
    let (_, [kind, flags, address, link], bytes) = section;
    put(headers, 4, &[name, kind])?;
    put(headers, 8, &[flags, address, offset, bytes.len() as u64])?;
    put(headers, 4, &[link, 0])?;
    put(headers, 8, &[1, 0])
}

/// A shared object with these program headers (p_type and p_vaddr) and sections, and after them the section of their names.
pub fn file_of(
    alloc: Global,
    programs: &[(u64, u64)],
    sections: &[Section<'_>],
) -> Result<Vec<u8>, AllocError> {
    let start = programs.len().saturating_mul(56).saturating_add(64);
    let mut names = Vec::new(alloc);
    let mut bytes = Vec::new(alloc);
    let mut headers = Vec::new(alloc);
    for section in sections {
        let offset = start.saturating_add(bytes.len()) as u64;
        put_header(&mut headers, *section, names.len() as u64, offset)?;
        names.extend_from_slice(section.0.as_bytes())?;
        names.push(0)?;
        bytes.extend_from_slice(section.2)?;
    }
    let name = names.len() as u64;
    names.extend_from_slice(b".shstrtab\0")?;
    let offset = start.saturating_add(bytes.len()) as u64;
    put_header(
        &mut headers,
        (".shstrtab", [3, 0, 0, 0], &names),
        name,
        offset,
    )?;
    bytes.extend_from_slice(&names)?;
    let table = start.saturating_add(bytes.len()) as u64;
    let last = sections.len() as u64;
    let mut file = Vec::from_slice(alloc, b"\x7fELF\x02\x01\x01\0\0\0\0\0\0\0\0\0")?;
    put(&mut file, 2, &[3, 62])?;
    put(&mut file, 4, &[1])?;
    put(&mut file, 8, &[0, 64, table])?;
    put(&mut file, 4, &[0])?;
    put(&mut file, 2, &[64, 56, programs.len() as u64, 64])?;
    put(&mut file, 2, &[last.saturating_add(1), last])?;
    for (kind, address) in programs {
        put(&mut file, 4, &[*kind, 5])?;
        put(&mut file, 8, &[0, *address, *address, 0, 0, 4096])?;
    }
    file.extend_from_slice(&bytes)?;
    file.extend_from_slice(&headers)?;
    Ok(file)
}
