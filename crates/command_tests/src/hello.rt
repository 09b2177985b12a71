//! A program of a C compiler in the usual layout: the files `hello`, one without debug information and one with only that, and its text.
use std::alloc::{AllocError, Global};
use test_rows::elf::{ID, NULL, Section, file_of};

/// The build id 00 01 .. 12 14.
pub const OTHER_ID: Section<'static> = (
    ".note.gnu.build-id",
    [7, 0, 0, 0],
    b"\x04\0\0\0\x14\0\0\0\x03\0\0\0GNU\0\0\x01\x02\x03\x04\x05\x06\x07\x08\x09\x0a\x0b\x0c\x0d\x0e\x0f\x10\x11\x12\x14",
);

/// Frame entries: that of `_start`, whose return address is undefined; at 48 that of the procedure linkage table; and that of `main`.
const FRAMES: &[u8] = b"\
    \x14\0\0\0\0\0\0\0\x01zR\0\x01\x78\x10\x01\x1b\x0c\x07\x08\x90\x01\0\0\
    \x14\0\0\0\x1c\0\0\0\x20\xf0\xff\xff\x22\0\0\0\0\x07\x10\0\0\0\0\0\
    \x14\0\0\0\0\0\0\0\x01zR\0\x01\x78\x10\x01\x1b\x0c\x07\x08\x90\x01\0\0\
    \x24\0\0\0\x1c\0\0\0\xd0\xef\xff\xff\x20\0\0\0\0\
    \x0e\x10\x46\x0e\x18\x4a\x0f\x0b\x77\x08\x80\0\x3f\x1a\x3b\x2a\x33\x24\x22\0\0\0\0\
    \x1c\0\0\0\x44\0\0\0\xc1\xf0\xff\xff\x17\0\0\0\0\x41\x0e\x10\x86\x02\x43\x0d\x06\x52\x0c\x07\x08\0\0\0\
    \0\0\0\0";

/// A compile unit of version 5 with the function `main` and the type `int`.
const UNIT: &[u8] = b"\x4f\0\0\0\x05\0\x01\x08\0\0\0\0\
    \x01\0\0\0\0\x1d\x08\0\0\0\0\0\0\0\x39\x11\0\0\0\0\0\0\x17\0\0\0\0\0\0\0\0\0\0\0\
    \x02\x0f\0\0\0\x01\x03\x4b\0\0\0\x39\x11\0\0\0\0\0\0\x17\0\0\0\0\0\0\0\x01\x9c\
    \x03\x04\x05int\0\0";

/// DW_TAG_compile_unit (producer, language, name, comp_dir, low_pc, high_pc, stmt_list), DW_TAG_subprogram (external, name, decl_file,
/// decl_line, prototyped, type, low_pc, high_pc, frame_base) and DW_TAG_base_type (byte_size, encoding, name).
const ABBREVIATIONS: &[u8] = b"\
    \x01\x11\x01\x25\x0e\x13\x0b\x03\x1f\x1b\x1f\x11\x01\x12\x07\x10\x17\0\0\
    \x02\x2e\0\x3f\x19\x03\x0e\x3a\x0b\x3b\x0b\x27\x19\x49\x13\x11\x01\x12\x07\x40\x18\0\0\
    \x03\x24\0\x0b\x0b\x3e\x0b\x03\x08\0\0\0";

/// A line table of version 5: line 3 at 1139, line 4 at 113d, line 5 at 114c, end at 1150.
const LINES: &[u8] = b"\x47\0\0\0\x05\0\x08\0\x2a\0\0\0\
    \x01\x01\x01\xfb\x0e\x0d\0\x01\x01\x01\x01\0\0\0\x01\0\0\x01\
    \x01\x01\x1f\x01\0\0\0\0\x02\x01\x1f\x02\x0b\x02\x08\0\0\0\0\x08\0\0\0\0\
    \x05\x0c\0\x09\x02\x39\x11\0\0\0\0\0\0\x14\x4b\xe5\x02\x04\0\x01\x01";

/// The functions `_init` at 1000, `_start` at 1040 and `main` at 1139.
const SYMBOLS: &[u8] = b"\0\0\0\0\0\0\0\0\0\0\0\0\0\0\0\0\0\0\0\0\0\0\0\0\
    \x01\0\0\0\x12\0\x02\0\0\x10\0\0\0\0\0\0\0\0\0\0\0\0\0\0\
    \x07\0\0\0\x12\0\x04\0\x40\x10\0\0\0\0\0\0\x22\0\0\0\0\0\0\0\
    \x0e\0\0\0\x12\0\x04\0\x39\x11\0\0\0\0\0\0\x17\0\0\0\0\0\0\0";

/// The records after MODULE and INFO.
pub const HELLO: &[u8] = b"FILE 0 /home/u/hello.c\n\
    FUNC 1139 17 0 main\n1139 4 3 0\n113d f 4 0\n114c 4 5 0\n\
    PUBLIC 1000 0 _init\nPUBLIC 1040 0 _start\n\
    STACK CFI INIT 1040 22 .cfa: $rsp 8 +\n\
    STACK CFI INIT 1020 20 .cfa: $rsp 16 + .ra: .cfa -8 + ^\n\
    STACK CFI 1026 .cfa: $rsp 24 +\n\
    STACK CFI 1030 .cfa: $rsp 8 + $rip 0 + 16 % 5 + 16 / 8 * +\n\
    STACK CFI INIT 1139 17 .cfa: $rsp 8 + .ra: .cfa -8 + ^\n\
    STACK CFI 113a .cfa: $rsp 16 + $rbp: .cfa -16 + ^\n\
    STACK CFI 113d .cfa: $rbp 16 +\n\
    STACK CFI 114f .cfa: $rsp 8 +\n";

/// Which parts of the program a file has.
#[derive(Clone, Copy)]
pub enum Parts {
    All,
    /// No debug information and no symbols.
    Stripped,
    /// Only debug information and symbols, and no bytes for code and frames (SHT_NOBITS).
    Debug,
}

/// The first bytes of the code, at most this many.
fn front(body: &[u8], count: usize) -> &[u8] {
    body.split_at(count.min(body.len())).0
}

/// The sections that are loaded, with this type.
fn loaded<'a>(id: Section<'a>, kind: u64, body: &'a [u8]) -> [Section<'a>; 6] {
    [
        NULL,
        id,
        (".init", [kind, 6, 0x1000, 0], front(body, 0x1b)),
        (".plt", [kind, 6, 0x1020, 0], front(body, 0x20)),
        (".text", [kind, 6, 0x1040, 0], body),
        (".eh_frame", [kind, 2, 0x2000, 0], FRAMES),
    ]
}

/// Debug information and symbols; the symbols' names are in section 12.
const DEBUG: [Section<'static>; 7] = [
    (".debug_info", [1, 0, 0, 0], UNIT),
    (".debug_abbrev", [1, 0, 0, 0], ABBREVIATIONS),
    (".debug_line", [1, 0, 0, 0], LINES),
    (".debug_str", [1, 0, 0, 0], b"GNU C17 13.2.0\0main\0"),
    (".debug_line_str", [1, 0, 0, 0], b"/home/u\0hello.c\0"),
    (".symtab", [2, 0, 0, 12], SYMBOLS),
    (".strtab", [3, 0, 0, 0], b"\0_init\0_start\0main\0"),
];

/// The program with this build id, or a part of it.
pub fn hello(alloc: Global, id: Section<'static>, parts: Parts) -> Result<Vec<u8>, AllocError> {
    let kind = if matches!(parts, Parts::Debug) { 8 } else { 1 };
    let body = Vec::from_elem(alloc, 0x90u8, 0x110)?;
    let mut sections = Vec::from_array(alloc, loaded(id, kind, body.as_slice()))?;
    if !matches!(parts, Parts::Stripped) {
        sections.extend_from_slice(&DEBUG)?;
    }
    file_of(alloc, &[(1, 0)], &sections)
}

/// The whole program.
pub fn whole(alloc: Global) -> Result<Vec<u8>, AllocError> {
    hello(alloc, ID, Parts::All)
}
