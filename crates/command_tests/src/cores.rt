//! Core files, and the rows of `stacks`.
use crate::files::{Given, joined};
use crate::rows::{Row, UNREAD, Words};
use std::alloc::{AllocError, Global};
use test_rows::elf::put;

pub const STACKS: Words = &["stacks", "d/a.out", "d"];

/// The symbol file of the module, below the folder `d`, and its records: a function and its caller; no rule gives the return address of the caller.
pub const SYMBOL_FILE: &str = "d/a/030201000504070608090A0B0C0D0E0F0/a.sym";

pub const SYMBOLS: &[u8] = b"MODULE Linux x86_64 030201000504070608090A0B0C0D0E0F0 a\n\
    FUNC 1000 20 0 f\nFUNC 2000 10 0 g\n\
    STACK CFI INIT 1000 20 .cfa: $rsp 8 + .ra: .cfa -8 + ^\nSTACK CFI INIT 2000 10 .cfa: $rsp 8 +\n";

/// The first address of the module, and the address after its last.
const START: u64 = 0x5555_5555_0000;

const END: u64 = 0x5555_5555_4000;

/// A file header of this type, for a number of program headers after it.
fn put_file_header(bytes: &mut Vec<u8>, kind: u64, count: u64) -> Result<(), AllocError> {
    bytes.extend_from_slice(b"\x7fELF\x02\x01\x01\0\0\0\0\0\0\0\0\0")?;
    put(bytes, 2, &[kind, 62])?;
    put(bytes, 4, &[1])?;
    put(bytes, 8, &[0, 64, 0])?;
    put(bytes, 4, &[0])?;
    put(bytes, 2, &[64, 56, count, 0, 0, 0])
}

/// A program header: first its type and flags, then its offset, address, and sizes in the file and in memory.
fn put_program(bytes: &mut Vec<u8>, kind: [u64; 2], place: [u64; 4]) -> Result<(), AllocError> {
    let [offset, address, size, memory] = place;
    put(bytes, 4, &kind)?;
    put(bytes, 8, &[offset, address, address, size, memory, 1])
}

/// A note whose owner has three or four letters.
fn put_note(
    bytes: &mut Vec<u8>,
    owner: &[u8],
    kind: u64,
    descriptor: &[u8],
) -> Result<(), AllocError> {
    put(
        bytes,
        4,
        &[owner.len() as u64, descriptor.len() as u64, kind],
    )?;
    bytes.extend_from_slice(owner)?;
    put(bytes, owner.len().wrapping_neg() % 4, &[0])?;
    bytes.extend_from_slice(descriptor)?;
    put(bytes, descriptor.len().wrapping_neg() % 4, &[0])
}

/// The first bytes of the module in memory: its file header, a segment of 3010 bytes of code, and its build id.
fn image(alloc: Global) -> Result<Vec<u8>, AllocError> {
    let mut bytes = Vec::new(alloc);
    put_file_header(&mut bytes, 3, 2)?;
    put_program(&mut bytes, [1, 5], [0, 0, 0x3010, 0x3010])?;
    put_program(&mut bytes, [4, 4], [176, 176, 36, 36])?;
    put_note(
        &mut bytes,
        b"GNU\0",
        3,
        b"\x00\x01\x02\x03\x04\x05\x06\x07\x08\x09\x0a\x0b\x0c\x0d\x0e\x0f\x10\x11\x12\x13",
    )?;
    Ok(bytes)
}

/// The state of thread 1, which had signal 11: its rip, and 7000 as its rsp.
fn state(alloc: Global, rip: u64) -> Result<Vec<u8>, AllocError> {
    let mut bytes = Vec::new(alloc);
    put(&mut bytes, 4, &[0, 0, 0])?;
    put(&mut bytes, 2, &[11])?;
    put(&mut bytes, 2, &[0, 0, 0, 0, 0, 0, 0, 0, 0])?;
    put(&mut bytes, 4, &[1])?;
    put(&mut bytes, 4, &[0; 19])?;
    put(&mut bytes, 8, &[0; 16])?;
    put(&mut bytes, 8, &[rip, 0x33, 0x202, 0x7000])?;
    put(&mut bytes, 8, &[0; 8])?;
    Ok(bytes)
}

/// The core file of a process with one module and one thread, with these bytes at 7000.
pub fn core_at(alloc: Global, rip: u64, stack: &[u8]) -> Result<Vec<u8>, AllocError> {
    let image = image(alloc)?;
    let mut notes = Vec::new(alloc);
    put_note(&mut notes, b"CORE\0", 1, &state(alloc, rip)?)?;
    let mut files = Vec::new(alloc);
    put(&mut files, 8, &[1, 4096, START, END, 0])?;
    files.extend_from_slice(b"/x/a\0")?;
    put_note(&mut notes, b"CORE\0", 0x4649_4c45, &files)?;
    let (first, second, third) = (notes.len() as u64, image.len() as u64, stack.len() as u64);
    let mut bytes = Vec::new(alloc);
    put_file_header(&mut bytes, 4, 3)?;
    put_program(&mut bytes, [4, 0], [232, 0, first, 0])?;
    let place = first.saturating_add(232);
    put_program(&mut bytes, [1, 5], [place, START, second, 0x4000])?;
    let place = place.saturating_add(second);
    put_program(&mut bytes, [1, 6], [place, 0x7000, third, 0x1000])?;
    joined(alloc, &[&bytes, &notes, &image, stack])
}

const RIP: u64 = 0x5555_5555_1005;

/// The return addresses 555555551005 and 555555552005.
const TO_F: &[u8] = b"\x05\x10\x55\x55\x55\x55\0\0\x05\x20\x55\x55\x55\x55\0\0";

const TO_G: &[u8] = b"\x05\x20\x55\x55\x55\x55\0\0";

pub const IN_F: Given = Given::Core(RIP, TO_G);

const HEAD: &[u8] =
    b"signal 11\nmodule 555555550000 555555554000 a 030201000504070608090A0B0C0D0E0F0\nthread 1\n";

/// The output for a process without a symbol file.
pub const WITHOUT: &[&[u8]] = &[HEAD, b"0 555555551005 a\nnone\nend no-symbols\n"];

pub const MISSING: &[u8] = b"missing a 030201000504070608090A0B0C0D0E0F0\n";

pub const WITH: &[&[u8]] = &[
    HEAD,
    b"0 555555551005 a\nf at ?\n1 555555552005 a\ng at ?\nend ra-undefined\n",
];

/// Arguments, and core files.
pub const CORE_ROWS: [Row; 7] = [
    ("a stack of a core", &[STACKS], IN_F, 0, WITH, &[]),
    (
        "no symbol file",
        &[&["stacks", "d/a.out", "e"]],
        IN_F,
        0,
        WITHOUT,
        &[MISSING],
    ),
    (
        "a call through null",
        &[STACKS],
        Given::Core(0, TO_F),
        0,
        &[
            HEAD,
            b"0 0\nnone\n1 555555551005 a\nf at ?\n2 555555552005 a\ng at ?\nend ra-undefined\n",
        ],
        &[],
    ),
    (
        "outside of all modules",
        &[STACKS],
        Given::Core(0x1000, b""),
        0,
        &[HEAD, b"0 1000\nnone\nend ra-failed unreadable 7000\n"],
        &[],
    ),
    (
        "no core",
        &[STACKS],
        Given::Small,
        1,
        &[],
        &[b"refused core kind\n"],
    ),
    (
        "a text as a core",
        &[STACKS],
        Given::Bytes(SYMBOLS),
        1,
        &[],
        &[b"refused core not-elf\n"],
    ),
    (
        "another core",
        &[&["stacks", "other", "d"]],
        IN_F,
        3,
        &[],
        &[UNREAD],
    ),
];
