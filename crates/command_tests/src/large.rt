//! Sections and files whose sizes need more than 16 bits. Memory suffices for them.
use std::alloc::{AllocError, Global};
use test_rows::elf::{ID, NULL, file_of, put};

/// The number of frame entries, each for one address, that have more than 65,535 bytes together.
const ENTRIES: u64 = 2731;

/// The number of records.
const RECORDS: u64 = 0x10000;

/// A CIE with the rules at a call, and entries from 1000 on, of 24 bytes each.
fn frames(alloc: Global) -> Result<Vec<u8>, AllocError> {
    let cie = b"\x14\0\0\0\0\0\0\0\x01zR\0\x01\x78\x10\x01\x1b\x0c\x07\x08\x90\x01\0\0";
    let mut frames = Vec::from_slice(alloc, cie)?;
    for k in 0..ENTRIES {
        let place = frames.len() as u64;
        let start = k.wrapping_add(0x1000);
        let field = place.wrapping_add(0x2008);
        put(&mut frames, 4, &[0x14, place.wrapping_add(4)])?;
        put(&mut frames, 4, &[start.wrapping_sub(field), 1])?;
        put(&mut frames, 8, &[0])?;
    }
    Ok(frames)
}

/// A file of these entries, and their records.
pub fn framed(alloc: Global) -> Result<(Vec<u8>, Vec<u8>), AllocError> {
    let frames = frames(alloc)?;
    let code = Vec::from_elem(alloc, 0x90u8, ENTRIES as usize)?;
    let sections = [
        NULL,
        ID,
        (".text", [1, 6, 0x1000, 0], code.as_slice()),
        (".eh_frame", [1, 2, 0x2000, 0], frames.as_slice()),
    ];
    let file = file_of(alloc, &[(1, 0)], &sections)?;
    let mut text = Vec::new(alloc);
    for k in 0..ENTRIES {
        let start = k.wrapping_add(0x1000);
        let line = format!(in alloc;
            "STACK CFI INIT {start:x} 1 .cfa: $rsp 8 + .ra: .cfa -8 + ^\n"
        )?;
        text.extend_from_slice(line.as_bytes())?;
    }
    Ok((file, text))
}

/// A symbol file of many functions of sixteen bytes, of which two have frame rules.
pub fn functions(alloc: Global) -> Result<Vec<u8>, AllocError> {
    let mut text = Vec::from_slice(alloc, b"MODULE Linux x86_64 0 a\n")?;
    for k in 0..RECORDS {
        let start = k.wrapping_mul(16);
        let line = format!(in alloc; "FUNC {start:x} 10 0 f{k:x}\n")?;
        text.extend_from_slice(line.as_bytes())?;
    }
    text.extend_from_slice(b"STACK CFI INIT 1000 20 .cfa: $rsp 8 + .ra: .cfa -8 + ^\n")?;
    Ok(text)
}

/// The frames of a stack with this file.
pub const STEPS: &[u8] = b"0 1005\nf100 at ?\n1 2005\nf200 at ?\nend no-rules\n";
