//! Tests of what no contract says: memory suffices even for many segments, notes and mappings.
use crate::byte_list::ByteList;
use crate::core_read::read_core;
use crate::held::HeldBytes;
use std::alloc::Global;
use std::mem::size_of;
use std::test::Fail;
use sym_edges::OutOfMemory;

/// A list of zeros.
fn zeros(alloc: Global, count: usize) -> Result<Vec<u8>, OutOfMemory> {
    let bytes = vec![in alloc; 0; count]?;
    Ok(bytes)
}

fn put4(bytes: &mut Vec<u8>, n: u32) -> Result<(), OutOfMemory> {
    bytes.extend_from_slice(n.to_le_bytes().as_slice())?;
    Ok(())
}

fn put8(bytes: &mut Vec<u8>, n: u64) -> Result<(), OutOfMemory> {
    bytes.extend_from_slice(n.to_le_bytes().as_slice())?;
    Ok(())
}

/// A file header for this many program headers of 56 bytes.
fn put_header(bytes: &mut Vec<u8>, programs: u16) -> Result<(), OutOfMemory> {
    bytes.extend_from_slice(b"\x7fELF\x02\x01\x01\0\0\0\0\0\0\0\0\0")?;
    put4(bytes, 4 + (62 << 16))?;
    put4(bytes, 1)?;
    put8(bytes, 0)?;
    put8(bytes, 64)?;
    put8(bytes, 0)?;
    put8(bytes, (64 << 32) + (56 << 48))?;
    bytes.extend_from_slice(programs.to_le_bytes().as_slice())?;
    bytes.extend_from_slice(b"\0\0\0\0\0\0")?;
    Ok(())
}

/// A program header: its type, place, address and size.
fn put_program(
    bytes: &mut Vec<u8>,
    kind: u32,
    offset: u64,
    address: u64,
    size: u64,
) -> Result<(), OutOfMemory> {
    put4(bytes, kind)?;
    put4(bytes, 5)?;
    put8(bytes, offset)?;
    put8(bytes, address)?;
    put8(bytes, 0)?;
    put8(bytes, size)?;
    put8(bytes, size)?;
    put8(bytes, 4096)
}

fn put_note(bytes: &mut Vec<u8>, kind: u32, descriptor: &[u8]) -> Result<(), OutOfMemory> {
    put4(bytes, 5)?;
    put4(bytes, descriptor.len().min(1 << 20) as u32)?;
    put4(bytes, kind)?;
    bytes.extend_from_slice(b"CORE\0\0\0\0")?;
    bytes.extend_from_slice(descriptor)?;
    Ok(())
}

/// This many notes with states of 336 bytes, and a note of as many mappings, each of another file.
fn notes(alloc: Global, count: u16) -> Result<Vec<u8>, OutOfMemory> {
    let mut bytes = Vec::new(alloc);
    let state = zeros(alloc, 336)?;
    let mut files = Vec::new(alloc);
    put8(&mut files, u64::from(count))?;
    put8(&mut files, 4096)?;
    for k in 0..count {
        put_note(&mut bytes, 1, state.as_slice())?;
        put8(&mut files, u64::from(k) * 4096)?;
        put8(&mut files, u64::from(k) * 4096 + 4096)?;
        put8(&mut files, 0)?;
    }
    for _ in 0..count {
        files.extend_from_slice(b"/a\0\0")?;
    }
    put_note(&mut bytes, 0x4649_4c45, files.as_slice())?;
    Ok(bytes)
}

/// A core with one segment of notes and this many loaded segments, which overlap.
fn many(alloc: Global, count: u16) -> Result<Vec<u8>, OutOfMemory> {
    let notes = notes(alloc, count)?;
    let size = notes.len().min(1 << 30) as u64;
    let place = 64 + 56 * (u64::from(count) + 1);
    let mut bytes = Vec::new(alloc);
    put_header(&mut bytes, count.min(65_000) + 1)?;
    put_program(&mut bytes, 4, place, 0, size)?;
    for k in 0..count {
        put_program(&mut bytes, 1, place + u64::from(k), u64::from(k) * 8, 64)?;
    }
    bytes.extend_from_slice(notes.as_slice())?;
    Ok(bytes)
}

#[test]
fn many_segments_notes_and_mappings(rt: HostRuntime) -> Result<(), Fail> {
    let alloc = rt.alloc();
    let count = 2000;
    let file = many(alloc, count)?;
    let mut held = HeldBytes::new(alloc);
    held.push(file.as_slice()).ok().expect(&rt, "held");
    let core = read_core(alloc, &held).ok().expect(&rt, "a core");
    assert_eq!(rt; core.threads().len(), 2000);
    assert_eq!(rt; core.modules().len(), 2000);
    assert_eq!(rt; core.byte(0), Some(5));
    assert_eq!(rt; core.byte(15_999), Some(0));
    assert_eq!(rt; core.word(1 << 40), None);
    assert!(rt; core.is_code(15_999));
    Ok(())
}

#[test]
fn a_long_stream_of_zeros(rt: HostRuntime) -> Result<(), Fail> {
    let alloc = rt.alloc();
    let piece = zeros(alloc, 1 << 20)?;
    let mut held = HeldBytes::new(alloc);
    for _ in 0..64 {
        held.push(piece.as_slice()).ok().expect(&rt, "zeros");
    }
    held.push(b"\x07").ok().expect(&rt, "a byte");
    assert_eq!(rt; held.len(), (1 << 26) + 1);
    let last: usize = 1 << 26;
    if last < held.len() {
        assert_eq!(rt; held.byte(last), 7);
        assert_eq!(rt; held.byte(last - 1), 0);
    }
    Ok(())
}

#[test]
fn sizes(rt: HostRuntime) {
    assert_eq!(rt; size_of::<crate::segments::Segment>(), 40);
    assert_eq!(rt; size_of::<crate::threads::Thread>(), 144);
    assert_eq!(rt; size_of::<crate::files::FilePlace>(), 40);
}
