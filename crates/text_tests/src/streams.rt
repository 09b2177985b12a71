//! What `sym_edges` does with files and streams of the system that are slow, interrupted or broken, and with stores and sinks in memory.
use crate::comparison::same;
use crate::fakes::{Fake, FakeFiles, Turn};
use std::alloc::{AllocError, Global};
use std::fs::{self, Files};
use std::test::Fail;
use sym_edges::{
    ByteRun, CallList, FileList, FileStore, MemStore, NameText, NamedFile, ReadEnd, Stop,
    StreamSink, read_all, write_all,
};

/// How a file of four bytes is read, and what is read of it.
const READINGS: [(&str, (Turn, Turn), &[u8]); 6] = [
    ("a byte at once", (Turn::Moves(1), Turn::Moves(1)), b"abcd"),
    ("nothing more", (Turn::Moves(2), Turn::Moves(0)), b"ab"),
    ("an error inside", (Turn::Moves(2), Turn::Fails), NOT_READ),
    (
        "99 signals",
        (Turn::Moves(2), Turn::Interrupted(99)),
        b"abcd",
    ),
    (
        "100 signals",
        (Turn::Moves(2), Turn::Interrupted(100)),
        NOT_READ,
    ),
    ("an error at once", (Turn::Fails, Turn::Fails), NOT_READ),
];

/// A name in a store in memory, the numbers of the calls that fail, and what is read.
const MEMORY: [(&str, &[u64], &[u8]); 5] = [
    ("a", &[], b"abcd"),
    ("b", &[], b"(too long)"),
    ("c", &[], NOT_OPENED),
    ("a", &[1], NOT_OPENED),
    ("a", &[3], NOT_READ),
];

/// How four bytes are written, which of them are taken, and whether that is all of them.
const WRITINGS: [(&str, (Turn, Turn), &[u8], bool); 5] = [
    (
        "a byte at once",
        (Turn::Moves(1), Turn::Moves(1)),
        b"abcd",
        true,
    ),
    (
        "nothing taken",
        (Turn::Moves(2), Turn::Moves(0)),
        b"ab",
        false,
    ),
    (
        "an error inside",
        (Turn::Moves(1), Turn::Fails),
        b"a",
        false,
    ),
    (
        "99 signals",
        (Turn::Moves(3), Turn::Interrupted(99)),
        b"abcd",
        true,
    ),
    (
        "100 signals",
        (Turn::Moves(3), Turn::Interrupted(100)),
        b"abc",
        false,
    ),
];

const NOT_OPENED: &[u8] = b"(not opened)";

const NOT_READ: &[u8] = b"(not read)";

/// The bytes that were read, or a word for why the reading ended.
fn end_word(found: &Result<ByteRun, Stop<ReadEnd>>) -> &[u8] {
    match found {
        Ok(bytes) => bytes.as_slice(),
        Err(Stop::Fault(ReadEnd::CantOpen)) => NOT_OPENED,
        Err(Stop::Fault(ReadEnd::CantRead)) => NOT_READ,
        Err(Stop::Fault(ReadEnd::TooLong)) => b"(too long)",
        Err(Stop::NoMemory) => b"(no memory)",
    }
}

/// What is read of one of these files.
fn read_from<R: Files>(alloc: Global, files: &R, name: &str) -> Result<ByteRun, Stop<ReadEnd>> {
    read_all(alloc, &mut FileStore::new(alloc, files), name, 100_000)
}

fn file(alloc: Global, name: &str, bytes: &[u8]) -> Result<NamedFile, AllocError> {
    Ok(NamedFile {
        name: NameText::of(String::from_str(alloc, name)?),
        bytes: ByteRun::of(Vec::from_slice(alloc, bytes)?),
    })
}

/// A store in memory whose calls with these numbers fail.
fn store_of(alloc: Global, fail: &[u64]) -> Result<MemStore, AllocError> {
    let mut files = Vec::new(alloc);
    files.push(file(alloc, "a", b"abcd")?)?;
    files.push(file(alloc, "b", b"efghi")?)?;
    let fail = CallList::of(Vec::from_slice(alloc, fail)?);
    Ok(MemStore::new(alloc, FileList::of(files), 2, fail))
}

#[test]
fn files_are_read(rt: HostRuntime) -> Result<(), Fail> {
    let alloc = rt.alloc();
    for (row, turns, wanted) in READINGS {
        let files = FakeFiles {
            alloc,
            turns,
            source: b"abcd",
        };
        let found = read_from(alloc, &files, "any");
        same(&rt, row, end_word(&found), wanted);
    }
    for (name, fail, wanted) in MEMORY {
        let found = read_all(alloc, &mut store_of(alloc, fail)?, name, 4);
        same(&rt, name, end_word(&found), wanted);
    }
    let long = [7; 70_000];
    fs::write(&rt, "edges.bin", &long)?;
    let found = read_from(alloc, &rt, "edges.bin");
    same(&rt, "a file of two pieces", end_word(&found), &long);
    let missing = read_from(alloc, &rt, "edges.none");
    same(&rt, "no file", end_word(&missing), NOT_OPENED);
    fs::remove_file(&rt, "edges.bin")?;
    Ok(())
}

#[test]
fn streams_are_written(rt: HostRuntime) -> Result<(), Fail> {
    for (row, turns, wanted, whole) in WRITINGS {
        let mut held = Fake {
            turns,
            source: b"",
            held: Vec::new(rt.alloc()),
            calls: 0,
        };
        let mut sink = StreamSink::new(&mut held);
        let is_whole = write_all(&mut sink, b"abcd").is_ok();
        drop(sink);
        same(&rt, row, held.held.as_slice(), wanted);
        same(&rt, row, &[is_whole], &[whole]);
    }
    let mut sink = StreamSink::new(fs::create(&rt, "edges.out")?);
    let _written = write_all(&mut sink, b"some text");
    drop(sink);
    let taken = fs::read(&rt, "edges.out")?;
    same(&rt, "a file of the system", taken.as_slice(), b"some text");
    fs::remove_file(&rt, "edges.out")?;
    Ok(())
}
