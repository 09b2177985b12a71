//! The two calls that make a dump of an image (`debug_read`, `dumpsyms_cmd`).
ghost use Rattle.debug_read.specs.DebugSays.{IsDebugRead};

use crate::comparison::same;
use crate::files::{Given, file_by, joined};
use crate::rows::{FRONT, PUSH_RBP, PUSH_RBP_LINES};
use debug_read::{DebugRead, read_debug};
use dumpsyms_cmd::{Dumped, assemble};
use elf_sections::{Image, read_image};
use std::alloc::Global;
use std::test::Fail;
use std::thread::Threads;
use sym_edges::{CallList, MemSink, OutOfMemory};
use unit_workers::{Crew, NoGate};

/// How many headers, units and frame entries of each section were read, and the dump that is made of them.
fn made_of<R: Threads + Sync>(
    rt: &R,
    alloc: Global,
    image: &Image<'_>,
    read: &DebugRead<'_>,
) -> Result<([usize; 4], Dumped), OutOfMemory>
    requires { IsDebugRead image.now read.now }
{
    let counts = [
        read.headers.len(),
        read.units.as_slice().len(),
        read.first.len(),
        read.second.len(),
    ];
    let dumped = assemble(&Crew::new(rt, alloc, 4), image, read, b"a.out", false)?;
    Ok((counts, dumped))
}

/// The same, given an image.
fn made_of_image<R: Threads + Sync>(
    rt: &R,
    alloc: Global,
    image: &Image<'_>,
) -> Result<([usize; 4], Dumped), Fail> {
    match read_debug(&Crew::new(rt, alloc, 4), image, &NoGate) {
        Ok(read) => Ok(made_of(rt, alloc, image, &read)?),
        Err(_) => Err("nothing is read".into()),
    }
}

/// A file, what is read of it, and its records after MODULE and INFO.
const FILES: [(&str, Given, &[usize], &[u8]); 2] = [
    (
        "push rbp",
        Given::Units(&[], PUSH_RBP),
        &[0, 0, 1, 0],
        PUSH_RBP_LINES,
    ),
    (
        "of one range",
        Given::InLongCode(&[
            (2, b"a\0", 0x2000, 0x10, b""),
            (2, b"b\0", 0x2000, 0x10, b""),
        ]),
        &[1, 1, 0, 0],
        b"FUNC m 2000 10 0 a\n",
    ),
];

#[test]
fn images_are_read_and_dumped(rt: HostRuntime) -> Result<(), Fail> {
    let alloc = rt.alloc();
    for (row, given, counts, records) in FILES {
        let file = file_by(alloc, given)?;
        let image = read_image(alloc, &file)?;
        let (found, dumped) = made_of_image(&rt, alloc, &image)?;
        same(&rt, row, &found, counts);
        same(&rt, row, &[dumped.err.len(), dumped.omitted], &[0, 0]);
        let none = CallList::of(Vec::new(alloc));
        let mut sink = MemSink::new(alloc, 1000, 1000, none)?;
        let _written = dumped.file.write(&mut sink);
        same(&rt, row, sink.written(), &joined(alloc, &[FRONT, records])?);
    }
    Ok(())
}
