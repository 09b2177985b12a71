//! A unit that takes long, and another that is read meanwhile (`debug_read`).
use crate::comparison::same;
use debug_read::read_debug;
use elf_sections::read_image;
use std::alloc::{AllocError, Global};
use std::test::Fail;
use std::thread::Threads;
use test_rows::Holding;
use test_rows::elf::{EIGHT_OR_FOUR, LONG_CODE, NULL, UNIT, file_of};
use unit_workers::Crew;

/// A file of two units with one entry each.
fn two_units(alloc: Global) -> Result<Vec<u8>, AllocError> {
    let mut units = Vec::from_slice(alloc, UNIT)?;
    units.extend_from_slice(UNIT)?;
    let sections = [
        NULL,
        LONG_CODE,
        (".debug_info", [1, 0, 0, 0], units.as_slice()),
        (".debug_abbrev", [1, 0, 0, 0], EIGHT_OR_FOUR),
    ];
    file_of(alloc, &[(1, 0)], &sections)
}

/// How many entries of each of the units of a file two workers read.
fn entries_of<R: Threads + Sync>(
    rt: &R,
    alloc: Global,
    file: &[u8],
    gate: &Holding,
) -> Result<Vec<u64>, Fail> {
    let image = read_image(alloc, file)?;
    let read = read_debug(&Crew::new(rt, alloc, 2), &image, gate)?;
    let mut counts = Vec::new(alloc);
    for unit in read.units.as_slice() {
        counts.push(unit.die.dies().len() as u64)?;
    }
    Ok(counts)
}

#[test]
fn a_held_unit_holds_up_no_other(rt: HostRuntime) -> Result<(), Fail> {
    let alloc = rt.alloc();
    let gate = Holding::new(0, 1);
    let file = two_units(alloc)?;
    let found = entries_of(&rt, alloc, &file, &gate)?;
    same(&rt, "what is read", &found, &[1, 1]);
    same(&rt, "the other is reached", &gate.seen(), &[1, 0]);
    Ok(())
}
