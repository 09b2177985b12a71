//! Entries with many rows, or with many remembered rows (`frame_rows`), and their records (`rule_postfix`).
ghost use Rattle.std.specs.Prelude.{◌+◌, ◌<◌, ◌^◌};

use crate::comparison::same;
use frame_entries::Fde;
use frame_rows::{CfaRule, CieState, Row, Stepper, inspect, rows};
use rule_postfix::translate;
use std::alloc::{AllocError, Global};
use std::process::Abort;
use std::test::Fail;

/// An entry from 1000 on, after initial instructions as at a call: the CFA is rsp + 8, and the return address is saved at the CFA - 8.
#[tactic(auto, unfolding(frame_entries::specs::Pointers::is_encoding, frame_entries::specs::Pointers::is_format))]
fn called(instructions: &[u8]) -> Fde<'_>
    ensures some { 0 < result.size }
    ensures fits { result.start + result.size < 2 ^ 64 }
{
    Fde {
        cie: 0,
        start: 0x1000,
        size: 0x10000,
        code_align: 1,
        data_align: -8,
        encoding: 0x1b,
        initial_instructions: b"\x0c\x07\x08\x90\x01\0\0",
        instructions,
        instructions_address: 0x2029,
    }
}

/// An address and the offset of the CFA there.
fn see(address: u64, row: &Row) -> (u64, i64) {
    match row.cfa {
        Some(CfaRule::Base { offset, .. }) => (address, offset),
        _ => (address, 0),
    }
}

/// The rows that a stepper goes over.
fn steps_of(alloc: Global, mut stepper: Stepper<'_, '_>) -> Result<Vec<(u64, i64)>, Fail> {
    let mut found = Vec::new(alloc);
    for _ in 0..0x10000 {
        found.push(see(stepper.address(), stepper.row()))?;
        if !stepper.step()? {
            break;
        }
    }
    Ok(found)
}

/// The rows of an entry.
fn rows_of(alloc: Global, fde: &Fde<'_>) -> Result<Vec<(u64, i64)>, Fail>
    requires some { 0 < fde.now.size }
    requires fits { fde.now.start + fde.now.size < 2 ^ 64 }
{
    let mut found = Vec::new(alloc);
    for row in rows(alloc, fde)?.as_slice() {
        found.push(see(row.address, &row.row))?;
    }
    Ok(found)
}

/// The same rows, from a stepper that executes the initial instructions itself.
fn rows_by_steps(alloc: Global, fde: &Fde<'_>) -> Result<Vec<(u64, i64)>, Fail>
    requires some { 0 < fde.now.size }
    requires fits { fde.now.start + fde.now.size < 2 ^ 64 }
{
    steps_of(alloc, Stepper::new(alloc, fde)?)
}

/// The same rows, from a stepper that begins with the result of the initial instructions.
fn rows_behind(alloc: Global, fde: &Fde<'_>) -> Result<Vec<(u64, i64)>, Fail>
    requires some { 0 < fde.now.size }
    requires fits { fde.now.start + fde.now.size < 2 ^ 64 }
{
    let state = CieState::of(alloc, fde)?;
    steps_of(alloc, Stepper::begin(alloc, &state, fde)?)
}

/// The text of the entry with these rows: a record for each row whose CFA has another offset.
fn text_of(alloc: Global, rows: &[(u64, i64)]) -> Result<Vec<u8>, AllocError> {
    let first = b"STACK CFI INIT 1000 10000 .cfa: $rsp 8 + .ra: .cfa -8 + ^\n";
    let mut text = Vec::from_slice(alloc, first)?;
    let mut before = 8;
    for (address, offset) in rows {
        if *offset != before {
            let line = format!(in alloc; "STACK CFI {address:x} .cfa: $rsp {offset} +\n")?;
            text.extend_from_slice(line.as_bytes())?;
            before = *offset;
        }
    }
    Ok(text)
}

/// The text of its records.
fn translated(alloc: Global, fde: &Fde<'_>) -> Result<Vec<u8>, Fail>
    requires some { 0 < fde.now.size }
    requires fits { fde.now.start + fde.now.size < 2 ^ 64 }
{
    Ok(translate(alloc, fde, 0)?.into_vec())
}

/// An entry of these instructions has these rows, by all calls that give them.
fn expect_rows(
    rt: &impl Abort,
    alloc: Global,
    row: &str,
    instructions: &[u8],
    wanted: &[(u64, i64)],
) -> Result<(), Fail> {
    let fde = called(instructions);
    same(rt, row, &rows_of(alloc, &fde)?, wanted);
    same(rt, row, &rows_by_steps(alloc, &fde)?, wanted);
    same(rt, row, &rows_behind(alloc, &fde)?, wanted);
    same(rt, row, &[inspect(alloc, &fde)?], &[None]);
    same(rt, row, &translated(alloc, &fde)?, &text_of(alloc, wanted)?);
    Ok(())
}

/// The number of rows that are remembered at once.
const NESTED: u64 = 100;

/// Each row is remembered, and then the CFA gets another offset; afterwards each row is restored.
fn nested(alloc: Global) -> Result<Vec<u8>, AllocError> {
    let mut instructions = Vec::new(alloc);
    for number in 1..NESTED + 1 {
        let offset = (number % 16 * 8) as u8;
        instructions.extend_from_slice(&[0x0a, 0x41, 0x0e, offset])?;
    }
    for _ in 0..NESTED {
        instructions.extend_from_slice(b"\x41\x0b")?;
    }
    Ok(instructions)
}

fn nested_rows(alloc: Global) -> Result<Vec<(u64, i64)>, AllocError> {
    let mut rows = Vec::new(alloc);
    rows.push((0x1000, 8))?;
    for number in 1..NESTED + 1 {
        rows.push((0x1000 + number, (number % 16 * 8) as i64))?;
    }
    for number in 1..NESTED {
        let left = NESTED - number;
        rows.push((0x1000 + NESTED + number, (left % 16 * 8) as i64))?;
    }
    rows.push((0x1000 + 2 * NESTED, 8))?;
    Ok(rows)
}

/// The number of rows of the longest entry after its first.
const MANY: u64 = 5000;

fn many(alloc: Global) -> Result<Vec<u8>, AllocError> {
    let mut instructions = Vec::new(alloc);
    for number in 1..MANY + 1 {
        instructions.extend_from_slice(&[0x41, 0x0e, (number % 128) as u8])?;
    }
    Ok(instructions)
}

fn many_rows(alloc: Global) -> Result<Vec<(u64, i64)>, AllocError> {
    let mut rows = Vec::new(alloc);
    rows.push((0x1000, 8))?;
    for number in 1..MANY + 1 {
        rows.push((0x1000 + number, (number % 128) as i64))?;
    }
    Ok(rows)
}

#[test]
fn entries_have_their_rows(rt: HostRuntime) -> Result<(), Fail> {
    let instructions = nested(rt.alloc())?;
    let wanted = nested_rows(rt.alloc())?;
    expect_rows(&rt, rt.alloc(), "nested rows", &instructions, &wanted)?;
    let instructions = many(rt.alloc())?;
    let wanted = many_rows(rt.alloc())?;
    expect_rows(&rt, rt.alloc(), "many rows", &instructions, &wanted)
}
