//! What look-ups return by a scan and by an index, also for many functions (`sym_lookup`), and records that are spelled as they were read
//! (`sym_grammar`, `sym_records`).
ghost use Rattle.std.specs.Prelude.{◌<◌, ◌^◌, length};

use crate::comparison::same;
use crate::texts::file_of_text;
use std::alloc::{AllocError, Global};
use std::process::Abort;
use std::test::Fail;
use sym_edges::OutOfMemory;
use sym_lookup::{Answer, Index, answer_at};
use sym_records::{SymFile, render};

/// A function with an inlined copy in it.
const INLINED: &[u8] = b"MODULE Linux x86_64 0 a\nFILE 0 /s/a.c\nINLINE_ORIGIN 0 g\n\
    FUNC 1000 20 0 _Z1fv\nINLINE 0 4 0 0 1004 8\n1000 4 3 0\n1004 8 9 0\n100c 14 4 0\n";

/// A small program of a C compiler.
const HELLO: &[u8] = b"MODULE Linux x86_64 030201000504070608090A0B0C0D0E0F0 hello\n\
    INFO CODE_ID 000102030405060708090A0B0C0D0E0F10111213\nFILE 0 /home/u/hello.c\n\
    FUNC 1139 17 0 main\n1139 4 3 0\n113d f 4 0\n114c 4 5 0\n\
    PUBLIC 1000 0 _init\nPUBLIC 1040 0 _start\n\
    STACK CFI INIT 1040 22 .cfa: $rsp 8 +\n\
    STACK CFI INIT 1139 17 .cfa: $rsp 8 + .ra: .cfa -8 + ^\n\
    STACK CFI 113a .cfa: $rsp 16 + $rbp: .cfa -16 + ^\n\
    STACK CFI 113d .cfa: $rbp 16 +\nSTACK CFI 114f .cfa: $rsp 8 +\n";

/// A function without debug information.
const MAIN: &[u8] = b"MODULE Linux x86_64 030201000504070608090A0B0C0D0E0F0 a.out\n\
    INFO CODE_ID 000102030405060708090A0B0C0D0E0F10111213\nPUBLIC 1000 0 main\n";

type AnswerRow = (&'static str, &'static [u8], u64, &'static [usize]);

/// A text, an address, and the numbers that the answer must have. For a function these are its
/// place, the place of the line counted from 1 (or 0 without a line), and the places of the copies.
/// For a symbol it is only its place. There are none if nothing is found.
const ANSWERS: [AnswerRow; 8] = [
    ("main", MAIN, 0x1000, &[2]),
    ("in a copy", INLINED, 0x1005, &[3, 7, 4]),
    ("behind it", INLINED, 0x100c, &[3, 8]),
    ("behind the function", INLINED, 0x1020, &[]),
    ("a symbol", HELLO, 0x1045, &[8]),
    ("a function", HELLO, 0x1145, &[3, 6]),
    ("behind the last function", HELLO, 0x1150, &[]),
    ("before all", HELLO, 0xfff, &[]),
];

/// The places of an answer.
fn places_of(alloc: Global, answer: &Answer) -> Result<Vec<usize>, AllocError> {
    let mut places = Vec::new(alloc);
    match answer {
        Answer::Nothing => {}
        Answer::Public { index } => places.push(*index)?,
        Answer::Function { func, chain, line } => {
            places.push(*func)?;
            places.push(match line {
                Some(line) => line.saturating_add(1),
                None => 0,
            })?;
            places.extend_from_slice(chain.as_slice())?;
        }
    }
    Ok(places)
}

/// The records' texts, one after another.
fn rendered(alloc: Global, file: &SymFile) -> Result<Vec<u8>, OutOfMemory> {
    let mut text = Vec::new(alloc);
    for line in file.as_slice() {
        let spelled = render(alloc, line)?;
        text.extend_from_slice(spelled.as_slice())?;
    }
    Ok(text)
}

/// Both look-ups in a text give the places of the row.
fn expect_places(rt: &impl Abort, alloc: Global, row: AnswerRow) -> Result<(), Fail> {
    let (row, text, address, wanted) = row;
    let file = file_of_text(alloc, text)?;
    if file.len() >= 100_000 {
        return Err("too many records".into());
    }
    let index = Index::of(alloc, &file)?;
    let found = index.answer_at(alloc, &file, address)?;
    same(rt, row, &places_of(alloc, &found)?, wanted);
    let found = answer_at(alloc, &file, address)?;
    same(rt, row, &places_of(alloc, &found)?, wanted);
    same(rt, row, &rendered(alloc, &file)?, text);
    Ok(())
}

#[test]
fn texts_have_their_answers(rt: HostRuntime) -> Result<(), Fail> {
    let alloc = rt.alloc();
    for row in ANSWERS {
        expect_places(&rt, alloc, row)?;
    }
    Ok(())
}

/// The number of functions.
const MANY: u64 = 500_000;

/// Functions of eight bytes, at every sixteenth address.
fn functions(alloc: Global) -> Result<Vec<u8>, AllocError> {
    let mut text = Vec::from_slice(alloc, b"MODULE Linux x86_64 0 a\n")?;
    for k in 0..MANY {
        let line = format!(in alloc; "FUNC {:x} 8 0 f\n", k.wrapping_mul(16))?;
        text.extend_from_slice(line.as_bytes())?;
    }
    Ok(text)
}

/// Whether the answer is the function at a place, without copies and without a line.
fn is_bare(answer: &Answer, place: u64) -> bool {
    match answer {
        Answer::Function { func, chain, line } => {
            *func as u64 == place && chain.len() == 0 && line.is_none()
        }
        _ => false,
    }
}

/// For how many of the functions the look-up of their first address finds them.
fn answered(alloc: Global, file: &SymFile) -> Result<u64, OutOfMemory>
    requires { length file.now < 2 ^ 32 }
{
    let index = Index::of(alloc, file)?;
    let mut answered: u64 = 0;
    for k in 0..MANY {
        let answer = index.answer_at(alloc, file, k.wrapping_mul(16))?;
        if is_bare(&answer, k.wrapping_add(1)) {
            answered = answered.saturating_add(1);
        }
    }
    Ok(answered)
}

/// With so many functions a look-up by scans would take too long.
#[test]
fn each_of_many_functions_is_looked_up(rt: HostRuntime) -> Result<(), Fail> {
    let alloc = rt.alloc();
    let file = file_of_text(alloc, &functions(alloc)?)?;
    if file.len() >= 1_000_000 {
        return Err("too many records".into());
    }
    same(&rt, "answered", &[answered(alloc, &file)?], &[MANY]);
    Ok(())
}
