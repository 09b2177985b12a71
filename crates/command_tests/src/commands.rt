//! `run` with stores and sinks in memory: the rows of the commands, each call that fails in turn, and workers that meet. The results for the small
//! files are also worked examples of the crate `worked`.
use crate::comparison::same;
use crate::cores::{CORE_ROWS, IN_F, MISSING, STACKS, SYMBOL_FILE, SYMBOLS, WITH, WITHOUT};
use crate::files::{Given, debug_file, file_by, joined};
use crate::full::{FULL, FULL_ROWS, FULL_WITH_ITSELF, UNREAD_NAME};
use crate::hello::{OTHER_ID, Parts, hello};
use crate::large::{STEPS, framed, functions};
use crate::pairs::{BELOW, PAIR_ROWS, WITH_ITSELF};
use crate::rows::{
    BY_TWO, CHECK, DUMP, FRAME, FRONT, FRONTS, FUNCTION_ROWS, INLINED, MAIN, PUSH_RBP, PUSHED,
    ROWS, Row, SEVEN, SHOW, STACK, STATE, TEXT, TEXT_ROWS, THREE_PATHS, UNREAD, WALK, Words,
};
use crate::samples::{SAMPLE_ROWS, THOUSAND, TWO};
use dumpsyms_cmd::run;
use std::alloc::{AllocError, Global};
use std::process::Abort;
use std::sync::atomic::AtomicU64;
use std::test::Fail;
use std::thread::Threads;
use sym_edges::{ByteRun, CallList, FileList, MemSink, MemStore, NameText, NamedFile};
use test_rows::elf::{ID, NULL, small_and};
use test_rows::{Holding, Recording};
use unit_workers::{Gate, NoGate};

/// How many bytes a call moves, the room of out, and the numbers of the calls that fail: of the store, of out and of err.
#[derive(Clone, Copy)]
struct Edges<'a> {
    step: usize,
    room: usize,
    store: &'a [u64],
    out: &'a [u64],
    err: &'a [u64],
}

const SMOOTH: Edges<'static> = Edges {
    step: 1 << 20,
    room: 1 << 20,
    store: &[],
    out: &[],
    err: &[],
};

fn calls(alloc: Global, numbers: &[u64]) -> Result<CallList, AllocError> {
    Ok(CallList::of(Vec::from_slice(alloc, numbers)?))
}

fn named(alloc: Global, name: &str, bytes: &[u8]) -> Result<NamedFile, AllocError> {
    Ok(NamedFile {
        name: NameText::of(String::from_str(alloc, name)?),
        bytes: ByteRun::of(Vec::from_slice(alloc, bytes)?),
    })
}

/// A store of the file `d/a.out`, the states `d/state` and `d/stack`, the symbol files `d/text` and `d/seven`, the symbol file of a module, a debug
/// file (also below the root `d`), and the debug files of a program of this build and of another.
fn store_of(alloc: Global, file: &[u8], edges: Edges<'_>) -> Result<MemStore, AllocError> {
    let mut files = Vec::new(alloc);
    files.push(named(alloc, "d/a.out", file)?)?;
    files.push(named(alloc, "d/state", STATE)?)?;
    files.push(named(alloc, "d/stack", STACK)?)?;
    files.push(named(alloc, "d/text", TEXT)?)?;
    let debug = debug_file(alloc)?;
    files.push(named(alloc, "d/debug", &debug)?)?;
    files.push(named(alloc, BELOW, &debug)?)?;
    files.push(named(alloc, "d/seven", SEVEN)?)?;
    files.push(named(alloc, SYMBOL_FILE, SYMBOLS)?)?;
    let debug = hello(alloc, ID, Parts::Debug)?;
    files.push(named(alloc, "d/hello", &debug)?)?;
    let debug = hello(alloc, OTHER_ID, Parts::Debug)?;
    files.push(named(alloc, "d/other-hello", &debug)?)?;
    let fail = calls(alloc, edges.store)?;
    Ok(MemStore::new(alloc, FileList::of(files), edges.step.max(1), fail))
}

/// A sink with this room, whose calls with these numbers fail.
fn sink_of(alloc: Global, room: usize, step: usize, fail: &[u64]) -> Result<MemSink, Fail> {
    Ok(MemSink::new(alloc, room, step.max(1), calls(alloc, fail)?)?)
}

/// The arguments, the file `d/a.out`, the edges of the run, and the label that is reported if the
/// result is not the wanted one.
#[derive(Clone, Copy)]
struct Asked<'a> {
    label: &'a str,
    words: &'a [&'a str],
    file: &'a [u8],
    edges: Edges<'a>,
}

fn smooth<'a>(label: &'a str, words: &'a [&'a str], file: &'a [u8]) -> Asked<'a> {
    Asked {
        label,
        words,
        file,
        edges: SMOOTH,
    }
}

/// The status and both texts that are wanted.
#[derive(Clone, Copy)]
struct Wanted<'a> {
    status: u8,
    out: &'a [u8],
    err: &'a [u8],
}

/// Status 0, and a text on standard output only.
fn good(out: &[u8]) -> Wanted<'_> {
    Wanted {
        status: 0,
        out,
        err: b"",
    }
}

/// The status and both texts for these arguments.
fn answer<R: Threads + Sync, G: Gate + Sync>(
    rt: &R,
    gate: &G,
    alloc: Global,
    asked: Asked<'_>,
) -> Result<(u8, MemSink, MemSink), Fail> {
    let edges = asked.edges;
    let mut strings = Vec::new(alloc);
    for word in asked.words {
        strings.push(String::from_str(alloc, word)?)?;
    }
    let mut store = store_of(alloc, asked.file, edges)?;
    let mut out = sink_of(alloc, edges.room, edges.step, edges.out)?;
    let mut err = sink_of(alloc, 1000, edges.step, edges.err)?;
    let status = run(rt, alloc, &strings, &mut store, &mut out, &mut err, gate);
    Ok((status, out, err))
}

/// The arguments give this status and these texts.
fn expect<R: Abort + Threads + Sync, G: Gate + Sync>(
    rt: &R,
    gate: &G,
    alloc: Global,
    asked: Asked<'_>,
    wanted: Wanted<'_>,
) -> Result<(), Fail> {
    let (found, to_out, to_err) = answer(rt, gate, alloc, asked)?;
    same(rt, asked.label, &[found], &[wanted.status]);
    same(rt, asked.label, to_out.written(), wanted.out);
    same(rt, asked.label, to_err.written(), wanted.err);
    Ok(())
}

/// The same, with calls of one byte and with large calls.
fn expect_form<R: Abort + Threads + Sync>(
    rt: &R,
    alloc: Global,
    asked: Asked<'_>,
    wanted: Wanted<'_>,
) -> Result<(), Fail> {
    let edges = Edges {
        step: 1,
        ..asked.edges
    };
    expect(rt, &NoGate, alloc, Asked { edges, ..asked }, wanted)?;
    expect(rt, &NoGate, alloc, asked, wanted)
}

/// Each form of the row gives its status and texts.
fn expect_row<R: Abort + Threads + Sync>(rt: &R, alloc: Global, row: Row) -> Result<(), Fail> {
    let (label, forms, given, status, out, err) = row;
    let file = file_by(alloc, given)?;
    let out = joined(alloc, out)?;
    let err = joined(alloc, err)?;
    let wanted = Wanted {
        status,
        out: &out,
        err: &err,
    };
    for words in forms {
        expect_form(rt, alloc, smooth(label, words, &file), wanted)?;
    }
    Ok(())
}

/// The same for several rows.
fn expect_rows<R: Abort + Threads + Sync>(rt: &R, alloc: Global, rows: &[Row]) -> Result<(), Fail> {
    for row in rows {
        expect_row(rt, alloc, *row)?;
    }
    Ok(())
}

#[test]
fn symbol_files_have_their_rows(rt: HostRuntime) -> Result<(), Fail> {
    expect_rows(&rt, rt.alloc(), &TEXT_ROWS)
}

#[test]
fn elf_files_have_their_rows(rt: HostRuntime) -> Result<(), Fail> {
    expect_rows(&rt, rt.alloc(), &ROWS)
}

#[test]
fn functions_have_their_rows(rt: HostRuntime) -> Result<(), Fail> {
    expect_rows(&rt, rt.alloc(), &FUNCTION_ROWS)
}

#[test]
fn pairs_have_their_rows(rt: HostRuntime) -> Result<(), Fail> {
    expect_rows(&rt, rt.alloc(), &PAIR_ROWS)
}

#[test]
fn full_has_its_rows(rt: HostRuntime) -> Result<(), Fail> {
    expect_rows(&rt, rt.alloc(), &FULL_ROWS)
}

#[test]
fn cores_have_their_rows(rt: HostRuntime) -> Result<(), Fail> {
    expect_rows(&rt, rt.alloc(), &CORE_ROWS)
}

#[test]
fn samples_have_their_rows(rt: HostRuntime) -> Result<(), Fail> {
    expect_rows(&rt, rt.alloc(), &SAMPLE_ROWS)
}

/// Writes are of one byte, and each of them fails in turn, those to out before those to err: the status is 4, and the sinks have what was written
/// before.
fn expect_fronts<R: Abort + Threads + Sync>(
    rt: &R,
    alloc: Global,
    asked: Asked<'_>,
    store: &[u64],
    wanted: Wanted<'_>,
) -> Result<(), Fail> {
    let whole = wanted.out.len().saturating_add(wanted.err.len());
    for written in 0..=whole {
        let to_out = written.min(wanted.out.len());
        let to_err = written.saturating_sub(to_out).min(wanted.err.len());
        let edges = Edges {
            step: 1,
            room: 1000,
            store,
            out: &[(to_out as u64).saturating_add(1)],
            err: &[(to_err as u64).saturating_add(1)],
        };
        let front = Wanted {
            status: if written < whole { 4 } else { wanted.status },
            out: wanted.out.split_at(to_out).0,
            err: wanted.err.split_at(to_err).0,
        };
        expect(rt, &NoGate, alloc, Asked { edges, ..asked }, front)?;
    }
    Ok(())
}

#[test]
fn each_call_that_fails_leaves_a_front(rt: HostRuntime) -> Result<(), Fail> {
    let alloc = rt.alloc();
    for (store, label, words, given, status, out, err) in FRONTS {
        let file = file_by(alloc, given)?;
        let out = joined(alloc, out)?;
        let err = joined(alloc, err)?;
        let asked = smooth(label, words, &file);
        let wanted = Wanted {
            status,
            out: &out,
            err: &err,
        };
        expect_fronts(&rt, alloc, asked, store, wanted)?;
    }
    Ok(())
}

type ReadRow = (Words, Given, usize, usize, usize, &'static [u8]);

/// The arguments, the file, how many bytes a call moves, how often the file is read, how many calls of the store another file takes, and the line on
/// standard error. A file takes a call for the opening, one for each piece, and one that finds the end.
const READS: [ReadRow; 9] = [
    (DUMP, Given::Units(&[], PUSH_RBP), 7, 1, 0, UNREAD),
    (FULL, Given::Units(&[], PUSH_RBP), 50, 1, 0, UNREAD_NAME),
    (WITH_ITSELF, Given::Code(b"\x90"), 1, 2, 0, UNREAD),
    (
        FULL_WITH_ITSELF,
        Given::Code(b"\x90"),
        16,
        2,
        0,
        UNREAD_NAME,
    ),
    (CHECK, Given::Bytes(INLINED), 1, 1, 0, UNREAD),
    (SHOW, Given::Bytes(PUSHED), 1, 1, 0, UNREAD),
    (FRAME, Given::Bytes(PUSHED), 1, 1, STATE.len() + 2, UNREAD),
    (WALK, Given::Bytes(PUSHED), 1, 1, STACK.len() + 2, UNREAD),
    (STACKS, IN_F, 16, 1, 0, UNREAD),
];

/// Each call of the store fails in turn: the status is 3, with the row's line.
fn expect_unread<R: Abort + Threads + Sync>(
    rt: &R,
    alloc: Global,
    row: ReadRow,
) -> Result<(), Fail> {
    let (words, given, step, times, more, line) = row;
    let file = file_by(alloc, given)?;
    let pieces = file.len().div_ceil(step.max(1));
    let calls = pieces.saturating_add(2).saturating_mul(times);
    let calls = calls.saturating_add(more);
    let asked = smooth("store", words, &file);
    let wanted = Wanted {
        status: 3,
        out: b"",
        err: line,
    };
    for call in 1..=calls as u64 {
        let edges = Edges {
            step,
            store: &[call],
            ..SMOOTH
        };
        expect(rt, &NoGate, alloc, Asked { edges, ..asked }, wanted)?;
    }
    Ok(())
}

#[test]
fn each_call_that_fails_has_its_status(rt: HostRuntime) -> Result<(), Fail> {
    for row in READS {
        expect_unread(&rt, rt.alloc(), row)?;
    }
    Ok(())
}

/// These arguments must give this status and these texts if a call of the store fails.
fn expect_without<R: Abort + Threads + Sync>(
    rt: &R,
    alloc: Global,
    asked: Asked<'_>,
    call: u64,
    wanted: Wanted<'_>,
) -> Result<(), Fail> {
    let edges = Edges {
        store: &[call],
        ..asked.edges
    };
    expect(rt, &NoGate, alloc, Asked { edges, ..asked }, wanted)
}

/// A symbol file that cannot be opened or read counts as missing, and the run goes on.
#[test]
fn a_symbol_file_that_fails_is_missing(rt: HostRuntime) -> Result<(), Fail> {
    let alloc = rt.alloc();
    let file = file_by(alloc, IN_F)?;
    let with = joined(alloc, WITH)?;
    let without = joined(alloc, WITHOUT)?;
    let asked = smooth("a symbol file", STACKS, &file);
    // Calls 1 to 3 open the core file, read its one piece and find its end; calls 4 to 6 do so for the symbol file.
    for call in 4..=7 {
        let (out, err) = if call < 7 {
            (&without, MISSING)
        } else {
            (&with, b"".as_slice())
        };
        let wanted = Wanted {
            status: 0,
            out,
            err,
        };
        expect_without(&rt, alloc, asked, call, wanted)?;
    }
    Ok(())
}

#[test]
fn a_sink_without_room_has_its_status(rt: HostRuntime) -> Result<(), Fail> {
    let file = small_and(rt.alloc(), NULL)?;
    let text = joined(rt.alloc(), &[FRONT, MAIN])?;
    let asked = smooth("room", DUMP, &file);
    for room in 0..text.len() {
        let edges = Edges {
            step: 50,
            room,
            ..SMOOTH
        };
        let wanted = Wanted {
            status: 4,
            out: text.split_at(room).0,
            err: b"",
        };
        expect(&rt, &NoGate, rt.alloc(), Asked { edges, ..asked }, wanted)?;
    }
    Ok(())
}

#[test]
fn large_frames_are_answered(rt: HostRuntime) -> Result<(), Fail> {
    let alloc = rt.alloc();
    let (file, records) = framed(alloc)?;
    let text = joined(alloc, &[FRONT, &records])?;
    let asked = smooth("frames of more than 65,535 bytes", DUMP, &file);
    expect(&rt, &NoGate, alloc, asked, good(&text))
}

#[test]
fn large_files_are_answered(rt: HostRuntime) -> Result<(), Fail> {
    let alloc = rt.alloc();
    let file = functions(alloc)?;
    let asked = smooth("more than 65,535 records", WALK, &file);
    expect(&rt, &NoGate, alloc, asked, good(STEPS))
}

/// Of two workers, the one that draws the first unit waits until the other has reached the second unit.
fn expect_meeting<R: Abort + Threads + Sync>(
    rt: &R,
    alloc: Global,
    asked: Asked<'_>,
    others: u64,
    out: &[u8],
) -> Result<(), Fail> {
    let gate = Holding::new(0, others);
    expect(rt, &gate, alloc, asked, good(out))?;
    same(rt, "the others are reached", &gate.seen(), &[others, 0]);
    Ok(())
}

#[test]
fn two_workers_meet(rt: HostRuntime) -> Result<(), Fail> {
    let alloc = rt.alloc();
    let file = file_by(alloc, Given::TwoUnits(false))?;
    let text = joined(alloc, &[FRONT, THREE_PATHS])?;
    expect_meeting(&rt, alloc, smooth("held", BY_TWO, &file), 1, &text)?;
    let words = &["sample", "2", "--workers", "2"];
    expect_meeting(&rt, alloc, smooth("held", words, &file), 1, TWO)?;
    let words = &["sample", "1000", "--workers", "2"];
    expect_meeting(&rt, alloc, smooth("held", words, &file), 999, THOUSAND)?;
    let mut reached = Vec::new(alloc);
    for _ in 0..1000 {
        reached.push(AtomicU64::new(0))?;
    }
    let gate = Recording {
        reached: reached.as_slice(),
    };
    let asked = smooth("each unit once", &["sample", "1000"], &file);
    expect(&rt, &gate, alloc, asked, good(THOUSAND))?;
    same(&rt, "each unit once", &[gate.once()], &[1000]);
    Ok(())
}
