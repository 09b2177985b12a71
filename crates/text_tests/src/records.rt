//! A record of each kind, the longest lines and names, and the sizes of a record (`sym_records`) and of a finding (`sym_findings`).
use crate::comparison::same;
use std::alloc::Global;
use std::mem::size_of;
use std::process::Abort;
use std::test::Fail;
use sym_edges::{CallList, MemSink, OutOfMemory};
use sym_findings::Finding;
use sym_records::{
    Binary, BoxedBinary, ByteText, Extent, Extents, RuleText, Rules, SymFile, SymLine, Target,
    TextPieces, Token, Tokens, add_line, clean, file_of, is_valid, render, write_file,
};

const _: () = prove!(size_of::<SymLine>() == 56);

const _: () = prove!(size_of::<Finding>() == 16);

fn text(alloc: Global, bytes: &[u8]) -> Result<ByteText, OutOfMemory> {
    Ok(ByteText::of(Vec::from_slice(alloc, bytes)?))
}

fn long_text(alloc: Global, length: usize) -> Result<ByteText, OutOfMemory> {
    Ok(ByteText::of(Vec::from_elem(alloc, b'a', length)?))
}

fn one_rule(alloc: Global, offset: i64) -> Result<Vec<RuleText>, OutOfMemory> {
    let tokens = Tokens::three(Token::Reg(7), Token::Number(offset), Token::Add);
    let target = Target::Cfa;
    Ok(Vec::from_array(alloc, [RuleText { target, tokens }])?)
}

fn two_ranges(alloc: Global) -> Result<Vec<Extent>, OutOfMemory> {
    let ranges = [
        Extent {
            address: 0x1004,
            size: 8,
        },
        Extent {
            address: 0x2000,
            size: 16,
        },
    ];
    Ok(Vec::from_array(alloc, ranges)?)
}

fn module(alloc: Global) -> Result<SymLine, OutOfMemory> {
    let parts = Binary {
        os: text(alloc, b"Linux")?,
        arch: text(alloc, b"x86_64")?,
        id: text(alloc, b"0F0")?,
        name: text(alloc, b"a.out")?,
    };
    Ok(SymLine::Module {
        binary: BoxedBinary::of(alloc, parts)?,
    })
}

/// The record of a kind; the kinds are in an order in which a file may have them.
fn record(alloc: Global, kind: u32) -> Result<SymLine, OutOfMemory> {
    Ok(match kind {
        0 => module(alloc)?,
        1 => SymLine::Info {
            text: text(alloc, b"CODE_ID 00")?,
        },
        2 => SymLine::File {
            number: u32::MAX,
            name: text(alloc, b"/s/a.c")?,
        },
        3 => SymLine::Origin {
            number: 0,
            name: text(alloc, b"g")?,
        },
        4 => SymLine::Func {
            many: true,
            address: 0x1000,
            size: 0x20,
            params: 0,
            name: text(alloc, b"_Z1fv")?,
        },
        5 => SymLine::Inline {
            level: 0,
            call_line: 4,
            call_file: 0,
            origin: 0,
            ranges: Extents::of(two_ranges(alloc)?),
        },
        6 => SymLine::Line {
            address: 0x1004,
            size: 8,
            line: 9,
            file: 0,
        },
        7 => SymLine::Public {
            many: false,
            address: u64::MAX,
            params: 0,
            name: text(alloc, b"main ")?,
        },
        8 => SymLine::Init {
            address: 0x1000,
            size: 0x20,
            rules: Rules::of(one_rule(alloc, 8)?),
        },
        _ => SymLine::Change {
            address: 0x1001,
            rules: Rules::of(one_rule(alloc, 16)?),
        },
    })
}

/// A record of each kind.
fn each_record(alloc: Global) -> Result<Vec<SymLine>, OutOfMemory> {
    let mut lines = Vec::new(alloc);
    for kind in 0..10 {
        lines.push(record(alloc, kind)?)?;
    }
    Ok(lines)
}

const WHOLE: &[u8] =
    b"MODULE Linux x86_64 0F0 a.out\nINFO CODE_ID 00\nFILE 4294967295 /s/a.c\nINLINE_ORIGIN 0 g\nFUNC m 1000 20 0 _Z1fv\nINLINE 0 4 0 0 1004 8 2000 10\n1004 8 9 0\nPUBLIC ffffffffffffffff 0 main \nSTACK CFI INIT 1000 20 .cfa: $rsp 8 +\nSTACK CFI 1001 .cfa: $rsp 16 +\n";

/// What a sink has after `write_file`, and whether everything was written.
fn write(
    alloc: Global,
    file: &SymFile,
    (room, step, fail): (usize, usize, u64),
) -> Result<(MemSink, bool), OutOfMemory> {
    let fail = CallList::of(Vec::from_slice(alloc, &[fail])?);
    let mut sink = MemSink::new(alloc, room, step.max(1), fail)?;
    let whole = write_file(file, &mut sink).is_ok();
    Ok((sink, whole))
}

type WriteRow = (&'static str, (usize, usize, u64), usize);

/// The room of a sink, how many bytes it takes in one call, and the number of the call that fails;
/// then how many bytes of `WHOLE` it must take.
const WRITES: [WriteRow; 6] = [
    ("in one piece", (500, 500, 0), 252),
    ("byte by byte", (500, 1, 0), 252),
    ("into just enough room", (252, 7, 0), 252),
    ("into too little room", (251, 7, 0), 251),
    ("the first call fails", (500, 50, 1), 0),
    ("the third call fails", (500, 50, 3), 100),
];

/// Adds the text of a record.
fn add_rendered(alloc: Global, text: &mut Vec<u8>, line: &SymLine) -> Result<(), OutOfMemory> {
    let rendered = render(alloc, line)?;
    text.extend_from_slice(rendered.as_slice())?;
    Ok(())
}

/// The records' texts, one after another.
fn rendered(alloc: Global, records: &[SymLine]) -> Result<Vec<u8>, OutOfMemory> {
    let mut text = Vec::new(alloc);
    for line in records {
        add_rendered(alloc, &mut text, line)?;
    }
    Ok(text)
}

/// The records as a file; none if they are not valid.
fn whole_file(alloc: Global) -> Result<Option<SymFile>, OutOfMemory> {
    let records = each_record(alloc)?;
    Ok(file_of(records).ok())
}

/// A sink of this room, used in this way, takes this many bytes of `WHOLE`.
fn expect_write(
    rt: &impl Abort,
    alloc: Global,
    file: &SymFile,
    row: WriteRow,
) -> Result<(), OutOfMemory> {
    let (row, sink, count) = row;
    let (sink, is_whole) = write(alloc, file, sink)?;
    let wanted = WHOLE.split_at(count.min(WHOLE.len())).0;
    same(rt, row, sink.written(), wanted);
    same(rt, row, &[is_whole], &[count == WHOLE.len()]);
    Ok(())
}

#[test]
fn records_are_rendered_and_written(rt: HostRuntime) -> Result<(), Fail> {
    let alloc = rt.alloc();
    let records = each_record(alloc)?;
    same(&rt, "rendered", &rendered(alloc, &records)?, WHOLE);
    let Some(file) = whole_file(alloc)? else {
        return Err("the records are no file".into());
    };
    for row in WRITES {
        expect_write(&rt, alloc, &file, row)?;
    }
    let count = file.into_vec().len();
    same(&rt, "the records come back", &[count], &[10]);
    Ok(())
}

#[test]
fn a_text_grows_in_pieces(rt: HostRuntime) -> Result<(), Fail> {
    let alloc = rt.alloc();
    let mut long = TextPieces::new(alloc);
    for _ in 0..200_000 {
        add_line(&mut long.last, 0x1000, 0x10, 5, 1)?;
        long.turn(alloc)?;
    }
    let mut lengths = Vec::new(alloc);
    for piece in &long.full {
        lengths.push(piece.len())?;
    }
    lengths.push(long.last.len())?;
    let rest = 12 * 200_000 - 2 * 1_048_584;
    same(&rt, "pieces", &lengths, &[1_048_584, 1_048_584, rest]);
    Ok(())
}

/// Whether a PUBLIC record is valid, given the number of bytes of its name.
fn is_public(alloc: Global, length: usize) -> Result<bool, OutOfMemory> {
    Ok(is_valid(&SymLine::Public {
        many: false,
        address: 0,
        params: 0,
        name: long_text(alloc, length)?,
    }))
}

const NOWHERE: Extent = Extent {
    address: 0,
    size: 0,
};

/// Whether an INLINE record with many ranges is valid, given the size of the last range.
fn is_inline(alloc: Global, size: u64) -> Result<bool, OutOfMemory> {
    let mut ranges = Vec::from_elem(alloc, NOWHERE, 262_139)?;
    ranges.push(Extent {
        address: 0x10,
        size,
    })?;
    Ok(is_valid(&SymLine::Inline {
        level: 0,
        call_line: 0,
        call_file: 0,
        origin: 0,
        ranges: Extents::of(ranges),
    }))
}

#[test]
fn a_line_has_at_most_two_to_the_twentieth_bytes(rt: HostRuntime) -> Result<(), Fail> {
    let alloc = rt.alloc();
    let public = [is_public(alloc, 1_048_565)?, is_public(alloc, 1_048_566)?];
    same(&rt, "PUBLIC", &public, &[true, false]);
    let inline = [is_inline(alloc, 16)?, is_inline(alloc, 256)?];
    same(&rt, "INLINE", &inline, &[true, false]);
    let name = long_text(alloc, 65_537)?;
    let name = clean(alloc, name.as_slice())?;
    same(&rt, "a cleaned name", &[name.len()], &[65_536]);
    Ok(())
}
