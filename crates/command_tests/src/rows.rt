//! The rows of the commands.
use crate::files::{Entry, Given};
use crate::hello::HELLO;
use test_rows::elf::{CUT_UNIT, UNIT, VERSION_3};

pub const FRONT: &[u8] = b"MODULE Linux x86_64 030201000504070608090A0B0C0D0E0F0 a.out\n\
    INFO CODE_ID 000102030405060708090A0B0C0D0E0F10111213\n";

pub const MAIN: &[u8] = b"PUBLIC 1000 0 main\n";

pub const USAGE: &[u8] =
    b"usage: dumpsyms dump ELF, check SYM, lookup SYM ADDR, frame SYM ADDR STATE, sample N, walk SYM STATE, judge ELF SYM, names SYM, dump --full ELF, stacks CORE STORE\n";

pub const TABLE: &[u8] = b"refused elf section-table\n";

pub const UNREAD: &[u8] = b"cannot read input\n";

pub const NOT_ELF: &[u8] = b"refused elf not-elf\n";

pub type Words = &'static [&'static str];

pub const OTHER: Words = &["dump", "other"];

pub const DUMP: Words = &["dump", "d/a.out"];

pub const BY_TWO: Words = &["dump", "d/a.out", "--workers", "2"];

/// A dump by any number of workers.
pub const DUMPS: &[Words] = &[
    DUMP,
    &["dump", "d/a.out", "--workers", "1"],
    BY_TWO,
    &["dump", "d/a.out", "--workers", "8"],
    &["dump", "d/a.out", "--workers", "64"],
];

pub const CHECK: Words = &["check", "d/a.out"];

pub const SHOW: Words = &["names", "d/a.out"];

pub const LOOKUP: Words = &["lookup", "d/a.out", "1005"];

pub const FRAME: Words = &["frame", "d/a.out", "1001", "d/state"];

pub const WALK: Words = &["walk", "d/a.out", "d/stack"];

/// A function `f` and its caller `g`; no rule gives the return address of `g`.
const CALLED: &[u8] = b"MODULE Linux x86_64 0 a\nFUNC 1000 20 0 f\nFUNC 2000 10 0 g\n\
    STACK CFI INIT 1000 20 .cfa: $rsp 8 + .ra: .cfa -8 + ^\nSTACK CFI INIT 2000 10 .cfa: $rsp 8 +\n";

/// A state in `f`, as the file `d/stack`.
pub const STACK: &[u8] = b"REG rip 1005\nREG rsp 7000\nMEM 7000 0520000000000000\n";

/// The frame records of a function that pushes rbp, spelled in another way, as the file `d/text`.
pub const TEXT: &[u8] = b"MODULE Linux x86_64 0 a\n\
    STACK CFI INIT 1000 20 .cfa: 8 $rsp + .ra: .cfa 8 - ^\n\
    STACK CFI 1001 .cfa: 16 $rsp + $rbp: .cfa 16 - ^\n\
    STACK CFI 1004 .cfa: $rbp 16 +\n\
    STACK CFI 100e .cfa: $rsp 8 +\n";

/// Two functions that overlap, and two that do not.
const MEETING: &[u8] = b"MODULE Linux x86_64 0 a\nFUNC 1000 10 0 f\nFUNC 1008 10 0 g\n";

const APART: &[u8] = b"MODULE Linux x86_64 0 a\nFUNC 1000 10 0 f\nFUNC 1010 10 0 g\n";

const MEETS: &[u8] = b"C5 record 3\n";

/// A function with an inlined copy in it.
pub const INLINED: &[u8] = b"MODULE Linux x86_64 0 a\nFILE 0 /s/a.c\nINLINE_ORIGIN 0 g\n\
    FUNC 1000 20 0 _Z1fv\nINLINE 0 4 0 0 1004 8\n1000 4 3 0\n1004 8 9 0\n100c 14 4 0\n";

/// The same with another file number, as the symbol file `d/seven`.
pub const SEVEN: &[u8] = b"MODULE Linux x86_64 0 a\nFILE 7 /s/a.c\nINLINE_ORIGIN 0 g\n\
    FUNC 1000 20 0 _Z1fv\nINLINE 0 4 7 0 1004 8\n1000 4 3 7\n1004 8 9 7\n100c 14 4 7\n";

/// The entries of that function, and their records.
const COPY: &[Entry] = &[
    (4, b"_Z1fv\0", 0x1000, 0x20, b""),
    (3, b"g\0", 0x1004, 8, b"\x01\x04\0"),
];

pub const COPY_RECORDS: &[u8] = b"FILE 0 /s/a.c\nINLINE_ORIGIN 0 g\n\
    FUNC 1000 20 0 _Z1fv\nINLINE 0 4 0 0 1004 8\n1000 4 3 0\n1004 8 9 0\n100c 14 4 0\n";

/// A function and a symbol with Rust's legacy mangling, and how their names are shown.
const MANGLED: &[u8] = b"MODULE Linux x86_64 0 a\nFUNC 1000 20 0 _ZN1a1b17h0123456789abcdefE\n\
    PUBLIC 2000 0 _ZN10_$LT$T$GT$1f17h0123456789abcdefE\n";

const SHOWN: &[u8] = b"MODULE Linux x86_64 0 a\nFUNC 1000 20 0 a::b\nPUBLIC 2000 0 <T>::f\n";

/// The frame records of a function that pushes rbp, uses it as the base of its frame, and returns.
pub const PUSHED: &[u8] = b"MODULE Linux x86_64 0 a\n\
    STACK CFI INIT 1000 20 .cfa: $rsp 8 + .ra: .cfa -8 + ^\n\
    STACK CFI 1001 .cfa: $rsp 16 + $rbp: .cfa -16 + ^\n\
    STACK CFI 1004 .cfa: $rbp 16 +\n\
    STACK CFI 100e .cfa: $rsp 8 +\n";

/// The state after the push, as the file `d/state`.
pub const STATE: &[u8] = b"REG rsp 7ffe0010\nMEM 7ffe0010 4000fe7f000000003412400000000000\n";

/// The values of the rules in that state.
pub const VALUES: &[u8] = b"cfa 7ffe0020\nra 401234\nrax undefined\nrdx undefined\nrcx undefined\n\
    rbx failed missing rbx\nrsi undefined\nrdi undefined\nrbp 7ffe0040\nrsp 7ffe0020\nr8 undefined\n\
    r9 undefined\nr10 undefined\nr11 undefined\nr12 failed missing r12\nr13 failed missing r13\n\
    r14 failed missing r14\nr15 failed missing r15\n";

/// The values before the push, those where rbp is the base, and those after the last change.
const AT_ENTRY: &[u8] = b"cfa 7ffe0018\nra 7ffe0040\nrax undefined\nrdx undefined\nrcx undefined\n\
    rbx failed missing rbx\nrsi undefined\nrdi undefined\nrbp failed missing rbp\nrsp 7ffe0018\n\
    r8 undefined\nr9 undefined\nr10 undefined\nr11 undefined\nr12 failed missing r12\n\
    r13 failed missing r13\nr14 failed missing r14\nr15 failed missing r15\n";

const BY_BASE: &[u8] =
    b"cfa failed missing rbp\nra failed missing rbp\nrax undefined\nrdx undefined\n\
    rcx undefined\nrbx failed missing rbx\nrsi undefined\nrdi undefined\nrbp failed missing rbp\n\
    rsp failed missing rbp\nr8 undefined\nr9 undefined\nr10 undefined\nr11 undefined\n\
    r12 failed missing r12\nr13 failed missing r13\nr14 failed missing r14\nr15 failed missing r15\n";

const AT_END: &[u8] = b"cfa 7ffe0018\nra 7ffe0040\nrax undefined\nrdx undefined\nrcx undefined\n\
    rbx failed missing rbx\nrsi undefined\nrdi undefined\nrbp failed unreadable 7ffe0008\n\
    rsp 7ffe0018\nr8 undefined\nr9 undefined\nr10 undefined\nr11 undefined\n\
    r12 failed missing r12\nr13 failed missing r13\nr14 failed missing r14\nr15 failed missing r15\n";

/// Arguments that no command accepts.
pub const NO_ROWS: &[Words] = &[
    &[],
    &["dump"],
    &["lookup", "s", "0x10"],
    &["walk", "s"],
    &["dump", "d/a.out", "--workers", "0"],
    &["dump", "d/a.out", "--workers", "08"],
    &["dump", "d/a.out", "--workers", "65"],
    &["sample", "0"],
    &["sample", "20001"],
    &["sample", "5", "--workers", "65"],
];

pub const ENDS_AT_C: &[u8] = b"refused dwarf ends debug_info c\n";

pub const LENGTH: &[u8] = b"refused frame length eh_frame 0\n";

pub const OMITTED: &[u8] = b"omitted eh_frame 18 state\n";

pub const SKIPPED: &[u8] = b"skipped debug_info 0 version 3\n";

/// A CIE with the CFA at rsp + 8 and the return address at the CFA - 8; at 18 the FDE of a function from 1000 to 1020 that pushes rbp; then the zero
/// that ends the section.
pub const PUSH_RBP: &[u8] = &[
    0x14, 0, 0, 0, 0, 0, 0, 0, 0x01, 0x7a, 0x52, 0, 0x01, 0x78, 0x10, 0x01, 0x1b, 0x0c, 0x07, 0x08,
    0x90, 0x01, 0, 0, 0x1c, 0, 0, 0, 0x1c, 0, 0, 0, 0xe0, 0xef, 0xff, 0xff, 0x20, 0, 0, 0, 0, 0x41,
    0x0e, 0x10, 0x86, 0x02, 0x43, 0x0d, 0x06, 0x4a, 0x0c, 0x07, 0x08, 0, 0, 0, 0, 0, 0, 0,
];

pub const PUSH_RBP_LINES: &[u8] = b"STACK CFI INIT 1000 20 .cfa: $rsp 8 + .ra: .cfa -8 + ^\n\
    STACK CFI 1001 .cfa: $rsp 16 + $rbp: .cfa -16 + ^\n\
    STACK CFI 1004 .cfa: $rbp 16 +\n\
    STACK CFI 100e .cfa: $rsp 8 +\n";

/// The same CIE, and an entry of the same range whose only instruction is a `restore_state`; no row is remembered.
pub const RESTORING: &[u8] = &[
    0x14, 0, 0, 0, 0, 0, 0, 0, 0x01, 0x7a, 0x52, 0, 0x01, 0x78, 0x10, 0x01, 0x1b, 0x0c, 0x07, 0x08,
    0x90, 0x01, 0, 0, 0x0e, 0, 0, 0, 0x1c, 0, 0, 0, 0xe0, 0xef, 0xff, 0xff, 0x20, 0, 0, 0, 0, 0x0b,
    0, 0, 0, 0,
];

/// A command's row: its name, its arguments in several forms, the file `d/a.out`, and the status and both texts that are wanted.
pub type Row = (
    &'static str,
    &'static [Words],
    Given,
    u8,
    &'static [&'static [u8]],
    &'static [&'static [u8]],
);

/// Symbol files.
pub const TEXT_ROWS: [Row; 17] = [
    (
        "functions meet",
        &[CHECK],
        Given::Bytes(MEETING),
        1,
        &[MEETS],
        &[],
    ),
    (
        "functions apart",
        &[CHECK],
        Given::Bytes(APART),
        0,
        &[b"no findings\n"],
        &[],
    ),
    (
        "a bad line",
        &[CHECK, SHOW, LOOKUP, FRAME, WALK],
        Given::Bytes(b"MODULE Linux x86_64 0 a\nfunc 1\n"),
        1,
        &[],
        &[b"refused text unknown line 2\n"],
    ),
    (
        "names are shown",
        &[SHOW],
        Given::Bytes(MANGLED),
        0,
        &[SHOWN],
        &[],
    ),
    (
        "other names stay",
        &[SHOW],
        Given::Bytes(INLINED),
        0,
        &[INLINED],
        &[],
    ),
    (
        "two frames",
        &[LOOKUP],
        Given::Bytes(INLINED),
        0,
        &[b"g at /s/a.c:9\n_Z1fv at /s/a.c:4\n"],
        &[],
    ),
    (
        "no function",
        &[&["lookup", "d/a.out", "FFFF"]],
        Given::Bytes(INLINED),
        0,
        &[b"none\n"],
        &[],
    ),
    (
        "no frame",
        &[
            &["frame", "d/a.out", "fff", "d/state"],
            &["frame", "d/a.out", "1020", "d/state"],
        ],
        Given::Bytes(PUSHED),
        0,
        &[b"none\n"],
        &[],
    ),
    (
        "a frame at its entry",
        &[&["frame", "d/a.out", "1000", "d/state"]],
        Given::Bytes(PUSHED),
        0,
        &[AT_ENTRY],
        &[],
    ),
    (
        "a frame behind a push",
        &[FRAME, &["frame", "d/a.out", "1003", "d/state"]],
        Given::Bytes(PUSHED),
        0,
        &[VALUES],
        &[],
    ),
    (
        "a frame by its base",
        &[
            &["frame", "d/a.out", "1004", "d/state"],
            &["frame", "d/a.out", "100D", "d/state"],
        ],
        Given::Bytes(PUSHED),
        0,
        &[BY_BASE],
        &[],
    ),
    (
        "a frame at its end",
        &[
            &["frame", "d/a.out", "100e", "d/state"],
            &["frame", "d/a.out", "101f", "d/state"],
        ],
        Given::Bytes(PUSHED),
        0,
        &[AT_END],
        &[],
    ),
    (
        "a text as a state",
        &[
            &["frame", "d/a.out", "1001", "d/a.out"],
            &["walk", "d/a.out", "d/a.out"],
        ],
        Given::Bytes(PUSHED),
        1,
        &[],
        &[b"refused state keyword line 1\n"],
    ),
    (
        "another state",
        &[
            &["frame", "d/a.out", "1001", "other"],
            &["walk", "d/a.out", "other"],
        ],
        Given::Bytes(PUSHED),
        3,
        &[],
        &[UNREAD],
    ),
    (
        "a stack",
        &[WALK],
        Given::Bytes(CALLED),
        0,
        &[b"0 1005\nf at ?\n1 2005\ng at ?\nend ra-undefined\n"],
        &[],
    ),
    (
        "a stack without rules",
        &[WALK],
        Given::Bytes(APART),
        0,
        &[b"0 1005\nf at ?\nend no-rules\n"],
        &[],
    ),
    (
        "no rip",
        &[&["walk", "d/a.out", "d/state"]],
        Given::Bytes(CALLED),
        1,
        &[],
        &[b"refused walk no-rip\n"],
    ),
];

/// Arguments, and ELF files.
pub const ROWS: [Row; 23] = [
    ("usage", NO_ROWS, Given::Small, 2, &[], &[USAGE]),
    (
        "another file",
        &[OTHER, &["judge", "d/a.out", "other"]],
        Given::Small,
        3,
        &[],
        &[UNREAD],
    ),
    (
        "a judgement",
        &[&["judge", "d/a.out", "d/text"]],
        Given::Units(&[], PUSH_RBP),
        0,
        &[b"yes\n"],
        &[],
    ),
    (
        "a judgement by another number",
        &[&["judge", "d/a.out", "d/seven"]],
        Given::Entries(COPY),
        0,
        &[b"yes\n"],
        &[],
    ),
    ("main", DUMPS, Given::Small, 0, &[FRONT, MAIN], &[]),
    (
        "a program of a compiler",
        DUMPS,
        Given::Hello,
        0,
        &[FRONT, HELLO],
        &[],
    ),
    (
        "b and a",
        DUMPS,
        Given::Symbols,
        0,
        &[FRONT, MAIN, b"PUBLIC m 1008 0 b\n"],
        &[],
    ),
    (
        "no build id",
        DUMPS,
        Given::Code(SEVENTEEN),
        0,
        &[b"MODULE Linux x86_64 040302FE06050807090A0B0C0D0E0F100 a.out\n"],
        &[],
    ),
    (
        "push rbp",
        DUMPS,
        Given::Units(&[], PUSH_RBP),
        0,
        &[FRONT, PUSH_RBP_LINES],
        &[],
    ),
    (
        "left out",
        DUMPS,
        Given::Units(&[], RESTORING),
        0,
        &[FRONT],
        &[OMITTED],
    ),
    (
        "cut frames",
        DUMPS,
        Given::Units(&[], CUT),
        1,
        &[],
        &[LENGTH],
    ),
    ("empty", DUMPS, Given::Bytes(b""), 1, &[], &[NOT_ELF]),
    (
        "class",
        DUMPS,
        Given::Changed(4, 1),
        1,
        &[],
        &[b"refused elf class\n"],
    ),
    ("size 40", DUMPS, Given::Changed(58, 40), 1, &[], &[TABLE]),
    (
        "compressed",
        DUMPS,
        Given::And((".debug_info", [1, 0x800, 0, 0], b"\x01")),
        1,
        &[],
        &[b"refused elf compressed 5\n"],
    ),
    (
        "cut header",
        DUMPS,
        Given::And((".debug_info", [1, 0, 0, 0], b"\0")),
        1,
        &[],
        &[b"refused dwarf ends debug_info 0\n"],
    ),
    (
        "four units",
        DUMPS,
        Given::Units(&[CUT_UNIT, UNIT, UNIT, CUT_UNIT], b""),
        1,
        &[],
        &[ENDS_AT_C],
    ),
    (
        "last unit",
        DUMPS,
        Given::Units(&[UNIT, UNIT, UNIT, CUT_UNIT], b""),
        1,
        &[],
        &[b"refused dwarf ends debug_info 3c\n"],
    ),
    (
        "unit and frames",
        DUMPS,
        Given::Units(&[CUT_UNIT], CUT),
        1,
        &[],
        &[ENDS_AT_C],
    ),
    (
        "frames",
        DUMPS,
        Given::Units(&[UNIT], CUT),
        1,
        &[],
        &[LENGTH],
    ),
    (
        "no fault",
        DUMPS,
        Given::Units(&[UNIT], PUSH_RBP),
        0,
        &[FRONT, PUSH_RBP_LINES],
        &[],
    ),
    (
        "version 3",
        DUMPS,
        Given::Units(&[VERSION_3], b""),
        0,
        &[FRONT],
        &[SKIPPED],
    ),
    (
        "both left out",
        DUMPS,
        Given::Units(&[VERSION_3], RESTORING),
        0,
        &[FRONT],
        &[SKIPPED, OMITTED],
    ),
];

/// The rows of ELF files with functions and lines.
pub const FUNCTION_ROWS: [Row; 20] = [
    (
        "one",
        DUMPS,
        Given::Entries(&[(2, b"_Z1fv\0", 0x1000, 0x20, b"")]),
        0,
        &[
            FRONT,
            A,
            b"FUNC 1000 20 0 _Z1fv\n1000 4 3 0\n1004 8 9 0\n100c 14 4 0\n",
        ],
        &[],
    ),
    (
        "of one range",
        DUMPS,
        Given::Entries(&[
            (2, b"a\0", 0x1000, 0x10, b""),
            (2, b"b\0", 0x1000, 0x10, b""),
        ]),
        0,
        &[
            FRONT,
            A,
            b"FUNC m 1000 10 0 a\n1000 4 3 0\n1004 8 9 0\n100c 4 4 0\n",
        ],
        &[],
    ),
    (
        "of one range without lines",
        DUMPS,
        Given::InLongCode(&[
            (2, b"a\0", 0x2000, 0x10, b""),
            (2, b"b\0", 0x2000, 0x10, b""),
        ]),
        0,
        &[FRONT, b"FUNC m 2000 10 0 a\n"],
        &[],
    ),
    (
        "of one name",
        DUMPS,
        Given::Entries(&[
            (2, b"a\0", 0x1000, 0x10, b""),
            (2, b" a\0", 0x1000, 0x10, b""),
        ]),
        0,
        &[
            FRONT,
            A,
            b"FUNC 1000 10 0 a\n1000 4 3 0\n1004 8 9 0\n100c 4 4 0\n",
        ],
        &[],
    ),
    (
        "overlapping",
        DUMPS,
        Given::Entries(&[
            (2, b"a\0", 0x1000, 0x10, b""),
            (2, b"b\0", 0x1008, 0x10, b""),
        ]),
        0,
        &[
            FRONT,
            A,
            b"FUNC 1000 10 0 a\n1000 4 3 0\n1004 8 9 0\n100c 4 4 0\nFUNC 1010 8 0 b\n1010 8 4 0\n",
        ],
        &[],
    ),
    (
        "inside",
        DUMPS,
        Given::Entries(&[
            (2, b"a\0", 0x1000, 0x10, b""),
            (2, b"b\0", 0x1000, 0x8, b""),
        ]),
        0,
        &[
            FRONT,
            A,
            b"FUNC m 1000 10 0 a\n1000 4 3 0\n1004 8 9 0\n100c 4 4 0\n",
        ],
        &[],
    ),
    (
        "the inner first",
        DUMPS,
        Given::Entries(&[
            (2, b"b\0", 0x1008, 0x4, b""),
            (2, b"a\0", 0x1004, 0x10, b""),
        ]),
        0,
        &[
            FRONT,
            A,
            b"FUNC 1004 4 0 a\n1004 4 9 0\nFUNC m 1008 4 0 b\n1008 4 9 0\nFUNC 100c 8 0 a\n100c 8 4 0\n",
        ],
        &[],
    ),
    (
        "without a name",
        DUMPS,
        Given::Entries(&[(5, b"", 0x1018, 0x8, b"")]),
        0,
        &[FRONT, A, b"FUNC 1018 8 0 <name omitted>\n1018 8 4 0\n"],
        &[],
    ),
    (
        "outside of code",
        DUMPS,
        Given::Entries(&[(2, b"a\0", 0x1018, 0x10, b"")]),
        0,
        &[FRONT],
        &[],
    ),
    (
        "no address",
        DUMPS,
        Given::Entries(&[(2, b"a\0", 0x1008, 0, b"")]),
        0,
        &[FRONT],
        &[],
    ),
    (
        "a copy",
        DUMPS,
        Given::Entries(COPY),
        0,
        &[FRONT, COPY_RECORDS],
        &[],
    ),
    (
        "a copy, in the 64-bit format",
        DUMPS,
        Given::WideEntries(COPY),
        0,
        &[FRONT, COPY_RECORDS],
        &[],
    ),
    (
        "a copy that does not say where it is called",
        DUMPS,
        Given::Entries(&[
            (4, b"f\0", 0x1000, 0x20, b""),
            (7, b"g\0", 0x1004, 8, b"\0"),
        ]),
        0,
        &[
            FRONT,
            A,
            b"FILE 1 <name omitted>\nINLINE_ORIGIN 0 g\nFUNC 1000 20 0 f\nINLINE 0 0 1 0 1004 8\n1000 4 3 0\n1004 8 9 0\n100c 14 4 0\n",
        ],
        &[],
    ),
    (
        "copies that overlap",
        DUMPS,
        Given::InLongCode(&[
            (4, b"f\0", 0x1000, 0x40, b""),
            (6, b"a\0", 0x1000, 0x10, b"\x01\x04"),
            (3, b"c\0", 0x1004, 0x1c, b"\x01\x05\0"),
            (3, b"b\0", 0x1008, 0x10, b"\x01\x06\0"),
        ]),
        0,
        &[
            FRONT,
            A,
            b"INLINE_ORIGIN 0 a\nINLINE_ORIGIN 1 b\nINLINE_ORIGIN 2 c\nFUNC 1000 40 0 f\n\
            INLINE 0 4 0 0 1000 10\nINLINE 0 6 0 1 1010 8\nINLINE 1 5 0 2 1004 c\n\
            1000 4 3 0\n1004 8 9 0\n100c 14 4 0\n",
        ],
        &[],
    ),
    (
        "a copy outside of code",
        DUMPS,
        Given::Entries(&[
            (4, b"f\0", 0x1000, 0x20, b""),
            (3, b"g\0", 0x2004, 8, b"\x01\x04\0"),
        ]),
        0,
        &[
            FRONT,
            A,
            b"FUNC 1000 20 0 f\n1000 4 3 0\n1004 8 9 0\n100c 14 4 0\n",
        ],
        &[],
    ),
    (
        "a table each",
        DUMPS,
        Given::TwoUnits(false),
        0,
        &[FRONT, THREE_PATHS],
        &[],
    ),
    (
        "one table",
        DUMPS,
        Given::TwoUnits(true),
        0,
        &[FRONT, ONE_TABLE],
        &[],
    ),
    (
        "a symbol that is covered",
        DUMPS,
        Given::Covered(0x1000),
        0,
        &[FRONT, b"FUNC 1000 8 0 f\n"],
        &[],
    ),
    (
        "below a symbol",
        DUMPS,
        Given::Covered(0xff8),
        0,
        &[FRONT, MAIN],
        &[],
    ),
    (
        "after a symbol",
        DUMPS,
        Given::Covered(0x1001),
        0,
        &[FRONT, b"FUNC 1001 8 0 f\n", MAIN],
        &[],
    ),
];

/// The FILE record of the lines of one file.
pub const A: &[u8] = b"FILE 0 /s/a.c\n";

/// The records of two units with a line table each.
pub const THREE_PATHS: &[u8] =
    b"FILE 0 /s/a.c\nFILE 1 /s/a?.c\nFILE 2 /s/b.c\nFUNC 1000 c 0 f\n1000 8 1 2\n1008 4 2 1\nFUNC 100c 14 0 g\n100c 14 4 0\n";

/// The records of two units with one line table.
pub const ONE_TABLE: &[u8] =
    b"FILE 0 /s/a?.c\nFILE 1 /s/b.c\nFUNC 1000 c 0 f\n1000 8 1 1\n1008 4 2 0\nFUNC 100c 14 0 g\n100c 4 2 0\n";

/// Frames whose first length is too long.
pub const CUT: &[u8] = b"\x14\0\0";

pub const SEVENTEEN: &[u8] =
    b"\x01\x02\x03\x04\x05\x06\x07\x08\x09\x0a\x0b\x0c\x0d\x0e\x0f\x10\xff";

/// The numbers of the calls of the store that fail (none, the first or the second), a row's name, its arguments, its file, and the status and both
/// texts that are wanted.
pub type Front = (
    &'static [u64],
    &'static str,
    Words,
    Given,
    u8,
    &'static [&'static [u8]],
    &'static [&'static [u8]],
);

pub const FRONTS: [Front; 9] = [
    (
        &[],
        "findings",
        CHECK,
        Given::Bytes(MEETING),
        1,
        &[MEETS],
        &[],
    ),
    (&[], "main", DUMP, Given::Small, 0, &[FRONT, MAIN], &[]),
    (
        &[],
        "push rbp",
        DUMP,
        Given::Units(&[], PUSH_RBP),
        0,
        &[FRONT, PUSH_RBP_LINES],
        &[],
    ),
    (
        &[],
        "left out",
        DUMP,
        Given::Units(&[], RESTORING),
        0,
        &[FRONT],
        &[OMITTED],
    ),
    (
        &[],
        "no image",
        DUMP,
        Given::Bytes(b"no image"),
        1,
        &[],
        &[NOT_ELF],
    ),
    (&[], "usage", &["dump"], Given::Small, 2, &[], &[USAGE]),
    (&[], "another file", OTHER, Given::Small, 3, &[], &[UNREAD]),
    (&[1], "not opened", DUMP, Given::Small, 3, &[], &[UNREAD]),
    (&[2], "not read", DUMP, Given::Small, 3, &[], &[UNREAD]),
];
