//! The rows of `--full`, and of `judge` with a separate debug file.
use crate::files::Given;
use crate::hello::HELLO;
use crate::rows::{
    COPY_RECORDS, DUMPS, FRONT, MAIN, PUSH_RBP, PUSH_RBP_LINES, Row, SKIPPED, THREE_PATHS, UNREAD,
    USAGE, Words,
};
use test_rows::elf::{UNIT, VERSION_3};

pub const FULL: Words = &["dump", "--full", "d/a.out"];

pub const FULL_WITH_ITSELF: Words = &["dump", "--full", "d/a.out", "--debug", "d/a.out"];

/// The line of both commands for a file that cannot be read.
pub const UNREAD_NAME: &[u8] = b"cannot read d/a.out\n";

/// A dump by any number of workers, and with the file as its own debug file.
const FULLS: &[Words] = &[
    FULL,
    &["dump", "--full", "d/a.out", "--workers", "1"],
    &["dump", "--full", "d/a.out", "--workers", "64"],
    FULL_WITH_ITSELF,
];

const PLAIN_OR_FULL: &[Words] = &[&["dump", "d/a.out"], FULL];

const PAIRS: &[Words] = &[
    &["dump", "--full", "d/a.out", "--debug", "d/debug"],
    &["dump", "--full", "d/a.out", "--debug-root", "d"],
];

const JUDGES: &[Words] = &[
    &["judge", "d/a.out", "d/text"],
    &["judge", "--full", "d/a.out", "d/text"],
    &["judge", "d/a.out", "d/text", "--debug", "d/a.out"],
    &["judge", "--full", "d/a.out", "d/text", "--debug", "d/a.out"],
];

const PAIR_JUDGES: &[Words] = &[
    &["judge", "d/a.out", "d/text", "--debug", "d/debug"],
    &["judge", "d/a.out", "d/text", "--debug-root", "d"],
    &["judge", "--full", "d/a.out", "d/text", "--debug", "d/debug"],
    &["judge", "--full", "d/a.out", "d/text", "--debug-root", "d"],
];

/// A skeleton unit of version 5 with an entry of code 1 and eight bytes.
const SKELETON: &[u8] =
    b"\x19\0\0\0\x05\0\x04\x08\0\0\0\0\x01\x02\x03\x04\x05\x06\x07\x08\x01\0\0\0\0\0\0\0\0";

/// The same in the 64-bit format.
const WIDE_SKELETON: &[u8] =
    b"\xff\xff\xff\xff\x1d\0\0\0\0\0\0\0\x05\0\x04\x08\0\0\0\0\0\0\0\0\x01\x02\x03\x04\x05\x06\x07\x08\x01\0\0\0\0\0\0\0\0";

/// Units of version 4 whose entries have code 1 and code 2, with one byte each.
const FIRST: &[u8] = b"\x09\0\0\0\x04\0\0\0\0\0\x08\x01\0";

const SECOND: &[u8] = b"\x09\0\0\0\x04\0\0\0\0\0\x08\x02\0";

/// DW_TAG_compile_unit with DW_AT_language, and with DW_AT_GNU_dwo_name, each in one byte.
const NAMED: &[u8] = b"\x01\x11\0\x13\x0b\0\0\x02\x11\0\xb0\x42\x0b\0\0\0";

/// The unit of version 3, compressed: by zlib after an Elf64_Chdr, in the older form, with a bad check, by zstd, and of more than 2^29 bytes.
const PACKED: &[u8] =
    b"\x01\x00\x00\x00\x00\x00\x00\x00\x0b\x00\x00\x00\x00\x00\x00\x00\x01\x00\x00\x00\x00\x00\x00\x00\x78\xda\x63\x67\x60\x60\x60\x66\x00\x01\x0e\x00\x00\x75\x00\x13";

const OLDER: &[u8] =
    b"\x5a\x4c\x49\x42\x00\x00\x00\x00\x00\x00\x00\x0b\x78\xda\x63\x67\x60\x60\x60\x66\x00\x01\x0e\x00\x00\x75\x00\x13";

const SPOILED: &[u8] =
    b"\x01\x00\x00\x00\x00\x00\x00\x00\x0b\x00\x00\x00\x00\x00\x00\x00\x01\x00\x00\x00\x00\x00\x00\x00\x78\xda\x63\x67\x60\x60\x60\x66\x00\x01\x0e\x00\x00\x75\x00\x12";

const BY_ZSTD: &[u8] =
    b"\x02\x00\x00\x00\x00\x00\x00\x00\x0b\x00\x00\x00\x00\x00\x00\x00\x01\x00\x00\x00\x00\x00\x00\x00\x78\xda\x63\x67\x60\x60\x60\x66\x00\x01\x0e\x00\x00\x75\x00\x13";

const TOO_LONG: &[u8] =
    b"\x01\x00\x00\x00\x00\x00\x00\x00\x01\x00\x00\x20\x00\x00\x00\x00\x01\x00\x00\x00\x00\x00\x00\x00\x78\xda\x63\x67\x60\x60\x60\x66\x00\x01\x0e\x00\x00\x75\x00\x13";

/// The unit of a function with an inlined copy in it, compressed in the same ways.
const PACKED_UNIT: &[u8] =
    b"\x01\x00\x00\x00\x00\x00\x00\x00\x39\x00\x00\x00\x00\x00\x00\x00\x01\x00\x00\x00\x00\x00\x00\x00\x78\xda\x33\x65\x60\x60\x60\x61\x00\x01\x0e\x46\x10\xa9\x5f\xcc\xc0\x12\x1f\x65\x98\x56\xc6\xc0\x20\x00\x16\x66\x50\x00\x62\xe6\x74\x06\x16\x28\x97\x03\x88\x19\x81\x3a\x00\x74\x26\x03\x6a";

const UNIT_BY_ZSTD: &[u8] =
    b"\x02\x00\x00\x00\x00\x00\x00\x00\x39\x00\x00\x00\x00\x00\x00\x00\x01\x00\x00\x00\x00\x00\x00\x00\x78\xda\x33\x65\x60\x60\x60\x61\x00\x01\x0e\x46\x10\xa9\x5f\xcc\xc0\x12\x1f\x65\x98\x56\xc6\xc0\x20\x00\x16\x66\x50\x00\x62\xe6\x74\x06\x16\x28\x97\x03\x88\x19\x81\x3a\x00\x74\x26\x03\x6a";

const OLDER_UNIT: &[u8] =
    b"\x5a\x4c\x49\x42\x00\x00\x00\x00\x00\x00\x00\x39\x78\xda\x33\x65\x60\x60\x60\x61\x00\x01\x0e\x46\x10\xa9\x5f\xcc\xc0\x12\x1f\x65\x98\x56\xc6\xc0\x20\x00\x16\x66\x50\x00\x62\xe6\x74\x06\x16\x28\x97\x03\x88\x19\x81\x3a\x00\x74\x26\x03\x6a";

pub const FULL_ROWS: [Row; 24] = [
    (
        "nothing compressed",
        FULLS,
        Given::Hello,
        0,
        &[FRONT, HELLO],
        &[],
    ),
    (
        "a debug file under full",
        PAIRS,
        Given::Stripped(PUSH_RBP),
        0,
        &[FRONT, THREE_PATHS, PUSH_RBP_LINES],
        &[],
    ),
    (
        "a debug file under full that is a text",
        &[&["dump", "--full", "d/a.out", "--debug", "d/text"]],
        Given::Stripped(PUSH_RBP),
        1,
        &[],
        &[b"refused debug not-elf\n"],
    ),
    (
        "a skeleton unit",
        &[FULL],
        Given::Units(&[SKELETON], b""),
        0,
        &[FRONT],
        &[b"split debug_info 0\n"],
    ),
    (
        "a skeleton unit, plain",
        &[&["dump", "d/a.out"]],
        Given::Units(&[SKELETON], b""),
        0,
        &[FRONT],
        &[],
    ),
    (
        "units in their order",
        &[FULL],
        Given::Units(&[VERSION_3, WIDE_SKELETON, UNIT, SKELETON, VERSION_3], b""),
        0,
        &[FRONT],
        &[
            SKIPPED,
            b"split debug_info b\nsplit debug_info 44\nskipped debug_info 61 version 3\n",
        ],
    ),
    (
        "split units of version 4",
        &[FULL],
        Given::Abbreviated(&[SECOND, FIRST, SECOND], NAMED),
        0,
        &[FRONT],
        &[b"split debug_info 0\nsplit debug_info 1a\n"],
    ),
    (
        "a file that is not there",
        &[
            &["dump", "--full", "d/ other\t"],
            &["judge", "--full", "d/ other\t", "d/text"],
        ],
        Given::Small,
        3,
        &[],
        &[b"cannot read d/ other?\n"],
    ),
    (
        "a debug file or a symbol file that is not there",
        &[
            &["dump", "--full", "d/a.out", "--debug", "  none"],
            &["judge", "--full", "d/a.out", "d/text", "--debug", "none"],
            &["judge", "--full", "d/a.out", "none"],
        ],
        Given::Stripped(PUSH_RBP),
        3,
        &[],
        &[b"cannot read none\n"],
    ),
    (
        "the same of the plain words",
        &[
            &["judge", "d/a.out", "d/text", "--debug", "none"],
            &["judge", "d/a.out", "none", "--debug", "d/debug"],
            &["dump", "--full"],
            &["dump", "--full", "--debug", "d/debug"],
            &["judge", "--full", "d/a.out"],
            &["judge", "--full", "d/a.out", "--debug", "d/debug"],
        ],
        Given::Stripped(PUSH_RBP),
        3,
        &[],
        &[UNREAD],
    ),
    (
        "a judgement of a file",
        JUDGES,
        Given::Units(&[], PUSH_RBP),
        0,
        &[b"yes\n"],
        &[],
    ),
    (
        "a judgement of a pair",
        PAIR_JUDGES,
        Given::Stripped(PUSH_RBP),
        1,
        &[b"no 1000 func\n"],
        &[],
    ),
    (
        "a judgement of no pair",
        PAIR_JUDGES,
        Given::Code(b"\x90"),
        1,
        &[],
        &[b"refused pair no-build-id\n"],
    ),
    (
        "words that are no row of full",
        &[
            &["check", "--full", "d/a.out"],
            &["dump", "--full", "d/a.out", "--debug"],
            &["dump", "--full", "d/a.out", "--workers", "0"],
            &["judge", "d/a.out", "d/text", "--debug"],
            &["judge", "d/a.out", "d/text", "--workers", "2"],
            &["judge", "--full", "d/a.out", "d/text", "--workers", "2"],
            &["dump", "--full", "d/a.out", "--debug", "d/debug", "more"],
        ],
        Given::Stripped(PUSH_RBP),
        2,
        &[],
        &[USAGE],
    ),
    (
        "a compressed section",
        FULLS,
        Given::And((".debug_info", [1, 0x800, 0, 0], PACKED)),
        0,
        &[FRONT, MAIN],
        &[SKIPPED],
    ),
    (
        "a compressed section, in the older form",
        FULLS,
        Given::And((".zdebug_info", [1, 0, 0, 0], OLDER)),
        0,
        &[FRONT, MAIN],
        &[SKIPPED],
    ),
    (
        "a section compressed by zstd",
        PLAIN_OR_FULL,
        Given::And((".debug_info", [1, 0x800, 0, 0], BY_ZSTD)),
        1,
        &[],
        &[b"refused elf compressed 5\n"],
    ),
    (
        "a compressed section that is bad",
        FULLS,
        Given::And((".debug_info", [1, 0x800, 0, 0], SPOILED)),
        1,
        &[],
        &[b"refused elf inflate 5\n"],
    ),
    (
        "a compressed section that is too long",
        FULLS,
        Given::And((".debug_info", [1, 0x800, 0, 0], TOO_LONG)),
        1,
        &[],
        &[b"refused elf inflated-too-long\n"],
    ),
    (
        "a compressed unit",
        FULLS,
        Given::WithInfo((".debug_info", [1, 0x800, 0, 0], PACKED_UNIT)),
        0,
        &[FRONT, COPY_RECORDS],
        &[],
    ),
    (
        "a compressed unit, in the older form",
        FULLS,
        Given::WithInfo((".zdebug_info", [1, 0, 0, 0], OLDER_UNIT)),
        0,
        &[FRONT, COPY_RECORDS],
        &[],
    ),
    (
        "a unit compressed by zstd",
        PLAIN_OR_FULL,
        Given::WithInfo((".debug_info", [1, 0x800, 0, 0], UNIT_BY_ZSTD)),
        1,
        &[],
        &[b"refused elf compressed 3\n"],
    ),
    (
        "a compressed unit by the plain words",
        DUMPS,
        Given::WithInfo((".debug_info", [1, 0x800, 0, 0], PACKED_UNIT)),
        1,
        &[],
        &[b"refused elf compressed 3\n"],
    ),
    (
        "a compressed unit in the older form by the plain words",
        DUMPS,
        Given::WithInfo((".zdebug_info", [1, 0, 0, 0], OLDER_UNIT)),
        1,
        &[],
        &[b"refused elf compressed 3\n"],
    ),
];
