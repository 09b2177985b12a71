//! The rows of `dump` with a separate debug file.
use crate::files::Given;
use crate::hello::HELLO;
use crate::rows::{FRONT, MAIN, PUSH_RBP, PUSH_RBP_LINES, Row, THREE_PATHS, UNREAD, USAGE, Words};

/// The debug file below the root `d`.
pub const BELOW: &str = "d/.build-id/00/0102030405060708090a0b0c0d0e0f10111213.debug";

const WITH_DEBUG: Words = &["dump", "d/a.out", "--debug", "d/debug"];

pub const WITH_ITSELF: Words = &["dump", "d/a.out", "--debug", "d/a.out"];

const WITH_ROOT: Words = &["dump", "d/a.out", "--debug-root", "d"];

/// Functions and lines of the debug file, and frames of the stripped file.
pub const PAIR_ROWS: [Row; 8] = [
    (
        "a debug file",
        &[WITH_DEBUG, WITH_ROOT],
        Given::Stripped(PUSH_RBP),
        0,
        &[FRONT, THREE_PATHS, PUSH_RBP_LINES],
        &[],
    ),
    (
        "itself",
        &[WITH_ITSELF],
        Given::Small,
        0,
        &[FRONT, MAIN],
        &[],
    ),
    (
        "a debug file that is a text",
        &[&["dump", "d/a.out", "--debug", "d/text"]],
        Given::Stripped(PUSH_RBP),
        1,
        &[],
        &[b"refused debug not-elf\n"],
    ),
    (
        "no debug file",
        &[
            &["dump", "d/a.out", "--debug", "d/none"],
            &["dump", "d/a.out", "--debug-root", "d/"],
        ],
        Given::Stripped(PUSH_RBP),
        3,
        &[],
        &[UNREAD],
    ),
    (
        "no build id",
        &[WITH_DEBUG, WITH_ROOT],
        Given::Code(b"\x90"),
        1,
        &[],
        &[b"refused pair no-build-id\n"],
    ),
    (
        "a program and its debug file",
        &[&["dump", "d/a.out", "--debug", "d/hello"]],
        Given::HelloStripped,
        0,
        &[FRONT, HELLO],
        &[],
    ),
    (
        "the debug file of another build",
        &[&["dump", "d/a.out", "--debug", "d/other-hello"]],
        Given::HelloStripped,
        1,
        &[],
        &[b"refused pair build-id\n"],
    ),
    (
        "other words",
        &[
            &["dump", "d/a.out", "--debug"],
            &["dump", "d/a.out", "--debug", "d/debug", "--workers", "2"],
        ],
        Given::Stripped(PUSH_RBP),
        2,
        &[],
        &[USAGE],
    ),
];
