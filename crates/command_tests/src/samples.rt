//! The rows of `sample`, which reads no file.
use crate::files::Given;
use crate::rows::Row;

/// The counts of two units.
pub const TWO: &[u8] = b"units 2 funcs 4 inlines 2 lines 8 inits 4 omitted 0\n";

/// The counts of a thousand units.
pub const THOUSAND: &[u8] =
    b"units 1000 funcs 2000 inlines 1000 lines 4000 inits 1900 omitted 100\n";

/// Samples.
pub const SAMPLE_ROWS: [Row; 5] = [
    (
        "a sample",
        &[&["sample", "1"]],
        Given::Small,
        0,
        &[b"units 1 funcs 2 inlines 1 lines 4 inits 2 omitted 0\n"],
        &[],
    ),
    (
        "nine units",
        &[&["sample", "9"]],
        Given::Small,
        0,
        &[b"units 9 funcs 18 inlines 9 lines 36 inits 18 omitted 0\n"],
        &[],
    ),
    (
        "ten units",
        &[&["sample", "10"]],
        Given::Small,
        0,
        &[b"units 10 funcs 20 inlines 10 lines 40 inits 19 omitted 1\n"],
        &[],
    ),
    (
        "128 units",
        &[&["sample", "128"]],
        Given::Small,
        0,
        &[b"units 128 funcs 256 inlines 128 lines 512 inits 244 omitted 12\n"],
        &[],
    ),
    (
        "a thousand units",
        &[
            &["sample", "1000"],
            &["sample", "1000", "--workers", "1"],
            &["sample", "1000", "--workers", "8"],
        ],
        Given::Small,
        0,
        &[THOUSAND],
        &[],
    ),
];
