//! Runs of a line.

/// The addresses from `start` up to, and without, `end`, which come from one line of one file: the path with the number `path` in the line table of
/// the unit. 24 bytes.
#[derive(Clone, Copy, Debug, PartialEq, Eq)]
pub struct LineRun {
    pub start: u64,
    pub end: u64,
    pub path: u32,
    pub line: u32,
}
