//! The types of pieces.
use sym_edges::ListOf;

/// The addresses from `start` up to, and without, `end`, which one function owns: the entry `entry` of the unit `unit`. `many` is about `start`
/// alone: a function with another name has that address too. 32 bytes.
#[derive(Clone, Copy, Debug, PartialEq, Eq)]
pub struct Piece {
    pub unit: u32,
    pub entry: u32,
    pub start: u64,
    pub end: u64,
    pub many: bool,
}

/// Pieces in the order of their addresses.
pub type PieceList = ListOf<Piece>;
