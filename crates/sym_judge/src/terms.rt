//! The sums and fetches of rules.

/// The base of a sum.
#[derive(Clone, Copy, Debug, PartialEq, Eq)]
pub enum Base {
    /// No base: the sum is a number.
    Nothing,
    /// A register by its DWARF number.
    Register(u8),
    Cfa,
}

/// A base, and a number added to it modulo 2^64.
#[derive(Clone, Copy, Debug, PartialEq, Eq)]
pub struct Sum {
    pub base: Base,
    pub offset: u64,
}

/// A sum, or the word that memory holds at it.
#[derive(Clone, Copy, Debug, PartialEq, Eq)]
pub enum Term {
    Plain(Sum),
    Fetched(Sum),
}
