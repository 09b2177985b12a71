//! Rows of the table that call frame instructions describe (DWARF 5, 6.4.1).
use expr_steps::Place;
use sym_edges::ListOf;

/// How many columns a row has: the sixteen registers of x86-64 by their DWARF numbers, and the return address.
pub const COLUMNS: usize = 17;

/// How the value that a register had in the caller is found.
#[derive(Clone, Copy, PartialEq, Eq, Debug)]
pub enum Rule {
    /// No instruction gave a rule, so what the ABI says applies.
    Rest,
    /// The value is unknown.
    Undefined,
    /// The register still has the value.
    Same,
    /// The value is in memory, at the CFA plus the offset.
    Offset(i64),
    /// The value is the CFA plus the offset.
    ValOffset(i64),
    /// Another register has the value.
    Register(u8),
    /// The value is that of the expression at a place or, if `fetch`, the word in memory at that address.
    Expr { fetch: bool, place: Place },
}

/// How the CFA is found.
#[derive(Clone, Copy, PartialEq, Eq, Debug)]
pub enum CfaRule {
    /// The value of a register plus an offset, modulo 2^64.
    Base { register: u8, offset: i64 },
    /// The value of the expression at a place.
    Expr { place: Place },
}

/// The rules at an address: for the CFA, if there is one, and for each column.
#[derive(Clone, Copy, PartialEq, Eq, Debug)]
pub struct Row {
    pub cfa: Option<CfaRule>,
    pub rules: [Rule; COLUMNS],
}

/// A row, and the first address at which it applies.
#[derive(Clone, Copy, PartialEq, Eq, Debug)]
pub struct RowAt {
    pub address: u64,
    pub row: Row,
}

/// Rows by their addresses.
pub type RowList = ListOf<RowAt>;
