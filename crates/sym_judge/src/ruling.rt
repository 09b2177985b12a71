//! The result of comparing two files.

/// In what two files may differ at an address.
#[derive(Clone, Copy, Debug, PartialEq, Eq)]
pub enum Aspect {
    /// The function.
    Func,
    /// Its inlined copies.
    Chain,
    /// The line.
    Line,
    /// Whether an `INIT` covers the address.
    Init,
    /// The rule of the CFA.
    Cfa,
    /// The rule of the return address.
    Ra,
    /// The rule of a register by its DWARF number.
    Reg(u8),
}

/// Whether two files say the same, or the least address at which they differ, and the first aspect there.
#[derive(Clone, Copy, Debug, PartialEq, Eq)]
pub enum Ruling {
    Yes,
    No { address: u64, aspect: Aspect },
}

/// Which part of the files a ruling is about.
#[derive(Clone, Copy, Debug, PartialEq, Eq)]
pub enum Half {
    /// Functions, inlined copies and lines.
    Names,
    /// Frame rules.
    Frames,
}
