//! The result of a rule: a value, undefined, or the cause of a failure.

/// Why the value of a rule cannot be computed.
#[derive(Clone, Copy, Debug, PartialEq, Eq)]
pub enum Cause {
    /// The register with this DWARF number has no value; 16 is rip.
    Missing(u8),
    /// A byte of the word at this address, which `^` reads, is not known.
    Unreadable(u64),
    /// `/` or `%` by 0.
    Divide,
    /// `@` with a second operand that is not a power of two.
    Align,
    /// An operator has too few operands, or not exactly one value is left at the end.
    Stack,
    /// A name other than the sixteen registers, `$rip` and `.cfa`; `.undef` among other words; or
    /// `.cfa` inside its own rule.
    UnknownName,
    /// `.cfa` is used, but the CFA is undefined.
    NoCfa,
}

/// The result of a rule.
#[derive(Clone, Copy, Debug, PartialEq, Eq)]
pub enum Outcome {
    Value(u64),
    /// The caller's value is not available.
    Undefined,
    Failed(Cause),
}

/// The canonical frame address (DWARF 5, 6.4), the return address, and the caller's registers by their DWARF numbers.
#[derive(Clone, Copy, Debug, PartialEq, Eq)]
pub struct Frame {
    pub cfa: Outcome,
    pub ra: Outcome,
    pub regs: [Outcome; 16],
}
