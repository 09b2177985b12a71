//! The faults of the text of a symbol file.

/// The kinds of faults in a line of a symbol file, in the order of their numbers.
#[derive(Clone, Copy, Debug, PartialEq, Eq)]
pub enum TextKind {
    /// No line has a record.
    Empty,
    /// The keyword is unknown.
    Unknown,
    /// A field or a name is missing, or there is a field too many.
    Fields,
    /// A field is no hexadecimal number.
    Hex,
    /// A field is no decimal number.
    Decimal,
    /// A frame rule is bad or missing.
    Rule,
    /// The record is not allowed at this place.
    Misplaced,
    /// The line has more than 2^20 bytes.
    LongLine,
    /// A frame record of Windows.
    Windows,
    /// The first record is not `MODULE`.
    NoModule,
}

impl TextKind {
    ghost use Rattle.std.specs.Prelude.{◌≡◌};
    ghost use Rattle.sym_rules.specs.FaultWords.{text_word};

    /// The kind as it is printed.
    pub fn word(self) -> &'static [u8]
        ensures { result.now ≡ text_word self }
    {
        match self {
            TextKind::Empty => b"empty",
            TextKind::Unknown => b"unknown",
            TextKind::Fields => b"fields",
            TextKind::Hex => b"hex",
            TextKind::Decimal => b"decimal",
            TextKind::Rule => b"rule",
            TextKind::Misplaced => b"misplaced",
            TextKind::LongLine => b"long-line",
            TextKind::Windows => b"windows",
            TextKind::NoModule => b"no-module",
        }
    }
}

/// The first fault of a text, with its line, counted from 1.
#[derive(Clone, Copy, Debug, PartialEq, Eq)]
pub struct TextFault {
    pub kind: TextKind,
    pub line: u64,
}
