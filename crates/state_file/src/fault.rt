//! What may be wrong with a state file.

/// What is wrong with a line of a state file, in the order in which faults are looked for.
#[derive(Clone, Copy, Debug, PartialEq, Eq)]
pub enum StateKind {
    /// The first word is neither `REG` nor `MEM`.
    Keyword,
    /// The number of fields after the first word is not two.
    Fields,
    /// No register has the name.
    Register,
    /// A field is not a hexadecimal number, or not a run of bytes.
    Hex,
    /// The address of a run's last byte is above 2^64 - 1.
    Wraps,
}

impl StateKind {
    ghost use Rattle.std.specs.Prelude.{◌≡◌};
    ghost use Rattle.state_file.specs.StateWords.{state_word};

    /// The kind as it is printed.
    pub fn word(self) -> &'static [u8]
        ensures { result.now ≡ state_word self }
    {
        match self {
            StateKind::Keyword => b"keyword",
            StateKind::Fields => b"fields",
            StateKind::Register => b"register",
            StateKind::Hex => b"hex",
            StateKind::Wraps => b"wraps",
        }
    }
}

/// The first fault of a state file, with its line, counted from 1.
#[derive(Clone, Copy, Debug, PartialEq, Eq)]
pub struct StateFault {
    pub kind: StateKind,
    pub line: u64,
}
