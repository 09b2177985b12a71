//! The reasons for which frame entries are left out.

/// Why a frame description entry is left out of the symbol file. The reasons are in the order in
/// which they are looked for.
#[derive(Clone, Copy, Debug, PartialEq, Eq)]
pub enum Reason {
    Cie,
    Augmentation,
    Encoding,
    Column,
    Entry,
    Expression,
    Instruction,
    Register,
    State,
    Range,
    Cfa,
    Outside,
    Overlap,
}

impl Reason {
    ghost use Rattle.std.specs.Prelude.{◌≡◌};
    ghost use Rattle.sym_edges.specs.PrintedWords.{reason_word};

    /// The reason as it is printed.
    pub fn word(self) -> &'static [u8]
        ensures { result.now ≡ reason_word self }
    {
        match self {
            Reason::Cie => b"cie",
            Reason::Augmentation => b"augmentation",
            Reason::Encoding => b"encoding",
            Reason::Column => b"column",
            Reason::Entry => b"entry",
            Reason::Expression => b"expression",
            Reason::Instruction => b"instruction",
            Reason::Register => b"register",
            Reason::State => b"state",
            Reason::Range => b"range",
            Reason::Cfa => b"cfa",
            Reason::Outside => b"outside",
            Reason::Overlap => b"overlap",
        }
    }
}
