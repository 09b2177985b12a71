//! Why a file is not read as a core.
use thiserror::Error;

/// Why a file is not read as a core, in the order in which faults are looked for.
#[derive(Clone, Copy, Debug, PartialEq, Eq, Error)]
pub enum CoreFault {
    #[error("not an ELF file")]
    NotElf,
    #[error("not a 64-bit ELF file")]
    Class,
    #[error("not a little-endian ELF file")]
    Order,
    #[error("not an x86-64 ELF file")]
    Machine,
    #[error("not a core file")]
    Kind,
    #[error("no readable program header table")]
    ProgramTable,
    #[error("segment {index} leaves the file or the addresses")]
    BadSegment { index: u32 },
    #[error("a note of segment {index} cannot be read")]
    BadNote { index: u32 },
    #[error("no thread")]
    NoThread,
}

impl CoreFault {
    ghost use Rattle.std.specs.Prelude.{◌≡◌};
    ghost use Rattle.core_file.specs.FaultWords.{fault_word, joined_word};

    /// The fault as it is printed: a word, and after it the number of a segment if there is one.
    pub fn word(self) -> (&'static [u8], Option<u32>)
        ensures { fault_word self ≡ joined_word result.0.now result.1 }
    {
        match self {
            CoreFault::NotElf => (b"not-elf", None),
            CoreFault::Class => (b"class", None),
            CoreFault::Order => (b"order", None),
            CoreFault::Machine => (b"machine", None),
            CoreFault::Kind => (b"kind", None),
            CoreFault::ProgramTable => (b"program-table", None),
            CoreFault::BadSegment { index } => (b"segment ", Some(index)),
            CoreFault::BadNote { index } => (b"note ", Some(index)),
            CoreFault::NoThread => (b"no-thread", None),
        }
    }
}

/// A file has more bytes than a core file may have.
#[derive(Clone, Copy, Debug, PartialEq, Eq, Error)]
#[error("the file is too long")]
pub struct TooLong;
