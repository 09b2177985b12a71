//! Why a file has no image.
use thiserror::Error;

/// Why a file has no image, in the order in which faults are looked for.
#[derive(Clone, Copy, Debug, PartialEq, Eq, Error)]
pub enum ElfFault {
    #[error("not an ELF file")]
    NotElf,
    #[error("not a 64-bit ELF file")]
    Class,
    #[error("not a little-endian ELF file")]
    Order,
    #[error("not an x86-64 ELF file")]
    Machine,
    #[error("neither an executable nor a shared object")]
    Kind,
    #[error("no readable section header table")]
    SectionTable,
    #[error("a section has no readable name")]
    SectionNames,
    #[error("section {index} leaves the file")]
    SectionBytes { index: u32 },
    #[error("section {index} is compressed")]
    Compressed { index: u32 },
    #[error("no readable program header table")]
    ProgramTable,
    #[error("no readable symbol table")]
    SymbolTable,
    #[error("neither a build id nor code to take an identity from")]
    NoIdentity,
    /// Only if compressed sections are read: they inflate to more bytes than a file may have.
    #[error("the compressed sections are too long")]
    InflatedTooLong,
    /// Only if compressed sections are read: the data of this section is bad.
    #[error("section {index} cannot be inflated")]
    Inflate { index: u32 },
}

impl ElfFault {
    ghost use Rattle.std.specs.Prelude.{◌≡◌};
    ghost use Rattle.elf_sections.specs.FaultWords.{fault_word, joined_word};

    /// The fault as it is printed: a word, and after it the number of a section if there is one.
    pub fn word(self) -> (&'static [u8], Option<u32>)
        ensures { fault_word self ≡ joined_word result.0.now result.1 }
    {
        match self {
            ElfFault::NotElf => (b"not-elf", None),
            ElfFault::Class => (b"class", None),
            ElfFault::Order => (b"order", None),
            ElfFault::Machine => (b"machine", None),
            ElfFault::Kind => (b"kind", None),
            ElfFault::SectionTable => (b"section-table", None),
            ElfFault::SectionNames => (b"section-names", None),
            ElfFault::SectionBytes { index } => (b"section-bytes ", Some(index)),
            ElfFault::Compressed { index } => (b"compressed ", Some(index)),
            ElfFault::ProgramTable => (b"program-table", None),
            ElfFault::SymbolTable => (b"symbol-table", None),
            ElfFault::NoIdentity => (b"no-identity", None),
            ElfFault::InflatedTooLong => (b"inflated-too-long", None),
            ElfFault::Inflate { index } => (b"inflate ", Some(index)),
        }
    }
}
