//! The names of the sections that are read.

/// The sections of an ELF file that the program reads by name (`Info` is `.debug_info`, and so on).
#[derive(Clone, Copy, Debug, PartialEq, Eq)]
pub enum Sect {
    Info,
    Abbrev,
    Line,
    LineStr,
    Str,
    StrOffsets,
    Addr,
    Ranges,
    Rnglists,
    DebugFrame,
    EhFrame,
    Text,
}

impl Sect {
    ghost use Rattle.std.specs.Prelude.{◌≡◌};
    ghost use Rattle.sym_edges.specs.PrintedWords.{section_word};

    /// The name of the section without the leading point, as it is printed.
    pub fn word(self) -> &'static [u8]
        ensures { result.now ≡ section_word self }
    {
        match self {
            Sect::Info => b"debug_info",
            Sect::Abbrev => b"debug_abbrev",
            Sect::Line => b"debug_line",
            Sect::LineStr => b"debug_line_str",
            Sect::Str => b"debug_str",
            Sect::StrOffsets => b"debug_str_offsets",
            Sect::Addr => b"debug_addr",
            Sect::Ranges => b"debug_ranges",
            Sect::Rnglists => b"debug_rnglists",
            Sect::DebugFrame => b"debug_frame",
            Sect::EhFrame => b"eh_frame",
            Sect::Text => b"text",
        }
    }
}

/// The bytes of a section, and the address at which they are loaded.
#[derive(Clone, Copy, Debug)]
pub struct Part<'a> {
    pub bytes: &'a [u8],
    pub address: u64,
}
