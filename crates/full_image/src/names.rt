//! The names of the sections of debugging information, in both spellings.
ghost use Rattle.std.specs.Prelude.{◌≡◌, ◌++◌, ◌∷◌, [], drop, nat_eq};
ghost use Rattle.std.specs.List.{list_any, starts_with};
ghost use Rattle.elf_sections.specs.Image.{name_of};
ghost use Rattle.elf_sections.specs.Sections.{has_flag};
ghost use Rattle.elf_sections.specs.ElfNumbers.{shf_compressed};
ghost use Rattle.full_image.specs.Compressed.{older_name, is_older, is_called, is_debug, is_spelled_older, is_read_full, is_packed, debug_sections};

use elf_sections::{SectionHeader, begins, is_section_read};
use sym_edges::Sect;

/// The sections of debugging information.
const DEBUG: [Sect; 10] = [
    Sect::Info,
    Sect::Abbrev,
    Sect::Line,
    Sect::LineStr,
    Sect::Str,
    Sect::StrOffsets,
    Sect::Addr,
    Sect::Ranges,
    Sect::Rnglists,
    Sect::DebugFrame,
];

/// `SHF_COMPRESSED`: the section begins with a compression header.
const SHF_COMPRESSED: u64 = 0x800;

/// A section's name with a zero byte after it.
fn ended_name(which: Sect) -> &'static [u8]
    ensures { result.now ≡ name_of which ++ 0 ∷ [] }
{
    match which {
        Sect::Info => b".debug_info\0",
        Sect::Abbrev => b".debug_abbrev\0",
        Sect::Line => b".debug_line\0",
        Sect::LineStr => b".debug_line_str\0",
        Sect::Str => b".debug_str\0",
        Sect::StrOffsets => b".debug_str_offsets\0",
        Sect::Addr => b".debug_addr\0",
        Sect::Ranges => b".debug_ranges\0",
        Sect::Rnglists => b".debug_rnglists\0",
        Sect::DebugFrame => b".debug_frame\0",
        Sect::EhFrame => b".eh_frame\0",
        Sect::Text => b".text\0",
    }
}

/// The older spelling of a section's name with a zero byte after it.
fn ended_older(which: Sect) -> &'static [u8]
    ensures { result.now ≡ older_name (name_of which) ++ 0 ∷ [] }
{
    match which {
        Sect::Info => b".zdebug_info\0",
        Sect::Abbrev => b".zdebug_abbrev\0",
        Sect::Line => b".zdebug_line\0",
        Sect::LineStr => b".zdebug_line_str\0",
        Sect::Str => b".zdebug_str\0",
        Sect::StrOffsets => b".zdebug_str_offsets\0",
        Sect::Addr => b".zdebug_addr\0",
        Sect::Ranges => b".zdebug_ranges\0",
        Sect::Rnglists => b".zdebug_rnglists\0",
        Sect::DebugFrame => b".zdebug_frame\0",
        Sect::EhFrame => b".zeh_frame\0",
        Sect::Text => b".ztext\0",
    }
}

#[tactic(auto, unfolding(crate::specs::Compressed::is_older, elf_sections::specs::Sections::is_named))]
fn is_older(table: &[u8], section: &SectionHeader, which: Sect) -> bool
    ensures { result ≡ is_older table.now which section.now }
{
    begins(table, section.name, ended_older(which))
}

/// Whether the section has this name, in either spelling.
#[tactic(auto, unfolding(crate::specs::Compressed::is_called, elf_sections::specs::Sections::is_named))]
pub fn is_called(table: &[u8], section: &SectionHeader, which: Sect) -> bool
    ensures { result ≡ is_called table.now which section.now }
{
    begins(table, section.name, ended_name(which)) || is_older(table, section, which)
}

#[tactic(auto, unfolding(crate::specs::Compressed::is_debug))]
fn is_debug(table: &[u8], section: &SectionHeader) -> bool
    ensures { result ≡ is_debug table.now section.now }
{
    DEBUG.iter().any(|which| is_called(table, section, *which))
}

#[tactic(auto, unfolding(crate::specs::Compressed::is_spelled_older))]
fn is_spelled_older(table: &[u8], section: &SectionHeader) -> bool
    ensures { result ≡ is_spelled_older table.now section.now }
{
    DEBUG.iter().any(|which| is_older(table, section, *which))
}

/// Whether the section is read, because of its type or its name.
#[tactic(auto, unfolding(crate::specs::Compressed::is_read_full))]
pub fn is_read(table: &[u8], section: &SectionHeader) -> bool
    ensures { result ≡ is_read_full table.now section.now }
{
    is_section_read(table, section) || is_debug(table, section)
}

/// Whether the section has the flag of compressed sections.
pub fn is_flagged(section: &SectionHeader) -> bool
    ensures { result ≡ has_flag shf_compressed section.now }
{
    section.flags & SHF_COMPRESSED != 0
}

/// Whether a section is one of debugging information and compressed.
#[tactic(auto, unfolding(crate::specs::Compressed::is_packed))]
pub fn is_packed(table: &[u8], section: &SectionHeader) -> bool
    ensures { result ≡ is_packed table.now section.now }
{
    is_debug(table, section) && (is_flagged(section) || is_spelled_older(table, section))
}
