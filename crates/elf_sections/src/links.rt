//! The sections that link a file to its supplementary file (DWARF 5, 7.3.6; GNU's `.gnu_debugaltlink`).
ghost use Rattle.std.specs.Prelude.{◌≡◌, find, drop, nat_eq};
ghost use Rattle.std.specs.List.{starts_with};
ghost use Rattle.elf_sections.specs.Sections.{sections, names};
ghost use Rattle.elf_sections.specs.SupLinks.{link_view, link_of, link_section, altlink_name, debug_sup_name};

use crate::constants::{SHF_COMPRESSED, SHT_NOBITS};
use crate::section::{find_named, read_content};
use crate::tables::Tables;

/// The content of the first section named `.gnu_debugaltlink`, or of the first named `.debug_sup`.
#[derive(Clone, Copy, Debug)]
pub enum LinkSection<'a> {
    /// There is no such section.
    Missing,
    /// The section is compressed, has no bytes in the file (`SHT_NOBITS`), or extends past the end
    /// of the file.
    Unreadable,
    Held(&'a [u8]),
}

/// The content of the first section with this zero-ended name.
fn read_link<'a>(tables: &Tables<'a>, ended: &[u8]) -> LinkSection<'a>
    ensures { link_view result ≡ link_of tables.now
        (find (λ s. starts_with nat_eq (drop s.name (names tables.now)) ended.now) (sections tables.now)) }
{
    let Some(section) = find_named(tables.sections(), tables.names(), ended) else {
        return LinkSection::Missing;
    };
    if section.flags & SHF_COMPRESSED != 0 || section.kind == SHT_NOBITS {
        return LinkSection::Unreadable;
    }
    match read_content(tables.file(), section) {
        None => LinkSection::Unreadable,
        Some(bytes) => LinkSection::Held(bytes),
    }
}

#[tactic(auto, unfolding(crate::specs::SupLinks::link_section, crate::specs::Sections::is_named))]
pub fn find_altlink<'a>(tables: &Tables<'a>) -> LinkSection<'a>
    ensures { link_view result ≡ link_section tables.now altlink_name }
{
    read_link(tables, b".gnu_debugaltlink\0")
}

#[tactic(auto, unfolding(crate::specs::SupLinks::link_section, crate::specs::Sections::is_named))]
pub fn find_debug_sup<'a>(tables: &Tables<'a>) -> LinkSection<'a>
    ensures { link_view result ≡ link_section tables.now debug_sup_name }
{
    read_link(tables, b".debug_sup\0")
}
