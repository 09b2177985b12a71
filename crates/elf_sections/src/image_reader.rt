//! The image of a file, or its first fault.
ghost use Rattle.std.specs.Prelude.{◌≡◌, ◌++◌, ◌∷◌, [], Ok, Err, Some, None, IfOk, map};
ghost use Rattle.std.specs.Option.{option_copied};
ghost use Rattle.sym_edges.specs.Outside.{MatchStop};
ghost use Rattle.elf_sections.specs.Programs.{code};
ghost use Rattle.elf_sections.specs.Symbols.{symbol_view, symbols, symbols_fault};
ghost use Rattle.elf_sections.specs.Image.{part_view, part_named, name_of, loaded_fault, parts_of, image};
ghost use Rattle.elf_sections.specs.Supplement.{sup_parts_of};
ghost use Rattle.elf_sections.specs.internal.Steps.{ReadsIdentity};

use crate::code::read_code;
use crate::fault::ElfFault;
use crate::image::Image;
use crate::links::{find_altlink, find_debug_sup};
use crate::notes::find_build_id;
use crate::program::read_base;
use crate::section::{find_named, read_content};
use crate::symbols::{Symbol, find_linked, find_symbol_table, read_functions};
use crate::tables::{Tables, read_tables};
use crate::text_identity::{fold_text, pad_id};
use std::alloc::Global;
use sym_edges::{OutOfMemory, Part, Sect, Span, Stop};
use text_table::TextTable;

/// How many bytes of `.text` give the identity of a file without a build id.
const IDENTITY_BYTES: usize = 4096;

/// A section's name with a zero byte after it.
fn ended_name(which: Sect) -> &'static [u8]
    ensures { result.now ≡ name_of which ++ 0 ∷ [] }
{
    match which {
        Sect::Info => b".debug_info\0",
        Sect::Abbrev => b".debug_abbrev\0",
        Sect::Line => b".debug_line\0",
        Sect::LineStr => b".debug_line_str\0",
        Sect::Str => b".debug_str\0",
        Sect::StrOffsets => b".debug_str_offsets\0",
        Sect::Addr => b".debug_addr\0",
        Sect::Ranges => b".debug_ranges\0",
        Sect::Rnglists => b".debug_rnglists\0",
        Sect::DebugFrame => b".debug_frame\0",
        Sect::EhFrame => b".eh_frame\0",
        Sect::Text => b".text\0",
    }
}

/// The first section with this name.
#[tactic(auto, unfolding(crate::specs::Image::part_named, crate::specs::Sections::is_named, crate::specs::Sections::bytes_of))]
fn find_part<'a>(tables: &Tables<'a>, which: Sect) -> Part<'a>
    ensures { part_view result ≡ part_named tables.now (name_of which) }
{
    match find_named(tables.sections(), tables.names(), ended_name(which)) {
        None => Part {
            bytes: &[],
            address: 0,
        },
        Some(section) => Part {
            bytes: read_content(tables.file(), section).unwrap_or(&[]),
            address: section.address,
        },
    }
}

/// The function symbols of a file, or its fault if its symbol table cannot be read.
#[tactic(auto, unfolding(crate::specs::Symbols::symbols, crate::specs::Symbols::symbols_fault, crate::specs::Symbols::entries, crate::specs::Sections::bytes_of))]
fn find_symbols<'a>(
    alloc: Global,
    tables: &Tables<'a>,
    spans: &[Span],
) -> Result<Vec<Symbol<'a>>, Stop<ElfFault>>
    requires { spans.now ≡ code tables.now }
    ensures { MatchStop result
        (λ found. (symbols_fault tables.now ≡ None) × (map symbol_view found.items ≡ symbols tables.now))
        (λ fault. symbols_fault tables.now ≡ Some fault) (Unit {0}) }
{
    let file = tables.file();
    let sections = tables.sections();
    let Some(table) = find_symbol_table(sections) else {
        return Ok(Vec::new(alloc));
    };
    let Some(linked) = find_linked(sections, table) else {
        return Err(Stop::Fault(ElfFault::SymbolTable));
    };
    let strings = TextTable::new(alloc, read_content(file, linked).unwrap_or(&[]))?;
    let entries = read_content(file, table).unwrap_or(&[]);
    match read_functions(alloc, spans, entries, &strings)? {
        Some(symbols) => Ok(symbols),
        None => Err(Stop::Fault(ElfFault::SymbolTable)),
    }
}

fn find_identity(text: &[u8], build_id: Option<&[u8]>) -> Option<[u8; 16]>
    ensures { ReadsIdentity result text.now (option_copied build_id.entry) }
{
    match build_id {
        Some(id) => Some(pad_id(id)),
        None => {
            if text.is_empty() {
                None
            } else {
                Some(fold_text(text, IDENTITY_BYTES))
            }
        }
    }
}

/// The image of a supplementary file: its sections by name, its build id, and the sections that
/// identify it as one. Compressed sections are not inflated.
#[tactic(auto, unfolding(crate::specs::Supplement::sup_parts_of, crate::specs::Image::parts_of, crate::specs::Notes::build_id))]
pub fn read_sup_parts<'a>(alloc: Global, tables: &Tables<'a>) -> Result<Image<'a>, OutOfMemory>
    ensures { IfOk result (λ i. i ≡ sup_parts_of tables.now) }
{
    let build_id = find_build_id(alloc, tables.file(), tables.sections())?;
    Ok(Image {
        info: find_part(tables, Sect::Info),
        abbrevs: find_part(tables, Sect::Abbrev),
        line: find_part(tables, Sect::Line),
        line_str: find_part(tables, Sect::LineStr),
        strs: find_part(tables, Sect::Str),
        str_offsets: find_part(tables, Sect::StrOffsets),
        addr: find_part(tables, Sect::Addr),
        ranges: find_part(tables, Sect::Ranges),
        rnglists: find_part(tables, Sect::Rnglists),
        debug_frame: find_part(tables, Sect::DebugFrame),
        eh_frame: find_part(tables, Sect::EhFrame),
        text: find_part(tables, Sect::Text),
        base: 0,
        code: Vec::new(alloc),
        build_id,
        identity: [0; 16],
        symbols: Vec::new(alloc),
        altlink: find_altlink(tables),
        debug_sup: find_debug_sup(tables),
        sup: None,
    })
}

/// The image of a file, or its first fault, if its header and its sections have none. Compressed
/// sections are not inflated.
#[tactic(auto, unfolding(crate::specs::Image::loaded_fault, crate::specs::Image::parts_of, crate::specs::Supplement::sup_parts_of, crate::specs::Image::identity_fault, crate::specs::Programs::code, crate::specs::Notes::build_id))]
pub fn read_loaded<'a>(alloc: Global, tables: &Tables<'a>) -> Result<Image<'a>, Stop<ElfFault>>
    ensures read { MatchStop result
        (λ i. (loaded_fault tables.now ≡ None) × (i ≡ parts_of tables.now))
        (λ fault. loaded_fault tables.now ≡ Some fault) (Unit {0}) }
{
    let base = match read_base(tables) {
        Ok(base) => base,
        Err(fault) => return Err(Stop::Fault(fault)),
    };
    let code = read_code(alloc, base, tables.sections())?;
    let symbols = find_symbols(alloc, tables, &code)?;
    let parts = read_sup_parts(alloc, tables)?;
    let Some(identity) = find_identity(parts.section(Sect::Text).bytes, parts.build_id()) else {
        return Err(Stop::Fault(ElfFault::NoIdentity));
    };
    Ok(parts.with_loaded(base, code, identity, symbols))
}

/// The image of an ELF file, or the first of the twelve faults in the order of `ElfFault`.
#[tactic(auto, unfolding(crate::specs::Image::image, crate::specs::Image::image_fault))]
pub fn read_image(alloc: Global, bytes: &[u8]) -> Result<Image<'_>, Stop<ElfFault>>
    ensures exact { MatchStop result (λ i. image bytes.now ≡ Ok i) (λ fault. image bytes.now ≡ Err fault) (Unit {0}) }
{
    let tables = read_tables(alloc, bytes)?;
    if let Some(fault) = tables.find_section_fault() {
        return Err(Stop::Fault(fault));
    }
    read_loaded(alloc, &tables)
}
