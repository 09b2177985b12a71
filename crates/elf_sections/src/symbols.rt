//! Function symbols of the symbol table.
ghost use Rattle.std.specs.Prelude.{◌≡◌, ◌≤◌, IfOk, ◌+◌, ◌*◌, ◌/◌, ◌==◌, Some, None, length, find, option_and_then, slice_get};
ghost use Rattle.std.specs.List.{filter_map, list_any};
ghost use Rattle.std.specs.Option.{option_copied, option_map};
ghost use Rattle.sym_edges.specs.Outside.{MatchStop};
ghost use Rattle.elf_sections.specs.Programs.{is_in_code};
ghost use Rattle.elf_sections.specs.Symbols.{symbol_at, is_function, symbol_table, linked, entries_of};
ghost use Rattle.elf_sections.specs.internal.Steps.{Classifies, ReadsSymbols};
ghost use Rattle.elf_sections.specs.ElfNumbers.{symbol_size};

use crate::code::holds_code;
use crate::constants::{
    SHN_UNDEF, SHT_DYNSYM, SHT_STRTAB, SHT_SYMTAB, STT_FUNC, STT_GNU_IFUNC, SYMBOL,
};
use crate::numbers::{read_u16, read_u32, read_u64};
use crate::section::SectionHeader;
use range_set::{RangeSet, of_ranges};
use std::alloc::{AllocError, Global};
use sym_edges::{OutOfMemory, Span};
use text_table::TextTable;

/// A function in code, from the symbol table: its ELF address, and what is held of its name (`text_table`).
#[derive(Clone, Copy, Debug)]
pub struct Symbol<'a> {
    pub address: u64,
    pub name: &'a [u8],
}

/// The fields of a symbol that are read.
#[derive(Clone, Copy, Debug)]
pub struct SymbolEntry {
    /// `st_name`
    pub name: u32,
    /// `st_info`
    pub info: u8,
    /// `st_shndx`
    pub section: u16,
    /// `st_value`
    pub value: u64,
}

#[tactic(auto, unfolding(crate::specs::Symbols::symbol_at))]
fn read_symbol(table: &[u8], at: usize) -> SymbolEntry
    requires { at + symbol_size ≤ length table.now }
    ensures { result ≡ symbol_at table.now at }
{
    SymbolEntry {
        name: read_u32(table, at),
        info: table[at + 4],
        section: read_u16(table, at + 6),
        value: read_u64(table, at + 8),
    }
}

/// Whether a symbol is a function in code, by its type, its section and its address.
#[tactic(auto, unfolding(crate::specs::Symbols::is_function))]
fn names_function(code: &RangeSet, entry: &SymbolEntry) -> bool
    ensures { result ≡ is_function code.now entry.now }
{
    let kind = entry.info % 16;
    (kind == STT_FUNC || kind == STT_GNU_IFUNC)
        && (entry.section != SHN_UNDEF && holds_code(code, entry.value))
}

fn first_of_kind(sections: &[SectionHeader], kind: u32) -> Option<&SectionHeader>
    ensures { option_copied result ≡ find (λ s. s.kind == kind) sections.now }
{
    sections.iter().find(|section| section.kind == kind)
}

/// The first symbol table, or if there is none the first table of dynamic symbols.
#[tactic(auto, unfolding(crate::specs::Symbols::symbol_table))]
pub fn find_symbol_table(sections: &[SectionHeader]) -> Option<&SectionHeader>
    ensures { option_copied result ≡ symbol_table sections.now }
{
    match first_of_kind(sections, SHT_SYMTAB) {
        None => first_of_kind(sections, SHT_DYNSYM),
        Some(table) => Some(table),
    }
}

/// The string table that a symbol table links to.
#[tactic(auto, unfolding(crate::specs::Symbols::linked))]
pub fn find_linked<'s>(
    sections: &'s [SectionHeader],
    table: &SectionHeader,
) -> Option<&'s SectionHeader>
    ensures { option_copied result ≡ linked sections.now table.now }
{
    match sections.get(table.link as usize) {
        None => None,
        Some(section) => {
            if section.kind == SHT_STRTAB {
                Some(section)
            } else {
                None
            }
        }
    }
}

/// What an entry is: a function in code without a zero-ended name, no function symbol, or a
/// function symbol.
enum Found<'a> {
    Nameless,
    Other,
    Function(Symbol<'a>),
}

#[tactic(auto, unfolding(crate::specs::Symbols::is_nameless, crate::specs::Symbols::function_of, crate::specs::Strings::string_at))]
fn classify<'a>(code: &RangeSet, strings: &TextTable<'a>, entry: &SymbolEntry) -> Found<'a>
    ensures { Classifies result code.now strings.now entry.now }
{
    if !names_function(code, entry) {
        return Found::Other;
    }
    match strings.text(u64::from(entry.name)) {
        None => Found::Nameless,
        Some([]) => Found::Other,
        Some(name) => Found::Function(Symbol {
            address: entry.value,
            name,
        }),
    }
}

/// The function symbols of a table, given the set of all addresses in code. `None` if some function
/// has no zero-ended name.
#[tactic(auto, using(crate::proofs::SymbolLemmas::reading_begins, crate::proofs::SymbolLemmas::reading_other, crate::proofs::SymbolLemmas::reading_found, crate::proofs::SymbolLemmas::reading_nameless))]
fn read_symbols<'a>(
    alloc: Global,
    code: &RangeSet,
    table: &[u8],
    strings: &TextTable<'a>,
) -> Result<Option<Vec<Symbol<'a>>>, AllocError>
    ensures { IfOk result (λ found. ReadsSymbols (option_map (λ v. v.items) found) code.now strings.now (entries_of table.now (length table.now / symbol_size))) }
{
    let count = table.len() / SYMBOL;
    let mut symbols = Vec::new(alloc);
    'entries: for k in 0..count {
        let entry = read_symbol(table, SYMBOL * k);
        match classify(code, strings, &entry) {
            Found::Nameless => return Ok(None),
            Found::Other => {}
            Found::Function(symbol) => symbols.push(symbol)?,
        }
    }
    Ok(Some(symbols))
}

/// The function symbols of a table, in its order. `None` if some function has no zero-ended name.
#[tactic(auto, using(crate::proofs::CodeLemmas::same_reading))]
pub fn read_functions<'a>(
    alloc: Global,
    code: &[Span],
    table: &[u8],
    strings: &TextTable<'a>,
) -> Result<Option<Vec<Symbol<'a>>>, OutOfMemory>
    ensures { IfOk result (λ found. ReadsSymbols (option_map (λ v. v.items) found) code.now strings.now (entries_of table.now (length table.now / symbol_size))) }
{
    let addresses = of_ranges(alloc, code)?;
    Ok(read_symbols(alloc, &addresses, table, strings)?)
}
