//! The image of a binary and its separate debug file.
ghost use Rattle.std.specs.Prelude.{◌≡◌, IfOk, map};
ghost use Rattle.std.specs.List.{filter};
ghost use Rattle.elf_sections.specs.Programs.{is_in_code};
ghost use Rattle.elf_sections.specs.Symbols.{symbol_view};
ghost use Rattle.elf_sections.specs.Pair.{first_symbols, symbols_in, paired};

use crate::code::holds_code;
use crate::image::Image;
use crate::symbols::Symbol;
use range_set::{RangeSet, of_ranges};
use std::alloc::{AllocError, Global};
use sym_edges::{OutOfMemory, Span};

/// The symbols of the debug file if it has any, otherwise those of the binary.
fn choose_symbols<'s, 'a>(binary: &'s [Symbol<'a>], debug: &'s [Symbol<'a>]) -> &'s [Symbol<'a>]
    ensures { map symbol_view result.now ≡ first_symbols (map symbol_view binary.now) (map symbol_view debug.now) }
{
    if debug.is_empty() { binary } else { debug }
}

/// The symbols whose addresses lie in a set.
fn keep_symbols<'a>(
    alloc: Global,
    code: &RangeSet,
    symbols: &[Symbol<'a>],
) -> Result<Vec<Symbol<'a>>, AllocError>
    ensures { IfOk result (λ kept. kept.items ≡ filter (λ s. is_in_code code.now s.address) symbols.now) }
{
    symbols
        .iter()
        .copied()
        .filter(|symbol| holds_code(code, symbol.address))
        .collect(alloc)
}

/// The symbols whose addresses lie in code.
fn symbols_within<'a>(
    alloc: Global,
    code: &[Span],
    symbols: &[Symbol<'a>],
) -> Result<Vec<Symbol<'a>>, OutOfMemory>
    ensures { IfOk result (λ kept. map symbol_view kept.items ≡ symbols_in code.now (map symbol_view symbols.now)) }
{
    let addresses = of_ranges(alloc, code)?;
    Ok(keep_symbols(alloc, &addresses, symbols)?)
}

impl<'a> Image<'a> {
    /// The image of a stripped binary with its separate debug file. Its parts are slices of both files.
    #[tactic(auto, unfolding(crate::specs::Pair::paired))]
    pub fn with_debug(&self, alloc: Global, debug: &Image<'a>) -> Result<Image<'a>, OutOfMemory>
        ensures { IfOk result (λ both. both ≡ paired self.now debug.now) }
    {
        let chosen = choose_symbols(&self.symbols, &debug.symbols);
        let symbols = symbols_within(alloc, &self.code, chosen)?;
        Ok(Image {
            info: debug.info,
            abbrevs: debug.abbrevs,
            line: debug.line,
            line_str: debug.line_str,
            strs: debug.strs,
            str_offsets: debug.str_offsets,
            addr: debug.addr,
            ranges: debug.ranges,
            rnglists: debug.rnglists,
            debug_frame: debug.debug_frame,
            eh_frame: self.eh_frame,
            text: self.text,
            base: self.base,
            code: self.code.clone()?,
            build_id: self.build_id,
            identity: self.identity,
            symbols,
            altlink: debug.altlink,
            debug_sup: debug.debug_sup,
            sup: debug.sup,
        })
    }
}
