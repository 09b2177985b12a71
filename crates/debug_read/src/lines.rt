//! The line table that a unit names, and whether the unit is asked for lines.
ghost use Rattle.std.specs.Prelude.{◌≡◌, if◌then◌else◌, List, [], unwrap_or, Err};
ghost use Rattle.std.specs.List.{list_any};
ghost use Rattle.sym_edges.specs.Addresses.{Range};
ghost use Rattle.sym_edges.specs.Outside.{MatchStop};
ghost use Rattle.range_set.specs.Enclosing.{encloses};
ghost use Rattle.line_program.specs.LineMaps.{EncloseAlike};
ghost use Rattle.line_program.specs.LineTables.{unit_lines, Says as SaysTable};
ghost use Rattle.debug_read.specs.UnitsRead.{has_function};

use abbrev_units::{DwarfFault, Sections};
use die_walk::{DieList, Root};
use line_program::{LineScratch, LineTable, read_lines};
use range_set::Enclosing;
use std::alloc::Global;
use sym_edges::Stop;

/// Whether one of the entries is a function.
#[tactic(auto, using(crate::proofs::LineLemmas::function_here, crate::proofs::LineLemmas::function_later, crate::proofs::LineLemmas::no_function, crate::proofs::LineLemmas::function_lost))]
pub fn has_function(dies: &DieList<'_>) -> bool
    ensures { result ≡ has_function dies.now }
{
    'entries: for entry in 0..dies.len() {
        let Some(die) = dies.get(entry) else {
            return false;
        };
        if die.is_function() {
            return true;
        }
    }
    false
}

/// The compilation directory, or the empty text.
pub fn comp_dir_of<'a>(root: &Root<'a>) -> &'a [u8]
    ensures { result.now ≡ unwrap_or root.now.comp_dir [] }
{
    match root.comp_dir {
        Some(comp_dir) => comp_dir,
        None => &[],
    }
}

/// Reads the line table at the offset that a root gives.
pub fn read_table<'a>(
    alloc: Global,
    sections: &Sections<'a>,
    root: &Root<'a>,
    offset: u64,
    code: &Enclosing,
) -> Result<LineTable<'a>, Stop<DwarfFault>>
    ensures { MatchStop result
        (λ table. (spans : List Range) → EncloseAlike code.now spans → SaysTable (encloses spans) (unit_lines sections.now offset root.now.at (unwrap_or root.now.comp_dir [])) table)
        (λ fault. unit_lines sections.now offset root.now.at (unwrap_or root.now.comp_dir []) ≡ Err fault)
        (Prim.Unit {0}) }
{
    let mut scratch = LineScratch::new(alloc);
    read_lines(
        alloc,
        &mut scratch,
        sections,
        offset,
        root.at as usize,
        comp_dir_of(root),
        code,
    )
}
