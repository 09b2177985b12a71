//! Reads a whole line table of `.debug_line` (DWARF 5, 6.2).
ghost use Rattle.std.specs.Prelude.{◌≡◌, List, IfOk, Err};
ghost use Rattle.sym_edges.specs.Addresses.{Range};
ghost use Rattle.sym_edges.specs.Outside.{MatchStop};
ghost use Rattle.range_set.specs.Enclosing.{encloses};
ghost use Rattle.line_program.specs.LineMaps.{EncloseAlike};
ghost use Rattle.line_program.specs.LineTables.{lines_of, program_lines, lines_at, unit_lines, Says};
ghost use Rattle.line_program.specs.internal.KeptRows.{or_kept_lines};

use crate::fault::{LineFault, Reading};
use crate::header::{Header, read_table};
use crate::machine::Machine;
use crate::paths::Files;
use crate::program_run::run_program;
use crate::scratch::LineScratch;
use crate::table::{LineTable, Lines};
use crate::tables::{Tables, read_tables};
use abbrev_units::{DwarfFault, DwarfKind, Sections};
use leb_cursor::Cursor;
use range_set::Enclosing;
use std::alloc::Global;
use sym_edges::{Located, OutOfMemory, Sect, Stop};

/// The sequences and the files: first those in the header's table, and then those that the program
/// defined.
#[tactic(auto, unfolding(crate::specs::LineTables::lines_of))]
fn join_files<'a>(
    scratch: &mut LineScratch,
    comp_dir: &'a [u8],
    version: u16,
    tables: Tables<'a>,
    machine: Machine<'a>,
) -> Result<Lines<'a>, OutOfMemory>
    ensures { IfOk result (λ lines. lines ≡ lines_of comp_dir.now version tables.entry machine.entry) }
{
    let Tables {
        directories,
        mut files,
    } = tables;
    let (sequences, mut defined, rows) = machine.into_parts();
    scratch.rows = rows;
    files.append(&mut defined)?;
    Ok(Lines {
        sequences,
        first: if version == 5 { 0 } else { 1 },
        files: Files::of(version, comp_dir, directories, files),
    })
}

/// Reads the tables and the program of a line table, given its header.
#[tactic(auto, using(crate::proofs::KeptLemmas::lines_read, crate::proofs::KeptLemmas::lines_refused))]
fn read_rows<'a>(
    alloc: Global,
    scratch: &mut LineScratch,
    comp_dir: &'a [u8],
    header: Header<'a>,
    tables: Tables<'a>,
) -> Reading<Lines<'a>>
    ensures { IfOk result (λ read. read ≡ or_kept_lines (program_lines comp_dir.now header.entry.program tables.entry header.entry.opcodes)) }
{
    let Header {
        program,
        wide: _,
        tables: _,
        opcodes,
    } = header;
    let machine = match run_program(alloc, scratch, &program, opcodes)? {
        Ok(machine) => machine,
        Err(fault) => return Ok(Err(fault)),
    };
    let lines = join_files(scratch, comp_dir, program.version, tables, machine)?;
    Ok(Ok(lines))
}

/// Reads the line table at the cursor.
#[tactic(auto, unfolding(crate::specs::LineTables::lines_at))]
fn read_ahead<'a>(
    alloc: Global,
    scratch: &mut LineScratch,
    sections: &Sections<'a>,
    comp_dir: &'a [u8],
    cursor: Cursor<'a>,
) -> Reading<Lines<'a>>
    ensures { IfOk result (λ read. read ≡ or_kept_lines (lines_at sections.now comp_dir.now cursor.entry)) }
{
    let start = cursor.at();
    let header = match read_table(cursor) {
        Ok(header) => header,
        Err(fault) => return Ok(Err(LineFault::of_header(start, fault))),
    };
    let tables = match read_tables(alloc, &mut scratch.formats, sections, start, &header)? {
        Ok(tables) => tables,
        Err(fault) => return Ok(Err(fault)),
    };
    let lines = read_rows(alloc, scratch, comp_dir, header, tables)?;
    Ok(lines)
}

/// Reads the line table at an offset in `.debug_line`, which the root of a unit gives; the root is
/// at `place` in `.debug_info`. `comp_dir` is the unit's compilation directory, or empty if it has
/// none. `code` says whether a sequence is code; one such value may serve for all tables of an
/// image. A caller that reads many tables passes the same `scratch` for each.
///
/// Versions 2 to 5 are read, in both formats. Faults are in `.debug_line`, except `OffsetOutside`,
/// which is in `.debug_info` at `place`. The faults at the table's start are `Ends` if the length
/// leaves the section, `Reserved`, `LineVersion` and `LineHeader`. The last one means that a field
/// of the header has an impossible value, that the program begins after the end of the table, or
/// that a count is greater than the number of bytes left. All other faults are at the place of what
/// cannot be read: `Ends`, `LebLong`, `NoZero`, `UnknownForm` and `LineOpcode`.
#[tactic(auto, using(crate::proofs::LinesLemmas::offset_outside, crate::proofs::LinesLemmas::inside_refused))]
pub fn read_lines<'a>(
    alloc: Global,
    scratch: &mut LineScratch,
    sections: &Sections<'a>,
    offset: u64,
    place: usize,
    comp_dir: &'a [u8],
    code: &Enclosing,
) -> Result<LineTable<'a>, Stop<DwarfFault>>
    ensures { MatchStop result
        (λ table. (spans : List Range) → EncloseAlike code.now spans → Says (encloses spans) (unit_lines sections.now offset place comp_dir.now) table)
        (λ fault. unit_lines sections.now offset place comp_dir.now ≡ Err fault)
        (Unit {0}) }
{
    if offset > sections.line.len() as u64 {
        return Err(Stop::Fault(Located {
            kind: DwarfKind::OffsetOutside,
            section: Sect::Info,
            at: place,
        }));
    }
    let cursor = Cursor::new(sections.line, offset as usize, sections.line.len());
    match read_ahead(alloc, scratch, sections, comp_dir, cursor)? {
        Ok(lines) => {
            let table = LineTable::of(alloc, scratch, code, lines)?;
            Ok(table)
        }
        Err(fault) => Err(Stop::Fault(fault.into_fault())),
    }
}
