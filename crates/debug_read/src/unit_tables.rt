//! The line table of each unit, after the entries of all units were read: a handle of the table that the unit names, or its fault. No lines are kept
//! of a unit without a function.
ghost use Rattle.std.specs.Prelude.{◌≡◌, if◌then◌else◌, Some, List, Err, IfOk};
ghost use Rattle.sym_edges.specs.Addresses.{Range};
ghost use Rattle.sym_edges.specs.Outside.{MatchStop};
ghost use Rattle.abbrev_units.specs.declared.unit.Unit.{Unit};
ghost use Rattle.line_program.specs.LineMaps.{EncloseAlike, no_lines};
ghost use Rattle.debug_read.specs.Each.{Says, each_of, Match};
ghost use Rattle.debug_read.specs.UnitSays.{unit_says};
ghost use Rattle.debug_read.specs.UnitsRead.{IsUnitRead};
ghost use Rattle.debug_read.specs.internal.Owing.{AreKnown, LinesAre, IsOwing, Settles};

use crate::lines::read_table;
use crate::named_tables::{NamedTable, TableRead, find_table, name_of, read_tables};
use abbrev_units::{DwarfFault, Sections};
use debug_units::{SharedLines, SpanSets, UnitRead};
use die_walk::{DieTable, Root};
use line_program::LineTable;
use range_set::Enclosing;
use std::alloc::Global;
use std::thread::Threads;
use sym_edges::{OutOfMemory, Span, Stop};
use unit_workers::Crew;

/// What a worker found in a unit: everything but its line table, and whether one of its entries is a function.
#[derive(Drop)]
pub struct UnitFound<'a> {
    pub die: DieTable<'a>,
    pub spans: SpanSets,
    pub function: bool,
}

/// The line tables that were read, and an empty one, with the sections. Ranges that `code` encloses
/// are code.
#[derive(Drop)]
struct KnownTables<'s, 'a> {
    sections: &'s Sections<'a>,
    code: &'s Enclosing,
    tables: Vec<NamedTable<'a>>,
    empty: SharedLines<'a>,
}

/// What a unit keeps of a line table: the table if the unit has a function, otherwise an empty
/// table.
fn keep_lines<'a>(
    known: &KnownTables<'_, 'a>,
    lines: &SharedLines<'a>,
    function: bool,
) -> Result<SharedLines<'a>, OutOfMemory>
    requires { AreKnown known.now }
    ensures { IfOk result (λ kept. kept ≡ (if function then lines.now else no_lines)) }
{
    if function {
        return lines.again();
    }
    known.empty.again()
}

/// Reads the line table at the offset that a root gives, for that unit alone.
fn own_lines<'a>(
    alloc: Global,
    known: &KnownTables<'_, 'a>,
    root: &Root<'a>,
    offset: u64,
    function: bool,
) -> Result<Result<SharedLines<'a>, DwarfFault>, OutOfMemory>
    requires known { AreKnown known.now }
    requires offset { root.now.stmt_list ≡ Some offset }
    ensures { IfOk result (λ read. (spans : List Range) → EncloseAlike known.now.code.now spans → LinesAre spans known.now.sections.now root.now function read) }
{
    match read_table(alloc, known.sections, root, offset, known.code) {
        Ok(table) => {
            let lines = SharedLines::of(alloc, table)?;
            let kept = keep_lines(known, &lines, function)?;
            Ok(Ok(kept))
        }
        Err(Stop::Fault(fault)) => Ok(Err(fault)),
        Err(Stop::NoMemory) => Err(OutOfMemory),
    }
}

/// The lines that a unit keeps, or the fault of its table; `function` says whether the unit has a
/// function.
fn lines_of<'a>(
    alloc: Global,
    known: &KnownTables<'_, 'a>,
    root: &Root<'a>,
    function: bool,
) -> Result<Result<SharedLines<'a>, DwarfFault>, OutOfMemory>
    requires { AreKnown known.now }
    ensures { IfOk result (λ read. (spans : List Range) → EncloseAlike known.now.code.now spans → LinesAre spans known.now.sections.now root.now function read) }
{
    let Some(offset) = root.stmt_list else {
        let lines = known.empty.again()?;
        return Ok(Ok(lines));
    };
    let name = name_of(root, offset, function);
    let Some(one) = find_table(known.tables.as_slice(), &name) else {
        return own_lines(alloc, known, root, offset, function);
    };
    match &one.read {
        TableRead::Whole(lines) => {
            let kept = keep_lines(known, lines, function)?;
            Ok(Ok(kept))
        }
        TableRead::Refused(fault) => Ok(Err(*fault)),
        TableRead::Sound if !function => {
            let lines = known.empty.again()?;
            Ok(Ok(lines))
        }
        TableRead::Sound | TableRead::Outside => own_lines(alloc, known, root, offset, function),
    }
}

/// A unit with its line table, or the first fault of the unit.
fn settle<'a>(
    alloc: Global,
    known: &KnownTables<'_, 'a>,
    one: Result<UnitFound<'a>, DwarfFault>,
) -> Result<Result<UnitRead<'a>, DwarfFault>, OutOfMemory>
    requires { AreKnown known.now }
    ensures { IfOk result (λ out. (spans : List Range) → EncloseAlike known.now.code.now spans → Settles spans known.now.sections.now one.entry out) }
{
    let found = match one {
        Ok(found) => found,
        Err(fault) => return Ok(Err(fault)),
    };
    let UnitFound {
        die,
        spans,
        function,
    } = found;
    match lines_of(alloc, known, die.root(), function)? {
        Ok(lines) => Ok(Ok(UnitRead { die, spans, lines })),
        Err(fault) => Ok(Err(fault)),
    }
}

/// All units, once their line tables are known, or the fault of the first unit that has one.
fn settle_all<'a>(
    alloc: Global,
    known: &KnownTables<'_, 'a>,
    found: Vec<Result<UnitFound<'a>, DwarfFault>>,
) -> Result<Vec<UnitRead<'a>>, Stop<DwarfFault>>
    requires { AreKnown known.now }
    ensures { (spans : List Range) → EncloseAlike known.now.code.now spans → (units : List Unit) → Match (IsOwing spans known.now.sections.now) units found.entry.items → MatchStop result
        (λ parts. Says (Match (IsUnitRead spans)) (each_of (unit_says known.now.sections.now) units) parts.items)
        (λ fault. each_of (unit_says known.now.sections.now) units ≡ Err fault)
        (Prim.Unit {0}) }
{
    let mut left = found;
    left.reverse();
    let mut parts = Vec::with_capacity(alloc, left.len())?;
    'units: while let Some(one) = left.pop() {
        match settle(alloc, known, one)? {
            Ok(part) => parts.push(part)?,
            Err(fault) => return Err(Stop::Fault(fault)),
        }
    }
    Ok(parts)
}

/// All units, with the line tables that they name, or the fault of the first unit that has one. Ranges that one of the spans encloses are code.
pub fn settle_units<'a, R: Threads + Sync>(
    crew: &Crew<'_, R>,
    sections: &Sections<'a>,
    code: &[Span],
    found: Vec<Result<UnitFound<'a>, DwarfFault>>,
) -> Result<Vec<UnitRead<'a>>, Stop<DwarfFault>>
    ensures { (units : List Unit) → Match (IsOwing code.now sections.now) units found.entry.items → MatchStop result
        (λ parts. Says (Match (IsUnitRead code.now)) (each_of (unit_says sections.now) units) parts.items)
        (λ fault. each_of (unit_says sections.now) units ≡ Err fault)
        (Prim.Unit {0}) }
{
    let alloc = crew.alloc();
    let code = Enclosing::of_spans(alloc, code)?;
    let tables = read_tables(crew, sections, &code, found.as_slice())?;
    let known = KnownTables {
        sections,
        code: &code,
        tables,
        empty: SharedLines::of(alloc, LineTable::empty(alloc))?,
    };
    settle_all(alloc, &known, found)
}
