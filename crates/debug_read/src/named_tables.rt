//! The line tables that units name. A table whose lines are kept is read once for all units that name it with one compilation directory. If no unit
//! keeps the lines at an offset, the table there is read once, for its faults.
ghost use Rattle.std.specs.Prelude.{◌≡◌, true, ℕ, List, [], unwrap_or, IfOk, IfSome};
ghost use Rattle.std.specs.List.{All};
ghost use Rattle.abbrev_units.specs.DebugSections.{DebugSections};
ghost use Rattle.sym_edges.specs.Addresses.{Range};
ghost use Rattle.line_program.specs.LineMaps.{LineMap};
ghost use Rattle.debug_read.specs.internal.Owing.{IsFor, IsTable, TableBy, WholeBy};

use crate::lines::comp_dir_of;
use crate::unit_tables::UnitFound;
use abbrev_units::{DwarfFault, Sections};
use debug_units::SharedLines;
use die_walk::Root;
use line_program::{LineScratch, LineTable, read_lines};
use range_set::Enclosing;
use std::alloc::Global;
use std::cmp::Ordering;
use std::marker::Model;
use std::thread::Threads;
use sym_edges::{OutOfMemory, Stop};
use unit_workers::{Crew, NoGate, UnitJob};

/// What distinguishes line tables: the offset, whether lines are kept and, if they are, the compilation directory, which is a part of the paths.
#[derive(Clone, Copy)]
pub struct TableName<'a> {
    pub offset: u64,
    pub kept: bool,
    pub comp_dir: &'a [u8],
}

/// What was read at an offset: nothing, since the offset is outside of the section; a line table
/// without a fault, whose lines are kept or not; or a line table with a fault.
#[derive(Drop)]
pub enum TableRead<'a> {
    Outside,
    Sound,
    Whole(SharedLines<'a>),
    Refused(DwarfFault),
}

/// A line table that was read for all units that name it.
#[derive(Drop)]
pub struct NamedTable<'a> {
    pub name: TableName<'a>,
    pub read: TableRead<'a>,
}

/// What is kept of a line table without a fault.
fn keep_table<'a>(
    alloc: Global,
    table: LineTable<'a>,
    kept: bool,
) -> Result<TableRead<'a>, OutOfMemory>
    ensures { IfOk result (λ read. (code : List Range) (sections : DebugSections) (offset : ℕ) (comp_dir : List ℕ) → WholeBy code sections offset comp_dir table.entry → TableBy code sections offset comp_dir read) }
{
    if !kept {
        return Ok(TableRead::Sound);
    }
    let lines = SharedLines::of(alloc, table)?;
    Ok(TableRead::Whole(lines))
}

/// Reads the line table of a name.
fn read_named<'a>(
    alloc: Global,
    scratch: &mut LineScratch,
    sections: &Sections<'a>,
    name: TableName<'a>,
    code: &Enclosing,
) -> Result<NamedTable<'a>, OutOfMemory>
    ensures { IfOk result (IsTable code.now sections.now) }
{
    let TableName {
        offset,
        kept,
        comp_dir,
    } = name;
    if offset > sections.line.len() as u64 {
        return Ok(NamedTable {
            name,
            read: TableRead::Outside,
        });
    }
    match read_lines(alloc, scratch, sections, offset, 0, comp_dir, code) {
        Ok(table) => {
            let read = keep_table(alloc, table, kept)?;
            Ok(NamedTable { name, read })
        }
        Err(Stop::Fault(fault)) => Ok(NamedTable {
            name,
            read: TableRead::Refused(fault),
        }),
        Err(Stop::NoMemory) => Err(OutOfMemory),
    }
}

/// A job that reads line tables, each by the number of its name.
#[derive(Drop)]
struct NameReader<'s, 'a> {
    sections: &'s Sections<'a>,
    names: &'s [TableName<'a>],
    code: &'s Enclosing,
}

impl<'s, 'a> Model for NameReader<'s, 'a> {
    ghost use Rattle.debug_read.specs.internal.Jobs.{NameParts};

    ghost Value = { NameParts };

    ghost view = { λ r. record { sections = r.sections.now; code = r.code.now } };
}

impl<'s, 'a> NameReader<'s, 'a> {
    fn of(
        sections: &'s Sections<'a>,
        names: &'s [TableName<'a>],
        code: &'s Enclosing,
    ) -> NameReader<'s, 'a>
        ensures { result ≡ record { sections = sections.now; code = code.now } }
    {
        NameReader {
            sections,
            names,
            code,
        }
    }
}

impl<'s, 'a> UnitJob for NameReader<'s, 'a> {
    type Out = NamedTable<'a>;

    type Scratch = LineScratch;

    ghost gives = { λ reader k out. IsTable reader.code reader.sections out };

    fn scratch(&self, alloc: Global) -> Result<LineScratch, OutOfMemory> {
        Ok(LineScratch::new(alloc))
    }

    /// A number after the last name, which no worker draws, has no result.
    fn run(
        &self,
        alloc: Global,
        k: usize,
        scratch: &mut LineScratch,
    ) -> Result<NamedTable<'a>, OutOfMemory> {
        match self.names.get(k) {
            Some(name) => read_named(alloc, scratch, self.sections, *name, self.code),
            None => Err(OutOfMemory),
        }
    }
}

/// The order of names: by their offsets, then those whose lines are kept before others, then by their directories.
fn compare_names(name: &TableName<'_>, other: &TableName<'_>) -> Ordering {
    match name.offset.cmp(&other.offset) {
        Ordering::Equal => match other.kept.cmp(&name.kept) {
            Ordering::Equal => name.comp_dir.cmp(other.comp_dir),
            order => order,
        },
        order => order,
    }
}

/// The order of a name and the sought name. If the lines of the sought name are not kept, each name
/// with its offset counts as equal.
fn seek_name(name: &TableName<'_>, sought: &TableName<'_>) -> Ordering {
    if sought.kept {
        return compare_names(name, sought);
    }
    name.offset.cmp(&sought.offset)
}

/// Whether what was read for one name is right for the sought name too.
fn is_for(name: &TableName<'_>, sought: &TableName<'_>) -> bool
    ensures { result ≡ true → IsFor name.now sought.now }
{
    name.offset == sought.offset && (!sought.kept || name.comp_dir == sought.comp_dir)
}

/// The name of the line table at the offset that a root gives, in a unit with a function or without.
pub fn name_of<'a>(root: &Root<'a>, offset: u64, function: bool) -> TableName<'a>
    ensures offset { result.offset ≡ offset }
    ensures kept { result.kept ≡ function }
    ensures comp_dir { result.comp_dir.now ≡ unwrap_or root.now.comp_dir [] }
{
    TableName {
        offset,
        kept: function,
        comp_dir: comp_dir_of(root),
    }
}

/// The sorted names of the tables of all units, without those for which the table of another name is read.
fn names_of<'a>(
    alloc: Global,
    found: &[Result<UnitFound<'a>, DwarfFault>],
) -> Result<Vec<TableName<'a>>, OutOfMemory> {
    let mut names = Vec::new(alloc);
    'units: for one in found {
        if let Ok(found) = one
            && let Some(offset) = found.die.root().stmt_list
        {
            names.push(name_of(found.die.root(), offset, found.function))?;
        }
    }
    names.sort_unstable_by(|a, b| compare_names(a, b));
    names.dedup_by(|a, b| is_for(b, a));
    Ok(names)
}

/// The tables of all units, in the order of their names. Each is read once, by the workers.
pub fn read_tables<'a, R: Threads + Sync>(
    crew: &Crew<'_, R>,
    sections: &Sections<'a>,
    code: &Enclosing,
    found: &[Result<UnitFound<'a>, DwarfFault>],
) -> Result<Vec<NamedTable<'a>>, OutOfMemory>
    ensures { IfOk result (λ tables. All (IsTable code.now sections.now) tables.items) }
{
    let names = names_of(crew.alloc(), found)?;
    if names.len() as u64 > 1 << 32 {
        return Err(OutOfMemory);
    }
    let job = NameReader::of(sections, names.as_slice(), code);
    let tables = crew.run(&job, &NoGate, names.len())?;
    Ok(tables)
}

/// The table that was read for a name, if there is one.
pub fn find_table<'t, 'a>(
    tables: &'t [NamedTable<'a>],
    name: &TableName<'_>,
) -> Option<&'t NamedTable<'a>>
    ensures table { (code : List Range) (sections : DebugSections) → All (IsTable code sections) tables.now → IfSome result (λ one. IsTable code sections one.now) }
    ensures name { IfSome result (λ one. IsFor one.now.name name.now) }
{
    let Ok(place) = tables.binary_search_by(|one| seek_name(&one.name, name)) else {
        return None;
    };
    let one = &tables[place];
    if is_for(&one.name, name) {
        return Some(one);
    }
    None
}
