//! The paths of lines.
ghost use Rattle.std.specs.Prelude.{◌≡◌, ℕ, ◌<◌, List, ◌||◌, true, OnOk};
ghost use Rattle.debug_units.specs.declared.unit_read.UnitRead.{UnitRead};
ghost use Rattle.func_records.specs.internal.Gathering.{has_path};
ghost use Rattle.func_records.specs.internal.Noting.{has_line, Noted, AddsLines};

use crate::path_list::{PathList, PathRef};
use debug_units::Units;
use func_flatten::Piece;
use line_program::LineTable;
use sym_edges::OutOfMemory;

/// Adds the path of a line, if there is a line.
fn note_line(unit: u32, line: Option<(u32, u32)>, paths: &mut PathList) -> Result<(), OutOfMemory>
    ensures { OnOk result ((units : List UnitRead) (path : List ℕ) → has_path units paths.new path ≡ (has_path units paths.old path || has_line units unit line path)) }
{
    if let Some((number, _)) = line {
        let path = Some(number);
        paths.add(PathRef { unit, path })?;
    }
    Ok(())
}

/// Whether both lines exist and have the same path.
#[tactic(auto, using(crate::proofs::LinePathLemmas::one_number))]
fn share_path(line: Option<(u32, u32)>, next: Option<(u32, u32)>) -> bool
    ensures { result ≡ true → (units : List UnitRead) (unit : ℕ) (path : List ℕ) → has_line units unit line path ≡ has_line units unit next path }
{
    let Some((number, _)) = line else {
        return false;
    };
    match next {
        Some((other, _)) => number == other,
        None => false,
    }
}

/// Adds the path of a line, unless the next line has the same path: then the path is added with
/// that line.
#[tactic(auto, using(crate::proofs::LinePathLemmas::left_to_next, crate::proofs::LinePathLemmas::noted_now))]
fn note_before(
    unit: u32,
    line: Option<(u32, u32)>,
    next: Option<(u32, u32)>,
    paths: &mut PathList,
) -> Result<(), OutOfMemory>
    ensures { OnOk result ((units : List UnitRead) (path : List ℕ) → (has_path units paths.new path || has_line units unit next path) ≡ ((has_path units paths.old path || has_line units unit line path) || has_line units unit next path)) }
{
    if share_path(line, next) {
        return Ok(());
    }
    note_line(unit, line, paths)?;
    Ok(())
}

/// Adds the paths of the lines from `start` up to `end`, from one stop of the table to the next.
fn note_lines(
    unit: u32,
    table: &LineTable<'_>,
    start: u64,
    end: u64,
    paths: &mut PathList,
) -> Result<(), OutOfMemory>
    requires { start < end }
    ensures { OnOk result (Noted table.now unit start end paths.old paths.new) }
{
    let stops = table.stops();
    let first = stops.partition_point(|stop| *stop <= start);
    let mut line = table.line_at(start);
    'stops: for place in first..stops.len() {
        let stop = stops[place];
        if end <= stop {
            note_line(unit, line, paths)?;
            return Ok(());
        }
        let next = table.line_from(place);
        note_before(unit, line, next, paths)?;
        line = next;
    }
    note_line(unit, line, paths)?;
    Ok(())
}

/// Adds the paths of a piece's lines.
#[tactic(auto, using(crate::proofs::LinePathLemmas::adds_empty))]
pub fn gather_lines(
    units: &Units<'_>,
    piece: &Piece,
    paths: &mut PathList,
) -> Result<(), OutOfMemory>
    ensures { OnOk result (AddsLines units.now piece.now paths.old paths.new) }
{
    let Some(part) = units.unit(piece.unit) else {
        return Ok(());
    };
    if piece.end <= piece.start {
        return Ok(());
    }
    let table = part.lines.table();
    note_lines(piece.unit, table, piece.start, piece.end, paths)?;
    Ok(())
}
