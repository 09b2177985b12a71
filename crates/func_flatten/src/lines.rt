//! The lines of a piece.
ghost use Rattle.std.specs.Prelude.{◌≡◌, ℕ, ◌<◌, ◌≤◌, [], ◌∷◌, ◌++◌, true, false, map, length, IfOk, OnOk};
ghost use Rattle.step_maps.specs.Runs.{IsRuns, between};
ghost use Rattle.line_program.specs.LineMaps.{numbered_line, named_line};
ghost use Rattle.func_flatten.specs.LineRuns.{path_run, AreStarted, AreLineRuns};
ghost use Rattle.func_flatten.specs.internal.Growing.{continues, with_run, with_part, AreKnown, IsKnown};

use crate::line_run::LineRun;
use crate::piece::Piece;
use debug_units::Units;
use line_program::{LineTable, PathPair};
use sym_edges::OutOfMemory;

/// Replaces what `runs` had by the lines of a piece, from the line table of its unit: a line run
/// for each maximal run of its addresses with one path and one line, in the order of the addresses.
/// In `texts` paths are made that must be compared since they have different numbers.
pub fn lines_of(
    units: &Units<'_>,
    piece: &Piece,
    runs: &mut Vec<LineRun>,
    texts: &mut PathPair,
) -> Result<(), OutOfMemory>
    ensures { OnOk result (AreLineRuns units.now piece.now runs.new.items) }
{
    runs.clear();
    let Some(part) = units.unit(piece.unit) else {
        return Ok(());
    };
    if piece.end <= piece.start {
        return Ok(());
    }
    let table = part.lines.table();
    put_runs(table, piece.start, piece.end, runs, texts)?;
    Ok(())
}

/// Puts the runs of the line from `start` up to `end` into an empty list.
fn put_runs(
    table: &LineTable<'_>,
    start: u64,
    end: u64,
    runs: &mut Vec<LineRun>,
    texts: &mut PathPair,
) -> Result<(), OutOfMemory>
    requires none { runs.old.items ≡ [] }
    requires some { start < end }
    ensures runs { OnOk result (IsRuns (between start end (λ a. named_line table.now.paths (numbered_line table.now a))) (map (path_run table.now.paths) runs.new.items)) }
    ensures starts { OnOk result (AreStarted (numbered_line table.now) runs.new.items) }
{
    let stops = table.stops();
    let first = stops.partition_point(|stop| *stop <= start);
    let mut at = start;
    let mut now = table.line_at(start);
    'stops: for place in first..stops.len() {
        let stop = stops[place];
        if end <= stop {
            push_part(table, runs, now, at, end, texts)?;
            return Ok(());
        }
        push_part(table, runs, now, at, stop, texts)?;
        at = stop;
        now = table.line_from(place);
    }
    push_part(table, runs, now, at, end, texts)?;
    Ok(())
}

/// Adds a run, if there is a line.
fn push_part(
    table: &LineTable<'_>,
    runs: &mut Vec<LineRun>,
    now: Option<(u32, u32)>,
    start: u64,
    end: u64,
    texts: &mut PathPair,
) -> Result<(), OutOfMemory>
    requires runs { AreKnown (length table.now.paths) runs.old.items }
    requires now { IsKnown (length table.now.paths) now }
    ensures { OnOk result (runs.new.items ≡ with_part table.now.paths now start end runs.old.items) }
{
    if let Some((path, line)) = now {
        let run = LineRun {
            start,
            end,
            path,
            line,
        };
        push_run(table, runs, run, texts)?;
    }
    Ok(())
}

/// Adds a run after the last one, or makes the last one longer if the run continues it with the same path and line.
fn push_run(
    table: &LineTable<'_>,
    runs: &mut Vec<LineRun>,
    run: LineRun,
    texts: &mut PathPair,
) -> Result<(), OutOfMemory>
    requires runs { AreKnown (length table.now.paths) runs.old.items }
    requires run { run.path < length table.now.paths }
    ensures { OnOk result (runs.new.items ≡ with_run table.now.paths runs.old.items run) }
{
    if lengthen(table, runs, run, texts)? {
        return Ok(());
    }
    runs.push(run)?;
    Ok(())
}

/// Makes the last run longer if another one continues it with the same path and line.
#[tactic(auto, using(crate::proofs::LineLemmas::with_longer, crate::proofs::LineLemmas::with_more, crate::proofs::LineLemmas::last_known))]
fn lengthen(
    table: &LineTable<'_>,
    runs: &mut Vec<LineRun>,
    run: LineRun,
    texts: &mut PathPair,
) -> Result<bool, OutOfMemory>
    requires runs { AreKnown (length table.now.paths) runs.old.items }
    requires run { run.path < length table.now.paths }
    ensures longer { IfOk result (λ on. on ≡ true → runs.new.items ≡ with_run table.now.paths runs.old.items run) }
    ensures stays { IfOk result (λ on. on ≡ false → runs.new.items ≡ runs.old.items) }
    ensures apart { IfOk result (λ on. on ≡ false → runs.old.items ++ run ∷ [] ≡ with_run table.now.paths runs.old.items run) }
{
    let Some(last) = runs.last_mut() else {
        return Ok(false);
    };
    if !continues(table, *last, run, texts)? {
        return Ok(false);
    }
    last.end = run.end;
    Ok(true)
}

/// Whether a run begins where the last one ended, with the same path and line.
fn continues(
    table: &LineTable<'_>,
    last: LineRun,
    run: LineRun,
    texts: &mut PathPair,
) -> Result<bool, OutOfMemory>
    requires last { last.path < length table.now.paths }
    requires run { run.path < length table.now.paths }
    ensures { IfOk result (λ on. on ≡ continues table.now.paths last run) }
{
    if last.end != run.start || last.line != run.line {
        return Ok(false);
    }
    table.share_path(last.path, run.path, texts)
}
