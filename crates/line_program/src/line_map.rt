//! The map from addresses to lines, painted from the rows of sequences.
ghost use Rattle.std.specs.Prelude.{◌≡◌, ℕ, ◌+◌, ◌<◌, ◌≤◌, nat_le, if◌then◌else◌, Option, Some, None, length, slice_get, IfOk, OnOk};
ghost use Rattle.std.specs.Option.{option_copied};
ghost use Rattle.step_maps.specs.Stepping.{last_from, held_from, value_at, IsStepping};
ghost use Rattle.line_program.specs.LineMaps.{no_line};
ghost use Rattle.line_program.specs.internal.Numbered.{numbered_line_of};
ghost use Rattle.step_maps.specs.Ends.{BelowEnd, UpToEnd};
ghost use Rattle.line_program.specs.internal.Painting.{SortedFrom, AllUpTo, last_at, covering, row_by};
ghost use Rattle.line_program.specs.internal.RowsAbove.{Parts};

use crate::path_line::{NO_LINE, PathLine, line_of};
use crate::row::Row;
use crate::row_order::CountedSequence;
use std::alloc::Global;
use step_maps::{FirstItem, StepMap};
use sym_edges::OutOfMemory;

/// What is needed to paint: the sequences that count, the number of the first file, and the number
/// of files.
#[derive(Drop)]
pub struct RowPainter<'k> {
    pub kept: &'k [CountedSequence],
    pub first: u32,
    pub files: u32,
}

/// A line, and the address at which it begins.
#[derive(Clone, Copy)]
struct HeldLine {
    from: u64,
    line: PathLine,
}

/// The rows that may count below the address `end`.
fn rows_below(rows: &[Row], end: u64) -> &[Row]
    requires { SortedFrom 0 rows.now }
    ensures sorted { SortedFrom 0 result.now }
    ensures below { AllUpTo end result.now }
    ensures same { (a : ℕ) → a < end → last_at result.now a ≡ last_at rows.now a }
{
    let count = rows.partition_point(|row| row.address < end);
    &rows[..count]
}

/// The line of the last row at or below the address `start`, and the rows above `start`.
fn rows_above<'a>(rows: &'a [Row], first: u32, files: u32, start: u64) -> (PathLine, &'a [Row])
    requires { SortedFrom 0 rows.now }
    ensures { Parts first files rows.now start result.0 result.1.now }
{
    let count = rows.partition_point(|row| row.address <= start);
    let (_, above) = rows.split_at(count);
    if count == 0 {
        return (NO_LINE, above);
    }
    (line_of(first, files, rows[count - 1]), above)
}

/// Paints a line from an address on, unless the last painted line is the same.
#[inline]
fn paint_line(
    painted: &mut StepMap<PathLine>,
    now: PathLine,
    next: HeldLine,
) -> Result<(), OutOfMemory>
    requires last { last_from 0 painted.old.stops ≤ next.from }
    requires now { (a : ℕ) → next.from ≤ a → value_at no_line painted.old a ≡ now }
    ensures at { OnOk result ((a : ℕ) → value_at no_line painted.new a ≡ (if nat_le next.from a then next.line else value_at no_line painted.old a)) }
    ensures last { OnOk result (last_from 0 painted.new.stops ≤ next.from) }
{
    if next.line.path == now.path && next.line.line == now.line {
        return Ok(());
    }
    painted.set(next.from, next.line)?;
    Ok(())
}

/// Paints the lines of rows from an address on.
fn paint_rows(
    painted: &mut StepMap<PathLine>,
    rows: &[Row],
    first: u32,
    files: u32,
    start: u64,
) -> Result<(), OutOfMemory>
    requires sorted { SortedFrom 0 rows.now }
    requires last { last_from 0 painted.old.stops ≤ start }
    ensures at { OnOk result ((a : ℕ) → value_at no_line painted.new a ≡ (if nat_le start a then numbered_line_of first files (last_at rows.now a) else value_at no_line painted.old a)) }
    ensures last { OnOk result ((end : ℕ) → start ≤ end → AllUpTo end rows.now → last_from 0 painted.new.stops ≤ end) }
{
    let (line, above) = rows_above(rows, first, files, start);
    painted.set(start, line)?;
    let mut now = HeldLine { from: start, line };
    let mut rest = above;
    'rows: while let Some((row, after)) = rest.split_first() {
        let next = HeldLine {
            from: row.address,
            line: line_of(first, files, *row),
        };
        paint_line(painted, now.line, next)?;
        now = next;
        rest = after;
    }
    Ok(())
}

/// The counted sequence whose index a first item has.
fn covering(kept: &[CountedSequence], item: Option<FirstItem>) -> Option<&CountedSequence>
    ensures { option_copied result ≡ covering kept.now item }
{
    match item {
        None => None,
        Some(item) => kept.get(item.index as usize),
    }
}

/// Paints the addresses from `start` on, up to the end of the piece, with the lines of the sequence
/// that covers them, or without a line if none does.
fn paint_piece(
    painter: &RowPainter<'_>,
    painted: &mut StepMap<PathLine>,
    item: Option<FirstItem>,
    start: u64,
    end: Option<u64>,
) -> Result<(), OutOfMemory>
    requires last { last_from 0 painted.old.stops ≤ start }
    requires end { UpToEnd start end }
    ensures before { OnOk result ((a : ℕ) → a < start → value_at no_line painted.new a ≡ value_at no_line painted.old a) }
    ensures at { OnOk result ((a : ℕ) → start ≤ a → BelowEnd a end → value_at no_line painted.new a ≡ numbered_line_of painter.now.first painter.now.files (row_by (covering painter.now.kept.now item) a)) }
    ensures last { OnOk result (UpToEnd (last_from 0 painted.new.stops) end) }
{
    match covering(painter.kept, item) {
        None => {
            painted.set(start, NO_LINE)?;
            Ok(())
        }
        Some(sequence) => {
            let rows = sequence.rows.as_slice();
            match end {
                None => {
                    paint_rows(painted, rows, painter.first, painter.files, start)?;
                    Ok(())
                }
                Some(end) => {
                    let below = rows_below(rows, end);
                    paint_rows(painted, below, painter.first, painter.files, start)?;
                    Ok(())
                }
            }
        }
    }
}

/// The stop after the one at a place of the list, if there is one.
fn next_stop(stops: &[u64], place: usize) -> Option<u64>
    requires { place < length stops.now }
    ensures { result ≡ slice_get stops.now (place + 1) }
{
    stops.get(place + 1).copied()
}

/// An upper bound of the number of stops: one for each row, and one for the end of each sequence.
fn line_count(kept: &[CountedSequence]) -> usize {
    let mut count = kept.len();
    for sequence in kept {
        count = count.saturating_add(sequence.rows.len());
    }
    count
}

/// Paints all addresses that sequences cover.
pub fn paint_all(
    alloc: Global,
    painter: &RowPainter<'_>,
    stops: &[u64],
    items: &[Option<FirstItem>],
) -> Result<StepMap<PathLine>, OutOfMemory>
    requires { IsStepping stops.now items.now }
    ensures { IfOk result (λ painted. (a : ℕ) → value_at no_line painted a ≡ numbered_line_of painter.now.first painter.now.files (row_by (covering painter.now.kept.now (held_from None stops.now items.now a)) a)) }
{
    let mut painted = StepMap::with_room(alloc, line_count(painter.kept))?;
    for place in 0..stops.len() {
        let end = next_stop(stops, place);
        paint_piece(painter, &mut painted, items[place], stops[place], end)?;
    }
    painted.shrink();
    Ok(painted)
}
