//! The lines of a line table, by address.
ghost use Rattle.std.specs.Prelude.{◌≡◌, ℕ, ◌+◌, ◌^◌, ◌<◌, [], length, slice_index, Some, IfOk, IfSome};
ghost use Rattle.std.specs.List.{slice_get};
ghost use Rattle.std.specs.Str.{bytes_eq};
ghost use Rattle.range_set.specs.Enclosing.{encloses};
ghost use Rattle.sym_edges.specs.Rising.{RisesFrom};
ghost use Rattle.step_maps.specs.Stepping.{value_at};
ghost use Rattle.line_program.specs.LineMaps.{no_line, no_lines, path_numbered, shown, numbered_line, numbered_file, SaysLines};
ghost use Rattle.line_program.specs.internal.Numbered.{numbered_line_of};
ghost use Rattle.line_program.specs.internal.Painting.{counted_row};

use crate::line_map::{RowPainter, paint_all};
use crate::machine::LineSequence;
use crate::path_line::{NO_LINE, PathLine};
use crate::paths::{Files, PathPair, PathTexts};
use crate::scratch::LineScratch;
use crate::stretches::{count_sequences, keep_lists, put_stretches};
use range_set::Enclosing;
use std::alloc::Global;
use std::marker::Model;
use step_maps::{FirstItem, StepMap, Stretch, first_items};
use sym_edges::OutOfMemory;

/// Lines by address, and the files.
#[derive(Drop)]
pub struct LineTable<'a> {
    lines: StepMap<PathLine>,
    first: u32,
    files: Files<'a>,
}

impl<'a> Model for LineTable<'a> {
    ghost use Rattle.std.specs.Prelude.{◌<◌, ◌^◌, length};
    ghost use Rattle.line_program.specs.LineMaps.{LineMap, AreNamed};

    ghost Value = { LineMap };

    ghost view = { λ t. record { lines = t.lines; first = t.first; paths = t.files } };

    ghost invariant = { λ t. AreNamed t.lines t.files × (length t.files < 2 ^ 32) };
}

/// Path number and line, if there is a line.
#[inline]
fn shown(at: PathLine) -> Option<(u32, u32)>
    ensures { result ≡ shown at }
{
    if at.line == 0 {
        return None;
    }
    Some((at.path, at.line))
}

/// The content of a line table: its sequences, the number of its first file, and the files.
#[derive(Drop)]
pub(crate) struct Lines<'a> {
    pub sequences: Vec<LineSequence>,
    pub first: u32,
    pub files: Files<'a>,
}

impl<'a> Model for Lines<'a> {
    ghost use Rattle.line_program.specs.LineAt.{Lines};

    ghost Value = { Lines };

    ghost view = { λ l. record { sequences = l.sequences.items; first = l.first; files = l.files } };
}

/// The lines of one sequence.
fn paint_one(alloc: Global, painter: &RowPainter<'_>) -> Result<StepMap<PathLine>, OutOfMemory>
    requires { length painter.now.kept.now ≡ 1 }
    ensures { IfOk result (λ lines. (a : ℕ) → a < 2 ^ 64 → value_at no_line lines a ≡ numbered_line_of painter.now.first painter.now.files (counted_row painter.now.kept.now a)) }
{
    let sequence = &painter.kept[0];
    let item = Some(FirstItem {
        index: 0,
        class: 0,
        shared: false,
    });
    if sequence.last == u64::MAX {
        let lines = paint_all(alloc, painter, &[sequence.first], &[item])?;
        return Ok(lines);
    }
    let stops = [sequence.first, sequence.last + 1];
    let lines = paint_all(alloc, painter, &stops, &[item, None])?;
    Ok(lines)
}

/// The lines of sequences that count.
fn paint_counted(
    alloc: Global,
    painter: &RowPainter<'_>,
    stretches: &mut Vec<Stretch>,
) -> Result<StepMap<PathLine>, OutOfMemory>
    ensures { IfOk result (λ lines. (a : ℕ) → a < 2 ^ 64 → value_at no_line lines a ≡ numbered_line_of painter.now.first painter.now.files (counted_row painter.now.kept.now a)) }
{
    if painter.kept.len() == 1 {
        return paint_one(alloc, painter);
    }
    if painter.kept.len() as u64 >= 1 << 32 {
        return Err(OutOfMemory);
    }
    put_stretches(stretches, painter.kept)?;
    let covers = first_items(alloc, stretches.as_slice())?;
    let lines = paint_all(alloc, painter, covers.stops(), covers.values())?;
    Ok(lines)
}

impl<'a> LineTable<'a> {
    /// A table without lines and without files, for a unit without a line table. Allocates no memory.
    pub fn empty(alloc: Global) -> LineTable<'a>
        ensures { result ≡ no_lines }
    {
        LineTable {
            lines: StepMap::new(alloc),
            first: 0,
            files: Files::none(alloc),
        }
    }

    /// Makes the table from what was read.
    pub(crate) fn of(
        alloc: Global,
        scratch: &mut LineScratch,
        code: &Enclosing,
        lines: Lines<'a>,
    ) -> Result<LineTable<'a>, OutOfMemory>
        ensures says { IfOk result (λ table. SaysLines (encloses code.now) lines.entry table) }
        ensures few { IfOk result (λ table. lines.entry.first + length lines.entry.files < 2 ^ 32) }
    {
        let Lines {
            mut sequences,
            first,
            files,
        } = lines;
        let count = files.len() as u64;
        if count >= 1 << 32 || count + u64::from(first) >= 1 << 32 {
            return Err(OutOfMemory);
        }
        count_sequences(code, &mut sequences, &mut scratch.counted)?;
        scratch.sequences = sequences;
        let painter = RowPainter {
            kept: scratch.counted.as_slice(),
            first,
            files: count as u32,
        };
        let lines = paint_counted(alloc, &painter, &mut scratch.stretches)?;
        keep_lists(&mut scratch.counted, &mut scratch.spare)?;
        Ok(LineTable {
            lines,
            first,
            files,
        })
    }

    /// Path number and line of an address, by binary search. There are none if no sequence that is
    /// code covers the address, the row has no line, or the table does not have the row's file.
    /// Allocates no memory.
    pub fn line_at(&self, a: u64) -> Option<(u32, u32)>
        ensures line { result ≡ numbered_line self.now a }
        ensures known { a < 2 ^ 64 → IfSome result (λ line. line.0 < length self.now.paths) }
    {
        shown(self.lines.at(NO_LINE, a))
    }

    /// The addresses at which the line may change, ascending. Allocates no memory.
    pub fn stops(&self) -> &[u64]
        ensures same { result.now ≡ self.now.lines.stops }
        ensures rising { RisesFrom 0 self.now.lines.stops }
    {
        self.lines.stops()
    }

    /// Path number and line at a stop, which hold up to the next stop. Allocates no memory.
    pub fn line_from(&self, stop: usize) -> Option<(u32, u32)>
        requires { stop < length self.now.lines.stops }
        ensures line { result ≡ numbered_line self.now (slice_index self.now.lines.stops stop) }
        ensures known { IfSome result (λ line. line.0 < length self.now.paths) }
    {
        let _stops = self.lines.stops();
        let values = self.lines.values();
        shown(values[stop])
    }

    /// The number of files of the table. Their paths are numbered from 0. Allocates no memory.
    pub fn path_count(&self) -> usize
        ensures { result ≡ length self.now.paths }
    {
        self.files.len()
    }

    /// The cleaned path with a number, made in `texts`. `line_at`, `line_from` and `file` return such
    /// numbers. Two numbers may have the same path.
    pub fn path<'t>(
        &'t self,
        number: u32,
        texts: &'t mut PathTexts,
    ) -> Result<&'t [u8], OutOfMemory>
        requires { number < length self.now.paths }
        ensures { IfOk result (λ path. Some path.now ≡ slice_get self.now.paths number) }
    {
        self.files.path(number as usize, texts)
    }

    /// Whether a number has this path, which is made in `texts`.
    fn has_path(&self, number: u32, path: &[u8], texts: &mut PathTexts) -> Result<bool, OutOfMemory>
        requires { number < length self.now.paths }
        ensures { IfOk result (λ same. same ≡ bytes_eq path.now (path_numbered self.now number)) }
    {
        let other = self.path(number, texts)?;
        Ok(path == other)
    }

    /// Whether two numbers have the same path. The paths are made only if the numbers differ.
    pub fn share_path(
        &self,
        number: u32,
        other: u32,
        texts: &mut PathPair,
    ) -> Result<bool, OutOfMemory>
        requires number { number < length self.now.paths }
        requires other { other < length self.now.paths }
        ensures { IfOk result (λ same. same ≡ bytes_eq (path_numbered self.now number) (path_numbered self.now other)) }
    {
        if number == other {
            return Ok(true);
        }
        let path = self.path(number, &mut texts.one)?;
        self.has_path(other, path, &mut texts.other)
    }

    /// The number of a file's path, if the table has a file with that number. Files are numbered from 1 in versions 2 to 4, and from 0 in version 5.
    /// Allocates no memory.
    pub fn file(&self, index: u64) -> Option<u32>
        ensures number { result ≡ numbered_file self.now index }
        ensures known { IfSome result (λ number. number < length self.now.paths) }
    {
        if index < u64::from(self.first) {
            return None;
        }
        let number = index - u64::from(self.first);
        if number < self.files.len() as u64 {
            Some(number as u32)
        } else {
            None
        }
    }
}
