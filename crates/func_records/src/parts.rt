//! Spells the records of functions, their inlined copies and their lines.
ghost use Rattle.std.specs.Prelude.{◌≡◌, ◌++◌, ◌<◌, ◌^◌, ◌-◌, None, true, length, map, unwrap_or, OnOk};
ghost use Rattle.std.specs.List.{list_all, slice_get};
ghost use Rattle.std.specs.Option.{option_copied};
ghost use Rattle.sym_records.specs.Canon.{canon, canon_text};
ghost use Rattle.clean_names.specs.Cleaning.{cleaned};
ghost use Rattle.sym_records.specs.Spelled.{text_bytes};
ghost use Rattle.sym_records.specs.Validity.{fields_fit};
ghost use Rattle.sym_records.specs.declared.line.SymLine.TheVariants.{Line};
ghost use Rattle.func_flatten.specs.LineRuns.{AreLineRuns};
ghost use Rattle.func_records.specs.FuncRecords.{func_record};
ghost use Rattle.func_records.specs.internal.Origins.{copy_numbers, all_numbers};
ghost use Rattle.func_records.specs.internal.Parts.{AreShort, AreAllShort, AddsPart, AddsParts};
ghost use Rattle.func_records.specs.internal.Spelling.{line_by, row_of};

use crate::inlines::add_copies;
use crate::path_numbers::PathNumbers;
use crate::writer::FuncWriter;
use die_names::{name_of, name_slice, name_text};
use flat_lists::FlatLists;
use func_flatten::{LineRun, Piece, lines_of};
use inline_chain::InlineRun;
use line_program::PathPair;
use std::alloc::Global;
use sym_edges::OutOfMemory;
use sym_records::laws::{cleaned_bytes_are_names, records_of_functions_fit};
use sym_records::{Extent, TextPieces, add_func, add_line};

/// Adds the record of a run, whose path has the FILE number `file`.
fn add_run(text: &mut Vec<u8>, base: u64, file: u32, run: LineRun) -> Result<(), OutOfMemory>
    ensures text { OnOk result (text.new.items ≡ text.old.items ++ canon (Line (run.start - base) (run.end - run.start) run.line file)) }
    ensures fit { fields_fit (Line (run.start - base) (run.end - run.start) run.line file) ≡ true }
{
    records_of_functions_fit();
    let address = run.start.saturating_sub(base);
    let size = run.end.saturating_sub(run.start);
    add_line(text, address, size, run.line, file)
}

/// Adds the records of some runs of a unit.
fn add_runs(
    text: &mut Vec<u8>,
    base: u64,
    rows: &PathNumbers<'_, '_>,
    unit: u32,
    runs: &[LineRun],
) -> Result<(), OutOfMemory>
    ensures text { OnOk result (text.new.items ≡ text.old.items ++ canon_text (map (line_by base (row_of rows.now unit)) runs.now)) }
    ensures fit { OnOk result (list_all fields_fit (map (line_by base (row_of rows.now unit)) runs.now) ≡ true) }
{
    let Some(first) = runs.first() else {
        return Ok(());
    };
    let mut known = rows.number(unit, first.path)?;
    let mut rest = runs;
    'runs: while let Some((run, later)) = rest.split_first() {
        known = rows.number_after(known, run.path)?;
        add_run(text, base, known.number, *run)?;
        rest = later;
    }
    Ok(())
}

/// Adds the FUNC record of a piece.
#[tactic(auto, using(crate::proofs::SpellLemmas::sliced_name, crate::proofs::SpellLemmas::name_made))]
fn add_owner(
    alloc: Global,
    writer: &FuncWriter<'_, '_, '_>,
    piece: &Piece,
    text: &mut Vec<u8>,
) -> Result<(), OutOfMemory>
    ensures text { OnOk result (text.new.items ≡ text.old.items ++ canon (func_record writer.now.base writer.now.units.now piece.now)) }
    ensures fit { OnOk result (fields_fit (func_record writer.now.base writer.now.units.now piece.now) ≡ true) }
    ensures below { piece.now.end < 2 ^ 64 }
{
    cleaned_bytes_are_names();
    records_of_functions_fit();
    let address = piece.start.saturating_sub(writer.base);
    let size = piece.end.saturating_sub(piece.start);
    let name = name_of(writer.units, piece.unit, piece.entry);
    if let Some(bytes) = name_slice(writer.units, name) {
        return add_func(text, piece.many, address, size, 0, bytes);
    }
    let made = name_text(alloc, writer.units, name)?;
    add_func(text, piece.many, address, size, 0, made.as_slice())
}

/// Lists and texts that are filled anew for each piece. They are kept to reuse their memory; what they hold does not matter.
#[derive(Drop)]
struct PartLists {
    ranges: Vec<Extent>,
    runs: Vec<LineRun>,
    texts: PathPair,
}

/// Adds the records of a piece, its inlined copies and its lines.
fn add_part(
    alloc: Global,
    writer: &FuncWriter<'_, '_, '_>,
    piece: &Piece,
    copies: &[InlineRun],
    origins: &[u32],
    lists: &mut PartLists,
    text: &mut TextPieces,
) -> Result<(), OutOfMemory>
    requires numbered { origins.now ≡ copy_numbers writer.now.numbers writer.now.units.now piece.now.unit copies.now }
    requires short { AreShort copies.now }
    ensures { OnOk result (AddsPart writer.now.base writer.now.numbers writer.now.units.now piece.now copies.now (text_bytes text.old) (text_bytes text.new)) }
{
    add_owner(alloc, writer, piece, &mut text.last)?;
    let ranges = &mut lists.ranges;
    add_copies(writer, piece.unit, copies, origins, ranges, &mut text.last)?;
    lines_of(writer.units, piece, &mut lists.runs, &mut lists.texts)?;
    let runs = lists.runs.as_slice();
    let rows = writer.numbers.rows;
    add_runs(&mut text.last, writer.base, rows, piece.unit, runs)?;
    text.turn(alloc)?;
    Ok(())
}

/// Adds the records of pieces, their inlined copies and their lines. `origins` has the number of each copy's name.
pub fn add_parts(
    alloc: Global,
    writer: &FuncWriter<'_, '_, '_>,
    pieces: &[Piece],
    held: &FlatLists<InlineRun>,
    origins: &[u32],
    text: &mut TextPieces,
) -> Result<(), OutOfMemory>
    requires numbered { origins.now ≡ all_numbers writer.now.numbers writer.now.units.now pieces.now held.now }
    requires count { length held.now ≡ length pieces.now }
    requires short { AreAllShort held.now }
    ensures { OnOk result (AddsParts writer.now.base writer.now.numbers writer.now.units.now pieces.now held.now (text_bytes text.old) (text_bytes text.new)) }
{
    let mut lists = PartLists {
        ranges: Vec::new(alloc),
        runs: Vec::new(alloc),
        texts: PathPair::new(alloc),
    };
    let mut rest = origins;
    'pieces: for place in 0..pieces.len() {
        let copies = held.at(place);
        let (here, later) = rest.split_at(copies.len());
        rest = later;
        add_part(
            alloc,
            writer,
            &pieces[place],
            copies,
            here,
            &mut lists,
            text,
        )?;
    }
    Ok(())
}
