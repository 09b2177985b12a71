//! The records of all functions of a file.
ghost use Rattle.std.specs.Prelude.{IfOk};
ghost use Rattle.sym_records.specs.Spelled.{text_bytes};
ghost use Rattle.debug_units.specs.CleanPaths.{HaveCleanPaths};
ghost use Rattle.func_records.specs.Adding.{AddsFunctions};
ghost use Rattle.func_records.specs.internal.Origins.{AddsNames};

use crate::finder::find_shares;
use crate::made_names::{DistinctNames, distinct_names};
use crate::names::{gather_names, join_refs};
use crate::numbers::{Numbers, number_of, numbers_at, numbers_of};
use crate::path_list::no_path;
use crate::path_numbers::PathNumbers;
use crate::paths::{UsedPaths, slices_of, used_paths};
use crate::speller::{FoundPieces, add_shares};
use crate::text_numbers::{Numbering, add_texts};
use crate::text_ranks::{RankedTexts, ranked_texts};
use crate::writer::FuncWriter;
use debug_units::Units;
use die_names::NameRef;
use func_flatten::Piece;
use std::thread::Threads;
use sym_edges::OutOfMemory;
use sym_records::TextPieces;
use unit_workers::Crew;

/// Adds the records of the names that entries give, sorted and once each, and returns the number of each entry's name. The memory of the names is
/// given back before other records are spelled.
fn add_names<R: Threads + Sync>(
    crew: &Crew<'_, R>,
    units: &Units<'_>,
    refs: &[NameRef],
    text: &mut TextPieces,
) -> Result<Vec<u32>, OutOfMemory>
    ensures { IfOk result (λ numbers. AddsNames units.now refs.now numbers.items (text_bytes text.old) (text_bytes text.new)) }
{
    let alloc = crew.alloc();
    let named = gather_names(crew, units, refs)?;
    let DistinctNames { texts, places } = distinct_names(alloc, named.as_slice())?;
    let ranked = ranked_texts(crew, texts.as_slice())?;
    let names = ranked.sorted.as_slice();
    if names.len() > u32::MAX as usize {
        return Err(OutOfMemory);
    }
    add_texts(alloc, Numbering::Origins, names, text)?;
    let known = numbers_of(alloc, names, texts.as_slice(), ranked.guesses.as_slice())?;
    let numbers = numbers_at(alloc, known.as_slice(), places.as_slice())?;
    Ok(numbers)
}

/// Adds the records of functions (Breakpad's symbol_files.md) to a text, and returns the text.
/// First come a FILE record for each path that a line record or a call names, and an INLINE_ORIGIN
/// record for each name of an inlined function. Both kinds are sorted by bytes and numbered from 0.
/// Then each piece has its FUNC record, an INLINE record for each inlined copy on the chains of its
/// addresses, and a line record for each run of its lines. The base is subtracted from all
/// addresses. Inlined copies are kept from the first pass to the second. Line runs are made when
/// they are spelled, and are not kept. A crew of workers finds the copies and what they name,
/// numbers the paths, and spells the records; the text does not depend on the number of workers.
pub fn add_functions<R: Threads + Sync>(
    crew: &Crew<'_, R>,
    base: u64,
    units: &Units<'_>,
    pieces: &[Piece],
    front: TextPieces,
) -> Result<TextPieces, OutOfMemory>
    requires clean { HaveCleanPaths units.now }
    ensures { IfOk result (λ text. AddsFunctions base units.now pieces.now (text_bytes front) (text_bytes text)) }
{
    let alloc = crew.alloc();
    let found = find_shares(crew, units, pieces)?;
    let shares = found.as_slice();
    let UsedPaths { refs, texts: made } = used_paths(alloc, units, shares)?;
    let texts = slices_of(alloc, &made)?;
    let ranked = ranked_texts(crew, texts.as_slice())?;
    let RankedTexts { sorted, guesses } = ranked;
    let paths = sorted.as_slice();
    if paths.len() > u32::MAX as usize {
        return Err(OutOfMemory);
    }
    let rows = PathNumbers::of(
        crew,
        units,
        paths,
        refs.as_slice(),
        texts.as_slice(),
        guesses.as_slice(),
    )?;
    let omitted = number_of(paths, no_path());
    let mut text = front;
    add_texts(alloc, Numbering::Files, paths, &mut text)?;
    let numbers = {
        let refs = join_refs(alloc, shares)?;
        add_names(crew, units, refs.as_slice(), &mut text)?
    };
    let writer = FuncWriter {
        base,
        units,
        numbers: Numbers {
            rows: &rows,
            omitted,
            entries: shares,
            numbers: numbers.as_slice(),
        },
    };
    let spelled = FoundPieces {
        pieces,
        shares,
        numbers: numbers.as_slice(),
    };
    let text = add_shares(crew, &writer, spelled, text)?;
    Ok(text)
}
