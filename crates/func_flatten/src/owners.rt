//! Which function owns which addresses.
ghost use Rattle.std.specs.Prelude.{◌≡◌, map, length, IfOk};
ghost use Rattle.func_flatten.specs.Pieces.{ArePieces};
ghost use Rattle.func_flatten.specs.internal.Collecting.{AreCut, piece_of};

use crate::cover_marks::named_covers;
use crate::functions::collect_all;
use crate::piece::{Piece, PieceList};
use debug_units::{EntryRef, Units};
use std::alloc::{AllocError, Global};
use step_maps::Cover;
use sym_edges::{ListOf, OutOfMemory};

/// Who owns which addresses: a piece for each maximal run of addresses with one owner, by address. The owner of an address is the first function, in
/// the order of `.debug_info`, that has the address (DWARF 5, 3.3). A piece's `many` says of its first address whether another function with another
/// name, cleaned as a record carries it, has it too.
///
/// For n ranges of functions it takes n log n steps however they overlap, and n steps if they ascend. Names are looked up only for functions that
/// share the first address of a piece with another function, or their whole set of addresses with another function of the unit.
pub fn pieces(alloc: Global, units: &Units<'_>) -> Result<PieceList, OutOfMemory>
    ensures { IfOk result (λ pieces. ArePieces units.now pieces) }
{
    let all = collect_all(alloc, units)?;
    let covers = named_covers(alloc, units, &all)?;
    let pieces = pieces_of(alloc, covers.as_slice(), all.places.as_slice())?;
    Ok(ListOf::of(pieces))
}

/// The covers as pieces.
fn pieces_of(alloc: Global, covers: &[Cover], places: &[EntryRef]) -> Result<Vec<Piece>, AllocError>
    requires { AreCut (length places.now) covers.now }
    ensures { IfOk result (λ pieces. pieces.items ≡ map (piece_of places.now) covers.now) }
{
    let mut pieces = Vec::with_capacity(alloc, covers.len())?;
    let mut rest = covers;
    'covers: while let Some((cover, later)) = rest.split_first() {
        let place = places[cover.index as usize];
        pieces.push(Piece {
            unit: place.unit,
            entry: place.entry,
            start: cover.first,
            end: cover.last + 1,
            many: cover.shared,
        })?;
        rest = later;
    }
    Ok(pieces)
}
