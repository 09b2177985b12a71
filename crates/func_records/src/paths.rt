//! The paths that line records and calls name.
ghost use Rattle.std.specs.Prelude.{◌≡◌, ℕ, List, [], ◌∷◌, ◌++◌, length, map, IfOk, OnOk};
ghost use Rattle.func_records.specs.internal.Gathering.{bytes_of, path_at, has_path, AddsPiece, Gathered};
ghost use Rattle.func_records.specs.internal.Shares.{all_paths};

use crate::call_paths::gather_calls;
use crate::found::FoundShare;
use crate::line_paths::gather_lines;
use crate::path_list::{PathList, PathRef, path_text};
use debug_units::Units;
use flat_lists::FlatLists;
use func_flatten::Piece;
use inline_chain::InlineRun;
use line_program::PathTexts;
use std::alloc::Global;
use sym_edges::OutOfMemory;

/// The number of guesses for the paths of a share.
const SLOTS: usize = 4096;

/// How many bytes are allocated for each path at first; most paths are no longer.
const USUAL: usize = 64;

/// Adds the paths of a piece.
#[tactic(auto, using(crate::proofs::LinePathLemmas::adds_piece))]
fn gather_piece(
    units: &Units<'_>,
    piece: &Piece,
    copies: &[InlineRun],
    paths: &mut PathList,
) -> Result<(), OutOfMemory>
    ensures { OnOk result (AddsPiece units.now piece.now copies.now paths.old paths.new) }
{
    gather_lines(units, piece, paths)?;
    gather_calls(units, piece.unit, copies, paths)?;
    Ok(())
}

/// The paths that the line records and the calls of some pieces name.
pub fn gather_paths(
    alloc: Global,
    units: &Units<'_>,
    pieces: &[Piece],
    held: &FlatLists<InlineRun>,
) -> Result<Vec<PathRef>, OutOfMemory>
    requires { length held.now ≡ length pieces.now }
    ensures { IfOk result (λ refs. Gathered units.now pieces.now held.now (has_path units.now refs.items)) }
{
    let mut paths = PathList::new(alloc, SLOTS)?;
    'pieces: for place in 0..pieces.len() {
        gather_piece(units, &pieces[place], held.at(place), &mut paths)?;
    }
    Ok(paths.into_refs())
}

/// Adds the text of a path to a list.
fn add_text(
    made: &mut FlatLists<u8>,
    units: &Units<'_>,
    at: PathRef,
    texts: &mut PathTexts,
) -> Result<(), OutOfMemory>
    ensures { OnOk result (made.new ≡ made.old ++ path_at units.now at ∷ []) }
{
    let text = path_text(units, at, texts)?;
    made.push(text)?;
    Ok(())
}

/// The texts of some paths.
fn make_texts(
    alloc: Global,
    units: &Units<'_>,
    refs: &[PathRef],
) -> Result<FlatLists<u8>, OutOfMemory>
    ensures { IfOk result (λ made. made ≡ map (path_at units.now) refs.now) }
{
    let mut made = FlatLists::with_room(alloc, refs.len(), refs.len().saturating_mul(USUAL))?;
    let mut texts = PathTexts::new(alloc);
    'refs: for place in 0..refs.len() {
        add_text(&mut made, units, refs[place], &mut texts)?;
    }
    Ok(made)
}

/// The lists as slices.
pub fn slices_of<'u>(alloc: Global, lists: &'u FlatLists<u8>) -> Result<Vec<&'u [u8]>, OutOfMemory>
    ensures { IfOk result (λ slices. bytes_of slices.items ≡ lists.now) }
{
    let mut slices = Vec::with_capacity(alloc, lists.len())?;
    'lists: for place in 0..lists.len() {
        slices.push(lists.at(place))?;
    }
    Ok(slices)
}

/// For each unit the number of paths in the units before it, plus 1; and the number of all paths, plus 1.
fn path_starts(alloc: Global, units: &Units<'_>) -> Result<(Vec<usize>, usize), OutOfMemory> {
    let parts = units.as_slice();
    let mut starts = Vec::with_capacity(alloc, parts.len())?;
    let mut count: usize = 1;
    'units: for unit in 0..parts.len() {
        starts.push(count)?;
        count = count.saturating_add(parts[unit].lines.table().path_count());
    }
    Ok((starts, count))
}

/// How many paths were found in all shares together.
fn found_count(shares: &[FoundShare]) -> usize {
    let mut count: usize = 0;
    'shares: for share in shares {
        count = count.saturating_add(share.paths.len());
    }
    count
}

/// The paths that were found, mostly once each. The number of slots is bounded by what was found,
/// since units that share a line table of many files have many paths that no record names. A path
/// without a slot of its own is added each time it is found.
fn join_paths(
    alloc: Global,
    units: &Units<'_>,
    shares: &[FoundShare],
) -> Result<PathList, OutOfMemory>
    ensures { IfOk result (λ list. (path : List ℕ) → has_path units.now list path ≡ has_path units.now (all_paths shares.now) path) }
{
    let (starts, count) = path_starts(alloc, units)?;
    let most = found_count(shares).saturating_mul(16).saturating_add(SLOTS);
    let mut list = PathList::new(alloc, count.min(most))?;
    'shares: for k in 0..shares.len() {
        list.add_all(starts.as_slice(), shares[k].paths.as_slice())?;
    }
    Ok(list)
}

/// The paths in use by their numbers, mostly once each, and their texts.
#[derive(Drop)]
pub struct UsedPaths {
    pub refs: Vec<PathRef>,
    pub texts: FlatLists<u8>,
}

/// The paths that were found.
pub fn used_paths(
    alloc: Global,
    units: &Units<'_>,
    shares: &[FoundShare],
) -> Result<UsedPaths, OutOfMemory>
    ensures same { IfOk result (λ used. (path : List ℕ) → has_path units.now used.refs.items path ≡ has_path units.now (all_paths shares.now) path) }
    ensures texts { IfOk result (λ used. used.texts ≡ map (path_at units.now) used.refs.items) }
{
    let refs = join_paths(alloc, units, shares)?.into_refs();
    let texts = make_texts(alloc, units, refs.as_slice())?;
    Ok(UsedPaths { refs, texts })
}
