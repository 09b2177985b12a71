//! Finds inlined copies, their names and all paths, share by share.
ghost use Rattle.std.specs.Prelude.{◌≡◌, length, IfOk};
ghost use Rattle.func_records.specs.internal.Gathering.{AreHeld};
ghost use Rattle.unit_workers.specs.Shares.{share};
ghost use Rattle.func_records.specs.internal.Shares.{IsFound, AreFound};

use crate::found::FoundShare;
use crate::origin_refs::gather_refs;
use crate::paths::gather_paths;
use crate::shares::{SHARE, share_count};
use debug_units::Units;
use die_names::LinkGuesses;
use flat_lists::FlatLists;
use func_flatten::Piece;
use inline_chain::{InlineRun, InlineTrees, LevelLists, inlines};
use std::alloc::Global;
use std::marker::Model;
use std::thread::Threads;
use sym_edges::OutOfMemory;
use unit_workers::{Crew, NoGate, UnitJob, share_of};

/// Room for the copies of a share, so that they are not moved as they grow. Unused room is given back.
const ROOM: usize = 1 << 16;

/// The inlined copies of some pieces, with a list for each piece.
fn find_copies(
    alloc: Global,
    trees: &InlineTrees<'_, '_>,
    pieces: &[Piece],
    levels: &mut LevelLists,
) -> Result<FlatLists<InlineRun>, OutOfMemory>
    ensures are { IfOk result (λ held. AreHeld trees.now pieces.now held) }
    ensures count { IfOk result (λ held. length held ≡ length pieces.now) }
{
    let mut held = FlatLists::with_room(alloc, pieces.len(), ROOM)?;
    'pieces: for place in 0..pieces.len() {
        let mut copies = inlines(alloc, trees, &pieces[place], levels)?.into_vec();
        held.append(&mut copies)?;
    }
    held.shrink();
    Ok(held)
}

/// What a worker keeps from share to share: where links led, and lists.
#[derive(Drop)]
struct FinderScratch {
    links: LinkGuesses,
    levels: LevelLists,
}

/// A job that finds, share by share, the inlined copies of pieces and what they name.
#[derive(Drop)]
struct ShareFinder<'t, 'u, 'a> {
    trees: &'t InlineTrees<'u, 'a>,
    units: &'t Units<'a>,
    pieces: &'t [Piece],
}

impl<'t, 'u, 'a> Model for ShareFinder<'t, 'u, 'a> {
    ghost use Rattle.std.specs.Prelude.{◌≡◌};
    ghost use Rattle.func_records.specs.internal.Shares.{FinderParts};

    ghost Value = { FinderParts };

    ghost view = { λ f. record { units = f.units.now; pieces = f.pieces.now } };

    ghost invariant = { λ f. f.trees.now ≡ f.units.now };
}

impl<'t, 'u, 'a> ShareFinder<'t, 'u, 'a> {
    fn of(
        trees: &'t InlineTrees<'u, 'a>,
        units: &'t Units<'a>,
        pieces: &'t [Piece],
    ) -> ShareFinder<'t, 'u, 'a>
        requires { trees.now ≡ units.now }
        ensures { result ≡ record { units = units.now; pieces = pieces.now } }
    {
        ShareFinder {
            trees,
            units,
            pieces,
        }
    }

    /// Finds the copies of some pieces, and what they name.
    fn find(
        &self,
        alloc: Global,
        pieces: &[Piece],
        scratch: &mut FinderScratch,
    ) -> Result<FoundShare, OutOfMemory>
        ensures { IfOk result (λ found. IsFound self.now.units pieces.now found) }
    {
        let held = find_copies(alloc, self.trees, pieces, &mut scratch.levels)?;
        let origins = gather_refs(alloc, self.units, pieces, &held, &mut scratch.links)?;
        let paths = gather_paths(alloc, self.units, pieces, &held)?;
        let (refs, places) = origins.into_parts();
        Ok(FoundShare {
            held,
            refs,
            places,
            paths,
        })
    }
}

impl<'t, 'u, 'a> UnitJob for ShareFinder<'t, 'u, 'a> {
    type Out = FoundShare;

    type Scratch = FinderScratch;

    ghost gives = { λ finder k found. IsFound finder.units (share 512 k finder.pieces) found };

    fn scratch(&self, alloc: Global) -> Result<FinderScratch, OutOfMemory> {
        Ok(FinderScratch {
            links: LinkGuesses::new(alloc)?,
            levels: LevelLists::new(alloc),
        })
    }

    fn run(
        &self,
        alloc: Global,
        k: usize,
        scratch: &mut FinderScratch,
    ) -> Result<FoundShare, OutOfMemory> {
        let found = self.find(alloc, share_of(self.pieces, SHARE, k), scratch)?;
        Ok(found)
    }
}

/// Finds the copies of all pieces and what they name, by a crew of workers.
pub fn find_shares<R: Threads + Sync>(
    crew: &Crew<'_, R>,
    units: &Units<'_>,
    pieces: &[Piece],
) -> Result<Vec<FoundShare>, OutOfMemory>
    ensures { IfOk result (λ shares. AreFound units.now pieces.now shares.items) }
{
    let trees = InlineTrees::of(crew, units)?;
    let finder = ShareFinder::of(&trees, units, pieces);
    let count = share_count(pieces.len())?;
    let shares = crew.run(&finder, &NoGate, count)?;
    Ok(shares)
}
