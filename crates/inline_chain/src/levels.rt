//! The levels of a piece, each made from the one before.
ghost use Rattle.std.specs.Prelude.{◌≡◌, ℕ, ◌&&◌, ◌||◌, ◌≤◌, length, map, [], ◌∷◌, OnOk};
ghost use Rattle.std.specs.List.{list_any};
ghost use Rattle.step_maps.specs.Runs.{AreRuns};
ghost use Rattle.step_maps.specs.Covers.{reaches, cover_run};
ghost use Rattle.step_maps.specs.SpanStretches.{AreFit};
ghost use Rattle.inline_chain.specs.Trees.{list_of};
ghost use Rattle.inline_chain.specs.internal.Levels.{has_at, covers_at, reaches_under, cut, HaveRuns, StartsCovers};

use flat_lists::FlatLists;
use std::alloc::AllocError;
use step_maps::{Cover, Stretch};

/// How many covers end below an address.
fn count_below(covers: &[Cover], first: u64) -> usize
    requires { AreRuns (map cover_run covers.now) }
    ensures { StartsCovers covers.now first result }
{
    covers.partition_point(|cover| cover.last < first)
}

/// The part of a cover inside a stretch that has an address in common with it.
fn cut(cover: &Cover, around: Stretch) -> Stretch
    ensures { result ≡ cut cover.now around }
{
    Stretch {
        first: cover.first.max(around.first),
        last: cover.last.min(around.last),
        index: cover.index,
        class: cover.index,
    }
}

/// Adds the copies directly in an entry, at the addresses of one of the entry's stretches.
fn push_under(next: &mut Vec<Stretch>, covers: &[Cover], around: Stretch) -> Result<(), AllocError>
    requires runs { AreRuns (map cover_run covers.now) }
    requires fit { AreFit next.old.items }
    requires one { AreFit (around ∷ []) }
    ensures fit { OnOk result (AreFit next.new.items) }
    ensures at { OnOk result ((y a : ℕ) → has_at next.new.items y a ≡ (has_at next.old.items y a || (reaches around a && covers_at covers.now y a))) }
{
    let (_, front) = covers.split_at(count_below(covers, around.first));
    let mut rest = front;
    'covers: while let Some((cover, later)) = rest.split_first() {
        if cover.first > around.last {
            return Ok(());
        }
        next.push(cut(cover, around))?;
        rest = later;
    }
    Ok(())
}

/// The covers of the copies directly in an entry.
#[tactic(auto, unfolding(crate::specs::Trees::list_of))]
fn covers_in(lists: &FlatLists<Cover>, entry: usize) -> &[Cover]
    ensures { result.now ≡ list_of lists.now entry }
{
    match lists.get(entry) {
        Some(covers) => covers,
        None => &[],
    }
}

/// Sets `next` to the copies directly in the entries of a level, at the addresses of these entries.
pub fn level_under(
    lists: &FlatLists<Cover>,
    level: &[Stretch],
    next: &mut Vec<Stretch>,
) -> Result<(), AllocError>
    requires runs { HaveRuns lists.now }
    requires fit { AreFit level.now }
    ensures fit { OnOk result (AreFit next.new.items) }
    ensures at { OnOk result ((y a : ℕ) → has_at next.new.items y a ≡ list_any (reaches_under lists.now y a) level.now) }
{
    next.clear();
    let mut rest = level;
    'level: while let Some((around, later)) = rest.split_first() {
        push_under(next, covers_in(lists, around.class as usize), *around)?;
        rest = later;
    }
    Ok(())
}
