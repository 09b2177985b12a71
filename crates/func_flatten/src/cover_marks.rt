//! Which function covers which addresses, and where names differ.
ghost use Rattle.std.specs.Prelude.{◌≡◌, ◌<◌, ◌^◌, ℕ, None, [], map, length, vec_len, IfOk};
ghost use Rattle.std.specs.List.{filter};
ghost use Rattle.step_maps.specs.Covers.{first_item, AreCovers};
ghost use Rattle.sym_edges.specs.Rising.{RisesFrom};
ghost use Rattle.step_maps.specs.Stepping.{value_at};
ghost use Rattle.step_maps.specs.SpanStretches.{AreFit};
ghost use Rattle.func_flatten.specs.internal.Standing.{IsCollected};
ghost use Rattle.func_flatten.specs.internal.Classes.{shared_starts, reaches_any, shared_in, marked, AreNamedCovers};

use crate::functions::Collected;
use crate::name_classes::with_classes;
use crate::repeats::without_repeats;
use debug_units::Units;
use std::alloc::{AllocError, Global};
use step_maps::{Cover, CoverList, FirstItem, StepMap, Stretch, covers, first_items};
use sym_edges::{ListOf, OutOfMemory};

/// The first addresses of the covers that are shared.
fn shared_starts(alloc: Global, covers: &[Cover]) -> Result<Vec<u64>, AllocError>
    ensures { IfOk result (λ starts. starts.items ≡ shared_starts covers.now) }
{
    let mut starts = Vec::new(alloc);
    let mut rest = covers;
    'covers: while let Some((cover, later)) = rest.split_first() {
        rest = later;
        if !cover.shared {
            continue;
        }
        starts.push(cover.first)?;
    }
    Ok(starts)
}

/// Whether the stretch has one of the addresses, which are in ascending order.
fn reaches_any(addresses: &[u64], stretch: Stretch) -> bool
    requires { RisesFrom 0 addresses.now }
    ensures { result ≡ reaches_any addresses.now stretch }
{
    let count = addresses.partition_point(|address| *address <= stretch.last);
    count > 0 && stretch.first <= addresses[count - 1]
}

/// The stretches that have one of the addresses, which are in ascending order.
fn stretches_at(
    alloc: Global,
    addresses: &[u64],
    stretches: &[Stretch],
) -> Result<Vec<Stretch>, AllocError>
    requires { RisesFrom 0 addresses.now }
    ensures { IfOk result (λ kept. kept.items ≡ filter (reaches_any addresses.now) stretches.now) }
{
    let mut kept = Vec::new(alloc);
    let mut rest = stretches;
    'stretches: while let Some((stretch, later)) = rest.split_first() {
        rest = later;
        if !reaches_any(addresses, *stretch) {
            continue;
        }
        kept.push(*stretch)?;
    }
    Ok(kept)
}

/// Whether an address has a stretch of another class than its first stretch.
fn is_shared_at(items: &StepMap<Option<FirstItem>>, address: u64) -> bool
    ensures { result ≡ shared_in (value_at None items.now address) }
{
    match items.at(None, address) {
        Some(item) => item.shared,
        None => false,
    }
}

/// A cover, which stays shared only if its first address has stretches of several classes.
fn marked(items: &StepMap<Option<FirstItem>>, cover: Cover) -> Cover
    ensures { result ≡ marked items.now cover }
{
    Cover {
        first: cover.first,
        last: cover.last,
        index: cover.index,
        shared: cover.shared && is_shared_at(items, cover.first),
    }
}

/// The covers, each of which stays shared only if its first address has stretches of several
/// classes.
fn mark_covers(mut covers: Vec<Cover>, items: &StepMap<Option<FirstItem>>) -> Vec<Cover>
    ensures { result.items ≡ map (marked items.now) covers.items }
{
    for at in 0..covers.len() {
        covers[at] = marked(items, covers[at]);
    }
    covers
}

/// The covers of the functions' stretches. First each function has a class of its own. If two functions have the first address of a cover, all
/// stretches that have this address are swept again, with classes by their functions' names.
pub fn named_covers(
    alloc: Global,
    units: &Units<'_>,
    all: &Collected,
) -> Result<CoverList, OutOfMemory>
    requires all { (low : ℕ) × IsCollected units.now all.now.places.items all.now.stretches.items low [] }
    requires fit { AreFit all.now.stretches.items }
    ensures { IfOk result (λ covers. AreNamedCovers units.now all.now.stretches.items covers) }
{
    let single = without_repeats(
        alloc,
        units,
        all.places.as_slice(),
        all.stretches.as_slice(),
    )?;
    let stretches = single.as_slice();
    let apart = covers(alloc, stretches)?;
    let starts = shared_starts(alloc, apart.as_slice())?;
    let kept = stretches_at(alloc, starts.as_slice(), stretches)?;
    let named = with_classes(alloc, units, all.places.as_slice(), kept.as_slice())?;
    let items = first_items(alloc, named.as_slice())?;
    Ok(ListOf::of(mark_covers(apart.into_vec(), &items)))
}
