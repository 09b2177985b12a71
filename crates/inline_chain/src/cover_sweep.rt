//! The covers of the inlined copies directly in one entry.
ghost use Rattle.std.specs.Prelude.{◌≡◌, map, OnOk};
ghost use Rattle.std.specs.List.Sorted.{IsPermutation};
ghost use Rattle.step_maps.specs.Runs.{IsRuns, between};
ghost use Rattle.step_maps.specs.Covers.{index_at, cover_run};
ghost use Rattle.step_maps.specs.SpanStretches.{AreFit};
ghost use Rattle.inline_chain.specs.internal.Apart.{follows, apart, own_cover};

use std::alloc::{AllocError, Global};
use step_maps::{Cover, Stretch, covers};
use sym_edges::OutOfMemory;

/// Whether a stretch begins above the last address of another, and does not continue it with the same index.
#[inline]
fn follows(last: Stretch, next: Stretch) -> bool
    ensures { result ≡ follows last next }
{
    last.last < next.first && (next.first - last.last > 1 || last.index != next.index)
}

/// Whether each stretch follows the one before it.
fn is_apart(items: &[Stretch]) -> bool
    ensures { result ≡ apart items.now }
{
    let Some((first, after)) = items.split_first() else {
        return true;
    };
    let mut last = *first;
    let mut rest = after;
    'items: while let Some((next, later)) = rest.split_first() {
        if !follows(last, *next) {
            return false;
        }
        last = *next;
        rest = later;
    }
    true
}

/// Sets `covers` to the stretches, as covers.
fn fill_own(items: &[Stretch], covers: &mut Vec<Cover>) -> Result<(), AllocError>
    ensures { OnOk result (covers.new.items ≡ map own_cover items.now) }
{
    covers.clear();
    let mut rest = items;
    'items: while let Some((item, later)) = rest.split_first() {
        covers.push(Cover {
            first: item.first,
            last: item.last,
            index: item.index,
            shared: false,
        })?;
        rest = later;
    }
    Ok(())
}

/// Sets `sorted` to the stretches, sorted by their first addresses.
fn fill_sorted(items: &[Stretch], sorted: &mut Vec<Stretch>) -> Result<(), AllocError>
    ensures { OnOk result (IsPermutation items.now sorted.new.items) }
{
    sorted.clear();
    sorted.extend_from_slice(items)?;
    sorted.sort_unstable_by_key(|item| item.first);
    Ok(())
}

/// Sets `own` to the covers of stretches. If each stretch follows the one before it, the stretches
/// are their own covers; nearly always this is so once they are sorted. The memory of `sorted` is
/// reused.
#[tactic(auto, using(crate::proofs::ApartLemmas::apart_runs, crate::proofs::ApartLemmas::sorted_runs, crate::proofs::ApartLemmas::covers_run, crate::proofs::ClassLemmas::fit_some))]
pub fn fill_covers(
    alloc: Global,
    items: &[Stretch],
    sorted: &mut Vec<Stretch>,
    own: &mut Vec<Cover>,
) -> Result<(), OutOfMemory>
    requires { AreFit items.now }
    ensures { OnOk result (IsRuns (between 0 18446744073709551616 (index_at items.now)) (map cover_run own.new.items)) }
{
    if is_apart(items) {
        fill_own(items, own)?;
        return Ok(());
    }
    fill_sorted(items, sorted)?;
    if is_apart(sorted.as_slice()) {
        fill_own(sorted.as_slice(), own)?;
        return Ok(());
    }
    let list = covers(alloc, items)?;
    own.clear();
    own.extend_from_slice(list.as_slice())?;
    Ok(())
}
