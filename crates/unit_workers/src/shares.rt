//! The shares of a list. Each share is one worker's job.
ghost use Rattle.std.specs.Prelude.{◌≡◌, ◌+◌, ◌*◌, ◌≤◌, min};
ghost use Rattle.unit_workers.specs.Shares.{share};

/// Where share `k` of `count` members begins, and where it ends. A share has `size` members; the last one may have fewer, and shares after the last
/// have none.
pub fn share_bounds(count: usize, size: usize, k: usize) -> (usize, usize)
    ensures order { result.0 ≤ result.1 }
    ensures inside { result.1 ≤ count }
    ensures begin { result.0 ≡ min (size * k) count }
    ensures end { result.1 ≡ min (size * k + size) count }
{
    let from = size.saturating_mul(k).min(count);
    (from, from.saturating_add(size).min(count))
}

/// Share `k` of a list, where a share has `size` members; the last one may have fewer.
#[tactic(auto, using(crate::proofs::ShareLemmas::share_between))]
pub fn share_of<T>(items: &[T], size: usize, k: usize) -> &[T]
    ensures { result.now ≡ share size k items.now }
{
    let (from, to) = share_bounds(items.len(), size, k);
    &items[from..to]
}
