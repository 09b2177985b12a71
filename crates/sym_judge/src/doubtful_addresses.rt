//! Where two files may differ: one pass over the blocks of both shows for most addresses that the files do not differ there.
ghost use Rattle.std.specs.Prelude.{◌≡◌, ◌≤◌, ◌<◌, ◌^◌, ℕ, nat_le, true, false, if◌then◌else◌, Some, IfOk, OnOk};
ghost use Rattle.std.specs.Bool.{OnTrue};
ghost use Rattle.step_maps.specs.Stepping.{value_at, last_from};
ghost use Rattle.sym_lookup.specs.PlaceMaps.{IsBefore};
ghost use Rattle.sym_judge.specs.internal.Blocks.{AreDoubts};

use crate::blocks::is_clear;
use crate::file_pair::FilePair;
use crate::ruling::Half;
use std::alloc::Global;
use step_maps::StepMap;
use sym_edges::OutOfMemory;

/// The lesser of two ends, either of which may be missing.
pub(crate) fn nearer(a: Option<u64>, b: Option<u64>) -> Option<u64>
    ensures both { (x : ℕ) → IsBefore result x → IsBefore a x × IsBefore b x }
    ensures above { (x : ℕ) → IsBefore a x → IsBefore b x → IsBefore result x }
{
    match (a, b) {
        (None, b) => b,
        (a, None) => a,
        (Some(a), Some(b)) => Some(a.min(b)),
    }
}

/// Stores what holds from an address on, if it differs from what held before.
fn note(
    doubts: &mut StepMap<bool>,
    known: bool,
    address: u64,
    doubted: bool,
) -> Result<(), OutOfMemory>
    requires last { last_from 0 doubts.old.stops ≤ address }
    requires known { (x : ℕ) → address ≤ x → value_at false doubts.old x ≡ known }
    ensures at { OnOk result ((x : ℕ) → value_at false doubts.new x ≡ (if nat_le address x then doubted else value_at false doubts.old x)) }
    ensures last { OnOk result (last_from 0 doubts.new.stops ≤ address) }
{
    if doubted == known {
        return Ok(());
    }
    doubts.set(address, doubted)
}

/// The addresses at which two files may differ in a half.
pub(crate) fn doubts_of(
    alloc: Global,
    half: Half,
    both: &FilePair<'_>,
) -> Result<StepMap<bool>, OutOfMemory>
    ensures { IfOk result (λ doubts. AreDoubts half both.now.own both.now.other doubts) }
{
    let mut doubts = StepMap::new(alloc);
    let mut known = false;
    let mut address = 0;
    'runs: loop {
        let mine = both.own().run_at(half, address);
        let theirs = both.other().run_at(half, address);
        let doubted = !is_clear(half, both, mine.place, theirs.place, address);
        note(&mut doubts, known, address, doubted)?;
        known = doubted;
        match nearer(mine.end, theirs.end) {
            None => return Ok(doubts),
            Some(end) => address = end,
        }
    }
}
