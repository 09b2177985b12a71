//! The known part of memory, as runs of bytes.
ghost use Rattle.std.specs.Prelude.{◌≡◌, ◌<◌, ◌≤◌, ◌^◌, ◌++◌, true, length, IfOk, OnOk};
ghost use Rattle.step_maps.specs.Covers.{AreStretches};
ghost use Rattle.cfi_eval.specs.Bytes.{byte_at};
ghost use Rattle.cfi_eval.specs.internal.Rising.{rise_from, byte_in, byte_behind};
ghost use Rattle.cfi_eval.specs.internal.Finders.{run_stretch, stretches_to, byte_of, IsRunMap, IsFinder};

use crate::byte_memory::ByteMemory;
use std::alloc::Global;
use std::marker::Model;
use step_maps::{FirstItem, StepMap, Stretch, first_items};
use sym_edges::{ByteRun, OutOfMemory};

/// Bytes of memory from the address `start` on.
#[derive(Debug, Drop)]
pub struct MemRun {
    pub start: u64,
    pub bytes: ByteRun,
}

/// How the last run that contains an address is found.
#[derive(Drop)]
pub enum Finder {
    /// By binary search: the runs are ascending and disjoint.
    Rising,
    /// By a map from addresses to runs.
    Map { map: StepMap<Option<FirstItem>> },
    /// By looking at each run.
    Scan,
}

/// The known part of memory: runs of bytes, of which the last that contains an address counts.
#[derive(Drop)]
pub struct Memory {
    runs: Vec<MemRun>,
    finder: Finder,
}

impl Model for Memory {
    ghost use Rattle.std.specs.Prelude.{List};
    ghost use Rattle.cfi_eval.specs.declared.memory.MemRun.{MemRun};
    ghost use Rattle.cfi_eval.specs.internal.Finders.{IsFinder};

    ghost Value = { List MemRun };

    ghost view = { λ m. m.runs.items };

    ghost invariant = { λ m. IsFinder m.runs.items m.finder };
}

/// Whether each run begins at or after the end of the run before it.
fn rise(runs: &[MemRun]) -> bool
    ensures { result ≡ rise_from 0 runs.now }
{
    let mut low = 0;
    'runs: for run in runs {
        if u128::from(run.start) < low {
            return false;
        }
        low = u128::from(run.start) + run.bytes.len() as u128;
    }
    true
}

/// The byte at an address in a run.
fn byte_in(run: &MemRun, a: u64) -> Option<u8>
    ensures { result ≡ byte_in a run.now }
{
    if a < run.start {
        return None;
    }
    run.bytes.get((a - run.start) as usize).copied()
}

/// The byte at an address, in the last run that contains it.
fn last_byte(runs: &[MemRun], a: u64) -> Option<u8>
    ensures { result ≡ byte_at runs.now a }
{
    'runs: for place in (0..runs.len()).rev() {
        let byte = byte_in(&runs[place], a);
        if byte.is_some() {
            return byte;
        }
    }
    None
}

/// How many of the runs begin at or before an address, by binary search.
fn count_to(runs: &[MemRun], a: u64) -> usize
    requires { rise_from 0 runs.now ≡ true }
    ensures within { result ≤ length runs.now }
    ensures decides { byte_at runs.now a ≡ byte_behind result a runs.now }
{
    runs.partition_point(|run| run.start <= a)
}

/// The byte at an address, by binary search. The runs must be ascending and disjoint.
#[tactic(auto, using(crate::proofs::MemoryLemmas::behind_none, crate::proofs::MemoryLemmas::behind_some))]
fn byte_by_halves(runs: &[MemRun], a: u64) -> Option<u8>
    requires { rise_from 0 runs.now ≡ true }
    ensures { result ≡ byte_at runs.now a }
{
    let behind = count_to(runs, a);
    if behind == 0 {
        return None;
    }
    byte_in(&runs[behind - 1], a)
}

/// Adds the stretch of addresses of a run, if the run is not empty. It ends at 2^64 - 1 at the
/// latest.
#[tactic(auto, using(step_maps::proofs::StretchLemmas::stretches_push))]
fn push_run(stretches: &mut Vec<Stretch>, index: u32, run: &MemRun) -> Result<(), OutOfMemory>
    requires { AreStretches stretches.old.items }
    ensures same { OnOk result (stretches.new.items ≡ stretches.old.items ++ run_stretch index run.now) }
    ensures stretches { OnOk result (AreStretches stretches.new.items) }
{
    let length = run.bytes.len() as u64;
    if length == 0 {
        return Ok(());
    }
    stretches.push(Stretch {
        first: run.start,
        last: run.start.saturating_add(length - 1),
        index,
        class: 0,
    })?;
    Ok(())
}

/// The stretches of runs, with that of the last run first.
fn stretches_of(alloc: Global, runs: &[MemRun]) -> Result<Vec<Stretch>, OutOfMemory>
    requires { length runs.now < 2 ^ 32 }
    ensures same { IfOk result (λ stretches. stretches.items ≡ stretches_to (length runs.now) runs.now) }
    ensures stretches { IfOk result (λ stretches. AreStretches stretches.items) }
{
    let mut stretches = Vec::new(alloc);
    'places: for place in (0..runs.len()).rev() {
        push_run(&mut stretches, place as u32, &runs[place])?;
    }
    Ok(stretches)
}

/// Chooses how runs are found. The time for n runs is O(n log n), however they overlap.
fn finder_of(alloc: Global, runs: &[MemRun]) -> Result<Finder, OutOfMemory>
    ensures { IfOk result (λ finder. IsFinder runs.now finder) }
{
    if rise(runs) {
        return Ok(Finder::Rising);
    }
    if runs.len() >= 1 << 32 {
        return Ok(Finder::Scan);
    }
    let stretches = stretches_of(alloc, runs)?;
    let map = first_items(alloc, stretches.as_slice())?;
    Ok(Finder::Map { map })
}

/// The byte at an address, by a map from addresses to runs.
fn byte_by_map(runs: &[MemRun], map: &StepMap<Option<FirstItem>>, a: u64) -> Option<u8>
    requires { IsRunMap runs.now map.now }
    ensures { result ≡ byte_at runs.now a }
{
    match map.at(None, a) {
        None => None,
        Some(item) => byte_of(runs, item.index as usize, a),
    }
}

/// The byte at an address in the run with this index.
fn byte_of(runs: &[MemRun], place: usize, a: u64) -> Option<u8>
    ensures { result ≡ byte_of a runs.now place }
{
    match runs.get(place) {
        None => None,
        Some(run) => byte_in(run, a),
    }
}

impl Memory {
    /// A memory made of runs, of which the last that contains an address counts.
    pub fn of(alloc: Global, runs: Vec<MemRun>) -> Result<Memory, OutOfMemory>
        ensures { IfOk result (λ memory. memory ≡ runs.items) }
    {
        let finder = finder_of(alloc, runs.as_slice())?;
        Ok(Memory { runs, finder })
    }
}

impl ByteMemory for Memory {
    ghost runs = { λ m. m };

    fn byte(&self, a: u64) -> Option<u8> {
        match &self.finder {
            Finder::Rising => byte_by_halves(self.runs.as_slice(), a),
            Finder::Map { map } => byte_by_map(self.runs.as_slice(), map, a),
            Finder::Scan => last_byte(self.runs.as_slice(), a),
        }
    }
}
