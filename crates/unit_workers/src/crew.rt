//! The workers, with the threads and the memory that they use.
ghost use Rattle.std.specs.Prelude.{◌≡◌, ◌^◌, ◌≤◌, IfOk, OnOk, vec_len};
ghost use Rattle.std.specs.List.Sorted.{IsPermutation, IsSorted};
ghost use Rattle.unit_workers.specs.Working.{AreInOrder};

use crate::job::{Gate, UnitJob};
use crate::runner::run_all;
use rayon::slice::par_sort;
use std::alloc::Global;
use std::marker::Model;
use std::thread::{Threads, join};
use sym_edges::OutOfMemory;

/// Some workers, 1 to 64, with what starts their threads and the allocator of their memory.
#[derive(Drop)]
pub struct Crew<'c, R: Threads + Sync> {
    rt: &'c R,
    alloc: Global,
    workers: usize,
}

impl<'c, R: Threads + Sync> Model for Crew<'c, R> {
    ghost use Rattle.std.specs.Prelude.{◌≤◌, ℕ};

    ghost Value = { ℕ };

    ghost view = { λ c. c.workers };

    ghost invariant = { λ c. (1 ≤ c.workers) × (c.workers ≤ 64) };
}

impl<'c, R: Threads + Sync> Crew<'c, R> {
    /// A crew of this many workers.
    pub fn new(rt: &'c R, alloc: Global, workers: usize) -> Crew<'c, R>
        requires { (1 ≤ workers) × (workers ≤ 64) }
        ensures { result ≡ workers }
    {
        Crew { rt, alloc, workers }
    }

    /// The number of workers.
    pub fn workers(&self) -> usize
        ensures number { result ≡ self.now }
        ensures range { (1 ≤ result) × (result ≤ 64) }
    {
        self.workers
    }

    /// The allocator of the workers' memory.
    pub fn alloc(&self) -> Global {
        self.alloc
    }

    /// Runs the job for each number below `count`, by these workers ([`run_all`]).
    pub fn run<J: UnitJob + Sync, G: Gate + Sync>(
        &self,
        job: &J,
        gate: &G,
        count: usize,
    ) -> Result<Vec<J::Out>, OutOfMemory>
    where
        J::Out: Send,
        J::Scratch: Send,
        requires count { count ≤ 2 ^ 32 }
        ensures count { IfOk result (λ outs. vec_len outs ≡ count) }
        ensures each { IfOk result (λ outs. AreInOrder (J.gives job.now) outs.items) }
    {
        run_all(self.rt, self.alloc, job, gate, count, self.workers)
    }

    /// Makes both calls: at the same time if there are several workers, else the first one first.
    pub fn both<F: FnOnce() -> A + Send, G: FnOnce() -> B, A: Send, B>(
        &self,
        first: F,
        second: G,
    ) -> (A, B)
        requires { F.pre first × G.pre second }
        ensures first { F.post first result.0 }
        ensures second { G.post second result.1 }
    {
        if self.workers == 1 {
            let a = first();
            return (a, second());
        }
        join(self.rt, first, second)
    }

    /// Sorts a list. If there are several workers, its parts are sorted at the same time, by as
    /// many threads as the machine has processors.
    pub fn sort<T: Ord + Send>(&self, items: &mut [T]) -> Result<(), OutOfMemory>
        ensures same { IsPermutation items.old items.new }
        ensures sorted { OnOk result (IsSorted T.cmp items.new) }
    {
        if self.workers == 1 {
            items.sort_unstable();
            return Ok(());
        }
        par_sort(self.rt, self.alloc, items)?;
        Ok(())
    }
}
