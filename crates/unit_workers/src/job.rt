//! The job of the workers: it reads a unit, given its number.
ghost use Rattle.std.specs.Prelude.{ℕ, IfOk};

use std::alloc::Global;
use sym_edges::OutOfMemory;

/// A job, which reads units by their numbers.
pub trait UnitJob {
    /// The result of a unit.
    type Out: Drop;
    /// Memory that a worker reuses from one unit to the next, for stacks and lists that each unit
    /// fills again. It may contain anything when a unit begins, and stays with its worker. A job
    /// without such memory has `()`.
    type Scratch: Drop;

    /// Which results are right for a number.
    ghost gives: { Self → ℕ → Self.Out → Type 0 };

    /// The scratch of one worker, which is made once.
    fn scratch(&self, alloc: Global) -> Result<Self::Scratch, OutOfMemory>;

    /// The result of unit `k`.
    fn run(
        &self,
        alloc: Global,
        k: usize,
        scratch: &mut Self::Scratch,
    ) -> Result<Self::Out, OutOfMemory>
        ensures { IfOk result (λ out. gives self.now k out) };
}

/// A worker calls `at` for each unit that it drew, before it reads the unit.
pub trait Gate {
    fn at(&self, k: usize);
}

/// The gate that does nothing.
#[derive(Clone, Copy)]
pub struct NoGate;

impl Gate for NoGate {
    fn at(&self, _k: usize) {}
}
