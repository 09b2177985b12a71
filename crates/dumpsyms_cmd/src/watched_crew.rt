//! The workers of a command that reads units.
ghost use Rattle.std.specs.Prelude.{◌≡◌, ◌≤◌};

use std::alloc::Global;
use std::thread::Threads;
use unit_workers::{Crew, Gate};

/// A crew, and the gate that is told of each unit of a file before the unit is read.
#[derive(Drop)]
pub struct WatchedCrew<'c, R: Threads + Sync, G: Gate + Sync> {
    pub crew: Crew<'c, R>,
    pub gate: &'c G,
}

impl<'c, R: Threads + Sync, G: Gate + Sync> WatchedCrew<'c, R, G> {
    /// A crew of this many workers, 1 to 64.
    pub fn new(rt: &'c R, alloc: Global, gate: &'c G, workers: usize) -> WatchedCrew<'c, R, G>
        requires { (1 ≤ workers) × (workers ≤ 64) }
        ensures { result.crew ≡ workers }
    {
        WatchedCrew {
            crew: Crew::new(rt, alloc, workers),
            gate,
        }
    }
}
