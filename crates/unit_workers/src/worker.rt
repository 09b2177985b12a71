//! One worker: it draws numbers and reads their units until none is left.
ghost use Rattle.std.specs.Prelude.{◌≡◌, length, IfOk, vec_len};
ghost use Rattle.std.specs.List.{All};
ghost use Rattle.unit_workers.specs.Working.{one_hand, IsWorked, AreWorked};

use crate::job::{Gate, UnitJob};
use crate::tickets::{Hand, Tickets};
use std::alloc::Global;
use std::thread::{Threads, map_vec};
use sym_edges::OutOfMemory;

/// What one worker leaves: its hand, and its results with their numbers.
#[derive(Drop)]
pub struct Worked<T> {
    pub hand: Hand,
    pub found: Vec<(usize, T)>,
}

pub type Work<T> = Result<Worked<T>, OutOfMemory>;

/// One worker: it draws until there is no number left.
pub fn work<J: UnitJob, G: Gate>(
    alloc: Global,
    job: &J,
    gate: &G,
    tickets: &Tickets,
    mut hand: Hand,
) -> Work<J::Out>
    requires { hand ≡ one_hand tickets.now }
    ensures { IfOk result (λ w. IsWorked (J.gives job.now) tickets.now 0 w.hand w.found.items) }
{
    let mut scratch = job.scratch(alloc)?;
    let mut found = Vec::new(alloc);
    'draws: while let Some(k) = hand.draw(tickets) {
        gate.at(k);
        let out = job.run(alloc, k, &mut scratch)?;
        found.push((k, out))?;
    }
    Ok(Worked { hand, found })
}

/// All workers, each in a thread of its own if one can be started, otherwise one after another.
pub fn work_all<R: Threads + Sync, J: UnitJob + Sync, G: Gate + Sync>(
    rt: &R,
    alloc: Global,
    job: &J,
    gate: &G,
    tickets: &Tickets,
    hands: Vec<Hand>,
) -> Result<Vec<Work<J::Out>>, OutOfMemory>
where
    J::Out: Send,
    J::Scratch: Send,
    requires { All (λ h. h ≡ one_hand tickets.now) hands.items }
    ensures count { IfOk result (λ works. vec_len works ≡ vec_len hands) }
    ensures each { IfOk result (λ works. AreWorked (J.gives job.now) tickets.now works.items) }
{
    Ok(map_vec(
        rt,
        hands,
        &|hand: Hand| -> Work<J::Out>
            requires { hand ≡ one_hand tickets.now }
            ensures { IfOk result (λ w. IsWorked (J.gives job.entry.now) tickets.entry.now 0 w.hand w.found.items) }
        { work(alloc, job, gate, tickets, hand) },
    )?)
}
