//! Running a job over all units, on several threads.
ghost use Rattle.std.specs.Prelude.{◌≡◌, ◌^◌, ◌≤◌, [], IfOk, vec_len};
ghost use Rattle.std.specs.List.{All};
ghost use Rattle.unit_workers.specs.Held.{held};
ghost use Rattle.unit_workers.specs.Working.{AreInOrder, one_hand};

use crate::job::{Gate, UnitJob};
use crate::results::{gather, take_all, vacant};
use crate::tickets::{Hand, Tickets, open_tickets};
use crate::worker::work_all;
use std::alloc::Global;
use std::thread::Threads;
use sym_edges::OutOfMemory;

/// A hand for each worker.
fn deal(
    alloc: Global,
    tickets: &Tickets,
    mut hand: Hand,
    workers: usize,
) -> Result<Vec<Hand>, OutOfMemory>
    requires some { 1 ≤ workers }
    requires hand { hand ≡ held tickets.now [] workers workers }
    ensures count { IfOk result (λ hands. vec_len hands ≡ workers) }
    ensures each { IfOk result (λ hands. All (λ h. h ≡ one_hand tickets.now) hands.items) }
{
    let mut hands = Vec::with_capacity(alloc, workers)?;
    'hands: for _i in 1..workers {
        hands.push_reserved(hand.split(tickets));
    }
    hands.push_reserved(hand);
    Ok(hands)
}

/// Runs the job at each number below `count`, by `workers` workers, and returns the results in the order of their numbers.
///
/// Each worker draws the next number until there is none, so a unit that takes long holds up no other. There are no more workers than units. With one
/// worker, or one unit, no thread is started. If a thread can't be started, the caller does that worker's units itself. If a worker runs out of
/// memory, the result is [`OutOfMemory`].
pub fn run_all<R: Threads + Sync, J: UnitJob + Sync, G: Gate + Sync>(
    rt: &R,
    alloc: Global,
    job: &J,
    gate: &G,
    count: usize,
    workers: usize,
) -> Result<Vec<J::Out>, OutOfMemory>
where
    J::Out: Send,
    J::Scratch: Send,
    requires count { count ≤ 2 ^ 32 }
    requires workers { (1 ≤ workers) × (workers ≤ 64) }
    ensures count { IfOk result (λ outs. vec_len outs ≡ count) }
    ensures each { IfOk result (λ outs. AreInOrder (J.gives job.now) outs.items) }
{
    let workers = workers.min(count).max(1);
    let (tickets, hand) = open_tickets(alloc, count, workers)?;
    let hands = deal(alloc, &tickets, hand, workers)?;
    let works = work_all(rt, alloc, job, gate, &tickets, hands)?;
    let mut slots = vacant(alloc, count)?;
    let hand = gather(job, &tickets, works, slots.as_mut_slice())?;
    hand.close(tickets);
    take_all(alloc, job, slots)
}
