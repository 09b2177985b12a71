//! Squares of numbers by one and by many workers, and a worker that is held (`unit_workers`).
ghost use Rattle.std.specs.Prelude.{◌≡◌, ◌*◌, ◌%◌, ◌^◌};

use crate::comparison::same;
use std::alloc::Global;
use std::sync::atomic::AtomicU64;
use std::test::Fail;
use std::thread::Threads;
use sym_edges::OutOfMemory;
use test_rows::{Holding, Recording};
use unit_workers::{Gate, NoGate, UnitJob, open_tickets, run_all};

/// The square of a number. Each worker keeps a list of the numbers that it read. For one number the
/// call may end as if memory ran out.
#[derive(Drop)]
struct Squares {
    short: Option<usize>,
}

impl UnitJob for Squares {
    type Out = u64;

    type Scratch = Vec<u64>;

    ghost gives = { λ _ k out. out ≡ k * k % 2 ^ 64 };

    fn scratch(&self, alloc: Global) -> Result<Vec<u64>, OutOfMemory> {
        Ok(Vec::new(alloc))
    }

    fn run(&self, _alloc: Global, k: usize, scratch: &mut Vec<u64>) -> Result<u64, OutOfMemory> {
        if self.short == Some(k) {
            return Err(OutOfMemory);
        }
        scratch.push(k as u64)?;
        Ok((k as u64).wrapping_mul(k as u64))
    }
}

/// The squares of the numbers below `count`, by several workers.
fn squares_by<R: Threads + Sync, G: Gate + Sync>(
    rt: &R,
    alloc: Global,
    gate: &G,
    short: Option<usize>,
    (count, workers): (usize, usize),
) -> Result<Vec<u64>, OutOfMemory> {
    let count = count.min(100_000);
    run_all(
        rt,
        alloc,
        &Squares { short },
        gate,
        count,
        workers.max(1).min(64),
    )
}

/// How many units are read, and by how many workers.
const COUNTS: [(&str, (usize, usize)); 7] = [
    ("no unit, one worker", (0, 1)),
    ("no unit, four workers", (0, 4)),
    ("one unit, four workers", (1, 4)),
    ("more workers than units", (3, 8)),
    ("one worker", (1000, 1)),
    ("four workers", (20_000, 4)),
    ("64 workers", (1000, 64)),
];

/// For which of a hundred units memory runs out, and how many workers there are.
const SHORT: [(&str, usize, usize); 4] = [
    ("first unit, one worker", 0, 1),
    ("first unit, four workers", 0, 4),
    ("a unit in the middle", 57, 4),
    ("last unit", 99, 64),
];

#[test]
fn results_stand_in_order(rt: HostRuntime) -> Result<(), Fail> {
    let alloc = rt.alloc();
    let mut squares = Vec::new(alloc);
    for k in 0..20_000 {
        squares.push(k * k)?;
    }
    for (row, (count, workers)) in COUNTS {
        let found = squares_by(&rt, alloc, &NoGate, None, (count, workers))?;
        same(
            &rt,
            row,
            &found,
            squares.split_at(count.min(squares.len())).0,
        );
    }
    for (row, short, workers) in SHORT {
        let found = squares_by(&rt, alloc, &NoGate, Some(short), (100, workers));
        same(&rt, row, &[found.is_err()], &[true]);
    }
    Ok(())
}

#[test]
fn each_unit_is_reached_once_and_holds_up_no_other(rt: HostRuntime) -> Result<(), Fail> {
    let alloc = rt.alloc();
    let mut reached = Vec::new(alloc);
    for _ in 0..1000 {
        reached.push(AtomicU64::new(0))?;
    }
    let gate = Recording {
        reached: reached.as_slice(),
    };
    let found = squares_by(&rt, alloc, &gate, None, (1000, 4))?;
    let counts = [gate.once(), found.len() as u64];
    same(&rt, "reached once", &counts, &[1000, 1000]);
    // One of two workers holds a unit until the other has reached all the others.
    for held in [0, 1] {
        let gate = Holding::new(held, 7);
        let found = squares_by(&rt, alloc, &gate, None, (8, 2))?;
        same(&rt, "a unit is held", &found, &[0, 1, 4, 9, 16, 25, 36, 49]);
        same(&rt, "the others are reached", &gate.seen(), &[7, 0]);
    }
    Ok(())
}

/// What two hands draw if there is no number.
fn draws_of_none(alloc: Global) -> Result<[Option<usize>; 2], OutOfMemory> {
    let (tickets, mut hand) = open_tickets(alloc, 0, 2)?;
    let mut other = hand.split(&tickets);
    let first = hand.draw(&tickets);
    let second = other.draw(&tickets);
    if first.is_some() || second.is_some() {
        unreachable!()
    }
    hand.join(&tickets, other);
    hand.close(tickets);
    Ok([first, second])
}

/// What one hand draws if there is one number.
fn draws_of_one(alloc: Global) -> Result<[Option<usize>; 2], OutOfMemory> {
    let (tickets, mut hand) = open_tickets(alloc, 1, 1)?;
    let Some(first) = hand.draw(&tickets) else {
        hand.close(tickets);
        return Ok([None, None]);
    };
    if hand.draw(&tickets).is_some() {
        unreachable!()
    }
    hand.close(tickets);
    Ok([Some(first), None])
}

#[test]
fn tickets_are_drawn_one_by_one(rt: HostRuntime) -> Result<(), Fail> {
    let alloc = rt.alloc();
    same(&rt, "no ticket", &draws_of_none(alloc)?, &[None, None]);
    same(&rt, "one ticket", &draws_of_one(alloc)?, &[Some(0), None]);
    Ok(())
}
