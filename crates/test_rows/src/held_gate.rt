//! A gate that holds one unit.
use std::sync::atomic::AtomicU64;
use std::sync::atomic::Ordering::SeqCst;
use unit_workers::Gate;

/// How often a held worker checks whether the others were reached.
const TURNS: u64 = 200_000_000;

/// Holds one unit until a number of others were reached. If the checks run out before that, it lets the unit go, and is late.
#[derive(Drop)]
pub struct Holding {
    held: usize,
    others: u64,
    reached: AtomicU64,
    late: AtomicU64,
}

impl Holding {
    pub fn new(held: usize, others: u64) -> Holding {
        Holding {
            held,
            others,
            reached: AtomicU64::new(0),
            late: AtomicU64::new(0),
        }
    }

    /// How many of the others were reached, and 1 if the unit was let go before that, else 0.
    pub fn seen(&self) -> [u64; 2] {
        [self.reached.load(SeqCst), self.late.load(SeqCst)]
    }
}

impl Gate for Holding {
    fn at(&self, k: usize) {
        if k != self.held {
            self.reached.fetch_add(1, SeqCst);
            return;
        }
        for _ in 0..TURNS {
            if self.reached.load(SeqCst) == self.others {
                return;
            }
        }
        self.late.store(1, SeqCst);
    }
}
