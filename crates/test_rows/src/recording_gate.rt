//! A gate that counts.
use std::sync::atomic::AtomicU64;
use std::sync::atomic::Ordering::SeqCst;
use unit_workers::Gate;

/// Counts how often each unit was reached.
#[derive(Drop)]
pub struct Recording<'a> {
    pub reached: &'a [AtomicU64],
}

impl<'a> Recording<'a> {
    /// How many units were reached once.
    pub fn once(&self) -> u64 {
        let mut once: u64 = 0;
        for count in self.reached {
            if count.load(SeqCst) == 1 {
                once = once.saturating_add(1);
            }
        }
        once
    }
}

impl<'a> Gate for Recording<'a> {
    fn at(&self, k: usize) {
        if let Some(count) = self.reached.get(k) {
            count.fetch_add(1, SeqCst);
        }
    }
}
