//! A sink in memory.
ghost use Rattle.std.specs.Prelude.{◌≡◌, ℕ, ◌≤◌, ◌<◌, List, [], length, take, true, false, Some, Ok, IfOk, OnErr, MatchResult};
ghost use Rattle.sym_edges.specs.Outside.{append_told, Rose};
ghost use Rattle.sym_edges.specs.Memory.{write_fails, write_count, after_failed_write, after_write};

use crate::fault::{Failed, OutOfMemory};
use crate::list::CallList;
use crate::mem_store::fails;
use crate::sink::Sink;
use std::alloc::Global;
use std::marker::Model;

/// A sink in memory. Contracts see all of it, and it allocates no memory after it was made.
///
/// Writes are numbered from 1. A write fails exactly if its piece is not empty and either its number is in `fail` or `room` bytes are already held.
/// One write takes at most `step` bytes.
#[derive(Debug, Drop)]
pub struct MemSink {
    held: Vec<u8>,
    room: usize,
    step: usize,
    fail: CallList,
    calls: u64,
    faults: u64,
}

impl Model for MemSink {
    ghost use Rattle.std.specs.Prelude.{◌<◌, ◌≤◌, vec_len, vec_capacity};
    ghost use Rattle.sym_edges.specs.Memory.{MemBytes};

    ghost Value = { MemBytes };

    ghost view = { λ s. record {
      held = s.held.items;
      room = s.room;
      step = s.step;
      fail = s.fail;
      calls = s.calls;
      faults = s.faults;
    } };

    ghost invariant = { λ s. (0 < s.step) × (vec_len s.held ≤ s.room) × (s.room ≤ vec_capacity s.held) };
}

impl MemSink {
    pub fn new(
        alloc: Global,
        room: usize,
        step: usize,
        fail: CallList,
    ) -> Result<MemSink, OutOfMemory>
        requires { 0 < step }
        ensures made { IfOk result (λ sink. sink ≡ record { held = []; room = room; step = step; fail = fail; calls = 0; faults = 0 }) }
    {
        Ok(MemSink {
            held: Vec::with_capacity(alloc, room)?,
            room,
            step,
            fail,
            calls: 0,
            faults: 0,
        })
    }

    /// The bytes that were written.
    pub fn written(&self) -> &[u8]
        ensures { result.now ≡ self.now.held }
    {
        self.held.as_slice()
    }
}

impl Sink for MemSink {
    ghost use Rattle.std.specs.Prelude.{Some};

    ghost taken = { λ s. Some s.held };

    ghost faults = { λ s. s.faults };

    #[tactic(auto, unfolding(crate::specs::Memory::write_fails, crate::specs::Memory::write_count, crate::specs::Memory::after_write, crate::specs::Memory::after_failed_write))]
    fn write(&mut self, piece: &[u8]) -> Result<usize, Failed>
        ensures within { IfOk result (λ n. n ≤ length piece.now) }
        ensures moves { IfOk result (λ n. 0 < length piece.now → 0 < n) }
        ensures taken { IfOk result (λ n. Some self.new.held ≡ append_told (Some self.old.held) (take n piece.now)) }
        ensures refused { OnErr result (Some self.new.held ≡ Some self.old.held) }
        ensures empty { length piece.now ≡ 0 → result ≡ Ok 0 }
        ensures faults { self.old.faults ≤ self.new.faults }
        ensures cause { OnErr result (Rose self.old.faults self.new.faults) }
        ensures exact { MatchResult result
            (λ n. (write_fails self.old piece.now ≡ false) × (n ≡ write_count self.old piece.now) × (self.new ≡ after_write self.old piece.now))
            (λ _. (write_fails self.old piece.now ≡ true) × (self.new ≡ after_failed_write self.old)) }
    {
        self.calls = self.calls.saturating_add(1);
        let left = self.room - self.held.len();
        if !piece.is_empty() && (fails(&self.fail, self.calls) || left == 0) {
            self.faults = self.faults.saturating_add(1);
            return Err(Failed);
        }
        let count = self.step.min(piece.len().min(left));
        match self.held.extend_from_slice(&piece[..count]) {
            Ok(()) => Ok(count),
            Err(_) => unreachable!(),
        }
    }
}
