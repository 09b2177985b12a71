//! Functions of addresses that change at their stops.
ghost use Rattle.std.specs.Prelude.{◌≡◌, ℕ, ◌^◌, ◌<◌, ◌≤◌, nat_le, if◌then◌else◌, [], length, OnOk, OnErr, IfOk};
ghost use Rattle.sym_edges.specs.Rising.{RisesFrom};
ghost use Rattle.step_maps.specs.Stepping.{IsStepping, last_from, held_from, value_at};

use std::alloc::Global;
use std::marker::Model;
use sym_edges::OutOfMemory;

/// A function of addresses that changes at its stops, which ascend.
#[derive(Drop)]
pub struct StepMap<V> {
    stops: Vec<u64>,
    values: Vec<V>,
}

impl<V> Model for StepMap<V> {
    ghost use Rattle.step_maps.specs.Stepping.{Stepping, IsStepping};

    ghost Value = { Stepping V };

    ghost view = { λ s. record { stops = s.stops.items; values = s.values.items } };

    ghost invariant = { λ s. IsStepping s.stops.items s.values.items };
}

impl<V: Copy + Drop> StepMap<V> {
    /// A map without stops. Allocates no memory.
    pub fn new(alloc: Global) -> StepMap<V>
        ensures { result ≡ record { stops = []; values = [] } }
    {
        StepMap {
            stops: Vec::new(alloc),
            values: Vec::new(alloc),
        }
    }

    /// A map without stops, with memory for `count` stops.
    pub fn with_room(alloc: Global, count: usize) -> Result<StepMap<V>, OutOfMemory>
        ensures { IfOk result (λ steps. steps ≡ record { stops = []; values = [] }) }
    {
        let stops = Vec::with_capacity(alloc, count)?;
        let values = Vec::with_capacity(alloc, count)?;
        Ok(StepMap { stops, values })
    }

    /// Sets the value from the address `from` on. If `from` is the last stop, the value of this
    /// stop is replaced.
    #[inline]
    pub fn set(&mut self, from: u64, value: V) -> Result<(), OutOfMemory>
        requires { last_from 0 self.old.stops ≤ from }
        ensures at { OnOk result ((before : V) (a : ℕ) → value_at before self.new a ≡ (if nat_le from a then value else value_at before self.old a)) }
        ensures last { OnOk result (last_from 0 self.new.stops ≡ from) }
        ensures kept { OnErr result (self.new ≡ self.old) }
    {
        push_step(&mut self.stops, &mut self.values, from, value)
    }

    /// Frees the memory that no stop uses.
    pub fn shrink(&mut self)
        ensures { self.new ≡ self.old }
    {
        self.stops.shrink_to_fit();
        self.values.shrink_to_fit();
    }

    /// The value at an address, by a binary search; it is `before` below the first stop.
    pub fn at(&self, before: V, a: u64) -> V
        ensures { result ≡ value_at before self.now a }
    {
        find_step(self.stops.as_slice(), self.values.as_slice(), before, a)
    }

    /// The addresses at which the value may change, ascending.
    pub fn stops(&self) -> &[u64]
        ensures same { result.now ≡ self.now.stops }
        ensures stepping { IsStepping self.now.stops self.now.values }
    {
        self.stops.as_slice()
    }

    /// The value from each stop on.
    pub fn values(&self) -> &[V]
        ensures same { result.now ≡ self.now.values }
    {
        self.values.as_slice()
    }
}

/// Adds a stop at the end; if the last stop has the same address, replaces its value.
#[inline]
#[tactic(auto, using(crate::proofs::SteppingLemmas::held_over, crate::proofs::SteppingLemmas::held_push, crate::proofs::SteppingLemmas::rises_push, crate::proofs::SteppingLemmas::last_push, crate::proofs::SteppingLemmas::last_index))]
fn push_step<V: Copy + Drop>(
    stops: &mut Vec<u64>,
    values: &mut Vec<V>,
    from: u64,
    value: V,
) -> Result<(), OutOfMemory>
    requires stepping { IsStepping stops.old.items values.old.items }
    requires last { last_from 0 stops.old.items ≤ from }
    ensures stepping { IsStepping stops.new.items values.new.items }
    ensures at { OnOk result ((before : V) (a : ℕ) → held_from before stops.new.items values.new.items a ≡ (if nat_le from a then value else held_from before stops.old.items values.old.items a)) }
    ensures last { OnOk result (last_from 0 stops.new.items ≡ from) }
    ensures kept_stops { OnErr result (stops.new.items ≡ stops.old.items) }
    ensures kept_values { OnErr result (values.new.items ≡ values.old.items) }
{
    let count = stops.len();
    if count > 0 && stops[count - 1] == from {
        values[count - 1] = value;
        return Ok(());
    }
    match values.push(value) {
        Ok(()) => {}
        Err(_) => return Err(OutOfMemory),
    }
    match stops.push(from) {
        Ok(()) => Ok(()),
        Err(_) => {
            values.pop();
            Err(OutOfMemory)
        }
    }
}

/// The value of the last stop at or below an address.
fn find_step<V: Copy + Drop>(stops: &[u64], values: &[V], before: V, a: u64) -> V
    requires { IsStepping stops.now values.now }
    ensures { result ≡ held_from before stops.now values.now a }
{
    let count = stops.partition_point(|stop| *stop <= a);
    if count == 0 {
        return before;
    }
    values[count - 1]
}
