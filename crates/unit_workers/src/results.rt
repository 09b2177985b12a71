//! The results of units, put at the places of their numbers.
ghost use Rattle.std.specs.Prelude.{◌≡◌, ◌<◌, length, replicate, None, IfOk, vec_len};
ghost use Rattle.std.specs.List.{All};
ghost use Rattle.unit_workers.specs.Working.{AreInOrder, AreTaken, AreWorked, IsGathered, IsResult, placed};

use crate::job::UnitJob;
use crate::tickets::{Hand, Tickets};
use crate::worker::{Work, Worked};
use std::alloc::Global;
use sym_edges::OutOfMemory;

/// `count` places without a result.
pub fn vacant<T: Drop>(alloc: Global, count: usize) -> Result<Vec<Option<T>>, OutOfMemory>
    ensures { IfOk result (λ v. v.items ≡ replicate count None) }
{
    let mut slots = Vec::with_capacity(alloc, count)?;
    'places: for _i in 0..count {
        slots.push_reserved(None);
    }
    Ok(slots)
}

/// Puts each result into the place of its number.
fn place<J: UnitJob>(_job: &J, slots: &mut [Option<J::Out>], mut found: Vec<(usize, J::Out)>)
    requires { All (IsResult (J.gives _job.now) (length slots.old)) found.items }
    ensures { slots.new ≡ placed slots.old found.items }
{
    'results: while let Some((k, out)) = found.pop() {
        slots[k] = Some(out);
    }
}

/// Joins the hands of the workers, and puts all results into the places of their numbers.
pub fn gather<J: UnitJob>(
    job: &J,
    tickets: &Tickets,
    mut works: Vec<Work<J::Out>>,
    slots: &mut [Option<J::Out>],
) -> Result<Hand, OutOfMemory>
    requires empty { slots.old ≡ replicate tickets.now.count None }
    requires some { 0 < vec_len works }
    requires each { AreWorked (J.gives job.now) tickets.now works.items }
    ensures share { IfOk result (λ hand. hand.share ≡ vec_len works) }
    ensures gathered { IfOk result (λ hand. IsGathered (J.gives job.now) tickets.now hand slots.new) }
{
    let Some(work) = works.pop() else {
        unreachable!()
    };
    let Worked { mut hand, found } = work?;
    place(job, slots, found);
    'works: while let Some(work) = works.pop() {
        let Worked { hand: other, found } = work?;
        hand.join(tickets, other);
        place(job, slots, found);
    }
    Ok(hand)
}

/// The results in order. Each place must have one.
pub fn take_all<J: UnitJob>(
    alloc: Global,
    _job: &J,
    mut slots: Vec<Option<J::Out>>,
) -> Result<Vec<J::Out>, OutOfMemory>
    requires { AreTaken (J.gives _job.now) 0 slots.items }
    ensures count { IfOk result (λ outs. vec_len outs ≡ vec_len slots) }
    ensures each { IfOk result (λ outs. AreInOrder (J.gives _job.now) outs.items) }
{
    let mut outs = Vec::with_capacity(alloc, slots.len())?;
    let places = slots.as_mut_slice();
    'places: for k in 0..places.len() {
        match places[k].take() {
            Some(out) => outs.push_reserved(out),
            None => unreachable!(),
        }
    }
    Ok(outs)
}
