//! The walk.
ghost use Rattle.std.specs.Prelude.{◌≡◌, Some, None, Ok, true, IfOk};
ghost use Rattle.sym_edges.specs.Outside.{MatchStop};
ghost use Rattle.sym_lookup.specs.IndexOf.{IsIndexOf};
ghost use Rattle.stack_walk.specs.Walk.{process_of, walk_from, walk_of, IsFault};

use crate::callers::{Place, first_place, place_after};
use crate::known::{Known, take_step};
use crate::records::Records;
use crate::steps::{NoRip, Walk, WalkEnd, WalkSteps};
use cfi_eval::Memory;
use state_file::State;
use std::alloc::Global;
use sym_edges::{OutOfMemory, Stop};
use sym_lookup::Index;
use sym_records::SymFile;

/// How many steps a walk has at most.
const MOST_STEPS: usize = 1024;

/// What is known of every address, if all lie in one module.
fn one_module<'k>(file: &'k SymFile, index: &'k Index) -> Known<'k>
    requires { IsIndexOf file.now index.now }
    ensures { result ≡ record { records = Ok (record { base = 0; lines = file.now }); is_code = true } }
{
    Known {
        records: Ok(Records::of(0, file, index)),
        is_code: true,
    }
}

/// At most this many steps, from a place on.
fn walk_from(
    alloc: Global,
    file: &SymFile,
    index: &Index,
    memory: &Memory,
    most: usize,
    first: &Place,
) -> Result<Walk, OutOfMemory>
    requires { IsIndexOf file.now index.now }
    ensures { IfOk result (λ walk. walk ≡ walk_from (process_of file.now memory.now) most first.now) }
{
    let known = one_module(file, index);
    let mut steps = Vec::new(alloc);
    let mut here = *first;
    'steps: for turn in 0..most {
        let step = take_step(alloc, &known, memory, false, &here)?;
        let next = place_after(&here, &step);
        steps.push(step)?;
        match next {
            Ok(place) => here = place,
            Err(end) => {
                return Ok(Walk {
                    steps: WalkSteps::of(steps),
                    end,
                });
            }
        }
    }
    Ok(Walk {
        steps: WalkSteps::of(steps),
        end: WalkEnd::Limit,
    })
}

/// The steps of a stack, the innermost first, given the index of the file: the state's rip is the first address. A step costs a binary search for the
/// records that name its address, and a pass over the rules of one INIT.
#[tactic(auto, using(crate::proofs::DescentLemmas::walked))]
pub fn walk(
    alloc: Global,
    file: &SymFile,
    index: &Index,
    state: &State,
) -> Result<Walk, Stop<NoRip>>
    requires { IsIndexOf file.now index.now }
    ensures walk { MatchStop result (λ walk. walk_of file.now state.now ≡ Some walk) (λ _. state.now.regs.rip ≡ None) (Unit {0}) }
    ensures no_rip { state.now.regs.rip ≡ None → IsFault result }
{
    match state.regs.rip {
        None => Err(Stop::Fault(NoRip)),
        Some(rip) => {
            let first = first_place(&state.regs, rip);
            Ok(walk_from(alloc, file, index, &state.memory, MOST_STEPS, &first)?)
        }
    }
}
