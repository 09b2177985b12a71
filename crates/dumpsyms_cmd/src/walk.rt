//! `walk SYM STATE`.
ghost use Rattle.std.specs.Prelude.{◌≡◌, IfOk};
ghost use Rattle.sym_lookup.specs.IndexOf.{IsIndexOf};
ghost use Rattle.dumpsyms_cmd.specs.Judgement.{judgement_verdict};
ghost use Rattle.dumpsyms_cmd.specs.commands.Walk.{walk_answer};

use crate::commands::refuse;
use crate::judgement::{Judgement, Message, Output};
use crate::refusals::NO_RIP;
use stack_text::spell_walk;
use stack_walk::walk;
use state_file::State;
use std::alloc::Global;
use sym_edges::{OutOfMemory, Stop};
use sym_lookup::Index;
use sym_records::SymFile;

/// The index of a file. No file within the size limit has 2^32 records.
fn index_of(alloc: Global, file: &SymFile) -> Result<Index, OutOfMemory>
    ensures { IfOk result (λ index. IsIndexOf file.now index) }
{
    if file.len() > 0xffff_ffff {
        return Err(OutOfMemory);
    }
    Index::of(alloc, file)
}

/// The frames of the stack from a state. Each frame is looked up in the index, so no frame costs a pass over the file.
#[tactic(auto, using(crate::proofs::WalkLemmas::walk_judged, crate::proofs::WalkLemmas::no_rip_judged))]
pub(crate) fn judge_walk(
    alloc: Global,
    file: &SymFile,
    state: &State,
) -> Result<Judgement, OutOfMemory>
    ensures { IfOk result (λ j. judgement_verdict j ≡ walk_answer file.now state.now) }
{
    let index = index_of(alloc, file)?;
    match walk(alloc, file, &index, state) {
        Ok(walk) => Ok(Judgement {
            status: 0,
            out: Output::Shared(spell_walk(alloc, file, &index, &walk)?),
            err: Message::Fixed(b""),
        }),
        Err(Stop::Fault(_)) => Ok(refuse(Message::Fixed(NO_RIP))),
        Err(Stop::NoMemory) => Err(OutOfMemory),
    }
}
