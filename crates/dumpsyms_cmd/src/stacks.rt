//! `stacks CORE STORE`.
ghost use Rattle.std.specs.Prelude.{◌≡◌, ◌≤◌, Ok, IfOk};
ghost use Rattle.dumpsyms_cmd.specs.internal.Judged.{AsksSymbols, JudgesCore};

use crate::judgement::{Judgement, Message, Output};
use core_file::Core;
use module_stacks::StackWalker;
use stack_text::spell_stacks;
use std::alloc::Global;
use sym_edges::{OutOfMemory, Store};

/// The stacks of a core file's threads, by the symbol files in a folder.
#[tactic(auto, using(crate::proofs::StacksLemmas::nothing_asked))]
pub(crate) fn judge_stacks<S: Store>(
    alloc: Global,
    core: &Core<'_>,
    folder: &str,
    store: &mut S,
) -> Result<Judgement, OutOfMemory>
    ensures asked { AsksSymbols folder.now (S.asked store.old) (S.asked store.new) }
    ensures files { S.files store.new ≡ S.files store.old }
    ensures faults { S.faults store.old ≤ S.faults store.new }
    ensures judged { IfOk result (λ j. JudgesCore j folder.now (Ok core.now) (S.files store.old) (S.asked store.new) (S.faults store.old) (S.faults store.new)) }
{
    let mut walker = StackWalker::new(alloc, core, folder)?;
    let texts = spell_stacks(alloc, store, &mut walker)?;
    Ok(Judgement {
        status: 0,
        out: Output::Shared(texts.out),
        err: Message::Made(texts.err),
    })
}
