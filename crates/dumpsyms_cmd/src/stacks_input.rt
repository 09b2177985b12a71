//! Answers `stacks`, which reads a core file and a folder of symbol files.
ghost use Rattle.std.specs.Prelude.{◌≡◌, ◌≤◌, false, Some};
ghost use Rattle.core_file.specs.HeldBlocks.{is_too_long};
ghost use Rattle.dumpsyms_cmd.specs.Words.{stacks};
ghost use Rattle.dumpsyms_cmd.specs.Observed.{AsksRow};
ghost use Rattle.dumpsyms_cmd.specs.internal.Judged.{AnswersWords, AnswersCore, AsksSymbols};

use crate::commands::{answer_stop, refuse};
use crate::judgement::{Answer, Message};
use crate::refusals::{UNREAD, core_line};
use crate::stacks::judge_stacks;
use crate::symbol_input::answer_judged;
use core_file::{HeldBytes, read_core, read_held};
use std::alloc::Global;
use sym_edges::{Stop, Store};

/// The answer to the bytes of a core file.
#[tactic(auto, using(crate::proofs::StacksLemmas::core_answered, crate::proofs::StacksLemmas::core_refused, crate::proofs::StacksLemmas::nothing_asked))]
fn answer_core<S: Store>(alloc: Global, bytes: &HeldBytes, folder: &str, store: &mut S) -> Answer
    ensures asked { AsksSymbols folder.now (S.asked store.old) (S.asked store.new) }
    ensures files { S.files store.new ≡ S.files store.old }
    ensures faults { S.faults store.old ≤ S.faults store.new }
    ensures answered { AnswersCore result folder.now bytes.now (S.files store.old) (S.asked store.new) (S.faults store.old) (S.faults store.new) }
{
    match read_core(alloc, bytes) {
        Ok(core) => answer_judged(judge_stacks(alloc, &core, folder, store)),
        Err(Stop::Fault(fault)) => match core_line(alloc, fault) {
            Ok(line) => Answer::Judged(refuse(Message::Made(line))),
            Err(_) => Answer::NoMemory,
        },
        Err(Stop::NoMemory) => Answer::NoMemory,
    }
}

/// The answer to `stacks CORE STORE`. The core file is read first.
#[tactic(auto, using(crate::proofs::StacksLemmas::stacks_read, crate::proofs::StacksLemmas::stacks_stopped, crate::proofs::StacksLemmas::asks_core, crate::proofs::StacksLemmas::asks_behind))]
pub(crate) fn answer_stacks<S: Store>(
    alloc: Global,
    core: &str,
    folder: &str,
    store: &mut S,
) -> Answer
    ensures asked { AsksRow (Some (stacks core.now folder.now)) (S.files store.old) (S.asked store.old) (S.asked store.new) }
    ensures files { S.files store.new ≡ S.files store.old }
    ensures faults { S.faults store.old ≤ S.faults store.new }
    ensures answered { AnswersWords result (Some (stacks core.now folder.now)) (record { files = S.files store.old; asked = S.asked store.old; asked_after = S.asked store.new; faults = S.faults store.old; faults_after = S.faults store.new }) }
{
    match read_held(alloc, store, core) {
        Ok(bytes) => answer_core(alloc, &bytes, folder, store),
        Err(stop) => answer_stop(stop, Message::Fixed(UNREAD)),
    }
}
