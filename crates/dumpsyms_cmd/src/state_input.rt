//! Answers the commands on a symbol file and a state file.
ghost use Rattle.std.specs.Prelude.{◌≡◌, ◌≤◌, [], ◌∷◌, Some, IfOk, length};
ghost use Rattle.dumpsyms_cmd.specs.Words.{second_told, state_command};
ghost use Rattle.dumpsyms_cmd.specs.Judgement.{judgement_verdict};
ghost use Rattle.dumpsyms_cmd.specs.Observed.{Asks};
ghost use Rattle.dumpsyms_cmd.specs.StateInput.{state_answer, STATE_LIMIT};
ghost use Rattle.dumpsyms_cmd.specs.internal.Judged.{AnswersCommand, AnswersState, query_answer, IsSteadyAnswer};

use crate::commands::{answer_stop, refuse};
use crate::frame::judge_frame;
use crate::judgement::{Answer, Judgement, Message};
use crate::refusals::{UNREAD, state_line};
use crate::symbol_input::{answer_end, answer_judged};
use crate::walk::judge_walk;
use crate::words::StateQuery;
use state_file::{State, read_state};
use std::alloc::Global;
use sym_edges::{FILE_LIMIT, OutOfMemory, Stop, Store, read_all};
use sym_grammar::read_file;
use sym_records::SymFile;

/// The greatest length of a state file: 2^24 bytes.
const STATE_LIMIT: usize = 0x100_0000;

/// The answer given the records and the state.
fn judge_query(
    alloc: Global,
    file: &SymFile,
    query: StateQuery,
    state: &State,
) -> Result<Judgement, OutOfMemory>
    ensures { IfOk result (λ j. judgement_verdict j ≡ query_answer query file.now state.now) }
{
    match query {
        StateQuery::Frame { address } => judge_frame(alloc, file, address, state),
        StateQuery::Walk => judge_walk(alloc, file, state),
    }
}

/// The answer given the bytes of a state file.
#[tactic(auto, using(crate::proofs::AnswerLemmas::state_judged, crate::proofs::AnswerLemmas::state_refused))]
fn judge_state(
    alloc: Global,
    file: &SymFile,
    query: StateQuery,
    bytes: &[u8],
) -> Result<Judgement, OutOfMemory>
    requires { length bytes.now ≤ STATE_LIMIT }
    ensures { IfOk result (λ j. judgement_verdict j ≡ state_answer (query_answer query) file.now bytes.now) }
{
    match read_state(alloc, bytes) {
        Ok(state) => judge_query(alloc, file, query, &state),
        Err(Stop::Fault(fault)) => Ok(refuse(Message::Made(state_line(alloc, fault)?))),
        Err(Stop::NoMemory) => Err(OutOfMemory),
    }
}

/// The answer given the name of a state file, which is read here.
#[tactic(auto, using(crate::proofs::AnswerLemmas::state_read, crate::proofs::AnswerLemmas::state_stopped, crate::proofs::AnswerLemmas::asks_state, crate::proofs::SteadyLemmas::stop_steady, crate::proofs::SteadyLemmas::any_steady))]
fn answer_state<S: Store>(
    alloc: Global,
    file: &SymFile,
    query: StateQuery,
    state: &str,
    store: &mut S,
) -> Answer
    ensures asked { Asks (state.now ∷ []) (S.asked store.old) (S.asked store.new) }
    ensures files { S.files store.new ≡ S.files store.old }
    ensures faults { S.faults store.old ≤ S.faults store.new }
    ensures steady { IsSteadyAnswer result (S.faults store.old) (S.faults store.new) }
    ensures answered { AnswersState result file.now (query_answer query) state.now (S.files store.old) (S.faults store.old) (S.faults store.new) }
{
    match read_all(alloc, store, state, STATE_LIMIT) {
        Ok(bytes) => answer_judged(judge_state(alloc, file, query, bytes.as_slice())),
        Err(stop) => answer_stop(stop, Message::Fixed(UNREAD)),
    }
}

/// The answer to a command on a symbol file and a state file. The symbol file is read first.
#[tactic(auto, using(crate::proofs::AnswerLemmas::query_read, crate::proofs::AnswerLemmas::query_ended, crate::proofs::AnswerLemmas::asks_symbols, crate::proofs::AnswerLemmas::asks_both, crate::proofs::SteadyLemmas::end_steady, crate::proofs::SteadyLemmas::steady_behind))]
pub fn answer_query<S: Store>(
    alloc: Global,
    sym: &str,
    query: StateQuery,
    state: &str,
    store: &mut S,
) -> Answer
    ensures asked { Asks (sym.now ∷ second_told (S.files store.old) sym.now state.now) (S.asked store.old) (S.asked store.new) }
    ensures files { S.files store.new ≡ S.files store.old }
    ensures faults { S.faults store.old ≤ S.faults store.new }
    ensures steady { IsSteadyAnswer result (S.faults store.old) (S.faults store.new) }
    ensures answered { AnswersCommand result (Some (state_command query sym.now state.now)) (S.files store.old) (S.asked store.new) (S.faults store.old) (S.faults store.new) }
{
    match read_file(alloc, store, sym, FILE_LIMIT) {
        Ok(file) => answer_state(alloc, &file, query, state, store),
        Err(end) => answer_end(alloc, end, Message::Fixed(UNREAD)),
    }
}
