//! Answers the commands on a symbol file alone.
ghost use Rattle.std.specs.Prelude.{◌≡◌, ◌≤◌, ℕ, List, [], ◌∷◌, Option, Some, Ok, IfOk};
ghost use Rattle.sym_edges.specs.Outside.{Files};
ghost use Rattle.sym_edges.specs.WholeFile.{HoldsFile};
ghost use Rattle.sym_grammar.specs.Input.{IsReading};
ghost use Rattle.dumpsyms_cmd.specs.Verdict.{LIMIT};
ghost use Rattle.dumpsyms_cmd.specs.Judgement.{err_bytes, judgement_verdict};
ghost use Rattle.dumpsyms_cmd.specs.Observed.{Asks};
ghost use Rattle.dumpsyms_cmd.specs.Words.{sym_command};
ghost use Rattle.dumpsyms_cmd.specs.internal.Judged.{AnswersCommand, AnswersEnd, AnswersJudged, sym_answer, IsSteadyAnswer};

use crate::check::judge_records;
use crate::commands::refuse;
use crate::judgement::{Answer, Judgement, Message};
use crate::lookup::judge_address;
use crate::names::judge_names;
use crate::refusals::{TOO_LONG, UNREAD, text_line};
use crate::words::SymQuery;
use std::alloc::Global;
use sym_edges::{FILE_LIMIT, OutOfMemory, Stop, Store};
use sym_grammar::{SymEnd, SymRefusal, read_file};
use sym_records::SymFile;

/// The answer to a symbol file that is refused.
#[tactic(auto, using(crate::proofs::AnswerLemmas::refuses_verdict))]
fn answer_refusal(alloc: Global, why: SymRefusal) -> Answer
    ensures { (text : List ℕ) → AnswersEnd result text (Stop.Fault (SymEnd.Refused why)) }
{
    match why {
        SymRefusal::TooLong => Answer::Judged(refuse(Message::Fixed(TOO_LONG))),
        SymRefusal::Text(fault) => match text_line(alloc, fault) {
            Ok(line) => Answer::Judged(refuse(Message::Made(line))),
            Err(_) => Answer::NoMemory,
        },
    }
}

/// The answer if a symbol file has no records; `unread` is the line for a file that could not be opened or read.
pub fn answer_end(alloc: Global, end: Stop<SymEnd>, unread: Message) -> Answer
    ensures { AnswersEnd result (err_bytes unread) end }
{
    match end {
        Stop::Fault(SymEnd::Unread) => Answer::Unread(unread),
        Stop::Fault(SymEnd::Refused(why)) => answer_refusal(alloc, why),
        Stop::NoMemory => Answer::NoMemory,
    }
}

/// The answer that is this judgement, unless memory ran out.
pub fn answer_judged(judged: Result<Judgement, OutOfMemory>) -> Answer
    ensures { AnswersJudged result judged }
{
    match judged {
        Ok(judgement) => Answer::Judged(judgement),
        Err(OutOfMemory) => Answer::NoMemory,
    }
}

/// The answer given the records.
fn judge_symbols(alloc: Global, file: SymFile, query: SymQuery) -> Result<Judgement, OutOfMemory>
    ensures { IfOk result (λ j. judgement_verdict j ≡ sym_answer query file) }
{
    match query {
        SymQuery::Check => judge_records(alloc, &file),
        SymQuery::Lookup { address } => judge_address(alloc, &file, address),
        SymQuery::Names => judge_names(alloc, file),
    }
}

/// The answer to a symbol file that was read.
fn answer_file(alloc: Global, file: SymFile, query: SymQuery) -> Answer
    ensures { (files : Option Files) (name : List ℕ) (asked : List (List ℕ)) (before after : ℕ) → HoldsFile files name (IsReading LIMIT (Ok file)) → AnswersCommand result (Some (sym_command query name)) files asked before after }
{
    // The contract of `as_slice` says that the records are valid.
    let _lines = file.as_slice();
    answer_judged(judge_symbols(alloc, file, query))
}

/// The answer to a command on a symbol file alone.
#[tactic(auto, using(crate::proofs::AnswerLemmas::sym_ended, crate::proofs::AnswerLemmas::asks_symbols, crate::proofs::SteadyLemmas::end_steady, crate::proofs::SteadyLemmas::any_steady))]
pub fn answer_symbols<S: Store>(alloc: Global, sym: &str, query: SymQuery, store: &mut S) -> Answer
    ensures asked { Asks (sym.now ∷ []) (S.asked store.old) (S.asked store.new) }
    ensures files { S.files store.new ≡ S.files store.old }
    ensures faults { S.faults store.old ≤ S.faults store.new }
    ensures steady { IsSteadyAnswer result (S.faults store.old) (S.faults store.new) }
    ensures answered { AnswersCommand result (Some (sym_command query sym.now)) (S.files store.old) (S.asked store.new) (S.faults store.old) (S.faults store.new) }
{
    match read_file(alloc, store, sym, FILE_LIMIT) {
        Ok(file) => answer_file(alloc, file, query),
        Err(end) => answer_end(alloc, end, Message::Fixed(UNREAD)),
    }
}
