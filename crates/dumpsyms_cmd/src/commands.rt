//! Decides what to answer, given the arguments and the files.
ghost use Rattle.std.specs.Prelude.{◌≡◌, ◌≤◌, ℕ, List, Option, Some, None, IfOk, map};
ghost use Rattle.sym_edges.specs.Outside.{Files};
ghost use Rattle.std.specs.String.{string_bytes};
ghost use Rattle.dumpsyms_cmd.specs.Words.{source_view, command_of, module_name, dump, sample};
ghost use Rattle.debug_read.specs.DebugSays.{IsDebugRead};
ghost use Rattle.dumpsyms_cmd.specs.Judgement.{err_bytes};
ghost use Rattle.dumpsyms_cmd.specs.internal.Judged.{Refuses, JudgesParts, AnswersMade, AnswersStop, AnswersCommand, AnswersWords, IsSteadyAnswer};
ghost use Rattle.dumpsyms_cmd.specs.Observed.{AsksRow};

use crate::dump::assemble;
use crate::elf_input::answer_source;
use crate::judge_input::answer_judge;
use crate::judgement::{Answer, Judgement, Message, Output};
use crate::refusals::{TOO_LONG, debug_line};
use crate::sample::judge_sample;
use crate::stacks_input::answer_stacks;
use crate::state_input::answer_query;
use crate::symbol_input::{answer_judged, answer_symbols};
use crate::watched_crew::WatchedCrew;
use crate::words::{Command, ElfPlace, USAGE, USUAL_WORKERS, name_of, parse_words};
use debug_read::{DebugRead, read_debug};
use elf_sections::Image;
use std::alloc::{AllocError, Global};
use std::thread::Threads;
use sym_edges::{OutOfMemory, ReadEnd, Stop, Store};
use sym_records::ByteText;
use unit_workers::{Crew, Gate};

/// A refusal with this line.
pub fn refuse(line: Message) -> Judgement
    ensures { Refuses result (err_bytes line) }
{
    Judgement {
        status: 1,
        out: Output::Nothing,
        err: line,
    }
}

/// A dump of a source's image, given its debugging information.
#[tactic(auto, using(crate::proofs::JudgedLemmas::dumps_named))]
fn judge_records<R: Threads + Sync>(
    crew: &Crew<'_, R>,
    image: &Image<'_>,
    debug: &DebugRead<'_>,
    source: &ElfPlace<'_>,
) -> Result<Judgement, OutOfMemory>
    requires found { IsDebugRead image.now debug.now }
    ensures { IfOk result (λ j. JudgesParts j source.now.full (module_name source.now.elf.now) image.now) }
{
    let name = name_of(source.elf.as_bytes());
    let dumped = assemble(crew, image, debug, name, source.full)?;
    Ok(Judgement {
        status: 0,
        out: Output::Text(dumped.file),
        err: Message::Made(dumped.err),
    })
}

/// A dump of a source's image.
pub(crate) fn judge_image<R: Threads + Sync, G: Gate + Sync>(
    watched: &WatchedCrew<'_, R, G>,
    image: &Image<'_>,
    source: &ElfPlace<'_>,
) -> Result<Judgement, OutOfMemory>
    ensures { IfOk result (λ j. JudgesParts j source.now.full (module_name source.now.elf.now) image.now) }
{
    match read_debug(&watched.crew, image, watched.gate) {
        Ok(debug) => judge_records(&watched.crew, image, &debug, source),
        Err(Stop::Fault(fault)) => Ok(refuse(Message::Made(debug_line(
            watched.crew.alloc(),
            fault,
        )?))),
        Err(Stop::NoMemory) => Err(OutOfMemory),
    }
}

/// A refusal with this line, unless memory ran out when the line was made.
pub fn answer_line(made: Result<ByteText, AllocError>) -> Answer
    ensures { AnswersMade result made }
{
    match made {
        Ok(text) => Answer::Judged(refuse(Message::Made(text))),
        Err(_) => Answer::NoMemory,
    }
}

/// The answer if a file could not be read whole; `unread` is the line for a file that could not be opened or read.
#[tactic(auto, using(crate::proofs::JudgedLemmas::too_long_judged))]
pub fn answer_stop(stop: Stop<ReadEnd>, unread: Message) -> Answer
    ensures { AnswersStop result (err_bytes unread) stop }
{
    match stop {
        Stop::Fault(ReadEnd::TooLong) => Answer::Judged(refuse(Message::Fixed(TOO_LONG))),
        Stop::Fault(_) => Answer::Unread(unread),
        Stop::NoMemory => Answer::NoMemory,
    }
}

/// The answer to `dump ELF`, also with `--full` or with a debug file, by a crew of workers.
#[tactic(auto, using(crate::proofs::SourceLemmas::dump_answered, crate::proofs::SourceLemmas::dump_asked))]
fn answer_dump<R: Threads + Sync, S: Store, G: Gate + Sync>(
    watched: &WatchedCrew<'_, R, G>,
    source: &ElfPlace<'_>,
    store: &mut S,
) -> Answer
    ensures asked { AsksRow (Some (dump (source_view source.now) watched.now.crew)) (S.files store.old) (S.asked store.old) (S.asked store.new) }
    ensures files { S.files store.new ≡ S.files store.old }
    ensures faults { S.faults store.old ≤ S.faults store.new }
    ensures steady { IsSteadyAnswer result (S.faults store.old) (S.faults store.new) }
    ensures answered { AnswersCommand result (Some (dump (source_view source.now) watched.now.crew)) (S.files store.old) (S.asked store.new) (S.faults store.old) (S.faults store.new) }
{
    answer_source(watched, source, store)
}

/// The answer to `sample N`, by a crew of workers.
#[tactic(auto, using(crate::proofs::SampleLemmas::sample_answered))]
fn answer_sample<R: Threads + Sync, G: Gate + Sync>(
    watched: &WatchedCrew<'_, R, G>,
    units: usize,
) -> Answer
    requires few { units ≤ 20000 }
    ensures { (files : Option Files) (asked : List (List ℕ)) (before after : ℕ) → AnswersCommand result (Some (sample units watched.now.crew)) files asked before after }
{
    answer_judged(judge_sample(watched, units as u32))
}

/// The answer to invalid arguments.
#[tactic(auto, using(crate::proofs::JudgedLemmas::usage_judged))]
fn answer_usage() -> Answer
    ensures { (files : Option Files) (asked : List (List ℕ)) (before after : ℕ) → AnswersCommand result None files asked before after }
{
    Answer::Judged(Judgement {
        status: 2,
        out: Output::Nothing,
        err: Message::Fixed(USAGE),
    })
}

/// The answer to the arguments, given the files of the store. All memory that the program needs is allocated here.
#[tactic(auto, using(crate::proofs::JudgedLemmas::asks_none, crate::proofs::JudgedLemmas::asks_row, crate::proofs::SampleLemmas::asks_nothing, crate::proofs::RunLemmas::words_answered, crate::proofs::RunLemmas::words_steady))]
pub fn answer_words<R: Threads + Sync, S: Store, G: Gate + Sync>(
    rt: &R,
    alloc: Global,
    words: &[String],
    store: &mut S,
    gate: &G,
) -> Answer
    ensures asked { AsksRow (command_of (map string_bytes words.now)) (S.files store.old) (S.asked store.old) (S.asked store.new) }
    ensures files { S.files store.new ≡ S.files store.old }
    ensures faults { S.faults store.old ≤ S.faults store.new }
    ensures answered { AnswersWords result (command_of (map string_bytes words.now)) (record { files = S.files store.old; asked = S.asked store.old; asked_after = S.asked store.new; faults = S.faults store.old; faults_after = S.faults store.new }) }
{
    match parse_words(words) {
        None => answer_usage(),
        Some(Command::Dump { source, workers }) => {
            answer_dump(&WatchedCrew::new(rt, alloc, gate, workers), &source, store)
        }
        Some(Command::Sample { units, workers }) => {
            answer_sample(&WatchedCrew::new(rt, alloc, gate, workers), units)
        }
        Some(Command::Symbols { sym, query }) => answer_symbols(alloc, sym, query, store),
        Some(Command::States { sym, query, state }) => {
            answer_query(alloc, sym, query, state, store)
        }
        Some(Command::Judge { source, sym }) => {
            answer_judge(
                &WatchedCrew::new(rt, alloc, gate, USUAL_WORKERS),
                &source,
                sym,
                store,
            )
        }
        Some(Command::Stacks { core, folder }) => answer_stacks(alloc, core, folder, store),
    }
}
