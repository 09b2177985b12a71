//! Answers `judge`, which reads the files of a dump and a symbol file.
ghost use Rattle.std.specs.Prelude.{◌≡◌, ◌≤◌, [], ◌∷◌, Some};
ghost use Rattle.dumpsyms_cmd.specs.ElfInput.{ElfSource};
ghost use Rattle.dumpsyms_cmd.specs.Words.{source_view, dumped_told, judge};
ghost use Rattle.dumpsyms_cmd.specs.commands.Dump.{DumpPromises};
ghost use Rattle.dumpsyms_cmd.specs.Observed.{Asks, AsksRow};
ghost use Rattle.dumpsyms_cmd.specs.internal.Judged.{AnswersCommand, AnswersSym, AsksThen, IsSteadyAnswer};

use crate::elf_input::answer_source;
use crate::judge::judge_files;
use crate::judgement::{Answer, Judgement, Output};
use crate::read_back::read_back;
use crate::refusals::unread_line;
use crate::symbol_input::{answer_end, answer_judged};
use crate::watched_crew::WatchedCrew;
use crate::words::ElfPlace;
use std::alloc::Global;
use std::thread::Threads;
use sym_edges::{FILE_LIMIT, OutOfMemory, Store};
use sym_grammar::read_file;
use sym_records::SymFile;
use unit_workers::Gate;

/// The answer given records and the name of a symbol file, which is read here. The line for an unreadable file, with its name if `full`, is made
/// before that, since no memory is allocated after a file failed.
#[tactic(auto, using(crate::proofs::JudgeLemmas::sym_read, crate::proofs::JudgeLemmas::sym_ended, crate::proofs::AnswerLemmas::asks_symbols, crate::proofs::JudgeLemmas::not_asked, crate::proofs::SteadyLemmas::end_steady, crate::proofs::SteadyLemmas::any_steady))]
fn answer_sym<S: Store>(
    alloc: Global,
    own: &SymFile,
    full: bool,
    sym: &str,
    store: &mut S,
) -> Answer
    ensures asked { Asks (sym.now ∷ []) (S.asked store.old) (S.asked store.new) }
    ensures files { S.files store.new ≡ S.files store.old }
    ensures faults { S.faults store.old ≤ S.faults store.new }
    ensures steady { IsSteadyAnswer result (S.faults store.old) (S.faults store.new) }
    ensures answered { AnswersSym result own.now full sym.now (S.files store.old) (S.asked store.new) (S.faults store.old) (S.faults store.new) }
{
    let Ok(unread) = unread_line(alloc, full, sym.as_bytes()) else {
        return Answer::NoMemory;
    };
    match read_file(alloc, store, sym, FILE_LIMIT) {
        Ok(other) => answer_judged(judge_files(alloc, own, &other)),
        Err(end) => answer_end(alloc, end, unread),
    }
}

/// The answer given a dump of the source. The symbol file is read only if the dump gave a text.
fn answer_dumped<S: Store>(
    alloc: Global,
    dumped: Judgement,
    full: bool,
    sym: &str,
    store: &mut S,
) -> Answer
    ensures asked { (source : ElfSource) → DumpPromises source (S.files store.old) dumped → AsksThen dumped.out (dumped_told (S.files store.old) source sym.now) (S.asked store.old) (S.asked store.new) }
    ensures files { S.files store.new ≡ S.files store.old }
    ensures faults { S.faults store.old ≤ S.faults store.new }
    ensures steady { IsSteadyAnswer result (S.faults store.old) (S.faults store.new) }
    ensures answered { (source : ElfSource) → source.full ≡ full → DumpPromises source (S.files store.old) dumped → AnswersCommand result (Some (judge source sym.now)) (S.files store.old) (S.asked store.new) (S.faults store.old) (S.faults store.new) }
{
    let Output::Text(text) = &dumped.out else {
        return Answer::Judged(dumped);
    };
    match read_back(alloc, text) {
        Ok(own) => answer_sym(alloc, &own, full, sym, store),
        Err(OutOfMemory) => Answer::NoMemory,
    }
}

/// The answer to `judge ELF SYM`, also with `--full` or with a debug file. The source is read and dumped first.
#[tactic(auto, using(crate::proofs::SteadyLemmas::steady_behind))]
pub(crate) fn answer_judge<R: Threads + Sync, S: Store, G: Gate + Sync>(
    watched: &WatchedCrew<'_, R, G>,
    source: &ElfPlace<'_>,
    sym: &str,
    store: &mut S,
) -> Answer
    ensures asked { AsksRow (Some (judge (source_view source.now) sym.now)) (S.files store.old) (S.asked store.old) (S.asked store.new) }
    ensures files { S.files store.new ≡ S.files store.old }
    ensures faults { S.faults store.old ≤ S.faults store.new }
    ensures steady { IsSteadyAnswer result (S.faults store.old) (S.faults store.new) }
    ensures answered { AnswersCommand result (Some (judge (source_view source.now) sym.now)) (S.files store.old) (S.asked store.new) (S.faults store.old) (S.faults store.new) }
{
    match answer_source(watched, source, store) {
        Answer::Judged(dumped) => answer_dumped(
            watched.crew.alloc(),
            dumped,
            source.full,
            sym,
            store,
        ),
        other => other,
    }
}
