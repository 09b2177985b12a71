//! A run of the program: it decides what to answer, and then writes.
ghost use Rattle.std.specs.Prelude.{◌≡◌, true, map, OnOk, OnErr};
ghost use Rattle.std.specs.String.{string_bytes};
ghost use Rattle.sym_edges.specs.Outside.{append_told, AddsFront, Rose};
ghost use Rattle.dumpsyms_cmd.specs.Judgement.{judgement_verdict, out_bytes, err_bytes, is_some_output};
ghost use Rattle.dumpsyms_cmd.specs.internal.Judged.{answer_verdict, has_output};
ghost use Rattle.dumpsyms_cmd.specs.declared.judgement.Answer.TheVariants.{NoMemory};
ghost use Rattle.dumpsyms_cmd.specs.Program.{Promises};
ghost use Rattle.dumpsyms_cmd.specs.internal.Writes.{Says, Writes};

use crate::commands::answer_words;
use crate::judgement::{Answer, Judgement, Message, Output};
use std::alloc::Global;
use std::thread::Threads;
use sym_edges::{Failed, Sink, Store, write_all};
use sym_records::write_file;
use unit_workers::Gate;

/// The status if a write failed.
const UNWRITTEN: u8 = 4;

/// Writes lines to standard error, and returns the status.
fn say<E: Sink>(err: &mut E, line: &[u8], status: u8) -> u8
    ensures said { Says result status (record { taken = E.taken err.old; taken_after = E.taken err.new; faults = E.faults err.old; faults_after = E.faults err.new }) line.now }
{
    match write_all(err, line) {
        Ok(()) => status,
        Err(Failed) => UNWRITTEN,
    }
}

/// The bytes of a message.
fn bytes_of(message: &Message) -> &[u8]
    ensures { result.now ≡ err_bytes message.now }
{
    match message {
        Message::Fixed(line) => line,
        Message::Made(text) => text.as_slice(),
    }
}

/// Writes what standard output gets. Allocates no memory.
fn write_output<O: Sink>(output: &Output, out: &mut O) -> Result<(), Failed>
    ensures written { OnOk result (O.taken out.new ≡ append_told (O.taken out.old) (out_bytes output.now)) }
    ensures front { OnErr result (AddsFront (O.taken out.old) (O.taken out.new) (out_bytes output.now)) }
    ensures cause { OnErr result (Rose (O.faults out.old) (O.faults out.new)) }
    ensures some { OnErr result (is_some_output output.now ≡ true) }
{
    match output {
        Output::Nothing => Ok(()),
        Output::Text(file) => file.write(out),
        Output::Bytes(text) => write_all(out, text.as_slice()),
        Output::Shared(text) => text.write(out),
        Output::Records(file) => write_file(file, out),
    }
}

/// Writes a judgement, first to out and then to err, and returns the status. Allocates no memory.
#[tactic(auto, using(crate::proofs::WriteLemmas::said_behind, crate::proofs::WriteLemmas::not_said))]
fn write_judgement<O: Sink, E: Sink>(judgement: &Judgement, out: &mut O, err: &mut E) -> u8
    ensures { Writes result (judgement_verdict judgement.now) (is_some_output judgement.now.out)
        (record { taken = O.taken out.old; taken_after = O.taken out.new; faults = O.faults out.old; faults_after = O.faults out.new })
        (record { taken = E.taken err.old; taken_after = E.taken err.new; faults = E.faults err.old; faults_after = E.faults err.new }) }
{
    match write_output(&judgement.out, out) {
        Ok(()) => say(err, bytes_of(&judgement.err), judgement.status),
        Err(Failed) => UNWRITTEN,
    }
}

/// Writes an answer, and returns the status. Allocates no memory.
#[tactic(auto, using(crate::proofs::WriteLemmas::line_said, crate::proofs::WriteLemmas::nothing_said))]
fn write_answer<O: Sink, E: Sink>(answer: &Answer, out: &mut O, err: &mut E) -> u8
    ensures quiet { answer.now ≡ NoMemory → result ≡ 5 }
    ensures written { Writes result (answer_verdict answer.now) (has_output answer.now)
        (record { taken = O.taken out.old; taken_after = O.taken out.new; faults = O.faults out.old; faults_after = O.faults out.new })
        (record { taken = E.taken err.old; taken_after = E.taken err.new; faults = E.faults err.old; faults_after = E.faults err.new }) }
{
    match answer {
        Answer::Judged(judgement) => write_judgement(judgement, out, err),
        Answer::Unread(line) => say(err, bytes_of(line), 3),
        Answer::NoMemory => 5,
    }
}

/// Does all that the program does: reads the files that the arguments name, writes the two texts, and returns the status.
///
/// 0: the command answered. 1: a file was refused, a checker found something, or `judge` found a difference. 2: the arguments are invalid. 3: a file
/// could not be read. 4: a text could not be written. 5: memory ran out. Out is written before err, and nothing is written before everything is
/// decided. `specs/Program.antt` says what holds for each status. The number of workers does not matter. `rt` starts their threads, and `gate` is
/// told of each unit that they read.
#[tactic(auto, using(crate::proofs::RunLemmas::promises))]
pub fn run<R: Threads + Sync, S: Store, O: Sink, E: Sink, G: Gate + Sync>(
    rt: &R,
    alloc: Global,
    words: &[String],
    store: &mut S,
    out: &mut O,
    err: &mut E,
    gate: &G,
) -> u8
    ensures { Promises (record {
      words = map string_bytes words.now;
      status = result;
      store = record { files = S.files store.old; asked = S.asked store.old; asked_after = S.asked store.new; faults = S.faults store.old; faults_after = S.faults store.new };
      out = record { taken = O.taken out.old; taken_after = O.taken out.new; faults = O.faults out.old; faults_after = O.faults out.new };
      err = record { taken = E.taken err.old; taken_after = E.taken err.new; faults = E.faults err.old; faults_after = E.faults err.new };
    }) }
{
    let answer = answer_words(rt, alloc, words, store, gate);
    write_answer(&answer, out, err)
}
