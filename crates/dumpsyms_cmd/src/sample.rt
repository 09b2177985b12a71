//! `sample N`: the counts for a dump of a generated file.
ghost use Rattle.std.specs.Prelude.{◌≡◌, ◌≤◌, ◌++◌, length, decimal, IfOk, OnOk};
ghost use Rattle.debug_read.specs.DebugSays.{IsDebugRead};
ghost use Rattle.dumpsyms_cmd.specs.Verdict.{LIMIT};
ghost use Rattle.dumpsyms_cmd.specs.commands.Sample.{is_counted, count_of, counts_line};
ghost use Rattle.dumpsyms_cmd.specs.internal.Counting.{CountsParts, CountsBytes, CountsSample};

use crate::commands::refuse;
use crate::dump::assemble;
use crate::judgement::{Judgement, Message, Output};
use crate::read_back::read_back;
use crate::refusals::{debug_line, fault_line};
use crate::watched_crew::WatchedCrew;
use debug_read::{DebugRead, read_debug};
use elf_sections::{Image, read_image};
use itoa::Buffer;
use sample_elf::make;
use std::alloc::{AllocError, Global};
use std::thread::Threads;
use sym_edges::{OutOfMemory, Stop};
use sym_records::{ByteText, SymFile, SymLine};
use unit_workers::{Crew, Gate};

/// The kinds of records that are counted.
#[derive(Clone, Copy, Debug)]
pub enum Counted {
    Funcs,
    Inlines,
    Lines,
    Inits,
}

/// Whether a record is of a kind.
fn is_counted(kind: Counted, line: &SymLine) -> bool
    ensures { result ≡ is_counted kind line.now }
{
    match (kind, line) {
        (Counted::Funcs, SymLine::Func { .. }) => true,
        (Counted::Inlines, SymLine::Inline { .. }) => true,
        (Counted::Lines, SymLine::Line { .. }) => true,
        (Counted::Inits, SymLine::Init { .. }) => true,
        _ => false,
    }
}

/// The number of records of a kind.
#[tactic(auto, unfolding(crate::specs::commands::Sample::count_of))]
fn count(kind: Counted, lines: &[SymLine]) -> usize
    ensures { result ≡ count_of kind lines.now }
{
    lines.iter().filter(|line| is_counted(kind, line)).count()
}

/// Adds a word and a number.
fn add_count(text: &mut Vec<u8>, word: &[u8], count: usize) -> Result<(), AllocError>
    ensures { OnOk result (text.new.items ≡ text.old.items ++ word.now ++ decimal count) }
{
    let mut buffer = Buffer::new();
    text.extend_from_slice(word)?;
    text.extend_from_slice(buffer.format(count).as_bytes())
}

/// The line with the counts.
#[tactic(auto, unfolding(crate::specs::commands::Sample::counts_line))]
fn counts_line(
    alloc: Global,
    units: usize,
    file: &SymFile,
    omitted: usize,
) -> Result<Vec<u8>, AllocError>
    ensures { IfOk result (λ text. text.items ≡ counts_line units file.now omitted) }
{
    let lines = file.as_slice();
    let mut text = Vec::new(alloc);
    add_count(&mut text, b"units ", units)?;
    add_count(&mut text, b" funcs ", count(Counted::Funcs, lines))?;
    add_count(&mut text, b" inlines ", count(Counted::Inlines, lines))?;
    add_count(&mut text, b" lines ", count(Counted::Lines, lines))?;
    add_count(&mut text, b" inits ", count(Counted::Inits, lines))?;
    add_count(&mut text, b" omitted ", omitted)?;
    text.push(b'\n')?;
    Ok(text)
}

/// The counts for an image, given its debugging information.
fn count_records<R: Threads + Sync>(
    crew: &Crew<'_, R>,
    image: &Image<'_>,
    debug: &DebugRead<'_>,
) -> Result<Judgement, OutOfMemory>
    requires found { IsDebugRead image.now debug.now }
    ensures { IfOk result (λ j. CountsParts j image.now) }
{
    let alloc = crew.alloc();
    let dumped = assemble(crew, image, debug, b"", false)?;
    let file = read_back(alloc, &dumped.file)?;
    let units = debug.units.as_slice().len();
    let text = counts_line(alloc, units, &file, dumped.omitted)?;
    Ok(Judgement {
        status: 0,
        out: Output::Bytes(ByteText::of(text)),
        err: Message::Fixed(b""),
    })
}

/// The counts for an image.
fn count_image<R: Threads + Sync, G: Gate + Sync>(
    watched: &WatchedCrew<'_, R, G>,
    image: &Image<'_>,
) -> Result<Judgement, OutOfMemory>
    ensures { IfOk result (λ j. CountsParts j image.now) }
{
    match read_debug(&watched.crew, image, watched.gate) {
        Ok(debug) => count_records(&watched.crew, image, &debug),
        Err(Stop::Fault(fault)) => Ok(refuse(Message::Made(debug_line(
            watched.crew.alloc(),
            fault,
        )?))),
        Err(Stop::NoMemory) => Err(OutOfMemory),
    }
}

/// The counts for a file's bytes.
#[tactic(auto, using(crate::proofs::SampleLemmas::parts_counted, crate::proofs::SampleLemmas::fault_counted))]
fn count_bytes<R: Threads + Sync, G: Gate + Sync>(
    watched: &WatchedCrew<'_, R, G>,
    bytes: &[u8],
) -> Result<Judgement, OutOfMemory>
    requires few { length bytes.now ≤ LIMIT }
    ensures { IfOk result (λ j. CountsBytes j bytes.now) }
{
    let alloc = watched.crew.alloc();
    match read_image(alloc, bytes) {
        Ok(image) => count_image(watched, &image),
        Err(Stop::Fault(fault)) => Ok(refuse(Message::Made(fault_line(alloc, fault)?))),
        Err(Stop::NoMemory) => Err(OutOfMemory),
    }
}

/// The counts for a generated file with this many units.
#[tactic(auto, using(crate::proofs::SampleLemmas::sample_counted))]
pub fn judge_sample<R: Threads + Sync, G: Gate + Sync>(
    watched: &WatchedCrew<'_, R, G>,
    units: u32,
) -> Result<Judgement, OutOfMemory>
    requires few { units ≤ 20000 }
    ensures { IfOk result (λ j. CountsSample j units) }
{
    let file = make(watched.crew.alloc(), units)?;
    count_bytes(watched, file.as_slice())
}
