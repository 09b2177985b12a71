//! The lines of the stacks of a process.
ghost use Rattle.std.specs.Prelude.{◌≡◌, ◌<◌, ◌≤◌, ◌+◌, ◌-◌, ◌++◌, ◌∷◌, [], ℕ, List, length, take, drop, slice_get, decimal, codes, Some, IfSome, IfOk, OnOk};
ghost use Rattle.sym_records.specs.Canon.{spaced};
ghost use Rattle.sym_edges.specs.Outside.{Files};
ghost use Rattle.module_stacks.specs.SymbolFiles.{Agrees, Learns, AsksFresh, seen_in};
ghost use Rattle.module_stacks.specs.Walking.{known_found, IsPathOf};
ghost use Rattle.module_stacks.specs.Symbols.{holder_of, records_at};
ghost use Rattle.stack_text.specs.Lines.{line};
ghost use Rattle.stack_text.specs.StacksText.{signal_text, module_line, modules_text, stack_step_text, stack_steps_text, skipped_line, shown_steps, thread_line, thread_text, stacks_text, lacks_text, step_words, names_text};
ghost use Rattle.stack_text.specs.internal.SaidLines.{HasSaid};
ghost use Rattle.stack_text.specs.internal.Spelling.{HasSpelled};

use crate::lacks::{id_word, say_lacks};
use crate::lines::share_line;
use crate::said_lines::SaidLines;
use crate::walk_text::add_end_line;
use core_file::{Module, Thread};
use itoa::Buffer;
use module_stacks::StackWalker;
use stack_walk::{Walk, WalkStep};
use std::alloc::Global;
use sym_edges::{OutOfMemory, Store};
use sym_lookup::SharedText;
use sym_records::{ByteText, HexText};

/// A thread with at most this many steps is shown whole.
const SHOWN: usize = 1024;

/// How many steps are shown at each end of a longer thread.
const ENDS: usize = 512;

/// The two texts of the stacks of a process.
#[derive(Debug, Drop)]
pub struct StacksText {
    /// The signal, the modules and the threads.
    pub out: SharedText,
    /// The modules whose records were needed and are missing.
    pub err: ByteText,
}

/// Adds a line of a word and a number.
fn add_count(
    alloc: Global,
    text: &mut SharedText,
    word: &'static [u8],
    number: usize,
) -> Result<(), OutOfMemory>
    ensures { OnOk result (text.new ≡ text.old ++ line (spaced word.now (decimal number ∷ []))) }
{
    let mut buffer = Buffer::new();
    let words = [buffer.format(number).as_bytes()];
    share_line(alloc, text, word, &words)
}

/// Adds the signal of the first thread, if it has one.
fn add_signal(alloc: Global, text: &mut SharedText, threads: &[Thread]) -> Result<(), OutOfMemory>
    ensures { OnOk result (text.new ≡ text.old ++ signal_text threads.now) }
{
    match threads.first() {
        Some(thread) if thread.signal != 0 => add_count(
            alloc,
            text,
            b"signal",
            usize::from(thread.signal),
        ),
        _ => Ok(()),
    }
}

/// Adds the line of a module.
fn add_module(
    alloc: Global,
    text: &mut SharedText,
    walker: &StackWalker<'_>,
    place: usize,
    listed: &Module,
) -> Result<(), OutOfMemory>
    requires { slice_get walker.now.core.modules place ≡ Some listed.now }
    ensures { OnOk result (text.new ≡ text.old ++ module_line walker.now.folder listed.now) }
{
    let start = HexText::of(listed.start);
    let end = HexText::of(listed.end);
    let words = [
        start.as_slice(),
        end.as_slice(),
        listed.name.as_slice(),
        id_word(walker, place),
    ];
    share_line(alloc, text, b"module", &words)
}

/// Adds the lines of all modules.
fn add_modules(
    alloc: Global,
    text: &mut SharedText,
    walker: &StackWalker<'_>,
) -> Result<(), OutOfMemory>
    ensures { OnOk result (text.new ≡ text.old ++ modules_text walker.now.folder walker.now.core.modules) }
{
    let modules = walker.core().modules();
    'modules: for place in 0..modules.len() {
        add_module(alloc, text, walker, place, &modules[place])?;
    }
    Ok(())
}

/// Adds the line of a step's number, its address and its module.
fn add_head(
    alloc: Global,
    text: &mut SharedText,
    walker: &StackWalker<'_>,
    number: usize,
    step: &WalkStep,
) -> Result<(), OutOfMemory>
    ensures { OnOk result (text.new ≡ text.old ++ line (spaced (decimal number) (step_words step.now.rip (holder_of walker.now.core.modules step.now.at)))) }
{
    let mut buffer = Buffer::new();
    let number = buffer.format(number).as_bytes();
    let rip = HexText::of(step.rip);
    match walker.module_at(step.at) {
        None => {
            let words = [rip.as_slice()];
            share_line(alloc, text, number, &words)
        }
        Some(place) => {
            let words = [
                rip.as_slice(),
                walker.core().modules()[place].name.as_slice(),
            ];
            share_line(alloc, text, number, &words)
        }
    }
}

/// Adds what names the address of a step.
fn add_names(
    text: &mut SharedText,
    walker: &StackWalker<'_>,
    step: &WalkStep,
) -> Result<(), OutOfMemory>
    ensures { OnOk result (text.new ≡ text.old ++ names_text (records_at (known_found walker.now.known) walker.now.folder walker.now.core.modules step.now.at) step.now.answer) }
{
    match walker.records_at(step.at) {
        Ok(records) => records.add_answer(text, &step.answer),
        Err(_) => text.add(b"none\n"),
    }
}

/// Adds the lines of a step.
fn add_step(
    alloc: Global,
    text: &mut SharedText,
    walker: &StackWalker<'_>,
    number: usize,
    step: &WalkStep,
) -> Result<(), OutOfMemory>
    ensures { OnOk result (text.new ≡ text.old ++ stack_step_text (known_found walker.now.known) walker.now.folder walker.now.core.modules number step.now) }
{
    add_head(alloc, text, walker, number, step)?;
    add_names(text, walker, step)
}

/// Adds the lines of the steps from `first` up to `end`.
fn add_between(
    alloc: Global,
    text: &mut SharedText,
    walker: &StackWalker<'_>,
    steps: &[WalkStep],
    first: usize,
    end: usize,
) -> Result<(), OutOfMemory>
    requires order { first ≤ end }
    requires within { end ≤ length steps.now }
    ensures { OnOk result (text.new ≡ text.old ++ stack_steps_text (known_found walker.now.known) walker.now.folder walker.now.core.modules first (take (end - first) (drop first steps.now))) }
{
    'steps: for number in first..end {
        add_step(alloc, text, walker, number, &steps[number])?;
    }
    Ok(())
}

/// Adds the steps that are shown.
#[tactic(auto, using(crate::proofs::StacksTextLemmas::shown_all, crate::proofs::StacksTextLemmas::shown_ends))]
fn add_shown(
    alloc: Global,
    text: &mut SharedText,
    walker: &StackWalker<'_>,
    steps: &[WalkStep],
) -> Result<(), OutOfMemory>
    ensures { OnOk result (text.new ≡ text.old ++ shown_steps (known_found walker.now.known) walker.now.folder walker.now.core.modules steps.now) }
{
    let count = steps.len();
    if count <= SHOWN {
        return add_between(alloc, text, walker, steps, 0, count);
    }
    add_between(alloc, text, walker, steps, 0, ENDS)?;
    add_count(alloc, text, b"skipped", count - SHOWN)?;
    add_between(alloc, text, walker, steps, count - ENDS, count)
}

/// Adds the lines of a thread.
#[tactic(auto, unfolding(crate::specs::StacksText::thread_text))]
fn add_thread(
    alloc: Global,
    text: &mut SharedText,
    walker: &StackWalker<'_>,
    number: u32,
    walk: &Walk,
) -> Result<(), OutOfMemory>
    ensures { OnOk result (text.new ≡ text.old ++ thread_text (known_found walker.now.known) walker.now.folder walker.now.core.modules number walk.now) }
{
    add_count(alloc, text, b"thread", number as usize)?;
    add_shown(alloc, text, walker, walk.steps.as_slice())?;
    add_end_line(alloc, text, walk.end)
}

/// A thread.
fn thread_at(walker: &StackWalker<'_>, place: usize) -> Thread
    requires { place < length walker.now.core.threads }
    ensures { slice_get walker.now.core.threads place ≡ Some result }
{
    walker.core().threads()[place]
}

/// Walks through the threads, and adds their lines.
fn add_threads<S: Store>(
    alloc: Global,
    store: &mut S,
    walker: &mut StackWalker<'_>,
    text: &mut SharedText,
    said: &mut SaidLines,
) -> Result<(), OutOfMemory>
    ensures same { (walker.new.core ≡ walker.old.core) × (walker.new.folder ≡ walker.old.folder) }
    ensures asks { AsksFresh (IsPathOf walker.old) (seen_in walker.old.known) (S.asked store.old) (S.asked store.new) }
    ensures files { S.files store.new ≡ S.files store.old }
    ensures faults { S.faults store.old ≤ S.faults store.new }
    ensures learns { OnOk result (Learns (IsPathOf walker.old) (S.files store.old) (S.asked store.old) (S.asked store.new) (S.faults store.old) (S.faults store.new) (seen_in walker.old.known) (seen_in walker.new.known)) }
    ensures spelled { OnOk result ((lines : List (List ℕ)) → HasSaid said.old lines → HasSpelled (seen_in walker.new.known) walker.old.folder walker.old.core walker.old.core.threads text.old text.new said.new lines) }
{
    let count = walker.core().threads().len();
    'threads: for place in 0..count {
        let thread = thread_at(walker, place);
        let walk = walker.walk(alloc, store, &thread)?;
        say_lacks(alloc, said, walker, walk.steps.as_slice())?;
        add_thread(alloc, text, walker, thread.number, &walk)?;
    }
    Ok(())
}

/// The stacks of all threads, as two texts. Symbol files are asked for when steps need them.
pub fn spell_stacks<S: Store>(
    alloc: Global,
    store: &mut S,
    walker: &mut StackWalker<'_>,
) -> Result<StacksText, OutOfMemory>
    ensures same { (walker.new.core ≡ walker.old.core) × (walker.new.folder ≡ walker.old.folder) }
    ensures asks { AsksFresh (IsPathOf walker.old) (seen_in walker.old.known) (S.asked store.old) (S.asked store.new) }
    ensures files { S.files store.new ≡ S.files store.old }
    ensures faults { S.faults store.old ≤ S.faults store.new }
    ensures learns { OnOk result (Learns (IsPathOf walker.old) (S.files store.old) (S.asked store.old) (S.asked store.new) (S.faults store.old) (S.faults store.new) (seen_in walker.old.known) (seen_in walker.new.known)) }
    ensures out { IfOk result (λ texts. (got : Files) → Agrees got (seen_in walker.new.known) → texts.out ≡ stacks_text got walker.old.folder walker.old.core) }
    ensures err { IfOk result (λ texts. (got : Files) → Agrees got (seen_in walker.new.known) → texts.err ≡ lacks_text got walker.old.folder walker.old.core) }
{
    let mut text = SharedText::new(alloc);
    add_signal(alloc, &mut text, walker.core().threads())?;
    add_modules(alloc, &mut text, walker)?;
    let mut said = SaidLines::new(alloc);
    add_threads(alloc, store, walker, &mut text, &mut said)?;
    Ok(StacksText {
        out: text,
        err: said.into_text(),
    })
}
