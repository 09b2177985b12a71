//! The lines of modules whose records are missing.
ghost use Rattle.std.specs.Prelude.{◌≡◌, ◌<◌, ◌++◌, ◌∷◌, [], ℕ, List, map, length, slice_get, codes, decimal, IfSome, IfOk, OnOk};
ghost use Rattle.sym_records.specs.Canon.{spaced};
ghost use Rattle.stack_text.specs.Lines.{line};
ghost use Rattle.module_stacks.specs.Symbols.{name_of, holder_of};
ghost use Rattle.module_stacks.specs.Walking.{known_found};
ghost use Rattle.stack_text.specs.StacksText.{id_word, lack_line, lack_in, steps_lacks};
ghost use Rattle.stack_text.specs.internal.SaidLines.{HasSaid};

use crate::lines::{add_line, add_words};
use crate::said_lines::SaidLines;
use itoa::Buffer;
use module_stacks::{Lack, StackWalker};
use stack_walk::WalkStep;
use std::alloc::{AllocError, Global};
use sym_edges::OutOfMemory;
use sym_grammar::SymRefusal;

/// The id that the MODULE of a module's symbol file must have, or `-`.
pub(crate) fn id_word<'w>(walker: &'w StackWalker<'_>, place: usize) -> &'w [u8]
    requires { place < length walker.now.core.modules }
    ensures { IfSome (slice_get walker.now.core.modules place) (λ m. result.now ≡ id_word (name_of walker.now.folder m)) }
{
    match walker.id_of(place) {
        None => b"-",
        Some(id) => id,
    }
}

/// The name of a module.
fn name_of<'w>(walker: &'w StackWalker<'_>, place: usize) -> &'w [u8]
    requires { place < length walker.now.core.modules }
    ensures { IfSome (slice_get walker.now.core.modules place) (λ m. result.now ≡ m.name) }
{
    walker.core().modules()[place].name.as_slice()
}

/// Adds the line of a symbol file that is refused: these words, the reason, and then the other
/// words.
fn add_refused(
    text: &mut Vec<u8>,
    words: &[&[u8]],
    why: &'static [u8],
    rest: &[&[u8]],
) -> Result<(), AllocError>
    ensures { OnOk result (text.new.items ≡ text.old.items ++ (spaced (codes "refused") (map (λ word. word.now) words.now) ++ 32 ∷ line (spaced why.now (map (λ word. word.now) rest.now)))) }
{
    add_words(text, b"refused", words)?;
    text.push(b' ')?;
    add_line(text, why, rest)
}

/// The line of a module whose records are missing.
fn lack_line(
    alloc: Global,
    walker: &StackWalker<'_>,
    place: usize,
    lack: Lack,
) -> Result<Vec<u8>, AllocError>
    requires { place < length walker.now.core.modules }
    ensures { IfOk result (λ found. IfSome (slice_get walker.now.core.modules place) (λ m. found.items ≡ lack_line walker.now.folder m lack)) }
{
    let mut text = Vec::new(alloc);
    let words = [name_of(walker, place), id_word(walker, place)];
    match lack {
        Lack::NoBuildId => add_line(&mut text, b"missing", &words[..1])?,
        Lack::Missing => add_line(&mut text, b"missing", &words)?,
        Lack::Refused(SymRefusal::TooLong) => add_refused(&mut text, &words, b"too-long", &[])?,
        Lack::Refused(SymRefusal::Text(fault)) => {
            let mut buffer = Buffer::new();
            let rest = [b"line", buffer.format(fault.line).as_bytes()];
            add_refused(&mut text, &words, fault.kind.word(), &rest)?;
        }
        Lack::OtherModule => add_refused(&mut text, &words, b"other-module", &[])?,
    }
    Ok(text)
}

/// Adds the line about missing records for the module of a step, if its records are missing.
fn say_lack(
    alloc: Global,
    said: &mut SaidLines,
    walker: &StackWalker<'_>,
    step: &WalkStep,
) -> Result<(), OutOfMemory>
    ensures { OnOk result ((lines : List (List ℕ)) → HasSaid said.old lines → HasSaid said.new (lines ++ lack_in (known_found walker.now.known) walker.now.folder (holder_of walker.now.core.modules step.now.at))) }
{
    let Some(place) = walker.module_at(step.at) else {
        return Ok(());
    };
    match walker.symbols(place) {
        Ok(_) => Ok(()),
        Err(lack) => {
            let line = lack_line(alloc, walker, place, lack)?;
            said.say(line)
        }
    }
}

/// Adds the lines about missing records for the modules of all steps.
pub(crate) fn say_lacks(
    alloc: Global,
    said: &mut SaidLines,
    walker: &StackWalker<'_>,
    steps: &[WalkStep],
) -> Result<(), OutOfMemory>
    ensures { OnOk result ((lines : List (List ℕ)) → HasSaid said.old lines → HasSaid said.new (lines ++ steps_lacks (known_found walker.now.known) walker.now.folder walker.now.core.modules steps.now)) }
{
    'steps: for step in steps {
        say_lack(alloc, said, walker, step)?;
    }
    Ok(())
}
