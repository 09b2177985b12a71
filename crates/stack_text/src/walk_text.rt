//! The lines of a walk.
ghost use Rattle.std.specs.Prelude.{◌≡◌, ◌++◌, IfOk, OnOk};
ghost use Rattle.sym_lookup.specs.IndexOf.{IsIndexOf};
ghost use Rattle.stack_text.specs.WalkText.{step_head, step_text, steps_text, end_text, end_line, walk_text};

use crate::frame_text::add_cause;
use crate::lines::{add_hex, share_line};
use itoa::Buffer;
use stack_walk::{Walk, WalkEnd, WalkStep};
use std::alloc::{AllocError, Global};
use sym_edges::OutOfMemory;
use sym_lookup::{Index, SharedText};
use sym_records::{HexText, SymFile};

/// Adds the line of a step's number and address.
fn add_head(
    alloc: Global,
    text: &mut SharedText,
    number: usize,
    rip: u64,
) -> Result<(), OutOfMemory>
    ensures { OnOk result (text.new ≡ text.old ++ step_head number rip) }
{
    let mut buffer = Buffer::new();
    let rip = HexText::of(rip);
    let words = [rip.as_slice()];
    share_line(alloc, text, buffer.format(number).as_bytes(), &words)
}

/// Adds the lines of a step.
fn add_step(
    alloc: Global,
    text: &mut SharedText,
    file: &SymFile,
    index: &Index,
    number: usize,
    step: &WalkStep,
) -> Result<(), OutOfMemory>
    requires { IsIndexOf file.now index.now }
    ensures { OnOk result (text.new ≡ text.old ++ step_text file.now number step.now) }
{
    add_head(alloc, text, number, step.rip)?;
    index.add_answer(text, file, &step.answer)
}

/// Adds the lines of all steps.
fn add_steps(
    alloc: Global,
    text: &mut SharedText,
    file: &SymFile,
    index: &Index,
    steps: &[WalkStep],
) -> Result<(), OutOfMemory>
    requires { IsIndexOf file.now index.now }
    ensures { OnOk result (text.new ≡ text.old ++ steps_text file.now 0 steps.now) }
{
    'steps: for number in 0..steps.len() {
        add_step(alloc, text, file, index, number, &steps[number])?;
    }
    Ok(())
}

/// Adds why a walk ends.
fn add_end(text: &mut Vec<u8>, end: WalkEnd) -> Result<(), AllocError>
    ensures { OnOk result (text.new.items ≡ text.old.items ++ end_text end) }
{
    match end {
        WalkEnd::NoModule => text.extend_from_slice(b"no-module"),
        WalkEnd::NoSymbols => text.extend_from_slice(b"no-symbols"),
        WalkEnd::NoRules => text.extend_from_slice(b"no-rules"),
        WalkEnd::CfaUndefined => text.extend_from_slice(b"cfa-undefined"),
        WalkEnd::CfaFailed(why) => {
            text.extend_from_slice(b"cfa-failed ")?;
            add_cause(text, why)
        }
        WalkEnd::CfaLow { before, cfa } => {
            text.extend_from_slice(b"cfa-low ")?;
            add_hex(text, before)?;
            text.extend_from_slice(b" ")?;
            add_hex(text, cfa)
        }
        WalkEnd::RaUndefined => text.extend_from_slice(b"ra-undefined"),
        WalkEnd::RaFailed(why) => {
            text.extend_from_slice(b"ra-failed ")?;
            add_cause(text, why)
        }
        WalkEnd::RaZero => text.extend_from_slice(b"ra-zero"),
        WalkEnd::Limit => text.extend_from_slice(b"limit"),
    }
}

/// Adds the last line.
pub(crate) fn add_end_line(
    alloc: Global,
    text: &mut SharedText,
    end: WalkEnd,
) -> Result<(), OutOfMemory>
    ensures { OnOk result (text.new ≡ text.old ++ end_line end) }
{
    let mut made = Vec::new(alloc);
    made.extend_from_slice(b"end ")?;
    add_end(&mut made, end)?;
    made.extend_from_slice(b"\n")?;
    text.add(made.as_slice())
}

/// The lines of a walk.
pub fn spell_walk(
    alloc: Global,
    file: &SymFile,
    index: &Index,
    walk: &Walk,
) -> Result<SharedText, OutOfMemory>
    requires { IsIndexOf file.now index.now }
    ensures { IfOk result (λ text. text ≡ walk_text file.now walk.now) }
{
    let mut text = SharedText::new(alloc);
    add_steps(alloc, &mut text, file, index, walk.steps.as_slice())?;
    add_end_line(alloc, &mut text, walk.end)?;
    Ok(text)
}
