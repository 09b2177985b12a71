//! The lines of a frame.
ghost use Rattle.std.specs.Prelude.{◌≡◌, ◌++◌, ◌<◌, IfOk, OnOk};
ghost use Rattle.std.specs.List.{slice_index_or};
ghost use Rattle.cfi_eval.specs.declared.outcome.Outcome.TheVariants.{Undefined};
ghost use Rattle.stack_text.specs.FrameText.{short_name, cause_text, outcome_text, outcome_line, registers_text, frame_or_none};

use crate::lines::add_hex;
use cfi_eval::{Cause, Frame, Outcome};
use std::alloc::{AllocError, Global};
use sym_records::ByteText;
use sym_rules::register_name;

/// The name of a register without `$`; 16 is rip.
#[tactic(auto, unfolding(crate::specs::FrameText::short_name))]
pub fn short_name(register: u8) -> &'static [u8]
    ensures { result.now ≡ short_name register }
{
    if register == 16 {
        return b"rip";
    }
    let name = register_name(register);
    if name.is_empty() {
        return name;
    }
    name.split_at(1).1
}

/// Adds why a rule has no value.
pub(crate) fn add_cause(text: &mut Vec<u8>, cause: Cause) -> Result<(), AllocError>
    ensures { OnOk result (text.new.items ≡ text.old.items ++ cause_text cause) }
{
    match cause {
        Cause::Missing(register) => {
            text.extend_from_slice(b"missing ")?;
            text.extend_from_slice(short_name(register))
        }
        Cause::Unreadable(address) => {
            text.extend_from_slice(b"unreadable ")?;
            add_hex(text, address)
        }
        Cause::Divide => text.extend_from_slice(b"divide"),
        Cause::Align => text.extend_from_slice(b"align"),
        Cause::Stack => text.extend_from_slice(b"stack"),
        Cause::UnknownName => text.extend_from_slice(b"unknown"),
        Cause::NoCfa => text.extend_from_slice(b"no-cfa"),
    }
}

/// Adds a value, or why there is none.
fn add_outcome(text: &mut Vec<u8>, outcome: Outcome) -> Result<(), AllocError>
    ensures { OnOk result (text.new.items ≡ text.old.items ++ outcome_text outcome) }
{
    match outcome {
        Outcome::Value(value) => add_hex(text, value),
        Outcome::Undefined => text.extend_from_slice(b"undefined"),
        Outcome::Failed(cause) => {
            text.extend_from_slice(b"failed ")?;
            add_cause(text, cause)
        }
    }
}

/// Adds the line of a name and an outcome.
fn add_outcome_line(text: &mut Vec<u8>, name: &[u8], outcome: Outcome) -> Result<(), AllocError>
    ensures { OnOk result (text.new.items ≡ text.old.items ++ outcome_line name.now outcome) }
{
    text.extend_from_slice(name)?;
    text.push(b' ')?;
    add_outcome(text, outcome)?;
    text.push(b'\n')?;
    Ok(())
}

/// What a register evaluates to.
fn outcome_of(frame: &Frame, register: u8) -> Outcome
    requires { register < 16 }
    ensures { result ≡ slice_index_or frame.now.regs register Undefined }
{
    frame.regs[usize::from(register)]
}

/// Adds the lines of the registers.
#[tactic(auto, using(crate::proofs::FrameTextLemmas::no_registers, crate::proofs::FrameTextLemmas::one_register))]
fn add_registers(text: &mut Vec<u8>, frame: &Frame) -> Result<(), AllocError>
    ensures { OnOk result (text.new.items ≡ text.old.items ++ registers_text frame.now 16) }
{
    'registers: for register in 0..16u8 {
        let name = short_name(register);
        let outcome = outcome_of(frame, register);
        add_outcome_line(text, name, outcome)?;
    }
    Ok(())
}

/// The eighteen lines, or `none`.
pub fn spell_frame(alloc: Global, frame: Option<Frame>) -> Result<ByteText, AllocError>
    ensures { IfOk result (λ text. text ≡ frame_or_none frame) }
{
    let mut text = Vec::new(alloc);
    match frame {
        None => text.extend_from_slice(b"none\n")?,
        Some(frame) => {
            add_outcome_line(&mut text, b"cfa", frame.cfa)?;
            add_outcome_line(&mut text, b"ra", frame.ra)?;
            add_registers(&mut text, &frame)?;
        }
    }
    Ok(ByteText::of(text))
}
