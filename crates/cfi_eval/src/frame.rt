//! The values that the rules of a symbol file give at an address.
ghost use Rattle.std.specs.Prelude.{◌≡◌, ◌<◌, Some, IfOk};
ghost use Rattle.sym_edges.specs.Abi.{is_kept, default_of};
ghost use Rattle.cfi_eval.specs.Inits.{init_place};
ghost use Rattle.cfi_eval.specs.TextValue.{outcome_of, default_value, text_cfa, text_ra, text_register, frame_of, text_frame};

use crate::byte_memory::ByteMemory;
use crate::outcome::{Cause, Frame, Outcome};
use crate::postfix::{eval, register_value};
use crate::registers::Regs;
use crate::rules::{RulesAt, init_at};
use std::alloc::Global;
use sym_edges::OutOfMemory;
use sym_records::SymFile;
use sym_rules::Target;

/// The value of the CFA.
#[tactic(auto, unfolding(crate::specs::TextValue::text_cfa))]
fn cfa_at<M: ByteMemory>(
    alloc: Global,
    rules: &RulesAt<'_>,
    regs: &Regs,
    memory: &M,
) -> Result<Outcome, OutOfMemory>
    ensures { IfOk result (λ cfa. cfa ≡ text_cfa regs.now (M.runs memory.now) rules.now) }
{
    match rules.tokens(&Target::Cfa) {
        None => Ok(Outcome::Undefined),
        Some(tokens) => eval(alloc, tokens.as_slice(), regs, None, memory),
    }
}

/// The value of the return address.
#[tactic(auto, unfolding(crate::specs::TextValue::text_ra))]
fn ra_at<M: ByteMemory>(
    alloc: Global,
    rules: &RulesAt<'_>,
    regs: &Regs,
    memory: &M,
    cfa: Outcome,
) -> Result<Outcome, OutOfMemory>
    requires { cfa ≡ text_cfa regs.now (M.runs memory.now) rules.now }
    ensures { IfOk result (λ ra. ra ≡ text_ra regs.now (M.runs memory.now) rules.now) }
{
    match rules.tokens(&Target::Ra) {
        None => Ok(Outcome::Undefined),
        Some(tokens) => eval(alloc, tokens.as_slice(), regs, Some(cfa), memory),
    }
}

/// Whether a call preserves the register; rsp is treated separately.
#[tactic(auto, unfolding(sym_edges::specs::Abi::is_kept))]
fn is_kept(register: u8) -> bool
    ensures { result ≡ is_kept register }
{
    register == 3 || register == 6 || (12 <= register && register <= 15)
}

fn outcome_of(value: Result<u64, Cause>) -> Outcome
    ensures { result ≡ outcome_of value }
{
    match value {
        Ok(value) => Outcome::Value(value),
        Err(why) => Outcome::Failed(why),
    }
}

/// The value of a register without a rule.
#[tactic(auto, unfolding(sym_edges::specs::Abi::default_of))]
fn default_value(regs: &Regs, cfa: Outcome, register: u8) -> Outcome
    ensures { result ≡ default_value regs.now cfa (default_of register) register }
{
    if is_kept(register) {
        outcome_of(register_value(regs, register))
    } else if register == 7 {
        cfa
    } else {
        Outcome::Undefined
    }
}

/// The value of a register.
#[tactic(auto, unfolding(crate::specs::TextValue::text_register))]
fn register_at<M: ByteMemory>(
    alloc: Global,
    rules: &RulesAt<'_>,
    regs: &Regs,
    memory: &M,
    cfa: Outcome,
    register: u8,
) -> Result<Outcome, OutOfMemory>
    requires cfa { cfa ≡ text_cfa regs.now (M.runs memory.now) rules.now }
    requires few { register < 16 }
    ensures { IfOk result (λ value. value ≡ text_register regs.now (M.runs memory.now) rules.now register) }
{
    match rules.tokens(&Target::Reg(register)) {
        None => Ok(default_value(regs, cfa, register)),
        Some(tokens) => eval(alloc, tokens.as_slice(), regs, Some(cfa), memory),
    }
}

/// The values that rules give: the CFA, the return address and the caller's registers (Breakpad's
/// symbol_files.md, "STACK CFI").
#[tactic(auto, unfolding(crate::specs::TextValue::frame_of))]
pub fn frame_of<M: ByteMemory>(
    alloc: Global,
    rules: &RulesAt<'_>,
    regs: &Regs,
    memory: &M,
) -> Result<Frame, OutOfMemory>
    ensures { IfOk result (λ frame. frame ≡ frame_of regs.now (M.runs memory.now) rules.now) }
{
    let cfa = cfa_at(alloc, rules, regs, memory)?;
    let ra = ra_at(alloc, rules, regs, memory, cfa)?;
    let mut values = [Outcome::Undefined; 16];
    'registers: for register in 0..16u8 {
        values[usize::from(register)] = register_at(alloc, rules, regs, memory, cfa, register)?;
    }
    Ok(Frame {
        cfa,
        ra,
        regs: values,
    })
}

/// The values at an address, given the index of the first INIT that covers it.
#[tactic(auto, unfolding(crate::specs::TextValue::text_frame))]
pub fn frame_from<M: ByteMemory>(
    alloc: Global,
    file: &SymFile,
    init: usize,
    address: u64,
    regs: &Regs,
    memory: &M,
) -> Result<Frame, OutOfMemory>
    requires { init_place file.now address ≡ Some init }
    ensures { IfOk result (λ frame. text_frame file.now address regs.now (M.runs memory.now) ≡ Some frame) }
{
    let rules = RulesAt::of(file.as_slice(), init, address);
    frame_of(alloc, &rules, regs, memory)
}

/// The values at an address (Breakpad's symbol_files.md, "STACK CFI"). The rules are those of the
/// first INIT that covers it and of the changes directly after that INIT, up to the address. A
/// later rule overrides an earlier one. `None` if no INIT covers the address.
pub fn frame_at<M: ByteMemory>(
    alloc: Global,
    file: &SymFile,
    address: u64,
    regs: &Regs,
    memory: &M,
) -> Result<Option<Frame>, OutOfMemory>
    ensures { IfOk result (λ frame. frame ≡ text_frame file.now address regs.now (M.runs memory.now)) }
{
    match init_at(file, address) {
        None => Ok(None),
        Some(init) => Ok(Some(frame_from(alloc, file, init, address, regs, memory)?)),
    }
}
