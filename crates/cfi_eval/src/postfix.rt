//! The values of rules: postfix expressions, evaluated with a stack.
ghost use Rattle.std.specs.Prelude.{◌≡◌, ◌∷◌, reverse, Ok, Err, MatchResult, IfOk};
ghost use Rattle.cfi_eval.specs.Postfix.{register_value, name_value, cfa_value, word_value, quotient_of, remainder_of, multiple_of, with_token, one_value, rule_value};
ghost use Rattle.cfi_eval.specs.internal.Stacks.{HasNoTwo, HasNone, is_undefined};

use crate::byte_memory::{ByteMemory, read_word};
use crate::outcome::{Cause, Outcome};
use crate::registers::Regs;
use std::alloc::Global;
use sym_edges::OutOfMemory;
use sym_rules::Token;

/// The value of a register by its DWARF number.
#[tactic(auto, unfolding(crate::specs::Postfix::register_value))]
pub(crate) fn register_value(regs: &Regs, register: u8) -> Result<u64, Cause>
    ensures { result ≡ register_value regs.now register }
{
    match regs.values.get(usize::from(register)) {
        Some(Some(value)) => Ok(*value),
        _ => Err(Cause::Missing(register)),
    }
}

/// The value of a name that is not one of the sixteen registers.
#[tactic(auto, unfolding(crate::specs::Postfix::name_value))]
fn name_value(regs: &Regs, name: &[u8]) -> Result<u64, Cause>
    ensures { result ≡ name_value regs.now name.now }
{
    if name != b"$rip".as_slice() {
        return Err(Cause::UnknownName);
    }
    match regs.rip {
        Some(value) => Ok(value),
        None => Err(Cause::Missing(16)),
    }
}

/// The value of `.cfa`. It has none inside its own rule.
fn cfa_value(cfa: Option<Outcome>) -> Result<u64, Cause>
    ensures { result ≡ cfa_value cfa }
{
    match cfa {
        None => Err(Cause::UnknownName),
        Some(Outcome::Value(value)) => Ok(value),
        Some(Outcome::Undefined) => Err(Cause::NoCfa),
        Some(Outcome::Failed(why)) => Err(why),
    }
}

/// The word in memory at an address.
#[tactic(auto, unfolding(crate::specs::Postfix::word_value))]
fn word_value<M: ByteMemory>(memory: &M, a: u64) -> Result<u64, Cause>
    ensures { result ≡ word_value (M.runs memory.now) a }
{
    match read_word(memory, a) {
        Some(word) => Ok(word),
        None => Err(Cause::Unreadable(a)),
    }
}

fn quotient(a: u64, b: u64) -> Result<u64, Cause>
    ensures { result ≡ quotient_of a b }
{
    if b == 0 {
        return Err(Cause::Divide);
    }
    Ok(a / b)
}

fn remainder(a: u64, b: u64) -> Result<u64, Cause>
    ensures { result ≡ remainder_of a b }
{
    if b == 0 {
        return Err(Cause::Divide);
    }
    Ok(a % b)
}

/// The greatest multiple of `b` that is at most `a`; `b` must be a power of two.
fn multiple(a: u64, b: u64) -> Result<u64, Cause>
    ensures { result ≡ multiple_of a b }
{
    if !b.is_power_of_two() {
        return Err(Cause::Align);
    }
    Ok(a - a % b)
}

/// Pops the value on top of the stack.
fn pop_one(stack: &mut Vec<u64>) -> Result<u64, Cause>
    ensures { MatchResult result
        (λ a. reverse stack.old.items ≡ a ∷ reverse stack.new.items)
        (λ why. (why ≡ Cause.Stack) × HasNone stack.old.items) }
{
    match stack.pop() {
        Some(a) => Ok(a),
        None => Err(Cause::Stack),
    }
}

/// Pops the two values on top of the stack, and returns them in the order in which they were
/// pushed.
#[tactic(auto, using(crate::proofs::StackLemmas::none_no_two, crate::proofs::StackLemmas::one_no_two))]
fn pop_two(stack: &mut Vec<u64>) -> Result<(u64, u64), Cause>
    ensures { MatchResult result
        (λ two. reverse stack.old.items ≡ two.1 ∷ two.0 ∷ reverse stack.new.items)
        (λ why. (why ≡ Cause.Stack) × HasNoTwo stack.old.items) }
{
    let b = pop_one(stack)?;
    let a = pop_one(stack)?;
    Ok((a, b))
}

/// Pops the operands of a word, and returns the value that the word pushes.
#[tactic(auto, unfolding(crate::specs::Postfix::with_token))]
fn token_value<M: ByteMemory>(
    token: &Token,
    stack: &mut Vec<u64>,
    regs: &Regs,
    cfa: Option<Outcome>,
    memory: &M,
) -> Result<u64, Cause>
    ensures { MatchResult result
        (λ value. with_token regs.now (M.runs memory.now) cfa token.now (reverse stack.old.items) ≡ Ok (value ∷ reverse stack.new.items))
        (λ why. with_token regs.now (M.runs memory.now) cfa token.now (reverse stack.old.items) ≡ Err why) }
{
    match token {
        Token::Number(n) => Ok(n.cast_unsigned()),
        Token::Reg(register) => register_value(regs, *register),
        Token::Cfa => cfa_value(cfa),
        Token::Undef => Err(Cause::UnknownName),
        Token::Other(name) => name_value(regs, name.as_slice()),
        Token::Add => {
            let (a, b) = pop_two(stack)?;
            Ok(a.wrapping_add(b))
        }
        Token::Sub => {
            let (a, b) = pop_two(stack)?;
            Ok(a.wrapping_sub(b))
        }
        Token::Mul => {
            let (a, b) = pop_two(stack)?;
            Ok(a.wrapping_mul(b))
        }
        Token::Div => {
            let (a, b) = pop_two(stack)?;
            quotient(a, b)
        }
        Token::Rem => {
            let (a, b) = pop_two(stack)?;
            remainder(a, b)
        }
        Token::Align => {
            let (a, b) = pop_two(stack)?;
            multiple(a, b)
        }
        Token::Fetch => {
            let a = pop_one(stack)?;
            word_value(memory, a)
        }
    }
}

/// The value that is left at the end. It must be the only one.
fn one_value(stack: &[u64]) -> Outcome
    ensures { result ≡ one_value (reverse stack.now) }
{
    match stack {
        [value] => Outcome::Value(*value),
        _ => Outcome::Failed(Cause::Stack),
    }
}

/// Whether `.undef` is the only word.
fn is_undefined(tokens: &[Token]) -> bool
    ensures { result ≡ is_undefined tokens.now }
{
    match tokens {
        [Token::Undef] => true,
        _ => false,
    }
}

/// The value of a rule's words (Breakpad's symbol_files.md, "STACK CFI"). `cfa` is the result of
/// the rule of `.cfa`, and `None` inside that rule. A register with a number above 15 has no value.
/// Memory is allocated only for the stack of values.
#[tactic(auto, unfolding(crate::specs::Postfix::rule_value))]
pub fn eval<M: ByteMemory>(
    alloc: Global,
    tokens: &[Token],
    regs: &Regs,
    cfa: Option<Outcome>,
    memory: &M,
) -> Result<Outcome, OutOfMemory>
    ensures { IfOk result (λ outcome. outcome ≡ rule_value regs.now (M.runs memory.now) cfa tokens.now) }
{
    if is_undefined(tokens) {
        return Ok(Outcome::Undefined);
    }
    let mut stack = Vec::new(alloc);
    'tokens: for token in tokens {
        match token_value(token, &mut stack, regs, cfa, memory) {
            Ok(value) => stack.push(value)?,
            Err(why) => return Ok(Outcome::Failed(why)),
        }
    }
    Ok(one_value(stack.as_slice()))
}
