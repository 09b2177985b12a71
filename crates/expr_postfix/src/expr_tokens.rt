//! The words of expressions.
ghost use Rattle.std.specs.Prelude.{◌≡◌, ◌≤◌, ◌++◌, length, [], ◌∷◌, codes, true, List, Some, None, is_some, IfOk, OnOk};
ghost use Rattle.sym_edges.specs.Outside.{MatchStop};
ghost use Rattle.sym_edges.specs.declared.reason.Reason.TheVariants.{Expression};
ghost use Rattle.expr_steps.specs.declared.step.Step.TheVariants as step;
ghost use Rattle.expr_steps.specs.Steps.{steps};
ghost use Rattle.expr_postfix.specs.ExprTokens.{number, register_token, step_tokens, steps_tokens, expr_tokens, rule_tokens};
ghost use Rattle.cfi_eval.specs.declared.registers.Regs.{Regs};
ghost use Rattle.cfi_eval.specs.declared.memory.MemRun.{MemRun};
ghost use Rattle.cfi_eval.specs.declared.outcome.Outcome.{Outcome};
ghost use Rattle.cfi_eval.specs.Postfix.{rule_value};
ghost use Rattle.expr_postfix.specs.ExprValue.{expr_value};
ghost use Rattle.expr_postfix.specs.internal.Adding.{first_tokens, added};

use expr_steps::{Standing, Step, StepReader, find_standing};
use std::alloc::Global;
use sym_edges::{ByteRun, OutOfMemory, Reason, Stop};
use sym_rules::{RuleName, Token, Tokens};

/// A number as a signed integer of 64 bits.
#[tactic(auto, using(crate::proofs::TokenLemmas::small_number))]
fn number(value: u64) -> Token
    ensures { result ≡ number value }
{
    Token::Number(value.cast_signed())
}

/// The name of rip.
fn rip_name(alloc: Global) -> Result<RuleName, OutOfMemory>
    ensures { IfOk result (λ name. name ≡ codes "$rip") }
{
    let mut text = Vec::new(alloc);
    text.extend_from_slice(b"$rip")?;
    RuleName::of(alloc, ByteRun::of(text))
}

/// The name of a register.
fn register_token(alloc: Global, register: u8) -> Result<Token, OutOfMemory>
    ensures { IfOk result (λ token. token ≡ register_token register) }
{
    if register == 16 {
        return Ok(Token::Other(rip_name(alloc)?));
    }
    Ok(Token::Reg(register))
}

/// Adds the words of a register with an offset.
fn add_register(
    alloc: Global,
    words: &mut Vec<Token>,
    register: u8,
    offset: i64,
) -> Result<(), OutOfMemory>
    ensures { OnOk result (words.new.items ≡ words.old.items ++ step_tokens (step.Register register offset)) }
{
    words.push(register_token(alloc, register)?)?;
    words.push(Token::Number(offset))?;
    words.push(Token::Add)?;
    Ok(())
}

/// Adds a number and an operator.
fn add_number(words: &mut Vec<Token>, value: u64, sign: Token) -> Result<(), OutOfMemory>
    ensures { OnOk result (words.new.items ≡ words.old.items ++ number value ∷ sign ∷ []) }
{
    words.push(number(value))?;
    words.push(sign)?;
    Ok(())
}

fn add_word(words: &mut Vec<Token>, word: Token) -> Result<(), OutOfMemory>
    ensures { OnOk result (words.new.items ≡ words.old.items ++ word ∷ []) }
{
    words.push(word)?;
    Ok(())
}

/// Adds the words of a comparison.
#[tactic(auto, using(crate::proofs::TokenLemmas::adds_comparison))]
fn add_comparison(words: &mut Vec<Token>, lift: u64, size: u64) -> Result<(), OutOfMemory>
    ensures { OnOk result (words.new.items ≡ words.old.items ++ step_tokens (step.Reaches lift size)) }
{
    add_number(words, lift, Token::Add)?;
    add_number(words, size, Token::Div)
}

/// Adds the words of a step.
fn add_step(alloc: Global, words: &mut Vec<Token>, step: Step) -> Result<(), OutOfMemory>
    ensures { OnOk result (words.new.items ≡ words.old.items ++ step_tokens step) }
{
    match step {
        Step::Constant { value } => add_word(words, number(value)),
        Step::Register { register, offset } => add_register(alloc, words, register, offset),
        Step::Fetch => add_word(words, Token::Fetch),
        Step::Add => add_word(words, Token::Add),
        Step::Subtract => add_word(words, Token::Sub),
        Step::Multiply => add_word(words, Token::Mul),
        Step::AddConstant { addend } => add_number(words, addend, Token::Add),
        Step::Remainder { size } => add_number(words, size, Token::Rem),
        Step::Product { factor } => add_number(words, factor, Token::Mul),
        Step::Reaches { lift, size } => add_comparison(words, lift, size),
    }
}

/// Adds the words of all steps of an expression that is made of steps.
#[tactic(auto, using(crate::proofs::TokenLemmas::adds_more, crate::proofs::TokenLemmas::adds_all, crate::proofs::TokenLemmas::fewer, crate::proofs::TokenLemmas::still_made, crate::proofs::TokenLemmas::made_not))]
fn add_steps(alloc: Global, words: &mut Vec<Token>, expr: &[u8]) -> Result<(), OutOfMemory>
    requires made { is_some (steps expr.now) ≡ true }
    ensures { OnOk result (added (steps expr.now) words.old.items ≡ Some words.new.items) }
{
    let mut reader = StepReader::new(expr);
    'steps: loop {
        match reader.next() {
            Ok(Some(step)) => add_step(alloc, words, step)?,
            Ok(None) => return Ok(()),
            Err(_) => return Ok(()),
        }
    }
}

/// The words that come before those of the steps: none, or `.cfa`.
fn first_words(alloc: Global, standing: Standing) -> Result<Vec<Token>, OutOfMemory>
    ensures { IfOk result (λ words. words.items ≡ first_tokens standing) }
{
    let mut words = Vec::new(alloc);
    match standing {
        Standing::Free => {}
        Standing::OverCfa => words.push(Token::Cfa)?,
    }
    Ok(words)
}

/// The words of an expression, in a list that may grow.
#[tactic(auto, using(crate::proofs::TokenLemmas::stands_made, crate::proofs::TokenLemmas::words_are, crate::proofs::TokenLemmas::no_words))]
fn words_of(alloc: Global, expr: &[u8], start: bool) -> Result<Vec<Token>, Stop<Reason>>
    ensures { MatchStop result
        (λ words. expr_tokens start expr.now ≡ Some words.items)
        (λ why. (why ≡ Expression) × (expr_tokens start expr.now ≡ None))
        (Unit {0}) }
{
    let Some(standing) = find_standing(expr, start) else {
        return Err(Stop::Fault(Reason::Expression));
    };
    let mut words = first_words(alloc, standing)?;
    add_steps(alloc, &mut words, expr)?;
    Ok(words)
}

/// The words of an expression, at most 1,024, if rule text can express it, and otherwise the fault
/// `Expression`. `start` says that the CFA may be on the stack: it may for `DW_CFA_expression` and
/// `DW_CFA_val_expression`, and not for `DW_CFA_def_cfa_expression`. Allocates memory only for the
/// words.
#[tactic(auto, using(crate::proofs::WholeLemmas::value_with_cfa, crate::proofs::FitLemmas::words_few))]
pub fn tokens(alloc: Global, expr: &[u8], start: bool) -> Result<Tokens, Stop<Reason>>
    ensures exact { MatchStop result
        (λ words. expr_tokens start expr.now ≡ Some words)
        (λ why. (why ≡ Expression) × (expr_tokens start expr.now ≡ None))
        (Unit {0}) }
    ensures few { IfOk result (λ words. length words ≤ 1024) }
    ensures value { IfOk result (λ words. (regs : Regs) (memory : List MemRun) (cfa : Outcome) →
        rule_value regs memory (Some cfa) words ≡ expr_value regs memory cfa start expr.now) }
{
    match words_of(alloc, expr, start) {
        Ok(words) => Ok(Tokens::of(words)),
        Err(stop) => Err(stop),
    }
}

/// The words of a rule, given an expression: those of `tokens`, followed by `^` if the rule fetches the word at the expression's value.
#[tactic(auto, unfolding(crate::specs::ExprTokens::rule_tokens))]
pub fn rule_tokens(
    alloc: Global,
    expr: &[u8],
    start: bool,
    fetch: bool,
) -> Result<Tokens, Stop<Reason>>
    ensures { MatchStop result
        (λ words. rule_tokens start fetch expr.now ≡ Some words)
        (λ why. (why ≡ Expression) × (rule_tokens start fetch expr.now ≡ None))
        (Unit {0}) }
{
    let mut words = words_of(alloc, expr, start)?;
    if fetch {
        words.push(Token::Fetch)?;
    }
    Ok(Tokens::of(words))
}
