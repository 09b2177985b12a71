//! A step, given what is known of its address.
ghost use Rattle.std.specs.Prelude.{◌≡◌, Ok, IfOk};
ghost use Rattle.std.specs.List.{list_any};
ghost use Rattle.cfi_eval.specs.TextRules.{rule_for};
ghost use Rattle.cfi_eval.specs.TextValue.{frame_of};
ghost use Rattle.stack_walk.specs.Walk.{is_rsp, is_cfa, is_signal, is_nowhere, nowhere_rules, rules_at, frame_by, signal_by, answer_by, step_known};

use crate::callers::Place;
use crate::records::Records;
use crate::steps::{WalkEnd, WalkStep};
use cfi_eval::{ByteMemory, Frame, Regs, RulesAt, frame_of};
use std::alloc::Global;
use sym_edges::OutOfMemory;
use sym_lookup::Answer;
use sym_rules::{RuleText, Target, Token, Tokens};

/// What is known of an address of a process.
#[derive(Drop)]
pub struct Known<'k> {
    /// The records of its module, or why there are none.
    pub records: Result<Records<'k>, WalkEnd>,
    pub is_code: bool,
}

/// Whether a token of a rule is `$rsp`.
fn is_rsp(token: &Token) -> bool
    ensures { result ≡ is_rsp token.now }
{
    match token {
        Token::Reg(register) => *register == 7,
        _ => false,
    }
}

/// Whether a token of a rule is `.cfa`.
fn is_cfa(token: &Token) -> bool
    ensures { result ≡ is_cfa token.now }
{
    matches!(token, Token::Cfa)
}

fn reads_rsp(tokens: &[Token]) -> bool
    ensures { result ≡ list_any is_rsp tokens.now }
{
    tokens.iter().any(|token| is_rsp(token))
}

fn reads_cfa(tokens: &[Token]) -> bool
    ensures { result ≡ list_any is_cfa tokens.now }
{
    tokens.iter().any(|token| is_cfa(token))
}

/// Whether rules are those of a signal's frame.
#[tactic(auto, unfolding(crate::specs::Walk::is_signal))]
fn is_signal(rules: &RulesAt<'_>) -> bool
    ensures { result ≡ is_signal rules.now }
{
    match rules.ra() {
        None => false,
        Some(tokens) => reads_rsp(tokens.as_slice()) && !reads_cfa(tokens.as_slice()),
    }
}

/// The rules after a call to an address that is not code.
fn nowhere_rules() -> [RuleText; 2]
    ensures { result ≡ nowhere_rules }
{
    [
        RuleText {
            target: Target::Cfa,
            tokens: Tokens::three(Token::Reg(7), Token::Number(8), Token::Add),
        },
        RuleText {
            target: Target::Ra,
            tokens: Tokens::four(Token::Cfa, Token::Number(-8), Token::Add, Token::Fetch),
        },
    ]
}

/// What the rules at a place evaluate to, and whether they are those of a signal's frame.
#[derive(Clone, Copy)]
struct Evaluated {
    signal: bool,
    frame: Result<Frame, WalkEnd>,
}

fn evaluate<M: ByteMemory>(
    alloc: Global,
    rules: &RulesAt<'_>,
    signals: bool,
    regs: &Regs,
    memory: &M,
) -> Result<Evaluated, OutOfMemory>
    ensures signal { IfOk result (λ found. found.signal ≡ signal_by signals (Ok rules.now)) }
    ensures frame { IfOk result (λ found. found.frame ≡ frame_by regs.now (M.runs memory.now) (Ok rules.now)) }
{
    let frame = frame_of(alloc, rules, regs, memory)?;
    Ok(Evaluated {
        signal: signals && is_signal(rules),
        frame: Ok(frame),
    })
}

/// What the rules at a place evaluate to, given what is known of the address that is looked up.
fn find_rules<M: ByteMemory>(
    alloc: Global,
    known: &Known<'_>,
    memory: &M,
    signals: bool,
    here: &Place,
) -> Result<Evaluated, OutOfMemory>
    ensures signal { IfOk result (λ found. found.signal ≡ signal_by signals (rules_at signals known.now here.now.rip here.now.at)) }
    ensures frame { IfOk result (λ found. found.frame ≡ frame_by here.now.regs (M.runs memory.now) (rules_at signals known.now here.now.rip here.now.at)) }
{
    if signals && here.at == here.rip && !known.is_code {
        let rules = nowhere_rules();
        let rules = RulesAt::plain(&rules);
        return evaluate(alloc, &rules, signals, &here.regs, memory);
    }
    let records = match &known.records {
        Ok(records) => records,
        Err(end) => {
            return Ok(Evaluated {
                signal: false,
                frame: Err(*end),
            });
        }
    };
    match records.rules(here.at) {
        Some(rules) => evaluate(alloc, &rules, signals, &here.regs, memory),
        None => Ok(Evaluated {
            signal: false,
            frame: Err(WalkEnd::NoRules),
        }),
    }
}

/// Which records name an address, if there are any.
fn name_at(
    alloc: Global,
    records: &Result<Records<'_>, WalkEnd>,
    a: u64,
) -> Result<Answer, OutOfMemory>
    ensures { IfOk result (λ found. found ≡ answer_by records.now a) }
{
    match records {
        Ok(records) => records.answer(alloc, a),
        Err(_) => Ok(Answer::Nothing),
    }
}

/// The step at a place, given what is known of the address that is looked up. It costs a binary
/// search for the records that name the address, and a pass over the rules of one INIT. If
/// `signals`, frames of signals and calls to nowhere are recognized.
#[tactic(auto, unfolding(crate::specs::Walk::step_known))]
pub fn take_step<M: ByteMemory>(
    alloc: Global,
    known: &Known<'_>,
    memory: &M,
    signals: bool,
    here: &Place,
) -> Result<WalkStep, OutOfMemory>
    ensures { IfOk result (λ step. step ≡ step_known signals known.now (M.runs memory.now) here.now) }
{
    let found = find_rules(alloc, known, memory, signals, here)?;
    let named = if found.signal { here.rip } else { here.at };
    let answer = name_at(alloc, &known.records, named)?;
    Ok(WalkStep {
        rip: here.rip,
        at: here.at,
        signal: found.signal,
        frame: found.frame,
        answer,
    })
}
