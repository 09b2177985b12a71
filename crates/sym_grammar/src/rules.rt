//! The frame rules of a line.
ghost use Rattle.std.specs.Prelude.{◌≡◌, ◌<◌, ◌≤◌, [], ◌∷◌, length, IfOk, IfSome};
ghost use Rattle.sym_rules.specs.RuleReading.{words, rules_at};
ghost use Rattle.sym_grammar.specs.internal.Given.{Gives, GivesNext};
ghost use Rattle.sym_grammar.specs.internal.Runs.{token_run, rule_run, put_before};

use crate::words::{ends_in_colon, target_at, token_at};
use std::alloc::Global;
use sym_edges::Stop;
use sym_rules::{RuleText, Rules, TextKind, Token, Tokens, cut_word, skip_spaces};

/// The next token, and the bytes after it; `None` if a rule or the end of the line is next.
#[inline]
#[tactic(auto, using(crate::proofs::RunLemmas::run_end, crate::proofs::RunLemmas::run_rule, crate::proofs::RunLemmas::run_token, crate::proofs::RunLemmas::run_fault, crate::proofs::FieldLemmas::from_shorter))]
fn next_token(alloc: Global, bytes: &[u8]) -> Result<Option<(Token, &[u8])>, Stop<TextKind>>
    ensures next { GivesNext result (λ x. x.0) (λ x. words x.1.now) (words bytes.now) }
    ensures shorter { IfOk result (λ next. IfSome next (λ x. length x.1.now < length bytes.now)) }
{
    let field = skip_spaces(bytes);
    if field.is_empty() {
        return Ok(None);
    }
    let (word, rest) = cut_word(field);
    if ends_in_colon(word) {
        return Ok(None);
    }
    let token = match token_at(alloc, word) {
        Ok(token) => token,
        Err(stop) => return Err(stop),
    };
    Ok(Some((token, rest)))
}

/// The tokens up to the next rule or the end of the line, and the bytes from there on.
#[tactic(auto, using(crate::proofs::RunLemmas::run_first))]
fn tokens_at(alloc: Global, bytes: &[u8]) -> Result<(Tokens, &[u8]), Stop<TextKind>>
    ensures tokens { Gives result (λ x. (x.0, words x.1.now)) (token_run (words bytes.now)) }
    ensures shorter { IfOk result (λ x. length x.1.now ≤ length bytes.now) }
{
    match next_token(alloc, bytes)? {
        Some((a, rest)) => tokens_after(alloc, a, rest),
        None => Ok((Tokens::of(Vec::new(alloc)), bytes)),
    }
}

/// A token, followed by those up to the next rule or the end of the line; and the bytes from there
/// on.
#[tactic(auto, using(crate::proofs::RunLemmas::before_none, crate::proofs::RunLemmas::before_some, crate::proofs::RunLemmas::before_fault))]
fn tokens_after(alloc: Global, a: Token, bytes: &[u8]) -> Result<(Tokens, &[u8]), Stop<TextKind>>
    ensures tokens { Gives result (λ x. (x.0, words x.1.now)) (put_before (a ∷ []) (token_run (words bytes.now))) }
    ensures shorter { IfOk result (λ x. length x.1.now ≤ length bytes.now) }
{
    match next_token(alloc, bytes)? {
        Some((b, rest)) => tokens_after_two(alloc, a, b, rest),
        None => Ok((Tokens::one(a), bytes)),
    }
}

/// The same for two tokens in front.
#[tactic(auto, using(crate::proofs::RunLemmas::before_none, crate::proofs::RunLemmas::before_some, crate::proofs::RunLemmas::before_fault))]
fn tokens_after_two(
    alloc: Global,
    a: Token,
    b: Token,
    bytes: &[u8],
) -> Result<(Tokens, &[u8]), Stop<TextKind>>
    ensures tokens { Gives result (λ x. (x.0, words x.1.now)) (put_before (a ∷ b ∷ []) (token_run (words bytes.now))) }
    ensures shorter { IfOk result (λ x. length x.1.now ≤ length bytes.now) }
{
    match next_token(alloc, bytes)? {
        Some((c, rest)) => tokens_after_three(alloc, a, b, c, rest),
        None => {
            let mut tokens = Vec::with_capacity(alloc, 2)?;
            tokens.push(a)?;
            tokens.push(b)?;
            Ok((Tokens::of(tokens), bytes))
        }
    }
}

/// The same for three tokens in front.
#[tactic(auto, using(crate::proofs::RunLemmas::before_none, crate::proofs::RunLemmas::before_some, crate::proofs::RunLemmas::before_fault))]
fn tokens_after_three(
    alloc: Global,
    a: Token,
    b: Token,
    c: Token,
    bytes: &[u8],
) -> Result<(Tokens, &[u8]), Stop<TextKind>>
    ensures tokens { Gives result (λ x. (x.0, words x.1.now)) (put_before (a ∷ b ∷ c ∷ []) (token_run (words bytes.now))) }
    ensures shorter { IfOk result (λ x. length x.1.now ≤ length bytes.now) }
{
    match next_token(alloc, bytes)? {
        Some((d, rest)) => tokens_after_four(alloc, a, b, c, d, rest),
        None => Ok((Tokens::three(a, b, c), bytes)),
    }
}

/// The same for four tokens in front.
#[tactic(auto, using(crate::proofs::RunLemmas::before_none, crate::proofs::RunLemmas::before_some, crate::proofs::RunLemmas::before_fault))]
fn tokens_after_four(
    alloc: Global,
    a: Token,
    b: Token,
    c: Token,
    d: Token,
    bytes: &[u8],
) -> Result<(Tokens, &[u8]), Stop<TextKind>>
    ensures tokens { Gives result (λ x. (x.0, words x.1.now)) (put_before (a ∷ b ∷ c ∷ d ∷ []) (token_run (words bytes.now))) }
    ensures shorter { IfOk result (λ x. length x.1.now ≤ length bytes.now) }
{
    match next_token(alloc, bytes)? {
        Some((e, rest)) => {
            let mut tokens = Vec::with_capacity(alloc, 8)?;
            tokens.push(a)?;
            tokens.push(b)?;
            tokens.push(c)?;
            tokens.push(d)?;
            tokens.push(e)?;
            more_tokens(alloc, tokens, rest)
        }
        None => Ok((Tokens::four(a, b, c, d), bytes)),
    }
}

/// The same for any number of tokens in front.
#[tactic(auto, using(crate::proofs::RunLemmas::before_none, crate::proofs::RunLemmas::before_some, crate::proofs::RunLemmas::before_fault))]
fn more_tokens(
    alloc: Global,
    first: Vec<Token>,
    bytes: &[u8],
) -> Result<(Tokens, &[u8]), Stop<TextKind>>
    ensures tokens { Gives result (λ x. (x.0, words x.1.now)) (put_before first.items (token_run (words bytes.now))) }
    ensures shorter { IfOk result (λ x. length x.1.now ≤ length bytes.now) }
{
    let mut tokens = first;
    let mut rest = bytes;
    'turns: loop {
        match next_token(alloc, rest)? {
            Some((token, later)) => {
                tokens.push(token)?;
                rest = later;
            }
            None => return Ok((Tokens::of(tokens), rest)),
        }
    }
}

/// The next rule, and the bytes after it.
#[tactic(auto, using(crate::proofs::RunLemmas::rule_end, crate::proofs::RunLemmas::rule_next, crate::proofs::RunLemmas::rule_empty, crate::proofs::RunLemmas::rule_bad_target, crate::proofs::RunLemmas::rule_bad_tokens, crate::proofs::FieldLemmas::from_shorter))]
fn rule_at(alloc: Global, bytes: &[u8]) -> Result<(RuleText, &[u8]), Stop<TextKind>>
    ensures rule { Gives result (λ x. (x.0, words x.1.now)) (rule_run (words bytes.now)) }
    ensures shorter { IfOk result (λ x. length x.1.now < length bytes.now) }
{
    let field = skip_spaces(bytes);
    if field.is_empty() {
        return Err(Stop::Fault(TextKind::Rule));
    }
    let (word, rest) = cut_word(field);
    let target = match target_at(alloc, word) {
        Ok(target) => target,
        Err(stop) => return Err(stop),
    };
    let (tokens, later) = match tokens_at(alloc, rest) {
        Ok((tokens, later)) => (tokens, later),
        Err(stop) => return Err(stop),
    };
    if tokens.is_empty() {
        return Err(Stop::Fault(TextKind::Rule));
    }
    Ok((RuleText { target, tokens }, later))
}

/// For how many rules memory is allocated at once. This is the number of `:` directly before a
/// space, since the target of each rule ends so; but at most one more than a fifth of the number of
/// bytes, since a rule has at least five bytes.
#[inline]
fn rule_room(bytes: &[u8]) -> usize {
    let mut count: usize = 0;
    let mut last = 0;
    for b in bytes {
        count = count.wrapping_add(usize::from(last == b':' && *b == b' '));
        last = *b;
    }
    count.min(bytes.len() / 5 + 1)
}

/// The rules of a line.
#[tactic(auto, using(crate::proofs::FieldLemmas::skip_stays, crate::proofs::RunLemmas::rules_more, crate::proofs::RunLemmas::rules_fault, crate::proofs::RunLemmas::rules_some, crate::proofs::RunLemmas::rules_none, crate::proofs::RunLemmas::rules_start))]
pub(crate) fn rules_at(alloc: Global, bytes: &[u8]) -> Result<Rules, Stop<TextKind>>
    ensures { Gives result (λ x. x) (rules_at bytes.now) }
{
    let mut rules = Vec::with_capacity(alloc, rule_room(bytes))?;
    let mut rest = skip_spaces(bytes);
    'turns: while !rest.is_empty() {
        match rule_at(alloc, rest) {
            Ok((rule, later)) => {
                rules.push(rule)?;
                rest = skip_spaces(later);
            }
            Err(stop) => return Err(stop),
        }
    }
    if rules.is_empty() {
        return Err(Stop::Fault(TextKind::Rule));
    }
    Ok(Rules::of(rules))
}
