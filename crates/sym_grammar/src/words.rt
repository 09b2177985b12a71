//! The words of frame rules: targets and tokens.
ghost use Rattle.std.specs.Prelude.{◌≡◌, Ok, IfOk};
ghost use Rattle.sym_rules.specs.RuleReading.{begins_symbol, is_symbol, ends_in_colon, named_target, target_at, sign_of, named_token, token_at};
ghost use Rattle.sym_grammar.specs.internal.Given.{Gives};

use crate::numbers::integer_of;
use std::alloc::Global;
use sym_edges::{OutOfMemory, Stop};
use sym_rules::{ByteText, RuleName, Target, TextKind, Token, register_of};

/// Whether the word ends with `:`.
#[inline]
#[tactic(auto, using(sym_rules::proofs::LastLemmas::last_some, sym_rules::proofs::LastLemmas::last_missing))]
pub(crate) fn ends_in_colon(word: &[u8]) -> bool
    ensures { result ≡ ends_in_colon word.now }
{
    match word.last() {
        Some(b) => *b == b':',
        None => false,
    }
}

/// Whether a name in a rule may begin with the byte.
#[inline]
fn begins_symbol(b: u8) -> bool
    ensures { result ≡ begins_symbol b }
{
    b == b'$' || b == b'.' || (b'A' <= b && b <= b'Z') || (b'a' <= b && b <= b'z')
}

/// Whether the word is a name in a rule: it begins like one, and does not end with `:`.
#[inline]
#[tactic(auto, using(sym_rules::proofs::LastLemmas::symbol_ends, sym_rules::proofs::LastLemmas::symbol_other, sym_rules::proofs::LastLemmas::symbol_nothing))]
fn is_symbol(word: &[u8]) -> bool
    ensures { result ≡ is_symbol word.now }
{
    match word.first() {
        Some(b) => begins_symbol(*b) && !ends_in_colon(word),
        None => false,
    }
}

/// A name that has no variant of its own.
fn other_name(alloc: Global, name: &[u8]) -> Result<RuleName, OutOfMemory>
    ensures { IfOk result (λ n. n ≡ name.now) }
{
    let text = ByteText::of(Vec::from_slice(alloc, name)?);
    RuleName::of(alloc, text)
}

/// The target that a name stands for.
#[tactic(auto, unfolding(sym_rules::specs::RuleReading::named_target))]
fn named_target(alloc: Global, name: &[u8]) -> Result<Target, Stop<TextKind>>
    ensures { Gives result (λ t. t) (Ok (named_target name.now)) }
{
    if name == b".cfa".as_slice() {
        return Ok(Target::Cfa);
    }
    if name == b".ra".as_slice() {
        return Ok(Target::Ra);
    }
    match register_of(name) {
        Some(number) => Ok(Target::Reg(number)),
        None => Ok(Target::Other(other_name(alloc, name)?)),
    }
}

/// The target of a word that ends with `:`.
#[tactic(auto, unfolding(sym_rules::specs::RuleReading::target_at))]
pub(crate) fn target_at(alloc: Global, word: &[u8]) -> Result<Target, Stop<TextKind>>
    ensures { Gives result (λ t. t) (target_at word.now) }
{
    if !ends_in_colon(word) {
        return Err(Stop::Fault(TextKind::Rule));
    }
    let name = word.split_at(word.len().saturating_sub(1)).0;
    if !is_symbol(name) {
        return Err(Stop::Fault(TextKind::Rule));
    }
    named_target(alloc, name)
}

/// The operator that a word spells.
#[inline]
#[tactic(auto, unfolding(sym_rules::specs::RuleReading::sign_of))]
fn sign_of(word: &[u8]) -> Option<Token>
    ensures { result ≡ sign_of word.now }
{
    if word == b"+".as_slice() {
        return Some(Token::Add);
    }
    if word == b"-".as_slice() {
        return Some(Token::Sub);
    }
    if word == b"*".as_slice() {
        return Some(Token::Mul);
    }
    if word == b"/".as_slice() {
        return Some(Token::Div);
    }
    if word == b"%".as_slice() {
        return Some(Token::Rem);
    }
    if word == b"@".as_slice() {
        return Some(Token::Align);
    }
    if word == b"^".as_slice() {
        return Some(Token::Fetch);
    }
    None
}

/// The token that a name stands for.
#[tactic(auto, unfolding(sym_rules::specs::RuleReading::named_token))]
fn named_token(alloc: Global, name: &[u8]) -> Result<Token, Stop<TextKind>>
    ensures { Gives result (λ t. t) (Ok (named_token name.now)) }
{
    if name == b".cfa".as_slice() {
        return Ok(Token::Cfa);
    }
    if name == b".undef".as_slice() {
        return Ok(Token::Undef);
    }
    match register_of(name) {
        Some(number) => Ok(Token::Reg(number)),
        None => Ok(Token::Other(other_name(alloc, name)?)),
    }
}

/// The token of a word: a name, an integer or an operator.
#[tactic(auto, unfolding(sym_rules::specs::RuleReading::token_at))]
pub(crate) fn token_at(alloc: Global, word: &[u8]) -> Result<Token, Stop<TextKind>>
    ensures { Gives result (λ t. t) (token_at word.now) }
{
    if is_symbol(word) {
        return named_token(alloc, word);
    }
    match integer_of(word) {
        Some(n) => return Ok(Token::Number(n)),
        None => {}
    }
    match sign_of(word) {
        Some(sign) => Ok(sign),
        None => Err(Stop::Fault(TextKind::Rule)),
    }
}
