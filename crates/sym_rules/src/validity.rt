//! Which rules a text can spell.
ghost use Rattle.std.specs.Prelude.{◌≡◌, ◌==◌};
ghost use Rattle.std.specs.List.{list_all, list_any};
ghost use Rattle.std.specs.Str.{bytes_eq};
ghost use Rattle.sym_rules.specs.Cuts.{is_within_field, last_is};
ghost use Rattle.sym_edges.specs.Abi.{register_names};
ghost use Rattle.sym_rules.specs.RuleReading.{begins_symbol, is_symbol};
ghost use Rattle.sym_rules.specs.RuleValidity.{is_other, target_names, token_names, is_target, is_token, is_rule, ends_in_cr, end_in_cr, are_rules};

use crate::registers::register_name;
use crate::rules::{RuleText, Target, Token};

/// Whether the bytes have neither a space nor LF.
pub fn are_unparted(bytes: &[u8]) -> bool
    ensures { result ≡ list_all is_within_field bytes.now }
{
    bytes.iter().all(|b| *b != b' ' && *b != b'\n')
}

fn ends_with(bytes: &[u8], last: u8) -> bool
    ensures { result ≡ last_is (λ b. b == last) bytes.now }
{
    match bytes.last() {
        Some(b) => *b == last,
        None => false,
    }
}

/// Whether a name in a rule may begin with the byte.
fn begins_symbol(b: u8) -> bool
    ensures { result ≡ begins_symbol b }
{
    b == b'$' || b == b'.' || (b'A' <= b && b <= b'Z') || (b'a' <= b && b <= b'z')
}

/// Whether the bytes are a name in a rule: they begin like one, and do not end with `:`.
#[tactic(auto, using(crate::proofs::LastLemmas::symbol_ends, crate::proofs::LastLemmas::symbol_other, crate::proofs::LastLemmas::symbol_nothing))]
fn is_symbol(bytes: &[u8]) -> bool
    ensures { result ≡ is_symbol bytes.now }
{
    match bytes.first() {
        Some(b) => begins_symbol(*b) && !ends_with(bytes, b':'),
        None => false,
    }
}

#[tactic(auto, using(crate::proofs::LastLemmas::register_found, crate::proofs::LastLemmas::register_next, crate::proofs::LastLemmas::register_missing))]
fn is_register(name: &[u8]) -> bool
    ensures { result ≡ list_any (bytes_eq name.now) register_names }
{
    for number in 0..16 {
        if name == register_name(number) {
            return true;
        }
    }
    false
}

fn is_target_name(name: &[u8]) -> bool
    ensures { result ≡ list_any (bytes_eq name.now) target_names }
{
    name == b".cfa".as_slice() || name == b".ra".as_slice() || is_register(name)
}

fn is_token_name(name: &[u8]) -> bool
    ensures { result ≡ list_any (bytes_eq name.now) token_names }
{
    name == b".cfa".as_slice() || name == b".undef".as_slice() || is_register(name)
}

#[tactic(auto, unfolding(crate::specs::RuleValidity::is_other))]
fn is_other_target(name: &[u8]) -> bool
    ensures { result ≡ is_other target_names name.now }
{
    are_unparted(name) && is_symbol(name) && !is_target_name(name)
}

#[tactic(auto, unfolding(crate::specs::RuleValidity::is_other))]
fn is_other_token(name: &[u8]) -> bool
    ensures { result ≡ is_other token_names name.now }
{
    are_unparted(name) && is_symbol(name) && !is_token_name(name)
}

/// Whether a word can spell the target.
fn is_target(target: &Target) -> bool
    ensures { result ≡ is_target target.now }
{
    match target {
        Target::Cfa | Target::Ra => true,
        Target::Reg(number) => *number < 16,
        Target::Other(name) => is_other_target(name.as_slice()),
    }
}

/// Whether a word can spell the token.
fn is_token(token: &Token) -> bool
    ensures { result ≡ is_token token.now }
{
    match token {
        Token::Number(n) => {
            let _number = *n;
            true
        }
        Token::Reg(number) => *number < 16,
        Token::Other(name) => is_other_token(name.as_slice()),
        _ => true,
    }
}

fn are_tokens(tokens: &[Token]) -> bool
    ensures { result ≡ list_all is_token tokens.now }
{
    tokens.iter().all(|token| is_token(token))
}

/// Whether words can spell the rule.
#[tactic(auto, unfolding(crate::specs::RuleValidity::is_rule))]
fn is_rule(rule: &RuleText) -> bool
    ensures { result ≡ is_rule rule.now }
{
    is_target(&rule.target) && !rule.tokens.is_empty() && are_tokens(rule.tokens.as_slice())
}

/// Whether the token is a name that ends in CR.
fn ends_in_cr(token: &Token) -> bool
    ensures { result ≡ ends_in_cr token.now }
{
    match token {
        Token::Other(name) => ends_with(name.as_slice(), b'\r'),
        _ => false,
    }
}

#[tactic(auto, using(crate::proofs::LastLemmas::last_some, crate::proofs::LastLemmas::last_missing))]
fn last_ends_in_cr(tokens: &[Token]) -> bool
    ensures { result ≡ last_is ends_in_cr tokens.now }
{
    match tokens.last() {
        Some(token) => ends_in_cr(token),
        None => false,
    }
}

/// Whether the last token of the last rule is a name that ends in CR.
#[tactic(auto, unfolding(crate::specs::RuleValidity::end_in_cr), using(crate::proofs::LastLemmas::last_some, crate::proofs::LastLemmas::last_missing))]
fn end_in_cr(rules: &[RuleText]) -> bool
    ensures { result ≡ end_in_cr rules.now }
{
    match rules.last() {
        Some(rule) => last_ends_in_cr(rule.tokens.as_slice()),
        None => false,
    }
}

fn are_all_rules(rules: &[RuleText]) -> bool
    ensures { result ≡ list_all is_rule rules.now }
{
    rules.iter().all(|rule| is_rule(rule))
}

/// Whether a record's line can carry the rules: there is at least one, words can spell each, and the line does not end in CR.
#[tactic(auto, unfolding(crate::specs::RuleValidity::are_rules))]
pub fn are_rules(rules: &[RuleText]) -> bool
    ensures { result ≡ are_rules rules.now }
{
    !rules.is_empty() && are_all_rules(rules) && !end_in_cr(rules)
}
