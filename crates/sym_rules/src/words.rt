//! The words of rules, and how many bytes rules take.
ghost use Rattle.std.specs.Prelude.{◌≡◌, ◌^◌, ◌-◌, min, length};
ghost use Rattle.std.specs.List.{flat_map};
ghost use Rattle.sym_rules.specs.Rules.{target_name, token_word, spelled_token, spelled_rule, spelled_rules};

use crate::registers::register_name;
use crate::rules::{RuleText, Target, Token};
use itoa::Buffer;

pub(crate) fn target_name(target: &Target) -> &[u8]
    ensures { result.now ≡ target_name target.now }
{
    match target {
        Target::Cfa => b".cfa",
        Target::Ra => b".ra",
        Target::Reg(number) => register_name(*number),
        Target::Other(name) => name.as_slice(),
    }
}

/// The word of a token; the buffer is for an integer.
pub(crate) fn token_word<'a>(token: &'a Token, buffer: &'a mut Buffer) -> &'a [u8]
    ensures { result.now ≡ token_word token.now }
{
    match token {
        Token::Number(n) => buffer.format(*n).as_bytes(),
        Token::Reg(number) => register_name(*number),
        Token::Cfa => b".cfa",
        Token::Undef => b".undef",
        Token::Other(name) => name.as_slice(),
        Token::Add => b"+",
        Token::Sub => b"-",
        Token::Mul => b"*",
        Token::Div => b"/",
        Token::Rem => b"%",
        Token::Align => b"@",
        Token::Fetch => b"^",
    }
}

/// How many bytes the token takes with the space before it, at most 2^64 - 1.
fn token_length(token: &Token) -> usize
    ensures { result ≡ min (length (spelled_token token.now)) (2 ^ 64 - 1) }
{
    let mut buffer = Buffer::new();
    token_word(token, &mut buffer).len().saturating_add(1)
}

#[tactic(auto, using(crate::proofs::LengthLemmas::pieces_length, crate::proofs::LengthLemmas::pieces_whole))]
fn tokens_length(tokens: &[Token]) -> usize
    ensures { result ≡ min (length (flat_map spelled_token tokens.now)) (2 ^ 64 - 1) }
{
    let mut total = 0usize;
    for token in tokens {
        total = total.saturating_add(token_length(token));
    }
    total
}

#[tactic(auto, using(crate::proofs::LengthLemmas::rule_length))]
fn rule_length(rule: &RuleText) -> usize
    ensures { result ≡ min (length (spelled_rule rule.now)) (2 ^ 64 - 1) }
{
    let name = target_name(&rule.target).len().saturating_add(2);
    name.saturating_add(tokens_length(rule.tokens.as_slice()))
}

/// How many bytes the rules take with a space before each word, at most 2^64 - 1.
#[tactic(auto, unfolding(crate::specs::Rules::spelled_rules), using(crate::proofs::LengthLemmas::pieces_length, crate::proofs::LengthLemmas::pieces_whole))]
pub fn rules_length(rules: &[RuleText]) -> usize
    ensures { result ≡ min (length (spelled_rules rules.now)) (2 ^ 64 - 1) }
{
    let mut total = 0usize;
    for rule in rules {
        total = total.saturating_add(rule_length(rule));
    }
    total
}
