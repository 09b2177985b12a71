//! Puts frame rules into a buffer before a sink.
ghost use Rattle.std.specs.Prelude.{◌≡◌, ◌∷◌};
ghost use Rattle.std.specs.List.{flat_map};
ghost use Rattle.sym_rules.specs.Buffer.{Hands};
ghost use Rattle.sym_rules.specs.Rules.{target_word, spelled_token, spelled_rule, spelled_rules};

use crate::rules::{RuleText, Target, Token};
use crate::sink_buffer::{put, put_word};
use crate::waiting_bytes::Waiting;
use crate::words::{target_name, token_word};
use itoa::Buffer;
use sym_edges::{Failed, Sink};

/// Puts a space, the name of a target, and `:`.
fn put_target<O: Sink, const N: usize>(
    sink: &mut O,
    waiting: &mut Waiting<N>,
    target: &Target,
) -> Result<(), Failed>
    ensures { Hands result (O.taken sink.old) (O.faults sink.old) waiting.old (32 ∷ target_word target.now) (O.taken sink.new) (O.faults sink.new) waiting.new }
{
    match put_word(sink, waiting, target_name(target)) {
        Ok(()) => {}
        Err(Failed) => return Err(Failed),
    }
    put(sink, waiting, b":")
}

/// Puts a space and a token.
fn put_token<O: Sink, const N: usize>(
    sink: &mut O,
    waiting: &mut Waiting<N>,
    token: &Token,
) -> Result<(), Failed>
    ensures { Hands result (O.taken sink.old) (O.faults sink.old) waiting.old (spelled_token token.now) (O.taken sink.new) (O.faults sink.new) waiting.new }
{
    let mut buffer = Buffer::new();
    put_word(sink, waiting, token_word(token, &mut buffer))
}

fn put_tokens<O: Sink, const N: usize>(
    sink: &mut O,
    waiting: &mut Waiting<N>,
    tokens: &[Token],
) -> Result<(), Failed>
    ensures { Hands result (O.taken sink.old) (O.faults sink.old) waiting.old (flat_map spelled_token tokens.now) (O.taken sink.new) (O.faults sink.new) waiting.new }
{
    for token in tokens {
        match put_token(sink, waiting, token) {
            Ok(()) => {}
            Err(Failed) => return Err(Failed),
        }
    }
    Ok(())
}

/// Puts a rule, with one space before each word.
fn put_rule<O: Sink, const N: usize>(
    sink: &mut O,
    waiting: &mut Waiting<N>,
    rule: &RuleText,
) -> Result<(), Failed>
    ensures { Hands result (O.taken sink.old) (O.faults sink.old) waiting.old (spelled_rule rule.now) (O.taken sink.new) (O.faults sink.new) waiting.new }
{
    match put_target(sink, waiting, &rule.target) {
        Ok(()) => {}
        Err(Failed) => return Err(Failed),
    }
    put_tokens(sink, waiting, rule.tokens.as_slice())
}

/// Puts rules, with one space before each word.
pub fn put_rules<O: Sink, const N: usize>(
    sink: &mut O,
    waiting: &mut Waiting<N>,
    rules: &[RuleText],
) -> Result<(), Failed>
    ensures { Hands result (O.taken sink.old) (O.faults sink.old) waiting.old (spelled_rules rules.now) (O.taken sink.new) (O.faults sink.new) waiting.new }
{
    for rule in rules {
        match put_rule(sink, waiting, rule) {
            Ok(()) => {}
            Err(Failed) => return Err(Failed),
        }
    }
    Ok(())
}
