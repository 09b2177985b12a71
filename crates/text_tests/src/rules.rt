//! Rules of one to four words, spelled in two ways, and sizes of types (`sym_rules`).
use crate::comparison::same;
use std::alloc::Global;
use std::mem::size_of;
use std::test::Fail;
use sym_edges::{CallList, MemSink, OutOfMemory};
use sym_records::spell_rules;
use sym_rules::{ByteText, RuleName, RuleText, Target, Token, Tokens, Waiting, hand_on, put_rules};

const _: () = prove!(size_of::<Token>() == 16);

const _: () = prove!(size_of::<Target>() == 16);

fn name(alloc: Global, bytes: &[u8]) -> Result<RuleName, OutOfMemory> {
    RuleName::of(alloc, ByteText::of(Vec::from_slice(alloc, bytes)?))
}

fn rule(target: Target, tokens: Tokens) -> RuleText {
    RuleText { target, tokens }
}

/// A rule of two words, with names among them.
fn named_rule(alloc: Global) -> Result<RuleText, OutOfMemory> {
    let mut words = Vec::new(alloc);
    words.push(Token::Other(name(alloc, b".ra")?))?;
    words.push(Token::Undef)?;
    Ok(rule(Target::Other(name(alloc, b"$xmm0")?), Tokens::of(words)))
}

/// Rules of one, two, three and four words, with a negative number among them.
fn some_rules(alloc: Global) -> Result<Vec<RuleText>, OutOfMemory> {
    let mut rules = Vec::new(alloc);
    let cfa = Tokens::three(Token::Reg(7), Token::Number(8), Token::Add);
    rules.push(rule(Target::Cfa, cfa))?;
    let ra = Tokens::four(Token::Cfa, Token::Number(-8), Token::Add, Token::Fetch);
    rules.push(rule(Target::Ra, ra))?;
    rules.push(rule(Target::Reg(6), Tokens::one(Token::Reg(6))))?;
    rules.push(named_rule(alloc)?)?;
    Ok(rules)
}

const RULES: &[u8] = b" .cfa: $rsp 8 + .ra: .cfa -8 + ^ $rbp: $rbp $xmm0: .ra .undef";

#[test]
fn rules_are_spelled(rt: HostRuntime) -> Result<(), Fail> {
    let rules = some_rules(rt.alloc())?;
    let text = spell_rules(rt.alloc(), rules.as_slice())?;
    same(&rt, "in memory", text.as_slice(), RULES);
    let none = CallList::of(Vec::new(rt.alloc()));
    let mut sink = MemSink::new(rt.alloc(), 100, 7, none)?;
    let mut waiting = Waiting::<4>::new();
    let put = put_rules(&mut sink, &mut waiting, rules.as_slice()).is_ok()
        && hand_on(&mut sink, &mut waiting).is_ok();
    same(&rt, "in front of a sink", sink.written(), RULES);
    same(&rt, "with no fault", &[put], &[true]);
    Ok(())
}
