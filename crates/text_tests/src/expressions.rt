//! DWARF expressions as words of rules (`expr_postfix`), and the size of an expression's place (`expr_steps`).
use crate::comparison::same;
use expr_postfix::{rule_tokens, tokens};
use expr_steps::Place;
use std::alloc::Global;
use std::mem::size_of;
use std::test::Fail;
use sym_edges::{OutOfMemory, Reason, Stop};
use sym_records::spell_rules;
use sym_rules::{ByteText, RuleText, Target, Tokens};

const _: () = prove!(size_of::<Place>() == 12);

/// The words, or none if there is a refusal.
fn words_or_none(alloc: Global, words: Result<Tokens, Stop<Reason>>) -> Tokens {
    match words {
        Ok(words) => words,
        Err(_) => Tokens::of(Vec::new(alloc)),
    }
}

/// The words of a rule of the CFA.
fn spelled(alloc: Global, words: Tokens) -> Result<ByteText, OutOfMemory> {
    let rule = RuleText {
        target: Target::Cfa,
        tokens: words,
    };
    spell_rules(alloc, Vec::from_array(alloc, [rule])?.as_slice())
}

#[test]
fn expressions_are_spelled(rt: HostRuntime) -> Result<(), Fail> {
    let linkers = [0x77, 8, 0x80, 0, 0x3f, 0x1a, 0x3b, 0x2a, 0x33, 0x24, 0x22];
    let words = tokens(rt.alloc(), &linkers, false);
    let text = spelled(rt.alloc(), words_or_none(rt.alloc(), words))?;
    let wanted = b" .cfa: $rsp 8 + $rip 0 + 16 % 5 + 16 / 8 * +".as_slice();
    same(&rt, "a linker's table of jumps", text.as_slice(), wanted);
    let words = rule_tokens(rt.alloc(), &[0x77, 0x78], true, true);
    let text = spelled(rt.alloc(), words_or_none(rt.alloc(), words))?;
    let wanted = b" .cfa: $rsp -8 + ^".as_slice();
    same(&rt, "a saved register", text.as_slice(), wanted);
    Ok(())
}

#[test]
fn the_most_words_are_made(rt: HostRuntime) -> Result<(), Fail> {
    let fetches = vec![in rt.alloc(); 6u8; 1023]?;
    let made = tokens(rt.alloc(), fetches.as_slice(), true);
    let count = match made {
        Ok(words) => words.len(),
        Err(_) => 0,
    };
    same(&rt, "1,024 words", &[count == 1024], &[true]);
    Ok(())
}
