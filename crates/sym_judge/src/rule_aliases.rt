//! Which long rules have the same words. Each rule is compared once; after that only places are compared.
ghost use Rattle.std.specs.Prelude.{◌≡◌, ◌<◌, List, length, IfOk, OnOk, IfSome};
ghost use Rattle.std.specs.Bool.{OnTrue};
ghost use Rattle.sym_records.specs.declared.line.SymLine.{SymLine};
ghost use Rattle.sym_judge.specs.internal.RuleAliases.{AreRuleAliases, AreRuleAliasesOf};
ghost use Rattle.sym_judge.specs.internal.Tables.{words_at, words_in};

use crate::forms::are_same_words;
use crate::held_forms::are_many;
use crate::rule_tables::{RulePlace, is_before, rules_of, words_of};
use std::alloc::Global;
use std::collections::BTreeMap;
use sym_edges::OutOfMemory;
use sym_records::SymLine;
use sym_rules::{RuleText, Token};

/// The place of a rule, and that of a rule of the first file with the same words.
#[derive(Clone, Copy)]
pub struct RuleAlias {
    pub place: RulePlace,
    pub first: RulePlace,
}

/// The long rules of both files whose words are those of a rule of the first file, in the order of
/// their places.
#[derive(Drop)]
pub struct RuleAliases {
    pub mine: Vec<RuleAlias>,
    pub theirs: Vec<RuleAlias>,
}

/// The first places of some lists of words; the numbers of the words are the keys.
type WordPlaces = BTreeMap<Vec<u64>, RulePlace>;

/// The first place of the words of each long rule of a file.
#[derive(Drop)]
struct Firsts<'s> {
    own: &'s [SymLine],
    places: WordPlaces,
}

/// A number for the kind of a word, and another one for the word.
fn numbers_of(word: &Token) -> (u64, u64) {
    match word {
        Token::Number(n) => (0, n.cast_unsigned()),
        Token::Reg(register) => (1, u64::from(*register)),
        Token::Other(name) => (2, name.as_slice().len() as u64),
        Token::Cfa => (3, 0),
        Token::Undef => (3, 1),
        Token::Add => (3, 2),
        Token::Sub => (3, 3),
        Token::Mul => (3, 4),
        Token::Div => (3, 5),
        Token::Rem => (3, 6),
        Token::Align => (3, 7),
        Token::Fetch => (3, 8),
    }
}

/// Adds the numbers of a word, and after those of a name its bytes.
fn push_numbers(numbers: &mut Vec<u64>, word: &Token) -> Result<(), OutOfMemory> {
    let (kind, number) = numbers_of(word);
    numbers.push(kind)?;
    numbers.push(number)?;
    if let Token::Other(name) = word {
        'bytes: for byte in name.as_slice() {
            numbers.push(u64::from(*byte))?;
        }
    }
    Ok(())
}

/// The numbers of words, by which lists of words are distinguished.
fn spelled(alloc: Global, words: &[Token]) -> Result<Vec<u64>, OutOfMemory> {
    let mut numbers = Vec::new(alloc);
    'words: for word in words {
        push_numbers(&mut numbers, word)?;
    }
    Ok(numbers)
}

/// Notes the long rules of the record at a place that are the first with their words.
fn note_firsts(
    alloc: Global,
    firsts: &mut WordPlaces,
    rules: &[RuleText],
    line: usize,
) -> Result<(), OutOfMemory> {
    'rules: for rule in 0..rules.len() {
        let words = rules[rule].tokens.as_slice();
        if !are_many(words) {
            continue;
        }
        let numbers = spelled(alloc, words)?;
        if firsts.get(&numbers).is_none() {
            firsts.insert(numbers, RulePlace { line, rule })?;
        }
    }
    Ok(())
}

fn firsts_of<'s>(alloc: Global, own: &'s [SymLine]) -> Result<Firsts<'s>, OutOfMemory>
    ensures { IfOk result (λ firsts. firsts.own.now ≡ own.now) }
{
    let mut places = BTreeMap::new(alloc);
    'lines: for line in 0..own.len() {
        note_firsts(alloc, &mut places, rules_of(&own[line]), line)?;
    }
    Ok(Firsts { own, places })
}

/// Adds a rule, if the rule at the first place has the same words.
fn push_alias(
    aliases: &mut Vec<RuleAlias>,
    own: &[SymLine],
    lines: &[SymLine],
    place: RulePlace,
    first: RulePlace,
) -> Result<(), OutOfMemory>
    requires { AreRuleAliases own.now lines.now aliases.old.items }
    ensures { OnOk result (AreRuleAliases own.now lines.now aliases.new.items) }
{
    let Some(a) = words_of(own, Some(first)) else {
        return Ok(());
    };
    let Some(b) = words_of(lines, Some(place)) else {
        return Ok(());
    };
    if !are_same_words(a, b) {
        return Ok(());
    }
    aliases.push(RuleAlias { place, first })?;
    Ok(())
}

/// Adds the long rules of the record at a place that have the words of a rule of the first file.
fn push_aliases(
    alloc: Global,
    aliases: &mut Vec<RuleAlias>,
    firsts: &Firsts<'_>,
    lines: &[SymLine],
    line: usize,
) -> Result<(), OutOfMemory>
    requires within { line < length lines.now }
    requires aliases { AreRuleAliases firsts.now.own.now lines.now aliases.old.items }
    ensures { OnOk result (AreRuleAliases firsts.now.own.now lines.now aliases.new.items) }
{
    let rules = rules_of(&lines[line]);
    'rules: for rule in 0..rules.len() {
        let words = rules[rule].tokens.as_slice();
        if !are_many(words) {
            continue;
        }
        if let Some(first) = firsts.places.get(&spelled(alloc, words)?) {
            push_alias(aliases, firsts.own, lines, RulePlace { line, rule }, *first)?;
        }
    }
    Ok(())
}

/// The long rules of a file that have the words of a rule of the first file.
fn aliases_in(
    alloc: Global,
    firsts: &Firsts<'_>,
    lines: &[SymLine],
) -> Result<Vec<RuleAlias>, OutOfMemory>
    ensures { IfOk result (λ aliases. AreRuleAliases firsts.now.own.now lines.now aliases.items) }
{
    let mut aliases = Vec::new(alloc);
    'lines: for line in 0..lines.len() {
        push_aliases(alloc, &mut aliases, firsts, lines, line)?;
    }
    Ok(aliases)
}

/// No rules.
pub(crate) fn no_rule_aliases(alloc: Global) -> RuleAliases
    ensures { (own other : List SymLine) → AreRuleAliasesOf own other result }
{
    RuleAliases {
        mine: Vec::new(alloc),
        theirs: Vec::new(alloc),
    }
}

/// The long rules of two files that have the words of a rule of the first.
pub(crate) fn rule_aliases(
    alloc: Global,
    own: &[SymLine],
    other: &[SymLine],
) -> Result<RuleAliases, OutOfMemory>
    ensures { IfOk result (λ aliases. AreRuleAliasesOf own.now other.now aliases) }
{
    let firsts = firsts_of(alloc, own)?;
    let mine = aliases_in(alloc, &firsts, own)?;
    let theirs = aliases_in(alloc, &firsts, other)?;
    Ok(RuleAliases { mine, theirs })
}

/// The rule of the first file with the words of the rule at a place, by binary search.
fn first_in(aliases: &[RuleAlias], place: RulePlace) -> Option<RulePlace>
    ensures { IfSome result (λ first. (own lines : List SymLine) → AreRuleAliases own lines aliases.now → words_at own first ≡ words_at lines place) }
{
    let at = aliases.partition_point(|alias| is_before(alias.place, place));
    if at >= aliases.len() {
        return None;
    }
    let alias = aliases[at];
    if alias.place.line != place.line || alias.place.rule != place.rule {
        return None;
    }
    Some(alias.first)
}

/// Whether the rules at two places are known to have the same words, by the places of those words
/// in the first file.
pub(crate) fn have_one_text(
    aliases: &RuleAliases,
    a: Option<RulePlace>,
    b: Option<RulePlace>,
) -> bool
    ensures { OnTrue result ((own other : List SymLine) → AreRuleAliasesOf own other aliases.now → words_in own a ≡ words_in other b) }
{
    let (Some(a), Some(b)) = (a, b) else {
        return false;
    };
    match (
        first_in(aliases.mine.as_slice(), a),
        first_in(aliases.theirs.as_slice(), b),
    ) {
        (Some(a), Some(b)) => a.line == b.line && a.rule == b.rule,
        _ => false,
    }
}
