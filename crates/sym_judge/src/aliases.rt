//! Which numbers have one name. Each name is compared once; after that only numbers are compared.
ghost use Rattle.std.specs.Prelude.{◌≡◌, ℕ, List, true, IfOk, OnOk, IfSome};
ghost use Rattle.std.specs.Bool.{OnTrue};
ghost use Rattle.std.specs.Option.{option_copied, option_and_then};
ghost use Rattle.std.specs.Str.{bytes_eq};
ghost use Rattle.sym_records.specs.declared.line.SymLine.{SymLine};
ghost use Rattle.sym_judge.specs.Alike.{same_option};
ghost use Rattle.sym_judge.specs.declared.aliases.Numbered.{Numbered};
ghost use Rattle.sym_judge.specs.internal.Blocks.{same_name};
ghost use Rattle.sym_judge.specs.internal.Aliases.{name_of, AreAliases, AreAliasesOf};

use crate::indexed_files::IndexedFile;
use std::alloc::Global;
use std::collections::BTreeMap;
use sym_edges::OutOfMemory;
use sym_records::SymLine;

/// Records that are named by their numbers.
#[derive(Clone, Copy)]
pub(crate) enum Numbered {
    Files,
    Origins,
}

/// A number, and the first number under which the first file has the same name.
#[derive(Clone, Copy)]
pub struct Alias {
    pub number: u32,
    pub first: u32,
}

/// For each file, its numbers that have a name of the first file, in their order.
#[derive(Drop)]
pub struct Aliases {
    pub mine: Vec<Alias>,
    pub theirs: Vec<Alias>,
}

/// Whether two texts are the same, or both are missing.
pub(crate) fn is_same_text(a: Option<&[u8]>, b: Option<&[u8]>) -> bool
    ensures { result ≡ same_option bytes_eq (option_copied a.entry) (option_copied b.entry) }
{
    a == b
}

/// The name under a number.
pub(crate) fn name_of<'f>(
    numbered: Numbered,
    side: &IndexedFile<'f>,
    number: u32,
) -> Option<&'f [u8]>
    ensures { option_copied result ≡ name_of numbered side.now number }
{
    match numbered {
        Numbered::Files => side.path(number),
        Numbered::Origins => side.origin(number),
    }
}

/// The name under a number, if there is one.
pub(crate) fn name_in<'f>(
    numbered: Numbered,
    side: &IndexedFile<'f>,
    number: Option<u32>,
) -> Option<&'f [u8]>
    ensures { option_copied result ≡ option_and_then (name_of numbered side.now) number }
{
    name_of(numbered, side, number?)
}

/// The numbers in the records of a kind, in the order of the records.
fn numbers_of(
    alloc: Global,
    numbered: Numbered,
    lines: &[SymLine],
) -> Result<Vec<u32>, OutOfMemory> {
    let mut numbers = Vec::new(alloc);
    'lines: for line in lines {
        match (numbered, line) {
            (Numbered::Files, SymLine::File { number, .. })
            | (Numbered::Origins, SymLine::Origin { number, .. }) => numbers.push(*number)?,
            _ => {}
        }
    }
    numbers.sort_unstable();
    Ok(numbers)
}

/// The last eight bytes of a name as a number, which distinguishes most names.
fn ending_of(name: &[u8]) -> u64 {
    let mut ending = 0u64;
    'bytes: for byte in name.split_at(name.len().saturating_sub(8)).1 {
        ending = ending.wrapping_mul(256).wrapping_add(u64::from(*byte));
    }
    ending
}

/// For each name of a file, the least number that has it.
#[derive(Drop)]
struct Firsts<'s, 'f> {
    numbered: Numbered,
    own: &'s IndexedFile<'f>,
    numbers: BTreeMap<(u64, &'f [u8]), u32>,
}

fn firsts_of<'s, 'f>(
    alloc: Global,
    numbered: Numbered,
    own: &'s IndexedFile<'f>,
    numbers: &[u32],
) -> Result<Firsts<'s, 'f>, OutOfMemory>
    ensures numbered { IfOk result (λ firsts. firsts.numbered ≡ numbered) }
    ensures own { IfOk result (λ firsts. firsts.own.now ≡ own.now) }
{
    let mut firsts = BTreeMap::new(alloc);
    'numbers: for number in numbers {
        let Some(name) = name_of(numbered, own, *number) else {
            continue;
        };
        let key = (ending_of(name), name);
        if firsts.get(&key).is_none() {
            firsts.insert(key, *number)?;
        }
    }
    Ok(Firsts {
        numbered,
        own,
        numbers: firsts,
    })
}

/// The least number that has the same name as a number.
fn first_of<'f>(firsts: &Firsts<'_, 'f>, name: Option<&'f [u8]>) -> Option<u32> {
    let name = name?;
    let key = (ending_of(name), name);
    match firsts.numbers.get(&key) {
        Some(first) => Some(*first),
        None => None,
    }
}

/// Adds a number of a file, if the first file has the number's name.
fn push_alias<'f>(
    aliases: &mut Vec<Alias>,
    firsts: &Firsts<'_, 'f>,
    side: &IndexedFile<'f>,
    number: u32,
) -> Result<(), OutOfMemory>
    requires { AreAliases firsts.now.numbered firsts.now.own.now side.now aliases.old.items }
    ensures { OnOk result (AreAliases firsts.now.numbered firsts.now.own.now side.now aliases.new.items) }
{
    let name = name_of(firsts.numbered, side, number);
    let Some(first) = first_of(firsts, name) else {
        return Ok(());
    };
    if !is_same_text(name_of(firsts.numbered, firsts.own, first), name) {
        return Ok(());
    }
    aliases.push(Alias { number, first })?;
    Ok(())
}

/// The numbers of a file, given in their order, that have a name of the first file.
fn aliases_in<'f>(
    alloc: Global,
    firsts: &Firsts<'_, 'f>,
    side: &IndexedFile<'f>,
    numbers: &[u32],
) -> Result<Vec<Alias>, OutOfMemory>
    ensures { IfOk result (λ aliases. AreAliases firsts.now.numbered firsts.now.own.now side.now aliases.items) }
{
    let mut aliases = Vec::new(alloc);
    'numbers: for at in 0..numbers.len() {
        if at > 0 && numbers[at - 1] == numbers[at] {
            continue;
        }
        push_alias(&mut aliases, firsts, side, numbers[at])?;
    }
    Ok(aliases)
}

/// Aliases of no numbers.
pub(crate) fn no_aliases(alloc: Global) -> Aliases
    ensures { (numbered : Numbered) (own other : List SymLine) → AreAliasesOf numbered own other result }
{
    Aliases {
        mine: Vec::new(alloc),
        theirs: Vec::new(alloc),
    }
}

/// A copy of the aliases.
pub(crate) fn copied(aliases: &Aliases) -> Result<Aliases, OutOfMemory>
    ensures { IfOk result (λ copy. (numbered : Numbered) (own other : List SymLine) → AreAliasesOf numbered own other aliases.now → AreAliasesOf numbered own other copy) }
{
    let mine = aliases.mine.clone()?;
    let theirs = aliases.theirs.clone()?;
    Ok(Aliases { mine, theirs })
}

/// The numbers of two files whose names the first file has.
pub(crate) fn aliases_of<'f>(
    alloc: Global,
    numbered: Numbered,
    own: &IndexedFile<'f>,
    other: &IndexedFile<'f>,
) -> Result<Aliases, OutOfMemory>
    ensures { IfOk result (λ aliases. AreAliasesOf numbered own.now other.now aliases) }
{
    let mine = numbers_of(alloc, numbered, own.lines())?;
    let theirs = numbers_of(alloc, numbered, other.lines())?;
    let firsts = firsts_of(alloc, numbered, own, mine.as_slice())?;
    let mine = aliases_in(alloc, &firsts, own, mine.as_slice())?;
    let theirs = aliases_in(alloc, &firsts, other, theirs.as_slice())?;
    Ok(Aliases { mine, theirs })
}

/// The first file's number for the name under a number, by binary search.
pub(crate) fn first_in(aliases: &[Alias], number: u32) -> Option<u32>
    ensures { IfSome result (λ first. (numbered : Numbered) (own lines : List SymLine) → AreAliases numbered own lines aliases.now → name_of numbered own first ≡ name_of numbered lines number) }
{
    let at = aliases.partition_point(|alias| alias.number < number);
    if at >= aliases.len() {
        return None;
    }
    let alias = aliases[at];
    if alias.number != number {
        return None;
    }
    Some(alias.first)
}

/// Whether two numbers are known to have one name, by the first file's numbers for their names.
pub(crate) fn have_one_name(aliases: &Aliases, a: u32, b: u32) -> bool
    ensures { OnTrue result ((numbered : Numbered) (own other : List SymLine) → AreAliasesOf numbered own other aliases.now → same_name numbered own other a b ≡ true) }
{
    match (
        first_in(aliases.mine.as_slice(), a),
        first_in(aliases.theirs.as_slice(), b),
    ) {
        (Some(a), Some(b)) => a == b,
        _ => false,
    }
}
