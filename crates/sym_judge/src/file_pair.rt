//! The two files that are judged, with the numbers under which both have one name.
ghost use Rattle.std.specs.Prelude.{◌≡◌, IfOk};
ghost use Rattle.sym_judge.specs.internal.Aliases.{AreAliasesOf};
ghost use Rattle.sym_judge.specs.internal.Blocks.{same_name, AreTold, is_told, are_told};
ghost use Rattle.sym_judge.specs.internal.OneNames.{AreOneNames};

use crate::aliases::{
    Aliases, Numbered, aliases_of, copied, have_one_name, is_same_text, no_aliases,
};
use crate::indexed_files::IndexedFile;
use std::alloc::Global;
use std::marker::Model;
use sym_edges::OutOfMemory;
use sym_records::SymLine;

/// Some numbers of a kind under which two files have one name. The list `told` says for which
/// numbers both files have one name under the same number; the others are in `aliases`.
#[derive(Drop)]
pub struct OneNames {
    pub told: Vec<bool>,
    pub aliases: Aliases,
}

/// Two files, with some of their `FILE` and `INLINE_ORIGIN` numbers under which both have one name. Contracts see the records.
#[derive(Drop)]
pub(crate) struct FilePair<'f> {
    own: IndexedFile<'f>,
    other: IndexedFile<'f>,
    paths: OneNames,
    origins: OneNames,
}

impl<'f> Model for FilePair<'f> {
    ghost use Rattle.sym_judge.specs.declared.aliases.Numbered.TheVariants.{Files, Origins};
    ghost use Rattle.sym_judge.specs.internal.Blocks.{TwoFiles};
    ghost use Rattle.sym_judge.specs.internal.OneNames.{AreOneNames};

    ghost Value = { TwoFiles };

    ghost view = { λ b. record { own = b.own; other = b.other } };

    ghost invariant = { λ b. AreOneNames Files b.own b.other b.paths × AreOneNames Origins b.own b.other b.origins };
}

/// How many records of a kind a file has.
fn count_of(numbered: Numbered, lines: &[SymLine]) -> u32 {
    let mut count = 0u32;
    'lines: for line in lines {
        match (numbered, line) {
            (Numbered::Files, SymLine::File { .. }) | (Numbered::Origins, SymLine::Origin { .. }) =>
                count = count.saturating_add(1),
            _ => {}
        }
    }
    count
}

/// Whether two records of a kind have one name, or both are missing.
fn is_one_name(
    numbered: Numbered,
    own: &IndexedFile<'_>,
    a: u32,
    other: &IndexedFile<'_>,
    b: u32,
) -> bool
    ensures { result ≡ same_name numbered own.now other.now a b }
{
    match numbered {
        Numbered::Files => is_same_text(own.path(a), other.path(b)),
        Numbered::Origins => is_same_text(own.origin(a), other.origin(b)),
    }
}

/// For each number below the count of the first file's records of a kind, whether both files have one name under it.
fn same_names(
    alloc: Global,
    numbered: Numbered,
    own: &IndexedFile<'_>,
    other: &IndexedFile<'_>,
) -> Result<Vec<bool>, OutOfMemory>
    ensures { IfOk result (λ told. AreTold (same_name numbered) own.now other.now told.items) }
{
    let count = count_of(numbered, own.lines());
    let mut told = Vec::new(alloc);
    'numbers: for number in 0..count {
        told.push(is_one_name(numbered, own, number, other, number))?;
    }
    Ok(told)
}

/// Whether the list is true at a number.
fn is_told(told: &[bool], number: u32) -> bool
    ensures { result ≡ is_told told.now number }
{
    match told.get(number as usize) {
        Some(told) => *told,
        None => false,
    }
}

/// Whether two numbers are equal and the list is true at the number.
fn are_told(told: &[bool], a: u32, b: u32) -> bool
    ensures { result ≡ are_told told.now a b }
{
    a == b && is_told(told, a)
}

/// The numbers that have one name; none are looked for if the list has all numbers.
fn aliases_beside<'f>(
    alloc: Global,
    numbered: Numbered,
    own: &IndexedFile<'f>,
    other: &IndexedFile<'f>,
    told: &[bool],
) -> Result<Aliases, OutOfMemory>
    ensures { IfOk result (λ aliases. AreAliasesOf numbered own.now other.now aliases) }
{
    if count_of(numbered, other.lines()) as usize == told.len() && told.iter().all(|told| *told) {
        return Ok(no_aliases(alloc));
    }
    aliases_of(alloc, numbered, own, other)
}

/// For one kind of number, that of files or of origins: the numbers that stand for one name in both files.
fn one_names<'f>(
    alloc: Global,
    numbered: Numbered,
    own: &IndexedFile<'f>,
    other: &IndexedFile<'f>,
) -> Result<OneNames, OutOfMemory>
    ensures { IfOk result (λ names. AreOneNames numbered own.now other.now names) }
{
    let told = same_names(alloc, numbered, own, other)?;
    let aliases = aliases_beside(alloc, numbered, own, other, told.as_slice())?;
    Ok(OneNames { told, aliases })
}

impl<'f> FilePair<'f> {
    /// Compares the names under each number.
    pub(crate) fn of(
        alloc: Global,
        own: IndexedFile<'f>,
        other: IndexedFile<'f>,
    ) -> Result<FilePair<'f>, OutOfMemory>
        ensures { IfOk result (λ both. both ≡ record { own = own.entry; other = other.entry }) }
    {
        let paths = one_names(alloc, Numbered::Files, &own, &other)?;
        let origins = one_names(alloc, Numbered::Origins, &own, &other)?;
        Ok(FilePair {
            own,
            other,
            paths,
            origins,
        })
    }

    pub(crate) fn own(&self) -> &IndexedFile<'f>
        ensures { result.now ≡ self.now.own }
    {
        &self.own
    }

    pub(crate) fn other(&self) -> &IndexedFile<'f>
        ensures { result.now ≡ self.now.other }
    {
        &self.other
    }

    #[inline]
    fn names(&self, numbered: Numbered) -> &OneNames
        ensures { AreOneNames numbered self.now.own self.now.other result.now }
    {
        match numbered {
            Numbered::Files => &self.paths,
            Numbered::Origins => &self.origins,
        }
    }

    /// All numbers whose names the first file has.
    pub(crate) fn aliases(&self, alloc: Global, numbered: Numbered) -> Result<Aliases, OutOfMemory>
        ensures { IfOk result (λ aliases. AreAliasesOf numbered self.now.own self.now.other aliases) }
    {
        let known = &self.names(numbered).aliases;
        if known.mine.is_empty() {
            return aliases_of(alloc, numbered, &self.own, &self.other);
        }
        copied(known)
    }

    /// Whether two records of a kind have one name, or both are missing.
    #[inline]
    #[tactic(auto, using(crate::proofs::FilePairLemmas::told_both))]
    pub(crate) fn is_same_name(&self, numbered: Numbered, a: u32, b: u32) -> bool
        ensures { result ≡ same_name numbered self.now.own self.now.other a b }
    {
        let names = self.names(numbered);
        if are_told(names.told.as_slice(), a, b) {
            return true;
        }
        if have_one_name(&names.aliases, a, b) {
            return true;
        }
        is_one_name(numbered, &self.own, a, &self.other, b)
    }
}
