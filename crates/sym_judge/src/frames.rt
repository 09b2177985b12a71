//! Whether two files have the same frame rules at an address.
ghost use Rattle.std.specs.Prelude.{◌≡◌, ℕ, List, map, Some, None, IfOk, MatchOption};
ghost use Rattle.std.specs.List.{find, range_with_len};
ghost use Rattle.std.specs.Option.{option_copied};
ghost use Rattle.sym_judge.specs.Alike.{differs, rule_aspects};
ghost use Rattle.sym_judge.specs.Forms.{form_by, same_form};
ghost use Rattle.sym_judge.specs.declared.ruling.Aspect.TheVariants.{Reg};
ghost use Rattle.sym_judge.specs.declared.ruling.Half.TheVariants.{Frames};
ghost use Rattle.sym_judge.specs.internal.Stops.{first_in};
ghost use Rattle.sym_judge.specs.internal.Tables.{words_in, IsTableAt};

use crate::file_pair::FilePair;
use crate::file_rules::FileRules;
use crate::forms::{are_same_words, have_same_form, is_same_form};
use crate::held_forms::are_many;
use crate::rule_aliases::{RuleAliases, have_one_text, no_rule_aliases, rule_aliases};
use crate::rule_tables::{RulePlace, RuleTable, words_of};
use crate::ruling::Aspect;
use std::alloc::Global;
use std::marker::Model;
use sym_edges::OutOfMemory;
use sym_rules::{Target, Token};

/// The frame rules of two files, and which of the long ones have the same words. Contracts see the records.
#[derive(Drop)]
pub(crate) struct RulePair<'a, 'f> {
    own: FileRules<'a, 'f>,
    other: FileRules<'a, 'f>,
    aliases: RuleAliases,
}

impl<'a, 'f> Model for RulePair<'a, 'f> {
    ghost use Rattle.sym_judge.specs.internal.Blocks.{TwoFiles};
    ghost use Rattle.sym_judge.specs.internal.RuleAliases.{AreRuleAliasesOf};

    ghost Value = { TwoFiles };

    ghost view = { λ r. record { own = r.own; other = r.other } };

    ghost invariant = { λ r. AreRuleAliasesOf r.own r.other r.aliases };
}

/// Whether two rules of a target have one form, given their words, which may be missing. For equal
/// words it allocates no memory.
#[tactic(auto, using(crate::proofs::FrameLemmas::same_words_same_form))]
fn is_same_rule(
    alloc: Global,
    target: &Target,
    a: Option<&[Token]>,
    b: Option<&[Token]>,
) -> Result<bool, OutOfMemory>
    ensures { IfOk result (λ same. same ≡ same_form (form_by target.now (option_copied a.entry)) (form_by target.now (option_copied b.entry))) }
{
    if let Some(first) = a {
        if let Some(second) = b {
            if are_same_words(first, second) {
                return Ok(true);
            }
        }
    }
    have_same_form(alloc, target, a, b)
}

/// Whether there are few words, or no words at all.
fn are_few(words: Option<&[Token]>) -> bool {
    match words {
        None => true,
        Some(words) => !are_many(words),
    }
}

/// The aspect that differs, given the second file's INIT, if no INIT of the first file covers the
/// address.
fn alone(init: Option<usize>) -> Option<Aspect>
    ensures { MatchOption init (result ≡ None) (λ _. result ≡ Some Aspect.Init) }
{
    match init {
        None => None,
        Some(_) => Some(Aspect::Init),
    }
}

impl<'a, 'f> RulePair<'a, 'f> {
    /// Two files without maps of their rules.
    pub(crate) fn bare(alloc: Global, both: &'a FilePair<'f>) -> RulePair<'a, 'f>
        ensures { result ≡ both.now }
    {
        RulePair {
            own: FileRules::bare(alloc, both.own()),
            other: FileRules::bare(alloc, both.other()),
            aliases: no_rule_aliases(alloc),
        }
    }

    /// Two files with the maps of their long INITs.
    pub(crate) fn of(alloc: Global, both: &'a FilePair<'f>) -> Result<RulePair<'a, 'f>, OutOfMemory>
        ensures { IfOk result (λ rules. rules ≡ both.now) }
    {
        let own = FileRules::of(alloc, both.own())?;
        let other = FileRules::of(alloc, both.other())?;
        let aliases = rule_aliases(alloc, both.own().lines(), both.other().lines())?;
        Ok(RulePair {
            own,
            other,
            aliases,
        })
    }

    /// Whether the rules at two places have one form.
    fn agree(
        &self,
        alloc: Global,
        target: &Target,
        a: Option<RulePlace>,
        b: Option<RulePlace>,
    ) -> Result<bool, OutOfMemory>
        ensures { IfOk result (λ same. same ≡ same_form (form_by target.now (words_in self.now.own a)) (form_by target.now (words_in self.now.other b))) }
    {
        let first = words_of(self.own.lines(), a);
        let second = words_of(self.other.lines(), b);
        if are_few(first) && are_few(second) {
            return is_same_rule(alloc, target, first, second);
        }
        if have_one_text(&self.aliases, a, b) {
            return Ok(true);
        }
        let first = self.own.form_at(alloc, target, a)?;
        let second = self.other.form_at(alloc, target, b)?;
        Ok(is_same_form(first, second))
    }

    /// The first register whose rules differ.
    fn first_register(
        &self,
        alloc: Global,
        a: &RuleTable,
        b: &RuleTable,
    ) -> Result<Option<Aspect>, OutOfMemory>
        ensures { (x : ℕ) → IsTableAt self.now.own x a.now → IsTableAt self.now.other x b.now → IfOk result (λ found. found ≡ find (differs self.now.own self.now.other x) (map Reg (range_with_len 0 16))) }
    {
        'registers: for register in 0..16usize {
            let target = Target::Reg(register as u8);
            if !self.agree(alloc, &target, a.registers[register], b.registers[register])? {
                return Ok(Some(Aspect::Reg(register as u8)));
            }
        }
        Ok(None)
    }

    /// The first target whose rules differ.
    fn first_rule(
        &self,
        alloc: Global,
        a: &RuleTable,
        b: &RuleTable,
    ) -> Result<Option<Aspect>, OutOfMemory>
        ensures { (x : ℕ) → IsTableAt self.now.own x a.now → IsTableAt self.now.other x b.now → IfOk result (λ found. found ≡ find (differs self.now.own self.now.other x) rule_aspects) }
    {
        if !self.agree(alloc, &Target::Cfa, a.cfa, b.cfa)? {
            return Ok(Some(Aspect::Cfa));
        }
        if !self.agree(alloc, &Target::Ra, a.ra, b.ra)? {
            return Ok(Some(Aspect::Ra));
        }
        self.first_register(alloc, a, b)
    }

    /// The first aspect of the frame rules that differs at an address.
    pub(crate) fn first_aspect(
        &self,
        alloc: Global,
        address: u64,
    ) -> Result<Option<Aspect>, OutOfMemory>
        ensures { IfOk result (λ found. found ≡ first_in Frames self.now.own self.now.other address) }
    {
        let Some(first) = self.own.init_at(address) else {
            return Ok(alone(self.other.init_at(address)));
        };
        let Some(second) = self.other.init_at(address) else {
            return Ok(Some(Aspect::Init));
        };
        let a = self.own.table_at(first, address);
        let b = self.other.table_at(second, address);
        self.first_rule(alloc, &a, &b)
    }
}
