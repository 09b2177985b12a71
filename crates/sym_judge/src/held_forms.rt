//! The forms of long rules, each computed once.
ghost use Rattle.std.specs.Prelude.{◌≡◌, ◌<◌, ℕ, List, length, Some, IfOk, OnOk, IfSome};
ghost use Rattle.sym_records.specs.declared.line.SymLine.{SymLine};
ghost use Rattle.sym_rules.specs.declared.rules.Token.{Token};
ghost use Rattle.sym_judge.specs.Forms.{form_of};
ghost use Rattle.sym_judge.specs.internal.HeldForms.{AreHeldForms};
ghost use Rattle.sym_judge.specs.internal.Stacks.{form_view};
ghost use Rattle.sym_judge.specs.internal.Tables.{words_at, rules_at};

use crate::forms::{Form, form_of, is_cfa};
use crate::rule_tables::{RulePlace, is_before, rules_of};
use std::alloc::Global;
use sym_edges::OutOfMemory;
use sym_records::SymLine;
use sym_rules::{RuleText, Token};

/// The form of a rule, with the rule's place. `inside` says that the rule is the CFA's.
#[derive(Clone, Copy)]
pub struct HeldForm<'f> {
    pub place: RulePlace,
    pub inside: bool,
    pub form: Form<'f>,
}

/// The number of words up to which the form of a rule is computed at each comparison.
const FEW: usize = 16;

/// Whether there are too many words to compute their form at each use.
pub(crate) fn are_many(words: &[Token]) -> bool {
    words.len() > FEW
}

/// Adds the form of a rule, if the rule is long.
fn push_form<'f>(
    alloc: Global,
    forms: &mut Vec<HeldForm<'f>>,
    rule: &'f RuleText,
    place: RulePlace,
) -> Result<(), OutOfMemory>
    ensures { OnOk result ((lines : List SymLine) → words_at lines place ≡ Some rule.now.tokens → AreHeldForms lines forms.old.items → AreHeldForms lines forms.new.items) }
{
    if !are_many(rule.tokens.as_slice()) {
        return Ok(());
    }
    let inside = is_cfa(&rule.target);
    let form = form_of(alloc, inside, rule.tokens.as_slice())?;
    forms.push(HeldForm {
        place,
        inside,
        form,
    })?;
    Ok(())
}

/// Adds the forms of the long rules of the record at a place.
fn push_forms<'f>(
    alloc: Global,
    forms: &mut Vec<HeldForm<'f>>,
    rules: &'f [RuleText],
    line: usize,
) -> Result<(), OutOfMemory>
    ensures { OnOk result ((lines : List SymLine) → rules_at lines line ≡ rules.now → AreHeldForms lines forms.old.items → AreHeldForms lines forms.new.items) }
{
    'rules: for rule in 0..rules.len() {
        push_form(alloc, forms, &rules[rule], RulePlace { line, rule })?;
    }
    Ok(())
}

/// The forms of the long rules of records, in the order of their places.
pub(crate) fn held_forms<'f>(
    alloc: Global,
    lines: &'f [SymLine],
) -> Result<Vec<HeldForm<'f>>, OutOfMemory>
    ensures { IfOk result (λ forms. AreHeldForms lines.now forms.items) }
{
    let mut forms = Vec::new(alloc);
    'lines: for line in 0..lines.len() {
        push_forms(alloc, &mut forms, rules_of(&lines[line]), line)?;
    }
    Ok(forms)
}

/// The form of the rule at a place, if it is cached.
#[tactic(auto, using(crate::proofs::HeldFormLemmas::form_there))]
pub(crate) fn held_form<'f>(
    forms: &[HeldForm<'f>],
    inside: bool,
    place: RulePlace,
) -> Option<Form<'f>>
    ensures { IfSome result (λ form. (lines : List SymLine) (words : List Token) → AreHeldForms lines forms.now → words_at lines place ≡ Some words → form_view form ≡ form_of inside words) }
{
    let at = forms.partition_point(|held| is_before(held.place, place));
    if at >= forms.len() {
        return None;
    }
    let held = forms[at];
    if held.place.line != place.line || held.place.rule != place.rule || held.inside != inside {
        return None;
    }
    Some(held.form)
}
