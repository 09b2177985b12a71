//! Rules with expressions, whose words may be longer than a line. Each rule is added to a text by itself, and memory is allocated for the words of an
//! expression.
ghost use Rattle.std.specs.Prelude.{◌≡◌, ◌++◌, ◌∷◌, [], Some, OnOk};
ghost use Rattle.sym_rules.specs.declared.rules.Target.TheVariants.{Cfa};
ghost use Rattle.sym_rules.specs.Rules.{spelled_rules};
ghost use Rattle.sym_records.specs.Canon.{canon_text};
ghost use Rattle.rule_postfix.specs.RowParts.{cfa_part, column_part, rule_at};
ghost use Rattle.rule_postfix.specs.FrameLines.{change};
ghost use Rattle.rule_postfix.specs.RowRules.{if_other, row_rules, changed_rules, some_becomes_unspecified};
ghost use Rattle.rule_postfix.specs.internal.Backward.{column_of, target_of, rule_text, expr_spelled};

use crate::backward_line::BackwardLine;
use crate::column_target::ColumnTarget;
use crate::parts::becomes_unspecified;
use crate::rules::{ExprRule, LINE, Rows, empty_row, write_cfa, write_column};
use expr_postfix::rule_tokens;
use frame_entries::Fde;
use frame_rows::Row;
use std::alloc::Global;
use std::slice;
use sym_edges::{OutOfMemory, Stop};
use sym_records::spell_rules;
use sym_rules::{RuleText, Target};

/// Adds a rule.
#[tactic(auto, using(crate::proofs::LongLemmas::words_added))]
fn add_rule(alloc: Global, text: &mut Vec<u8>, rule: &RuleText) -> Result<(), OutOfMemory>
    ensures { OnOk result (text.new.items ≡ text.old.items ++ rule_text rule.now.target (Some rule.now.tokens)) }
{
    let spelled = spell_rules(alloc, slice::from_ref(rule))?;
    text.extend_from_slice(spelled.as_slice())?;
    Ok(())
}

/// Adds the rule of a target that is an expression of an entry, if rule text can express it.
#[tactic(auto, using(crate::proofs::LongLemmas::expression_added, crate::proofs::LongLemmas::no_words_added))]
fn add_expression(
    alloc: Global,
    text: &mut Vec<u8>,
    target: Target,
    fde: &Fde<'_>,
    rule: ExprRule,
) -> Result<(), OutOfMemory>
    ensures { OnOk result (text.new.items ≡ text.old.items ++ rule_text target (expr_spelled fde.now rule)) }
{
    let bytes = rule.place.bytes(fde.initial_instructions, fde.instructions);
    match rule_tokens(alloc, bytes, rule.start, rule.fetch) {
        Ok(tokens) => add_rule(alloc, text, &RuleText { target, tokens }),
        Err(Stop::Fault(_)) => Ok(()),
        Err(Stop::NoMemory) => Err(OutOfMemory),
    }
}

/// Adds the rule of the CFA, if two rows differ in it.
#[tactic(auto, using(crate::proofs::LongLemmas::line_added, crate::proofs::LongLemmas::expression_added))]
fn add_cfa(
    alloc: Global,
    text: &mut Vec<u8>,
    line: &mut BackwardLine<LINE>,
    rows: &Rows<'_, '_, '_>,
) -> Result<(), OutOfMemory>
    ensures { OnOk result (text.new.items ≡ text.old.items ++ rule_text Cfa (if_other rows.now.fde.now Cfa (cfa_part rows.now.before.now.cfa) (cfa_part rows.now.after.now.cfa))) }
{
    line.clear();
    match write_cfa(rows, line) {
        Ok(()) => line.add_to(text),
        Err(rule) => add_expression(alloc, text, Target::Cfa, rows.fde, rule),
    }
}

fn column_target(target: ColumnTarget) -> Target
    ensures { result ≡ target_of target }
{
    match target {
        ColumnTarget::Ra => Target::Ra,
        ColumnTarget::Reg(number) => Target::Reg(number),
    }
}

/// Adds the rule of a column, if two rows differ in it.
#[tactic(auto, using(crate::proofs::LongLemmas::line_added, crate::proofs::LongLemmas::expression_added))]
fn add_column(
    alloc: Global,
    text: &mut Vec<u8>,
    line: &mut BackwardLine<LINE>,
    target: ColumnTarget,
    rows: &Rows<'_, '_, '_>,
) -> Result<(), OutOfMemory>
    ensures { OnOk result (text.new.items ≡ text.old.items ++ rule_text (target_of target) (if_other rows.now.fde.now (target_of target) (column_part (column_of target) (rule_at rows.now.before.now (column_of target))) (column_part (column_of target) (rule_at rows.now.after.now (column_of target))))) }
{
    line.clear();
    match write_column(rows, target, line) {
        Ok(()) => line.add_to(text),
        Err(rule) => add_expression(alloc, text, column_target(target), rows.fde, rule),
    }
}

/// Adds the rules of the targets in which two rows of an entry differ.
#[tactic(auto, using(crate::proofs::LongLemmas::first_two, crate::proofs::LongLemmas::one_added))]
fn add_changes(
    alloc: Global,
    text: &mut Vec<u8>,
    line: &mut BackwardLine<LINE>,
    rows: &Rows<'_, '_, '_>,
) -> Result<(), OutOfMemory>
    ensures { OnOk result (text.new.items ≡ text.old.items ++ spelled_rules (changed_rules rows.now.fde.now rows.now.before.now rows.now.after.now)) }
{
    add_cfa(alloc, text, line, rows)?;
    add_column(alloc, text, line, ColumnTarget::Ra, rows)?;
    'registers: for number in 0..16u8 {
        add_column(alloc, text, line, ColumnTarget::Reg(number), rows)?;
    }
    Ok(())
}

/// Adds the rules that a row of an entry has, and the end of their line.
#[tactic(auto, using(crate::proofs::LongLemmas::row_added))]
pub fn add_row_rules(
    alloc: Global,
    text: &mut Vec<u8>,
    line: &mut BackwardLine<LINE>,
    fde: &Fde<'_>,
    row: &Row,
) -> Result<(), OutOfMemory>
    ensures { OnOk result (text.new.items ≡ text.old.items ++ (spelled_rules (row_rules fde.now row.now) ++ 10 ∷ [])) }
{
    let rows = Rows {
        fde,
        before: &empty_row(),
        after: row,
    };
    add_changes(alloc, text, line, &rows)?;
    text.push(b'\n')?;
    Ok(())
}

/// Adds a record of the changes between two rows of an entry, if there are any.
#[tactic(auto, using(crate::proofs::LongLemmas::record_added, crate::proofs::LongLemmas::no_record))]
pub fn add_change_record(
    alloc: Global,
    text: &mut Vec<u8>,
    line: &mut BackwardLine<LINE>,
    address: u64,
    rows: &Rows<'_, '_, '_>,
) -> Result<(), OutOfMemory>
    ensures { OnOk result (text.new.items ≡ text.old.items ++ canon_text (change address (changed_rules rows.now.fde.now rows.now.before.now rows.now.after.now))) }
{
    let mut changes = Vec::new(alloc);
    add_changes(alloc, &mut changes, line, rows)?;
    if changes.is_empty() {
        return Ok(());
    }
    line.clear();
    line.put_change(address);
    line.add_to(text)?;
    text.extend_from_slice(changes.as_slice())?;
    text.push(b'\n')?;
    Ok(())
}

/// Whether some column becomes unspecified.
#[tactic(auto, using(crate::proofs::RulesLemmas::one_lost, crate::proofs::LongLemmas::none_lost_yet, crate::proofs::RulesLemmas::no_more_rests), unfolding(crate::specs::RowRules::some_becomes_unspecified))]
pub fn lose_column(before: &Row, after: &Row) -> bool
    ensures { result ≡ some_becomes_unspecified before.now after.now }
{
    'columns: for column in 0..17u8 {
        if becomes_unspecified(before, after, column) {
            return true;
        }
    }
    false
}
