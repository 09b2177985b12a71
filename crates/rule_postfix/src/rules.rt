//! The rules of a record: those that a row has, or those that differ between two rows. They are written from the last to the first into the line of
//! the record.
ghost use Rattle.std.specs.Prelude.{◌≡◌, ◌+◌, ◌≤◌, ◌∷◌, [], ◌++◌, true, false, None, Some, length, codes, MatchOption, MatchResult, OnOk};
ghost use Rattle.std.specs.List.{flat_map};
ghost use Rattle.sym_rules.specs.Rules.{spelled_token, spelled_rules, target_word};
ghost use Rattle.sym_rules.specs.declared.rules.Target.TheVariants.{Cfa, Ra};
ghost use Rattle.sym_rules.specs.declared.rules.Token.TheVariants as token;
ghost use Rattle.frame_rows.specs.Columns.{StayOutside};
ghost use Rattle.frame_rows.specs.Rows.{empty_row};
ghost use Rattle.rule_postfix.specs.RowParts.{cfa_part, column_part, rule_at};
ghost use Rattle.rule_postfix.specs.RowRules.{own_name, unruled_tokens, rule_spelled, spelled, rules_of, registers, if_other, if_changed, row_rules, changed_rules, some_unspecified_below, some_becomes_unspecified};
ghost use Rattle.rule_postfix.specs.internal.Backward.{column_of, target_of, rule_text, expr_spelled, is_base, IfLost};

use crate::backward_line::BackwardLine;
use crate::column_target::ColumnTarget;
use crate::parts::{
    RowPart, becomes_unspecified, column_part, is_kept, keeps_cfa, rule_at, same_part, stays,
};
use expr_steps::Place;
use frame_entries::Fde;
use frame_rows::{CfaRule, Columns, Row, Rule};

/// The room of a line, in bytes: enough for all rules but expressions.
pub const LINE: usize = 768;

/// Two rows of an entry.
#[derive(Clone, Copy)]
pub struct Rows<'r, 'f, 'a> {
    pub fde: &'f Fde<'a>,
    pub before: &'r Row,
    pub after: &'r Row,
}

/// The CFA plus an offset.
#[inline]
#[tactic(auto, using(crate::proofs::TokenLemmas::sum_written))]
fn write_sum(offset: i64, line: &mut BackwardLine<LINE>)
    requires room { length line.old + 29 ≤ 768 }
    ensures short { length line.new ≤ length line.old + 29 }
    ensures written { line.new ≡ flat_map spelled_token (token.Cfa ∷ token.Number offset ∷ token.Add ∷ []) ++ line.old }
{
    line.put_bytes(b" +");
    line.put_signed(offset);
    line.put_bytes(b" .cfa ");
}

/// The word at the CFA plus an offset.
#[inline]
#[tactic(auto, using(crate::proofs::TokenLemmas::word_written))]
fn write_word_at(offset: i64, line: &mut BackwardLine<LINE>)
    requires room { length line.old + 31 ≤ 768 }
    ensures short { length line.new ≤ length line.old + 31 }
    ensures written { line.new ≡ flat_map spelled_token (token.Cfa ∷ token.Number offset ∷ token.Add ∷ token.Fetch ∷ []) ++ line.old }
{
    line.put_bytes(b" + ^");
    line.put_signed(offset);
    line.put_bytes(b" .cfa ");
}

/// The value of a register.
#[inline]
#[tactic(auto, using(crate::proofs::TokenLemmas::value_written))]
fn write_value(number: u8, line: &mut BackwardLine<LINE>)
    requires room { length line.old + 5 ≤ 768 }
    ensures short { length line.new ≤ length line.old + 5 }
    ensures written { line.new ≡ flat_map spelled_token (token.Reg number ∷ []) ++ line.old }
{
    line.put_register(number);
    line.put_byte(b' ');
}

/// A register plus an offset.
#[inline(always)]
#[tactic(auto, using(crate::proofs::TokenLemmas::base_written))]
fn write_base(register: u8, offset: i64, line: &mut BackwardLine<LINE>)
    requires room { length line.old + 29 ≤ 768 }
    ensures short { length line.new ≤ length line.old + 29 }
    ensures written { line.new ≡ flat_map spelled_token (token.Reg register ∷ token.Number offset ∷ token.Add ∷ []) ++ line.old }
{
    line.put_bytes(b" +");
    line.put_signed(offset);
    line.put_byte(b' ');
    line.put_register(register);
    line.put_byte(b' ');
}

/// A space, the name of a column, and `:`.
#[inline]
#[tactic(auto, using(crate::proofs::TokenLemmas::register_written))]
fn write_target(target: ColumnTarget, line: &mut BackwardLine<LINE>)
    requires room { length line.old + 6 ≤ 768 }
    ensures short { length line.new ≤ length line.old + 6 }
    ensures written { line.new ≡ (32 ∷ target_word (target_of target)) ++ line.old }
{
    match target {
        ColumnTarget::Ra => line.put_bytes(b" .ra:"),
        ColumnTarget::Reg(number) => {
            line.put_byte(b':');
            line.put_register(number);
            line.put_byte(b' ');
        }
    }
}

/// The rule that a register has its own value; the return address has none.
#[tactic(auto, using(crate::proofs::TokenLemmas::rule_written, crate::proofs::TokenLemmas::no_rule))]
fn write_own(target: ColumnTarget, line: &mut BackwardLine<LINE>)
    requires room { length line.old + 40 ≤ 768 }
    ensures short { length line.new ≤ length line.old + 40 }
    ensures written { line.new ≡ rule_text (target_of target) (own_name (target_of target)) ++ line.old }
{
    match target {
        ColumnTarget::Ra => {}
        ColumnTarget::Reg(number) => {
            write_value(number, line);
            write_target(target, line);
        }
    }
}

/// The rule that says that a column is unruled again, if there is one.
#[tactic(auto, using(crate::proofs::TokenLemmas::rule_written, crate::proofs::TokenLemmas::no_rule), unfolding(sym_edges::specs::Abi::default_of))]
fn write_unruled(target: ColumnTarget, line: &mut BackwardLine<LINE>)
    requires room { length line.old + 40 ≤ 768 }
    ensures short { length line.new ≤ length line.old + 40 }
    ensures written { line.new ≡ rule_text (target_of target) (unruled_tokens (target_of target)) ++ line.old }
{
    match target {
        ColumnTarget::Ra => {}
        ColumnTarget::Reg(number) => {
            if is_kept(number) {
                write_value(number, line);
                write_target(target, line);
            } else if number == 7 {
                line.put_bytes(b" .cfa");
                write_target(target, line);
            }
        }
    }
}

/// An expression of an entry that is a rule: whether the CFA may be on the stack at its start, and
/// whether the value is the word at the address that the expression gives. The words of the
/// expression may not fit into a line.
#[derive(Clone, Copy)]
pub struct ExprRule {
    pub start: bool,
    pub fetch: bool,
    pub place: Place,
}

/// Writes the rule of a column, if the rule has a spelling. A rule that is an expression is
/// returned and not written.
#[tactic(auto, using(crate::proofs::TokenLemmas::rule_written, crate::proofs::TokenLemmas::no_rule))]
fn write_rule(
    fde: &Fde<'_>,
    target: ColumnTarget,
    given: Rule,
    line: &mut BackwardLine<LINE>,
) -> Result<(), ExprRule>
    requires room { length line.old + 40 ≤ 768 }
    ensures short { OnOk result (length line.new ≤ length line.old + 40) }
    ensures written { MatchResult result
        (λ _. line.new ≡ rule_text (target_of target) (rule_spelled fde.now (target_of target) given) ++ line.old)
        (λ rule. rule_spelled fde.now (target_of target) given ≡ expr_spelled fde.now rule) }
{
    match given {
        Rule::Rest | Rule::Undefined => {}
        Rule::Same => write_own(target, line),
        Rule::Offset(offset) => {
            write_word_at(offset, line);
            write_target(target, line);
        }
        Rule::ValOffset(offset) => {
            write_sum(offset, line);
            write_target(target, line);
        }
        Rule::Register(register) => {
            write_value(register, line);
            write_target(target, line);
        }
        Rule::Expr { fetch, place } => {
            return Err(ExprRule {
                start: true,
                fetch,
                place,
            });
        }
    }
    Ok(())
}

/// Writes the part of a column, if the part has a spelling. A part that is an expression is
/// returned and not written.
#[tactic(auto, unfolding(crate::specs::RowRules::spelled))]
fn write_part(
    fde: &Fde<'_>,
    target: ColumnTarget,
    part: RowPart,
    line: &mut BackwardLine<LINE>,
) -> Result<(), ExprRule>
    requires column { is_base part ≡ false }
    requires room { length line.old + 40 ≤ 768 }
    ensures short { OnOk result (length line.new ≤ length line.old + 40) }
    ensures written { MatchResult result
        (λ _. line.new ≡ rule_text (target_of target) (spelled fde.now (target_of target) part) ++ line.old)
        (λ rule. spelled fde.now (target_of target) part ≡ expr_spelled fde.now rule) }
{
    match part {
        RowPart::Unruled => {
            write_unruled(target, line);
            Ok(())
        }
        RowPart::Base(_) => unreachable!(),
        RowPart::Column(given) => write_rule(fde, target, given, line),
    }
}

/// Writes the rule that a column has in the second of two rows, if they differ in it. A rule that
/// is an expression is returned and not written.
#[tactic(auto, using(crate::proofs::TokenLemmas::no_rule, crate::proofs::PartLemmas::no_base))]
pub fn write_column(
    rows: &Rows<'_, '_, '_>,
    target: ColumnTarget,
    line: &mut BackwardLine<LINE>,
) -> Result<(), ExprRule>
    requires room { length line.old + 40 ≤ 768 }
    ensures short { OnOk result (length line.new ≤ length line.old + 40) }
    ensures written { MatchResult result
        (λ _. line.new ≡ rule_text (target_of target) (if_other rows.now.fde.now (target_of target) (column_part (column_of target) (rule_at rows.now.before.now (column_of target))) (column_part (column_of target) (rule_at rows.now.after.now (column_of target)))) ++ line.old)
        (λ rule. if_other rows.now.fde.now (target_of target) (column_part (column_of target) (rule_at rows.now.before.now (column_of target))) (column_part (column_of target) (rule_at rows.now.after.now (column_of target))) ≡ expr_spelled rows.now.fde.now rule) }
{
    let column = target.column();
    let part = column_part(column, rule_at(rows.after, column));
    if same_part(column_part(column, rule_at(rows.before, column)), part) {
        return Ok(());
    }
    write_part(rows.fde, target, part, line)
}

/// Why the changes between two rows are not written into a line.
#[derive(Clone, Copy)]
pub enum Unwritten {
    /// A column becomes unspecified, which no rule can say.
    Unspecified,
    /// A rule is an expression, whose words may not fit into the line.
    Expression,
}

/// Writes the rule that the CFA has in the second of two rows, if they differ in it. A rule that is
/// an expression is returned and not written.
#[inline(always)]
#[tactic(auto, using(crate::proofs::TokenLemmas::cfa_written, crate::proofs::TokenLemmas::no_rule), unfolding(crate::specs::RowRules::spelled, expr_postfix::specs::ExprTokens::rule_tokens))]
pub fn write_cfa(rows: &Rows<'_, '_, '_>, line: &mut BackwardLine<LINE>) -> Result<(), ExprRule>
    requires room { length line.old + 40 ≤ 768 }
    ensures short { OnOk result (length line.new ≤ length line.old + 40) }
    ensures written { MatchResult result
        (λ _. line.new ≡ rule_text Cfa (if_other rows.now.fde.now Cfa (cfa_part rows.now.before.now.cfa) (cfa_part rows.now.after.now.cfa)) ++ line.old)
        (λ rule. if_other rows.now.fde.now Cfa (cfa_part rows.now.before.now.cfa) (cfa_part rows.now.after.now.cfa) ≡ expr_spelled rows.now.fde.now rule) }
{
    if keeps_cfa(rows.before, rows.after) {
        return Ok(());
    }
    match &rows.after.cfa {
        None => Ok(()),
        Some(CfaRule::Base { register, offset }) => {
            write_base(*register, *offset, line);
            line.put_bytes(b" .cfa:");
            Ok(())
        }
        Some(CfaRule::Expr { place }) => Err(ExprRule {
            start: false,
            fetch: false,
            place: *place,
        }),
    }
}

/// Writes the rules of the registers in which two rows differ, by number. The rows differ in no column outside `columns`. Most of `columns` have the
/// same rule in both rows, so this is checked first.
#[tactic(auto, using(crate::proofs::RulesLemmas::no_register, crate::proofs::RulesLemmas::register_stays, crate::proofs::RulesLemmas::one_register_more, crate::proofs::RulesLemmas::none_lost, crate::proofs::RulesLemmas::stays_kept, crate::proofs::RulesLemmas::one_kept, crate::proofs::RulesLemmas::one_lost, crate::proofs::RulesLemmas::all_kept, crate::proofs::RulesLemmas::all_registers))]
fn write_registers(
    rows: &Rows<'_, '_, '_>,
    columns: Columns,
    line: &mut BackwardLine<LINE>,
) -> Result<(), Unwritten>
    requires alike { StayOutside columns rows.now.before.now rows.now.after.now }
    requires room { length line.old + 640 ≤ 768 }
    ensures kept { MatchResult result (λ _. some_unspecified_below rows.now.before.now rows.now.after.now 16 ≡ false) (IfLost rows.now.before.now rows.now.after.now) }
    ensures short { OnOk result (length line.new ≤ length line.old + 640) }
    ensures written { OnOk result (line.new ≡ spelled_rules (rules_of (if_changed rows.now.fde.now rows.now.before.now rows.now.after.now) (registers 16)) ++ line.old) }
{
    let mut number = columns.end.min(16);
    'turns: while columns.first < number {
        number -= 1;
        if !stays(rows.before, rows.after, number) {
            if becomes_unspecified(rows.before, rows.after, number) {
                return Err(Unwritten::Unspecified);
            }
            match write_column(rows, ColumnTarget::Reg(number), line) {
                Ok(()) => {}
                Err(_) => return Err(Unwritten::Expression),
            }
        }
    }
    Ok(())
}

/// Writes the rule of the return address, if two rows differ in it.
#[tactic(auto, using(crate::proofs::RulesLemmas::one_lost, crate::proofs::RulesLemmas::ra_kept, crate::proofs::RulesLemmas::ra_stays, crate::proofs::RulesLemmas::no_ra_text))]
fn write_ra(rows: &Rows<'_, '_, '_>, line: &mut BackwardLine<LINE>) -> Result<(), Unwritten>
    requires kept { some_unspecified_below rows.now.before.now rows.now.after.now 16 ≡ false }
    requires room { length line.old + 40 ≤ 768 }
    ensures kept { MatchResult result (λ _. some_becomes_unspecified rows.now.before.now rows.now.after.now ≡ false) (IfLost rows.now.before.now rows.now.after.now) }
    ensures short { OnOk result (length line.new ≤ length line.old + 40) }
    ensures written { OnOk result (line.new ≡ rule_text Ra (if_other rows.now.fde.now Ra (column_part 16 (rule_at rows.now.before.now 16)) (column_part 16 (rule_at rows.now.after.now 16))) ++ line.old) }
{
    if stays(rows.before, rows.after, 16) {
        return Ok(());
    }
    if becomes_unspecified(rows.before, rows.after, 16) {
        return Err(Unwritten::Unspecified);
    }
    match write_column(rows, ColumnTarget::Ra, line) {
        Ok(()) => Ok(()),
        Err(_) => Err(Unwritten::Expression),
    }
}

/// Writes the rules of the targets in which two rows of an entry differ, if no column becomes unspecified and none of these rules is an expression.
/// The rows differ in no column outside `columns`.
#[tactic(auto, using(crate::proofs::RulesLemmas::all_rules))]
pub fn write_changes(
    rows: &Rows<'_, '_, '_>,
    columns: Columns,
    line: &mut BackwardLine<LINE>,
) -> Result<(), Unwritten>
    requires alike { StayOutside columns rows.now.before.now rows.now.after.now }
    requires room { length line.old + 720 ≤ 768 }
    ensures kept { MatchResult result (λ _. some_becomes_unspecified rows.now.before.now rows.now.after.now ≡ false) (IfLost rows.now.before.now rows.now.after.now) }
    ensures short { OnOk result (length line.new ≤ length line.old + 720) }
    ensures written { OnOk result (line.new ≡ spelled_rules (changed_rules rows.now.fde.now rows.now.before.now rows.now.after.now) ++ line.old) }
{
    match write_registers(rows, columns, line) {
        Ok(()) => {}
        Err(why) => return Err(why),
    }
    write_ra(rows, line)?;
    match write_cfa(rows, line) {
        Ok(()) => Ok(()),
        Err(_) => Err(Unwritten::Expression),
    }
}

/// The row without rules: seventeen columns, those of the registers and that of the return address.
#[tactic(auto, unfolding(frame_rows::specs::Rows::empty_row))]
pub fn empty_row() -> Row
    ensures { result ≡ empty_row }
{
    Row {
        cfa: None,
        rules: [Rule::Rest; 17],
    }
}

/// Writes the rules of a row of an entry, and the end of their line, if none of the rules is an expression.
#[tactic(auto, using(crate::proofs::RulesLemmas::from_empty, crate::proofs::RulesLemmas::alike_outside))]
pub fn write_row_rules(
    fde: &Fde<'_>,
    row: &Row,
    line: &mut BackwardLine<LINE>,
) -> Result<(), Unwritten>
    ensures { OnOk result (line.new ≡ spelled_rules (row_rules fde.now row.now) ++ 10 ∷ []) }
{
    line.clear();
    line.put_byte(b'\n');
    let rows = Rows {
        fde,
        before: &empty_row(),
        after: row,
    };
    match write_changes(&rows, Columns::all(), line) {
        Ok(()) => Ok(()),
        Err(why) => Err(why),
    }
}
