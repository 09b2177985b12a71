//! What a row says of each target, in one form.
ghost use Rattle.std.specs.Prelude.{◌≡◌, ◌<◌, true};
ghost use Rattle.sym_edges.specs.Abi.{is_kept};
ghost use Rattle.rule_postfix.specs.RowParts.{own_as_same, by_group, column_part, cfa_part, part_of, is_unruled, rule_at, becomes_unspecified, same_bool, same_place, same_rule, same_cfa, same_part, is_unspecified};

use expr_steps::Place;
use frame_rows::{CfaRule, Row, Rule};

/// What a row says about a target: nothing that a record must say, the CFA's rule, or a column's rule.
#[derive(Clone, Copy, PartialEq, Eq, Debug)]
pub enum RowPart {
    Unruled,
    Base(CfaRule),
    Column(Rule),
}

/// rbx, rbp and r12 to r15, which a call keeps.
#[tactic(auto, unfolding(sym_edges::specs::Abi::is_kept))]
pub fn is_kept(column: u8) -> bool
    ensures { result ≡ is_kept column }
{
    column == 3 || column == 6 || (12 <= column && column <= 15)
}

/// Whether nothing is specified about the column without a rule. Then no rule can say that the
/// column is unruled again.
#[tactic(auto, unfolding(crate::specs::RowParts::is_unspecified, sym_edges::specs::Abi::default_of))]
pub fn is_unspecified(column: u8) -> bool
    ensures { result ≡ is_unspecified column }
{
    !is_kept(column) && column != 7
}

fn own_as_same(column: u8, given: Rule) -> Rule
    ensures { result ≡ own_as_same column given }
{
    match given {
        Rule::Register(register) => {
            if register == column {
                Rule::Same
            } else {
                given
            }
        }
        _ => given,
    }
}

fn by_group(kept: bool, given: Rule) -> RowPart
    ensures { result ≡ by_group kept given }
{
    match given {
        Rule::Rest => RowPart::Unruled,
        Rule::Undefined => RowPart::Unruled,
        Rule::Same => {
            if kept {
                RowPart::Unruled
            } else {
                RowPart::Column(Rule::Same)
            }
        }
        _ => RowPart::Column(given),
    }
}

/// The part of a column, given its rule.
#[tactic(auto, unfolding(crate::specs::RowParts::column_part))]
pub fn column_part(column: u8, given: Rule) -> RowPart
    ensures { result ≡ column_part column given }
{
    by_group(is_kept(column), own_as_same(column, given))
}

pub fn is_unruled(part: RowPart) -> bool
    ensures { result ≡ is_unruled part }
{
    match part {
        RowPart::Unruled => true,
        _ => false,
    }
}

fn same_bool(a: bool, b: bool) -> bool
    ensures { result ≡ same_bool a b }
{
    if a { b } else { !b }
}

fn same_place(a: Place, b: Place) -> bool
    ensures { result ≡ same_place a b }
{
    same_bool(a.own, b.own) && (a.start == b.start && a.len == b.len)
}

fn same_rule(a: Rule, b: Rule) -> bool
    ensures { result ≡ same_rule a b }
{
    match (a, b) {
        (Rule::Rest, Rule::Rest) => true,
        (Rule::Undefined, Rule::Undefined) => true,
        (Rule::Same, Rule::Same) => true,
        (Rule::Offset(m), Rule::Offset(n)) => m == n,
        (Rule::ValOffset(m), Rule::ValOffset(n)) => m == n,
        (Rule::Register(r), Rule::Register(s)) => r == s,
        (
            Rule::Expr { fetch, place },
            Rule::Expr {
                fetch: other_fetch,
                place: other,
            },
        ) => same_bool(fetch, other_fetch) && same_place(place, other),
        _ => false,
    }
}

fn same_cfa(a: &CfaRule, b: &CfaRule) -> bool
    ensures { result ≡ same_cfa a.now b.now }
{
    match (a, b) {
        (
            CfaRule::Base { register, offset },
            CfaRule::Base {
                register: other_register,
                offset: other_offset,
            },
        ) => register == other_register && offset == other_offset,
        (CfaRule::Expr { place }, CfaRule::Expr { place: other }) => same_place(*place, *other),
        _ => false,
    }
}

pub fn same_part(a: RowPart, b: RowPart) -> bool
    ensures { result ≡ same_part a b }
{
    match (a, b) {
        (RowPart::Unruled, RowPart::Unruled) => true,
        (RowPart::Base(x), RowPart::Base(y)) => same_cfa(&x, &y),
        (RowPart::Column(x), RowPart::Column(y)) => same_rule(x, y),
        _ => false,
    }
}

/// Whether the CFA has the same part in two rows.
#[inline(always)]
pub fn keeps_cfa(before: &Row, after: &Row) -> bool
    ensures { result ≡ same_part (cfa_part before.now.cfa) (cfa_part after.now.cfa) }
{
    match (&before.cfa, &after.cfa) {
        (None, None) => true,
        (Some(a), Some(b)) => same_cfa(a, b),
        _ => false,
    }
}

/// The rule of a column.
pub fn rule_at(row: &Row, column: u8) -> Rule
    ensures { result ≡ rule_at row.now column }
{
    match row.rules.get(column as usize) {
        Some(given) => *given,
        None => Rule::Rest,
    }
}

/// Whether two rules are equal; most pairs are both `Rest`.
#[inline(always)]
fn equal(a: &Rule, b: &Rule) -> bool
    ensures { result ≡ true → a.now ≡ b.now }
{
    match (a, b) {
        (Rule::Rest, Rule::Rest) => true,
        (Rule::Offset(m), Rule::Offset(n)) => m == n,
        _ => *a == *b,
    }
}

/// Whether a column has the same rule in two rows.
#[inline(always)]
pub fn stays(before: &Row, after: &Row, column: u8) -> bool
    requires { column < 17 }
    ensures { result ≡ true → rule_at before.now column ≡ rule_at after.now column }
{
    equal(
        &before.rules[column as usize],
        &after.rules[column as usize],
    )
}

/// Whether the column becomes unspecified.
#[tactic(auto, unfolding(crate::specs::RowParts::becomes_unspecified))]
pub fn becomes_unspecified(before: &Row, after: &Row, column: u8) -> bool
    ensures { result ≡ becomes_unspecified before.now after.now column }
{
    is_unspecified(column)
        && is_unruled(column_part(column, rule_at(after, column)))
        && !is_unruled(column_part(column, rule_at(before, column)))
}
