//! The rules that count at an address.
ghost use Rattle.std.specs.Prelude.{◌≡◌, ◌<◌, [], ◌∷◌, ◌++◌, List, length, Some, slice_get};
ghost use Rattle.std.specs.Option.{option_copied};
ghost use Rattle.cfi_eval.specs.Inits.{init_place};
ghost use Rattle.sym_records.specs.declared.line.SymLine.{SymLine};
ghost use Rattle.sym_rules.specs.declared.rules.RuleText.{RuleText};
ghost use Rattle.sym_judge.specs.internal.Tables.{rules_of, words_at, words_in, rules_at, IsTable, IsTableAt};

use sym_records::SymLine;
use sym_rules::{RuleText, Target, Token};

/// The place of a rule: that of its record in the file, and its own in the record.
#[derive(Clone, Copy, Debug, PartialEq, Eq)]
pub struct RulePlace {
    pub line: usize,
    pub rule: usize,
}

/// Whether a rule comes before another one.
pub(crate) fn is_before(a: RulePlace, b: RulePlace) -> bool {
    a.line < b.line || (a.line == b.line && a.rule < b.rule)
}

/// The last rule of each target.
#[derive(Clone, Copy, Debug)]
pub struct RuleTable {
    pub cfa: Option<RulePlace>,
    pub ra: Option<RulePlace>,
    pub registers: [Option<RulePlace>; 16],
}

/// The rules of a record.
pub(crate) fn rules_of(line: &SymLine) -> &[RuleText]
    ensures { result.now ≡ rules_of line.now }
{
    match line {
        SymLine::Init { rules, .. } | SymLine::Change { rules, .. } => rules.as_slice(),
        _ => &[],
    }
}

/// The words of the rule at a place.
pub(crate) fn words_of(lines: &[SymLine], place: Option<RulePlace>) -> Option<&[Token]>
    ensures { option_copied result ≡ words_in lines.now place }
{
    let place = place?;
    let line = lines.get(place.line)?;
    let rule = rules_of(line).get(place.rule)?;
    Some(rule.tokens.as_slice())
}

/// A table without rules.
fn no_rules() -> RuleTable
    ensures { (lines : List SymLine) → IsTable lines [] result }
{
    RuleTable {
        cfa: None,
        ra: None,
        registers: [None; 16],
    }
}

/// Adds a rule that comes after those of a table.
fn put_rule(table: &mut RuleTable, rule: &RuleText, place: RulePlace)
    ensures { (lines : List SymLine) (rules : List RuleText) → words_at lines place ≡ Some rule.now.tokens → IsTable lines rules table.old → IsTable lines (rules ++ rule.now ∷ []) table.new }
{
    match &rule.target {
        Target::Cfa => table.cfa = Some(place),
        Target::Ra => table.ra = Some(place),
        Target::Reg(register) => {
            if *register < 16 {
                table.registers[usize::from(*register)] = Some(place);
            }
        }
        Target::Other(_) => {}
    }
}

/// Adds the rules of the record at a place, which come after those of a table.
fn put_rules(table: &mut RuleTable, rules: &[RuleText], line: usize)
    ensures { (lines : List SymLine) (before : List RuleText) → rules_at lines line ≡ rules.now → IsTable lines before table.old → IsTable lines (before ++ rules.now) table.new }
{
    'rules: for rule in 0..rules.len() {
        put_rule(table, &rules[rule], RulePlace { line, rule });
    }
}

/// The rules at an address; the INIT at the given place is the first that covers it.
pub(crate) fn table_at(lines: &[SymLine], init: usize, address: u64) -> RuleTable
    requires within { init < length lines.now }
    requires first { init_place lines.now address ≡ Some init }
    ensures { IsTableAt lines.now address result }
{
    let mut table = no_rules();
    let SymLine::Init { rules, .. } = &lines[init] else {
        unreachable!()
    };
    put_rules(&mut table, rules.as_slice(), init);
    'lines: for place in init + 1..lines.len() {
        let SymLine::Change {
            address: start,
            rules,
        } = &lines[place]
        else {
            return table;
        };
        if *start <= address {
            put_rules(&mut table, rules.as_slice(), place);
        }
    }
    table
}
