//! The rules that apply at an address in a symbol file.
ghost use Rattle.std.specs.Prelude.{◌≡◌, ◌<◌, ◌++◌, true, List, Option, Some, length, IfSome};
ghost use Rattle.std.specs.Option.{is_some, option_copied, option_or};
ghost use Rattle.cfi_eval.specs.Inits.{is_init_at, init_place};
ghost use Rattle.cfi_eval.specs.TextRules.{rule_for, changes_until, text_rules};
ghost use Rattle.cfi_eval.specs.internal.Tables.{target_place, rule_in, IsTable};
ghost use Rattle.sym_rules.specs.declared.rules.Target.{Target};
ghost use Rattle.sym_rules.specs.declared.rules.Target.TheVariants.{Ra};
ghost use Rattle.sym_rules.specs.declared.rules.Token.{Token};

use std::marker::Model;
use sym_records::{SymFile, SymLine};
use sym_rules::{RuleText, Target, Tokens};

/// Whether the record is an INIT that covers the address.
fn is_init_at(line: &SymLine, address: u64) -> bool
    ensures { result ≡ is_init_at address line.now }
{
    match line {
        SymLine::Init {
            address: start,
            size,
            ..
        } => *start <= address && address - *start < *size,
        _ => false,
    }
}

/// The index of the first INIT that covers the address.
#[tactic(auto, unfolding(crate::specs::Inits::init_place))]
pub fn init_at(file: &SymFile, address: u64) -> Option<usize>
    ensures { result ≡ init_place file.now address }
{
    file.as_slice()
        .iter()
        .position(|line| is_init_at(line, address))
}

/// The number of targets in a frame.
const TARGETS: usize = 18;

/// The place of a target among the targets of a frame: the registers by their numbers, then the CFA
/// and the return address.
fn place_of(target: &Target) -> Option<usize>
    ensures place { result ≡ target_place target.now }
    ensures within { IfSome result (λ place. place < 18) }
{
    match target {
        Target::Reg(register) if *register < 16 => Some(usize::from(*register)),
        Target::Cfa => Some(16),
        Target::Ra => Some(17),
        _ => None,
    }
}

/// Puts a rule into a table, in place of earlier rules with its target.
fn put_rule<'r>(table: &mut [Option<&'r Tokens>; TARGETS], rule: &'r RuleText)
    ensures { (find : Target → Option (List Token)) → IsTable find table.old → IsTable (λ t. option_or (rule_in t rule.now) (find t)) table.new }
{
    let Some(place) = place_of(&rule.target) else {
        return;
    };
    table[place] = Some(&rule.tokens);
}

/// Puts rules into a table, each in place of earlier rules with its target.
fn put_rules<'r>(table: &mut [Option<&'r Tokens>; TARGETS], rules: &'r [RuleText])
    ensures { (find : Target → Option (List Token)) → IsTable find table.old → IsTable (λ t. option_or (rule_for t rules.now) (find t)) table.new }
{
    'rules: for rule in rules {
        put_rule(table, rule);
    }
}

/// The words of the last rule for each target of a frame. They are found in one pass over `first`
/// and the STACK CFI records at the start of `behind`, up to an address.
fn table_at<'r>(
    first: &'r [RuleText],
    behind: &'r [SymLine],
    address: u64,
) -> [Option<&'r Tokens>; TARGETS]
    ensures { IsTable (λ t. rule_for t (first.now ++ changes_until address behind.now)) result }
{
    let mut table = [None; TARGETS];
    put_rules(&mut table, first);
    'lines: for line in behind {
        let SymLine::Change {
            address: start,
            rules,
        } = line
        else {
            return table;
        };
        if *start <= address {
            put_rules(&mut table, rules.as_slice());
        }
    }
    table
}

/// The rules that apply at an address: those of an INIT, then those of the changes directly after
/// it, up to that address. A later rule overrides an earlier one. Contracts see the list of all
/// these rules.
#[derive(Drop)]
pub struct RulesAt<'r> {
    first: &'r [RuleText],
    behind: &'r [SymLine],
    address: u64,
    /// The words of the last rule for each target of a frame.
    table: [Option<&'r Tokens>; TARGETS],
}

impl<'r> Model for RulesAt<'r> {
    ghost use Rattle.std.specs.Prelude.{List, ◌++◌};
    ghost use Rattle.sym_rules.specs.declared.rules.RuleText.{RuleText};
    ghost use Rattle.cfi_eval.specs.TextRules.{rule_for, changes_until};
    ghost use Rattle.cfi_eval.specs.internal.Tables.{IsTable};

    ghost Value = { List RuleText };

    ghost view = { λ r. r.first.now ++ changes_until r.address r.behind.now };

    ghost invariant = { λ r. IsTable (λ t. rule_for t (r.first.now ++ changes_until r.address r.behind.now)) r.table };
}

impl<'r> RulesAt<'r> {
    /// The rules that apply at an address, given the index of the first INIT that covers it.
    pub fn of(lines: &'r [SymLine], init: usize, address: u64) -> RulesAt<'r>
        requires within { init < length lines.now }
        requires first { init_place lines.now address ≡ Some init }
        ensures { text_rules lines.now address ≡ Some result }
    {
        let SymLine::Init { rules, .. } = &lines[init] else {
            unreachable!()
        };
        let first = rules.as_slice();
        let behind = &lines[init + 1..];
        let table = table_at(first, behind, address);
        RulesAt {
            first,
            behind,
            address,
            table,
        }
    }

    /// Rules that apply at every address.
    pub fn plain(rules: &'r [RuleText]) -> RulesAt<'r>
        ensures { result ≡ rules.now }
    {
        let table = table_at(rules, &[], 0);
        RulesAt {
            first: rules,
            behind: &[],
            address: 0,
            table,
        }
    }

    /// The words of the last rule for the return address.
    pub fn ra(&self) -> Option<&'r Tokens>
        ensures { option_copied result ≡ rule_for Ra self.now }
    {
        self.tokens(&Target::Ra)
    }

    /// The words of the last rule for a target of a frame.
    pub(crate) fn tokens(&self, target: &Target) -> Option<&'r Tokens>
        requires { is_some (target_place target.now) ≡ true }
        ensures { option_copied result ≡ rule_for target.now self.now }
    {
        let Some(place) = place_of(target) else {
            unreachable!()
        };
        let table = &self.table[..];
        table[place]
    }
}
