//! The last rule of each target at each address, for an INIT with many rules, so that binary search finds it.
ghost use Rattle.std.specs.Prelude.{◌≡◌, ◌<◌, ◌^◌, ℕ, [], List, length, get_or, Some, slice_get, IfOk, OnOk, IfSome};
ghost use Rattle.step_maps.specs.Covers.{AreStretches};
ghost use Rattle.cfi_eval.specs.Inits.{init_place};
ghost use Rattle.sym_records.specs.declared.line.SymLine.{SymLine};
ghost use Rattle.sym_rules.specs.declared.rules.RuleText.{RuleText};
ghost use Rattle.sym_judge.specs.internal.Tables.{words_at, rules_at, IsTableAt};
ghost use Rattle.sym_judge.specs.internal.RuleMaps.{rule_in, last_rule, with_rule, with_rules, AreLast, IsRuleMap, register_rule, AreRegisterMaps, AreRegisterRules, AreRuleMaps, AreAllRuleMaps};

use crate::blocks::is_same_target;
use crate::rule_tables::{RulePlace, RuleTable, rules_of};
use std::alloc::Global;
use step_maps::{FirstItem, StepMap, Stretch, first_items};
use sym_edges::OutOfMemory;
use sym_records::SymLine;
use sym_rules::{RuleText, Target};

/// The last rule of a target at each address: the index of an item is the rule's record, and its class the rule's place in that record.
pub(crate) type RuleMap = StepMap<Option<FirstItem>>;

/// The last rule of each target at each address, of the INIT at a place and its changes.
#[derive(Drop)]
pub struct RuleMaps {
    init: usize,
    cfa: RuleMap,
    ra: RuleMap,
    registers: Vec<RuleMap>,
}

/// Adds a rule that counts from an address on, if it is one of the target.
fn push_rule(
    items: &mut Vec<Stretch>,
    target: &Target,
    rule: &RuleText,
    place: RulePlace,
    start: u64,
) -> Result<(), OutOfMemory>
    requires line { place.line < 2 ^ 32 }
    requires rule { place.rule < 2 ^ 32 }
    requires stretches { AreStretches items.old.items }
    ensures stretches { OnOk result (AreStretches items.new.items) }
    ensures last { OnOk result ((lines : List SymLine) (done : ℕ → List RuleText) → words_at lines place ≡ Some rule.now.tokens → AreLast lines target.now items.old.items done → AreLast lines target.now items.new.items (with_rule start rule.now done)) }
{
    if !is_same_target(&rule.target, target) {
        return Ok(());
    }
    items.push(Stretch {
        first: start,
        last: u64::MAX,
        index: place.line as u32,
        class: place.rule as u32,
    })?;
    Ok(())
}

/// Adds the rules of the target in the record at a place, which count from an address on.
fn push_rules(
    items: &mut Vec<Stretch>,
    target: &Target,
    rules: &[RuleText],
    line: usize,
    start: u64,
) -> Result<(), OutOfMemory>
    requires line { line < 2 ^ 32 }
    requires stretches { AreStretches items.old.items }
    ensures stretches { OnOk result (AreStretches items.new.items) }
    ensures last { OnOk result ((lines : List SymLine) (done : ℕ → List RuleText) → rules_at lines line ≡ rules.now → AreLast lines target.now items.old.items done → AreLast lines target.now items.new.items (with_rules start rules.now done)) }
{
    if rules.len() > 0xffff_ffff {
        return Err(OutOfMemory);
    }
    'rules: for rule in 0..rules.len() {
        push_rule(items, target, &rules[rule], RulePlace { line, rule }, start)?;
    }
    Ok(())
}

/// The last item at each address.
fn last_items(alloc: Global, items: Vec<Stretch>) -> Result<RuleMap, OutOfMemory>
    requires { AreStretches items.items }
    ensures { IfOk result (λ map. (x : ℕ) → x < 2 ^ 64 → rule_in map x ≡ last_rule items.items x) }
{
    let mut back = items;
    back.reverse();
    let map = first_items(alloc, back.as_slice())?;
    Ok(map)
}

/// The last rule of a target at each address, of the INIT at a place and its changes.
fn rule_map(
    alloc: Global,
    target: &Target,
    lines: &[SymLine],
    init: usize,
) -> Result<RuleMap, OutOfMemory>
    requires within { init < length lines.now }
    requires few { length lines.now < 2 ^ 32 }
    ensures { IfOk result (λ map. IsRuleMap lines.now init target.now map) }
{
    let mut items = Vec::new(alloc);
    push_rules(&mut items, target, rules_of(&lines[init]), init, 0)?;
    'lines: for place in init + 1..lines.len() {
        let SymLine::Change { address, rules } = &lines[place] else {
            let map = last_items(alloc, items)?;
            return Ok(map);
        };
        push_rules(&mut items, target, rules.as_slice(), place, *address)?;
    }
    let map = last_items(alloc, items)?;
    Ok(map)
}

/// The maps of the registers.
fn register_maps(alloc: Global, lines: &[SymLine], init: usize) -> Result<Vec<RuleMap>, OutOfMemory>
    requires within { init < length lines.now }
    requires few { length lines.now < 2 ^ 32 }
    ensures many { IfOk result (λ maps. length maps.items ≡ 16) }
    ensures maps { IfOk result (λ maps. AreRegisterMaps lines.now init maps.items) }
{
    let mut maps = Vec::new(alloc);
    'registers: for register in 0..16usize {
        let map = rule_map(alloc, &Target::Reg(register as u8), lines, init)?;
        maps.push(map)?;
    }
    Ok(maps)
}

/// The maps of all targets.
fn maps_of(alloc: Global, lines: &[SymLine], init: usize) -> Result<RuleMaps, OutOfMemory>
    requires within { init < length lines.now }
    requires few { length lines.now < 2 ^ 32 }
    ensures { IfOk result (λ maps. AreRuleMaps lines.now maps) }
{
    let cfa = rule_map(alloc, &Target::Cfa, lines, init)?;
    let ra = rule_map(alloc, &Target::Ra, lines, init)?;
    let registers = register_maps(alloc, lines, init)?;
    Ok(RuleMaps {
        init,
        cfa,
        ra,
        registers,
    })
}

/// The number of rules of an INIT and its changes up to which they are looked at one by one; no map is made of them.
const FEW: usize = 32;

/// Whether a record is an INIT that has, with the changes after it, more than a few rules.
fn is_long(first: &SymLine, behind: &[SymLine]) -> bool {
    let SymLine::Init { rules, .. } = first else {
        return false;
    };
    let mut count = rules.len();
    'lines: for line in behind {
        let SymLine::Change { rules, .. } = line else {
            return count > FEW;
        };
        count = count.saturating_add(rules.len());
    }
    count > FEW
}

/// The maps of each INIT with many rules, in their order.
pub(crate) fn all_maps(alloc: Global, lines: &[SymLine]) -> Result<Vec<RuleMaps>, OutOfMemory>
    ensures { IfOk result (λ maps. AreAllRuleMaps lines.now maps.items) }
{
    let mut all = Vec::new(alloc);
    if lines.len() > 0xffff_ffff {
        return Err(OutOfMemory);
    }
    'lines: for init in 0..lines.len() {
        if is_long(&lines[init], lines.split_at(init + 1).1) {
            push_maps(alloc, &mut all, lines, init)?;
        }
    }
    Ok(all)
}

/// Adds the maps of the INIT at a place.
fn push_maps(
    alloc: Global,
    all: &mut Vec<RuleMaps>,
    lines: &[SymLine],
    init: usize,
) -> Result<(), OutOfMemory>
    requires within { init < length lines.now }
    requires few { length lines.now < 2 ^ 32 }
    requires maps { AreAllRuleMaps lines.now all.old.items }
    ensures { OnOk result (AreAllRuleMaps lines.now all.new.items) }
{
    let maps = maps_of(alloc, lines, init)?;
    all.push(maps)?;
    Ok(())
}

/// The maps of the INIT at a place, if there are any.
pub(crate) fn maps_at(all: &[RuleMaps], init: usize) -> Option<&RuleMaps>
    ensures init { IfSome result (λ maps. maps.now.init ≡ init) }
    ensures maps { IfSome result (λ maps. (lines : List SymLine) → AreAllRuleMaps lines all.now → AreRuleMaps lines maps.now) }
{
    let at = all.partition_point(|maps| maps.init < init);
    if at >= all.len() {
        return None;
    }
    let maps = &all[at];
    if maps.init != init {
        return None;
    }
    Some(maps)
}

/// The rule of a map at an address.
fn rule_at(map: &RuleMap, address: u64) -> Option<RulePlace>
    ensures { result ≡ rule_in map.now address }
{
    match map.at(None, address) {
        None => None,
        Some(item) => Some(RulePlace {
            line: item.index as usize,
            rule: item.class as usize,
        }),
    }
}

/// The rule of a register at an address, by the maps of the registers.
#[tactic(auto, unfolding(crate::specs::internal::RuleMaps::register_rule))]
fn register_rule(maps: &[RuleMap], register: usize, address: u64) -> Option<RulePlace>
    ensures { result ≡ register_rule maps.now register address }
{
    match maps.get(register) {
        None => None,
        Some(map) => rule_at(map, address),
    }
}

/// The rules of the registers at an address.
fn registers_in(maps: &[RuleMap], address: u64) -> [Option<RulePlace>; 16]
    ensures { AreRegisterRules maps.now address 16 result }
{
    let mut registers = [None; 16];
    'registers: for register in 0..16usize {
        registers[register] = register_rule(maps, register, address);
    }
    registers
}

/// The rules at an address; the INIT of the maps is the first that covers it.
pub(crate) fn table_in(maps: &RuleMaps, address: u64) -> RuleTable
    ensures { (lines : List SymLine) → AreRuleMaps lines maps.now → init_place lines address ≡ Some maps.now.init → IsTableAt lines address result }
{
    RuleTable {
        cfa: rule_at(&maps.cfa, address),
        ra: rule_at(&maps.ra, address),
        registers: registers_in(maps.registers.as_slice(), address),
    }
}
