//! The keys of the prefixes that scopes give to names, and of the names themselves. Each entry is visited once for all names.
ghost use Rattle.std.specs.Prelude.{◌≡◌, ℕ, ◌++◌, List, [], if◌then◌else◌, IfOk, IfSome, OnOk, ◌<◌, ◌^◌};
ghost use Rattle.std.specs.List.{slice_get};
ghost use Rattle.debug_units.specs.declared.unit_read.UnitRead.{UnitRead};
ghost use Rattle.die_names.specs.Names.{front_at};
ghost use Rattle.func_flatten.specs.internal.Classes.{place_name};
ghost use Rattle.func_flatten.specs.internal.ScopeFronts.{unit_dies, outer, outer_from, outer_front, inner_front, place_of};
ghost use Rattle.func_flatten.specs.internal.NameKeys.{kept, IsKey, AreFronts, IsHalfway};

use crate::name_keys::NameKey;
use clean_names::name_omitted;
use debug_units::{EntryRef, Units};
use die_names::{NameRef, name_of, name_parts, scope_name};
use die_walk::Die;
use std::alloc::Global;
use std::collections::BTreeMap;
use sym_edges::OutOfMemory;

/// For the visited entries, the keys of prefixes. The prefix of an entry is what it and the scopes
/// around it give to the names in it.
#[derive(Drop)]
pub(crate) struct ScopeKeys {
    known: BTreeMap<u64, NameKey>,
}

/// The entries around an entry: the numbers of the inner ones, beginning with the innermost, and
/// the key of the prefix that the others give.
#[derive(Drop)]
struct Halfway {
    numbers: Vec<u32>,
    key: NameKey,
}

/// The entry with a number in a unit.
#[tactic(auto, using(crate::proofs::FrontLemmas::entry_is))]
fn entry_at<'u, 'a>(units: &'u Units<'a>, unit: u32, entry: u32) -> Option<Die<'u, 'a>>
    ensures { result ≡ slice_get (unit_dies units.now unit) entry }
{
    units.entry(EntryRef { unit, entry })
}

/// The number of an entry's parent.
#[tactic(auto, using(crate::proofs::FrontLemmas::outer_nowhere, crate::proofs::FrontLemmas::outer_top, crate::proofs::FrontLemmas::outer_past, crate::proofs::FrontLemmas::outer_lost, crate::proofs::FrontLemmas::outer_step))]
fn outer_of(units: &Units<'_>, unit: u32, entry: u32) -> Option<u32>
    ensures around { outer (unit_dies units.now unit) entry ≡ outer_from (unit_dies units.now unit) result }
    ensures before { IfSome result (λ number. number < entry) }
{
    let die = entry_at(units, unit, entry)?;
    let number = die.parent()?;
    if number >= entry {
        return None;
    }
    let _around = entry_at(units, unit, number)?;
    Some(number)
}

/// An entry of a unit as one number.
pub(crate) fn place_of(unit: u32, entry: u32) -> u64
    ensures place { result ≡ place_of unit entry }
    ensures fits { (unit < 2 ^ 32) × (entry < 2 ^ 32) }
{
    u64::from(unit) * 0x1_0000_0000 + u64::from(entry)
}

/// The key of a text after which the prefix follows that an entry gives to the names in it.
fn with_front(key: NameKey, units: &Units<'_>, unit: u32, entry: u32) -> NameKey
    ensures { (text : List ℕ) → IsKey units.now key (kept text) → IsKey units.now result (kept (text ++ front_at (unit_dies units.now unit) entry)) }
{
    let Some(die) = entry_at(units, unit, entry) else {
        return key;
    };
    if !die.is_scope() {
        return key;
    }
    let named = key.with(scope_name(&die));
    named.with(b"::")
}

impl ScopeKeys {
    /// No entry was visited yet.
    pub(crate) fn new(alloc: Global) -> ScopeKeys
        ensures { (units : List UnitRead) → AreFronts units result.known }
    {
        ScopeKeys {
            known: BTreeMap::new(alloc),
        }
    }

    /// Walks up from an entry to the first whose key is known.
    fn climb(
        &self,
        alloc: Global,
        units: &Units<'_>,
        unit: u32,
        entry: u32,
    ) -> Result<Halfway, OutOfMemory>
        requires { AreFronts units.now self.now.known }
        ensures { IfOk result (λ half. IsHalfway units.now (unit_dies units.now unit) entry half.numbers.items half.key) }
    {
        let mut numbers = Vec::new(alloc);
        let mut at = entry;
        'around: loop {
            let Some(number) = outer_of(units, unit, at) else {
                let key = NameKey::empty();
                return Ok(Halfway { numbers, key });
            };
            if let Some(key) = self.known.get(&place_of(unit, number)) {
                return Ok(Halfway { numbers, key: *key });
            }
            numbers.push(number)?;
            at = number;
        }
    }

    /// Goes down to an entry, and keeps the keys of the entries around it.
    fn descend(
        &mut self,
        units: &Units<'_>,
        unit: u32,
        entry: u32,
        half: Halfway,
    ) -> Result<NameKey, OutOfMemory>
        requires fronts { AreFronts units.now self.old.known }
        requires halfway { IsHalfway units.now (unit_dies units.now unit) entry half.numbers.items half.key }
        ensures fronts { OnOk result (AreFronts units.now self.new.known) }
        ensures key { IfOk result (λ key. IsKey units.now key (kept (outer_front units.now unit entry))) }
    {
        let mut numbers = half.numbers;
        let mut key = half.key;
        'inner: while let Some(number) = numbers.pop() {
            let inside = with_front(key, units, unit, number);
            key = inside.rooted(unit, number);
            self.known.insert(place_of(unit, number), key)?;
        }
        Ok(key)
    }

    /// The key of the prefix that the scopes around the entry of a name give, if the name is joined with it.
    fn front(
        &mut self,
        alloc: Global,
        units: &Units<'_>,
        name: NameRef,
        is_joined: bool,
    ) -> Result<NameKey, OutOfMemory>
        requires { AreFronts units.now self.old.known }
        ensures fronts { OnOk result (AreFronts units.now self.new.known) }
        ensures key { IfOk result (λ key. IsKey units.now key (kept (if is_joined then outer_front units.now name.unit name.entry else []))) }
    {
        if !is_joined {
            return Ok(NameKey::empty());
        }
        let half = self.climb(alloc, units, name.unit, name.entry)?;
        let key = self.descend(units, name.unit, name.entry, half)?;
        Ok(key)
    }

    /// The key of the name of a function.
    pub(crate) fn key(
        &mut self,
        alloc: Global,
        units: &Units<'_>,
        place: EntryRef,
    ) -> Result<NameKey, OutOfMemory>
        requires { AreFronts units.now self.old.known }
        ensures fronts { OnOk result (AreFronts units.now self.new.known) }
        ensures key { IfOk result (λ key. IsKey units.now key (place_name units.now place)) }
    {
        let name = name_of(units, place.unit, place.entry);
        let parts = name_parts(units, name);
        let front = self.front(alloc, units, name, parts.is_joined)?;
        let key = front.with(parts.bytes);
        if key.is_empty() {
            return Ok(key.with(name_omitted()));
        }
        Ok(key)
    }
}
