//! Classes of functions: two functions have the same class exactly if their names are equal.
//!
//! A class is the number of a function with the name. It is found by the hash of the name. If another function has this hash, the two names are compared
//! byte by byte. The other function is then the last one that was compared and has the first one's name, and not the first one itself. To read a name
//! takes as many steps as there are scopes around it; so each name is read a few times only, and the scopes of one function are not walked for each of
//! the others. If names with one hash differ, their texts are stored; that happens only in files that are made for it.
//!
//! Below a root there may be many scopes, but all names there are the same text: the class is kept for the root, and only the first of them is compared.
ghost use Rattle.std.specs.Prelude.{◌≡◌, false, true, List, ℕ, Option, Some, map, IfOk, OnOk};
ghost use Rattle.std.specs.BTreeMap.{get};
ghost use Rattle.std.specs.Ordering.{nat_cmp};
ghost use Rattle.debug_units.specs.declared.unit_read.UnitRead.{UnitRead};
ghost use Rattle.func_flatten.specs.internal.Classes.{place_name, place_at, number_name, classed, last_class};
ghost use Rattle.func_flatten.specs.internal.NameKeys.{hash_of, IsKey};
ghost use Rattle.func_flatten.specs.internal.NameClasses.{AreNumbersOf, Stays, rare_at, class_at, AreHeld, Grows, IsClass};

use crate::name_keys::NameKey;
use crate::scope_keys::{ScopeKeys, place_of};
use crate::set_owners::have_one_name;
use debug_units::{EntryRef, Units};
use die_names::{name_of, name_text};
use std::alloc::Global;
use std::collections::BTreeMap;
use step_maps::Stretch;
use sym_edges::OutOfMemory;

/// The functions whose names have one hash, by their numbers: the first one, and the last one that was found to have the same name. `differ` says whether
/// another of these names differs from it.
#[derive(Clone, Copy, Debug)]
struct Bearers {
    first: u32,
    last: u32,
    differ: bool,
}

/// The classes of names: `firsts` has the functions by the hashes of their names, `rare` has the classes by the texts of names whose hash is also that of
/// another name, and `roots` has the classes by the places of roots.
#[derive(Drop)]
struct NameClasses {
    alloc: Global,
    firsts: BTreeMap<u64, Bearers>,
    rare: BTreeMap<Vec<u8>, u32>,
    roots: BTreeMap<u64, u32>,
}

/// The entry of the function with a number.
pub(crate) fn place_at(places: &[EntryRef], number: u32) -> EntryRef
    ensures { result ≡ place_at places.now number }
{
    match places.get(number as usize) {
        Some(place) => *place,
        None => EntryRef { unit: 0, entry: 0 },
    }
}

/// The text of the name of a function, in new memory.
fn text_of(alloc: Global, units: &Units<'_>, place: EntryRef) -> Result<Vec<u8>, OutOfMemory>
    ensures { IfOk result (λ text. text.items ≡ place_name units.now place) }
{
    let name = name_of(units, place.unit, place.entry);
    let text = name_text(alloc, units, name)?;
    let owned = Vec::from_slice(alloc, text.as_slice())?;
    Ok(owned)
}

/// The class of a name whose text is stored.
#[tactic(auto, unfolding(crate::specs::internal::NameClasses::rare_at))]
fn rare_at(rare: &BTreeMap<Vec<u8>, u32>, text: &[u8]) -> Option<u32>
    ensures { result ≡ rare_at rare.now text.now }
{
    rare.get(text).copied()
}

/// Functions with one hash, all of which have one name.
fn alone(first: u32, last: u32) -> Bearers
    ensures { result ≡ record { first = first; last = last; differ = false } }
{
    Bearers {
        first,
        last,
        differ: false,
    }
}

impl NameClasses {
    /// No name has a class yet.
    fn new(alloc: Global) -> NameClasses
        ensures { (units : List UnitRead) (name : ℕ → List ℕ) → AreHeld units name result }
    {
        NameClasses {
            alloc,
            firsts: BTreeMap::new(alloc),
            rare: BTreeMap::new(alloc),
            roots: BTreeMap::new(alloc),
        }
    }

    /// The functions whose names have this hash.
    fn bearers(&self, hash: u64) -> Option<Bearers>
        ensures { result ≡ get nat_cmp self.now.firsts hash }
    {
        self.firsts.get(&hash).copied()
    }

    /// The class of the name of a function, by its text. If the name has none, this function gives it.
    fn rare_class(
        &mut self,
        units: &Units<'_>,
        places: &[EntryRef],
        number: u32,
    ) -> Result<u32, OutOfMemory>
        ensures firsts { self.new.firsts ≡ self.old.firsts }
        ensures roots { self.new.roots ≡ self.old.roots }
        ensures stays { OnOk result (Stays (rare_at self.old.rare) (rare_at self.new.rare)) }
        ensures numbers { OnOk result (AreNumbersOf (number_name units.now places.now) (rare_at self.old.rare) → AreNumbersOf (number_name units.now places.now) (rare_at self.new.rare)) }
        ensures class { IfOk result (λ class. rare_at self.new.rare (number_name units.now places.now number) ≡ Some class) }
    {
        let text = text_of(self.alloc, units, place_at(places, number))?;
        if let Some(class) = rare_at(&self.rare, text.as_slice()) {
            return Ok(class);
        }
        self.rare.insert(text, number)?;
        Ok(number)
    }

    /// Stores the text of the first name with a hash, since another name has this hash.
    fn part(
        &mut self,
        units: &Units<'_>,
        places: &[EntryRef],
        hash: u64,
        one: Bearers,
    ) -> Result<(), OutOfMemory>
        requires held { AreHeld units.now (number_name units.now places.now) self.old }
        requires known { get nat_cmp self.old.firsts hash ≡ Some one }
        requires alone { one.differ ≡ false }
        ensures grows { OnOk result (Grows units.now (number_name units.now places.now) self.old self.new) }
        ensures parted { OnOk result (get nat_cmp self.new.firsts hash ≡ Some (record { first = one.first; last = one.last; differ = true })) }
    {
        let text = text_of(self.alloc, units, place_at(places, one.last))?;
        self.rare.insert(text, one.first)?;
        let mut parted = one;
        parted.differ = true;
        self.firsts.insert(hash, parted)?;
        Ok(())
    }

    /// The class of the name of a function, which has this hash.
    fn hash_class(
        &mut self,
        units: &Units<'_>,
        places: &[EntryRef],
        number: u32,
        hash: u64,
    ) -> Result<u32, OutOfMemory>
        requires held { AreHeld units.now (number_name units.now places.now) self.old }
        requires hash { hash ≡ hash_of (number_name units.now places.now number) }
        ensures grows { OnOk result (Grows units.now (number_name units.now places.now) self.old self.new) }
        ensures class { IfOk result (λ class. class_at (number_name units.now places.now) self.new (number_name units.now places.now number) ≡ Some class) }
    {
        let Some(one) = self.bearers(hash) else {
            self.firsts.insert(hash, alone(number, number))?;
            return Ok(number);
        };
        if one.differ {
            let class = self.rare_class(units, places, number)?;
            return Ok(class);
        }
        let place = place_at(places, number);
        if have_one_name(self.alloc, units, place, place_at(places, one.last))? {
            self.firsts.insert(hash, alone(one.first, number))?;
            return Ok(one.first);
        }
        self.part(units, places, hash, one)?;
        let class = self.rare_class(units, places, number)?;
        Ok(class)
    }

    /// The class of the name of a function, which has this key.
    fn class(
        &mut self,
        units: &Units<'_>,
        places: &[EntryRef],
        number: u32,
        key: NameKey,
    ) -> Result<u32, OutOfMemory>
        requires held { AreHeld units.now (number_name units.now places.now) self.old }
        requires key { IsKey units.now key (number_name units.now places.now number) }
        ensures grows { OnOk result (Grows units.now (number_name units.now places.now) self.old self.new) }
        ensures class { IfOk result (λ class. class_at (number_name units.now places.now) self.new (number_name units.now places.now number) ≡ Some class) }
    {
        let Some(root) = key.root else {
            return self.hash_class(units, places, number, key.hash);
        };
        if let Some(class) = self.roots.get(&place_of(root.unit, root.entry)) {
            return Ok(*class);
        }
        let class = self.hash_class(units, places, number, key.hash)?;
        self.roots.insert(place_of(root.unit, root.entry), class)?;
        Ok(class)
    }
}

/// The class of the last stretch, if that is a stretch of this function.
fn last_class(named: &[Stretch], number: u32) -> Option<u32>
    ensures { result ≡ last_class named.now number }
{
    let last = named.last()?;
    if last.index != number {
        return None;
    }
    Some(last.class)
}

fn classed(stretch: Stretch, class: u32) -> Stretch
    ensures { result ≡ record { first = stretch.first; last = stretch.last; index = stretch.index; class = class } }
{
    Stretch { class, ..stretch }
}

/// The stretches, each with a class by the name of its function. Neighbouring stretches of one function share what was found for the first of them. A
/// name that is joined with those of its scopes is hashed from the key of the innermost scope on, which is made once.
pub fn with_classes(
    alloc: Global,
    units: &Units<'_>,
    places: &[EntryRef],
    stretches: &[Stretch],
) -> Result<Vec<Stretch>, OutOfMemory>
    ensures { IfOk result (λ named. (class : ℕ → ℕ) × IsClass (number_name units.now places.now) class stretches.now × (named.items ≡ map (classed class) stretches.now)) }
{
    let mut scopes = ScopeKeys::new(alloc);
    let mut classes = NameClasses::new(alloc);
    let mut named = Vec::with_capacity(alloc, stretches.len())?;
    'stretches: for at in 0..stretches.len() {
        let stretch = stretches[at];
        if let Some(class) = last_class(named.as_slice(), stretch.index) {
            named.push(classed(stretch, class))?;
            continue;
        }
        let key = scopes.key(alloc, units, place_at(places, stretch.index))?;
        let class = classes.class(units, places, stretch.index, key)?;
        named.push(classed(stretch, class))?;
    }
    Ok(named)
}
