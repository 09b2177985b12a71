//! Functions of a unit that have one set of addresses.
ghost use Rattle.std.specs.Prelude.{◌≡◌, true, List, IfOk, IfSome, OnOk};
ghost use Rattle.std.specs.List.{All};
ghost use Rattle.std.specs.Str.{bytes_eq};
ghost use Rattle.debug_units.specs.declared.unit_read.UnitRead.{UnitRead};
ghost use Rattle.debug_units.specs.declared.unit_read.EntryRef.{EntryRef};
ghost use Rattle.func_flatten.specs.internal.Classes.{place_name};
ghost use Rattle.func_flatten.specs.internal.Standing.{HasSet, AreApart, Meets};

use debug_units::{EntryRef, UnitRead, Units};
use die_names::{name_of, name_text};
use std::alloc::Global;
use sym_edges::OutOfMemory;

/// The first function that has a set, and the first after it that has the same set and another name, by their numbers.
#[derive(Clone, Copy, Debug)]
pub struct SetOwners {
    pub first: u32,
    pub second: Option<u32>,
}

/// How a function compares with those that were collected: its set is new; or the function with this number has its set, and it is the first function
/// with another name; or the function with this number has its set, and it makes no difference.
#[derive(Clone, Copy, Debug)]
pub enum Meeting {
    New,
    Second(u32),
    Known(u32),
}

/// Whether two functions have the same name.
pub(crate) fn have_one_name(
    alloc: Global,
    units: &Units<'_>,
    one: EntryRef,
    other: EntryRef,
) -> Result<bool, OutOfMemory>
    ensures { IfOk result (λ same. same ≡ bytes_eq (place_name units.now one) (place_name units.now other)) }
{
    let first = name_of(units, one.unit, one.entry);
    let second = name_of(units, other.unit, other.entry);
    if first == second {
        return Ok(true);
    }
    let first = name_text(alloc, units, first)?;
    let second = name_text(alloc, units, second)?;
    Ok(first.as_slice() == second.as_slice())
}

/// Whether the function with a number is in the unit, and has the set of an entry.
fn has_set(part: &UnitRead<'_>, places: &[EntryRef], number: u32, entry: EntryRef) -> bool
    ensures { result ≡ true → HasSet part.now.spans places.now entry.unit entry.entry number }
{
    let Some(place) = places.get(number as usize) else {
        return false;
    };
    place.unit == entry.unit
        && part
            .spans
            .are_same(place.entry as usize, entry.entry as usize)
}

/// How a function compares with those that were collected, of which those in `known` may have its set.
pub fn meet(
    alloc: Global,
    units: &Units<'_>,
    part: &UnitRead<'_>,
    places: &[EntryRef],
    known: Option<SetOwners>,
    place: EntryRef,
) -> Result<Meeting, OutOfMemory>
    requires { IfSome known (AreApart units.now places.now) }
    ensures { IfOk result (Meets units.now part.now.spans places.now place) }
{
    let Some(owners) = known else {
        return Ok(Meeting::New);
    };
    if !has_set(part, places, owners.first, place) {
        return Ok(Meeting::New);
    }
    if let Some(second) = owners.second {
        if has_set(part, places, second, place) {
            return Ok(Meeting::Known(owners.first));
        }
        return Ok(Meeting::New);
    }
    if have_one_name(alloc, units, place, places[owners.first as usize])? {
        return Ok(Meeting::Known(owners.first));
    }
    Ok(Meeting::Second(owners.first))
}

/// The functions of the set with a number, if some are noted.
pub fn owners_of(sets: &[SetOwners], number: usize) -> Option<SetOwners>
    ensures { (units : List UnitRead) (places : List EntryRef) → All (AreApart units places) sets.now → IfSome result (AreApart units places) }
{
    match sets.get(number) {
        Some(owners) => Some(*owners),
        None => None,
    }
}

/// Notes the functions of the set with a number.
pub fn note_owners(
    sets: &mut Vec<SetOwners>,
    number: usize,
    owners: SetOwners,
) -> Result<(), OutOfMemory>
    ensures { OnOk result ((units : List UnitRead) (places : List EntryRef) → All (AreApart units places) sets.old.items → AreApart units places owners → All (AreApart units places) sets.new.items) }
{
    let nothing = SetOwners {
        first: owners.first,
        second: None,
    };
    if number >= sets.len() {
        sets.resize(number.saturating_add(1), nothing)?;
    }
    if number < sets.len() {
        sets[number] = owners;
    }
    Ok(())
}
