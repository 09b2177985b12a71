//! The functions of the units that have addresses, and the stretches of these addresses.
ghost use Rattle.std.specs.Prelude.{◌≡◌, ◌≢◌, Some, ℕ, ◌+◌, ◌*◌, ◌<◌, ◌≤◌, ◌^◌, ◌++◌, ◌∷◌, [], true, length, vec_len, List, slice_get, IfOk, OnOk};
ghost use Rattle.std.specs.List.{All};
ghost use Rattle.die_walk.specs.EntryTable.{DieFields};
ghost use Rattle.die_walk.specs.EntryKinds.{is_function};
ghost use Rattle.range_set.specs.Canonical.{IsCanonical};
ghost use Rattle.debug_units.specs.UnitEntries.{AreRead, places};
ghost use Rattle.debug_units.specs.Owners.{Covering, unit_covering, covering_from};
ghost use Rattle.step_maps.specs.SpanStretches.{AreFit};
ghost use Rattle.func_flatten.specs.internal.Collecting.{entry_covering};
ghost use Rattle.func_flatten.specs.internal.Standing.{IsCollected, AreApart, place_key};

use crate::set_owners::{Meeting, SetOwners, meet, note_owners, owners_of};
use debug_units::{EntryRef, UnitRead, Units};
use std::alloc::Global;
use step_maps::{Stretch, push_spans};
use sym_edges::{OutOfMemory, Span};

/// `places` has the collected functions, by number. `stretches` has the stretches of their
/// addresses, each with the number of its function as its index and class. `sets` has the functions
/// of the sets of the current unit, by the numbers of the sets.
#[derive(Drop)]
pub struct Collected {
    pub places: Vec<EntryRef>,
    pub stretches: Vec<Stretch>,
    pub sets: Vec<SetOwners>,
}

/// Collects the functions of all units. Of the functions of a unit that have the same set, the
/// first is collected, and the first with another name. The others own no address, and whether
/// names differ at an address is the same without them.
pub fn collect_all(alloc: Global, units: &Units<'_>) -> Result<Collected, OutOfMemory>
    ensures all { IfOk result (λ c. (low : ℕ) × IsCollected units.now c.places.items c.stretches.items low []) }
    ensures fit { IfOk result (λ c. AreFit c.stretches.items) }
{
    let mut kept = Collected {
        places: Vec::new(alloc),
        stretches: Vec::new(alloc),
        sets: Vec::new(alloc),
    };
    let parts = units.as_slice();
    'units: for unit in 0..parts.len() {
        let part = &parts[unit];
        push_unit(alloc, units, &mut kept, unit as u32, part)?;
    }
    Ok(kept)
}

/// Adds the functions of a unit.
fn push_unit(
    alloc: Global,
    units: &Units<'_>,
    kept: &mut Collected,
    unit: u32,
    part: &UnitRead<'_>,
) -> Result<(), OutOfMemory>
    requires part { slice_get units.now unit ≡ Some part.now }
    requires count { vec_len kept.old.places + length part.now.die.dies < 2 ^ 32 }
    requires fit { AreFit kept.old.stretches.items }
    ensures all { OnOk result ((left : List Covering) → IsCollected units.now kept.old.places.items kept.old.stretches.items (unit * 4294967296) (unit_covering unit 0 part.now.die.dies part.now.spans ++ left) → IsCollected units.now kept.new.places.items kept.new.stretches.items (unit * 4294967296 + length part.now.die.dies) left) }
    ensures fit { OnOk result (AreFit kept.new.stretches.items) }
    ensures count { OnOk result (vec_len kept.new.places ≤ vec_len kept.old.places + length part.now.die.dies) }
{
    kept.sets.clear();
    'entries: for entry in 0..part.die.dies().len() {
        let entry = entry as u32;
        push_entry(alloc, units, kept, EntryRef { unit, entry }, part)?;
    }
    Ok(())
}

/// Adds an entry, if it is a function with addresses.
fn push_entry(
    alloc: Global,
    units: &Units<'_>,
    kept: &mut Collected,
    place: EntryRef,
    part: &UnitRead<'_>,
) -> Result<(), OutOfMemory>
    requires part { slice_get units.now place.unit ≡ Some part.now }
    requires apart { All (AreApart units.now kept.old.places.items) kept.old.sets.items }
    requires count { vec_len kept.old.places < 2 ^ 32 }
    requires fit { AreFit kept.old.stretches.items }
    ensures all { OnOk result ((left : List Covering) (die : DieFields) → Some die ≡ slice_get part.now.die.dies place.entry → IsCollected units.now kept.old.places.items kept.old.stretches.items (place_key place) (entry_covering place die part.now.spans ++ left) → IsCollected units.now kept.new.places.items kept.new.stretches.items (place_key place + 1) left) }
    ensures apart { OnOk result (All (AreApart units.now kept.new.places.items) kept.new.sets.items) }
    ensures fit { OnOk result (AreFit kept.new.stretches.items) }
    ensures count { OnOk result (vec_len kept.new.places ≤ vec_len kept.old.places + 1) }
{
    // Most entries have no addresses, which is known without reading the entry.
    let Some(spans) = part.ranges(place.entry as usize) else {
        return Ok(());
    };
    if spans.is_empty() {
        return Ok(());
    }
    let Some(die) = part.entry(place.entry as usize) else {
        return Ok(());
    };
    if !die.is_function() {
        return Ok(());
    }
    push_function(alloc, units, kept, place, part, spans)
}

/// Adds a function with its addresses, unless others represent it.
fn push_function(
    alloc: Global,
    units: &Units<'_>,
    kept: &mut Collected,
    place: EntryRef,
    part: &UnitRead<'_>,
    spans: &[Span],
) -> Result<(), OutOfMemory>
    requires part { slice_get units.now place.unit ≡ Some part.now }
    requires set { slice_get part.now.spans place.entry ≡ Some spans.now }
    requires canonical { IsCanonical spans.now }
    requires some { length spans.now ≢ 0 }
    requires apart { All (AreApart units.now kept.old.places.items) kept.old.sets.items }
    requires count { vec_len kept.old.places < 2 ^ 32 }
    requires fit { AreFit kept.old.stretches.items }
    ensures all { OnOk result ((left : List Covering) (die : DieFields) → is_function die ≡ true → IsCollected units.now kept.old.places.items kept.old.stretches.items (place_key place) (record { unit = place.unit; entry = place.entry; die = die; spans = spans.now } ∷ left) → IsCollected units.now kept.new.places.items kept.new.stretches.items (place_key place + 1) left) }
    ensures apart { OnOk result (All (AreApart units.now kept.new.places.items) kept.new.sets.items) }
    ensures fit { OnOk result (AreFit kept.new.stretches.items) }
    ensures count { OnOk result (vec_len kept.new.places ≤ vec_len kept.old.places + 1) }
{
    let set = part.spans.number(place.entry as usize);
    let known = owners_of(kept.sets.as_slice(), set);
    let number = kept.places.len() as u32;
    let owners = match meet(alloc, units, part, kept.places.as_slice(), known, place)? {
        Meeting::Known(_) => return Ok(()),
        Meeting::New => SetOwners {
            first: number,
            second: None,
        },
        Meeting::Second(first) => SetOwners {
            first,
            second: Some(number),
        },
    };
    push_spans(&mut kept.stretches, number, number, spans)?;
    kept.places.push(place)?;
    note_owners(&mut kept.sets, set, owners)?;
    Ok(())
}
