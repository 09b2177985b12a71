//! The places of a supplementary file (DWARF 5, 7.3.6) to which entries lead.
ghost use Rattle.std.specs.Prelude.{◌≡◌, ◌++◌, take, IfOk, OnOk};
ghost use Rattle.std.specs.List.{flat_map, list_any};
ghost use Rattle.std.specs.List.Sorted.{IsNonDecreasing};
ghost use Rattle.debug_read.specs.SupUnits.{lies_in, AreTargets, entries_of};
ghost use Rattle.debug_read.specs.internal.Targets.{sup_places, targets_of, unit_targets};

use abbrev_units::Unit;
use debug_units::{UnitRead, Units};
use die_walk::{Die, DieList};
use std::alloc::Global;
use std::marker::Model;
use sym_edges::{FILE_LIMIT, OutOfMemory};

/// The first place of the supplementary file. The places of the file come before it.
const FIRST_OF_SUP: u32 = FILE_LIMIT as u32;

/// Adds a place, if it is in the supplementary file.
fn push_place(places: &mut Vec<u32>, place: Option<u32>) -> Result<(), OutOfMemory>
    ensures { OnOk result (places.new.items ≡ places.old.items ++ sup_places place) }
{
    let Some(place) = place else {
        return Ok(());
    };
    if place >= FIRST_OF_SUP {
        places.push(place - FIRST_OF_SUP)?;
    }
    Ok(())
}

/// Adds the places to which an entry leads.
fn push_targets(places: &mut Vec<u32>, die: &Die<'_, '_>) -> Result<(), OutOfMemory>
    ensures { OnOk result (places.new.items ≡ places.old.items ++ targets_of die.now) }
{
    push_place(places, die.origin())?;
    push_place(places, die.spec())
}

/// Adds the places to which the entries of a unit lead.
fn push_entries(places: &mut Vec<u32>, dies: &DieList<'_>) -> Result<(), OutOfMemory>
    ensures { OnOk result (places.new.items ≡ places.old.items ++ flat_map targets_of dies.now) }
{
    'entries: for entry in 0..dies.len() {
        let Some(die) = dies.get(entry) else {
            return Err(OutOfMemory);
        };
        push_targets(places, &die)?;
    }
    Ok(())
}

/// Adds the places to which the entries of units lead.
fn push_units(places: &mut Vec<u32>, units: &[UnitRead<'_>]) -> Result<(), OutOfMemory>
    ensures { OnOk result (places.new.items ≡ places.old.items ++ flat_map unit_targets units.now) }
{
    'units: for unit in units {
        push_entries(places, unit.die.dies())?;
    }
    Ok(())
}

/// The first units.
#[tactic(auto, using(crate::proofs::TargetLemmas::all_taken))]
fn first_units<'u, 'a>(units: &'u [UnitRead<'a>], count: usize) -> &'u [UnitRead<'a>]
    ensures { result.now ≡ take count units.now }
{
    if count < units.len() {
        return &units[..count];
    }
    units
}

/// Whether one of the places, which are sorted, is in a unit.
fn lie_in(places: &[u32], unit: &Unit) -> bool
    requires { IsNonDecreasing places.now }
    ensures { result ≡ list_any (lies_in unit.now) places.now }
{
    let before = places.partition_point(|place| u64::from(*place) < unit.start);
    match places.get(before) {
        Some(place) => u64::from(*place) < unit.end,
        None => false,
    }
}

/// The places of the supplementary file to which entries lead, sorted, so that those in a unit are found by binary search.
#[derive(Drop)]
pub struct SupTargets {
    places: Vec<u32>,
}

impl Model for SupTargets {
    ghost use Rattle.std.specs.Prelude.{ℕ, List};
    ghost use Rattle.std.specs.List.Sorted.{IsNonDecreasing};

    ghost Value = { List ℕ };

    ghost view = { λ t. t.places.items };

    ghost invariant = { λ t. IsNonDecreasing t.places.items };
}

impl SupTargets {
    /// The places to which the entries of the first `count` units lead.
    pub fn of(alloc: Global, units: &Units<'_>, count: usize) -> Result<SupTargets, OutOfMemory>
        ensures { IfOk result (λ targets. AreTargets (entries_of (take count units.now)) targets) }
    {
        let mut places = Vec::new(alloc);
        push_units(&mut places, first_units(units.as_slice(), count))?;
        places.sort_unstable();
        Ok(SupTargets { places })
    }

    /// Whether one of the entries leads into a unit of the supplementary file.
    pub fn leads_into(&self, unit: &Unit) -> bool
        ensures { result ≡ list_any (lies_in unit.now) self.now }
    {
        lie_in(self.places.as_slice(), unit)
    }
}
