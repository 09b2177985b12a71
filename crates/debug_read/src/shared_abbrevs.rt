//! Abbreviations that several units name: they are read once.
ghost use Rattle.std.specs.Prelude.{◌≡◌, ◌≤◌, true, length, IfOk, IfSome, slice_get};
ghost use Rattle.std.specs.Option.{option_copied};
ghost use Rattle.abbrev_units.specs.Abbreviations.{abbrevs_of};
ghost use Rattle.debug_read.specs.Each.{Match};
ghost use Rattle.debug_read.specs.internal.Sharing.{IsRead, AbbrevsGive};

use abbrev_units::{Abbrevs, DwarfFault, Sections, Unit, read_abbrevs};
use std::alloc::Global;
use std::marker::Model;
use std::thread::Threads;
use sym_edges::{OutOfMemory, Stop};
use unit_workers::{Crew, NoGate, UnitJob};

/// The abbreviations that several units name, in `tables`. `firsts` has for each of them one of the
/// units that name it. `numbers` has for each unit the index of its abbreviations in `tables`, if
/// they are there.
#[derive(Drop)]
pub struct SharedAbbrevs {
    firsts: Vec<Unit>,
    tables: Vec<Result<Abbrevs, DwarfFault>>,
    numbers: Vec<usize>,
}

impl Model for SharedAbbrevs {
    ghost use Rattle.debug_read.specs.internal.Sharing.{SharedParts};

    ghost Value = { SharedParts };

    ghost view = { λ s. record { firsts = s.firsts.items; tables = s.tables.items } };
}

#[inline]
pub fn unit_at(units: &[Unit], k: usize) -> Option<&Unit>
    ensures { option_copied result ≡ slice_get units.now k }
{
    units.get(k)
}

#[inline]
fn table_at(
    tables: &[Result<Abbrevs, DwarfFault>],
    k: usize,
) -> Option<&Result<Abbrevs, DwarfFault>>
    ensures { option_copied result ≡ slice_get tables.now k }
{
    tables.get(k)
}

/// Whether two units name the same abbreviations, and these are in the section.
fn is_shared(sections: &Sections<'_>, first: &Unit, unit: &Unit) -> bool
    ensures { result ≡ true → (first.now.abbrev_at ≡ unit.now.abbrev_at) × (first.now.wide ≡ unit.now.wide) × (unit.now.abbrev_at ≤ length sections.now.abbrevs) }
{
    first.abbrev_at == unit.abbrev_at
        && first.wide == unit.wide
        && unit.abbrev_at <= sections.abbrevs.len() as u64
}

impl SharedAbbrevs {
    /// The abbreviations of unit `k`, if they were read for several units.
    pub fn table(
        &self,
        sections: &Sections<'_>,
        unit: &Unit,
        k: usize,
    ) -> Option<&Result<Abbrevs, DwarfFault>>
        requires { Match (IsRead sections.now) self.now.firsts self.now.tables }
        ensures { IfSome result (λ table. abbrevs_of sections.now unit.now ≡ table.now) }
    {
        let Some(number) = self.numbers.get(k) else {
            return None;
        };
        let number = *number;
        let Some(first) = unit_at(self.firsts.as_slice(), number) else {
            return None;
        };
        if !is_shared(sections, first, unit) {
            return None;
        }
        match table_at(self.tables.as_slice(), number) {
            Some(table) => Some(table),
            None => None,
        }
    }
}

/// A job that reads abbreviations by number: those of the units `firsts`.
#[derive(Drop)]
struct AbbrevReader<'s, 'a> {
    sections: &'s Sections<'a>,
    firsts: &'s [Unit],
}

impl<'s, 'a> Model for AbbrevReader<'s, 'a> {
    ghost use Rattle.debug_read.specs.internal.Sharing.{AbbrevParts};

    ghost Value = { AbbrevParts };

    ghost view = { λ r. record { sections = r.sections.now; firsts = r.firsts.now } };
}

impl<'s, 'a> AbbrevReader<'s, 'a> {
    fn of(sections: &'s Sections<'a>, firsts: &'s [Unit]) -> AbbrevReader<'s, 'a>
        ensures { result ≡ record { sections = sections.now; firsts = firsts.now } }
    {
        AbbrevReader { sections, firsts }
    }
}

impl<'s, 'a> UnitJob for AbbrevReader<'s, 'a> {
    type Out = Result<Abbrevs, DwarfFault>;

    type Scratch = ();

    ghost gives = { λ reader k out. AbbrevsGive reader (slice_get reader.firsts k) out };

    fn scratch(&self, _alloc: Global) -> Result<(), OutOfMemory> {
        Ok(())
    }

    /// A number after the last unit, which no worker draws, has no result.
    fn run(
        &self,
        alloc: Global,
        k: usize,
        _scratch: &mut (),
    ) -> Result<Result<Abbrevs, DwarfFault>, OutOfMemory> {
        let Some(unit) = unit_at(self.firsts, k) else {
            return Err(OutOfMemory);
        };
        match read_abbrevs(alloc, self.sections, unit) {
            Ok(abbrevs) => Ok(Ok(abbrevs)),
            Err(Stop::Fault(fault)) => Ok(Err(fault)),
            Err(Stop::NoMemory) => Err(OutOfMemory),
        }
    }
}

/// A unit, with a key of its abbreviations.
#[derive(Clone, Copy)]
struct Keyed {
    key: u64,
    place: usize,
}

/// `firsts` has, for all abbreviations that several units name, one of these units. `numbers` has
/// for each of these units the index of the one in `firsts`.
#[derive(Drop)]
struct Grouping {
    firsts: Vec<Unit>,
    numbers: Vec<usize>,
}

/// The units, sorted by the keys of their abbreviations.
fn sort_units(alloc: Global, units: &[Unit]) -> Result<Vec<Keyed>, OutOfMemory> {
    let mut keys = Vec::with_capacity(alloc, units.len())?;
    'units: for place in 0..units.len() {
        let unit = units[place];
        keys.push(Keyed {
            key: unit.abbrev_at.wrapping_mul(2) | u64::from(unit.wide),
            place,
        })?;
    }
    keys.sort_unstable_by_key(|one| one.key);
    Ok(keys)
}

/// `count` numbers, each of which stands for no unit.
fn no_numbers(alloc: Global, count: usize) -> Result<Vec<usize>, OutOfMemory> {
    let mut numbers = Vec::with_capacity(alloc, count)?;
    'places: for _place in 0..count {
        numbers.push(usize::MAX)?;
    }
    Ok(numbers)
}

/// Whether the unit at an index of the sorted list has the same key.
fn is_like(keys: &[Keyed], place: usize, one: Keyed) -> bool {
    match keys.get(place) {
        Some(other) => other.key == one.key,
        None => false,
    }
}

/// Which units name the same abbreviations.
fn group_units(alloc: Global, units: &[Unit]) -> Result<Grouping, OutOfMemory> {
    let keys = sort_units(alloc, units)?;
    let mut firsts = Vec::new(alloc);
    let mut numbers = no_numbers(alloc, units.len())?;
    'keys: for place in 0..keys.len() {
        let one = keys[place];
        let joins = place > 0 && is_like(keys.as_slice(), place - 1, one);
        if !joins && !is_like(keys.as_slice(), place + 1, one) {
            continue;
        }
        if !joins && let Some(unit) = units.get(one.place) {
            firsts.push(*unit)?;
        }
        if let Some(number) = numbers.get_mut(one.place) {
            *number = firsts.len().saturating_sub(1);
        }
    }
    Ok(Grouping { firsts, numbers })
}

/// Reads the abbreviations that several of these units name, by the workers.
pub fn read_shared<'a, R: Threads + Sync>(
    crew: &Crew<'_, R>,
    sections: &Sections<'a>,
    units: &[Unit],
) -> Result<SharedAbbrevs, OutOfMemory>
    ensures { IfOk result (λ shared. Match (IsRead sections.now) shared.firsts shared.tables) }
{
    let Grouping { firsts, numbers } = group_units(crew.alloc(), units)?;
    if firsts.len() as u64 > 1 << 32 {
        return Err(OutOfMemory);
    }
    let job = AbbrevReader::of(sections, firsts.as_slice());
    let tables = crew.run(&job, &NoGate, firsts.len())?;
    Ok(SharedAbbrevs {
        firsts,
        tables,
        numbers,
    })
}
