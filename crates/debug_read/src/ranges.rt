//! The addresses of a unit's entries.
ghost use Rattle.std.specs.Prelude.{◌≡◌, ◌<◌, ◌^◌, ℕ, true, List, length, slice_get, Some, Ok, IfOk, IfSome};
ghost use Rattle.sym_edges.specs.Addresses.{Range};
ghost use Rattle.sym_edges.specs.Outside.{MatchStop};
ghost use Rattle.range_lists.specs.EntryRanges.{pairs_of, pairs_at, listed_at};
ghost use Rattle.debug_read.specs.Each.{each_of, Match, Says};
ghost use Rattle.debug_read.specs.UnitSays.{no_pairs, unit_pairs};
ghost use Rattle.debug_read.specs.UnitsRead.{IsSet};

use abbrev_units::{DwarfFault, Sections, Unit};
use debug_units::SpanSets;
use die_walk::DieTable;
use range_lists::laws::lists_at_one_place;
use range_lists::{counts_at, listed_at, ranges_of, unit_base};
use range_set::{Enclosing, RangeSet};
use std::alloc::Global;
use std::collections::BTreeMap;
use sym_edges::{OutOfMemory, Stop};

/// The addresses of an entry, by its number in the table.
#[tactic(auto, using(crate::proofs::SetLemmas::set_found, crate::proofs::SetLemmas::set_refused))]
fn read_set(
    alloc: Global,
    sections: &Sections<'_>,
    unit: &Unit,
    table: &DieTable<'_>,
    entry: u32,
    base: u64,
    code: &Enclosing,
) -> Result<RangeSet, Stop<DwarfFault>>
    ensures { MatchStop result
        (λ set. Says (IsSet code.now) (pairs_at sections.now unit.now table.now.root base (slice_get table.now.dies entry)) set)
        (λ fault. pairs_at sections.now unit.now table.now.root base (slice_get table.now.dies entry) ≡ Err fault)
        (Prim.Unit {0}) }
{
    match ranges_of(alloc, sections, unit, table, entry, base, code) {
        Ok(set) => {
            // The contract of this call says that the list is canonical.
            let _spans = set.spans();
            Ok(set)
        }
        Err(stop) => Err(stop),
    }
}

/// The place of a list that was read, and the entry for which it was read.
#[derive(Clone, Copy)]
struct ListRead {
    place: u32,
    entry: u32,
}

/// The lists that were read. Those whose place was above the places of all before them are in
/// `rising`, the other ones in `others`. An entry that is found here is a guess: it counts only if
/// its list is at the place.
#[derive(Drop)]
struct ListsRead {
    rising: Vec<ListRead>,
    others: BTreeMap<u32, u32>,
}

impl ListsRead {
    fn new(alloc: Global) -> ListsRead {
        ListsRead {
            rising: Vec::new(alloc),
            others: BTreeMap::new(alloc),
        }
    }

    /// Whether a place is above all places in `rising`.
    #[inline]
    fn rises(&self, place: u32) -> bool {
        match self.rising.last() {
            Some(last) => last.place < place,
            None => true,
        }
    }

    /// An earlier entry whose list was at that place. If there is none, this entry is noted for the
    /// place. If there is one, this entry may be noted instead of it.
    fn find_or_add(&mut self, place: u32, entry: u32) -> Result<Option<u32>, OutOfMemory> {
        if self.rises(place) {
            self.rising.push(ListRead { place, entry })?;
            return Ok(None);
        }
        if let Ok(k) = self.rising.binary_search_by_key(&place, |one| one.place) {
            return Ok(Some(self.rising[k].entry));
        }
        let earlier = self.others.insert(place, entry)?;
        Ok(earlier)
    }
}

/// Whether the list of an entry is at a place.
fn is_listed_at(
    sections: &Sections<'_>,
    unit: &Unit,
    table: &DieTable<'_>,
    entry: u32,
    place: u128,
) -> bool
    ensures { result ≡ true → listed_at sections.now unit.now table.now.root (slice_get table.now.dies entry) ≡ Some place }
{
    match listed_at(sections, unit, table, entry) {
        Some(there) => there == place,
        None => false,
    }
}

/// An earlier entry whose list is at the same place as this entry's.
fn find_earlier(
    sections: &Sections<'_>,
    unit: &Unit,
    table: &DieTable<'_>,
    entry: u32,
    lists: &mut ListsRead,
) -> Result<Option<u32>, OutOfMemory>
    ensures below { IfOk result (λ found. IfSome found (λ earlier. earlier < entry)) }
    ensures same { IfOk result (λ found. IfSome found (λ earlier. (base : ℕ) (pairs : List Range) → pairs_at sections.now unit.now table.now.root base (slice_get table.now.dies earlier) ≡ Ok pairs → pairs_at sections.now unit.now table.now.root base (slice_get table.now.dies entry) ≡ Ok pairs)) }
{
    let Some(place) = listed_at(sections, unit, table, entry) else {
        return Ok(None);
    };
    if place > u128::from(u32::MAX) {
        return Ok(None);
    }
    let Some(earlier) = lists.find_or_add(place as u32, entry)? else {
        return Ok(None);
    };
    if earlier >= entry || !is_listed_at(sections, unit, table, earlier, place) {
        return Ok(None);
    }
    lists_at_one_place();
    Ok(Some(earlier))
}

/// The addresses of all entries, or the first fault, entry by entry. A list that several entries share is read once.
fn read_sets(
    alloc: Global,
    sections: &Sections<'_>,
    unit: &Unit,
    table: &DieTable<'_>,
    base: u64,
    code: &Enclosing,
) -> Result<SpanSets, Stop<DwarfFault>>
    requires { length table.now.dies < 2 ^ 32 }
    ensures { MatchStop result
        (λ sets. Says (Match (IsSet code.now)) (each_of (pairs_of sections.now unit.now table.now.root base) table.now.dies) sets)
        (λ fault. each_of (pairs_of sections.now unit.now table.now.root base) table.now.dies ≡ Err fault)
        (Prim.Unit {0}) }
{
    let count = table.dies().len();
    let mut sets = SpanSets::with_room(alloc, count)?;
    let mut lists = ListsRead::new(alloc);
    'entries: for entry in 0..count {
        if !counts_at(table, entry as u32) {
            sets.push_none()?;
            continue;
        }
        if let Some(earlier) = find_earlier(sections, unit, table, entry as u32, &mut lists)? {
            sets.push_again(earlier as usize)?;
            continue;
        }
        match read_set(alloc, sections, unit, table, entry as u32, base, code) {
            Ok(set) => sets.push(&set)?,
            Err(stop) => return Err(stop),
        }
    }
    sets.shrink();
    Ok(sets)
}

/// An empty set for each entry.
fn no_sets(alloc: Global, table: &DieTable<'_>) -> Result<SpanSets, OutOfMemory>
    requires { length table.now.dies < 2 ^ 32 }
    ensures { (code : List Range) → IfOk result (λ sets. Match (IsSet code) (no_pairs table.now.dies) sets) }
{
    let count = table.dies().len();
    let mut sets = SpanSets::with_room(alloc, count)?;
    'entries: for _entry in 0..count {
        sets.push_none()?;
    }
    Ok(sets)
}

/// The addresses of all entries of a unit, or the first fault; a fault of the base of its range lists comes first. The entries of a supplementary
/// file have no addresses (DWARF 5, 7.3.6).
#[tactic(auto, unfolding(crate::specs::UnitSays::unit_pairs))]
pub fn read_pairs(
    alloc: Global,
    sections: &Sections<'_>,
    unit: &Unit,
    table: &DieTable<'_>,
    code: &Enclosing,
) -> Result<SpanSets, Stop<DwarfFault>>
    requires { length table.now.dies < 2 ^ 32 }
    ensures { MatchStop result
        (λ sets. Says (Match (IsSet code.now)) (unit_pairs sections.now unit.now table.now) sets)
        (λ fault. unit_pairs sections.now unit.now table.now ≡ Err fault)
        (Prim.Unit {0}) }
{
    if sections.is_sup {
        return Ok(no_sets(alloc, table)?);
    }
    match unit_base(sections, unit, table) {
        Ok(base) => read_sets(alloc, sections, unit, table, base, code),
        Err(fault) => Err(Stop::Fault(fault)),
    }
}
