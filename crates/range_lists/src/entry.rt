//! The addresses of entries.
ghost use Rattle.std.specs.Prelude.{◌≡◌, ℕ, [], None, Ok, false, slice_get};
ghost use Rattle.abbrev_units.specs.DebugSections.{DebugSections};
ghost use Rattle.abbrev_units.specs.declared.unit.Unit.{Unit as UnitHead};
ghost use Rattle.die_walk.specs.EntryKinds.{counts};
ghost use Rattle.range_lists.specs.EntryRanges.{addresses_for, unit_base, list_bytes, list_by_number, list_place, list_of, end_of, bounds_by, pairs_of, pairs_at, place_of_list, listed_at, IsRanges, IsGiven, HasNoList};

use crate::gatherer::set_of_pair;
use crate::list::ranges_of_list;
use crate::places::{Addresses, cursor_in, entry_fault, number_there, numbered_place};
use abbrev_units::{DwarfFault, DwarfKind, Sections, Unit, Value};
use die_walk::{Die, DieTable, Root};
use leb_cursor::Cursor;
use range_set::{Enclosing, RangeSet};
use std::alloc::Global;
use sym_edges::{Sect, Stop};

/// The address table for the entry at `at`.
#[inline]
fn addresses_for<'a>(sections: &Sections<'a>, root: &Root<'_>, at: usize) -> Addresses<'a>
    ensures { result ≡ addresses_for sections.now root.now at }
{
    Addresses {
        bytes: sections.addr,
        base: root.addr_base,
        at,
    }
}

/// The base of a unit, from which the offsets in its range lists count (DWARF 5, 3.1.1): the low
/// address of its root, or 0. Allocates no memory. If the address is given by index, there are
/// three faults. `NoBase` is in `.debug_info` at the root, if the unit has no addr_base.
/// `OffsetOutside` is there too, if the index leads after the end of `.debug_addr`. `Ends` is in
/// `.debug_addr`, if not all bytes of the address are there.
#[tactic(auto, unfolding(crate::specs::EntryRanges::unit_base))]
pub fn unit_base(
    sections: &Sections<'_>,
    _unit: &Unit,
    table: &DieTable<'_>,
) -> Result<u64, DwarfFault>
    ensures { result ≡ unit_base sections.now table.now.root }
{
    let root = table.root();
    let Some(low) = root.low else {
        return Ok(0);
    };
    let address = addresses_for(sections, root, root.at as usize).of_value(low)?;
    Ok(address.unwrap_or(0))
}

/// The bytes of the section that has the unit's lists.
#[inline]
fn list_bytes<'a>(sections: &Sections<'a>, unit: &Unit) -> &'a [u8]
    ensures { result.now ≡ list_bytes sections.now unit.now }
{
    if unit.version < 5 {
        sections.ranges
    } else {
        sections.rnglists
    }
}

/// The place of a list, given its index, for the entry at `at`.
fn list_by_number(
    sections: &Sections<'_>,
    unit: &Unit,
    base: Option<u64>,
    at: usize,
    index: u64,
) -> Result<u128, DwarfFault>
    ensures { result ≡ list_by_number sections.now unit.now base at index }
{
    let Some(base) = base else {
        return Err(entry_fault(DwarfKind::NoBase, at));
    };
    let place = numbered_place(base, unit.wide, index);
    let offset = number_there(Sect::Rnglists, sections.rnglists, unit.wide, at, place)?;
    Ok(u128::from(base) + u128::from(offset))
}

/// The place of the list of the entry at `at`, if it has a list.
#[tactic(auto, unfolding(crate::specs::EntryRanges::list_place))]
fn list_place(
    sections: &Sections<'_>,
    unit: &Unit,
    root: &Root<'_>,
    at: usize,
    ranges: Option<Value>,
) -> Result<Option<u128>, DwarfFault>
    ensures { result ≡ list_place sections.now unit.now root.now at ranges }
{
    match ranges {
        Some(Value::SecOffset(place)) => Ok(Some(u128::from(place))),
        Some(Value::Num(place)) => Ok(Some(u128::from(place))),
        Some(Value::ListIndex(index)) => {
            if unit.version < 5 {
                return Ok(None);
            }
            Ok(Some(list_by_number(sections, unit, root.rnglists_base, at, index)?))
        }
        _ => Ok(None),
    }
}

/// The list of the entry at `at`, if it has a list.
#[tactic(auto, unfolding(crate::specs::EntryRanges::list_of))]
fn list_of<'a>(
    sections: &Sections<'a>,
    unit: &Unit,
    root: &Root<'_>,
    at: usize,
    ranges: Option<Value>,
) -> Result<Option<Cursor<'a>>, DwarfFault>
    ensures { result ≡ list_of sections.now unit.now root.now at ranges }
{
    let Some(place) = list_place(sections, unit, root, at, ranges)? else {
        return Ok(None);
    };
    Ok(Some(cursor_in(list_bytes(sections, unit), at, place)?))
}

/// The end of the range that begins at `start`.
#[tactic(auto, unfolding(crate::specs::EntryRanges::end_of))]
fn end_of(addresses: &Addresses<'_>, start: u64, high: Value) -> Result<Option<u64>, DwarfFault>
    ensures { result ≡ end_of addresses.now start high }
{
    match high {
        Value::Num(length) => Ok(Some(start.wrapping_add(length))),
        Value::Signed(length) => Ok(Some(start.wrapping_add(length.cast_unsigned()))),
        _ => addresses.of_value(high),
    }
}

/// The addresses from low_pc to high_pc, if the entry has both.
fn ranges_of_bounds(
    addresses: &Addresses<'_>,
    low: Option<Value>,
    high: Option<Value>,
    code: &Enclosing,
) -> Result<RangeSet, Stop<DwarfFault>>
    ensures ranges { IsRanges code.now result (bounds_by addresses.now low high) }
    ensures given { IsGiven result }
{
    let Some(low) = low else {
        return Ok(RangeSet::empty());
    };
    let Some(high) = high else {
        return Ok(RangeSet::empty());
    };
    let start = match addresses.of_value(low) {
        Ok(Some(start)) => start,
        Ok(None) => return Ok(RangeSet::empty()),
        Err(fault) => return Err(Stop::Fault(fault)),
    };
    match end_of(addresses, start, high) {
        Ok(Some(end)) => Ok(set_of_pair(code, start, end)),
        Ok(None) => Ok(RangeSet::empty()),
        Err(fault) => Err(Stop::Fault(fault)),
    }
}

/// Whether the addresses of an entry count: it is a function or an inlined copy.
#[inline]
#[tactic(auto, unfolding(die_walk::specs::EntryKinds::counts))]
fn counts(die: &Die<'_, '_>) -> bool
    ensures { result ≡ counts die.now }
{
    die.is_function() || die.is_inlined()
}

/// The addresses of an entry.
#[tactic(auto, using(crate::proofs::GatherLemmas::not_listed), unfolding(crate::specs::EntryRanges::pairs_of))]
fn ranges_of_die(
    alloc: Global,
    sections: &Sections<'_>,
    unit: &Unit,
    root: &Root<'_>,
    base: u64,
    die: &Die<'_, '_>,
    code: &Enclosing,
) -> Result<RangeSet, Stop<DwarfFault>>
    ensures ranges { IsRanges code.now result (pairs_of sections.now unit.now root.now base die.now) }
    ensures given { die.now.ranges ≡ None → IsGiven result }
{
    if !counts(die) {
        return Ok(RangeSet::empty());
    }
    let at = die.at() as usize;
    let addresses = addresses_for(sections, root, at);
    match list_of(sections, unit, root, at, die.ranges()) {
        Ok(Some(list)) => ranges_of_list(alloc, unit.version, &addresses, base, list, code),
        Ok(None) => ranges_of_bounds(&addresses, die.low(), die.high(), code),
        Err(fault) => Err(Stop::Fault(fault)),
    }
}

/// The addresses of the entry at an index of the table (DWARF 5, 2.17); an index after the last
/// entry has none. `base` is the unit's base, as [`unit_base`] gives it.
///
/// Faults of the entry are in `.debug_info`, at the entry: `NoBase` if an address or a list is
/// given by index and the unit has no base for it, `OffsetOutside` if the place of a list or of an
/// index is after the end of its section. Faults of a list are in the section of the list: `Ends`
/// and `LebLong` at the field, `RangeKind` at the byte of the kind. If a number at an index is cut
/// off, `Ends` is at the place of the number, in `.debug_addr` or `.debug_rnglists`. For an entry
/// without a list no memory is allocated.
pub fn ranges_of(
    alloc: Global,
    sections: &Sections<'_>,
    unit: &Unit,
    table: &DieTable<'_>,
    entry: u32,
    base: u64,
    code: &Enclosing,
) -> Result<RangeSet, Stop<DwarfFault>>
    ensures ranges { IsRanges code.now result (pairs_at sections.now unit.now table.now.root base (slice_get table.now.dies entry)) }
    ensures given { HasNoList (slice_get table.now.dies entry) → IsGiven result }
{
    match table.dies().get(entry as usize) {
        Some(die) => ranges_of_die(alloc, sections, unit, table.root(), base, &die, code),
        None => Ok(RangeSet::empty()),
    }
}

/// The place of an entry's list.
#[inline(always)]
#[tactic(auto, unfolding(crate::specs::EntryRanges::place_of_list))]
fn place_of_list(
    sections: &Sections<'_>,
    unit: &Unit,
    root: &Root<'_>,
    die: &Die<'_, '_>,
) -> Option<u128>
    ensures { result ≡ place_of_list sections.now unit.now root.now die.now }
{
    if !counts(die) {
        return None;
    }
    match list_place(sections, unit, root, die.at() as usize, die.ranges()) {
        Ok(place) => place,
        Err(_) => None,
    }
}

/// Whether the entry at an index of the table counts, which means that it is a function or an
/// inlined copy. An index after the last entry does not count. An entry that does not count gives
/// no addresses.
#[inline]
pub fn counts_at(table: &DieTable<'_>, entry: u32) -> bool
    ensures { result ≡ false → (sections : DebugSections) (unit : UnitHead) (base : ℕ) → pairs_at sections unit table.now.root base (slice_get table.now.dies entry) ≡ Ok [] }
{
    match table.dies().get(entry as usize) {
        Some(die) => counts(&die),
        None => false,
    }
}

/// The place of an entry's list in its section, given the index of the entry in the table. It is
/// `None` if there is no such entry, if the entry does not count or has no list, or if finding the
/// place gives a fault. Entries of one unit with lists at the same place have the same set:
/// [`lists_at_one_place`](crate::laws::lists_at_one_place).
#[inline(always)]
pub fn listed_at(
    sections: &Sections<'_>,
    unit: &Unit,
    table: &DieTable<'_>,
    entry: u32,
) -> Option<u128>
    ensures { result ≡ listed_at sections.now unit.now table.now.root (slice_get table.now.dies entry) }
{
    match table.dies().get(entry as usize) {
        Some(die) => place_of_list(sections, unit, table.root(), &die),
        None => None,
    }
}
