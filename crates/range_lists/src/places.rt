//! Places to which an entry refers, and addresses by index.
ghost use Rattle.std.specs.Prelude.{◌≡◌, ◌+◌, ◌*◌};
ghost use Rattle.abbrev_units.specs.Texts.{place_width};
ghost use Rattle.range_lists.specs.Places.{entry_fault, ahead_in, number_there, address_by, address_at, address_of};

use abbrev_units::{DwarfFault, DwarfKind, Value, cursor_from, in_section, read_place};
use leb_cursor::Cursor;
use std::marker::Model;
use sym_edges::{Located, Sect};

/// A fault of an entry, given the place of the entry in `.debug_info`.
#[inline]
pub fn entry_fault(kind: DwarfKind, at: usize) -> DwarfFault
    ensures { result ≡ entry_fault kind at }
{
    Located {
        kind,
        section: Sect::Info,
        at,
    }
}

/// A cursor at a place of a section, to which the entry at `at` refers.
#[inline]
#[tactic(auto, unfolding(crate::specs::Places::ahead_in))]
pub fn cursor_in(bytes: &[u8], at: usize, place: u128) -> Result<Cursor<'_>, DwarfFault>
    ensures { result ≡ ahead_in bytes.now at place }
{
    if place > bytes.len() as u128 {
        return Err(entry_fault(DwarfKind::OffsetOutside, at));
    }
    Ok(cursor_from(bytes, place as usize))
}

/// The place of a number in a table that begins at `base`, given the number's index. Each number has four bytes, or eight if `wide`.
#[inline]
pub fn numbered_place(base: u64, wide: bool, index: u64) -> u128
    ensures { result ≡ base + place_width wide * index }
{
    let width = if wide { 8 } else { 4 };
    u128::from(base) + width * u128::from(index)
}

/// Reads the number at a place to which the entry at `at` refers.
#[inline]
#[tactic(auto, unfolding(crate::specs::Places::number_there))]
pub fn number_there(
    section: Sect,
    bytes: &[u8],
    wide: bool,
    at: usize,
    place: u128,
) -> Result<u64, DwarfFault>
    ensures { result ≡ number_there section (place_width wide) bytes.now at place }
{
    let mut cursor = cursor_in(bytes, at, place)?;
    match read_place(&mut cursor, wide) {
        Ok(number) => Ok(number),
        Err(fault) => Err(in_section(section, fault)),
    }
}

/// The table in which an entry finds addresses by index (DWARF 5, 7.27): the bytes of `.debug_addr`, the unit's addr_base, and the place of the entry
/// in `.debug_info`.
#[derive(Debug, Drop)]
pub struct Addresses<'a> {
    pub bytes: &'a [u8],
    pub base: Option<u64>,
    pub at: usize,
}

impl<'a> Model for Addresses<'a> {
    ghost use Rattle.range_lists.specs.AddressTable.{AddressTable};

    ghost Value = { AddressTable };

    ghost view = { λ a. record { bytes = a.bytes.now; base = a.base; at = a.at } };
}

impl<'a> Addresses<'a> {
    /// The address at an index.
    #[inline]
    #[tactic(auto, unfolding(crate::specs::Places::address_at))]
    pub fn by_number(&self, index: u64) -> Result<u64, DwarfFault>
        ensures { result ≡ address_at self.now index }
    {
        let Some(base) = self.base else {
            return Err(entry_fault(DwarfKind::NoBase, self.at));
        };
        let place = numbered_place(base, true, index);
        number_there(Sect::Addr, self.bytes, true, self.at, place)
    }

    /// The address that a value of class address gives.
    #[inline]
    #[tactic(auto, unfolding(crate::specs::Places::address_of))]
    pub fn of_value(&self, value: Value) -> Result<Option<u64>, DwarfFault>
        ensures { result ≡ address_of self.now value }
    {
        match value {
            Value::Addr(address) => Ok(Some(address)),
            Value::AddrIndex(index) => Ok(Some(self.by_number(index)?)),
            _ => Ok(None),
        }
    }
}
