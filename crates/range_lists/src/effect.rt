//! What the items of range lists do.
ghost use Rattle.std.specs.Prelude.{◌≡◌};
ghost use Rattle.leb_cursor.specs.Ahead.{gave};
ghost use Rattle.range_lists.specs.ListPairs.{effect_of, list_section, item_fault, effect_at};

use crate::item::{ItemFault, RangeItem, read_item};
use crate::places::Addresses;
use abbrev_units::{DwarfFault, DwarfKind, in_section};
use leb_cursor::Cursor;
use sym_edges::{Located, Sect};

/// What an item does: it sets the base, or gives a pair of addresses or a pair of offsets from the
/// base. Addresses that the item gives by index have been looked up.
#[derive(Clone, Copy, PartialEq, Eq, Debug)]
pub enum Effect {
    SetBase { address: u64 },
    Absolute { start: u64, end: u64 },
    Relative { start: u64, end: u64 },
}

/// What an item does; addresses by index are looked up.
#[tactic(auto, unfolding(crate::specs::ListPairs::effect_of))]
fn effect_of(addresses: &Addresses<'_>, item: RangeItem) -> Result<Effect, DwarfFault>
    ensures { result ≡ effect_of addresses.now item }
{
    let effect = match item {
        RangeItem::BaseAddressx { index } => Effect::SetBase {
            address: addresses.by_number(index)?,
        },
        RangeItem::StartxEndx { start, end } => {
            let start = addresses.by_number(start)?;
            let end = addresses.by_number(end)?;
            Effect::Absolute { start, end }
        }
        RangeItem::StartxLength { start, length } => {
            let start = addresses.by_number(start)?;
            let end = start.wrapping_add(length);
            Effect::Absolute { start, end }
        }
        RangeItem::OffsetPair { start, end } => Effect::Relative { start, end },
        RangeItem::BaseAddress { address } => Effect::SetBase { address },
        RangeItem::StartEnd { start, end } => Effect::Absolute { start, end },
        RangeItem::StartLength { start, length } => {
            let end = start.wrapping_add(length);
            Effect::Absolute { start, end }
        }
    };
    Ok(effect)
}

/// The section of the lists, given the version of the unit.
#[inline]
pub fn list_section(version: u16) -> Sect
    ensures { result ≡ list_section version }
{
    if version < 5 {
        Sect::Ranges
    } else {
        Sect::Rnglists
    }
}

/// The fault of an item of a list.
#[tactic(auto, unfolding(crate::specs::ListPairs::item_fault))]
fn item_fault(section: Sect, fault: ItemFault) -> DwarfFault
    ensures { result ≡ item_fault section fault }
{
    match fault {
        ItemFault::Cursor(fault) => in_section(section, fault),
        ItemFault::Kind { at } => Located {
            kind: DwarfKind::RangeKind,
            section,
            at,
        },
    }
}

/// Reads what the next item of a list does; none if the list ends.
#[inline]
#[tactic(auto, unfolding(crate::specs::ListPairs::effect_at))]
pub fn read_effect(
    version: u16,
    addresses: &Addresses<'_>,
    cursor: &mut Cursor<'_>,
) -> Result<Option<Effect>, DwarfFault>
    ensures { gave result cursor.new ≡ effect_at version addresses.now cursor.old }
{
    let found = match read_item(version, cursor) {
        Ok(found) => found,
        Err(fault) => return Err(item_fault(list_section(version), fault)),
    };
    let Some(item) = found else {
        return Ok(None);
    };
    Ok(Some(effect_of(addresses, item)?))
}
