//! The items of range lists.
ghost use Rattle.std.specs.Prelude.{◌≡◌};
ghost use Rattle.leb_cursor.specs.Ahead.{gave};
ghost use Rattle.range_lists.specs.declared.item.ItemFault.TheVariants as item_fault;
ghost use Rattle.range_lists.specs.ListItems.{item_of_pair, pair_at, item_by, rnglist_item_at, item_at};

use leb_cursor::{Cursor, CursorFault};

/// An item of a range list, with the names that DWARF 5, 7.25, gives the items of `.debug_rnglists`; the end of a list is no item. An item with an
/// `x` in its name gives addresses by index. A pair of `.debug_ranges` (DWARF 4, 2.17.3) is an `OffsetPair`, or a `BaseAddress` if it selects the
/// base.
#[derive(Clone, Copy, PartialEq, Eq, Debug)]
pub enum RangeItem {
    BaseAddressx { index: u64 },
    StartxEndx { start: u64, end: u64 },
    StartxLength { start: u64, length: u64 },
    OffsetPair { start: u64, end: u64 },
    BaseAddress { address: u64 },
    StartEnd { start: u64, end: u64 },
    StartLength { start: u64, length: u64 },
}

/// Why an item cannot be read.
#[derive(Clone, Copy, PartialEq, Eq, Debug)]
pub enum ItemFault {
    Cursor(CursorFault),

    /// There is no such kind: `at` is the place of the byte of the kind.
    Kind { at: usize },
}

impl From<CursorFault> for ItemFault {
    ghost from_gives = { λ fault gives. gives ≡ item_fault.Cursor fault };

    fn from(fault: CursorFault) -> ItemFault {
        ItemFault::Cursor(fault)
    }
}

const DW_RLE_end_of_list: u8 = 0;

const DW_RLE_base_addressx: u8 = 1;

const DW_RLE_startx_endx: u8 = 2;

const DW_RLE_startx_length: u8 = 3;

const DW_RLE_offset_pair: u8 = 4;

const DW_RLE_base_address: u8 = 5;

const DW_RLE_start_end: u8 = 6;

const DW_RLE_start_length: u8 = 7;

/// The item that a pair of numbers in `.debug_ranges` stands for.
#[inline]
fn item_of_pair(first: u64, second: u64) -> Option<RangeItem>
    ensures { result ≡ item_of_pair first second }
{
    if first == 0 && second == 0 {
        return None;
    }
    if first == u64::MAX {
        return Some(RangeItem::BaseAddress { address: second });
    }
    Some(RangeItem::OffsetPair {
        start: first,
        end: second,
    })
}

/// Reads an item of `.debug_ranges`.
#[inline]
#[tactic(auto, unfolding(crate::specs::ListItems::pair_at))]
fn read_pair(cursor: &mut Cursor<'_>) -> Result<Option<RangeItem>, CursorFault>
    ensures { gave result cursor.new ≡ pair_at cursor.old }
{
    let first = cursor.u64()?;
    let second = cursor.u64()?;
    Ok(item_of_pair(first, second))
}

/// Reads an item of `.debug_rnglists` after its kind, whose byte is at `at`.
#[tactic(auto, unfolding(crate::specs::ListItems::item_by))]
fn read_operands(
    kind: u8,
    at: usize,
    cursor: &mut Cursor<'_>,
) -> Result<Option<RangeItem>, ItemFault>
    ensures { gave result cursor.new ≡ item_by kind at cursor.old }
{
    let item = match kind {
        DW_RLE_end_of_list => return Ok(None),
        DW_RLE_base_addressx => RangeItem::BaseAddressx {
            index: cursor.uleb()?,
        },
        DW_RLE_startx_endx => {
            let start = cursor.uleb()?;
            let end = cursor.uleb()?;
            RangeItem::StartxEndx { start, end }
        }
        DW_RLE_startx_length => {
            let start = cursor.uleb()?;
            let length = cursor.uleb()?;
            RangeItem::StartxLength { start, length }
        }
        DW_RLE_offset_pair => {
            let start = cursor.uleb()?;
            let end = cursor.uleb()?;
            RangeItem::OffsetPair { start, end }
        }
        DW_RLE_base_address => RangeItem::BaseAddress {
            address: cursor.u64()?,
        },
        DW_RLE_start_end => {
            let start = cursor.u64()?;
            let end = cursor.u64()?;
            RangeItem::StartEnd { start, end }
        }
        DW_RLE_start_length => {
            let start = cursor.u64()?;
            let length = cursor.uleb()?;
            RangeItem::StartLength { start, length }
        }
        _ => return Err(ItemFault::Kind { at }),
    };
    Ok(Some(item))
}

/// Reads an item of `.debug_rnglists`.
#[inline]
#[tactic(auto, unfolding(crate::specs::ListItems::rnglist_item_at))]
fn read_rnglist_item(cursor: &mut Cursor<'_>) -> Result<Option<RangeItem>, ItemFault>
    ensures { gave result cursor.new ≡ rnglist_item_at cursor.old }
{
    let at = cursor.at();
    let kind = cursor.u8()?;
    read_operands(kind, at, cursor)
}

/// Reads the next item of a list, given the version of the unit; none if the list ends.
#[inline]
#[tactic(auto, unfolding(crate::specs::ListItems::item_at))]
pub fn read_item(version: u16, cursor: &mut Cursor<'_>) -> Result<Option<RangeItem>, ItemFault>
    ensures { gave result cursor.new ≡ item_at version cursor.old }
{
    if version < 5 {
        return Ok(read_pair(cursor)?);
    }
    read_rnglist_item(cursor)
}
