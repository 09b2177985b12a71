//! The addresses that a range list gives.
ghost use Rattle.range_lists.specs.ListPairs.{list_pairs};
ghost use Rattle.range_lists.specs.EntryRanges.{IsRanges};

use crate::effect::read_effect;
use crate::gatherer::Gathering;
use crate::places::Addresses;
use abbrev_units::DwarfFault;
use leb_cursor::Cursor;
use range_set::{Enclosing, RangeSet};
use std::alloc::Global;
use sym_edges::Stop;

/// The addresses of the list ahead, given the version of its unit; its offsets count from `base`.
pub fn ranges_of_list(
    alloc: Global,
    version: u16,
    addresses: &Addresses<'_>,
    base: u64,
    list: Cursor<'_>,
    code: &Enclosing,
) -> Result<RangeSet, Stop<DwarfFault>>
    ensures { IsRanges code.now result (list_pairs version addresses.now base list.entry) }
{
    let mut gathering = Gathering::new(alloc);
    let mut base = base;
    let mut cursor = list;
    'items: loop {
        match read_effect(version, addresses, &mut cursor) {
            Ok(Some(effect)) => base = gathering.take(code, base, effect)?,
            Ok(None) => break,
            Err(fault) => return Err(Stop::Fault(fault)),
        }
    }
    Ok(gathering.finish(alloc)?)
}
