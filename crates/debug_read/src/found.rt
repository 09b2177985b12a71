//! What is read of a file's debugging information.
use abbrev_units::UnitList;
use debug_units::Units;
use frame_entries::EntryList;

/// The headers of all units, of the file and of its supplementary file; the units that are read, in the order of their headers, those of the file
/// first; and the frame entries of `.eh_frame` and of `.debug_frame`.
#[derive(Drop)]
pub struct DebugRead<'a> {
    pub headers: UnitList,
    pub sup_headers: UnitList,
    pub units: Units<'a>,
    pub first: EntryList<'a>,
    pub second: EntryList<'a>,
}
