//! The units of `.debug_info` (DWARF 5, 7.5.1).
ghost use Rattle.std.specs.Prelude.{◌≡◌};
ghost use Rattle.leb_cursor.specs.Ahead.{gave};
ghost use Rattle.abbrev_units.specs.Faults.{left_by, Gives};
ghost use Rattle.abbrev_units.specs.Units.{other_unit, read_unit, address_size_at, version_4_at, version_5_by, version_5_at, unit_by, unit_in, header_at, next_unit, units_in};

use crate::fault::{DwarfFault, DwarfKind, HeaderFault, header_fault};
use crate::length::{Contents, read_contents};
use crate::text::read_place;
use leb_cursor::Cursor;
use std::alloc::Global;
use sym_edges::{ListOf, Sect, Stop};

/// Whether the entries of a unit are read.
#[derive(Clone, Copy, PartialEq, Eq, Debug)]
pub enum UnitPart {
    Read,

    /// A type unit or a split unit.
    Passed,

    /// A unit of a version other than 4 and 5.
    Skipped,
}

/// A unit: where it, its entries and its end are in `.debug_info`, its version, the place of its abbreviations in `.debug_abbrev`, and whether it has
/// the 64-bit format. `body` and `abbrev_at` are 0 if the unit is not read.
#[derive(Clone, Copy, PartialEq, Eq, Debug)]
pub struct Unit {
    pub start: u64,
    pub body: u64,
    pub end: u64,
    pub version: u16,
    pub abbrev_at: u64,
    pub part: UnitPart,
    pub wide: bool,
}

/// The units of a section.
pub type UnitList = ListOf<Unit>;

/// Where a unit starts and ends, and the first fields of its header.
#[derive(Clone, Copy)]
pub struct Frame {
    pub start: u64,
    pub end: u64,
    pub version: u16,
    pub wide: bool,
}

/// A unit whose entries are not read.
fn other_unit(part: UnitPart, frame: Frame) -> Unit
    ensures { result ≡ other_unit part frame }
{
    Unit {
        start: frame.start,
        body: 0,
        end: frame.end,
        version: frame.version,
        abbrev_at: 0,
        part,
        wide: frame.wide,
    }
}

/// A unit whose entries are read.
fn read_unit(frame: Frame, abbrev_at: u64, body: usize) -> Unit
    ensures { result ≡ read_unit frame abbrev_at body }
{
    Unit {
        body: body as u64,
        abbrev_at,
        ..other_unit(UnitPart::Read, frame)
    }
}

/// Reads the size of an address.
#[tactic(auto, unfolding(crate::specs::Units::address_size_at))]
fn read_address_size(cursor: &mut Cursor<'_>) -> Result<(), HeaderFault>
    ensures { left_by result cursor.new ≡ address_size_at cursor.old }
{
    let size = cursor.u8()?;
    if size != 8 {
        return Err(HeaderFault::Start(DwarfKind::AddressSize));
    }
    Ok(())
}

/// Reads the fields of version 4 after the version.
#[tactic(auto, unfolding(crate::specs::Units::version_4_at))]
fn read_version_4(frame: Frame, cursor: &mut Cursor<'_>) -> Result<Unit, HeaderFault>
    ensures { result ≡ version_4_at frame cursor.old }
{
    let place = read_place(cursor, frame.wide)?;
    read_address_size(cursor)?;
    Ok(read_unit(frame, place, cursor.at()))
}

/// Reads the fields of version 5 after the type.
#[tactic(auto, unfolding(crate::specs::Units::version_5_by))]
fn read_fields(frame: Frame, type_: u8, cursor: &mut Cursor<'_>) -> Result<Unit, HeaderFault>
    ensures { result ≡ version_5_by frame type_ cursor.old }
{
    read_address_size(cursor)?;
    let place = read_place(cursor, frame.wide)?;
    let _id = cursor.take(if type_ == 4 { 8 } else { 0 })?;
    Ok(read_unit(frame, place, cursor.at()))
}

/// Reads the fields of version 5 after the version.
#[tactic(auto, unfolding(crate::specs::Units::version_5_at))]
fn read_version_5(frame: Frame, cursor: &mut Cursor<'_>) -> Result<Unit, HeaderFault>
    ensures { result ≡ version_5_at frame cursor.old }
{
    let type_ = cursor.u8()?;
    match type_ {
        2 | 5 | 6 => Ok(other_unit(UnitPart::Passed, frame)),
        1 | 3 | 4 => read_fields(frame, type_, cursor),
        _ => Err(HeaderFault::Start(DwarfKind::UnitType)),
    }
}

/// Reads the fields after the version.
#[tactic(auto, unfolding(crate::specs::Units::unit_by))]
fn read_behind(frame: Frame, cursor: &mut Cursor<'_>) -> Result<Unit, HeaderFault>
    ensures { result ≡ unit_by frame cursor.old }
{
    match frame.version {
        4 => read_version_4(frame, cursor),
        5 => read_version_5(frame, cursor),
        _ => Ok(other_unit(UnitPart::Skipped, frame)),
    }
}

/// Reads a header, given the bytes that its length counts.
#[tactic(auto, unfolding(crate::specs::Units::unit_in))]
fn read_header(start: usize, contents: &mut Contents<'_>) -> Result<Unit, HeaderFault>
    ensures { result ≡ unit_in start contents.old }
{
    let end = contents.ahead.end();
    let version = contents.ahead.u16()?;
    let frame = Frame {
        start: start as u64,
        end: end as u64,
        version,
        wide: contents.wide,
    };
    read_behind(frame, &mut contents.ahead)
}

/// Reads the header of the next unit, and passes the unit.
#[tactic(auto, unfolding(crate::specs::Units::header_at))]
fn pass_unit(cursor: &mut Cursor<'_>) -> Result<Unit, HeaderFault>
    ensures { gave result cursor.new ≡ header_at cursor.old }
{
    let start = cursor.at();
    let mut contents = read_contents(cursor)?;
    read_header(start, &mut contents)
}

/// Reads the next unit; none at the end of the section.
#[tactic(auto, unfolding(crate::specs::Units::unit_at, crate::specs::Units::next_unit))]
fn next_unit(cursor: &mut Cursor<'_>) -> Result<Option<Unit>, DwarfFault>
    ensures { gave result cursor.new ≡ next_unit cursor.old }
{
    if cursor.is_at_end() {
        return Ok(None);
    }
    let start = cursor.at();
    match pass_unit(cursor) {
        Ok(unit) => Ok(Some(unit)),
        Err(fault) => Err(header_fault(Sect::Info, start, fault)),
    }
}

/// The units of `.debug_info` in their order, or the first fault in their headers (DWARF 5, 7.5.1; DWARF 4, 7.5.1.1). A unit of a version other than
/// 4 and 5 is skipped; a type unit or a split unit is passed. Faults are in `.debug_info`: `Ends` at the field if a field leaves the unit, and at the
/// unit's start if its length leaves the section; `Reserved`, `UnitType` and `AddressSize` at the unit's start.
#[tactic(auto, unfolding(crate::specs::Units::units_in), using(crate::proofs::UnitLemmas::units_begin, crate::proofs::BehindLemmas::goes_on, crate::proofs::BehindLemmas::ends, crate::proofs::BehindLemmas::refuses, crate::proofs::BehindLemmas::shorter))]
pub fn units(alloc: Global, info: &[u8]) -> Result<UnitList, Stop<DwarfFault>>
    ensures { Gives result (units_in info.now) }
{
    let mut cursor = Cursor::new(info, 0, info.len());
    let mut units = Vec::new(alloc);
    'units: loop {
        match next_unit(&mut cursor) {
            Ok(Some(unit)) => units.push(unit)?,
            Ok(None) => return Ok(ListOf::of(units)),
            Err(fault) => return Err(Stop::Fault(fault)),
        }
    }
}
