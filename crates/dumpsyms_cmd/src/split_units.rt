//! Units whose entries are in another file (DWARF 5, 3.1.2 and 7.5.1.2; in version 4 GNU's split DWARF).
ghost use Rattle.std.specs.Prelude.{◌≡◌, ◌≤◌, ◌+◌, true, length, List, Some, Ok, IfOk};
ghost use Rattle.std.specs.List.{list_any};
ghost use Rattle.leb_cursor.specs.Readings.{uleb_at};
ghost use Rattle.abbrev_units.specs.Abbreviations.{abbrevs_of};
ghost use Rattle.abbrev_units.specs.Texts.{read_or_none};
ghost use Rattle.abbrev_units.specs.SpecFields.{Abbrev};
ghost use Rattle.debug_read.specs.ImageSections.{sections_of};
ghost use Rattle.dumpsyms_cmd.specs.SplitUnits.{length_width, unit_type, names_file, root_code, root_by, root_names_file, is_split};
ghost use Rattle.dumpsyms_cmd.specs.internal.HeldTable.{IsHeld};

use abbrev_units::{Abbrev, AbbrevScratch, Sections, Unit, UnitPart};
use debug_read::sections_of;
use elf_sections::Image;
use leb_cursor::Cursor;
use std::alloc::Global;
use std::marker::Model;
use sym_edges::{OutOfMemory, Stop};

/// DW_UT_skeleton (DWARF 5, table 7.2).
const SKELETON: u8 = 4;

/// DW_AT_GNU_dwo_name, of GNU's split DWARF.
const DWO_NAME: u64 = 0x2130;

/// The number of bytes of a unit's length and version.
fn type_offset(wide: bool) -> usize
    ensures { result ≡ length_width wide + 2 }
{
    if wide { 14 } else { 6 }
}

/// The type of a unit of version 5, or 0 if the section ends before it.
#[tactic(auto, using(crate::proofs::SplitLemmas::type_beyond))]
fn unit_type(info: &[u8], unit: &Unit) -> u8
    ensures { result ≡ unit_type info.now unit.now }
{
    if unit.start > info.len() as u64 {
        return 0;
    }
    match info.get(unit.start as usize + type_offset(unit.wide)) {
        Some(byte) => *byte,
        None => 0,
    }
}

/// Reads the code of an abbreviation.
fn read_code(cursor: &mut Cursor<'_>) -> Option<u64>
    ensures { result ≡ read_or_none (uleb_at cursor.old) }
{
    match cursor.uleb() {
        Ok(code) => Some(code),
        Err(_) => None,
    }
}

/// The abbreviation code of a unit's first entry.
#[tactic(auto, using(crate::proofs::SplitLemmas::code_beyond, crate::proofs::SplitLemmas::code_inside))]
fn root_code(info: &[u8], unit: &Unit) -> Option<u64>
    ensures { result ≡ root_code info.now unit.now }
{
    let end = unit.end.min(info.len() as u64) as usize;
    if unit.body > end as u64 {
        return None;
    }
    let mut cursor = Cursor::new(info, unit.body as usize, end);
    read_code(&mut cursor)
}

/// Whether an entry has the attribute that names the file with the unit's entries.
fn has_name(root: &Abbrev<'_>) -> bool
    ensures { result ≡ list_any names_file root.now.specs }
{
    root.specs().iter().any(|spec| spec.attribute() == DWO_NAME)
}

/// Whether the abbreviation with this code has the attribute that names the file with the unit's
/// entries.
fn code_has_name(scratch: &AbbrevScratch, code: u64) -> bool
    ensures { result ≡ root_by (Some code) (Ok scratch.now) }
{
    match scratch.abbrevs().find(code) {
        Some(root) => has_name(&root),
        None => false,
    }
}

/// Whether two units have the same abbreviations, at a place inside the section.
fn is_same_table(sections: &Sections<'_>, one: &Unit, unit: &Unit) -> bool
    ensures { result ≡ true → (one.now.abbrev_at ≡ unit.now.abbrev_at) × (one.now.wide ≡ unit.now.wide) × (unit.now.abbrev_at ≤ length sections.now.abbrevs) }
{
    one.abbrev_at == unit.abbrev_at
        && one.wide == unit.wide
        && unit.abbrev_at <= sections.abbrevs.len() as u64
}

/// Whether the cached abbreviations are those of the unit.
#[tactic(auto, using(crate::proofs::SplitLemmas::held_same))]
fn is_held(sections: &Sections<'_>, held: Option<Unit>, unit: &Unit) -> bool
    ensures { (abbrevs : List Abbrev) → IsHeld sections.now held abbrevs → result ≡ true → abbrevs_of sections.now unit.now ≡ Ok abbrevs }
{
    match held {
        Some(one) => is_same_table(sections, &one, unit),
        None => false,
    }
}

/// The units of a file whose entries are in another file. The abbreviations of the unit that was asked for last are cached, since successive units
/// often share them.
#[derive(Drop)]
pub struct Splits<'a> {
    alloc: Global,
    sections: Sections<'a>,
    held: Option<Unit>,
    scratch: AbbrevScratch,
}

impl<'a> Model for Splits<'a> {
    ghost use Rattle.abbrev_units.specs.DebugSections.{DebugSections};
    ghost use Rattle.dumpsyms_cmd.specs.internal.HeldTable.{IsHeld};

    ghost Value = { DebugSections };

    ghost view = { λ s. s.sections };

    ghost invariant = { λ s. IsHeld s.sections s.held s.scratch };
}

impl<'a> Splits<'a> {
    pub fn of(alloc: Global, image: &Image<'a>) -> Result<Splits<'a>, OutOfMemory>
        ensures { IfOk result (λ splits. splits ≡ sections_of image.now) }
    {
        Ok(Splits {
            alloc,
            sections: sections_of(alloc, image)?,
            held: None,
            scratch: AbbrevScratch::new(alloc),
        })
    }

    /// Whether the first entry of a unit names another file.
    #[tactic(auto, using(crate::proofs::SplitLemmas::root_read, crate::proofs::SplitLemmas::root_refused, crate::proofs::SplitLemmas::root_none))]
    fn root_names_file(&mut self, unit: &Unit) -> Result<bool, OutOfMemory>
        ensures kept { self.new ≡ self.old }
        ensures is { IfOk result (λ split. split ≡ root_names_file self.old unit.now) }
    {
        let Some(code) = root_code(self.sections.info, unit) else {
            return Ok(false);
        };
        if is_held(&self.sections, self.held, unit) {
            return Ok(code_has_name(&self.scratch, code));
        }
        self.held = None;
        match self.scratch.read(self.alloc, &self.sections, unit) {
            Ok(()) => {
                self.held = Some(*unit);
                Ok(code_has_name(&self.scratch, code))
            }
            Err(Stop::Fault(_)) => Ok(false),
            Err(Stop::NoMemory) => Err(OutOfMemory),
        }
    }

    /// Whether the entries of a unit are in another file.
    pub fn is_split(&mut self, unit: &Unit) -> Result<bool, OutOfMemory>
        ensures kept { self.new ≡ self.old }
        ensures is { IfOk result (λ split. split ≡ is_split self.old unit.now) }
    {
        if unit.part != UnitPart::Read {
            return Ok(false);
        }
        match unit.version {
            5 => Ok(unit_type(self.sections.info, unit) == SKELETON),
            4 => self.root_names_file(unit),
            _ => Ok(false),
        }
    }
}
