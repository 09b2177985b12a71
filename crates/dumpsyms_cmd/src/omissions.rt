//! What a dump leaves out: skipped units, and frame entries.
ghost use Rattle.std.specs.Prelude.{◌≡◌, ◌++◌, ◌∷◌, [], length, codes, decimal, OnOk, IfOk};
ghost use Rattle.std.specs.List.{flat_map, list_any};
ghost use Rattle.abbrev_units.specs.UnitPlaces.{read_units};
ghost use Rattle.sym_records.specs.Canon.{spaced};
ghost use Rattle.sym_records.specs.Fields.{hex};
ghost use Rattle.stack_text.specs.Lines.{line};
ghost use Rattle.dumpsyms_cmd.specs.Refusals.{omitted_line, omitted_text, skipped_of, skipped_text, split_line, unit_left, units_left_text, units_text};
ghost use Rattle.debug_read.specs.ImageSections.{sections_of};
ghost use Rattle.dumpsyms_cmd.specs.SupUnits.{sup_skipped_text};
ghost use Rattle.dumpsyms_cmd.specs.internal.LeftOut.{is_skipped, kept_entries, left_of, sup_left};

use crate::split_units::Splits;
use abbrev_units::{Unit, UnitPart};
use debug_read::{DebugRead, SupTargets};
use elf_sections::Image;
use itoa::Buffer;
use rule_postfix::Omission;
use stack_text::add_line;
use std::alloc::{AllocError, Global};
use sym_edges::OutOfMemory;
use sym_records::{ByteText, HexText};

/// Adds a line with these words and the place and the version of a unit.
fn add_version(text: &mut Vec<u8>, words: &[u8], unit: &Unit) -> Result<(), AllocError>
    ensures { OnOk result (text.new.items ≡ text.old.items ++ line (spaced words.now (hex unit.now.start ∷ codes "version" ∷ decimal unit.now.version ∷ []))) }
{
    let at = HexText::of(unit.start);
    let mut buffer = Buffer::new();
    let more = [
        at.as_slice(),
        b"version",
        buffer.format(unit.version).as_bytes(),
    ];
    add_line(text, words, &more)
}

/// Adds the line for a unit if it is skipped.
fn add_skipped(text: &mut Vec<u8>, unit: &Unit) -> Result<(), AllocError>
    ensures { OnOk result (text.new.items ≡ text.old.items ++ skipped_of unit.now) }
{
    match unit.part {
        UnitPart::Read => Ok(()),
        UnitPart::Passed => Ok(()),
        UnitPart::Skipped => add_version(text, b"skipped debug_info", unit),
    }
}

/// Adds the lines for the skipped units.
#[tactic(auto, using(crate::proofs::FrameLemmas::skipped_end))]
fn add_units(text: &mut Vec<u8>, units: &[Unit]) -> Result<(), AllocError>
    ensures { OnOk result (text.new.items ≡ text.old.items ++ skipped_text units.now) }
{
    'lines: for unit in units {
        add_skipped(text, unit)?;
    }
    Ok(())
}

/// Adds the line for a unit whose entries are in another file.
fn add_split(text: &mut Vec<u8>, unit: &Unit) -> Result<(), AllocError>
    ensures { OnOk result (text.new.items ≡ text.old.items ++ split_line unit.now) }
{
    let at = HexText::of(unit.start);
    let words = [at.as_slice()];
    add_line(text, b"split debug_info", &words)
}

/// Adds the line for a unit that is skipped, or whose entries are in another file.
fn add_left(text: &mut Vec<u8>, splits: &mut Splits<'_>, unit: &Unit) -> Result<(), OutOfMemory>
    ensures kept { splits.new ≡ splits.old }
    ensures text { OnOk result (text.new.items ≡ text.old.items ++ unit_left splits.old unit.now) }
{
    if splits.is_split(unit)? {
        add_split(text, unit)?;
    } else {
        add_skipped(text, unit)?;
    }
    Ok(())
}

/// Adds the lines for the units that are skipped and for those whose entries are in another file.
#[tactic(auto, using(crate::proofs::FrameLemmas::left_end))]
fn add_units_left(
    text: &mut Vec<u8>,
    splits: &mut Splits<'_>,
    units: &[Unit],
) -> Result<(), OutOfMemory>
    ensures { OnOk result (text.new.items ≡ text.old.items ++ units_left_text splits.old units.now) }
{
    'lines: for unit in units {
        add_left(text, splits, unit)?;
    }
    Ok(())
}

/// Whether any of the units is skipped.
fn has_skipped(units: &[Unit]) -> bool
    ensures { result ≡ list_any is_skipped units.now }
{
    units.iter().any(|unit| unit.part == UnitPart::Skipped)
}

/// The number of units that are read.
fn count_read(units: &[Unit]) -> usize
    ensures { result ≡ length (read_units units.now) }
{
    let mut count = 0;
    'units: for unit in units {
        if unit.part == UnitPart::Read {
            count += 1;
        }
    }
    count
}

/// Adds the line for a unit of the supplementary file, if it is skipped and an entry refers to it.
fn add_sup_skipped(text: &mut Vec<u8>, targets: &SupTargets, unit: &Unit) -> Result<(), AllocError>
    ensures { OnOk result (text.new.items ≡ text.old.items ++ sup_left targets.now unit.now) }
{
    match unit.part {
        UnitPart::Read => Ok(()),
        UnitPart::Passed => Ok(()),
        UnitPart::Skipped => {
            if targets.leads_into(unit) {
                add_version(text, b"skipped sup_info", unit)?;
            }
            Ok(())
        }
    }
}

/// Adds the lines of `add_sup_skipped` for all of the units.
fn add_sup_lines(text: &mut Vec<u8>, targets: &SupTargets, units: &[Unit]) -> Result<(), AllocError>
    ensures { OnOk result (text.new.items ≡ text.old.items ++ flat_map (sup_left targets.now) units.now) }
{
    'lines: for unit in units {
        add_sup_skipped(text, targets, unit)?;
    }
    Ok(())
}

/// Adds the lines for the skipped units of the supplementary file to which entries of the file refer.
fn add_sup_units(
    text: &mut Vec<u8>,
    alloc: Global,
    debug: &DebugRead<'_>,
) -> Result<(), OutOfMemory>
    ensures { OnOk result (text.new.items ≡ text.old.items ++ sup_skipped_text (kept_entries debug.now) debug.now.sup_headers) }
{
    let units = debug.sup_headers.as_slice();
    if !has_skipped(units) {
        return Ok(());
    }
    let count = count_read(debug.headers.as_slice());
    let targets = SupTargets::of(alloc, &debug.units, count)?;
    add_sup_lines(text, &targets, units)?;
    Ok(())
}

/// Adds the lines for the skipped units; if `full`, also for those whose entries are in another file.
fn add_own_units(
    text: &mut Vec<u8>,
    alloc: Global,
    full: bool,
    image: &Image<'_>,
    units: &[Unit],
) -> Result<(), OutOfMemory>
    ensures { OnOk result (text.new.items ≡ text.old.items ++ units_text full (sections_of image.now) units.now) }
{
    if full {
        add_units_left(text, &mut Splits::of(alloc, image)?, units)?;
    } else {
        add_units(text, units)?;
    }
    Ok(())
}

/// Adds the line for a frame entry that is left out.
fn add_omission(text: &mut Vec<u8>, omission: &Omission) -> Result<(), AllocError>
    ensures { OnOk result (text.new.items ≡ text.old.items ++ omitted_line omission.now) }
{
    let at = HexText::of(omission.at);
    let words = [
        omission.section.word(),
        at.as_slice(),
        omission.reason.word(),
    ];
    add_line(text, b"omitted", &words)
}

/// Adds the lines for the frame entries that are left out.
#[tactic(auto, using(crate::proofs::FrameLemmas::lines_end))]
fn add_omissions(text: &mut Vec<u8>, omissions: &[Omission]) -> Result<(), AllocError>
    ensures { OnOk result (text.new.items ≡ text.old.items ++ omitted_text omissions.now) }
{
    'lines: for omission in omissions {
        add_omission(text, omission)?;
    }
    Ok(())
}

/// The lines about what is left out. First come the skipped units, and if `full` also the units whose entries are in another file; then the skipped
/// units of the supplementary file (DWARF 5, 7.3.6) to which entries refer; and then the frame entries that are left out.
pub fn list_left_out(
    alloc: Global,
    full: bool,
    image: &Image<'_>,
    debug: &DebugRead<'_>,
    omissions: &[Omission],
) -> Result<ByteText, OutOfMemory>
    ensures { IfOk result (λ text. text ≡ left_of full image.now debug.now omissions.now) }
{
    let mut text = Vec::new(alloc);
    add_own_units(&mut text, alloc, full, image, debug.headers.as_slice())?;
    add_sup_units(&mut text, alloc, debug)?;
    add_omissions(&mut text, omissions)?;
    Ok(ByteText::of(text))
}
