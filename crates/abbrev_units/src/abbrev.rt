//! Reads abbreviations (DWARF 5, 7.5.3).
ghost use Rattle.std.specs.Prelude.{◌≡◌, length, drop, OnOk};
ghost use Rattle.leb_cursor.specs.Ahead.{gave};
ghost use Rattle.abbrev_units.specs.Abbreviations.{implicit_at};
ghost use Rattle.abbrev_units.specs.internal.Used.{used_spec_at, used_specs_at, used_abbrev_by, used_abbrev_at};
ghost use Rattle.abbrev_units.specs.internal.Listed.{Starts, Grown, LeavesAt, ReadsAt};

use crate::form_table::FormTable;
use crate::lists::{Head, Lists};
use crate::spec::Spec;
use code_table::DW_FORM_implicit_const;
use leb_cursor::{Cursor, CursorFault};
use sym_edges::Stop;

/// Reads the constant after the form DW_FORM_implicit_const, and nothing after other forms.
#[tactic(auto, unfolding(crate::specs::Abbreviations::implicit_at))]
fn read_implicit(cursor: &mut Cursor<'_>, form: u64) -> Result<i64, CursorFault>
    ensures { gave result cursor.new ≡ implicit_at form cursor.old }
{
    if form != DW_FORM_implicit_const {
        return Ok(0);
    }
    Ok(cursor.sleb()?)
}

/// Reads an attribute and its form, or the end of their list.
#[tactic(auto, unfolding(crate::specs::internal::Used::used_spec_at, crate::specs::Abbreviations::spec_at))]
fn read_spec(cursor: &mut Cursor<'_>, forms: &FormTable) -> Result<Option<Spec>, CursorFault>
    ensures { gave result cursor.new ≡ used_spec_at forms.now cursor.old }
{
    let attribute = cursor.uleb()?;
    let form = cursor.uleb()?;
    let implicit = read_implicit(cursor, form)?;
    if attribute == 0 && form == 0 {
        return Ok(None);
    }
    Ok(Some(Spec::of(forms, attribute, form, implicit)))
}

/// Reads attributes up to the end of their list, and appends them to `specs`.
#[tactic(auto, using(crate::proofs::ListedLemmas::none_added, crate::proofs::ListedLemmas::starts_here, crate::proofs::ListedLemmas::starts_more, crate::proofs::ListedLemmas::added_more, crate::proofs::AbbrevLemmas::specs_begin, crate::proofs::BehindLemmas::goes_on, crate::proofs::BehindLemmas::ends, crate::proofs::BehindLemmas::refuses, crate::proofs::BehindLemmas::shorter))]
fn read_specs(
    specs: &mut Vec<Spec>,
    cursor: &mut Cursor<'_>,
    forms: &FormTable,
) -> Result<(), Stop<CursorFault>>
    ensures starts { OnOk result (Starts specs.old.items specs.new.items) }
    ensures read { LeavesAt result (drop (length specs.old.items) specs.new.items) cursor.new (used_specs_at forms.now cursor.old) }
{
    'specs: loop {
        match read_spec(cursor, forms) {
            Ok(Some(spec)) => specs.push(spec)?,
            Ok(None) => return Ok(()),
            Err(fault) => return Err(Stop::Fault(fault)),
        }
    }
}

/// Reads an abbreviation after its code.
#[tactic(auto, unfolding(crate::specs::internal::Used::used_abbrev_by, crate::specs::internal::Used::used_specs_at, crate::specs::Abbreviations::abbrev_by), using(crate::proofs::AbbrevLemmas::specs_given, crate::proofs::AbbrevLemmas::specs_fault, crate::proofs::ListedLemmas::grown_by))]
fn read_behind(
    lists: &mut Lists,
    cursor: &mut Cursor<'_>,
    forms: &FormTable,
    code: u64,
) -> Result<Option<Head>, Stop<CursorFault>>
    ensures read { ReadsAt result lists.new cursor.new (used_abbrev_by forms.now code cursor.old) }
    ensures grown { OnOk result (Grown lists.old lists.new) }
{
    let tag = cursor.uleb().map_err(Stop::Fault)?;
    let children = cursor.u8().map_err(Stop::Fault)?;
    let from = lists.specs.len();
    read_specs(&mut lists.specs, cursor, forms)?;
    let head = lists.add(from, code, tag, children != 0)?;
    Ok(Some(head))
}

/// Reads the next abbreviation, or the end of the abbreviations.
#[tactic(auto, unfolding(crate::specs::internal::Used::used_abbrev_at, crate::specs::internal::Used::used_abbrev_by, crate::specs::Abbreviations::abbrev_at))]
pub fn read_abbrev(
    lists: &mut Lists,
    cursor: &mut Cursor<'_>,
    forms: &FormTable,
) -> Result<Option<Head>, Stop<CursorFault>>
    ensures read { ReadsAt result lists.new cursor.new (used_abbrev_at forms.now cursor.old) }
    ensures grown { OnOk result (Grown lists.old lists.new) }
{
    let code = cursor.uleb().map_err(Stop::Fault)?;
    if code == 0 {
        return Ok(None);
    }
    read_behind(lists, cursor, forms, code)
}
