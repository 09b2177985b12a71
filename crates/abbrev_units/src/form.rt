//! Reads values by their form.
ghost use Rattle.std.specs.Prelude.{◌≡◌, OnErr, pos};
ghost use Rattle.leb_cursor.specs.Ahead.{gave};
ghost use Rattle.code_table.specs.Forms.{forms, form_row};
ghost use Rattle.abbrev_units.specs.FormValue.{value_by, indirect_at, form_at};

use crate::fault::FormFault;
use crate::value::{Value, value_of};
use code_table::{DW_FORM_implicit_const, DW_FORM_indirect, FormRow, find_form, read_kind};
use leb_cursor::Cursor;

/// Reads a value, given the row of its form. After a fault the cursor is where it was.
#[inline]
pub fn read_known(
    cursor: &mut Cursor<'_>,
    row: Option<FormRow>,
    implicit: i64,
) -> Result<Value, FormFault>
    ensures read { gave result cursor.new ≡ value_by row implicit cursor.old }
    ensures kept { OnErr result (cursor.new ≡ cursor.old) }
{
    let row = row.ok_or(FormFault::Unknown { at: cursor.at() })?;
    let operand = read_kind(cursor, row.layout)?;
    Ok(value_of(row.class, implicit, operand))
}

/// Reads a form and the value after it. After a fault the cursor is where it was.
#[tactic(auto, unfolding(crate::specs::FormValue::indirect_at, crate::specs::FormValue::direct_at))]
pub fn read_indirect(cursor: &mut Cursor<'_>, wide: bool) -> Result<Value, FormFault>
    ensures read { gave result cursor.new ≡ indirect_at wide cursor.old }
    ensures kept { OnErr result (cursor.new ≡ cursor.old) }
{
    let mut probe = cursor.fork();
    let form = probe.uleb()?;
    if form == DW_FORM_indirect || form == DW_FORM_implicit_const {
        return Err(FormFault::Unknown { at: probe.at() });
    }
    let value = read_known(&mut probe, find_form(form, wide), 0)?;
    *cursor = probe;
    Ok(value)
}

/// Reads the value of a form (DWARF 5, 7.5.5 and 7.5.6); `wide` says whether the unit has the 64-bit format. `implicit` is the constant in the
/// abbreviation. Allocates no memory.
#[inline]
#[tactic(auto, unfolding(crate::specs::FormValue::form_at, crate::specs::FormValue::direct_at))]
pub fn read_form(
    cursor: &mut Cursor<'_>,
    form: u64,
    implicit: i64,
    wide: bool,
) -> Result<Value, FormFault>
    ensures read { gave result cursor.new ≡ form_at form implicit wide cursor.old }
    ensures kept { OnErr result (cursor.new ≡ cursor.old) }
{
    if form == DW_FORM_indirect {
        return read_indirect(cursor, wide);
    }
    read_known(cursor, find_form(form, wide), implicit)
}
