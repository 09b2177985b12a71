//! An attribute of an abbreviation.
ghost use Rattle.std.specs.Prelude.{◌≡◌, IfSome, OnErr};
ghost use Rattle.leb_cursor.specs.Ahead.{gave};
ghost use Rattle.abbrev_units.specs.FormValue.{form_at};
ghost use Rattle.code_table.specs.Forms.{forms, form_row};
ghost use Rattle.abbrev_units.specs.internal.FormRows.{HasRow, row_said};

use crate::fault::FormFault;
use crate::form::{read_indirect, read_known};
use crate::form_table::FormTable;
use crate::value::Value;
use code_table::{DW_FORM_indirect, FormClass, FormRow, Kind, find_form};
use leb_cursor::Cursor;
use std::marker::Model;

/// The layout and the class of a form.
#[derive(Clone, Copy)]
pub struct Known {
    pub layout: Kind,
    pub class: FormClass,
}

/// An attribute and its form (DWARF 5, 7.5.3); `wide` says whether the unit has the 64-bit format. The row of the form is looked up once.
#[derive(Drop)]
pub struct Spec {
    attribute: u64,
    form: u64,
    implicit: i64,
    wide: bool,
    known: Option<Known>,
}

impl Model for Spec {
    ghost use Rattle.std.specs.Prelude.{◌≡◌};
    ghost use Rattle.code_table.specs.Forms.{forms, form_row};
    ghost use Rattle.abbrev_units.specs.SpecFields.{SpecFields};
    ghost use Rattle.abbrev_units.specs.internal.FormRows.{row_said};

    ghost Value = { SpecFields };

    ghost view = { λ s. record { attribute = s.attribute; form = s.form; implicit = s.implicit; wide = s.wide } };

    ghost invariant = { λ s. row_said s.form s.known ≡ form_row s.form (forms s.wide) };
}

/// The layout and the class of a form, if the form is known.
#[inline]
#[tactic(auto, using(crate::proofs::FormLemmas::row_known))]
pub fn find_known(form: u64, wide: bool) -> Option<Known>
    ensures { row_said form result ≡ form_row form (forms wide) }
{
    let row = find_form(form, wide)?;
    Some(Known {
        layout: row.layout,
        class: row.class,
    })
}

impl Spec {
    #[inline]
    pub(crate) fn of(forms: &FormTable, attribute: u64, form: u64, implicit: i64) -> Spec
        ensures { result ≡ record { attribute = attribute; form = form; implicit = implicit; wide = forms.now } }
    {
        Spec {
            attribute,
            form,
            implicit,
            wide: forms.is_wide(),
            known: forms.known(form),
        }
    }

    /// The attribute's name (DWARF 5, table 7.5).
    #[inline]
    pub fn attribute(&self) -> u64
        ensures { result ≡ self.now.attribute }
    {
        self.attribute
    }

    /// The constant of the form `DW_FORM_implicit_const`, else 0.
    #[inline]
    pub fn implicit(&self) -> i64
        ensures { result ≡ self.now.implicit }
    {
        self.implicit
    }

    /// The row of the form.
    #[inline]
    fn form_row(&self) -> Option<FormRow>
        ensures { result ≡ form_row self.now.form (forms self.now.wide) }
    {
        let known = self.known?;
        Some(FormRow {
            code: self.form,
            layout: known.layout,
            class: known.class,
        })
    }

    /// Reads a value of the attribute. After a fault the cursor is where it was.
    #[inline]
    #[tactic(auto, unfolding(crate::specs::FormValue::form_at, crate::specs::FormValue::direct_at))]
    pub fn read(&self, cursor: &mut Cursor<'_>) -> Result<Value, FormFault>
        ensures read { gave result cursor.new ≡ form_at self.now.form self.now.implicit self.now.wide cursor.old }
        ensures kept { OnErr result (cursor.new ≡ cursor.old) }
    {
        if self.form == DW_FORM_indirect {
            return read_indirect(cursor, self.wide);
        }
        read_known(cursor, self.form_row(), self.implicit)
    }

    /// The row of the form, if the form is known and is not DW_FORM_indirect, so that all values have this row.
    #[tactic(auto, using(crate::proofs::SizeLemmas::direct_row))]
    pub(crate) fn row(&self) -> Option<FormRow>
        ensures { IfSome result (λ row. HasRow self.now row) }
    {
        if self.form == DW_FORM_indirect {
            return None;
        }
        self.form_row()
    }
}
