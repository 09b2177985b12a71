//! The rows of the table of forms, each looked up once for all attributes.
ghost use Rattle.std.specs.Prelude.{◌≡◌, IfOk, IfSome};
ghost use Rattle.std.specs.List.{slice_get};
ghost use Rattle.std.specs.Option.{option_copied};
ghost use Rattle.code_table.specs.Forms.{forms, form_row};
ghost use Rattle.abbrev_units.specs.internal.FormRows.{AreRows, row_said};

use crate::spec::{Known, find_known};
use std::alloc::Global;
use std::marker::Model;
use sym_edges::OutOfMemory;

/// All codes of forms are below this number (DWARF 5, table 7.6), except those of two forms of the GNU tools.
const CODES: u64 = 0x30;

/// The rows of the forms; `wide` says whether they are for units of the 64-bit format.
#[derive(Drop)]
pub struct FormTable {
    wide: bool,
    rows: Vec<Option<Known>>,
}

impl Model for FormTable {
    ghost use Rattle.std.specs.Prelude.{Bool};
    ghost use Rattle.abbrev_units.specs.internal.FormRows.{AreRows};

    ghost Value = { Bool };

    ghost view = { λ t. t.wide };

    ghost invariant = { λ t. AreRows t.wide t.rows.items };
}

/// The row of a form, if the list has it.
#[inline]
fn row_at(rows: &[Option<Known>], form: u64) -> Option<Option<Known>>
    ensures { result ≡ slice_get rows.now form }
{
    rows.get(form as usize).copied()
}

/// The rows of the forms whose codes are below `CODES`.
#[tactic(auto, using(crate::proofs::FormTableLemmas::rows_none, crate::proofs::FormTableLemmas::rows_more))]
fn list_rows(alloc: Global, wide: bool) -> Result<Vec<Option<Known>>, OutOfMemory>
    ensures { IfOk result (λ rows. AreRows wide rows.items) }
{
    let mut rows = Vec::with_capacity(alloc, CODES as usize)?;
    'codes: for code in 0..CODES {
        rows.push(find_known(code, wide))?;
    }
    Ok(rows)
}

impl FormTable {
    /// No rows yet: each row is looked up when it is needed. Allocates no memory.
    #[tactic(auto, using(crate::proofs::FormTableLemmas::rows_none))]
    pub fn new(alloc: Global) -> FormTable {
        FormTable {
            wide: false,
            rows: Vec::new(alloc),
        }
    }

    /// Looks up the rows for units of this format, unless they are there already.
    pub fn set(&mut self, alloc: Global, wide: bool) -> Result<(), OutOfMemory>
        ensures { IfOk result (λ u. self.new ≡ wide) }
    {
        if self.wide == wide && !self.rows.is_empty() {
            return Ok(());
        }
        let rows = list_rows(alloc, wide)?;
        self.wide = wide;
        self.rows = rows;
        Ok(())
    }

    /// Whether the rows are for the 64-bit format.
    #[inline]
    pub fn is_wide(&self) -> bool
        ensures { result ≡ self.now }
    {
        self.wide
    }

    /// The layout and the class of a form, if the form is known.
    #[inline]
    pub fn known(&self, form: u64) -> Option<Known>
        ensures { row_said form result ≡ form_row form (forms self.now) }
    {
        match row_at(self.rows.as_slice(), form) {
            Some(known) => known,
            None => find_known(form, self.wide),
        }
    }
}
