//! Tables of codes.
ghost use Rattle.std.specs.Prelude.{◌≡◌, ◌==◌, find};
ghost use Rattle.std.specs.Option.{option_copied};
ghost use Rattle.code_table.specs.Rows.{shape_of};

use crate::code_row::CodeRow;
use crate::kind::Shape;

/// Rows, each with a code and the layouts of its operands.
pub struct Table<const N: usize> {
    pub rows: [CodeRow; N],
}

/// The first row that has `code`.
fn row_of(rows: &[CodeRow], code: u64) -> Option<&CodeRow>
    ensures { option_copied result ≡ find (λ row. row.code == code) rows.now }
{
    rows.iter().find(|row| row.code == code)
}

impl<const N: usize> Table<N> {
    /// The layouts of the operands of `code`, if the table has it. The rows are searched one by
    /// one.
    #[tactic(auto, unfolding(crate::specs::Rows::shape_of))]
    pub fn find(&self, code: u64) -> Option<Shape>
        ensures { result ≡ shape_of code self.now.rows }
    {
        match row_of(&self.rows[..], code) {
            Some(row) => Some(row.shape),
            None => None,
        }
    }
}
