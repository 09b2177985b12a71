//! Columns of a row, one after another.
ghost use Rattle.std.specs.Prelude.{◌≡◌, min, max};
ghost use Rattle.frame_rows.specs.Columns.{StayOutside};
ghost use Rattle.frame_rows.specs.internal.Touched.{no_columns, all_columns, one_column};

use crate::row::{COLUMNS, Row};

/// The columns from `first` on and below `end`; none if `end` is not above `first`.
#[derive(Clone, Copy, PartialEq, Eq, Debug)]
pub struct Columns {
    pub first: u8,
    pub end: u8,
}

impl Columns {
    #[inline]
    pub fn none() -> Columns
        ensures { result ≡ no_columns }
    {
        Columns { first: 17, end: 0 }
    }

    #[inline]
    pub fn all() -> Columns
        ensures { result ≡ all_columns }
    {
        Columns { first: 0, end: 17 }
    }

    /// One column; none if there is no such column.
    #[inline]
    pub fn one(column: u64) -> Columns
        ensures { result ≡ one_column column }
    {
        if column < COLUMNS as u64 {
            return Columns {
                first: column as u8,
                end: column as u8 + 1,
            };
        }
        Columns::none()
    }

    /// The smallest run of columns that contains both.
    #[inline]
    pub fn join(self, other: Columns) -> Columns
        ensures { result ≡ record { first = min self.first other.first; end = max self.end other.end } }
    {
        Columns {
            first: self.first.min(other.first),
            end: self.end.max(other.end),
        }
    }
}

impl Row {
    /// Becomes equal to another row, given that their columns outside of `columns` are the same.
    #[tactic(auto, using(crate::proofs::TakeLemmas::all_taken))]
    pub fn follow(&mut self, columns: Columns, to: &Row)
        requires { StayOutside columns self.old to.now }
        ensures { self.new ≡ to.now }
    {
        self.cfa = to.cfa;
        let end = columns.end.min(17);
        let mut column = columns.first;
        'columns: while column < end {
            self.rules[column as usize] = to.rules[column as usize];
            column += 1;
        }
    }
}
