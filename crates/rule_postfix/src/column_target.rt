//! The target of a column.
ghost use Rattle.std.specs.Prelude.{◌≡◌};
ghost use Rattle.rule_postfix.specs.internal.Backward.{column_of};

/// What gets its value from a column's rule.
#[derive(Clone, Copy)]
pub enum ColumnTarget {
    /// The return address.
    Ra,
    /// A register by its DWARF number.
    Reg(u8),
}

impl ColumnTarget {
    /// The number of the column.
    #[inline]
    pub fn column(self) -> u8
        ensures { result ≡ column_of self }
    {
        match self {
            ColumnTarget::Ra => 16,
            ColumnTarget::Reg(number) => number,
        }
    }
}
