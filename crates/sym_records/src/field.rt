//! The fields of records, by their kinds.
use crate::line::Extent;
use sym_rules::RuleText;

/// A field of a record.
#[derive(Clone, Copy)]
pub enum Field<'a> {
    /// Bytes without a space.
    Word(&'a [u8]),
    /// Bytes up to the end of the line.
    Name(&'a [u8]),
    /// A hexadecimal number.
    Hex(u64),
    /// An optional `m`, then a hexadecimal number.
    Marked(bool, u64),
    /// A decimal number.
    Decimal(u32),
    /// Ranges: addresses and sizes.
    Ranges(&'a [Extent]),
    /// Frame rules.
    Rules(&'a [RuleText]),
}
