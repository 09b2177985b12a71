//! A row of a table.
use crate::kind::Shape;

/// A code and the layout of its operands.
#[derive(Clone, Copy)]
pub struct CodeRow {
    pub code: u64,
    pub shape: Shape,
}
