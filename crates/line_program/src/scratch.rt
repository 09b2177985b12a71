//! Memory that is reused for one line table after another.

use crate::machine::LineSequence;
use crate::row::Row;
use crate::row_order::CountedSequence;
use crate::tables::FormatLists;
use std::alloc::Global;
use step_maps::Stretch;

/// Lists whose memory is reused for one table after another. Their old content does not
/// matter.
#[derive(Drop)]
pub struct LineScratch {
    pub(crate) formats: FormatLists,
    pub(crate) rows: Vec<Row>,
    pub(crate) spare: Vec<Vec<Row>>,
    pub(crate) sequences: Vec<LineSequence>,
    pub(crate) counted: Vec<CountedSequence>,
    pub(crate) stretches: Vec<Stretch>,
}

impl LineScratch {
    /// An empty scratch. Allocates no memory.
    pub fn new(alloc: Global) -> LineScratch {
        LineScratch {
            formats: FormatLists::new(alloc),
            rows: Vec::new(alloc),
            spare: Vec::new(alloc),
            sequences: Vec::new(alloc),
            counted: Vec::new(alloc),
            stretches: Vec::new(alloc),
        }
    }
}
