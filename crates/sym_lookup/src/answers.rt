//! The answers of a look-up.
use sym_edges::ListOf;

/// Places in a file's list of records, in order.
pub type PlaceList = ListOf<usize>;

/// The records that name an address, as places in the file's list.
#[derive(Debug, Drop)]
pub enum Answer {
    /// A `FUNC`; the `INLINE` records under it, the outermost first; and the line record under it.
    Function {
        func: usize,
        chain: PlaceList,
        line: Option<usize>,
    },
    /// A `PUBLIC`.
    Public {
        index: usize,
    },
    Nothing,
}

/// The place of the first record that covers an address, and an address above it at which another
/// record may become the first. Without an `end` the record is the first up to the last address.
#[derive(Clone, Copy, Debug, PartialEq, Eq)]
pub struct PlaceRun {
    pub place: Option<usize>,
    pub end: Option<u64>,
}
