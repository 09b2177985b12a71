//! What is stored of the records before a record, and of all records.
use crate::met_ranges::MetRanges;
use crate::numbers::{GivenNumbers, KnownNumbers};
use sym_records::Extent;

/// The open `STACK CFI INIT`, which a next `STACK CFI` changes, and the address of the last record
/// that belongs to it.
#[derive(Clone, Copy, Debug, PartialEq, Eq)]
pub struct OpenInit {
    pub init: Extent,
    pub last: u64,
}

/// What is stored of the records before a record.
#[derive(Drop)]
pub struct Preceding {
    pub files: GivenNumbers,
    pub origins: GivenNumbers,
    pub functions: MetRanges,
    pub func: Option<Extent>,
    pub lines: MetRanges,
    pub inits: MetRanges,
    pub init: Option<OpenInit>,
}

/// The numbers of all `FILE` and of all `INLINE_ORIGIN` records.
#[derive(Drop)]
pub struct Known {
    pub files: KnownNumbers,
    pub origins: KnownNumbers,
}
