//! The entry formats of version 5.

/// A pair of an entry format: the content type and the form of a value (DWARF 5, 6.2.4.1).
#[derive(Clone, Copy, Debug, PartialEq, Eq)]
pub struct EntryFormat {
    pub content: u64,
    pub form: u64,
}
