//! Why a symbol file has no records.
use sym_rules::TextFault;

/// Why a symbol file is refused.
#[derive(Clone, Copy, Debug, PartialEq, Eq)]
pub enum SymRefusal {
    /// The file is longer than it may be.
    TooLong,
    /// The text has a fault.
    Text(TextFault),
}

/// Why reading a symbol file gave no records.
#[derive(Clone, Copy, Debug, PartialEq, Eq)]
pub enum SymEnd {
    /// The file cannot be opened or read.
    Unread,
    Refused(SymRefusal),
}
