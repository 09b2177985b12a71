//! Entries that are left out.
use sym_edges::{ListOf, Reason, Sect};

/// An entry that is left out: its offset in its section, and the reason.
#[derive(Clone, Copy, PartialEq, Eq, Debug)]
pub struct Omission {
    pub section: Sect,
    pub at: u64,
    pub reason: Reason,
}

/// The entries that are left out, in order.
pub type Omissions = ListOf<Omission>;
