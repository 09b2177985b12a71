//! Faults that have a place.
use crate::part::Sect;

/// A fault: its kind, its section, and its place, counted from the first byte of the section.
#[derive(Clone, Copy, PartialEq, Eq, Debug)]
pub struct Located<K> {
    pub kind: K,
    pub section: Sect,
    pub at: usize,
}
