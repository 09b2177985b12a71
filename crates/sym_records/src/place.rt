//! The places in a file, by what may follow there.

/// The place of a line in a symbol file, by what comes before it. It decides which records may
/// follow.
#[derive(Clone, Copy, Debug, PartialEq, Eq)]
pub enum Place {
    /// There is no record before.
    Start,
    /// `MODULE`, or another record that belongs neither to a function nor to a frame.
    Inside,
    /// A `FUNC`, perhaps followed by its line records and `INLINE`.
    Function,
    /// `STACK CFI INIT` or `STACK CFI`.
    Frame,
}
