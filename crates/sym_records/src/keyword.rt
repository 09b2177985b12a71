//! The keywords of records.

/// The kinds of records, by their keywords.
#[derive(Clone, Copy, Debug, PartialEq, Eq)]
pub enum Keyword {
    /// `MODULE`
    Module,
    /// `INFO`
    Info,
    /// `FILE`
    File,
    /// `INLINE_ORIGIN`
    Origin,
    /// `FUNC`
    Func,
    /// `INLINE`
    Inline,
    /// A line record has no keyword.
    Line,
    /// `PUBLIC`
    Public,
    /// `STACK CFI INIT`
    Init,
    /// `STACK CFI`
    Change,
}
