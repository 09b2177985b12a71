//! Why a reading is refused.

/// The fault of a reading. `at` is the place at the start of the call that was refused.
#[derive(Clone, Copy, PartialEq, Eq, Debug)]
pub enum CursorFault {
    /// The bytes end too early.
    Ends { at: usize },

    /// A LEB128 has more than ten bytes, or its value does not fit into its type.
    LebLong { at: usize },

    /// No zero byte ends the text.
    NoZero { at: usize },
}
