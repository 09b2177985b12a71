//! Why a module has no records.
use sym_grammar::SymRefusal;

/// Why a module has no records.
#[derive(Clone, Copy, Debug, PartialEq, Eq)]
pub enum Lack {
    /// It has no build id, and without one no symbol file can be looked for.
    NoBuildId,
    /// The store has no such file, or it cannot be read.
    Missing,
    /// The symbol file is refused.
    Refused(SymRefusal),
    /// The symbol file's MODULE has another identity.
    OtherModule,
}
