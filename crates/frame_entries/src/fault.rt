//! Why a section of frame entries is refused.
use sym_edges::Located;

/// What is wrong with an entry's length.
#[derive(Clone, Copy, PartialEq, Eq, Debug)]
pub enum FrameKind {
    /// The length is reserved, has no room for the id, or leaves the section; or the section ends within the length.
    Length,

    /// The length begins the 64-bit format, which `.eh_frame` does not have.
    Format64,
}

impl FrameKind {
    ghost use Rattle.std.specs.Prelude.{◌≡◌};
    ghost use Rattle.frame_entries.specs.FaultWords.{kind_word};

    /// The kind as it is printed.
    pub fn word(self) -> &'static [u8]
        ensures { result.now ≡ kind_word self }
    {
        match self {
            FrameKind::Length => b"length",
            FrameKind::Format64 => b"format64",
        }
    }
}

/// The first entry of a section with a bad length, at the place of its first byte.
pub type FrameFault = Located<FrameKind>;
