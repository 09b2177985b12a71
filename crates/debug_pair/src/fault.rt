//! The faults of a pair of files, of a build id as a path, and of a link to a supplementary file.
ghost use Rattle.std.specs.Prelude.{◌≡◌};
ghost use Rattle.debug_pair.specs.declared.fault.SupFault.TheVariants.{Link};

use leb_cursor::CursorFault;

/// Why two files are not a binary and its debug file.
#[derive(Clone, Copy, Debug, PartialEq, Eq)]
pub enum PairFault {
    /// One of the two has no build id.
    NoBuildId,
    /// Their build ids differ.
    BuildId,
}

impl PairFault {
    ghost use Rattle.std.specs.Prelude.{◌≡◌};
    ghost use Rattle.debug_pair.specs.FaultWords.{pair_word};

    /// The fault as it is printed.
    pub fn word(self) -> &'static [u8]
        ensures { result.now ≡ pair_word self }
    {
        match self {
            PairFault::NoBuildId => b"no-build-id",
            PairFault::BuildId => b"build-id",
        }
    }
}

/// A build id has fewer than two bytes, so that it names no file.
#[derive(Clone, Copy, Debug, PartialEq, Eq)]
pub struct ShortId;

impl ShortId {
    ghost use Rattle.std.specs.Prelude.{◌≡◌};
    ghost use Rattle.debug_pair.specs.FaultWords.{short_id_word};

    /// The fault as it is printed.
    pub fn word(self) -> &'static [u8]
        ensures { result.now ≡ short_id_word }
    {
        b"short-id"
    }
}

/// Why a file is not read with the supplementary file to which it links.
#[derive(Clone, Copy, Debug, PartialEq, Eq)]
pub enum SupFault {
    /// The section with the link lacks a part, or the link gives no path below the directory of
    /// debug files.
    Link,
    /// The file at that path has another id, or none.
    BuildId,
}

impl SupFault {
    ghost use Rattle.std.specs.Prelude.{◌≡◌};
    ghost use Rattle.debug_pair.specs.FaultWords.{sup_word};

    /// The fault as it is printed.
    pub fn word(self) -> &'static [u8]
        ensures { result.now ≡ sup_word self }
    {
        match self {
            SupFault::Link => b"link",
            SupFault::BuildId => b"build-id",
        }
    }
}

impl From<CursorFault> for SupFault {
    ghost from_gives = { λ _ fault. fault ≡ Link };

    fn from(_fault: CursorFault) -> SupFault {
        SupFault::Link
    }
}
