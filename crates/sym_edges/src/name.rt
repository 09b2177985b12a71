//! Names of files.
ghost use Rattle.std.specs.Prelude.{◌≡◌};
ghost use Rattle.std.specs.String.{string_bytes};

use crate::list::ByteRun;
use std::marker::Model;

/// A file's name: a text, which contracts see as its bytes.
#[derive(Debug, Drop)]
pub struct NameText {
    text: String,
}

impl Model for NameText {
    ghost use Rattle.std.specs.Prelude.{List, ℕ};
    ghost use Rattle.std.specs.String.{string_bytes};

    ghost Value = { List ℕ };

    ghost view = { λ n. string_bytes n.text };
}

impl NameText {
    /// Allocates no memory.
    pub fn of(text: String) -> NameText
        ensures { result ≡ string_bytes text }
    {
        NameText { text }
    }

    pub fn as_str(&self) -> &str
        ensures { result.now ≡ self.now }
    {
        self.text.as_str()
    }
}

/// A file of a `MemStore`.
#[derive(Debug, Drop)]
pub struct NamedFile {
    pub name: NameText,
    pub bytes: ByteRun,
}
