//! Lines, each of which is written once.
ghost use Rattle.std.specs.Prelude.{◌≡◌, ℕ, List, [], ◌∷◌, ◌++◌, OnOk};
ghost use Rattle.std.specs.List.{flat_map};
ghost use Rattle.stack_text.specs.Once.{once};
ghost use Rattle.stack_text.specs.internal.SaidLines.{HasSaid};

use std::alloc::Global;
use std::collections::BTreeSet;
use sym_edges::OutOfMemory;
use sym_records::ByteText;

/// Lines, each of which is written only at its first occurrence.
#[derive(Drop)]
pub(crate) struct SaidLines {
    text: Vec<u8>,
    set: BTreeSet<Vec<u8>>,
}

impl SaidLines {
    pub(crate) fn new(alloc: Global) -> SaidLines
        ensures { HasSaid result [] }
    {
        SaidLines {
            text: Vec::new(alloc),
            set: BTreeSet::new(alloc),
        }
    }

    /// Adds a line, unless it was added before.
    #[tactic(auto, using(crate::proofs::SaidLemmas::said_before, crate::proofs::SaidLemmas::said_now))]
    pub(crate) fn say(&mut self, line: Vec<u8>) -> Result<(), OutOfMemory>
        ensures { OnOk result ((lines : List (List ℕ)) → HasSaid self.old lines → HasSaid self.new (lines ++ line.items ∷ [])) }
    {
        if self.set.contains(line.as_slice()) {
            return Ok(());
        }
        self.text.extend_from_slice(line.as_slice())?;
        self.set.insert(line)?;
        Ok(())
    }

    /// The lines as a text.
    pub(crate) fn into_text(self) -> ByteText
        ensures { (lines : List (List ℕ)) → HasSaid self lines → result ≡ flat_map (λ line. line) (once lines) }
    {
        ByteText::of(self.text)
    }
}
