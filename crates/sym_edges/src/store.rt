//! The trait `Store`: named files that can be opened and read.
ghost use Rattle.std.specs.Prelude.{◌≡◌, ℕ, ◌≤◌, ◌<◌, ◌↔◌, List, [], ◌∷◌, ◌++◌, Option, length, take, IfOk, OnOk, OnErr};
ghost use Rattle.sym_edges.specs.Outside.{Files, Opens, Reads, MatchStop, OnFault, OnNoMemory, Rose};

use crate::fault::{Failed, Stop};

/// Named files, which are opened and read one after another.
///
/// Contracts see four things of a store: the names that `open_file` was asked for, in order; its files, if it shows them; what is left of the open
/// file, if it shows this; and a count of faults, which rises if a call fails and at no other time.
pub trait Store {
    ghost asked: { Self → List (List ℕ) };

    ghost files: { Self → Option Files };

    ghost left: { Self → Option (List ℕ) };

    ghost faults: { Self → ℕ };

    /// Opens a file; then all of its bytes are left. If memory runs out, nothing changes.
    fn open_file(&mut self, name: &str) -> Result<(), Stop<Failed>>
        ensures asked { MatchStop result
            (λ _. asked self.new ≡ asked self.old ++ name.now ∷ [])
            (λ _. asked self.new ≡ asked self.old ++ name.now ∷ [])
            (asked self.new ≡ asked self.old) }
        ensures files { files self.new ≡ files self.old }
        ensures opened { OnOk result (Opens (files self.old) name.now (left self.new)) }
        ensures left { OnErr result (left self.new ≡ left self.old) }
        ensures faults { faults self.old ≤ faults self.new }
        ensures steady { OnOk result (faults self.new ≡ faults self.old) }
        ensures cause { OnFault result (Rose (faults self.old) (faults self.new)) }
        ensures no_memory { OnNoMemory result (faults self.new ≡ faults self.old) };

    /// Reads a prefix of what is left into `buf`, and returns its length. It is 0 exactly if `buf` is empty or nothing is left.
    fn read(&mut self, buf: &mut [u8]) -> Result<usize, Failed>
        ensures within { IfOk result (λ n. n ≤ length buf.old) }
        ensures taken { IfOk result (λ n. Reads (left self.old) n (length buf.old) (take n buf.new) (left self.new)) }
        ensures left { OnErr result (left self.new ≡ left self.old) }
        ensures asked { asked self.new ≡ asked self.old }
        ensures files { files self.new ≡ files self.old }
        ensures faults { faults self.old ≤ faults self.new }
        ensures steady { OnOk result (faults self.new ≡ faults self.old) }
        ensures cause { OnErr result (Rose (faults self.old) (faults self.new)) };
}
