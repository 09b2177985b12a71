//! The trait `Sink`: something that takes bytes, such as a stream.
ghost use Rattle.std.specs.Prelude.{◌≡◌, ℕ, ◌≤◌, ◌<◌, List, Option, length, take, Ok, IfOk, OnErr};
ghost use Rattle.sym_edges.specs.Outside.{append_told, Rose};

use crate::fault::Failed;

/// Something that takes bytes, such as a stream or a list in memory.
///
/// Contracts see the bytes that a sink took, if it shows them, and a count of faults, which never
/// falls.
pub trait Sink {
    ghost taken: { Self → Option (List ℕ) };

    ghost faults: { Self → ℕ };

    /// Takes a prefix of the piece and returns its length: at least one byte if the piece is not empty.
    fn write(&mut self, piece: &[u8]) -> Result<usize, Failed>
        ensures within { IfOk result (λ n. n ≤ length piece.now) }
        ensures moves { IfOk result (λ n. 0 < length piece.now → 0 < n) }
        ensures taken { IfOk result (λ n. taken self.new ≡ append_told (taken self.old) (take n piece.now)) }
        ensures refused { OnErr result (taken self.new ≡ taken self.old) }
        ensures empty { length piece.now ≡ 0 → result ≡ Ok 0 }
        ensures faults { faults self.old ≤ faults self.new }
        ensures cause { OnErr result (Rose (faults self.old) (faults self.new)) };
}
