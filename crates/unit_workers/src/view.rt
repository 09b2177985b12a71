//! What a seat at the shared word knows.
ghost use Rattle.std.specs.Prelude.{ℕ, List};
ghost use Rattle.std.specs.Borrow.{ftrue};
ghost use Rattle.unit_workers.specs.declared.lot.Lot.{Lot};

use std::marker::Model;

/// What a seat at the shared word knows. No value of this type is ever made.
pub struct View {
    /// The numbers with which the word was made.
    pub ghost lot: { Lot },
    /// The numbers that were drawn, in order.
    pub ghost drawn: { List ℕ },
    /// How many more draws may be made that find no number.
    pub ghost rights: { ℕ },
    /// How many workers the seat stands for.
    pub ghost share: { ℕ },
}

impl Model for View {
    ghost also_owns = { λ _. ftrue };
}
