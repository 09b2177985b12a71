//! The rule that all steps on the shared word keep.

// The rule of the shared word, and the names of the steps on it.
ghost use Rattle.unit_workers.specs.Drawing.{Drawing};
ghost use Rattle.unit_workers.specs.Steps.{first_view, Draws, giving, given, both, spent};

use crate::lot::Lot;
use crate::view::View;
use atomic_table::{Join, Play, Split, Table, TableRule};
use std::alloc::Global;

/// A table of one word and no slot.
pub type Word = Table<u8, View, Lot, Rule, Global>;

pub type Seat = atomic_table::Seat<u8, View>;

pub struct Rule;

impl TableRule<u8, View, Lot> for Rule {
    ghost holds = { λ lot. Drawing lot };

    ghost first = { first_view };
}

pub struct Draw;

impl Play<u8, View> for Draw {
    ghost then = { λ _ me k after. Draws me k after };
}

pub struct OneRight;

impl Split<View> for OneRight {
    ghost left = { giving };

    ghost right = { given };
}

pub struct Both;

impl Join<View> for Both {
    ghost both = { both };

    ghost spent = { spent };
}
