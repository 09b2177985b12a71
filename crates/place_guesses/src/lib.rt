//! Guesses of the place where something was found before.
//!
//! A key has a slot, and several keys may have the same one. The guess in a slot is what was last
//! stored for a key with this slot. It is compared before it is used, so no promise relies on it.
//! [`PlaceGuesses`] has guesses of places in a list. With them a member that is already in a list
//! is mostly found and not added again (`specs/Placing.antt`).
#![tactic(auto)]

mod places;
mod slots;

pub use crate::places::PlaceGuesses;
pub use crate::slots::{guess_at, note_guess, slot_of};
