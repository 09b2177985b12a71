//! Guesses of places in a list.
ghost use Rattle.std.specs.Prelude.{◌≡◌, true, IfOk};
ghost use Rattle.std.specs.List.{slice_get};
ghost use Rattle.std.specs.Option.{option_map};
ghost use Rattle.place_guesses.specs.Placing.{IsPlacedBy};

use crate::slots::{guess_at, note_guess, slot_of};
use std::alloc::Global;
use sym_edges::OutOfMemory;

/// For each slot, a place in a list at which a member with this slot may be.
#[derive(Drop)]
pub struct PlaceGuesses {
    slots: Vec<u32>,
}

/// Whether the list has a member at this place that equals `one`.
fn stands_at<T: PartialEq>(list: &[T], place: u32, one: &T) -> bool
    ensures { result ≡ true → option_map (λ m. T.eq m one.now) (slice_get list.now place) ≡ Some true }
{
    match list.get(place as usize) {
        Some(known) => known == one,
        None => false,
    }
}

impl PlaceGuesses {
    /// Guesses in `count` slots.
    pub fn new(alloc: Global, count: usize) -> Result<PlaceGuesses, OutOfMemory> {
        Ok(PlaceGuesses {
            slots: vec![in alloc; 0; count]?,
        })
    }

    /// The slot of a key. Several keys may have the same one.
    pub fn slot_of(&self, key: u64) -> usize {
        slot_of(key, self.slots.len())
    }

    /// The place that is stored in a slot, or 0 if there is no such slot.
    pub fn guess(&self, slot: usize) -> u32 {
        guess_at(self.slots.as_slice(), slot).unwrap_or(0)
    }

    /// Stores a place in a slot. If there is no such slot, nothing happens.
    pub fn note(&mut self, slot: usize, place: u32) {
        note_guess(self.slots.as_mut_slice(), slot, place);
    }

    /// The place of a member in the list, given its slot. If no equal member is at the place in the
    /// slot, the member is added at the end of the list.
    pub fn place_or_add<T: PartialEq + Drop>(
        &mut self,
        slot: usize,
        list: &mut Vec<T>,
        one: T,
    ) -> Result<u32, OutOfMemory>
        ensures { IfOk result (λ place. IsPlacedBy T.eq list.old.items list.new.items one place) }
    {
        let known = self.guess(slot);
        if stands_at(list.as_slice(), known, &one) {
            return Ok(known);
        }
        let place = list.len();
        if place >= u32::MAX as usize {
            return Err(OutOfMemory);
        }
        list.push(one)?;
        self.note(slot, place as u32);
        Ok(place as u32)
    }
}
