//! Which slots already have a value: of several values of one attribute the first counts.
ghost use Rattle.std.specs.Prelude.{◌≡◌, []};
ghost use Rattle.abbrev_units.specs.internal.Filled.{GivesSlot, fill_in, filled_by, free_in};

use crate::slots::{Slot, slot_of};

/// The slots that have had a value.
#[derive(Drop)]
pub struct Filled {
    slots: [bool; 16],
}

impl Filled {
    pub fn none() -> Filled
        ensures { result.slots ≡ filled_by [] }
    {
        Filled { slots: [false; 16] }
    }

    /// Fills a slot; returns the slot if it was still free, else `Passed`.
    #[inline]
    fn fill_slot(&mut self, slot: Slot) -> Slot
        ensures free { result ≡ free_in self.old.slots slot }
        ensures filled { self.new.slots ≡ fill_in self.old.slots slot }
    {
        if (slot as usize) >= 16 || self.slots[slot as usize] {
            return Slot::Passed;
        }
        self.slots[slot as usize] = true;
        slot
    }

    /// If `asked`, fills the slot of an attribute; returns that slot if it was still free. Else returns `Passed`.
    #[inline]
    pub fn fill(&mut self, attribute: u64, asked: bool) -> Slot
        ensures { GivesSlot asked self.old.slots self.new.slots attribute result }
    {
        if !asked {
            return Slot::Passed;
        }
        self.fill_slot(slot_of(attribute))
    }
}
