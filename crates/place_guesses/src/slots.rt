//! Slots for guesses.

/// The slot of a key among `count` slots.
pub fn slot_of(key: u64, count: usize) -> usize {
    let mixed = key.wrapping_mul(0x9e37_79b9_7f4a_7c15) >> 32;
    (mixed.wrapping_mul(count as u64) >> 32) as usize
}

/// The guess in a slot, or `None` if there is no such slot.
pub fn guess_at<G: Copy>(slots: &[G], slot: usize) -> Option<G> {
    match slots.get(slot) {
        Some(guess) => Some(*guess),
        None => None,
    }
}

/// Stores a guess in a slot. If there is no such slot, nothing happens.
pub fn note_guess<G: Copy + Drop>(slots: &mut [G], slot: usize, guess: G) {
    if slot < slots.len() {
        slots[slot] = guess;
    }
}
