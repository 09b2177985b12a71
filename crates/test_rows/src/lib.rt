//! What the test crates share, and no other crate uses: [`elf`] makes small ELF files, a [`Holding`] gate holds a unit, and a [`Recording`] gate
//! counts how often each unit was reached.
#![tactic(auto)]

pub mod elf;
mod held_gate;
mod recording_gate;

pub use held_gate::Holding;
pub use recording_gate::Recording;
