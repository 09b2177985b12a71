//! The texts of frames, of walks and of the stacks of a process.
//!
//! A frame is eighteen lines (`specs/FrameText.antt`). A walk by one symbol file has the lines of `lookup` for each step (`specs/WalkText.antt`). The
//! stacks of a process are its modules and the steps of each thread, with a second text of the modules whose records are missing
//! (`specs/StacksText.antt`). [`spell_stacks`] spells each thread after its walk, so only one walk at a time is in memory.
#![tactic(auto)]

mod frame_text;
mod lacks;
mod lines;
mod said_lines;
mod stacks_text;
mod walk_text;

pub use frame_text::{short_name, spell_frame};
pub use lines::{add_hex, add_line};
pub use stacks_text::{StacksText, spell_stacks};
pub use walk_text::spell_walk;
