//! Where links led before, as guesses for later links.
use debug_units::EntryRef;
use std::alloc::Global;
use sym_edges::OutOfMemory;

/// The number of entries that are kept as guesses.
const SLOTS: usize = 16384;

/// Entries to which links led, each at an index that its place gives.
#[derive(Drop)]
pub struct LinkGuesses {
    slots: Vec<EntryRef>,
}

impl LinkGuesses {
    /// Allocates memory once.
    pub fn new(alloc: Global) -> Result<LinkGuesses, OutOfMemory> {
        let none = EntryRef { unit: 0, entry: 0 };
        Ok(LinkGuesses {
            slots: vec![in alloc; none; SLOTS]?,
        })
    }

    /// The guesses, by index.
    pub(crate) fn slots(&mut self) -> &mut [EntryRef] {
        self.slots.as_mut_slice()
    }
}
