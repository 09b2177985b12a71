//! Memory that a worker reuses from one unit's tree to the next one's.
use crate::class_links::ClassLinks;
use crate::met_copies::MetCopies;
use flat_lists::FlatLists;
use std::alloc::Global;
use step_maps::{Cover, Stretch};

/// Lists that are filled anew for each unit. They are kept to reuse their memory; what they hold at the start of a unit does not matter.
#[derive(Drop)]
pub struct TreeScratch {
    pub row: Vec<Option<u32>>,
    pub met: MetCopies,
    pub stretches: Vec<Stretch>,
    pub links: ClassLinks,
    pub class: ClassScratch,
    pub lists: FlatLists<Cover>,
}

/// Lists that are filled anew for each class of a unit.
#[derive(Drop)]
pub struct ClassScratch {
    pub group: Vec<Stretch>,
    pub sorted: Vec<Stretch>,
    pub own: Vec<Cover>,
}

impl TreeScratch {
    /// Empty lists. Allocates no memory.
    pub fn new(alloc: Global) -> TreeScratch {
        TreeScratch {
            row: Vec::new(alloc),
            met: MetCopies::new(alloc),
            stretches: Vec::new(alloc),
            links: ClassLinks::new(alloc),
            class: ClassScratch {
                group: Vec::new(alloc),
                sorted: Vec::new(alloc),
                own: Vec::new(alloc),
            },
            lists: FlatLists::new(alloc),
        }
    }
}
