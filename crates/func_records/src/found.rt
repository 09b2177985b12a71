//! What is found for pieces before their records are spelled.
use crate::path_list::PathRef;
use die_names::NameRef;
use flat_lists::FlatLists;
use inline_chain::InlineRun;

/// What was found for a share of the pieces: the inlined copies of each piece; the entries that name the copies' functions; for each copy the place
/// of its entry among these; and the paths that line records and calls name. Most entries and paths are there only once.
#[derive(Drop)]
pub struct FoundShare {
    pub held: FlatLists<InlineRun>,
    pub refs: Vec<NameRef>,
    pub places: Vec<u32>,
    pub paths: Vec<PathRef>,
}
