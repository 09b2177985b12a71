//! Functions of addresses that change at a few of them.
//!
//! A [`StepMap`] is such a function: an ascending list of stops, each with the value from there on.
//! Only `set` changes it: from an address on, the value is the given one. The contract of `set` is
//! one equation at every address, so code that makes a function from left to right need not
//! consider intervals, gaps or overlaps. `at` looks an address up by a binary search.
//!
//! An item has an index and a class; several items may have one class. A [`Stretch`] has the
//! addresses of one item, from a first to a last one, both included. If stretches overlap, the
//! first in the list counts. [`first_items`] gives at each address the first item there, and
//! whether an item of another class is there too ([`FirstItem`]). [`overlay`] lays one such map
//! over another by one merge. The map of stretches that ascend is made in one pass over them. If
//! they do not ascend, but do not overlap either, a sorted copy is used. Any other list is cut in
//! two, and the map of the front half is laid over that of the back half. So the time for n
//! stretches is O(n log n), however they overlap, and O(n) if they ascend.
//!
//! The runs of a function are the maximal intervals on which it is defined and constant. A function has only one list of runs
//! ([`same_values_same_runs`]), and none of them can be made longer ([`runs_are_maximal`]). If no two neighbours of a step map are equal, the runs
//! lie between its stops ([`steps_are_runs`]). [`covers`] gives the runs of the first item's index, and each [`Cover`] says whether its first address
//! is shared. [`push_spans`] makes the stretches of an item's ranges.
//!
//! Read the module `steps` first, then `stretch` and `overlays`, then `layers`, `joins` and
//! `cover_list`. `laws` may be read alone.
#![tactic(auto)]

mod cover_list;
mod joins;
mod laws;
mod layers;
mod overlays;
mod spans;
mod steps;
mod stretch;

pub use cover_list::{covers, first_items};
pub use laws::{runs_are_maximal, same_values_same_runs, steps_are_runs};
pub use overlays::overlay;
pub use spans::push_spans;
pub use steps::StepMap;
pub use stretch::{Cover, CoverList, FirstItem, Stretch};
