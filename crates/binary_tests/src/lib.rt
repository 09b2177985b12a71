//! Tests of the crates that read and arrange debugging information and frames: `debug_read`, `die_walk`, `func_flatten`, `frame_entries`,
//! `frame_rows` and `rule_postfix`; and of `unit_workers`.
//!
//! They use only public calls and no crate depends on them, so each tested crate is proved without them. There is no product code here. A test shows
//! what no clause says: that calls succeed with ample memory, that threads meet, and the sizes of types. The other crates are tested by what `dump`
//! writes for long files (scripts/long_files.py).
#![tactic(auto)]

#[cfg(test)]
mod comparison;
#[cfg(test)]
mod crew;
#[cfg(test)]
mod files;
#[cfg(test)]
mod rows;
#[cfg(test)]
mod sections;
#[cfg(test)]
mod sizes;
