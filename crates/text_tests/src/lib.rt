//! Tests of the lowest crates and of those that make records.
//!
//! They use only public calls and no crate depends on them, so each tested crate is proved without them. There is no product code here. A test shows
//! what no clause says: that calls succeed with ample memory, what happens with files and streams that are slow, interrupted or broken, that threads
//! meet, that half a million look-ups finish, and the sizes of types. The crates that read, check and evaluate records are also tested by what the
//! commands print for long texts (scripts/long_texts.py).
#![tactic(auto)]

#[cfg(test)]
mod comparison;
#[cfg(test)]
mod expressions;
#[cfg(test)]
mod fakes;
#[cfg(test)]
mod lookups;
#[cfg(test)]
mod records;
#[cfg(test)]
mod rules;
#[cfg(test)]
mod sets;
#[cfg(test)]
mod steps;
#[cfg(test)]
mod streams;
#[cfg(test)]
mod texts;
#[cfg(test)]
mod values;
#[cfg(test)]
mod workers;
