//! Tests of the commands: `run` of `dumpsyms_cmd` with stores and sinks in memory, and the two calls that make up `dump`.
//!
//! They use only public calls and no crate depends on them, so each tested crate is proved without them. There is no product code here.
#![tactic(auto)]

#[cfg(test)]
mod assembled;
#[cfg(test)]
mod commands;
#[cfg(test)]
mod comparison;
#[cfg(test)]
mod cores;
#[cfg(test)]
mod files;
#[cfg(test)]
mod full;
#[cfg(test)]
mod hello;
#[cfg(test)]
mod large;
#[cfg(test)]
mod pairs;
#[cfg(test)]
mod rows;
#[cfg(test)]
mod samples;
