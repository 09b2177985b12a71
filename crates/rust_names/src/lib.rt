//! Names in Rust's manglings, in readable form.
//!
//! A legacy name is `_ZN`, the parts of a path, each after its length, a hash as the last part, and
//! `E`. [`shown`] gives its path with `::` between the parts and without the hash; escapes are
//! shown as the signs that they stand for: `_ZN3foo3bar17h0123456789abcdefE` is `foo::bar`. A name
//! of the current mangling (RFC 2603, "v0") is `_R` and a path of that grammar: `_RNvC3foo3bar` is
//! `foo::bar`. It is shown without the disambiguators of crates and the types of constants. A name
//! of another form has no such text, and stays as it is. [`show_all`] replaces the name of each
//! function, inlined function and public symbol of a symbol file by what the name shows.
//!
//! A name has at most one shown text. If the names of a file are shown, only the names of its records change: the file is valid, a checker
//! finds the same in it, and look-ups and frame rules give the same at every address, but for the names ([`laws`]).
#![tactic(auto)]

// One name, from left to right.
mod name;

// A name in the legacy mangling.
mod legacy;
mod part;
mod piece;

// A name in the v0 mangling.
mod constants;
mod frames;
mod grammar;
mod hidden;
mod identifiers;
mod leaves;
mod numbers;
mod passing;
mod paths;
mod phrases;
mod productions;
mod symbol;
mod texts;
mod turns;
mod words;

// All names of a file.
mod records;

// Laws of the definitions.
pub mod laws;

pub use name::shown;
pub use piece::Piece;
pub use records::show_all;
