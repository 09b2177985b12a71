//! Stretches of addresses, and which of several is the first at an address.
use sym_edges::ListOf;

/// The addresses from `first` to `last`, both included, of one numbered item, and the item's class.
#[derive(Clone, Copy, Debug, PartialEq, Eq)]
pub struct Stretch {
    pub first: u64,
    pub last: u64,
    pub index: u32,
    pub class: u32,
}

/// The first item of a list at an address, and whether an item of another class is there too.
#[derive(Clone, Copy, Debug, PartialEq, Eq)]
pub struct FirstItem {
    pub index: u32,
    pub class: u32,
    pub shared: bool,
}

/// The addresses from `first` to `last` at which one item is the first in the list, and whether
/// at `first` an item of another class is there too.
#[derive(Clone, Copy, Debug, PartialEq, Eq)]
pub struct Cover {
    pub first: u64,
    pub last: u64,
    pub index: u32,
    pub shared: bool,
}

/// Covers in the order of their addresses.
pub type CoverList = ListOf<Cover>;
