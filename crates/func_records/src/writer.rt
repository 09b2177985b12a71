//! What the records of functions are spelled from.
use crate::numbers::Numbers;
use debug_units::Units;

/// The base, which is subtracted from all addresses; the units; and the numbers of paths and names in the text.
#[derive(Clone, Copy)]
pub struct FuncWriter<'u, 'a, 'n> {
    pub base: u64,
    pub units: &'u Units<'a>,
    pub numbers: Numbers<'n, 'a>,
}
