//! The types of function symbols that no function covers.
use sym_edges::ListOf;

/// An address of a function symbol, and the name of the first symbol there, as it is in the file; the name is cleaned when it becomes that of a
/// record. `many` is set if another symbol with another cleaned name has the address. 32 bytes.
#[derive(Clone, Copy, Debug)]
pub struct PublicAt<'a> {
    pub address: u64,
    pub name: &'a [u8],
    pub many: bool,
}

/// Addresses of function symbols, by address.
pub type PublicList<'a> = ListOf<PublicAt<'a>>;
