//! The rows that a line number program gives.
use std::mem::size_of;

/// A row of a line table: the code from its address on has this file and line. 16 bytes.
#[derive(Clone, Copy, Debug, PartialEq, Eq)]
pub struct Row {
    pub address: u64,
    pub file: u32,
    pub line: u32,
}

const _: () = prove!(size_of::<Row>() == 16);
