//! A cursor over a run of bytes. It reads what DWARF's sections consist of: numbers of fixed width with the lowest byte first, LEB128 numbers (DWARF
//! 5, 7.6), texts up to a zero byte, and runs of a given number of bytes, also as a separate cursor.
//!
//! A contract sees a cursor as what is ahead of it: the bytes that are left, and the place of the
//! first of them. Each call promises one equation: from what is ahead before the call,
//! `specs/Readings.antt` gives the result and what is ahead afterwards. So a number is the sum of
//! its bytes, or of its groups of seven bits. A call is refused exactly if the definition refuses
//! it. The fault has the place at which the call began, and a refused call leaves the cursor as it
//! was. No call allocates memory.
//!
//! The laws of [`laws`](crate::laws) say how far a reading goes, and that a number of fixed width is the number that `from_le_bytes` reads.
#![tactic(auto)]

mod cursor;
mod fault;
mod fixed;
pub mod laws;
mod leb;

pub use crate::cursor::Cursor;
pub use crate::fault::CursorFault;
