//! What is decided before anything is written.
use sym_lookup::SharedText;
use sym_records::{ByteText, SymFile, SymText};

/// What standard output gets.
#[derive(Debug, Drop)]
pub enum Output {
    Nothing,
    /// The canonical text of these records.
    Text(SymText),
    Bytes(ByteText),
    /// Bytes of which long parts that come again are in memory once.
    Shared(SharedText),
    /// The canonical text of these records, which is made while it is written.
    Records(SymFile),
}

/// What standard error gets.
#[derive(Debug, Drop)]
pub enum Message {
    Fixed(&'static [u8]),
    Made(ByteText),
}

/// The status (0, 1 or 2), and what both streams get.
#[derive(Debug, Drop)]
pub struct Judgement {
    pub status: u8,
    pub out: Output,
    pub err: Message,
}

/// A judgement, or why there is none.
#[derive(Debug, Drop)]
pub enum Answer {
    Judged(Judgement),
    /// A file could not be opened or read; this is the line for it.
    Unread(Message),
    NoMemory,
}
