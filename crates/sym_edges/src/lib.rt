//! The edges of the program: where bytes come in, where text goes out, and the small types that every layer shares.
//!
//! A `Store` gives the bytes of named files, and a `Sink` takes bytes. Both may fail, and both count their faults, so a caller can tell a fault of
//! the outside from its own. `read_all` gives a whole file or says why not. `write_all` writes all bytes, or only a prefix of them if it fails.
//! `MemStore` and `MemSink` show contracts everything and serve tests. `FileStore` and `StreamSink` are the system's files and streams.
#![tactic(auto)]

mod fault;
mod file_store;
mod list;
mod located;
mod mem_sink;
mod mem_store;
mod name;
mod output;
mod part;
mod reason;
mod retry;
mod sink;
mod span;
mod store;
mod stream_sink;
mod whole_file;

pub use fault::{Failed, OutOfMemory, Stop};
pub use file_store::FileStore;
pub use list::{ByteRun, CallList, ListOf};
pub use located::Located;
pub use mem_sink::MemSink;
pub use mem_store::{FileList, MemStore};
pub use name::{NameText, NamedFile};
pub use output::write_all;
pub use part::{Part, Sect};
pub use reason::Reason;
pub use sink::Sink;
pub use span::Span;
pub use store::Store;
pub use stream_sink::StreamSink;
pub use whole_file::{FILE_LIMIT, ReadEnd, read_all};
