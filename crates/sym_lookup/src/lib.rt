//! Looking up addresses in a symbol file (Breakpad's symbol_files.md).
//!
//! [`answer_at`] returns the records that name an address, as places in the file. These are the
//! first `FUNC` that covers the address, with the first `INLINE` of each level and the first line
//! record under it. If there is no such `FUNC`, it is the `PUBLIC` before the address. The call
//! scans the file. [`Index::of`] makes an index of a file, and [`Index::answer_at`] returns the
//! same by binary search. [`Index::init_at`] finds the first `INIT` that covers an address, for
//! `cfi_eval::frame_from`. [`Index::func_run`] and [`Index::init_run`] also give the address up to
//! which the record is the same. [`answer_text`] shows an answer with a line for each frame;
//! [`Index::add_answer`] makes the same text by binary search. Such a text is a [`SharedText`], in
//! which a long name or path that comes again is in memory once. The names, paths and lines of an
//! answer are those that `sym_meaning` defines for the address ([`laws`]).
//!
//! Read the modules `answers`, `scans`, `shared_text`, `texts` and `laws` first; `texts` uses
//! `named`, which finds `FILE` and `INLINE_ORIGIN` records by number. Then comes `index`. It uses `stretches` (step maps
//! of records), `marks` (records sorted by a key), `numbers`, `under` (the records under a `FUNC`)
//! and `line_runs` (line records that are ascending and disjoint). `parts` gives the parts of an
//! answer one by one.
#![tactic(auto)]

mod answers;
mod index;
pub mod laws;
mod line_runs;
mod marks;
mod named;
mod numbers;
mod parts;
mod scans;
mod shared_text;
mod stretches;
mod texts;
mod under;

pub use answers::{Answer, PlaceList, PlaceRun};
pub use index::Index;
pub use parts::place_run;
pub use scans::answer_at;
pub use shared_text::SharedText;
pub use texts::answer_text;
