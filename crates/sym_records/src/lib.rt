//! The records of a Breakpad symbol file, their canonical spelling, and the reading of a text of records.
//!
//! A symbol file is a text of lines, each a record (Breakpad's symbol_files.md): a keyword and its
//! fields. A table says which fields follow each keyword; spelling, length, validity and reading
//! use this table. A `SymFile` is a valid list of records. `file_of` makes it, or gives the index
//! of the first record that no text can spell or that may not be at its place. `file_of_valid`
//! makes it from records that are known to be valid. `render` spells one record and `write_file`
//! all of them, with one space between fields. What is written reads back as the same records. The
//! `add_` calls spell a record at the end of a text without making the record first; `write_init`
//! and `write_change` write a frame record up to its rules; the caller writes the rules. A
//! `SymText` is the canonical text of a symbol file; contracts see its records. `clean` makes a
//! name that a record may carry out of any bytes.
#![tactic(auto)]

// The records, and the places where they may be.
mod keyword;
mod line;
mod place;

// Their keywords and fields.
mod field;
mod listed;
mod table;

// Which records and lists a text can spell.
mod fields;
mod file;
mod lengths;
mod validity;

// How they are spelled.
mod byte_sink;
mod digits;
mod file_writer;
mod line_speller;
mod pieces;
mod rendered;
mod text;
mod text_lines;

// Laws about all of these.
pub mod laws;

pub use byte_sink::ByteSink;
pub use clean_names::clean;
pub use digits::{HexText, hex_digit};
pub use field::Field;
pub use fields::{is_field, is_name};
pub use file::{NotValid, SymFile, file_of, file_of_valid, fits, leads};
pub use file_writer::write_file;
pub use keyword::Keyword;
pub use line::{Binary, BoxedBinary, Extent, Extents, SymLine, SymLines};
pub use listed::FieldList;
pub use pieces::TextPieces;
pub use place::Place;
pub use rendered::{render, spell_rules};
pub use sym_rules::{
    ByteText, RuleName, RuleText, Rules, Target, TextFault, TextKind, Token, Tokens,
};
pub use table::{fields_of, keyword_of};
pub use text::SymText;
pub use text_lines::{
    add_file, add_func, add_info, add_inline, add_line, add_module, add_origin, add_public,
    write_change, write_init,
};
pub use validity::is_valid;
