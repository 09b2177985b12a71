//! Entries of the tables of files and directories.
use std::marker::Model;

/// An entry of a table of files or directories: its path as the table has it, and the number of its directory.
#[derive(Debug, Drop)]
pub struct FileEntry<'a> {
    pub path: &'a [u8],
    pub directory: u64,
}

impl<'a> Model for FileEntry<'a> {
    ghost use Rattle.line_program.specs.FileFields.{FileFields};

    ghost Value = { FileFields };

    ghost view = { λ f. record { path = f.path.now; directory = f.directory } };
}
