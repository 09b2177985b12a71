//! Lines by address.
ghost use Rattle.std.specs.Prelude.{◌≡◌, Some};
ghost use Rattle.line_program.specs.LineMaps.{file_number};
ghost use Rattle.line_program.specs.internal.Numbered.{numbered_line_of};

use crate::row::Row;
use std::mem::size_of;

/// The number of a path, and a line of that file; line 0 means that there is no line. 8 bytes.
#[derive(Clone, Copy, Debug, PartialEq, Eq)]
pub struct PathLine {
    pub path: u32,
    pub line: u32,
}

const _: () = prove!(size_of::<PathLine>() == 8);

pub const NO_LINE: PathLine = PathLine { path: 0, line: 0 };

/// Of `count` files that are numbered from `first` on, the number of a file from 0 on, if there is
/// such a file.
#[inline]
pub fn file_number(first: u32, count: u32, file: u32) -> Option<u32>
    ensures { result ≡ file_number first count file }
{
    if file < first {
        return None;
    }
    let number = file - first;
    if number < count { Some(number) } else { None }
}

/// Path number and line of a row; line 0 if the row has none.
#[inline]
pub fn line_of(first: u32, files: u32, row: Row) -> PathLine
    ensures { result ≡ numbered_line_of first files (Some row) }
{
    match file_number(first, files, row.file) {
        Some(path) => {
            if row.line == 0 {
                NO_LINE
            } else {
                PathLine {
                    path,
                    line: row.line,
                }
            }
        }
        None => NO_LINE,
    }
}
