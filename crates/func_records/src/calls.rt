//! Where inlined copies are called.
ghost use Rattle.std.specs.Prelude.{◌≡◌, ◌<◌, length, IfSome, option_and_then};
ghost use Rattle.line_program.specs.LineMaps.{numbered_file};
ghost use Rattle.func_records.specs.internal.Calls.{IsSite};

use debug_units::Units;
use line_program::LineTable;

/// Where a call is: the number of its path in the line table of its unit, if the table has the call's file; and its line.
#[derive(Clone, Copy, Debug, PartialEq, Eq)]
pub struct CallSite {
    pub path: Option<u32>,
    pub line: u32,
}

/// The number of a file's path.
fn number_of_file(table: &LineTable<'_>, file: Option<u64>) -> Option<u32>
    ensures number { result ≡ option_and_then (numbered_file table.now) file }
    ensures known { IfSome result (λ path. path < length table.now.paths) }
{
    match file {
        Some(file) => table.file(file),
        None => None,
    }
}

/// Where the inlined copy `entry` is called.
pub fn call_site(units: &Units<'_>, unit: u32, entry: u32) -> CallSite
    ensures { IsSite units.now unit entry result }
{
    let Some(part) = units.unit(unit) else {
        return CallSite {
            path: None,
            line: 0,
        };
    };
    let Some(die) = part.entry(entry as usize) else {
        return CallSite {
            path: None,
            line: 0,
        };
    };
    CallSite {
        path: number_of_file(part.lines.table(), die.call_file()),
        line: die.call_line(),
    }
}
