//! The places of `FILE` and `INLINE_ORIGIN` records, by their numbers.
ghost use Rattle.std.specs.Prelude.{◌≡◌, ◌<◌, ◌^◌, length, IfOk};
ghost use Rattle.std.specs.List.Sorted.{IsNonDecreasingBy};
ghost use Rattle.sym_lookup.specs.IndexOf.{AreNumbersOf};
ghost use Rattle.sym_lookup.specs.NearestMarks.{mark_at, numbered};

use crate::marks::{Mark, Marked, mark_at, sorted_marks};
use std::alloc::Global;
use sym_edges::OutOfMemory;
use sym_records::SymLine;

/// The marks of the `FILE` and of the `INLINE_ORIGIN` records, sorted by number. Records with the
/// same number stay in their order.
#[derive(Drop)]
pub struct Numbers {
    pub files: Vec<Mark>,
    pub origins: Vec<Mark>,
}

/// The sorted numbers of a list of records.
pub(crate) fn numbers_of(alloc: Global, lines: &[SymLine]) -> Result<Numbers, OutOfMemory>
    requires { length lines.now < 2 ^ 32 }
    ensures { IfOk result (λ numbers. AreNumbersOf lines.now numbers) }
{
    let files = sorted_marks(alloc, Marked::Files, lines)?;
    let origins = sorted_marks(alloc, Marked::Origins, lines)?;
    Ok(Numbers { files, origins })
}

/// The place of the first record with a number.
pub(crate) fn place_of(marks: &[Mark], number: u32) -> Option<usize>
    requires { IsNonDecreasingBy (λ m. m.key) marks.now }
    ensures { result ≡ numbered number (mark_at marks.now number) }
{
    match mark_at(marks, u64::from(number)) {
        None => None,
        Some(mark) => {
            if mark.key != u64::from(number) {
                return None;
            }
            Some(mark.place as usize)
        }
    }
}
