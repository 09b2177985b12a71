//! The findings of all records of a file.
ghost use Rattle.std.specs.Prelude.{◌≡◌, IfOk, [], ◌<◌};
ghost use Rattle.sym_findings.specs.Findings.{findings};
ghost use Rattle.sym_findings.specs.internal.Preceding.{Knows, Keeps};

use crate::judgement::{Notes, judge};
use crate::kind::{Finding, FindingList};
use crate::met_ranges::MetRanges;
use crate::numbers::{GivenNumbers, KnownNumbers, numbers_in};
use crate::records_before::{Known, Preceding};
use std::alloc::Global;
use sym_edges::{ListOf, OutOfMemory};
use sym_records::{SymFile, SymLine};

/// The numbers of all records.
fn known_in(alloc: Global, lines: &[SymLine]) -> Result<Known, OutOfMemory>
    ensures { IfOk result (λ known. Knows lines.now known) }
{
    let numbers = numbers_in(alloc, lines)?;
    let files = KnownNumbers::of(numbers.files)?;
    let origins = KnownNumbers::of(numbers.origins)?;
    Ok(Known { files, origins })
}

/// What is stored before the first record. Allocates no memory.
fn none_kept(alloc: Global) -> Preceding
    ensures { Keeps [] result }
{
    Preceding {
        files: GivenNumbers::new(alloc),
        origins: GivenNumbers::new(alloc),
        functions: MetRanges::new(alloc),
        func: None,
        lines: MetRanges::new(alloc),
        inits: MetRanges::new(alloc),
        init: None,
    }
}

/// The findings in records whose numbers are known.
fn found_in(alloc: Global, known: &Known, lines: &[SymLine]) -> Result<Vec<Finding>, OutOfMemory>
    requires { Knows lines.now known.now }
    ensures { IfOk result (λ found. found.items ≡ findings lines.now) }
{
    let mut kept = none_kept(alloc);
    let mut notes = Notes {
        list: Vec::new(alloc),
        index: 0,
    };
    for (index, line) in lines.iter().enumerate() {
        notes.index = index;
        judge(alloc, &mut notes, known, &mut kept, line)?;
    }
    Ok(notes.list)
}

/// What a checker finds in the records of a file, ordered by record and then by kind. The time for
/// n records and ranges is O(n log n).
pub fn findings(alloc: Global, file: &SymFile) -> Result<FindingList, OutOfMemory>
    ensures { IfOk result (λ found. found ≡ findings file.now) }
{
    let lines = file.as_slice();
    let known = known_in(alloc, lines)?;
    let found = found_in(alloc, &known, lines)?;
    Ok(ListOf::of(found))
}
