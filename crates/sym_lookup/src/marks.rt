//! Marks: records sorted by a key. The key of a `FUNC` or `PUBLIC` record is the address at which
//! it begins; that of a `FILE` or `INLINE_ORIGIN` record is its number.
ghost use Rattle.std.specs.Prelude.{◌≡◌, ℕ, ◌+◌, ◌<◌, ◌≤◌, ◌^◌, ◌++◌, length, IfOk, OnOk};
ghost use Rattle.std.specs.List.Sorted.{IsNonDecreasingBy};
ghost use Rattle.sym_lookup.specs.internal.Marks.{key_of, mark_of, marks_of};
ghost use Rattle.sym_lookup.specs.NearestMarks.{mark_at};

use std::alloc::Global;
use sym_edges::OutOfMemory;
use sym_records::SymLine;

/// The address at which a record begins, or its number, and the record's place.
#[derive(Clone, Copy)]
pub struct Mark {
    pub key: u64,
    pub place: u32,
}

/// The kind of records that are marked.
#[derive(Clone, Copy)]
pub enum Marked {
    Functions,
    Publics,
    Files,
    Origins,
}

/// The key of a record, if it is of the marked kind.
fn key_of(marked: Marked, line: &SymLine) -> Option<u64>
    ensures { result ≡ key_of marked line.now }
{
    match (marked, line) {
        (Marked::Functions, SymLine::Func { address, .. })
        | (Marked::Publics, SymLine::Public { address, .. }) => Some(*address),
        (Marked::Files, SymLine::File { number, .. })
        | (Marked::Origins, SymLine::Origin { number, .. }) => Some(u64::from(*number)),
        _ => None,
    }
}

/// Adds the mark of a record.
fn push_mark(marks: &mut Vec<Mark>, place: u32, key: Option<u64>) -> Result<(), OutOfMemory>
    ensures { OnOk result (marks.new.items ≡ marks.old.items ++ mark_of place key) }
{
    let Some(key) = key else {
        return Ok(());
    };
    marks.push(Mark { key, place })?;
    Ok(())
}

/// The marks of records, in the order of the records.
fn marks_in(alloc: Global, marked: Marked, lines: &[SymLine]) -> Result<Vec<Mark>, OutOfMemory>
    requires { length lines.now < 2 ^ 32 }
    ensures { IfOk result (λ marks. marks.items ≡ marks_of marked 0 lines.now) }
{
    let mut marks = Vec::new(alloc);
    'lines: for at in 0..lines.len() {
        push_mark(&mut marks, at as u32, key_of(marked, &lines[at]))?;
    }
    Ok(marks)
}

/// The marks of records, sorted by their keys. Marks with the same key stay in their order.
pub(crate) fn sorted_marks(
    alloc: Global,
    marked: Marked,
    lines: &[SymLine],
) -> Result<Vec<Mark>, OutOfMemory>
    requires { length lines.now < 2 ^ 32 }
    ensures same { IfOk result (λ marks. (x : ℕ) → mark_at marks.items x ≡ mark_at (marks_of marked 0 lines.now) x) }
    ensures sorted { IfOk result (λ marks. IsNonDecreasingBy (λ m. m.key) marks.items) }
{
    let mut marks = marks_in(alloc, marked, lines)?;
    marks.sort_by_key(|mark| mark.key)?;
    Ok(marks)
}

/// The mark with the greatest key at or below `key`, by binary search; the first if several have
/// the same key.
pub(crate) fn mark_at(marks: &[Mark], key: u64) -> Option<Mark>
    requires { IsNonDecreasingBy (λ m. m.key) marks.now }
    ensures { result ≡ mark_at marks.now key }
{
    let count = marks.partition_point(|mark| mark.key <= key);
    if count == 0 {
        return None;
    }
    let nearest = marks[count - 1].key;
    let first = marks.partition_point(|mark| mark.key < nearest);
    Some(marks[first])
}
