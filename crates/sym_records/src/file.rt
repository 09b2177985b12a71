//! Valid lists of records.
ghost use Rattle.std.specs.Prelude.{◌≡◌, Ok, Some, None, MatchResult, length, slice_get};
ghost use Rattle.std.specs.Option.{option_copied};
ghost use Rattle.sym_records.specs.Canon.{canon_text};
ghost use Rattle.sym_records.specs.Reading.{fits, leads, reading};
ghost use Rattle.sym_records.specs.Validity.{first_bad, first_bad_from, AreValid, IsFirstBad};

use crate::line::SymLine;
use crate::place::Place;
use crate::validity::is_valid;
use std::marker::Model;

/// A valid list of records: `MODULE` is first, a text can spell each record, and each may be at its
/// place. `file_of` tests a list, and `file_of_valid` takes one that is known to be valid.
#[derive(Debug, Drop)]
pub struct SymFile {
    lines: Vec<SymLine>,
}

impl Model for SymFile {
    ghost use Rattle.std.specs.Prelude.{◌≡◌, List, None};
    ghost use Rattle.sym_records.specs.declared.line.SymLine.{SymLine};
    ghost use Rattle.sym_records.specs.Validity.{first_bad};

    ghost Value = { List SymLine };

    ghost view = { λ f. f.lines.items };

    ghost invariant = { λ f. first_bad f.lines.items ≡ None };
}

/// The list is not valid; `index` is the index of its first bad record, or 0 for the empty list.
#[derive(Clone, Copy, Debug, PartialEq, Eq)]
pub struct NotValid {
    pub index: usize,
}

/// Whether the record may be at the place. `MODULE` may be only at the start, line records and
/// `INLINE` only in a function, and `STACK CFI` only after `STACK CFI INIT` or `STACK CFI`.
pub fn fits(place: Place, line: &SymLine) -> bool
    ensures { result ≡ fits place line.now }
{
    match (place, line) {
        (Place::Start, SymLine::Module { .. }) => true,
        (Place::Start, _) | (_, SymLine::Module { .. }) => false,
        (_, SymLine::Inline { .. } | SymLine::Line { .. }) => place == Place::Function,
        (_, SymLine::Change { .. }) => place == Place::Frame,
        _ => true,
    }
}

/// The place after a record that follows `place`.
pub fn leads(place: Place, line: &SymLine) -> Place
    ensures { result ≡ leads place line.now }
{
    match line {
        SymLine::Func { .. } => Place::Function,
        SymLine::Inline { .. } | SymLine::Line { .. } => place,
        SymLine::Init { .. } | SymLine::Change { .. } => Place::Frame,
        _ => Place::Inside,
    }
}

/// The index of the first bad record, if there is one; `None` for the empty list.
#[tactic(auto, using(crate::proofs::FileLemmas::bad_at, crate::proofs::FileLemmas::good_at, crate::proofs::FileLemmas::none_left_at))]
fn first_bad_line(lines: &[SymLine]) -> Option<usize>
    ensures { result ≡ first_bad_from 0 Place.Start lines.now }
{
    let mut place = Place::Start;
    for (index, line) in lines.iter().enumerate() {
        if !fits(place, line) || !is_valid(line) {
            return Some(index);
        }
        place = leads(place, line);
    }
    None
}

/// The index of the first bad record, if there is one; `Some(0)` for the empty list.
#[tactic(auto, using(crate::proofs::FileLemmas::first_bad_of_none, crate::proofs::FileLemmas::first_bad_of_some))]
fn first_bad(lines: &[SymLine]) -> Option<usize>
    ensures { result ≡ first_bad lines.now }
{
    if lines.is_empty() {
        return Some(0);
    }
    first_bad_line(lines)
}

/// A symbol file of these records, or the index of the first bad one; then the list is dropped.
/// Allocates no memory.
#[tactic(auto, using(crate::proofs::ValidityLemmas::none_valid, crate::proofs::ValidityLemmas::some_first))]
pub fn file_of(lines: Vec<SymLine>) -> Result<SymFile, NotValid>
    ensures exact { MatchResult result
        (λ file. (first_bad lines.items ≡ None) × (file ≡ lines.items))
        (λ refusal. first_bad lines.items ≡ Some refusal.index) }
    ensures valid { MatchResult result
        (λ _. AreValid lines.items)
        (λ refusal. IsFirstBad lines.items refusal.index) }
{
    match first_bad(lines.as_slice()) {
        None => Ok(SymFile { lines }),
        Some(index) => Err(NotValid { index }),
    }
}

/// A symbol file of records that are known to be valid, for example because they were read from a
/// text. Allocates no memory.
pub fn file_of_valid(lines: Vec<SymLine>) -> SymFile
    requires { first_bad lines.items ≡ None }
    ensures { result ≡ lines.items }
{
    SymFile { lines }
}

impl SymFile {
    pub fn len(&self) -> usize
        ensures { result ≡ length self.now }
    {
        self.lines.len()
    }

    pub fn get(&self, i: usize) -> Option<&SymLine>
        ensures { option_copied result ≡ slice_get self.now i }
    {
        self.lines.get(i)
    }

    /// The records. Allocates no memory.
    pub fn into_vec(self) -> Vec<SymLine>
        ensures { result.items ≡ self }
    {
        let SymFile { lines } = self;
        lines
    }

    /// The records. They are valid, and their canonical text reads back as these records.
    #[tactic(auto, using(crate::proofs::ValidityLemmas::none_valid, crate::proofs::ReadingLemmas::reads_back))]
    pub fn as_slice(&self) -> &[SymLine]
        ensures lines { result.now ≡ self.now }
        ensures valid { AreValid self.now }
        ensures reads { reading (canon_text self.now) ≡ Ok self.now }
    {
        self.lines.as_slice()
    }
}
