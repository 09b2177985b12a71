//! `FILE` and `INLINE_ORIGIN` records, found by number: by a scan or by sorted numbers.
ghost use Rattle.std.specs.Prelude.{◌≡◌, slice_get};
ghost use Rattle.std.specs.List.{find};
ghost use Rattle.std.specs.Option.{option_copied, option_and_then};
ghost use Rattle.sym_meaning.specs.TextNames.{is_file, is_origin, file_name, origin_name, text_path, text_origin};
ghost use Rattle.sym_lookup.specs.IndexOf.{AreNumbersOf};

use crate::numbers::{Numbers, place_of};
use std::marker::Model;
use sym_records::SymLine;

/// The records of a file, with their sorted numbers if there are any. Contracts see the list of
/// records.
#[derive(Drop)]
pub(crate) struct Records<'f> {
    lines: &'f [SymLine],
    numbers: Option<&'f Numbers>,
}

impl<'f> Model for Records<'f> {
    ghost use Rattle.std.specs.Prelude.{List, IfSome};
    ghost use Rattle.sym_records.specs.declared.line.SymLine.{SymLine};
    ghost use Rattle.sym_lookup.specs.IndexOf.{AreNumbersOf};

    ghost Value = { List SymLine };

    ghost view = { λ r. r.lines.now };

    ghost invariant = { λ r. IfSome r.numbers (λ n. AreNumbersOf r.lines.now n.now) };
}

fn is_file(line: &SymLine, number: u32) -> bool
    ensures { result ≡ is_file number line.now }
{
    match line {
        SymLine::File { number: own, .. } => *own == number,
        _ => false,
    }
}

fn is_origin(line: &SymLine, number: u32) -> bool
    ensures { result ≡ is_origin number line.now }
{
    match line {
        SymLine::Origin { number: own, .. } => *own == number,
        _ => false,
    }
}

/// The first `FILE` with a number, by a scan.
fn first_file(lines: &[SymLine], number: u32) -> Option<&SymLine>
    ensures { option_copied result ≡ find (is_file number) lines.now }
{
    lines.iter().find(|line| is_file(line, number))
}

/// The first `INLINE_ORIGIN` with a number, by a scan.
fn first_origin(lines: &[SymLine], number: u32) -> Option<&SymLine>
    ensures { option_copied result ≡ find (is_origin number) lines.now }
{
    lines.iter().find(|line| is_origin(line, number))
}

/// The record at a place, if there is one.
fn line_at(lines: &[SymLine], place: Option<usize>) -> Option<&SymLine>
    ensures { option_copied result ≡ option_and_then (slice_get lines.now) place }
{
    match place {
        None => None,
        Some(place) => lines.get(place),
    }
}

/// The first `FILE` with a number, by the sorted numbers.
fn numbered_file<'f>(lines: &'f [SymLine], numbers: &Numbers, number: u32) -> Option<&'f SymLine>
    requires { AreNumbersOf lines.now numbers.now }
    ensures { option_copied result ≡ find (is_file number) lines.now }
{
    line_at(lines, place_of(numbers.files.as_slice(), number))
}

/// The first `INLINE_ORIGIN` with a number, by the sorted numbers.
fn numbered_origin<'f>(lines: &'f [SymLine], numbers: &Numbers, number: u32) -> Option<&'f SymLine>
    requires { AreNumbersOf lines.now numbers.now }
    ensures { option_copied result ≡ find (is_origin number) lines.now }
{
    line_at(lines, place_of(numbers.origins.as_slice(), number))
}

/// The name of a `FILE`.
pub(crate) fn file_name(line: &SymLine) -> &[u8]
    ensures { result.now ≡ file_name line.now }
{
    match line {
        SymLine::File { name, .. } => name.as_slice(),
        _ => &[],
    }
}

/// The name of an `INLINE_ORIGIN`.
pub(crate) fn origin_name(line: &SymLine) -> &[u8]
    ensures { result.now ≡ origin_name line.now }
{
    match line {
        SymLine::Origin { name, .. } => name.as_slice(),
        _ => &[],
    }
}

impl<'f> Records<'f> {
    /// Records without sorted numbers.
    pub(crate) fn of(lines: &'f [SymLine]) -> Records<'f>
        ensures { result ≡ lines.now }
    {
        Records {
            lines,
            numbers: None,
        }
    }

    /// Records with their sorted numbers.
    pub(crate) fn numbered(lines: &'f [SymLine], numbers: &'f Numbers) -> Records<'f>
        requires { AreNumbersOf lines.now numbers.now }
        ensures { result ≡ lines.now }
    {
        Records {
            lines,
            numbers: Some(numbers),
        }
    }

    /// The record at a place.
    pub(crate) fn get(&self, place: usize) -> Option<&SymLine>
        ensures { option_copied result ≡ slice_get self.now place }
    {
        self.lines.get(place)
    }

    /// The first `FILE` with a number.
    pub(crate) fn file(&self, number: u32) -> Option<&'f SymLine>
        ensures { option_copied result ≡ find (is_file number) self.now }
    {
        match self.numbers {
            None => first_file(self.lines, number),
            Some(numbers) => numbered_file(self.lines, numbers, number),
        }
    }

    /// The first `INLINE_ORIGIN` with a number.
    pub(crate) fn origin(&self, number: u32) -> Option<&'f SymLine>
        ensures { option_copied result ≡ find (is_origin number) self.now }
    {
        match self.numbers {
            None => first_origin(self.lines, number),
            Some(numbers) => numbered_origin(self.lines, numbers, number),
        }
    }

    /// The name of the first `FILE` with a number.
    pub(crate) fn path(&self, number: u32) -> Option<&'f [u8]>
        ensures { option_copied result ≡ text_path self.now number }
    {
        match self.file(number) {
            None => None,
            Some(line) => Some(file_name(line)),
        }
    }

    /// The name of the first `INLINE_ORIGIN` with a number.
    pub(crate) fn origin_text(&self, number: u32) -> Option<&'f [u8]>
        ensures { option_copied result ≡ text_origin self.now number }
    {
        match self.origin(number) {
            None => None,
            Some(line) => Some(origin_name(line)),
        }
    }
}
