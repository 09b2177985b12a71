//! The lines of a text, one after another.
ghost use Rattle.std.specs.Prelude.{◌≡◌, ◌≤◌, ◌^◌, true, Some, None};
ghost use Rattle.std.specs.List.{list_all};
ghost use Rattle.sym_rules.specs.Cuts.{is_within_line};
ghost use Rattle.sym_records.specs.Reading.{start, next_number, lacks_module, with_record, with_text, numbered};
ghost use Rattle.sym_records.specs.Validity.{fields_fit, first_bad_from};
ghost use Rattle.sym_records.specs.declared.place.Place.TheVariants.{Start};
ghost use Rattle.sym_grammar.specs.internal.Given.{Leaves};

use crate::records::{begins_module, line_read};
use std::alloc::Global;
use std::marker::Model;
use sym_edges::Stop;
use sym_records::{Place, SymLine, fits, leads};
use sym_rules::{TextFault, TextKind, is_blank};

/// The result of the whole lines so far: their records, which are valid, the place after them, and
/// the number of lines.
#[derive(Debug, Drop)]
pub(crate) struct Progress {
    records: Vec<SymLine>,
    place: Place,
    number: u64,
}

impl Model for Progress {
    ghost use Rattle.sym_records.specs.Reading.{Seen};
    ghost use Rattle.sym_grammar.specs.internal.Parts.{AreGood};

    ghost Value = { Seen };

    ghost view = { λ p. record { records = p.records.items; place = p.place; number = p.number } };

    ghost invariant = { λ p. AreGood p.records.items p.place };
}

/// The state before the first line.
#[tactic(auto, using(crate::proofs::ProgressLemmas::start_good))]
pub(crate) fn started(alloc: Global) -> Progress
    ensures { result ≡ start }
{
    Progress {
        records: Vec::new(alloc),
        place: Place::Start,
        number: 0,
    }
}

/// The records of the lines so far.
pub(crate) fn into_records(progress: Progress) -> Vec<SymLine>
    ensures records { result.items ≡ progress.records }
    ensures valid { first_bad_from 0 Start result.items ≡ None }
{
    let Progress {
        records,
        place: _,
        number: _,
    } = progress;
    records
}

/// Adds a record, if it may be at this place.
#[tactic(auto, using(crate::proofs::ProgressLemmas::pushed_good))]
fn add_record(seen: &mut Progress, line: SymLine) -> Result<(), Stop<TextKind>>
    requires { fields_fit line ≡ true }
    ensures { Leaves result seen.new (with_record seen.old (Some line)) }
{
    if !fits(seen.place, &line) {
        return Err(Stop::Fault(TextKind::Misplaced));
    }
    let place = leads(seen.place, &line);
    seen.records.push(line)?;
    seen.place = place;
    seen.number = seen.number.saturating_add(1);
    Ok(())
}

/// Whether no record was read yet, and the line is neither blank nor begins with the word `MODULE`.
#[tactic(auto, unfolding(sym_records::specs::Reading::lacks_module))]
fn lacks_module(place: Place, line: &[u8]) -> bool
    ensures { result ≡ lacks_module place line.now }
{
    place == Place::Start && !is_blank(line) && !begins_module(line)
}

/// Reads a line, and adds its record if it has one.
#[tactic(auto, using(crate::proofs::ProgressLemmas::read_fits), unfolding(sym_records::specs::Reading::with_text))]
fn add_line(
    alloc: Global,
    limit: usize,
    seen: &mut Progress,
    line: &[u8],
) -> Result<(), Stop<TextKind>>
    requires small { limit ≤ 2 ^ 20 }
    requires one_line { list_all is_within_line line.now ≡ true }
    ensures { Leaves result seen.new (with_text limit seen.old line.now) }
{
    if line.len() > limit {
        return Err(Stop::Fault(TextKind::LongLine));
    }
    if lacks_module(seen.place, line) {
        return Err(Stop::Fault(TextKind::NoModule));
    }
    match line_read(alloc, line)? {
        Some(record) => add_record(seen, record),
        None => {
            seen.number = seen.number.saturating_add(1);
            Ok(())
        }
    }
}

/// The number of the next line.
pub(crate) fn next_number(seen: &Progress) -> u64
    ensures { result ≡ next_number seen.now.number }
{
    seen.number.saturating_add(1)
}

/// Reads a line like `add_line`; a fault gets the number of the line.
pub(crate) fn add_numbered(
    alloc: Global,
    limit: usize,
    seen: &mut Progress,
    line: &[u8],
) -> Result<(), Stop<TextFault>>
    requires small { limit ≤ 2 ^ 20 }
    requires one_line { list_all is_within_line line.now ≡ true }
    ensures { Leaves result seen.new (numbered (next_number seen.old.number) (with_text limit seen.old line.now)) }
{
    let number = next_number(seen);
    match add_line(alloc, limit, seen, line) {
        Ok(()) => Ok(()),
        Err(Stop::Fault(kind)) => Err(Stop::Fault(TextFault { kind, line: number })),
        Err(Stop::NoMemory) => Err(Stop::NoMemory),
    }
}
