//! Decides about entries, one after another, and makes the text of those that are written.
ghost use Rattle.std.specs.Prelude.{◌≡◌, ℕ, List, ◌+◌, ◌-◌, ◌^◌, ◌<◌, ◌≤◌, true, false, None, Some, length, take, drop, MatchOption, IfOk, OnOk};
ghost use Rattle.std.specs.Option.{option_or};
ghost use Rattle.sym_edges.specs.Outside.{MatchStop};
ghost use Rattle.sym_edges.specs.Addresses.{Range};
ghost use Rattle.range_set.specs.Enclosing.{encloses};
ghost use Rattle.frame_entries.specs.FdeFields.{FdeFields};
ghost use Rattle.frame_entries.specs.declared.description.Body.TheVariants.{Good};
ghost use Rattle.frame_rows.specs.Rows.{rows_fault};
ghost use Rattle.frame_rows.specs.CieLeft.{cie_left};
ghost use Rattle.range_union.specs.Ranges.{any_overlap};
ghost use Rattle.rule_postfix.specs.Written.{Decided, has_range, range_of, reason_among, left_out, with_written, with_entry, with_entries};
ghost use Rattle.rule_postfix.specs.internal.Keeping.{KeptFor, StaysKept};
ghost use Rattle.rule_postfix.specs.internal.Deciding.{LiesAbove, EndsAt, IfRefused, Shows, none_decided};

use crate::cie_states::CieStates;
use crate::entry_records::spell_entry;
use crate::omission::Omission;
use crate::open_init::OpenInit;
use crate::written_ranges::WrittenRanges;
use frame_entries::{Body, Entry, EntryList, Fde};
use frame_rows::{CieState, check_rows_behind, inspect_behind};
use range_set::Enclosing;
use std::alloc::Global;
use sym_edges::{OutOfMemory, Reason, Stop};
use sym_records::TextPieces;

/// What translating needs: the allocator, the ranges of code, and the address from which records count; no range of code starts below it.
#[derive(Clone, Copy)]
pub struct Setting<'c> {
    pub alloc: Global,
    pub code: &'c Enclosing,
    pub base: u64,
}

/// What was decided so far: the text of the records, the entries that are left out, and the ranges of the written entries. `open` is memory for an
/// INIT of the entry at hand.
#[derive(Drop)]
pub struct Progress {
    pub text: TextPieces,
    open: OpenInit,
    pub omitted: Vec<Omission>,
    pub taken: WrittenRanges,
}

impl Progress {
    /// Nothing is decided yet.
    #[tactic(auto, using(crate::proofs::DecidedLemmas::shows_none))]
    pub fn new(alloc: Global) -> Progress
        ensures { (base : ℕ) → Shows base result none_decided }
    {
        Progress {
            text: TextPieces::new(alloc),
            open: OpenInit::new(alloc),
            omitted: Vec::new(alloc),
            taken: WrittenRanges::new(alloc),
        }
    }
}

/// The end of an entry's range, if the range is not empty and ends below 2^64.
#[tactic(auto, using(crate::proofs::ReasonLemmas::ends_at, crate::proofs::ReasonLemmas::is_empty, crate::proofs::ReasonLemmas::leaves))]
fn end_of(fde: &Fde<'_>) -> Option<u64>
    ensures { MatchOption result (has_range fde.now ≡ false) (λ end. EndsAt fde.now end) }
{
    if fde.size == 0 {
        return None;
    }
    fde.start.checked_add(fde.size)
}

/// Why an entry is left out if its range is empty or does not end below 2^64.
#[tactic(auto, using(crate::proofs::ReasonLemmas::unranged_bad, crate::proofs::ReasonLemmas::unranged_good))]
fn reason_without_range(
    alloc: Global,
    state: &CieState,
    fde: &Fde<'_>,
) -> Result<Reason, OutOfMemory>
    requires behind { state.now ≡ cie_left fde.now }
    requires unranged { has_range fde.now ≡ false }
    ensures { IfOk result (λ why. (code taken : List Range) → reason_among code taken fde.now ≡ Some why) }
{
    match inspect_behind(alloc, state, fde)? {
        Some(why) => Ok(why),
        None => Ok(Reason::Outside),
    }
}

/// Why an entry is left out if its range is not empty and ends below 2^64: the reason that its rows give, or else `later`.
#[tactic(auto, using(crate::proofs::ReasonLemmas::later_reason, crate::proofs::ReasonLemmas::first_reason))]
fn reason_or(
    alloc: Global,
    state: &CieState,
    fde: &Fde<'_>,
    later: Reason,
) -> Result<Reason, OutOfMemory>
    requires behind { state.now ≡ cie_left fde.now }
    requires some { 0 < fde.now.size }
    requires fits { fde.now.start + fde.now.size < 2 ^ 64 }
    ensures { IfOk result (λ why. option_or (rows_fault fde.now) (Some later) ≡ Some why) }
{
    match check_rows_behind(alloc, state, fde) {
        Ok(()) => Ok(later),
        Err(Stop::Fault(why)) => Ok(why),
        Err(Stop::NoMemory) => Err(OutOfMemory),
    }
}

/// Leaves an entry out.
fn leave_out(progress: &mut Progress, entry: &Entry<'_>, reason: Reason) -> Result<(), OutOfMemory>
    ensures { OnOk result ((base : ℕ) (d : Decided) → Shows base progress.old d → Shows base progress.new (left_out entry.now reason d)) }
{
    progress.omitted.push(Omission {
        section: entry.section,
        at: entry.at,
        reason,
    })?;
    Ok(())
}

/// Leaves an entry out, if `stop` is a reason.
fn leave_out_where_refused(
    progress: &mut Progress,
    entry: &Entry<'_>,
    stop: Stop<Reason>,
) -> Result<(), OutOfMemory>
    ensures { OnOk result (IfRefused stop (λ why. (base : ℕ) (d : Decided) → Shows base progress.old d → Shows base progress.new (left_out entry.now why d))) }
{
    match stop {
        Stop::Fault(reason) => leave_out(progress, entry, reason),
        Stop::NoMemory => Err(OutOfMemory),
    }
}

/// Writes an entry whose range overlaps none that is taken. If its rows give a reason, returns it and leaves the text as it was.
fn write(
    alloc: Global,
    progress: &mut Progress,
    state: &CieState,
    fde: &Fde<'_>,
    base: u64,
) -> Result<(), Stop<Reason>>
    requires behind { state.now ≡ cie_left fde.now }
    requires some { 0 < fde.now.size }
    requires fits { fde.now.start + fde.now.size < 2 ^ 64 }
    requires based { base ≤ fde.now.start }
    requires apart { any_overlap (range_of fde.now) progress.old.taken ≡ false }
    ensures shown { MatchStop result
        (λ _. (d : Decided) → Shows base progress.old d → Shows base progress.new (with_written fde.now d))
        (λ _. (b : ℕ) (d : Decided) → Shows b progress.old d → Shows b progress.new d)
        (Unit {0}) }
    ensures exact { MatchStop result (λ _. rows_fault fde.now ≡ None) (λ why. rows_fault fde.now ≡ Some why) (Unit {0}) }
{
    let front = progress.text.last.len();
    match spell_entry(
        alloc,
        &mut progress.text.last,
        &mut progress.open,
        state,
        fde,
        base,
    ) {
        Ok(()) => {}
        Err(stop) => {
            progress.text.last.truncate(front);
            return Err(stop);
        }
    }
    progress.taken.put(alloc, fde.start, fde.start + fde.size)?;
    progress.text.turn(alloc)?;
    Ok(())
}

/// Writes an entry whose fields can be read, or leaves it out, given the state after its CIE.
fn put_behind(
    setting: Setting<'_>,
    progress: &mut Progress,
    state: &CieState,
    entry: &Entry<'_>,
    fde: &Fde<'_>,
) -> Result<(), OutOfMemory>
    requires good { entry.now.body ≡ Good fde.now }
    requires behind { state.now ≡ cie_left fde.now }
    requires above { LiesAbove setting.base setting.code.now }
    ensures { OnOk result ((d : Decided) → Shows setting.entry.base progress.old d → Shows setting.entry.base progress.new (with_entry setting.entry.code.now entry.now d)) }
{
    let Some(end) = end_of(fde) else {
        let why = reason_without_range(setting.alloc, state, fde)?;
        return leave_out(progress, entry, why);
    };
    if !setting.code.encloses(fde.start, end) {
        let why = reason_or(setting.alloc, state, fde, Reason::Outside)?;
        return leave_out(progress, entry, why);
    }
    if progress.taken.meets(fde.start, end) {
        let why = reason_or(setting.alloc, state, fde, Reason::Overlap)?;
        return leave_out(progress, entry, why);
    }
    match write(setting.alloc, progress, state, fde, setting.base) {
        Ok(()) => Ok(()),
        Err(stop) => leave_out_where_refused(progress, entry, stop),
    }
}

/// Writes an entry whose fields can be read, or leaves it out. The state after its CIE is made if it is not cached.
fn put_good(
    setting: Setting<'_>,
    progress: &mut Progress,
    states: &mut CieStates,
    entry: &Entry<'_>,
    fde: &Fde<'_>,
) -> Result<(), OutOfMemory>
    requires good { entry.now.body ≡ Good fde.now }
    requires known { KeptFor states.old fde.now }
    requires above { LiesAbove setting.base setting.code.now }
    ensures shown { OnOk result ((d : Decided) → Shows setting.entry.base progress.old d → Shows setting.entry.base progress.new (with_entry setting.entry.code.now entry.now d)) }
    ensures kept { OnOk result (StaysKept entry.now states.old states.new) }
{
    states.make(setting.alloc, fde)?;
    put_behind(setting, progress, states.behind(fde), entry, fde)
}

/// Writes an entry or leaves it out.
fn put_entry(
    setting: Setting<'_>,
    progress: &mut Progress,
    states: &mut CieStates,
    entry: &Entry<'_>,
) -> Result<(), OutOfMemory>
    requires known { (e : FdeFields) → entry.now.body ≡ Good e → KeptFor states.old e }
    requires above { LiesAbove setting.base setting.code.now }
    ensures shown { OnOk result ((d : Decided) → Shows setting.entry.base progress.old d → Shows setting.entry.base progress.new (with_entry setting.entry.code.now entry.now d)) }
    ensures kept { OnOk result (StaysKept entry.now states.old states.new) }
{
    match &entry.body {
        Body::Bad(reason) => leave_out(progress, entry, *reason),
        Body::Good(fde) => put_good(setting, progress, states, entry, fde),
    }
}

/// Decides about the entries of one section from `from` up to `to`, in order.
pub fn put_range(
    setting: Setting<'_>,
    progress: &mut Progress,
    entries: &EntryList<'_>,
    from: usize,
    to: usize,
) -> Result<(), OutOfMemory>
    requires above { LiesAbove setting.base setting.code.now }
    requires order { from ≤ to }
    requires inside { to ≤ length entries.now }
    ensures { OnOk result ((d : Decided) → Shows setting.entry.base progress.old d → Shows setting.entry.base progress.new (with_entries setting.entry.code.now (take (to - from) (drop from entries.now)) d)) }
{
    let mut states = CieStates::new(setting.alloc);
    'entries: for i in from..to {
        let entry = entries.entry(i);
        put_entry(setting, progress, &mut states, &entry)?;
    }
    Ok(())
}
