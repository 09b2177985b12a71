//! The findings at one record.
ghost use Rattle.std.specs.Prelude.{◌≡◌, ℕ, Bool, ◌&&◌, ◌||◌, not, false, List, [], ◌∷◌, ◌++◌, None, OnOk};
ghost use Rattle.std.specs.List.{list_all};
ghost use Rattle.std.specs.Option.{is_some, option_map, option_map_or};
ghost use Rattle.sym_records.specs.declared.line.Extent.{Extent};
ghost use Rattle.sym_records.specs.declared.line.SymLine.{SymLine};
ghost use Rattle.sym_records.specs.declared.line.SymLine.TheVariants as record_line;
ghost use Rattle.sym_rules.specs.declared.rules.RuleText.{RuleText};
ghost use Rattle.sym_meaning.specs.Findings.{run_of, is_sized, meet, holds_run};
ghost use Rattle.sym_findings.specs.Findings.{goes_on, finding_if};
ghost use Rattle.sym_findings.specs.internal.Ranges.{is_met};
ghost use Rattle.sym_findings.specs.internal.Preceding.{leaves_open, Knows, Keeps, Judged};

use crate::kind::{Finding, FindingKind};
use crate::met_ranges::MetRanges;
use crate::records_before::{Known, OpenInit, Preceding};
use std::alloc::Global;
use sym_edges::OutOfMemory;
use sym_records::{Extent, SymLine};

/// The findings so far, and the index of the current record.
#[derive(Drop)]
pub struct Notes {
    pub list: Vec<Finding>,
    pub index: usize,
}

impl Notes {
    /// Adds a finding at the current record, if `found`.
    #[inline]
    fn note(&mut self, found: bool, kind: FindingKind) -> Result<(), OutOfMemory>
        ensures list { OnOk result (self.new.list.items ≡ self.old.list.items ++ finding_if found kind self.old.index) }
        ensures index { self.new.index ≡ self.old.index }
    {
        if found {
            self.list.push(Finding {
                kind,
                index: self.index,
            })?;
        }
        Ok(())
    }
}

/// Whether the range is not empty, and its end is at most 2^64 - 1.
#[inline]
fn is_sized(run: &Extent) -> bool
    ensures { result ≡ is_sized run.now }
{
    0 < run.size && run.size <= u64::MAX - run.address
}

/// Whether the second range does not reach outside of the first.
#[inline]
fn holds_run(func: &Extent, run: &Extent) -> bool
    ensures { result ≡ holds_run func.now run.now }
{
    func.address <= run.address
        && u128::from(run.address) + u128::from(run.size)
            <= u128::from(func.address) + u128::from(func.size)
}

fn are_sized(runs: &[Extent]) -> bool
    ensures { result ≡ list_all is_sized runs.now }
{
    runs.iter().all(|run| is_sized(run))
}

fn hold_runs(func: &Extent, runs: &[Extent]) -> bool
    ensures { result ≡ list_all (holds_run func.now) runs.now }
{
    runs.iter().all(|run| holds_run(func, run))
}

/// Whether one of the ranges reaches outside of the open `FUNC`, if there is one.
fn leave_open(func: Option<Extent>, runs: &[Extent]) -> bool
    ensures { result ≡ leaves_open runs.now func }
{
    match func {
        Some(func) => !hold_runs(&func, runs),
        None => false,
    }
}

/// Whether the range reaches outside of the open `FUNC`, if there is one.
#[inline]
fn leaves_open(func: Option<Extent>, run: &Extent) -> bool
    ensures { result ≡ leaves_open (run.now ∷ []) func }
{
    match func {
        Some(func) => !holds_run(&func, run),
        None => false,
    }
}

/// Whether a `FUNC` is open and `holds` is true.
#[inline]
fn is_open_and(func: Option<Extent>, holds: bool) -> bool
    ensures { result ≡ (is_some func && holds) }
{
    func.is_some() && holds
}

/// Whether a `STACK CFI` is in the range of the open `STACK CFI INIT`, and above the address of the record before it.
fn goes_on(init: Option<OpenInit>, address: u64) -> bool
    ensures { result ≡ option_map_or (goes_on address) init false }
{
    match init {
        Some(open) => {
            open.init.address <= address
                && u128::from(address) < u128::from(open.init.address) + u128::from(open.init.size)
                && open.last < address
        }
        None => false,
    }
}

/// The open `STACK CFI INIT`, with the address of a `STACK CFI` as the last.
fn moved(init: Option<OpenInit>, address: u64) -> Option<OpenInit>
    ensures { result ≡ option_map (λ (o : OpenInit). record o { last = address }) init }
{
    match init {
        Some(open) => Some(OpenInit {
            init: open.init,
            last: address,
        }),
        None => None,
    }
}

/// Closes the open `FUNC` and the open `STACK CFI INIT`.
fn close(kept: &mut Preceding)
    ensures { kept.new ≡ record kept.old { func = None; init = None } }
{
    kept.func = None;
    kept.init = None;
}

/// Handles a `FILE`.
fn judge_file(notes: &mut Notes, kept: &mut Preceding, number: u32) -> Result<(), OutOfMemory>
    ensures { OnOk result ((all before : List SymLine) (name : List ℕ) → Keeps before kept.old → Judged all before notes.old.index (record_line.File number name) notes.old.list.items notes.new.list.items kept.new) }
{
    let again = kept.files.give(number)?;
    notes.note(again, FindingKind::GivenAgain)?;
    kept.func = None;
    kept.init = None;
    Ok(())
}

/// Handles an `INLINE_ORIGIN`.
fn judge_origin(notes: &mut Notes, kept: &mut Preceding, number: u32) -> Result<(), OutOfMemory>
    ensures { OnOk result ((all before : List SymLine) (name : List ℕ) → Keeps before kept.old → Judged all before notes.old.index (record_line.Origin number name) notes.old.list.items notes.new.list.items kept.new) }
{
    let again = kept.origins.give(number)?;
    notes.note(again, FindingKind::GivenAgain)?;
    kept.func = None;
    kept.init = None;
    Ok(())
}

/// Handles the range of a `FUNC` or of a `STACK CFI INIT`.
fn judge_run(
    notes: &mut Notes,
    earlier: &mut MetRanges,
    run: Extent,
    kind: FindingKind,
) -> Result<(), OutOfMemory>
    ensures found { OnOk result (notes.new.list.items ≡ (notes.old.list.items ++ finding_if (not (is_sized run)) FindingKind.BadSize notes.old.index) ++ finding_if (is_met earlier.old run) kind notes.old.index) }
    ensures more { OnOk result ((e : Extent) → is_met earlier.new e ≡ (is_met earlier.old e || meet e run)) }
{
    let met = earlier.put(run.address, run.size)?;
    notes.note(!is_sized(&run), FindingKind::BadSize)?;
    notes.note(met, kind)?;
    Ok(())
}

/// Handles a `FUNC`.
fn judge_func(
    alloc: Global,
    notes: &mut Notes,
    kept: &mut Preceding,
    run: Extent,
) -> Result<(), OutOfMemory>
    ensures { OnOk result ((all before : List SymLine) (many : Bool) (params : ℕ) (name : List ℕ) → Keeps before kept.old → Judged all before notes.old.index (record_line.Func many run.address run.size params name) notes.old.list.items notes.new.list.items kept.new) }
{
    judge_run(notes, &mut kept.functions, run, FindingKind::FuncMeets)?;
    kept.func = Some(run);
    kept.lines = MetRanges::new(alloc);
    kept.init = None;
    Ok(())
}

/// The file, the origin and the ranges of an `INLINE`.
#[derive(Clone, Copy)]
struct Call<'r> {
    file: u32,
    origin: u32,
    runs: &'r [Extent],
}

/// Handles an `INLINE`.
fn judge_inline(
    notes: &mut Notes,
    known: &Known,
    kept: &mut Preceding,
    call: &Call<'_>,
) -> Result<(), OutOfMemory>
    ensures { OnOk result ((all before : List SymLine) (level line : ℕ) → Knows all known.now → Keeps before kept.old → Judged all before notes.old.index (record_line.Inline level line call.now.file call.now.origin call.now.runs.now) notes.old.list.items notes.new.list.items kept.new) }
{
    notes.note(!known.files.has(call.file), FindingKind::NoFile)?;
    notes.note(!known.origins.has(call.origin), FindingKind::NoOrigin)?;
    notes.note(!are_sized(call.runs), FindingKind::BadSize)?;
    notes.note(leave_open(kept.func, call.runs), FindingKind::LeavesFunc)?;
    kept.init = None;
    Ok(())
}

/// Handles a line record.
fn judge_line(
    notes: &mut Notes,
    known: &Known,
    kept: &mut Preceding,
    run: Extent,
    file: u32,
) -> Result<(), OutOfMemory>
    ensures { OnOk result ((all before : List SymLine) (line : ℕ) → Knows all known.now → Keeps before kept.old → Judged all before notes.old.index (record_line.Line run.address run.size line file) notes.old.list.items notes.new.list.items kept.new) }
{
    let met = kept.lines.put(run.address, run.size)?;
    notes.note(!known.files.has(file), FindingKind::NoFile)?;
    notes.note(!is_sized(&run), FindingKind::BadSize)?;
    notes.note(leaves_open(kept.func, &run), FindingKind::LeavesFunc)?;
    notes.note(is_open_and(kept.func, met), FindingKind::LineMeets)?;
    kept.init = None;
    Ok(())
}

/// Handles a `STACK CFI INIT`.
fn judge_init(notes: &mut Notes, kept: &mut Preceding, run: Extent) -> Result<(), OutOfMemory>
    ensures { OnOk result ((all before : List SymLine) (rules : List RuleText) → Keeps before kept.old → Judged all before notes.old.index (record_line.Init run.address run.size rules) notes.old.list.items notes.new.list.items kept.new) }
{
    judge_run(notes, &mut kept.inits, run, FindingKind::InitMeets)?;
    kept.func = None;
    kept.init = Some(OpenInit {
        init: run,
        last: run.address,
    });
    Ok(())
}

/// Handles a `STACK CFI`.
fn judge_change(notes: &mut Notes, kept: &mut Preceding, address: u64) -> Result<(), OutOfMemory>
    ensures { OnOk result ((all before : List SymLine) (rules : List RuleText) → Keeps before kept.old → Judged all before notes.old.index (record_line.Change address rules) notes.old.list.items notes.new.list.items kept.new) }
{
    notes.note(!goes_on(kept.init, address), FindingKind::ChangeOutside)?;
    kept.func = None;
    kept.init = moved(kept.init, address);
    Ok(())
}

fn run_of(address: u64, size: u64) -> Extent
    ensures { result ≡ run_of address size }
{
    Extent { address, size }
}

/// Adds the findings at a record, and stores what later records need of it.
pub fn judge(
    alloc: Global,
    notes: &mut Notes,
    known: &Known,
    kept: &mut Preceding,
    line: &SymLine,
) -> Result<(), OutOfMemory>
    ensures { OnOk result ((all before : List SymLine) → Knows all known.now → Keeps before kept.old → Judged all before notes.old.index line.now notes.old.list.items notes.new.list.items kept.new) }
{
    match line {
        SymLine::File { number, .. } => judge_file(notes, kept, *number),
        SymLine::Origin { number, .. } => judge_origin(notes, kept, *number),
        SymLine::Func { address, size, .. } => {
            judge_func(alloc, notes, kept, run_of(*address, *size))
        }
        SymLine::Inline {
            call_file,
            origin,
            ranges,
            ..
        } => {
            let call = Call {
                file: *call_file,
                origin: *origin,
                runs: ranges.as_slice(),
            };
            judge_inline(notes, known, kept, &call)
        }
        SymLine::Line {
            address,
            size,
            file,
            ..
        } => judge_line(notes, known, kept, run_of(*address, *size), *file),
        SymLine::Init { address, size, .. } => judge_init(notes, kept, run_of(*address, *size)),
        SymLine::Change { address, .. } => judge_change(notes, kept, *address),
        SymLine::Module { .. } | SymLine::Info { .. } | SymLine::Public { .. } => {
            close(kept);
            Ok(())
        }
    }
}
