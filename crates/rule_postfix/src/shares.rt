//! The entries of a section in shares, which workers translate in parallel and whose results are joined in order.
ghost use Rattle.std.specs.Prelude.{◌≡◌, ◌*◌, ◌<◌, ◌≤◌, ◌++◌, length, false, OnOk};
ghost use Rattle.std.specs.List.{list_any};
ghost use Rattle.unit_workers.specs.Shares.{share};
ghost use Rattle.unit_workers.specs.Working.{AreInOrder};
ghost use Rattle.range_union.specs.Ranges.{any_overlap};
ghost use Rattle.rule_postfix.specs.Written.{Decided, with_entries};
ghost use Rattle.rule_postfix.specs.internal.Deciding.{LiesAbove, Shows, none_decided};

use crate::cie_states::is_long;
use crate::progress::{Progress, Setting, put_range};
use crate::written_ranges::WrittenRanges;
use frame_entries::{Body, EntryList};
use range_set::Enclosing;
use std::alloc::Global;
use std::marker::Model;
use std::mem::replace;
use std::thread::Threads;
use sym_edges::{OutOfMemory, Span};
use unit_workers::{Crew, NoGate, UnitJob, share_bounds};

/// The fewest entries in a share; the last share may have fewer.
const LEAST: usize = 512;

/// The most shares per worker.
const EACH: usize = 4;

/// Whether an entry has a long CIE, whose instructions each share with such an entry would carry out anew.
fn has_long_cie(entries: &EntryList<'_>) -> bool {
    'entries: for i in 0..entries.len() {
        let entry = entries.entry(i);
        if let Body::Good(fde) = &entry.body {
            if is_long(fde) {
                return true;
            }
        }
    }
    false
}

/// How many entries a share has. There is only one share if there is one worker, or if a CIE is long.
fn share_size(entries: &EntryList<'_>, workers: usize) -> usize
    requires { (1 ≤ workers) × (workers ≤ 64) }
    ensures { 0 < result }
{
    let count = entries.len();
    if workers == 1 || has_long_cie(entries) {
        return count.saturating_add(1);
    }
    (count / (EACH * workers)).saturating_add(1).max(LEAST)
}

/// Decides about the entries of share `k`.
#[tactic(auto, using(unit_workers::proofs::ShareLemmas::share_between))]
fn put_share(
    setting: Setting<'_>,
    progress: &mut Progress,
    entries: &EntryList<'_>,
    size: usize,
    k: usize,
) -> Result<(), OutOfMemory>
    requires { LiesAbove setting.base setting.code.now }
    ensures { OnOk result ((d : Decided) → Shows setting.entry.base progress.old d → Shows setting.entry.base progress.new (with_entries setting.entry.code.now (share size k entries.now) d)) }
{
    let (from, to) = share_bounds(entries.len(), size, k);
    put_range(setting, progress, entries, from, to)
}

/// A job that decides about the entries of a section share by share, for each share as if no range
/// were taken before it.
#[derive(Drop)]
struct Translator<'s, 'a> {
    setting: Setting<'s>,
    entries: &'s EntryList<'a>,
    size: usize,
}

impl<'s, 'a> Model for Translator<'s, 'a> {
    ghost use Rattle.rule_postfix.specs.internal.Deciding.{LiesAbove};
    ghost use Rattle.rule_postfix.specs.internal.Shares.{TranslatorParts};

    ghost Value = { TranslatorParts };

    ghost view = { λ t. record { entries = t.entries.now; code = t.setting.code.now; base = t.setting.base; size = t.size } };

    ghost invariant = { λ t. LiesAbove t.setting.base t.setting.code.now };
}

impl<'s, 'a> Translator<'s, 'a> {
    fn of(setting: Setting<'s>, entries: &'s EntryList<'a>, size: usize) -> Translator<'s, 'a>
        requires { LiesAbove setting.base setting.code.now }
        ensures { result ≡ record { entries = entries.now; code = setting.entry.code.now; base = setting.entry.base; size = size } }
    {
        Translator {
            setting,
            entries,
            size,
        }
    }
}

impl<'s, 'a> UnitJob for Translator<'s, 'a> {
    type Out = Progress;

    type Scratch = ();

    ghost gives = { λ t k progress. Shows t.base progress (with_entries t.code (share t.size k t.entries) none_decided) };

    fn scratch(&self, _alloc: Global) -> Result<(), OutOfMemory> {
        Ok(())
    }

    fn run(&self, alloc: Global, k: usize, _scratch: &mut ()) -> Result<Progress, OutOfMemory> {
        let mut progress = Progress::new(alloc);
        put_share(self.setting, &mut progress, self.entries, self.size, k)?;
        Ok(progress)
    }
}

/// Whether one of `spans` overlaps a taken range.
#[tactic(auto, using(crate::proofs::ShareLemmas::met_here, crate::proofs::ShareLemmas::met_never))]
fn meets_any(taken: &WrittenRanges, spans: &[Span]) -> bool
    ensures { result ≡ list_any (λ range. any_overlap range taken.now) spans.now }
{
    'spans: for k in 0..spans.len() {
        let span = spans[k];
        if taken.meets(span.start(), span.end()) {
            return true;
        }
    }
    false
}

/// Takes more ranges, none of which overlaps a taken one. If none is taken yet, the list is used as a whole.
#[tactic(auto, using(crate::proofs::ShareLemmas::part_apart, crate::proofs::ShareLemmas::all_taken))]
fn take_all(
    alloc: Global,
    taken: &mut WrittenRanges,
    more: WrittenRanges,
) -> Result<(), OutOfMemory>
    requires { list_any (λ range. any_overlap range taken.old) more ≡ false }
    ensures { OnOk result (taken.new ≡ taken.old ++ more) }
{
    if taken.as_slice().is_empty() {
        *taken = more;
        return Ok(());
    }
    let spans = more.as_slice();
    'spans: for k in 0..spans.len() {
        let span = spans[k];
        taken.put(alloc, span.start(), span.end())?;
    }
    Ok(())
}

/// Adds what was decided about share `k`, or decides about its entries anew if one of their ranges overlaps a taken range.
fn join_share(
    progress: &mut Progress,
    translator: &Translator<'_, '_>,
    part: Progress,
    k: usize,
) -> Result<(), OutOfMemory>
    requires { Shows translator.now.base part (with_entries translator.now.code (share translator.now.size k translator.now.entries) none_decided) }
    ensures { OnOk result ((d : Decided) → Shows translator.now.base progress.old d → Shows translator.now.base progress.new (with_entries translator.now.code (share translator.now.size k translator.now.entries) d)) }
{
    if meets_any(&progress.taken, part.taken.as_slice()) {
        return put_share(
            translator.setting,
            progress,
            translator.entries,
            translator.size,
            k,
        );
    }
    let Progress {
        text,
        mut omitted,
        taken,
        ..
    } = part;
    take_all(translator.setting.alloc, &mut progress.taken, taken)?;
    progress.text.append(text)?;
    progress.omitted.append(&mut omitted)?;
    Ok(())
}

/// Adds what was decided about all shares, in their order.
fn join_shares(
    progress: &mut Progress,
    translator: &Translator<'_, '_>,
    mut parts: Vec<Progress>,
) -> Result<(), OutOfMemory>
    requires each { AreInOrder (λ k part. Shows translator.now.base part (with_entries translator.now.code (share translator.now.size k translator.now.entries) none_decided)) parts.items }
    requires all { length translator.now.entries ≤ translator.now.size * length parts.items }
    ensures { OnOk result ((d : Decided) → Shows translator.now.base progress.old d → Shows translator.now.base progress.new (with_entries translator.now.code translator.now.entries d)) }
{
    'shares: for k in 0..parts.len() {
        let part = replace(&mut parts[k], Progress::new(translator.setting.alloc));
        join_share(progress, translator, part, k)?;
    }
    Ok(())
}

/// Decides about the entries of one section in order, with a crew of workers.
pub fn put_entries<R: Threads + Sync>(
    crew: &Crew<'_, R>,
    setting: Setting<'_>,
    progress: &mut Progress,
    entries: &EntryList<'_>,
) -> Result<(), OutOfMemory>
    requires above { LiesAbove setting.base setting.code.now }
    ensures { OnOk result ((d : Decided) → Shows setting.entry.base progress.old d → Shows setting.entry.base progress.new (with_entries setting.entry.code.now entries.now d)) }
{
    let size = share_size(entries, crew.workers());
    let count = (entries.len() / size).saturating_add(1);
    if count as u64 > 1 << 32 {
        return Err(OutOfMemory);
    }
    let translator = Translator::of(setting, entries, size);
    let parts = crew.run(&translator, &NoGate, count)?;
    join_shares(progress, &translator, parts)
}
