//! The records of all entries.
ghost use Rattle.std.specs.Prelude.{◌≡◌, IfOk};
ghost use Rattle.range_set.specs.Starts.{AllFrom};
ghost use Rattle.sym_records.specs.Canon.{canon_text};
ghost use Rattle.sym_records.specs.Spelled.{text_bytes};
ghost use Rattle.rule_postfix.specs.FrameMeaning.{KeepsFrames};
ghost use Rattle.rule_postfix.specs.Written.{written, omitted, written_lines};

use crate::omission::Omissions;
use crate::progress::{Progress, Setting};
use crate::shares::put_entries;
use frame_entries::EntryList;
use range_set::Enclosing;
use std::thread::Threads;
use sym_edges::{ListOf, OutOfMemory, Span};
use sym_records::TextPieces;
use unit_workers::Crew;

/// The text of the frame records of a file, and the entries that are left out.
#[derive(Debug, Drop)]
pub struct Frames {
    pub text: TextPieces,
    pub omitted: Omissions,
}

/// Returns the text of the frame records of the written entries, and the entries that are left out,
/// each with its first reason. The entries of the first list come before those of the second;
/// addresses are counted from `base`. Evaluating the text gives what the rows of the written
/// entries give. A crew of workers translates; the result does not depend on their number.
#[tactic(auto, using(crate::proofs::DecidedLemmas::lies_above, crate::proofs::DecidedLemmas::shown_text, crate::proofs::DecidedLemmas::shown_omitted, crate::proofs::MeaningLemmas::entries_kept))]
pub fn translate_all<R: Threads + Sync>(
    crew: &Crew<'_, R>,
    first: &EntryList<'_>,
    second: &EntryList<'_>,
    code: &[Span],
    base: u64,
) -> Result<Frames, OutOfMemory>
    requires from { AllFrom base code.now }
    ensures text { IfOk result (λ frames. text_bytes frames.text ≡ canon_text (written_lines base (written code.now first.now second.now))) }
    ensures means { IfOk result (λ _. KeepsFrames base (written code.now first.now second.now) (written_lines base (written code.now first.now second.now))) }
    ensures omitted { IfOk result (λ frames. frames.omitted ≡ omitted code.now first.now second.now) }
{
    let alloc = crew.alloc();
    let enclosing = Enclosing::of_spans(alloc, code)?;
    let mut progress = Progress::new(alloc);
    let setting = Setting {
        alloc,
        code: &enclosing,
        base,
    };
    put_entries(crew, setting, &mut progress, first)?;
    put_entries(crew, setting, &mut progress, second)?;
    let Progress { text, omitted, .. } = progress;
    Ok(Frames {
        text,
        omitted: ListOf::of(omitted),
    })
}
