//! `check SYM`.
ghost use Rattle.std.specs.Prelude.{◌≡◌, ◌++◌, IfOk, OnOk};
ghost use Rattle.dumpsyms_cmd.specs.Judgement.{judgement_verdict};
ghost use Rattle.dumpsyms_cmd.specs.commands.Check.{finding_line, findings_text, records_checked};

use crate::judgement::{Judgement, Message, Output};
use itoa::Buffer;
use stack_text::add_line;
use std::alloc::{AllocError, Global};
use sym_edges::OutOfMemory;
use sym_findings::{Finding, findings};
use sym_records::{ByteText, SymFile};

/// The text if nothing was found.
const NO_FINDINGS: &[u8] = b"no findings\n";

/// Adds the line for a finding.
fn add_finding(text: &mut Vec<u8>, finding: &Finding) -> Result<(), AllocError>
    ensures { OnOk result (text.new.items ≡ text.old.items ++ finding_line finding.now) }
{
    let mut buffer = Buffer::new();
    let number = finding.index as u128 + 1;
    let words = [b"record".as_slice(), buffer.format(number).as_bytes()];
    add_line(text, finding.kind.word(), &words)
}

/// Adds the lines for findings.
fn add_findings(text: &mut Vec<u8>, found: &[Finding]) -> Result<(), AllocError>
    ensures { OnOk result (text.new.items ≡ text.old.items ++ findings_text found.now) }
{
    'lines: for finding in found {
        add_finding(text, finding)?;
    }
    Ok(())
}

/// What a checker finds in the records of a file.
#[tactic(auto, using(crate::proofs::CheckLemmas::none_found, crate::proofs::CheckLemmas::some_found))]
pub(crate) fn judge_records(alloc: Global, file: &SymFile) -> Result<Judgement, OutOfMemory>
    ensures { IfOk result (λ j. judgement_verdict j ≡ records_checked file.now) }
{
    let found = findings(alloc, file)?;
    if found.is_empty() {
        return Ok(Judgement {
            status: 0,
            out: Output::Bytes(ByteText::of(Vec::from_slice(alloc, NO_FINDINGS)?)),
            err: Message::Fixed(b""),
        });
    }
    let mut text = Vec::new(alloc);
    add_findings(&mut text, found.as_slice())?;
    Ok(Judgement {
        status: 1,
        out: Output::Bytes(ByteText::of(text)),
        err: Message::Fixed(b""),
    })
}
