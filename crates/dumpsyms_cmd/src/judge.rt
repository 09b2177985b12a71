//! `judge ELF SYM`, given the records of both files.
ghost use Rattle.std.specs.Prelude.{◌≡◌, IfOk};
ghost use Rattle.dumpsyms_cmd.specs.Judgement.{judgement_verdict};
ghost use Rattle.dumpsyms_cmd.specs.commands.Judge.{aspect_word, ruling_verdict, IsRuled};

use crate::judgement::{Judgement, Message, Output};
use stack_text::{add_hex, short_name};
use std::alloc::Global;
use sym_edges::OutOfMemory;
use sym_judge::{Aspect, Ruling, judge};
use sym_records::{ByteText, SymFile};

/// The word for what differs between two files.
fn aspect_word(aspect: Aspect) -> &'static [u8]
    ensures { result.now ≡ aspect_word aspect }
{
    match aspect {
        Aspect::Func => b"func",
        Aspect::Chain => b"chain",
        Aspect::Line => b"line",
        Aspect::Init => b"init",
        Aspect::Cfa => b"cfa",
        Aspect::Ra => b"ra",
        Aspect::Reg(register) => short_name(register),
    }
}

/// The line with an address and the word for what differs there.
fn unlike_line(alloc: Global, address: u64, aspect: Aspect) -> Result<ByteText, OutOfMemory>
    ensures { IfOk result (λ text. text ≡ (ruling_verdict (Ruling.No address aspect)).out) }
{
    let mut text = Vec::from_slice(alloc, b"no ")?;
    add_hex(&mut text, address)?;
    text.push(b' ')?;
    text.extend_from_slice(aspect_word(aspect))?;
    text.push(b'\n')?;
    Ok(ByteText::of(text))
}

/// The judgement for a ruling.
fn ruled(alloc: Global, ruling: Ruling) -> Result<Judgement, OutOfMemory>
    ensures { IfOk result (λ j. judgement_verdict j ≡ ruling_verdict ruling) }
{
    match ruling {
        Ruling::Yes => Ok(Judgement {
            status: 0,
            out: Output::Bytes(ByteText::of(Vec::from_slice(alloc, b"yes\n")?)),
            err: Message::Fixed(b""),
        }),
        Ruling::No { address, aspect } => Ok(Judgement {
            status: 1,
            out: Output::Bytes(unlike_line(alloc, address, aspect)?),
            err: Message::Fixed(b""),
        }),
    }
}

/// The judgement on two files.
#[tactic(auto, using(crate::proofs::JudgeLemmas::ruled_by))]
pub(crate) fn judge_files(
    alloc: Global,
    own: &SymFile,
    other: &SymFile,
) -> Result<Judgement, OutOfMemory>
    ensures { IfOk result (λ j. IsRuled own.now other.now (judgement_verdict j)) }
{
    let ruling = judge(alloc, own, other)?;
    ruled(alloc, ruling)
}
