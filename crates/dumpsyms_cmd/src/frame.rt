//! `frame SYM ADDR STATE`.
ghost use Rattle.std.specs.Prelude.{◌≡◌, IfOk};
ghost use Rattle.dumpsyms_cmd.specs.Judgement.{judgement_verdict};
ghost use Rattle.dumpsyms_cmd.specs.commands.Frame.{frame_answer};

use crate::judgement::{Judgement, Message, Output};
use cfi_eval::frame_at;
use stack_text::spell_frame;
use state_file::State;
use std::alloc::Global;
use sym_edges::OutOfMemory;
use sym_records::SymFile;

/// What the rules at an address evaluate to, given a state. One address needs no index, since a scan of the records is less work.
pub(crate) fn judge_frame(
    alloc: Global,
    file: &SymFile,
    address: u64,
    state: &State,
) -> Result<Judgement, OutOfMemory>
    ensures { IfOk result (λ j. judgement_verdict j ≡ frame_answer address file.now state.now) }
{
    let frame = frame_at(alloc, file, address, &state.regs, &state.memory)?;
    Ok(Judgement {
        status: 0,
        out: Output::Bytes(spell_frame(alloc, frame)?),
        err: Message::Fixed(b""),
    })
}
