//! `lookup SYM ADDR`.
ghost use Rattle.std.specs.Prelude.{◌≡◌, IfOk};
ghost use Rattle.dumpsyms_cmd.specs.Judgement.{judgement_verdict};
ghost use Rattle.dumpsyms_cmd.specs.commands.Lookup.{records_looked_up};

use crate::judgement::{Judgement, Message, Output};
use std::alloc::Global;
use sym_edges::OutOfMemory;
use sym_lookup::{answer_at, answer_text};
use sym_records::SymFile;

/// What the records of a file name at an address. One address needs no index, since a scan of the records is less work.
pub(crate) fn judge_address(
    alloc: Global,
    file: &SymFile,
    address: u64,
) -> Result<Judgement, OutOfMemory>
    ensures { IfOk result (λ j. judgement_verdict j ≡ records_looked_up address file.now) }
{
    let answer = answer_at(alloc, file, address)?;
    Ok(Judgement {
        status: 0,
        out: Output::Shared(answer_text(alloc, file, &answer)?),
        err: Message::Fixed(b""),
    })
}
