//! `names SYM`.
ghost use Rattle.std.specs.Prelude.{◌≡◌, IfOk};
ghost use Rattle.dumpsyms_cmd.specs.Judgement.{judgement_verdict};
ghost use Rattle.dumpsyms_cmd.specs.commands.Names.{records_named};

use crate::judgement::{Judgement, Message, Output};
use rust_names::show_all;
use std::alloc::Global;
use sym_edges::OutOfMemory;
use sym_records::SymFile;

/// The records of a file with their names in readable form.
pub(crate) fn judge_names(alloc: Global, file: SymFile) -> Result<Judgement, OutOfMemory>
    ensures { IfOk result (λ j. judgement_verdict j ≡ records_named file) }
{
    Ok(Judgement {
        status: 0,
        out: Output::Records(show_all(alloc, file)?),
        err: Message::Fixed(b""),
    })
}
