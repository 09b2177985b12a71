//! Executes a whole line number program.
ghost use Rattle.std.specs.Prelude.{◌≡◌, IfOk};
ghost use Rattle.line_program.specs.LineRows.{line_rows};
ghost use Rattle.line_program.specs.internal.KeptRows.{or_kept_state};

use crate::fault::Reading;
use crate::machine::Machine;
use crate::opcode::Opcode;
use crate::program::Program;
use crate::scratch::LineScratch;
use leb_cursor::Cursor;
use std::alloc::Global;
use std::mem::replace;

/// The state after a program, with its rows in lists from the scratch.
#[tactic(auto, using(crate::proofs::RunLemmas::run_begins, crate::proofs::RunLemmas::run_more, crate::proofs::RunLemmas::run_ended, crate::proofs::RunLemmas::run_cut, crate::proofs::OpcodeLemmas::opcode_shorter))]
pub fn run_program<'a>(
    alloc: Global,
    scratch: &mut LineScratch,
    program: &Program<'_>,
    mut cursor: Cursor<'a>,
) -> Reading<Machine<'a>>
    ensures { IfOk result (λ run. run ≡ or_kept_state (line_rows program.now cursor.entry)) }
{
    let rows = replace(&mut scratch.rows, Vec::new(alloc));
    let sequences = replace(&mut scratch.sequences, Vec::new(alloc));
    let mut machine = Machine::new(alloc, rows, sequences);
    'opcodes: while !cursor.is_at_end() {
        let opcode = match Opcode::read(&mut cursor, program) {
            Ok(opcode) => opcode,
            Err(fault) => return Ok(Err(fault)),
        };
        machine.carry_out(alloc, &mut scratch.spare, program, opcode)?;
    }
    Ok(Ok(machine))
}
