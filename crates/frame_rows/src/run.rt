//! Runs of instructions: the one loop that reads and executes them, up to the next row and to the end.
ghost use Rattle.std.specs.Prelude.{◌≡◌, ℕ, ◌<◌, ◌∷◌, None, Some, IsTrue, length, IfOk, OnOk};
ghost use Rattle.sym_edges.specs.Outside.{MatchStop};
ghost use Rattle.frame_entries.specs.Pointers.{is_encoding};
ghost use Rattle.frame_rows.specs.Instructions.{instructions, listed_at};
ghost use Rattle.frame_rows.specs.Rows.{all_stepped, first_fault};
ghost use Rattle.frame_rows.specs.Columns.{StayOutside};
ghost use Rattle.frame_rows.specs.internal.Walk.{rows_from, rows_past, row_with};

use crate::columns::Columns;
use crate::instruction::Instruction;
use crate::machine::{Context, Machine};
use leb_cursor::Cursor;
use sym_edges::{Reason, Stop};

/// Executes the instructions up to the first that advances the location.
pub fn run_to_next_row(
    machine: &mut Machine<'_>,
    cursor: &mut Cursor<'_>,
    context: &Context<'_>,
    encoding: u8,
    base: u64,
) -> Result<Columns, Stop<Reason>>
    requires known { IsTrue (is_encoding encoding) }
    ensures fault { MatchStop result
        (λ _. first_fault context.now (listed_at encoding base cursor.new) machine.new ≡ first_fault context.now (listed_at encoding base cursor.old) machine.old)
        (λ why. first_fault context.now (listed_at encoding base cursor.old) machine.old ≡ Some why)
        (Unit {0}) }
    ensures state { OnOk result (all_stepped context.now (listed_at encoding base cursor.new) machine.new ≡ all_stepped context.now (listed_at encoding base cursor.old) machine.old) }
    ensures stays { IfOk result (λ columns. StayOutside columns machine.old.row machine.new.row) }
    ensures rows { OnOk result ((end : ℕ) → machine.old.address < end →
        rows_from end context.now (listed_at encoding base cursor.old) machine.old
        ≡ row_with machine.old.address machine.new.row ∷ rows_past end context.now (listed_at encoding base cursor.new) machine.new machine.old.address) }
    ensures fewer { OnOk result (0 < length cursor.old.bytes → length cursor.new.bytes < length cursor.old.bytes) }
{
    let address = machine.address();
    let mut columns = Columns::none();
    'turns: while !cursor.is_at_end() {
        let instruction = match Instruction::read(cursor, encoding, base) {
            Ok(instruction) => instruction,
            Err(why) => return Err(Stop::Fault(why)),
        };
        columns = columns.join(instruction.touched());
        match instruction.step(machine, context) {
            Ok(()) => {}
            Err(stop) => return Err(stop),
        }
        if address < machine.address() {
            return Ok(columns);
        }
    }
    Ok(columns)
}

/// Executes all instructions that are left.
pub fn run_to_end(
    machine: &mut Machine<'_>,
    cursor: &mut Cursor<'_>,
    context: &Context<'_>,
    encoding: u8,
    base: u64,
) -> Result<(), Stop<Reason>>
    requires known { IsTrue (is_encoding encoding) }
    ensures fault { MatchStop result
        (λ _. first_fault context.now (listed_at encoding base cursor.old) machine.old ≡ None)
        (λ why. first_fault context.now (listed_at encoding base cursor.old) machine.old ≡ Some why)
        (Unit {0}) }
    ensures state { OnOk result (machine.new ≡ all_stepped context.now (listed_at encoding base cursor.old) machine.old) }
    ensures ended { OnOk result (length cursor.new.bytes ≡ 0) }
{
    'rest: while !cursor.is_at_end() {
        let _columns = run_to_next_row(machine, cursor, context, encoding, base)?;
    }
    Ok(())
}

/// Executes the instructions of a run of bytes; `base` is the address of its first byte.
pub fn run_all(
    machine: &mut Machine<'_>,
    context: &Context<'_>,
    encoding: u8,
    base: u64,
    bytes: &[u8],
) -> Result<(), Stop<Reason>>
    requires known { IsTrue (is_encoding encoding) }
    ensures fault { MatchStop result
        (λ _. first_fault context.now (instructions encoding base bytes.now) machine.old ≡ None)
        (λ why. first_fault context.now (instructions encoding base bytes.now) machine.old ≡ Some why)
        (Unit {0}) }
    ensures state { OnOk result (machine.new ≡ all_stepped context.now (instructions encoding base bytes.now) machine.old) }
{
    let mut cursor = Cursor::new(bytes, 0, bytes.len());
    run_to_end(machine, &mut cursor, context, encoding, base)
}
