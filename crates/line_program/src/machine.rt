//! Executes the opcodes of a line number program.
ghost use Rattle.std.specs.Prelude.{◌≡◌, [], ◌∷◌, ◌++◌, IfOk, OnOk};
ghost use Rattle.line_program.specs.declared.opcode.Opcode.TheVariants.{EndSequence};
ghost use Rattle.line_program.specs.LineRows.{first_state, row_of, advanced, line_on};
ghost use Rattle.line_program.specs.internal.KeptRows.{kept_row, carried_kept};

use crate::file_entry::FileEntry;
use crate::opcode::Opcode;
use crate::program::Program;
use crate::row::Row;
use std::alloc::Global;
use std::marker::Model;
use sym_edges::OutOfMemory;

/// A sequence of rows, and the address after its last instruction.
#[derive(Drop)]
pub struct LineSequence {
    pub rows: Vec<Row>,
    pub end: u64,
}

impl Model for LineSequence {
    ghost use Rattle.line_program.specs.LineRows.{Sequence};

    ghost Value = { Sequence };

    ghost view = { λ s. record { rows = s.rows.items; end = s.end } };
}

/// The state between two opcodes. The list of rows is reused for the next sequence.
#[derive(Drop)]
pub struct Machine<'a> {
    address: u64,
    file: u64,
    line: u32,
    rows: Vec<Row>,
    sequences: Vec<LineSequence>,
    files: Vec<FileEntry<'a>>,
}

impl<'a> Model for Machine<'a> {
    ghost use Rattle.line_program.specs.LineRows.{State};

    ghost Value = { State };

    ghost view = { λ m. record {
      registers = record { address = m.address; file = m.file; line = m.line };
      rows = m.rows.items;
      sequences = m.sequences.items;
      files = m.files.items;
    } };
}

/// A copy of rows, in an old list if there is one.
fn copy_rows(
    alloc: Global,
    spare: &mut Vec<Vec<Row>>,
    rows: &[Row],
) -> Result<Vec<Row>, OutOfMemory>
    ensures { IfOk result (λ copy. copy.items ≡ rows.now) }
{
    let mut copy = match spare.pop() {
        Some(list) => list,
        None => Vec::new(alloc),
    };
    copy.clear();
    copy.extend_from_slice(rows)?;
    Ok(copy)
}

/// An address, advanced by `count` instructions.
#[inline]
#[tactic(auto, using(crate::proofs::NumberLemmas::sums))]
fn advance(program: &Program<'_>, address: u64, count: u64) -> u64
    ensures { result ≡ advanced program.now address count }
{
    address.wrapping_add(u64::from(program.minimum_length).wrapping_mul(count))
}

/// A line, advanced by a number that may be negative.
#[inline]
#[tactic(auto, using(crate::proofs::NumberLemmas::line_goes))]
fn advance_line(line: u32, by: i64) -> u32
    ensures { result ≡ line_on line by }
{
    let sum = u128::from(line) + u128::from(by.cast_unsigned());
    (sum % (1 << 32)) as u32
}

impl<'a> Machine<'a> {
    /// The state before the first opcode. The given lists are emptied and reused.
    pub fn new(alloc: Global, mut rows: Vec<Row>, mut sequences: Vec<LineSequence>) -> Machine<'a>
        ensures { result ≡ first_state }
    {
        rows.clear();
        sequences.clear();
        Machine {
            address: 0,
            file: 1,
            line: 1,
            rows,
            sequences,
            files: Vec::new(alloc),
        }
    }

    /// The sequences that have ended, the files that were defined, and the list in which rows were gathered.
    pub fn into_parts(self) -> (Vec<LineSequence>, Vec<FileEntry<'a>>, Vec<Row>)
        ensures sequences { result.0.items ≡ self.entry.sequences }
        ensures files { result.1.items ≡ self.entry.files }
    {
        let Machine {
            address: _,
            file: _,
            line: _,
            rows,
            sequences,
            files,
        } = self;
        (sequences, files, rows)
    }

    /// Adds the row of the registers. A file number above 2^32 - 1 is stored as 2^32 - 1; no table has that many files.
    #[inline]
    fn push_row(&mut self) -> Result<(), OutOfMemory>
        ensures { OnOk result (self.new ≡ record self.old { rows = self.old.rows ++ kept_row (row_of self.old.registers) ∷ [] }) }
    {
        let file = if self.file < u64::from(u32::MAX) {
            self.file as u32
        } else {
            u32::MAX
        };
        self.rows.push(Row {
            address: self.address,
            file,
            line: self.line,
        })?;
        Ok(())
    }

    /// Ends the sequence and begins another. The rows of the ended one may be stored in a spare
    /// list.
    #[tactic(auto, unfolding(crate::specs::internal::KeptRows::carried_kept, crate::specs::LineRows::carried, crate::specs::LineRows::moved))]
    fn end_sequence(
        &mut self,
        alloc: Global,
        spare: &mut Vec<Vec<Row>>,
        program: &Program<'_>,
    ) -> Result<(), OutOfMemory>
        ensures { OnOk result (self.new ≡ carried_kept program.now EndSequence self.old) }
    {
        let rows = copy_rows(alloc, spare, self.rows.as_slice())?;
        self.sequences.push(LineSequence {
            rows,
            end: self.address,
        })?;
        self.rows.clear();
        self.address = 0;
        self.file = 1;
        self.line = 1;
        Ok(())
    }

    /// Executes an opcode.
    #[inline]
    #[tactic(auto, unfolding(crate::specs::internal::KeptRows::carried_kept, crate::specs::LineRows::carried, crate::specs::LineRows::moved))]
    pub fn carry_out(
        &mut self,
        alloc: Global,
        spare: &mut Vec<Vec<Row>>,
        program: &Program<'_>,
        opcode: Opcode<'a>,
    ) -> Result<(), OutOfMemory>
        ensures { OnOk result (self.new ≡ carried_kept program.now opcode.entry self.old) }
    {
        match opcode {
            Opcode::Special { adjusted } => {
                let (count, rest) = program.divide(adjusted);
                let by = i64::from(program.line_base) + i64::from(rest);
                self.address = advance(program, self.address, u64::from(count));
                self.line = advance_line(self.line, by);
                self.push_row()?;
            }
            Opcode::Copy => {
                self.push_row()?;
            }
            Opcode::AdvancePc { by } => {
                self.address = advance(program, self.address, by);
            }
            Opcode::AdvanceLine { by } => {
                self.line = advance_line(self.line, by);
            }
            Opcode::SetFile { file } => {
                self.file = file;
            }
            Opcode::ConstAddPc => {
                let count = u64::from((255 - program.opcode_base) / program.line_range);
                self.address = advance(program, self.address, count);
            }
            Opcode::FixedAdvancePc { by } => {
                self.address = self.address.wrapping_add(u64::from(by));
            }
            Opcode::EndSequence => {
                self.end_sequence(alloc, spare, program)?;
            }
            Opcode::SetAddress { address } => {
                self.address = address;
            }
            Opcode::DefineFile(file) => {
                self.files.push(file)?;
            }
            _ => {}
        }
        Ok(())
    }
}
