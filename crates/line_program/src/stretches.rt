//! The sequences that count, and their addresses as stretches.
ghost use Rattle.std.specs.Prelude.{◌≡◌, ℕ, ◌^◌, ◌<◌, None, if◌then◌else◌, length, OnOk};
ghost use Rattle.range_set.specs.Enclosing.{encloses};
ghost use Rattle.step_maps.specs.Covers.{AreStretches};
ghost use Rattle.line_program.specs.LineAt.{covers, row_at, row_in};
ghost use Rattle.line_program.specs.internal.Painting.{back_row, counted_row, stretches_from};

use crate::machine::LineSequence;
use crate::row::Row;
use crate::row_order::{CountedSequence, least_address, sort_rows};
use range_set::Enclosing;
use step_maps::Stretch;
use sym_edges::OutOfMemory;

/// The greatest number of lists of rows whose memory is kept for the next table.
const SPARE: usize = 16;

/// Adds a sequence to `kept`, with its rows in order, if it counts.
#[tactic(auto, using(crate::proofs::CountLemmas::not_kept, crate::proofs::CountLemmas::not_code))]
fn count_sequence(
    code: &Enclosing,
    sequence: LineSequence,
    kept: &mut Vec<CountedSequence>,
) -> Result<(), OutOfMemory>
    ensures { OnOk result ((a : ℕ) → back_row None kept.new.items a ≡ (if covers (encloses code.now) sequence a then row_at sequence.rows a else back_row None kept.old.items a)) }
{
    let LineSequence { mut rows, end } = sequence;
    let start = match least_address(rows.as_slice()) {
        Some(start) => start,
        None => return Ok(()),
    };
    if end <= start {
        return Ok(());
    }
    if !code.encloses(start, end) {
        return Ok(());
    }
    sort_rows(&mut rows)?;
    kept.push(CountedSequence {
        first: start,
        last: end - 1,
        rows,
    })?;
    Ok(())
}

/// Replaces `kept` by the sequences that count, in their order.
pub fn count_sequences(
    code: &Enclosing,
    sequences: &mut Vec<LineSequence>,
    kept: &mut Vec<CountedSequence>,
) -> Result<(), OutOfMemory>
    ensures { OnOk result ((a : ℕ) → counted_row kept.new.items a ≡ row_in (encloses code.now) sequences.old.items a) }
{
    kept.clear();
    'sequences: while let Some(sequence) = sequences.pop() {
        count_sequence(code, sequence, kept)?;
    }
    kept.reverse();
    Ok(())
}

/// Removes the sequences, but keeps some of their lists of rows as spare memory.
pub fn keep_lists(
    kept: &mut Vec<CountedSequence>,
    spare: &mut Vec<Vec<Row>>,
) -> Result<(), OutOfMemory> {
    for turn in 0..SPARE {
        let Some(sequence) = kept.pop() else {
            return Ok(());
        };
        let CountedSequence {
            first: _,
            last: _,
            rows,
        } = sequence;
        spare.push(rows)?;
    }
    kept.clear();
    Ok(())
}

/// Replaces `stretches` by the addresses of the sequences that count. The index of a stretch is
/// that of its sequence.
#[tactic(auto, using(crate::proofs::TableLemmas::stretches_begin, crate::proofs::TableLemmas::stretches_more, crate::proofs::TableLemmas::stretches_all, step_maps::proofs::StretchLemmas::stretches_push))]
pub fn put_stretches(
    stretches: &mut Vec<Stretch>,
    kept: &[CountedSequence],
) -> Result<(), OutOfMemory>
    requires { length kept.now < 2 ^ 32 }
    ensures same { OnOk result (stretches.new.items ≡ stretches_from 0 kept.now) }
    ensures some { OnOk result (AreStretches stretches.new.items) }
{
    stretches.clear();
    stretches.reserve(kept.len())?;
    for (index, sequence) in kept.iter().enumerate() {
        stretches.push(Stretch {
            first: sequence.first,
            last: sequence.last,
            index: index as u32,
            class: 0,
        })?;
    }
    Ok(())
}
