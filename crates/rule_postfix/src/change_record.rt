//! A record of changes, written into a line.
ghost use Rattle.std.specs.Prelude.{◌≡◌, true, false, MatchResult, OnOk};
ghost use Rattle.frame_rows.specs.Columns.{StayOutside};
ghost use Rattle.sym_records.specs.Canon.{canon_text};
ghost use Rattle.rule_postfix.specs.RowRules.{changed_rules, some_becomes_unspecified};
ghost use Rattle.rule_postfix.specs.FrameLines.{change};
ghost use Rattle.rule_postfix.specs.internal.Backward.{IfLost};

use crate::backward_line::BackwardLine;
use crate::rules::{LINE, Rows, Unwritten, write_changes};
use frame_rows::Columns;

/// Empties the line and writes a record of the changes between two rows of an entry into it;
/// without changes it stays empty. Refuses if a column becomes unspecified, or if one of the rules
/// is an expression. The rows differ in no column outside `columns`.
#[tactic(auto, using(crate::proofs::SpellingLemmas::no_change, crate::proofs::SpellingLemmas::some_change))]
pub fn write_change_line(
    rows: &Rows<'_, '_, '_>,
    columns: Columns,
    address: u64,
    line: &mut BackwardLine<LINE>,
) -> Result<(), Unwritten>
    requires alike { StayOutside columns rows.now.before.now rows.now.after.now }
    ensures kept { MatchResult result (λ _. some_becomes_unspecified rows.now.before.now rows.now.after.now ≡ false) (IfLost rows.now.before.now rows.now.after.now) }
    ensures written { OnOk result (line.new ≡ canon_text (change address (changed_rules rows.now.fde.now rows.now.before.now rows.now.after.now))) }
{
    line.clear();
    line.put_byte(b'\n');
    match write_changes(rows, columns, line) {
        Ok(()) => {}
        Err(why) => return Err(why),
    }
    if line.len() == 1 {
        line.clear();
    } else {
        line.put_change(address);
    }
    Ok(())
}
