//! The records of an entry, spelled row after row: an INIT is written when its end is known.
ghost use Rattle.std.specs.Prelude.{◌≡◌, ◌<◌, ◌≤◌, ◌++◌, ◌∷◌, ◌-◌, ◌||◌, [], ℕ, List, true, false, not, None, Some, length, take, IfOk, OnOk};
ghost use Rattle.std.specs.List.{list_any};
ghost use Rattle.sym_edges.specs.Outside.{MatchStop};
ghost use Rattle.frame_rows.specs.Columns.{StayOutside};
ghost use Rattle.frame_rows.specs.Steps.{has_cfa};
ghost use Rattle.sym_rules.specs.Rules.{spelled_rules};
ghost use Rattle.sym_records.specs.Canon.{canon_text, init_front};
ghost use Rattle.rule_postfix.specs.RowRules.{row_rules, some_becomes_unspecified};
ghost use Rattle.frame_rows.specs.declared.row.Row.{Row};
ghost use Rattle.rule_postfix.specs.internal.Writing.{Open, with_row, lines_of};
ghost use Rattle.rule_postfix.specs.internal.Spelling.{IsSpelled, lacks_rule};

use crate::backward_line::BackwardLine;
use crate::change_record::write_change_line;
use crate::long_rules::{add_change_record, add_row_rules, lose_column};
use crate::rules::{LINE, Rows, Unwritten, write_row_rules};
use frame_entries::Fde;
use frame_rows::{Columns, Row, Stepper};
use std::alloc::Global;
use sym_edges::{OutOfMemory, Reason, Stop};

/// The most bytes of an INIT before its rules.
const FRONT: usize = 48;

/// The INIT whose end is not known yet: its start, and the text after its numbers, which has its rules and its changes. Each line is made in `line`.
#[derive(Drop)]
pub struct OpenInit {
    start: u64,
    body: Vec<u8>,
    line: BackwardLine<LINE>,
}

impl OpenInit {
    /// Room for one INIT. Allocates no memory.
    pub fn new(alloc: Global) -> OpenInit {
        OpenInit {
            start: 0,
            body: Vec::new(alloc),
            line: BackwardLine::new(),
        }
    }
}

/// Begins an INIT at a row of an entry.
fn begin(
    alloc: Global,
    fde: &Fde<'_>,
    open: &mut OpenInit,
    address: u64,
    row: &Row,
) -> Result<(), OutOfMemory>
    ensures start { OnOk result (open.new.start ≡ address) }
    ensures body { OnOk result (open.new.body.items ≡ spelled_rules (row_rules fde.now row.now) ++ 10 ∷ []) }
{
    open.start = address;
    open.body.clear();
    match write_row_rules(fde, row, &mut open.line) {
        Ok(()) => open.line.add_to(&mut open.body),
        Err(_) => add_row_rules(alloc, &mut open.body, &mut open.line, fde, row),
    }
}

/// Ends the INIT: adds it and its changes to the text.
#[tactic(auto, using(crate::proofs::SpellingLemmas::init_closed))]
fn close(text: &mut Vec<u8>, open: &OpenInit, end: u64, base: u64) -> Result<(), OutOfMemory>
    requires above { base ≤ open.now.start }
    requires ends { open.now.start ≤ end }
    ensures { OnOk result (text.new.items ≡ text.old.items ++ (init_front (open.now.start - base) (end - open.now.start) ++ open.now.body.items)) }
{
    let mut front = BackwardLine::<FRONT>::new();
    front.put_init(open.start - base, end - open.start);
    front.add_to(text)?;
    text.extend_from_slice(&open.body)?;
    Ok(())
}

/// A row of an entry, the next row, and the address at which the next row begins; records count from `base`.
#[derive(Drop)]
struct RowChange<'r, 'f, 'a> {
    fde: &'f Fde<'a>,
    before: &'r Row,
    after: &'r Row,
    address: u64,
    base: u64,
}

/// Ends the INIT, and begins another at the next row.
fn cut(
    alloc: Global,
    text: &mut Vec<u8>,
    open: &mut OpenInit,
    change: &RowChange<'_, '_, '_>,
) -> Result<(), OutOfMemory>
    requires above { change.now.base ≤ open.old.start }
    requires rises { open.old.start ≤ change.now.address }
    ensures { OnOk result ((front : List ℕ) (before : Row) (o : Open) → some_becomes_unspecified before change.now.after.now ≡ true → IsSpelled front change.now.base text.old.items open.old o → IsSpelled front change.now.base text.new.items open.new (with_row change.now.fde.now change.now.address before change.now.after.now o)) }
{
    close(text, open, change.address, change.base)?;
    begin(alloc, change.fde, open, change.address, change.after)
}

/// Adds the next row, if a rule may have more words than fit into a line.
fn put_long_row(
    alloc: Global,
    text: &mut Vec<u8>,
    open: &mut OpenInit,
    change: &RowChange<'_, '_, '_>,
) -> Result<(), OutOfMemory>
    requires above { change.now.base ≤ open.old.start }
    requires rises { open.old.start ≤ change.now.address }
    ensures { OnOk result ((front : List ℕ) (o : Open) → IsSpelled front change.now.base text.old.items open.old o → IsSpelled front change.now.base text.new.items open.new (with_row change.now.fde.now change.now.address change.now.before.now change.now.after.now o)) }
{
    if lose_column(change.before, change.after) {
        return cut(alloc, text, open, change);
    }
    let rows = Rows {
        fde: change.fde,
        before: change.before,
        after: change.after,
    };
    let address = change.address - change.base;
    add_change_record(alloc, &mut open.body, &mut open.line, address, &rows)
}

/// Adds the next row of an entry: if a column becomes unspecified, another INIT begins; otherwise the changes are spelled. The two rows differ in no
/// column outside `columns`.
fn put_row(
    alloc: Global,
    text: &mut Vec<u8>,
    open: &mut OpenInit,
    columns: Columns,
    change: &RowChange<'_, '_, '_>,
) -> Result<(), OutOfMemory>
    requires alike { StayOutside columns change.now.before.now change.now.after.now }
    requires above { change.now.base ≤ open.old.start }
    requires rises { open.old.start ≤ change.now.address }
    ensures { OnOk result ((front : List ℕ) (o : Open) → IsSpelled front change.now.base text.old.items open.old o → IsSpelled front change.now.base text.new.items open.new (with_row change.now.fde.now change.now.address change.now.before.now change.now.after.now o)) }
{
    let rows = Rows {
        fde: change.fde,
        before: change.before,
        after: change.after,
    };
    let at = change.address - change.base;
    match write_change_line(&rows, columns, at, &mut open.line) {
        Ok(()) => open.line.add_to(&mut open.body),
        Err(Unwritten::Unspecified) => { cut(alloc, text, open, change) }
        Err(Unwritten::Expression) => put_long_row(alloc, text, open, change),
    }
}

/// Ends the last row and its INIT, unless an instruction that comes after the row is bad.
fn end_steps(
    text: &mut Vec<u8>,
    open: &OpenInit,
    stepper: &mut Stepper<'_, '_>,
    end: u64,
    base: u64,
) -> Result<(), Stop<Reason>>
    requires fresh { stepper.old.failed ≡ false }
    requires going { stepper.old.refused ≡ None }
    requires above { base ≤ open.now.start }
    requires ends { open.now.start ≤ end }
    ensures fault { MatchStop result (λ _. stepper.old.fault ≡ None) (λ why. stepper.old.fault ≡ Some why) (Unit {0}) }
    ensures text { MatchStop result
        (λ _. text.new.items ≡ text.old.items ++ (init_front (open.now.start - base) (end - open.now.start) ++ open.now.body.items))
        (λ _. text.new.items ≡ text.old.items)
        (Unit {0}) }
{
    stepper.finish()?;
    close(text, open, end, base)?;
    Ok(())
}

/// Whether this row or a row before it lacks a rule for the CFA.
fn lack_rule(lacking: bool, row: &Row) -> bool
    ensures { result ≡ (lacking || not (has_cfa row.now)) }
{
    lacking || row.cfa.is_none()
}

/// Spells the records of an entry's rows from the stepper's row on, each row compared with the row before it. Returns whether some row lacks a rule
/// for the CFA, or the reason of the first bad instruction; some of the text may be added by then.
pub fn spell_steps(
    alloc: Global,
    fde: &Fde<'_>,
    text: &mut Vec<u8>,
    open: &mut OpenInit,
    stepper: &mut Stepper<'_, '_>,
    end: u64,
    base: u64,
) -> Result<bool, Stop<Reason>>
    requires fresh { stepper.old.failed ≡ false }
    requires going { stepper.old.refused ≡ None }
    requires above { base ≤ stepper.old.here.address }
    requires low { stepper.old.here.address < end }
    requires ends { stepper.old.end ≡ end }
    ensures fault { MatchStop result (λ _. stepper.old.fault ≡ None) (λ why. stepper.old.fault ≡ Some why) (Unit {0}) }
    ensures lacking { IfOk result (λ lacking. lacking ≡ list_any lacks_rule (stepper.old.here ∷ stepper.old.later)) }
    ensures text { MatchStop result
        (λ _. text.new.items ≡ text.old.items ++ canon_text (lines_of fde.now base end (stepper.old.here ∷ stepper.old.later)))
        (λ _. take (length text.old.items) text.new.items ≡ text.old.items)
        (Unit {0}) }
{
    let mut before = *stepper.row();
    let mut lacking = lack_rule(false, &before);
    begin(alloc, fde, open, stepper.address(), &before)?;
    'rows: loop {
        let next = match stepper.next() {
            Ok(next) => next,
            Err(stop) => return Err(stop),
        };
        let Some(columns) = next else {
            return match end_steps(text, open, stepper, end, base) {
                Ok(()) => Ok(lacking),
                Err(stop) => Err(stop),
            };
        };
        let address = stepper.address();
        let row = stepper.row();
        let change = RowChange {
            fde,
            before: &before,
            after: row,
            address,
            base,
        };
        put_row(alloc, text, open, columns, &change)?;
        before.follow(columns, row);
        lacking = lack_rule(lacking, row);
    }
}
