//! The rows of an entry, one after the other: only the stepper's row and the row stack are in memory.
ghost use Rattle.std.specs.Prelude.{◌≡◌, ℕ, ◌+◌, ◌<◌, ◌^◌, [], ◌∷◌, None, Some, Bool, true, false, IsTrue, length, IfOk, OnOk, Err, MatchOption};
ghost use Rattle.sym_edges.specs.Outside.{MatchStop};
ghost use Rattle.sym_edges.specs.declared.fault.Stop.TheVariants as stop;
ghost use Rattle.frame_entries.specs.Pointers.{is_encoding};
ghost use Rattle.frame_rows.specs.Instructions.{listed_at};
ghost use Rattle.frame_rows.specs.Rows.{first_fault, left_context, own_context, own_items, own_begin, rows_fault, AreRows};
ghost use Rattle.frame_rows.specs.CieLeft.{cie_left};
ghost use Rattle.frame_rows.specs.Columns.{StayOutside, IsNext};
ghost use Rattle.frame_rows.specs.internal.Held.{context_in};
ghost use Rattle.frame_rows.specs.Standing.{Begins, IsStep, Refuses, Ends};
ghost use Rattle.frame_rows.specs.internal.Walk.{rows_from, rows_past, row_with};

use crate::cie_state::{Begun, CieState};
use crate::columns::Columns;
use crate::entry_rows::check_rows_behind;
use crate::held_context::HeldContext;
use crate::machine::{Context, Machine};
use crate::row::Row;
use crate::run::{run_to_end, run_to_next_row};
use frame_entries::Fde;
use leb_cursor::Cursor;
use std::alloc::Global;
use std::marker::Model;
use sym_edges::{Reason, Stop};

/// A position among the rows of an entry. The instructions up to the next change of the location
/// have been executed. So the location is above the address of the row, or no instruction is left.
#[derive(Drop)]
pub struct Stepper<'c, 'a> {
    machine: Machine<'c>,
    context: HeldContext<'c>,
    cursor: Cursor<'a>,
    run: &'a [u8],
    encoding: u8,
    base: u64,
    address: u64,
    end: u64,
    failed: bool,
    refused: Option<Reason>,
}

impl<'c, 'a> Model for Stepper<'c, 'a> {
    ghost use Rattle.std.specs.Prelude.{IsTrue};
    ghost use Rattle.std.specs.Option.{option_or};
    ghost use Rattle.frame_entries.specs.Pointers.{is_encoding};
    ghost use Rattle.frame_rows.specs.Instructions.{listed_at};
    ghost use Rattle.frame_rows.specs.Rows.{first_fault};
    ghost use Rattle.frame_rows.specs.internal.Held.{context_in};
    ghost use Rattle.frame_rows.specs.Standing.{Standing};
    ghost use Rattle.frame_rows.specs.internal.Walk.{rows_past, row_with};
    ghost use Rattle.frame_rows.specs.Context.{with_run};

    ghost Value = { Standing };

    ghost view = { λ s. record {
      failed = s.failed;
      refused = s.refused;
      fault = option_or s.refused (first_fault (with_run (context_in s.context) s.run.now) (listed_at s.encoding s.base s.cursor) s.machine);
      end = s.end;
      here = row_with s.address s.machine.row;
      later = rows_past s.end (with_run (context_in s.context) s.run.now) (listed_at s.encoding s.base s.cursor) s.machine s.address;
    } };

    ghost invariant = { λ s. IsTrue (is_encoding s.encoding) };
}

/// A stepper at the first row of an entry.
#[inline]
fn start<'c, 'a>(begun: Begun<'c>, fde: &Fde<'a>, end: u64) -> Result<Stepper<'c, 'a>, Stop<Reason>>
    requires machine { begun.machine ≡ own_begin fde.now }
    requires context { context_in begun.context ≡ left_context fde.now }
    requires some { fde.now.start < end }
    ensures fresh { IfOk result (λ s. (s.failed ≡ false) × (s.refused ≡ None)) }
    ensures place { IfOk result (λ s. (s.here.address ≡ fde.now.start) × (s.end ≡ end)) }
    ensures fault { MatchStop result
        (λ s. s.fault ≡ first_fault (own_context fde.now) (own_items fde.now) (own_begin fde.now))
        (λ why. first_fault (own_context fde.now) (own_items fde.now) (own_begin fde.now) ≡ Some why)
        (Unit {0}) }
    ensures rows { IfOk result (λ s. s.here ∷ s.later ≡ rows_from end (own_context fde.now) (own_items fde.now) (own_begin fde.now)) }
{
    let Begun {
        mut machine,
        context,
    } = begun;
    let mut cursor = Cursor::new(fde.instructions, 0, fde.instructions.len());
    let with_run = Context {
        cie: context.get(),
        run: fde.instructions,
    };
    match run_to_next_row(
        &mut machine,
        &mut cursor,
        &with_run,
        fde.encoding,
        fde.instructions_address,
    ) {
        Ok(_) => Ok(Stepper {
            machine,
            context,
            cursor,
            run: fde.instructions,
            encoding: fde.encoding,
            base: fde.instructions_address,
            address: fde.start,
            end,
            failed: false,
            refused: None,
        }),
        Err(stop) => Err(stop),
    }
}

impl<'c, 'a> Stepper<'c, 'a> {
    /// A stepper at the first row of an entry, or the reason for which the entry has no rows. All instructions are checked first.
    #[tactic(auto, using(crate::proofs::EntryLemmas::cie_bad))]
    pub fn new(alloc: Global, fde: &Fde<'a>) -> Result<Stepper<'c, 'a>, Stop<Reason>>
        requires some { 0 < fde.now.size }
        requires fits { fde.now.start + fde.now.size < 2 ^ 64 }
        ensures fresh { MatchStop result (λ s. s.failed ≡ false) (λ _. Unit {0}) (Unit {0}) }
        ensures good { IfOk result (λ s. (s.refused ≡ None) × (s.fault ≡ None)) }
        ensures rows { MatchStop result (λ s. AreRows fde.now (s.here ∷ s.later)) (λ _. Unit {0}) (Unit {0}) }
        ensures exact { MatchStop result (λ _. rows_fault fde.now ≡ None) (λ why. rows_fault fde.now ≡ Some why) (Unit {0}) }
    {
        let state = CieState::of(alloc, fde)?;
        match check_rows_behind(alloc, &state, fde) {
            Ok(()) => {}
            Err(stop) => return Err(stop),
        }
        let begun = match state.into_begun(alloc, fde) {
            Ok(begun) => begun,
            Err(stop) => return Err(stop),
        };
        match start(begun, fde, fde.start + fde.size) {
            Ok(stepper) => Ok(stepper),
            Err(stop) => Err(stop),
        }
    }

    /// A stepper at the first row of an entry, given the state after its CIE, or the reason against a bad instruction up to the next row. The
    /// instructions after that are not checked.
    #[inline]
    #[tactic(auto, using(crate::proofs::EntryLemmas::cie_bad))]
    pub fn begin(
        alloc: Global,
        state: &'c CieState,
        fde: &Fde<'a>,
    ) -> Result<Stepper<'c, 'a>, Stop<Reason>>
        requires behind { state.now ≡ cie_left fde.now }
        requires some { 0 < fde.now.size }
        requires fits { fde.now.start + fde.now.size < 2 ^ 64 }
        ensures fresh { IfOk result (λ s. (s.failed ≡ false) × (s.refused ≡ None)) }
        ensures place { IfOk result (λ s. (s.here.address ≡ fde.now.start) × (s.end ≡ fde.now.start + fde.now.size)) }
        ensures begins { MatchStop result (λ s. Begins fde.now s) (λ why. rows_fault fde.now ≡ Some why) (Unit {0}) }
    {
        let begun = match state.begin(alloc, fde) {
            Ok(begun) => begun,
            Err(why) => return Err(Stop::Fault(why)),
        };
        match start(begun, fde, fde.start + fde.size) {
            Ok(stepper) => Ok(stepper),
            Err(stop) => Err(stop),
        }
    }

    /// The first address at which the row applies.
    pub fn address(&self) -> u64
        ensures { result ≡ self.now.here.address }
    {
        self.address
    }

    /// The row from that address on, up to the next.
    pub fn row(&self) -> &Row
        ensures { result.now ≡ self.now.here.row }
    {
        self.machine.row()
    }

    /// Goes on to the next row, and returns columns outside of which no column has changed; or
    /// stays at the last row, and returns `None`. The step is refused with the reason against a bad
    /// instruction. After memory ran out, each later step reports that again. After a step was
    /// refused, each later step is refused for the same reason.
    pub fn next(&mut self) -> Result<Option<Columns>, Stop<Reason>>
        ensures steps { self.old.failed ≡ false → self.old.refused ≡ None → MatchStop result (λ next. IsNext next self.old self.new) (λ why. Refuses why self.old self.new) (self.new.failed ≡ true) }
        ensures failed { self.old.failed ≡ true → (result ≡ Err stop.NoMemory) × (self.new ≡ self.old) }
        ensures refused { self.old.failed ≡ false → MatchOption self.old.refused (Unit {0}) (λ why. (result ≡ Err (stop.Fault why)) × (self.new ≡ self.old)) }
    {
        if self.failed {
            return Err(Stop::NoMemory);
        }
        if let Some(why) = self.refused {
            return Err(Stop::Fault(why));
        }
        let next = self.machine.address();
        if next <= self.address || self.end <= next {
            return Ok(None);
        }
        self.address = next;
        let context = Context {
            cie: self.context.get(),
            run: self.run,
        };
        match run_to_next_row(
            &mut self.machine,
            &mut self.cursor,
            &context,
            self.encoding,
            self.base,
        ) {
            Ok(columns) => Ok(Some(columns)),
            Err(Stop::Fault(why)) => {
                self.refused = Some(why);
                Err(Stop::Fault(why))
            }
            Err(Stop::NoMemory) => {
                self.failed = true;
                Err(Stop::NoMemory)
            }
        }
    }

    /// Goes on to the next row, and returns true; or stays at the last row, and returns false. The
    /// step is refused with the reason against a bad instruction; there is none if all instructions
    /// were checked before. After memory ran out, each later step reports that again. After a step
    /// was refused, each later step is refused for the same reason.
    pub fn step(&mut self) -> Result<bool, Stop<Reason>>
        ensures steps { self.old.failed ≡ false → self.old.refused ≡ None → MatchStop result (λ more. IsStep more self.old self.new) (λ why. Refuses why self.old self.new) (self.new.failed ≡ true) }
        ensures failed { self.old.failed ≡ true → (result ≡ Err stop.NoMemory) × (self.new ≡ self.old) }
        ensures refused { self.old.failed ≡ false → MatchOption self.old.refused (Unit {0}) (λ why. (result ≡ Err (stop.Fault why)) × (self.new ≡ self.old)) }
    {
        match self.next() {
            Ok(Some(_)) => Ok(true),
            Ok(None) => Ok(false),
            Err(stop) => Err(stop),
        }
    }

    /// Executes the instructions that are left. Afterwards there is no later row. If one of the
    /// instructions is bad, the call is refused with the reason against it.
    pub fn finish(&mut self) -> Result<(), Stop<Reason>>
        requires fresh { self.old.failed ≡ false }
        requires going { self.old.refused ≡ None }
        ensures { MatchStop result (λ _. Ends self.old self.new) (λ why. Refuses why self.old self.new) (self.new.failed ≡ true) }
    {
        let context = Context {
            cie: self.context.get(),
            run: self.run,
        };
        match run_to_end(
            &mut self.machine,
            &mut self.cursor,
            &context,
            self.encoding,
            self.base,
        ) {
            Ok(()) => {
                self.address = self.machine.address();
                Ok(())
            }
            Err(Stop::Fault(why)) => {
                self.refused = Some(why);
                Err(Stop::Fault(why))
            }
            Err(Stop::NoMemory) => {
                self.failed = true;
                Err(Stop::NoMemory)
            }
        }
    }
}
