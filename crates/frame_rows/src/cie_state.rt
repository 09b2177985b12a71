//! The state after the instructions of a CIE, which are executed once for all of its FDEs.
ghost use Rattle.std.specs.Prelude.{◌≡◌, Ok, Err, Some, None, reverse, MatchResult, IfOk};
ghost use Rattle.sym_edges.specs.Outside.{MatchStop};
ghost use Rattle.frame_rows.specs.Rows.{empty_row, first_fault, cie_context, cie_items, cie_begin, cie_end, left_context, own_begin};
ghost use Rattle.frame_rows.specs.CieLeft.{cie_left};
ghost use Rattle.frame_rows.specs.internal.Held.{context_in};

use crate::held_context::HeldContext;
use crate::machine::{CieContext, Context, Machine};
use crate::row::{COLUMNS, Row, Rule};
use crate::run::run_all;
use frame_entries::Fde;
use std::alloc::Global;
use std::marker::Model;
use sym_edges::{OutOfMemory, Reason, Stop};

/// What the instructions of a CIE leave: the context for the instructions of its FDEs, which has the row, and the row stack.
#[derive(Drop)]
struct Left {
    context: CieContext,
    stack: Vec<Row>,
}

impl Model for Left {
    ghost use Rattle.std.specs.Prelude.{reverse};
    ghost use Rattle.frame_rows.specs.Left.{Left};

    ghost Value = { Left };

    ghost view = { λ l. record { context = l.context; stack = reverse l.stack.items } };
}

/// The state after the instructions of a CIE, or the reason against the first bad one. It is the same for each FDE of the CIE.
#[derive(Drop)]
pub struct CieState {
    left: Result<Left, Reason>,
}

impl Model for CieState {
    ghost use Rattle.std.specs.Prelude.{Result};
    ghost use Rattle.sym_edges.specs.declared.reason.Reason.{Reason};
    ghost use Rattle.frame_rows.specs.Left.{Left};

    ghost Value = { Result Left Reason };

    ghost view = { λ s. s.left };
}

/// The row before all instructions.
#[tactic(auto, unfolding(crate::specs::Rows::empty_row))]
fn empty_row() -> Row
    ensures { result ≡ empty_row }
{
    Row {
        cfa: None,
        rules: [Rule::Rest; COLUMNS],
    }
}

/// The context of an entry's instructions, with the row that its CIE left.
fn context_of(fde: &Fde<'_>, initial: Option<Row>) -> CieContext
    ensures { result ≡ record { code_align = fde.now.code_align; data_align = fde.now.data_align; initial = initial } }
{
    CieContext {
        code_align: fde.code_align,
        data_align: fde.data_align,
        initial,
    }
}

/// Executes the instructions of the CIE of an entry.
#[tactic(auto, unfolding(crate::specs::Rows::cie_context, crate::specs::Rows::cie_items, crate::specs::Rows::cie_begin, crate::specs::Rows::cie_end))]
fn run_cie<'c>(alloc: Global, fde: &Fde<'_>) -> Result<Machine<'c>, Stop<Reason>>
    ensures fault { MatchStop result
        (λ _. first_fault (cie_context fde.now) (cie_items fde.now) (cie_begin fde.now) ≡ None)
        (λ why. first_fault (cie_context fde.now) (cie_items fde.now) (cie_begin fde.now) ≡ Some why)
        (Unit {0}) }
    ensures machine { IfOk result (λ machine. machine ≡ cie_end fde.now) }
{
    let cie = context_of(fde, None);
    let context = Context {
        cie: &cie,
        run: fde.initial_instructions,
    };
    let mut machine = Machine::new(alloc, fde.start, &empty_row(), &[]);
    run_all(
        &mut machine,
        &context,
        fde.encoding,
        0,
        fde.initial_instructions,
    )?;
    Ok(machine)
}

/// What the instructions of the CIE of an entry leave.
#[tactic(auto, using(crate::proofs::LeftLemmas::left_is))]
fn leave(alloc: Global, fde: &Fde<'_>) -> Result<Left, Stop<Reason>>
    ensures { MatchStop result (λ left. cie_left fde.now ≡ Ok left) (λ why. cie_left fde.now ≡ Err why) (Unit {0}) }
{
    let machine = match run_cie(alloc, fde) {
        Ok(machine) => machine,
        Err(stop) => return Err(stop),
    };
    let context = context_of(fde, Some(*machine.row()));
    let stack = machine.into_stack(alloc)?;
    Ok(Left { context, stack })
}

/// The state and the context with which the instructions of an entry begin.
#[derive(Drop)]
pub struct Begun<'c> {
    pub machine: Machine<'c>,
    pub context: HeldContext<'c>,
}

impl CieState {
    /// The state after the instructions of the CIE of an entry.
    pub fn of(alloc: Global, fde: &Fde<'_>) -> Result<CieState, OutOfMemory>
        ensures { IfOk result (λ state. state ≡ cie_left fde.now) }
    {
        match leave(alloc, fde) {
            Ok(left) => Ok(CieState { left: Ok(left) }),
            Err(Stop::Fault(why)) => Ok(CieState { left: Err(why) }),
            Err(Stop::NoMemory) => Err(OutOfMemory),
        }
    }

    /// Begins an entry of the CIE, with the row stack and the context borrowed from here. Allocates
    /// no memory.
    #[inline]
    pub fn begin(&self, alloc: Global, fde: &Fde<'_>) -> Result<Begun<'_>, Reason>
        requires { self.now ≡ cie_left fde.now }
        ensures fault { MatchResult result
            (λ _. first_fault (cie_context fde.now) (cie_items fde.now) (cie_begin fde.now) ≡ None)
            (λ why. first_fault (cie_context fde.now) (cie_items fde.now) (cie_begin fde.now) ≡ Some why) }
        ensures machine { IfOk result (λ begun. begun.machine ≡ own_begin fde.now) }
        ensures context { IfOk result (λ begun. context_in begun.context ≡ left_context fde.now) }
    {
        match &self.left {
            Ok(left) => match &left.context.initial {
                Some(row) => Ok(Begun {
                    machine: Machine::new(alloc, fde.start, row, &left.stack),
                    context: HeldContext::Lent(&left.context),
                }),
                None => unreachable!(),
            },
            Err(why) => Err(*why),
        }
    }

    /// Begins the only entry of the CIE, which takes over the row stack and the context.
    pub fn into_begun<'c>(self, alloc: Global, fde: &Fde<'_>) -> Result<Begun<'c>, Stop<Reason>>
        requires { self ≡ cie_left fde.now }
        ensures fault { MatchStop result
            (λ _. first_fault (cie_context fde.now) (cie_items fde.now) (cie_begin fde.now) ≡ None)
            (λ why. first_fault (cie_context fde.now) (cie_items fde.now) (cie_begin fde.now) ≡ Some why)
            (Unit {0}) }
        ensures machine { IfOk result (λ begun. begun.machine ≡ own_begin fde.now) }
        ensures context { IfOk result (λ begun. context_in begun.context ≡ left_context fde.now) }
    {
        let CieState { left } = self;
        match left {
            Ok(left) => {
                let Left { context, stack } = left;
                match context.initial {
                    Some(row) => Ok(Begun {
                        machine: Machine::with_stack(fde.start, row, stack),
                        context: HeldContext::Own(Box::new(alloc, context)?),
                    }),
                    None => unreachable!(),
                }
            }
            Err(why) => Err(Stop::Fault(why)),
        }
    }
}
