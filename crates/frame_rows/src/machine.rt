//! The state that instructions change, and each change.
ghost use Rattle.std.specs.Prelude.{◌≡◌, ◌+◌, ◌*◌, [], ◌∷◌, Some, None, not, true, false, nat_lt, ◌==◌, ◌||◌, is_some, reverse, MatchOption, MatchResult, IfOk, OnOk};
ghost use Rattle.sym_edges.specs.declared.reason.Reason.TheVariants as reason;
ghost use Rattle.frame_rows.specs.declared.row.Rule.TheVariants as rule;
ghost use Rattle.sym_edges.specs.Outside.{MatchStop};
ghost use Rattle.sym_edges.specs.Results.{unless};
ghost use Rattle.std.specs.Option.{option_or};
ghost use Rattle.frame_rows.specs.Steps.{scaled, moved, on_row, put_rule, put_cfa, put_cfa_expr, place_of_block, can_say, expr_fault, column_expr_fault, put_register, put_offset, move_fault, register_fault, part_fault, rule_behind, has_remembered, top_or, under};

use crate::instruction::Block;
use crate::row::{COLUMNS, CfaRule, Row, Rule};
use expr_steps::{Place, find_standing};
use std::alloc::{AllocError, Global};
use std::marker::Model;
use sym_edges::{Reason, Stop};

/// The context of instructions: the code and the data alignment factor of the CIE and, after the CIE's instructions, the row that they left.
#[derive(Clone, Copy)]
pub struct CieContext {
    pub code_align: u64,
    pub data_align: i64,
    pub initial: Option<Row>,
}

/// The context of the instructions of a run: that of the CIE, and the run, which contains their expressions.
#[derive(Drop)]
pub struct Context<'c> {
    pub cie: &'c CieContext,
    pub run: &'c [u8],
}

impl<'c> Model for Context<'c> {
    ghost use Rattle.frame_rows.specs.Context.{Context, with_run};

    ghost Value = { Context };

    ghost view = { λ c. with_run c.cie.now c.run.now };
}

impl<'c> Context<'c> {
    /// The product of a factored offset and the data alignment factor, modulo 2^64.
    pub fn scale(&self, factored: i64) -> i64
        ensures { result ≡ scaled self.now factored }
    {
        factored.wrapping_mul(self.cie.data_align)
    }

    /// The place of an expression of the run, if rule text can express it. `over_cfa` says that the
    /// evaluation may begin with the CFA on the stack.
    #[inline(never)]
    #[tactic(auto, unfolding(crate::specs::Steps::can_say, expr_steps::specs::Places::place_of))]
    fn find_expression(&self, block: Block, over_cfa: bool) -> Option<Place>
        ensures { MatchOption result (can_say over_cfa self.now block ≡ false) (λ place. (can_say over_cfa self.now block ≡ true) × (place ≡ place_of_block self.now block)) }
    {
        let place = Place::of(self.cie.initial.is_some(), block.start, block.len)?;
        find_standing(place.bytes(self.run, self.run), over_cfa)?;
        Some(place)
    }
}

/// The location, the row there, and the row stack of remembered rows. The rows at the bottom of the
/// row stack, which a CIE left, are borrowed.
#[derive(Drop)]
pub struct Machine<'c> {
    address: u64,
    row: Row,
    stack: Vec<Row>,
    bottom: &'c [Row],
}

impl<'c> Model for Machine<'c> {
    ghost use Rattle.std.specs.Prelude.{reverse, ◌++◌};
    ghost use Rattle.frame_rows.specs.Machine.{Machine};

    ghost Value = { Machine };

    ghost view = { λ m. record { address = m.address; row = m.row; stack = reverse m.stack.items ++ reverse m.bottom.now } };
}

/// A register of x86-64 by its number.
#[tactic(auto, unfolding(crate::specs::Steps::register_fault))]
fn register_of(number: u64) -> Result<u8, Reason>
    ensures { MatchResult result (λ register. (register ≡ number) × (register_fault number ≡ None)) (λ why. register_fault number ≡ Some why) }
{
    if number < 16 {
        Ok(number as u8)
    } else {
        Err(Reason::Register)
    }
}

impl<'c> Machine<'c> {
    /// The state at an address, with a row and with remembered rows that are borrowed; of these the
    /// last in the list was remembered last. Allocates no memory.
    pub fn new(alloc: Global, address: u64, row: &Row, bottom: &'c [Row]) -> Machine<'c>
        ensures { result ≡ record { address = address; row = row.now; stack = reverse bottom.now } }
    {
        Machine {
            address,
            row: *row,
            stack: Vec::new(alloc),
            bottom,
        }
    }

    /// The state at an address, with a row and with remembered rows of its own; of these the last
    /// in the list was remembered last.
    pub fn with_stack(address: u64, row: Row, stack: Vec<Row>) -> Machine<'c>
        ensures { result ≡ record { address = address; row = row; stack = reverse stack.items } }
    {
        Machine {
            address,
            row,
            stack,
            bottom: &[],
        }
    }

    /// The remembered rows; the last in the list was remembered last.
    pub fn into_stack(self, alloc: Global) -> Result<Vec<Row>, AllocError>
        ensures { IfOk result (λ rows. reverse rows.items ≡ self.entry.stack) }
    {
        let Machine { stack, bottom, .. } = self;
        let mut rows = Vec::from_slice(alloc, bottom)?;
        rows.extend_from_slice(&stack)?;
        Ok(rows)
    }

    pub fn address(&self) -> u64
        ensures { result ≡ self.now.address }
    {
        self.address
    }

    pub fn row(&self) -> &Row
        ensures { result.now ≡ self.now.row }
    {
        &self.row
    }

    /// Sets another rule for a column; columns above 16 are ignored.
    #[tactic(auto, unfolding(crate::specs::Steps::put_rule))]
    pub fn put_rule(&mut self, column: u64, rule: Rule)
        ensures { self.new ≡ on_row (put_rule column rule) self.old }
    {
        if column < COLUMNS as u64 {
            self.row.rules[column as usize] = rule;
        }
    }

    /// Sets a CFA rule of a register and an offset.
    #[tactic(auto, unfolding(crate::specs::Steps::put_cfa))]
    pub fn define_cfa(&mut self, register: u64, offset: i64) -> Result<(), Stop<Reason>>
        ensures { MatchStop result
            (λ _. (register_fault register ≡ None) × (self.new ≡ on_row (put_cfa register offset) self.old))
            (λ why. register_fault register ≡ Some why)
            (Unit {0}) }
    {
        let register = match register_of(register) {
            Ok(register) => register,
            Err(why) => return Err(Stop::Fault(why)),
        };
        self.row.cfa = Some(CfaRule::Base { register, offset });
        Ok(())
    }

    /// Sets a CFA rule of an expression.
    #[tactic(auto, unfolding(crate::specs::Steps::put_cfa_expr))]
    pub fn define_cfa_by(&mut self, context: &Context<'_>, block: Block) -> Result<(), Stop<Reason>>
        ensures { MatchStop result
            (λ _. (expr_fault false context.now block ≡ None) × (self.new ≡ on_row (put_cfa_expr (place_of_block context.now block)) self.old))
            (λ why. expr_fault false context.now block ≡ Some why)
            (Unit {0}) }
    {
        match context.find_expression(block, false) {
            Some(place) => {
                self.row.cfa = Some(CfaRule::Expr { place });
                Ok(())
            }
            None => Err(Stop::Fault(Reason::Expression)),
        }
    }

    /// Sets another register in the CFA rule.
    #[tactic(auto, unfolding(crate::specs::Steps::put_register))]
    pub fn change_register(&mut self, register: u64) -> Result<(), Stop<Reason>>
        ensures { MatchStop result
            (λ _. (option_or (register_fault register) (part_fault self.old) ≡ None) × (self.new ≡ on_row (put_register register) self.old))
            (λ why. option_or (register_fault register) (part_fault self.old) ≡ Some why)
            (Unit {0}) }
    {
        let register = match register_of(register) {
            Ok(register) => register,
            Err(why) => return Err(Stop::Fault(why)),
        };
        match self.row.cfa {
            Some(CfaRule::Base { offset, .. }) => {
                self.row.cfa = Some(CfaRule::Base { register, offset });
                Ok(())
            }
            _ => Err(Stop::Fault(Reason::State)),
        }
    }

    /// Sets another offset in the CFA rule.
    #[tactic(auto, unfolding(crate::specs::Steps::put_offset))]
    pub fn change_offset(&mut self, offset: i64) -> Result<(), Stop<Reason>>
        ensures { MatchStop result
            (λ _. (part_fault self.old ≡ None) × (self.new ≡ on_row (put_offset offset) self.old))
            (λ why. part_fault self.old ≡ Some why)
            (Unit {0}) }
    {
        match self.row.cfa {
            Some(CfaRule::Base { register, .. }) => {
                self.row.cfa = Some(CfaRule::Base { register, offset });
                Ok(())
            }
            _ => Err(Stop::Fault(Reason::State)),
        }
    }

    /// A location instruction that moves by `delta` units of code.
    pub fn advance(&mut self, context: &Context<'_>, delta: u64) -> Result<(), Stop<Reason>>
        ensures { MatchStop result
            (λ _. (move_fault context.now self.old.address (self.old.address + delta * context.now.code_align) ≡ None)
            × (self.new ≡ moved (self.old.address + delta * context.now.code_align) self.old))
            (λ why. move_fault context.now self.old.address (self.old.address + delta * context.now.code_align) ≡ Some why)
            (Unit {0}) }
    {
        if context.cie.initial.is_none() {
            return Err(Stop::Fault(Reason::Range));
        }
        match delta.checked_mul(context.cie.code_align) {
            Some(bytes) => match self.address.checked_add(bytes) {
                Some(address) => {
                    self.address = address;
                    Ok(())
                }
                None => Err(Stop::Fault(Reason::Range)),
            },
            None => Err(Stop::Fault(Reason::Range)),
        }
    }

    /// A location instruction that names an address.
    pub fn set_location(&mut self, context: &Context<'_>, address: u64) -> Result<(), Stop<Reason>>
        ensures { MatchStop result
            (λ _. (move_fault context.now self.old.address address ≡ None) × (self.new ≡ moved address self.old))
            (λ why. move_fault context.now self.old.address address ≡ Some why)
            (Unit {0}) }
    {
        if context.cie.initial.is_none() || address < self.address {
            return Err(Stop::Fault(Reason::Range));
        }
        self.address = address;
        Ok(())
    }

    /// A column keeps its value; the return address column has none to keep.
    pub fn same(&mut self, column: u64) -> Result<(), Stop<Reason>>
        ensures { MatchStop result
            (λ _. (unless (not (column == 16)) reason.Register ≡ None) × (self.new ≡ on_row (put_rule column rule.Same) self.old))
            (λ why. unless (not (column == 16)) reason.Register ≡ Some why)
            (Unit {0}) }
    {
        if column == 16 {
            return Err(Stop::Fault(Reason::Register));
        }
        self.put_rule(column, Rule::Same);
        Ok(())
    }

    /// A column's value is in a register; columns above 16 are ignored.
    #[tactic(auto, unfolding(crate::specs::Steps::put_rule))]
    pub fn in_register(&mut self, column: u64, register: u64) -> Result<(), Stop<Reason>>
        ensures { MatchStop result
            (λ _. (unless (nat_lt 16 column || nat_lt register 16) reason.Register ≡ None) × (self.new ≡ on_row (put_rule column (rule.Register register)) self.old))
            (λ why. unless (nat_lt 16 column || nat_lt register 16) reason.Register ≡ Some why)
            (Unit {0}) }
    {
        if column > 16 {
            return Ok(());
        }
        if register > 15 {
            return Err(Stop::Fault(Reason::Register));
        }
        self.put_rule(column, Rule::Register(register as u8));
        Ok(())
    }

    /// A column's value is that of an expression, or the word in memory at that address; columns above 16 are ignored.
    #[tactic(auto, unfolding(crate::specs::Steps::put_rule))]
    pub fn by_expression(
        &mut self,
        context: &Context<'_>,
        column: u64,
        fetch: bool,
        block: Block,
    ) -> Result<(), Stop<Reason>>
        ensures { MatchStop result
            (λ _. (column_expr_fault context.now column block ≡ None) × (self.new ≡ on_row (put_rule column (rule.Expr fetch (place_of_block context.now block))) self.old))
            (λ why. column_expr_fault context.now column block ≡ Some why)
            (Unit {0}) }
    {
        if column > 16 {
            return Ok(());
        }
        match context.find_expression(block, true) {
            Some(place) => {
                self.put_rule(column, Rule::Expr { fetch, place });
                Ok(())
            }
            None => Err(Stop::Fault(Reason::Expression)),
        }
    }

    /// A column gets the rule that the CIE left.
    #[tactic(auto, unfolding(crate::specs::Steps::put_rule))]
    pub fn restore(&mut self, context: &Context<'_>, column: u64) -> Result<(), Stop<Reason>>
        ensures { MatchStop result
            (λ _. (unless (is_some context.now.initial) reason.State ≡ None) × (self.new ≡ on_row (put_rule column (rule_behind context.now.initial column)) self.old))
            (λ why. unless (is_some context.now.initial) reason.State ≡ Some why)
            (Unit {0}) }
    {
        match &context.cie.initial {
            Some(initial) => {
                if column < COLUMNS as u64 {
                    self.put_rule(column, initial.rules[column as usize]);
                }
                Ok(())
            }
            None => Err(Stop::Fault(Reason::State)),
        }
    }

    /// Remembers the row.
    pub fn remember(&mut self) -> Result<(), AllocError>
        ensures { OnOk result (self.new ≡ record { address = self.old.address; row = self.old.row; stack = self.old.row ∷ self.old.stack }) }
    {
        self.stack.push(self.row)?;
        Ok(())
    }

    /// Removes the row that was remembered last.
    fn pop(&mut self) -> Option<Row>
        ensures popped { MatchOption result (has_remembered self.old.stack ≡ false) (λ row. self.old.stack ≡ row ∷ self.new.stack) }
        ensures kept { (self.new.address ≡ self.old.address) × (self.new.row ≡ self.old.row) }
    {
        if let Some(row) = self.stack.pop() {
            return Some(row);
        }
        match self.bottom.split_last() {
            Some((row, rest)) => {
                self.bottom = rest;
                Some(*row)
            }
            None => None,
        }
    }

    /// Restores the row that was remembered last.
    pub fn restore_state(&mut self) -> Result<(), Stop<Reason>>
        ensures { MatchStop result
            (λ _. (unless (has_remembered self.old.stack) reason.State ≡ None) × (self.new ≡ record { address = self.old.address; row = top_or self.old.row self.old.stack; stack = under self.old.stack }))
            (λ why. unless (has_remembered self.old.stack) reason.State ≡ Some why)
            (Unit {0}) }
    {
        match self.pop() {
            Some(row) => {
                self.row = row;
                Ok(())
            }
            None => Err(Stop::Fault(Reason::State)),
        }
    }
}
