//! What an instruction does to the state.
ghost use Rattle.std.specs.Prelude.{◌≡◌, Some, None};
ghost use Rattle.sym_edges.specs.Outside.{MatchStop};
ghost use Rattle.sym_edges.specs.Results.{unless};
ghost use Rattle.frame_rows.specs.internal.Touched.{touched};
ghost use Rattle.frame_rows.specs.Context.{Context};
ghost use Rattle.frame_rows.specs.Steps.{effect, stepped, step_fault, on_row, put_rule};

use crate::columns::Columns;
use crate::instruction::Instruction;
use crate::machine::{Context, Machine};
use crate::row::Rule;
use sym_edges::{Reason, Stop};

impl Instruction {
    /// The columns that the instruction may change.
    #[inline(always)]
    pub fn touched(&self) -> Columns
        ensures { (s : Context) → result ≡ touched (effect s self.now) }
    {
        match self {
            Instruction::Undefined { column } => Columns::one(*column),
            Instruction::SameValue { column } => Columns::one(*column),
            Instruction::Offset { column, .. } => Columns::one(*column),
            Instruction::OffsetExtendedSf { column, .. } => Columns::one(*column),
            Instruction::ValOffset { column, .. } => Columns::one(*column),
            Instruction::ValOffsetSf { column, .. } => Columns::one(*column),
            Instruction::Register { column, .. } => Columns::one(*column),
            Instruction::Expression { column, .. } => Columns::one(*column),
            Instruction::ValExpression { column, .. } => Columns::one(*column),
            Instruction::Restore { column } => Columns::one(*column),
            Instruction::RestoreState => Columns::all(),
            _ => Columns::none(),
        }
    }

    /// Executes the instruction, or returns the reason for which it is refused.
    #[inline(always)]
    #[tactic(auto, unfolding(crate::specs::Steps::stepped, crate::specs::Steps::step_fault))]
    pub fn step(self, machine: &mut Machine<'_>, context: &Context<'_>) -> Result<(), Stop<Reason>>
        ensures { MatchStop result
            (λ _. (step_fault context.now self machine.old ≡ None) × (machine.new ≡ stepped context.now self machine.old))
            (λ why. step_fault context.now self machine.old ≡ Some why)
            (Unit {0}) }
    {
        match self {
            Instruction::SetLoc { address } => return machine.set_location(context, address),
            Instruction::AdvanceLoc { delta } => return machine.advance(context, delta),
            Instruction::DefCfa { register, offset } => {
                return machine.define_cfa(register, offset.cast_signed());
            }
            Instruction::DefCfaSf { register, factored } => {
                return machine.define_cfa(register, context.scale(factored));
            }
            Instruction::DefCfaRegister { register } => return machine.change_register(register),
            Instruction::DefCfaOffset { offset } => {
                return machine.change_offset(offset.cast_signed());
            }
            Instruction::DefCfaOffsetSf { factored } => {
                return machine.change_offset(context.scale(factored));
            }
            Instruction::Undefined { column } => machine.put_rule(column, Rule::Undefined),
            Instruction::SameValue { column } => return machine.same(column),
            Instruction::Offset { column, factored } => {
                machine.put_rule(column, Rule::Offset(context.scale(factored.cast_signed())));
            }
            Instruction::OffsetExtendedSf { column, factored } => {
                machine.put_rule(column, Rule::Offset(context.scale(factored)));
            }
            Instruction::ValOffset { column, factored } => {
                machine.put_rule(
                    column,
                    Rule::ValOffset(context.scale(factored.cast_signed())),
                );
            }
            Instruction::ValOffsetSf { column, factored } => {
                machine.put_rule(column, Rule::ValOffset(context.scale(factored)));
            }
            Instruction::Register { column, register } => {
                return machine.in_register(column, register);
            }
            Instruction::DefCfaExpression { block } => {
                return machine.define_cfa_by(context, block);
            }
            Instruction::Expression { column, block } => {
                return machine.by_expression(context, column, true, block);
            }
            Instruction::ValExpression { column, block } => {
                return machine.by_expression(context, column, false, block);
            }
            Instruction::Restore { column } => return machine.restore(context, column),
            Instruction::RememberState => machine.remember()?,
            Instruction::RestoreState => return machine.restore_state(),
            Instruction::Nop => {}
        }
        Ok(())
    }
}
