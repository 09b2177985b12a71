//! Laws of the definitions, for proofs of other crates. Each function does nothing: its contract is the law.
ghost use Rattle.std.specs.Prelude.{◌≡◌, ℕ, true, List, Some};
ghost use Rattle.std.specs.List.{All, list_all};
ghost use Rattle.leb_cursor.specs.Ahead.{Ahead};
ghost use Rattle.leb_cursor.specs.Lists.{list_at, list_cases};
ghost use Rattle.code_table.specs.ExprOps.{expr_opcodes};
ghost use Rattle.code_table.specs.Operands.{TakesOperands};
ghost use Rattle.expr_steps.specs.declared.step.Step.{Step};
ghost use Rattle.expr_steps.specs.Operations.{behind_opcode, next_operation};
ghost use Rattle.expr_steps.specs.Steps.{steps};
ghost use Rattle.expr_steps.specs.Standing.{has_bounds};

/// There are no operations ahead if no byte is left; otherwise they are the next one and those after it.
#[tactic(auto, using(crate::proofs::FollowLemmas::operations_are))]
pub fn operations_follow()
    ensures { (c : Ahead) → list_at next_operation c ≡ list_cases next_operation c }
{}

/// An operation takes the operands that the table of opcodes gives it.
#[tactic(auto, using(crate::proofs::OperandLemmas::operands_taken))]
pub fn operands_are_those_of_the_table()
    ensures { All (TakesOperands behind_opcode) expr_opcodes }
{}

/// The registers of an expression's steps are the sixteen general registers and rip, and the
/// offsets are signed numbers of 64 bits.
#[tactic(auto, using(crate::proofs::BoundLemmas::steps_bounded))]
pub fn steps_have_bounds()
    ensures { (bytes : List ℕ) (given : List Step) → steps bytes ≡ Some given → list_all has_bounds given ≡ true }
{}
