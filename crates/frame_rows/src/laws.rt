//! Laws of the definitions, for proofs in other crates. Each function does nothing: its contract is the law.
ghost use Rattle.std.specs.Prelude.{◌≡◌, ℕ, None};
ghost use Rattle.std.specs.List.{All};
ghost use Rattle.leb_cursor.specs.Ahead.{Ahead};
ghost use Rattle.code_table.specs.FrameOps.{plain_opcodes};
ghost use Rattle.code_table.specs.Operands.{TakesOperands};
ghost use Rattle.frame_entries.specs.FdeFields.{FdeFields};
ghost use Rattle.frame_entries.specs.SharedCies.{HaveOneCie};
ghost use Rattle.frame_rows.specs.CieLeft.{cie_left};
ghost use Rattle.frame_rows.specs.Instructions.{extended_at, listed_at, listed_by};
ghost use Rattle.frame_rows.specs.Rows.{instruction_fault, row_at, rows_fault, HasCfa, IsSound};

/// If no byte is left, there are no instructions ahead; otherwise they are the next one and those after it.
#[tactic(auto, using(crate::proofs::FollowLemmas::listed_is))]
pub fn instructions_follow()
    ensures { (encoding base : ℕ) (c : Ahead) → listed_at encoding base c ≡ listed_by listed_at encoding base c }
{}

/// An instruction takes the operands that the table of opcodes gives it.
#[tactic(auto, using(crate::proofs::OperandLemmas::operands_taken))]
pub fn operands_are_those_of_the_table()
    ensures { (encoding base : ℕ) → All (TakesOperands (extended_at encoding base)) plain_opcodes }
{}

/// If an entry has rows, none of its instructions is bad, the row at each address of its range has a rule for the CFA, and rule text can express the
/// rules of each row.
#[tactic(auto, using(crate::proofs::EntryLemmas::rows_good, crate::proofs::EntryLemmas::rows_have))]
pub fn rows_are_sound()
    ensures good { (e : FdeFields) → rows_fault e ≡ None → instruction_fault e ≡ None }
    ensures cfa { (e : FdeFields) → rows_fault e ≡ None → HasCfa e }
    ensures sound { (e : FdeFields) (a : ℕ) → rows_fault e ≡ None → IsSound e (row_at e a) }
{}

/// What the instructions of a CIE leave is the same for all of its FDEs, wherever they start.
#[tactic(auto, using(crate::proofs::LeftLemmas::one_left))]
pub fn entries_of_one_cie_begin_alike()
    ensures { (e f : FdeFields) → HaveOneCie e f → cie_left e ≡ cie_left f }
{}
