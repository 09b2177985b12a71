//! Laws of the definitions. Each function has an empty body: its contract is the law.
ghost use Rattle.std.specs.Prelude.{◌≡◌, ℕ, ◌≤◌, Bool, List};
ghost use Rattle.std.specs.List.{All};
ghost use Rattle.leb_cursor.specs.Ahead.{Ahead};
ghost use Rattle.leb_cursor.specs.Lists.{list_at, list_cases};
ghost use Rattle.line_program.specs.FileTables.{old_entry_at};
ghost use Rattle.code_table.specs.LineOps.{line_opcodes};
ghost use Rattle.code_table.specs.Operands.{TakesOperands};
ghost use Rattle.line_program.specs.LineMaps.{LineMap, NoStopBetween, numbered_line};
ghost use Rattle.line_program.specs.Opcodes.{next_at, opcodes_at, standard_at};
ghost use Rattle.line_program.specs.ProgramFields.{ProgramFields};

/// The opcodes ahead are the next one and those after it; if no byte is left there are none.
#[tactic(auto, using(crate::proofs::OpcodeLemmas::opcodes_follow))]
pub fn opcodes_follow()
    ensures { (p : ProgramFields) (c : Ahead) → opcodes_at p c ≡ list_cases (next_at p) c }
{}

/// The entries of a list of versions 2 to 4 are the next one and those after it, up to the empty
/// path that ends the list.
#[tactic(auto, using(crate::proofs::EntryLemmas::old_entries_follow))]
pub fn old_entries_follow()
    ensures { (of_files : Bool) (c : Ahead) → list_at (old_entry_at of_files) c ≡ list_cases (old_entry_at of_files) c }
{}

/// A known standard opcode has the operands that the standard gives it, whatever the header says.
#[tactic(auto, using(crate::proofs::OperandLemmas::operands_taken))]
pub fn operands_are_those_of_the_table()
    ensures { (lengths : List ℕ) → All (TakesOperands (standard_at lengths)) line_opcodes }
{}

/// The line is the same at two addresses if no stop is between them.
#[tactic(auto, using(crate::proofs::TableLemmas::same_between))]
pub fn lines_change_at_stops()
    ensures { (table : LineMap) (a b : ℕ) → a ≤ b → NoStopBetween a b table.lines.stops → numbered_line table a ≡ numbered_line table b }
{}
