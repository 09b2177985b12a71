//! What holds of texts with the records of functions. Each function does nothing: its contract is the law.
ghost use Rattle.std.specs.Prelude.{◌≡◌, ℕ, ◌≤◌, ◌^◌, true, List, ◌++◌, Some};
ghost use Rattle.std.specs.List.{list_all};
ghost use Rattle.sym_records.specs.declared.line.SymLine.{SymLine};
ghost use Rattle.sym_meaning.specs.Plain.{ArePlain, HaveNoFile, HaveNoOrigin};
ghost use Rattle.sym_meaning.specs.Findings.{are_sized, HasNoFuncFindings};
ghost use Rattle.debug_units.specs.declared.unit_read.UnitRead.{UnitRead};
ghost use Rattle.debug_units.specs.Owners.{Covering, owner};
ghost use Rattle.func_flatten.specs.declared.piece.Piece.{Piece};
ghost use Rattle.func_flatten.specs.Pieces.{ArePieces};
ghost use Rattle.func_records.specs.FuncRecords.{AreFuncRecords, BeginAbove, EndBelow};
ghost use Rattle.func_records.specs.TextNames.{Names};

/// In a text with the records of the units' functions, a look-up names the owner, the inlined
/// copies and the line of each address; if there is no owner, no copy or no line, it names none.
pub fn names_are_kept()
    ensures { (base : ℕ) (units : List UnitRead) (pieces : List Piece) (front records behind : List SymLine) → ArePieces units pieces → BeginAbove base pieces → AreFuncRecords base units pieces records → ArePlain front → HaveNoFile front → HaveNoOrigin front → ArePlain behind → (x : ℕ) → Names base units (front ++ (records ++ behind)) x }
{}

/// In a text with the records of the units' functions, a checker finds nothing about files, functions, inlined copies and lines. Each number is given
/// once, and each number that is named is there. No range is empty or ends above 2^64 - 1. Functions do not overlap, and neither do the lines of a
/// function. Lines and inlined copies lie in their function.
pub fn records_have_no_findings()
    ensures { (base : ℕ) (units : List UnitRead) (pieces : List Piece) (front records behind : List SymLine) → ArePieces units pieces → BeginAbove base pieces → EndBelow (2 ^ 64) pieces → AreFuncRecords base units pieces records → ArePlain front → HaveNoFile front → HaveNoOrigin front → list_all are_sized front ≡ true → ArePlain behind → HaveNoFile behind → HaveNoOrigin behind → list_all are_sized behind ≡ true → HasNoFuncFindings (front ++ (records ++ behind)) }
{}

/// Pieces begin at or above a base if no function owns an address below it.
#[tactic(auto, using(crate::proofs::AboveLemmas::pieces_above))]
pub fn pieces_begin_above()
    ensures { (base : ℕ) (units : List UnitRead) (pieces : List Piece) → ((a : ℕ) (c : Covering) → owner units a ≡ Some c → base ≤ a) → ArePieces units pieces → BeginAbove base pieces }
{}
