//! Laws of the definitions, for proofs in crates that use this one. Each function does nothing: its contract is the law.
ghost use Rattle.std.specs.Prelude.{◌≡◌, ◌≤◌, ◌++◌, ℕ, List, length, Ok};
ghost use Rattle.sym_records.specs.declared.line.SymLine.{SymLine};
ghost use Rattle.sym_records.specs.Reading.{reading};
ghost use Rattle.sym_grammar.specs.Answer.{Part, IsUpToDate};

/// A text has no more records than bytes.
#[tactic(auto, using(crate::proofs::CountLemmas::records_within))]
pub fn a_text_has_no_more_records_than_bytes()
    ensures { (bytes : List ℕ) (lines : List SymLine) → reading bytes ≡ Ok lines → length lines ≤ length bytes }
{}

/// Two pieces that are fed one after the other give the same state as one piece.
pub fn two_pieces_are_one()
    ensures { (limit : ℕ) (a b c : Part) (p q : List ℕ) → IsUpToDate limit a p b → IsUpToDate limit b q c → IsUpToDate limit a (p ++ q) c }
{}
