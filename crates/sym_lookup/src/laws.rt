//! Laws about answers. Each function does nothing: its contract is the law.
ghost use Rattle.std.specs.Prelude.{◌≡◌, ℕ, List, reverse, Some};
ghost use Rattle.sym_records.specs.declared.line.SymLine.{SymLine};
ghost use Rattle.sym_meaning.specs.TextNames.{text_owner, text_line, text_chain};
ghost use Rattle.sym_lookup.specs.Answers.{answer_of};
ghost use Rattle.sym_lookup.specs.AnswerTexts.{owner_of, line_of, calls_of, line_spot, frames_text, answer_text};

/// The records of an answer give the function, the inlined calls and the line that `sym_meaning`
/// defines for the address.
#[tactic(auto, using(crate::proofs::NameLemmas::owner_named, crate::proofs::NameLemmas::line_named, crate::proofs::NameLemmas::chain_named))]
pub fn answers_name_the_meaning()
    ensures owner { (lines : List SymLine) (x : ℕ) → text_owner lines x ≡ owner_of lines (answer_of lines x) }
    ensures line { (lines : List SymLine) (x : ℕ) → text_line lines x ≡ line_of lines (answer_of lines x) }
    ensures calls { (lines : List SymLine) (x : ℕ) → text_chain lines x ≡ calls_of lines (answer_of lines x) }
{}

/// If a function covers the address, the text of the answer shows the names, paths and lines that
/// `sym_meaning` defines for it.
#[tactic(auto, using(crate::proofs::ShownLemmas::frames_shown))]
pub fn texts_show_the_meaning()
    ensures { (lines : List SymLine) (x : ℕ) (owner : List ℕ) → text_owner lines x ≡ Some owner → answer_text lines (answer_of lines x) ≡ frames_text owner (line_spot (text_line lines x)) (reverse (text_chain lines x)) }
{}
