//! Laws of the definitions, for proofs above. Each function does nothing: its contract is the law.
ghost use Rattle.std.specs.Prelude.{◌≡◌, ℕ, List, map};
ghost use Rattle.std.specs.Option.{option_map};
ghost use Rattle.cfi_eval.specs.declared.memory.MemRun.{MemRun};
ghost use Rattle.cfi_eval.specs.declared.registers.Regs.{Regs};
ghost use Rattle.cfi_eval.specs.TextValue.{text_frame};
ghost use Rattle.sym_findings.specs.Findings.{findings};
ghost use Rattle.sym_meaning.specs.TextNames.{text_func, text_owner, text_line, text_chain};
ghost use Rattle.sym_records.specs.declared.line.SymLine.{SymLine};
ghost use Rattle.rust_names.specs.Shown.{IsShown};
ghost use Rattle.rust_names.specs.ShownRecords.{renamed, renamed_found, renamed_call, IsNameFor, HaveShownNames};
ghost use Rattle.rust_names.specs.Named.{named};

/// A name has at most one shown text, and records have at most one list with the names that they show.
pub fn shown_texts_are_one()
    ensures text { (name a b : List ℕ) → IsShown name a → IsShown name b → a ≡ b }
    ensures records { (lines a b : List SymLine) → HaveShownNames lines a → HaveShownNames lines b → a ≡ b }
{}

/// The function `named` gives the name for each name.
pub fn names_are_shown()
    ensures { (name : List ℕ) → IsNameFor name (named name) }
{}

/// If names are replaced in records, only the names change: at each address a look-up finds the same `FUNC`, the same inlined calls and the same
/// line, the frame rules give the same, and a checker finds the same.
pub fn names_alone_change()
    ensures func { (f : List ℕ → List ℕ) (lines : List SymLine) (x : ℕ) → text_func (map (renamed f) lines) x ≡ option_map (renamed_found f) (text_func lines x) }
    ensures owner { (f : List ℕ → List ℕ) (lines : List SymLine) (x : ℕ) → text_owner (map (renamed f) lines) x ≡ option_map f (text_owner lines x) }
    ensures chain { (f : List ℕ → List ℕ) (lines : List SymLine) (x : ℕ) → text_chain (map (renamed f) lines) x ≡ map (renamed_call f) (text_chain lines x) }
    ensures line { (f : List ℕ → List ℕ) (lines : List SymLine) (x : ℕ) → text_line (map (renamed f) lines) x ≡ text_line lines x }
    ensures frame { (f : List ℕ → List ℕ) (lines : List SymLine) (x : ℕ) (regs : Regs) (memory : List MemRun) → text_frame (map (renamed f) lines) x regs memory ≡ text_frame lines x regs memory }
    ensures findings { (f : List ℕ → List ℕ) (lines : List SymLine) → findings (map (renamed f) lines) ≡ findings lines }
{}
