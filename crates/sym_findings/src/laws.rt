//! Laws of the definitions, for proofs in crates that use this one. Each function does nothing: its contract is the law.
ghost use Rattle.std.specs.Prelude.{◌≡◌, ◌↔◌, List, []};
ghost use Rattle.sym_records.specs.declared.line.SymLine.{SymLine};
ghost use Rattle.sym_meaning.specs.Findings.{HasNoFindings};
ghost use Rattle.sym_findings.specs.Findings.{findings};

/// A list of records has no findings exactly if a checker finds nothing in it.

pub fn nothing_found()
    ensures { (lines : List SymLine) → (findings lines ≡ []) ↔ HasNoFindings lines }
{}
