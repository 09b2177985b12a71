//! Laws of the definitions, for readers and for proofs in crates that use this one. Each function does nothing: its contract is the law.
ghost use Rattle.std.specs.Prelude.{◌≡◌, ℕ, ◌+◌, ◌<◌, ◌≤◌, ◌^◌, true, None, List, [], ◌∷◌, ◌++◌, length};
ghost use Rattle.std.specs.List.{AllByRecursion, list_all};
ghost use Rattle.sym_edges.specs.Addresses.{Range};
ghost use Rattle.frame_entries.specs.declared.description.Entry.{Entry};
ghost use Rattle.frame_entries.specs.FdeFields.{FdeFields};
ghost use Rattle.frame_rows.specs.Rows.{row_at, rows_fault};
ghost use Rattle.range_set.specs.Starts.{AllFrom};
ghost use Rattle.sym_records.specs.declared.line.SymLine.{SymLine};
ghost use Rattle.sym_rules.specs.declared.rules.RuleText.{RuleText};
ghost use Rattle.sym_records.specs.declared.place.Place.{Place};
ghost use Rattle.sym_records.specs.Validity.{fields_fit, first_bad_from};
ghost use Rattle.rule_postfix.specs.FrameLines.{frame_lines};
ghost use Rattle.rule_postfix.specs.LongRules.{is_long_rule};
ghost use Rattle.sym_meaning.specs.Findings.{are_sized};
ghost use Rattle.sym_meaning.specs.Inits.{inits_at, is_frameless};
ghost use Rattle.rule_postfix.specs.Written.{decided_behind, decided_of, reason_of, written, written_lines};
ghost use Rattle.rule_postfix.specs.Covering.{SaysFrames};
ghost use Rattle.rule_postfix.specs.Decision.{omission_for, fields_for};
ghost use Rattle.rule_postfix.specs.FrameMeaning.{KeepsFrames};
ghost use Rattle.rule_postfix.specs.KnownCfa.{HasKnownCfa};

/// An entry is left out with a reason exactly if that is its reason given the entries written
/// before it. It is written exactly if it has no reason. Nothing else decides about it; the
/// decisions about the entries after it follow.
#[tactic(auto, using(crate::proofs::OmittedLemmas::omitted_there, crate::proofs::OmittedLemmas::written_there))]
pub fn entries_are_decided_by_their_reasons()
    ensures omitted { (code : List Range) (xs ys : List Entry) (entry : Entry) →
        (decided_of code (xs ++ entry ∷ ys)).omitted
        ≡ (decided_of code xs).omitted ++ (omission_for entry (reason_of code (decided_of code xs).written entry)
        ++ (decided_behind code (decided_of code (xs ++ entry ∷ [])).written ys).omitted) }
    ensures written { (code : List Range) (xs : List Entry) (entry : Entry) →
        (decided_of code (xs ++ entry ∷ [])).written
        ≡ (decided_of code xs).written ++ fields_for entry (reason_of code (decided_of code xs).written entry) }
{}

/// A frame record is valid if its address and its size are below 2^64 and it has 1 to 18 rules of
/// at most 1,025 words with no `Other` name except that of rip (`is_long_rule`). Its line has less
/// than 400,000 bytes.
#[tactic(auto, using(crate::proofs::WideLemmas::init_fits, crate::proofs::WideLemmas::change_fits))]
pub fn rules_of_rows_fit()
    ensures init { (address size : ℕ) (rules : List RuleText) → address < 2 ^ 64 → size < 2 ^ 64 → list_all is_long_rule rules ≡ true → 0 < length rules → length rules ≤ 18 → fields_fit (SymLine.Init address size rules) ≡ true }
    ensures change { (address : ℕ) (rules : List RuleText) → address < 2 ^ 64 → list_all is_long_rule rules ≡ true → 0 < length rules → length rules ≤ 18 → fields_fit (SymLine.Change address rules) ≡ true }
{}

/// The records of the written entries, and those of one entry that has rows, are valid after any record.
#[tactic(auto, using(crate::proofs::EntryLemmas::entry_valid, crate::proofs::WrittenLemmas::written_valid))]
pub fn frame_records_are_valid()
    ensures entry { (base : ℕ) (e : FdeFields) → rows_fault e ≡ None → 0 < e.size → e.start + e.size < 2 ^ 64 → first_bad_from 0 Place.Inside (frame_lines e (row_at e) e.start e.size base) ≡ None }
    ensures whole { (base : ℕ) (code : List Range) (first second : List Entry) → first_bad_from 0 Place.Inside (written_lines base (written code first second)) ≡ None }
{}

/// If the records of the written entries come after records that are not about frames, the
/// following holds. No two of these entries have an address in common. An address is covered by as
/// many INITs as there are written entries with it. The changes of an INIT are inside its range, at
/// rising addresses.
#[tactic(auto, using(crate::proofs::SayingLemmas::frames_said))]
pub fn frames_are_said()
    ensures { (base : ℕ) (code : List Range) (first second : List Entry) (front : List SymLine) → AllFrom base code → list_all is_frameless front ≡ true →
        SaysFrames base (written code first second) (front ++ written_lines base (written code first second)) }
{}

/// A checker finds nothing in the records of the written entries: no INIT is empty or ends above 2^64 - 1, and no two cover an address.
#[tactic(auto, using(crate::proofs::SayingLemmas::written_sized))]
pub fn frames_have_no_findings()
    ensures sized { (base : ℕ) (code : List Range) (first second : List Entry) → AllFrom base code → list_all are_sized (written_lines base (written code first second)) ≡ true }
    ensures apart { (base : ℕ) (entries : List FdeFields) (lines : List SymLine) → SaysFrames base entries lines → (x : ℕ) → inits_at lines x ≤ 1 }
{}

/// At each address of a written entry, for all registers and all memory of bytes, the CFA of the entry's row is a number of 64 bits or a failure; it
/// is never undefined.
pub fn written_entries_have_a_cfa()
    ensures { (code : List Range) (first second : List Entry) → AllByRecursion HasKnownCfa (written code first second) }
{}

/// If the records of the written entries come after records that are not about frames, they mean
/// what the rows of the entries mean. At each address of a written entry, for all registers and all
/// memory, evaluating the rules gives the CFA, the return address and the registers that DWARF's
/// row gives, each failure with its cause. At any other address there is no rule. One thing the
/// records do not say: that rbx, rbp, rsp or one of r12 to r15 is undefined.
#[tactic(auto, using(crate::proofs::MeaningLemmas::frames_kept))]
pub fn frames_are_kept()
    ensures { (base : ℕ) (code : List Range) (first second : List Entry) (front : List SymLine) → AllFrom base code → list_all is_frameless front ≡ true →
        KeepsFrames base (written code first second) (front ++ written_lines base (written code first second)) }
{}
