//! Laws of the definitions, for proofs in crates that use this one. Each function does nothing: its contract is the law.
ghost use Rattle.std.specs.Prelude.{◌≡◌, ◌↔◌, ℕ, ◌<◌, ◌≤◌, ◌^◌, List, [], ◌∷◌, ◌++◌, length, Bool, Ok, None, true};
ghost use Rattle.std.specs.List.{list_all};
ghost use Rattle.sym_records.specs.declared.line.SymLine.{SymLine};
ghost use Rattle.sym_records.specs.declared.place.Place.{Place};
ghost use Rattle.sym_rules.specs.declared.rules.RuleText.{RuleText};
ghost use Rattle.sym_records.specs.Canon.{canon, canon_text};
ghost use Rattle.sym_records.specs.Fields.{is_name, is_range};
ghost use Rattle.sym_records.specs.Listed.{fields};
ghost use Rattle.sym_records.specs.Records.{keyword};
ghost use Rattle.sym_records.specs.Spelled.{records_in, IsSpelled};
ghost use Rattle.sym_records.specs.declared.line.Extent.{Extent};
ghost use Rattle.sym_records.specs.Reading.{reading, fits, leads};
ghost use Rattle.sym_rules.specs.RuleValidity.{is_plain_rule};
ghost use Rattle.sym_records.specs.Validity.{fields_fit, first_bad, first_bad_from, place_behind, is_change, IsValid, AreValid};

pub use clean_names::laws::cleaned_bytes_are_names;

/// The canonical text of a valid list reads back as the list.
#[tactic(auto, using(crate::proofs::ReadingLemmas::reads_back))]
pub fn canonical_text_reads_back()
    ensures { (lines : List SymLine) → AreValid lines → reading (canon_text lines) ≡ Ok lines }
{}

/// A record or a list passes its test exactly if it is valid.
#[tactic(auto, using(crate::proofs::RecordSoundLemmas::fits_valid, crate::proofs::RecordSoundLemmas::valid_fits, crate::proofs::ValidityLemmas::none_valid, crate::proofs::ValidityLemmas::valid_none))]
pub fn tests_say_validity()
    ensures record_passes { (s : SymLine) → fields_fit s ≡ true → IsValid s }
    ensures record_is_passed { (s : SymLine) → IsValid s → fields_fit s ≡ true }
    ensures list_passes { (lines : List SymLine) → first_bad lines ≡ None → AreValid lines }
    ensures list_is_passed { (lines : List SymLine) → AreValid lines → first_bad lines ≡ None }
{}

/// Records with the same keyword and the same fields are equal.
#[tactic(auto, using(crate::proofs::ListedLemmas::fields_tell))]
pub fn keyword_and_fields_tell()
    ensures { (a b : SymLine) → keyword a ≡ keyword b → fields a ≡ fields b → a ≡ b }
{}

/// A frame record passes the test if it has at most 18 rules, each with one to four tokens and no
/// `Other` name.
#[tactic(auto, using(crate::proofs::MakingLemmas::init_fits, crate::proofs::MakingLemmas::change_fits))]
pub fn plain_rules_fit()
    ensures init { (address size : ℕ) (rules : List RuleText) → address < 2 ^ 64 → size < 2 ^ 64 → list_all is_plain_rule rules ≡ true → 0 < length rules → length rules ≤ 18 → fields_fit (SymLine.Init address size rules) ≡ true }
    ensures change { (address : ℕ) (rules : List RuleText) → address < 2 ^ 64 → list_all is_plain_rule rules ≡ true → 0 < length rules → length rules ≤ 18 → fields_fit (SymLine.Change address rules) ≡ true }
{}

/// A valid list stays valid if records are added that may follow any record.
#[tactic(auto, using(crate::proofs::JoiningLemmas::join_fits, crate::proofs::JoiningLemmas::join_behind, crate::proofs::JoiningLemmas::push_behind, crate::proofs::JoiningLemmas::behind_pushed, crate::proofs::JoiningLemmas::frame_fits))]
pub fn good_lists_are_joined()
    ensures whole { (xs ys : List SymLine) → first_bad xs ≡ None → first_bad_from 0 Place.Inside ys ≡ None → first_bad (xs ++ ys) ≡ None }
    ensures behind { (xs ys : List SymLine) → first_bad_from 0 Place.Inside xs ≡ None → first_bad_from 0 Place.Inside ys ≡ None → first_bad_from 0 Place.Inside (xs ++ ys) ≡ None }
    ensures pushed { (place : Place) (lines : List SymLine) (s : SymLine) → first_bad_from 0 place lines ≡ None → fits (place_behind place lines) s ≡ true → fields_fit s ≡ true → first_bad_from 0 place (lines ++ s ∷ []) ≡ None }
    ensures place { (place : Place) (lines : List SymLine) (s : SymLine) → place_behind place (lines ++ s ∷ []) ≡ leads (place_behind place lines) s }
    ensures frame { (address size : ℕ) (rules : List RuleText) (changes : List SymLine) → fields_fit (SymLine.Init address size rules) ≡ true → list_all is_change changes ≡ true → list_all fields_fit changes ≡ true → first_bad_from 0 Place.Inside (SymLine.Init address size rules ∷ changes) ≡ None }
{}

/// Records pass the test if their numbers are in range, their names have at most 2^16 bytes, and an
/// INLINE has at most 30,000 ranges.
#[tactic(auto, using(crate::proofs::MakingLemmas::file_fits, crate::proofs::MakingLemmas::origin_fits, crate::proofs::MakingLemmas::func_fits, crate::proofs::MakingLemmas::inline_fits, crate::proofs::MakingLemmas::line_fits))]
pub fn records_of_functions_fit()
    ensures file { (number : ℕ) (name : List ℕ) → number < 2 ^ 32 → is_name name ≡ true → length name ≤ 2 ^ 16 → fields_fit (SymLine.File number name) ≡ true }
    ensures origin { (number : ℕ) (name : List ℕ) → number < 2 ^ 32 → is_name name ≡ true → length name ≤ 2 ^ 16 → fields_fit (SymLine.Origin number name) ≡ true }
    ensures func { (many : Bool) (address size params : ℕ) (name : List ℕ) → address < 2 ^ 64 → size < 2 ^ 64 → params < 2 ^ 64 → is_name name ≡ true → length name ≤ 2 ^ 16 → fields_fit (SymLine.Func many address size params name) ≡ true }
    ensures inlined { (level call_line call_file origin : ℕ) (ranges : List Extent) → level < 2 ^ 32 → call_line < 2 ^ 32 → call_file < 2 ^ 32 → origin < 2 ^ 32 → list_all is_range ranges ≡ true → 0 < length ranges → length ranges ≤ 30000 → fields_fit (SymLine.Inline level call_line call_file origin ranges) ≡ true }
    ensures line { (address size number file : ℕ) → address < 2 ^ 64 → size < 2 ^ 64 → number < 2 ^ 32 → file < 2 ^ 32 → fields_fit (SymLine.Line address size number file) ≡ true }
{}

/// The canonical spelling of valid records is the canonical text of these records. One more record
/// adds its own spelling to the text.
#[tactic(auto, using(crate::proofs::SpelledLemmas::spelled, crate::proofs::SpelledLemmas::spelled_records, crate::proofs::SpelledLemmas::text_pushed))]
pub fn spelled_texts_are_canonical()
    ensures spelled { (lines : List SymLine) (bytes : List ℕ) → first_bad lines ≡ None → bytes ≡ canon_text lines → IsSpelled bytes }
    ensures records { (lines : List SymLine) (bytes : List ℕ) → first_bad lines ≡ None → bytes ≡ canon_text lines → records_in bytes ≡ lines }
    ensures pushed { (lines : List SymLine) (s : SymLine) → canon_text (lines ++ s ∷ []) ≡ canon_text lines ++ canon s }
{}
