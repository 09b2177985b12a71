//! A law of the definitions, for proofs in crates that use this one. The function does nothing: its contract is the law.
ghost use Rattle.std.specs.Prelude.{◌≡◌, ℕ, ◌≤◌, List, length, true};
ghost use Rattle.clean_names.specs.Names.{is_name};
ghost use Rattle.clean_names.specs.Cleaning.{cleaned};

/// What `clean` makes is a name that records may carry, of at most 65,536 bytes.
#[tactic(auto, using(crate::proofs::CleaningLemmas::cleaned_named, crate::proofs::CleaningLemmas::cleaned_short), unfolding(crate::specs::Cleaning::cleaned))]
pub fn cleaned_bytes_are_names()
    ensures named { (bytes : List ℕ) → is_name (cleaned bytes) ≡ true }
    ensures short { (bytes : List ℕ) → length (cleaned bytes) ≤ 65536 }
{}
