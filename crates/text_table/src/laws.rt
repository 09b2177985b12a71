//! A law of the definitions, for proofs in crates that use this one. The function does nothing: its contract is the law.
ghost use Rattle.std.specs.Prelude.{◌≡◌, ◌++◌, ℕ, List};
ghost use Rattle.clean_names.specs.Cleaning.{cleaned};
ghost use Rattle.text_table.specs.Spaces.{held_text};

/// What is held of a text, alone or between other texts, is shown as the whole text is.
#[tactic(auto, using(crate::proofs::AlikeLemmas::shown_alike))]
pub fn held_texts_are_shown_alike()
    ensures { (front bytes back : List ℕ) → cleaned (front ++ (held_text bytes ++ back)) ≡ cleaned (front ++ (bytes ++ back)) }
{}
