//! Laws of the rule of the shared word. Each function does nothing: its contract is the law.
ghost use Rattle.std.specs.Prelude.{◌≡◌, ℕ, ◌+◌, ◌%◌, ◌^◌, ◌<◌, ◌≤◌, ◌≢◌, slice_index, [], ◌∷◌};
ghost use mathlib.Core.Option.{some};
ghost use lib.ListN.{get_elem?};
ghost use Rattle.atomic_table.specs.Table.{State, Me, opening, Allows, Splits, Joins};
ghost use Rattle.unit_workers.specs.Numbers.{total, times, HasEachBelow};
ghost use Rattle.unit_workers.specs.Drawing.{Drawing};
ghost use Rattle.unit_workers.specs.Steps.{first_view, Draws, giving, given, both, spent};
ghost use Rattle.unit_workers.specs.declared.lot.Lot.{Lot};
ghost use Rattle.unit_workers.specs.declared.view.View.{View};

/// The rule holds when the word is made: the word is 0, and one seat has all rights and the whole share.
#[tactic(auto, using(crate::proofs::StepLemmas::starts))]
pub fn the_rule_holds_at_the_start()
    ensures { (lot : Lot) → lot.count ≤ 2 ^ 32 → lot.workers ≤ 64 → Drawing lot (opening (0 ∷ []) [] (first_view lot)) }
{}

/// Each step keeps the rule. A draw by a seat with a right adds 1 to the word. If the word was k, below the count, k is added to the seat's list. If
/// the word had reached the count, one right is spent.
pub fn each_step_keeps_the_rule()
    ensures draw { (lot : Lot) (slots id : ℕ) (m : Me ℕ View) → 0 < m.0.rights → Allows (Drawing lot) slots id m 0 (λ n. (n + 1) % 2 ^ 64) (Draws m) }
    ensures split { (lot : Lot) (id : ℕ) (v : View) → 2 ≤ v.rights → Splits (Drawing lot) id v (giving v) (given v) }
    ensures join { (lot : Lot) (id : ℕ) (v : View) (other : ℕ) (w : View) → v.lot ≡ lot → Joins (Drawing lot) id v other w (both v w) spent }
{}

/// A number is in one seat's list only, and once: no two seats drew the same number.
#[tactic(auto, using(crate::proofs::RuleLemmas::drawn_once, crate::proofs::RuleLemmas::drawn_apart))]
pub fn numbers_are_drawn_once()
    ensures once { (lot : Lot) (s : State ℕ View) (i x : ℕ) (v : View) → Drawing lot s → get_elem? s.views i ≡ some v → times x v.drawn ≤ 1 }
    ensures apart { (lot : Lot) (s : State ℕ View) (i j x : ℕ) (v w : View) → Drawing lot s → i ≢ j → get_elem? s.views i ≡ some v → get_elem? s.views j ≡ some w → 0 < times x v.drawn → times x w.drawn ≡ 0 }
{}

/// If a right was spent, the word had reached the count, so each number below the count is drawn.
#[tactic(auto, using(crate::proofs::RuleLemmas::spent_past))]
pub fn a_spent_right_means_that_all_are_drawn()
    ensures { (lot : Lot) (s : State ℕ View) → Drawing lot s → total (λ v. v.rights) s.views < lot.workers → lot.count < slice_index s.words 0 }
{}

/// A seat with the whole share and no right has each number below the count once.
#[tactic(auto, using(crate::proofs::StepLemmas::closes))]
pub fn the_last_seat_has_each_number_once()
    ensures { (lot : Lot) (s : State ℕ View) (id : ℕ) (v : View) → Drawing lot s → get_elem? s.views id ≡ some v → 0 < lot.workers → v.share ≡ lot.workers → v.rights ≡ 0 → HasEachBelow lot.count v.drawn }
{}
