//! Laws of the definitions, for proofs in other crates. Each function has an empty body: its contract is the law.
ghost use Rattle.std.specs.Prelude.{◌≡◌, ℕ, List, Option, Some, Result, Ok};
ghost use Rattle.sym_edges.specs.Addresses.{Range};
ghost use Rattle.sym_edges.specs.declared.located.Located.{Located};
ghost use Rattle.leb_cursor.specs.Ahead.{Ahead};
ghost use Rattle.leb_cursor.specs.Lists.{list_at, list_cases};
ghost use Rattle.abbrev_units.specs.declared.fault.DwarfKind.{DwarfKind};
ghost use Rattle.abbrev_units.specs.declared.unit.Unit.{Unit};
ghost use Rattle.abbrev_units.specs.DebugSections.{DebugSections};
ghost use Rattle.die_walk.specs.EntryTable.{DieFields, RootFields};
ghost use Rattle.range_set.specs.Enclosing.{encloses};
ghost use Rattle.range_lists.specs.AddressTable.{AddressTable};
ghost use Rattle.range_lists.specs.ListPairs.{effect_at};
ghost use Rattle.range_lists.specs.EntryRanges.{in_ranges, pairs_at, listed_at};

/// The items of a range list are the first one and then the items after it. So they do not depend
/// on how many readings are allowed.
#[tactic(auto, using(crate::proofs::LawLemmas::items_follow))]
pub fn lists_follow()
    ensures { (version : ℕ) (table : AddressTable) (c : Ahead) → list_at (effect_at version table) c ≡ list_cases (effect_at version table) c }
{}

/// Which addresses of some pairs are in code depends only on which pairs the ranges of code
/// enclose. So an `Enclosing` made of these ranges can replace them.
#[tactic(auto, using(crate::proofs::LawLemmas::same_ranges))]
pub fn code_by_what_it_encloses()
    ensures { (code other : List Range) → ((start end : ℕ) → encloses code start end ≡ encloses other start end) → (given : Result (List Range) (Located DwarfKind)) (a : ℕ) → in_ranges code given a ≡ in_ranges other given a }
{}

/// Entries of one unit with lists at the same place give the same pairs, if there is no fault. Only
/// a fault names the entry.
#[tactic(auto, using(crate::proofs::PlaceLemmas::one_place))]
pub fn lists_at_one_place()
    ensures { (sections : DebugSections) (unit : Unit) (root : RootFields) (base place : ℕ) (one other : Option DieFields) (pairs : List Range) → listed_at sections unit root one ≡ Some place → listed_at sections unit root other ≡ Some place → pairs_at sections unit root base one ≡ Ok pairs → pairs_at sections unit root base other ≡ Ok pairs }
{}
