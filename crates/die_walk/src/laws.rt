//! Laws of the definitions, for proofs in other crates. Each function has an empty body: its contract is the law.
ghost use Rattle.std.specs.Prelude.{◌≡◌, ℕ, ◌≤◌, ◌+◌, List, Ok, length};
ghost use Rattle.leb_cursor.specs.Ahead.{Ahead};
ghost use Rattle.leb_cursor.specs.Lists.{list_at, list_cases};
ghost use Rattle.abbrev_units.specs.SpecFields.{Abbrev};
ghost use Rattle.abbrev_units.specs.declared.unit.Unit.{Unit};
ghost use Rattle.abbrev_units.specs.DebugSections.{DebugSections, first_place};
ghost use Rattle.die_walk.specs.Marks.{next_mark};
ghost use Rattle.die_walk.specs.EntryTable.{EntryTable, entry_table};
ghost use Rattle.die_walk.specs.EntryPlaces.{RisesTo, table_places};

/// The marks ahead in a unit are the first one and then the marks after it. So they do not depend
/// on how many readings are allowed.
#[tactic(auto, using(crate::proofs::EntryPlaceLemmas::marks_follow))]
pub fn marks_follow()
    ensures { (abbrevs : List Abbrev) (c : Ahead) → list_at (next_mark abbrevs) c ≡ list_cases (next_mark abbrevs) c }
{}

/// The places of a unit's kept entries, counted through the file and its supplementary file, are
/// strictly ascending. They are not before the end of the unit's header, and not after the end of
/// the unit.
#[tactic(auto, using(crate::proofs::EntryPlaceLemmas::places_rise))]
pub fn entries_rise()
    ensures { (sections : DebugSections) (unit : Unit) (abbrevs : List Abbrev) (table : EntryTable) → unit.body ≤ unit.end → unit.end ≤ length sections.info → entry_table sections unit abbrevs ≡ Ok table → RisesTo (first_place sections.is_sup + unit.body) (first_place sections.is_sup + unit.end) (table_places table) }
{}
