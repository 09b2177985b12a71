//! Laws of the definitions, for proofs in other crates. Each function has an empty body: its contract is the law.
ghost use Rattle.std.specs.Prelude.{◌≡◌, ℕ, ℤ, Bool, List, Ok, length};
ghost use Rattle.std.specs.List.{AllByRecursion};
ghost use Rattle.leb_cursor.specs.Ahead.{Ahead};
ghost use Rattle.leb_cursor.specs.Passes.{Passes};
ghost use Rattle.leb_cursor.specs.Lists.{list_at, list_cases};
ghost use Rattle.abbrev_units.specs.SpecFields.{SpecFields};
ghost use Rattle.abbrev_units.specs.InitialLength.{contents_at};
ghost use Rattle.abbrev_units.specs.FormValue.{form_at};
ghost use Rattle.abbrev_units.specs.Values.{values_at};
ghost use Rattle.abbrev_units.specs.Units.{next_unit, units_in};
ghost use Rattle.abbrev_units.specs.UnitPlaces.{Follow, IsInside, read_units};
ghost use Rattle.abbrev_units.specs.declared.unit.Unit.{Unit};
ghost use Rattle.abbrev_units.specs.Abbreviations.{spec_at, abbrev_at};

/// The units ahead are the first one and then the units after it; the same holds for attributes and
/// for abbreviations. So these lists do not depend on how many readings are allowed.
#[tactic(auto, using(crate::proofs::UnitLemmas::units_follow, crate::proofs::AbbrevLemmas::specs_follow, crate::proofs::AbbrevLemmas::abbrevs_follow))]
pub fn lists_follow()
    ensures units { (c : Ahead) → list_at next_unit c ≡ list_cases next_unit c }
    ensures attributes { (c : Ahead) → list_at spec_at c ≡ list_cases spec_at c }
    ensures abbreviations { (c : Ahead) → list_at abbrev_at c ≡ list_cases abbrev_at c }
{}

/// Readings never go past the end of the bytes.
#[tactic(auto, using(crate::proofs::UnitLemmas::contents_passes, crate::proofs::FormLemmas::form_passes, crate::proofs::FormLemmas::values_pass))]
pub fn values_pass()
    ensures contents { (c : Ahead) → Passes 4 c (contents_at c) }
    ensures value { (form : ℕ) (implicit : ℤ) (wide : Bool) (c : Ahead) → Passes 0 c (form_at form implicit wide c) }
    ensures values { (specs : List SpecFields) (c : Ahead) → Passes 0 c (values_at specs c) }
{}

/// The units of a section follow one another without overlap, up to the end of the section. The entries of each unit that is read are in the section,
/// after its header.
#[tactic(auto, using(crate::proofs::UnitPlaceLemmas::units_follow, crate::proofs::UnitPlaceLemmas::units_inside))]
pub fn units_stand_one_after_the_other()
    ensures follow { (info : List ℕ) (units : List Unit) → units_in info ≡ Ok units → Follow 0 (length info) units }
    ensures inside { (info : List ℕ) (units : List Unit) → units_in info ≡ Ok units → AllByRecursion (IsInside (length info)) (read_units units) }
{}
