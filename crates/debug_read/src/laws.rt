//! What holds for debugging information that was read. Each function does nothing: its contract is the law.
ghost use Rattle.std.specs.Prelude.{◌≡◌, ◌≤◌, ◌<◌, ◌^◌, ℕ, List, Some, Result, map};
ghost use Rattle.std.specs.Option.{option_map};
ghost use Rattle.sym_edges.specs.Addresses.{Range};
ghost use Rattle.sym_edges.specs.declared.located.Located.{Located};
ghost use Rattle.abbrev_units.specs.declared.fault.DwarfKind.{DwarfKind};
ghost use Rattle.abbrev_units.specs.declared.unit.Unit.{Unit};
ghost use Rattle.abbrev_units.specs.DebugSections.{DebugSections};
ghost use Rattle.elf_sections.specs.Image.{ImageParts};
ghost use Rattle.range_set.specs.Starts.{AllFrom};
ghost use Rattle.debug_units.specs.CleanPaths.{HaveCleanPaths};
ghost use Rattle.debug_units.specs.CallPaths.{path_of_call};
ghost use Rattle.die_names.specs.Names.{entry_name};
ghost use Rattle.debug_units.specs.declared.unit_read.UnitRead.{UnitRead};
ghost use Rattle.debug_units.specs.Owners.{Covering, owner, chain, line};
ghost use Rattle.debug_read.specs.Each.{Match};
ghost use Rattle.debug_read.specs.UnitSays.{UnitSays, unit_says};
ghost use Rattle.debug_read.specs.UnitsRead.{IsUnitRead, IsUnitAnswer};
ghost use Rattle.debug_read.specs.SameUnits.{SameAnswers};
ghost use Rattle.debug_read.specs.SaidNames.{said_name, said_call_path};
ghost use Rattle.debug_read.specs.SaidOwners.{said_owner, said_chain, said_line, said_place, kept_place};
ghost use Rattle.debug_read.specs.DebugSays.{IsDebugRead};
ghost use Rattle.debug_read.specs.declared.found.DebugRead.{DebugRead};

/// The paths of all line tables that are kept are cleaned.
#[tactic(auto, using(crate::proofs::PathLemmas::read_clean))]
pub fn paths_are_clean()
    ensures { (image : ImageParts) (read : DebugRead) → IsDebugRead image read → HaveCleanPaths read.units }
{}

/// An address that a function owns is code. So if the code of an image begins at its base, the address is not below the base.
#[tactic(auto, using(crate::proofs::OwnerLemmas::owners_above))]
pub fn owners_are_code()
    ensures { (image : ImageParts) (read : DebugRead) → IsDebugRead image read → AllFrom image.base image.code → (a : ℕ) (c : Covering) → owner read.units a ≡ Some c → image.base ≤ a }
{}

/// The owner, the inline chain and the line of an address are the same, whether they are computed
/// from what is kept of the units or from what DWARF says of them. This also holds for the name of
/// each entry, and for the paths of the calls on a chain.
pub fn what_is_kept_says_what_the_units_say()
    ensures owner { (code : List Range) (says : List UnitSays) (units : List UnitRead) (a : ℕ) → Match (IsUnitRead code) says units → option_map said_place (said_owner code says a) ≡ option_map kept_place (owner units a) }
    ensures chain { (code : List Range) (says : List UnitSays) (units : List UnitRead) (a : ℕ) → Match (IsUnitRead code) says units → map said_place (said_chain code says a) ≡ map kept_place (chain units a) }
    ensures line { (code : List Range) (says : List UnitSays) (units : List UnitRead) (a : ℕ) → a < 2 ^ 64 → Match (IsUnitRead code) says units → said_line code says a ≡ line units a }
    ensures name { (code : List Range) (says : List UnitSays) (units : List UnitRead) (unit entry : ℕ) → Match (IsUnitRead code) says units → said_name says unit entry ≡ entry_name units unit entry }
    ensures calls { (code : List Range) (says : List UnitSays) (units : List UnitRead) (a : ℕ) → Match (IsUnitRead code) says units → map (said_call_path says) (said_chain code says a) ≡ map (λ (c : Covering). path_of_call units c.unit c.die) (chain units a) }
{}

/// Two results of reading one unit say the same, whoever reads it: the same fault, or the same entries with the same addresses, and at each address
/// below 2^64 the same path and line.
#[tactic(auto, using(crate::proofs::SameLemmas::same_answers))]
pub fn answers_for_a_unit_say_the_same()
    ensures { (sections : DebugSections) (unit : Unit) (code : List Range) (one other : Result UnitRead (Located DwarfKind)) → IsUnitAnswer code (unit_says sections unit) one → IsUnitAnswer code (unit_says sections unit) other → SameAnswers one other }
{}
