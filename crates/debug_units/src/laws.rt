//! Laws of the definitions, for proofs in other crates. Each function does nothing: its contract is the law.
ghost use Rattle.std.specs.Prelude.{◌≡◌, ◌≤◌, ◌^◌, ◌++◌, true, false, List, Ok, length};
ghost use Rattle.abbrev_units.specs.declared.unit.Unit.{Unit};
ghost use Rattle.abbrev_units.specs.DebugSections.{DebugSections};
ghost use Rattle.abbrev_units.specs.Units.{units_in};
ghost use Rattle.abbrev_units.specs.UnitPlaces.{read_units};
ghost use Rattle.debug_units.specs.declared.unit_read.UnitRead.{UnitRead};
ghost use Rattle.debug_units.specs.UnitEntries.{ArePairs, AreRead};
ghost use Rattle.debug_units.specs.UnitTables.{AreTables};

/// The tables of a file's units, in their order, followed by those of its supplementary file, are
/// units that [`crate::Units`] accepts, if each entry has a set. There are few enough units and
/// entries, and the places of the entries rise through all units. The places are counted through
/// the file and its supplementary file. A file without a supplementary file counts as one whose
/// supplementary file has no units.
pub fn tables_are_units()
    ensures { (own sup : DebugSections) (units others : List Unit) (parts more : List UnitRead) → own.is_sup ≡ false → sup.is_sup ≡ true → length own.info ≤ 2 ^ 29 → length sup.info ≤ 2 ^ 29 → units_in own.info ≡ Ok units → units_in sup.info ≡ Ok others
        → AreTables own (read_units units) parts → AreTables sup (read_units others) more → ArePairs (parts ++ more) → AreRead (parts ++ more) }
{}
