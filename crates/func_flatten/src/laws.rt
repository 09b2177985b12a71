//! Laws of the definitions. Each function does nothing: its contract is the law.
ghost use Rattle.std.specs.Prelude.{◌≡◌, ℕ, List, Some, map};
ghost use Rattle.elf_sections.specs.Symbols.{SymbolParts};
ghost use Rattle.debug_units.specs.declared.unit_read.UnitRead.{UnitRead};
ghost use Rattle.debug_units.specs.Owners.{line};
ghost use Rattle.debug_units.specs.declared.unit_read.EntryRef.{EntryRef};
ghost use Rattle.func_flatten.specs.declared.piece.Piece.{Piece};
ghost use Rattle.func_flatten.specs.Pieces.{ArePieces, owner_place};
ghost use Rattle.func_flatten.specs.LineRuns.{unit_line};
ghost use Rattle.func_flatten.specs.Publics.{addresses, has, IsRising};

/// The units have only one list of pieces.
#[tactic(auto, using(crate::proofs::LawLemmas::one_pieces))]
pub fn units_have_one_list_of_pieces()
    ensures { (units : List UnitRead) (xs ys : List Piece) → ArePieces units xs → ArePieces units ys → xs ≡ ys }
{}

/// The line of an address is that in the line table of its owner's unit.
#[tactic(auto, using(crate::proofs::LawLemmas::line_of_owner))]
pub fn the_line_is_that_of_the_owners_unit()
    ensures { (units : List UnitRead) (a : ℕ) (place : EntryRef) → owner_place units a ≡ Some place → line units a ≡ unit_line units place.unit a }
{}

/// The addresses of symbols rise.
#[tactic(auto, using(crate::proofs::PublicLemmas::rising_addresses))]
pub fn addresses_rise()
    ensures { (symbols : List SymbolParts) → IsRising (addresses symbols) }
{}

/// An address is among the addresses of symbols exactly if a symbol has it.
#[tactic(auto, using(crate::proofs::PublicLemmas::has_addresses))]
pub fn addresses_are_those_of_the_symbols()
    ensures { (symbols : List SymbolParts) (a : ℕ) → has a (addresses symbols) ≡ has a (map (λ s. s.address) symbols) }
{}
