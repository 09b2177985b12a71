//! Laws of the inlined copies of a piece. Each function does nothing: its contract is the law.
ghost use Rattle.std.specs.Prelude.{◌≡◌, List};
ghost use Rattle.debug_units.specs.declared.unit_read.UnitRead.{UnitRead};
ghost use Rattle.func_flatten.specs.declared.piece.Piece.{Piece};
ghost use Rattle.inline_chain.specs.InlineRuns.{InlineParts, AreInlineRuns};

/// A piece has only one list of inlined copies.
pub fn pieces_have_one_list_of_copies()
    ensures { (units : List UnitRead) (piece : Piece) (xs ys : List InlineParts) → AreInlineRuns units piece xs → AreInlineRuns units piece ys → xs ≡ ys }
{}
