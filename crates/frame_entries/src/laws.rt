//! Laws of the definitions, for proofs in other crates. Each function does nothing: its contract is the law.
ghost use Rattle.std.specs.Prelude.{◌≡◌, ℕ, List, IfSome};
ghost use Rattle.sym_edges.specs.declared.part.Sect.{Sect};
ghost use Rattle.leb_cursor.specs.Ahead.{Ahead};
ghost use Rattle.frame_entries.specs.Raw.{Raw};
ghost use Rattle.frame_entries.specs.Listing.{listed_at, listed_by};
ghost use Rattle.frame_entries.specs.FrameEntries.{cies_of, entry_of, reason_in, IsOfFields};

/// If no byte is left, there are no entries ahead; otherwise the entries ahead are those from the next mark on.
#[tactic(auto, using(crate::proofs::PlaceLemmas::listed_is))]
pub fn entries_follow()
    ensures { (which : Sect) (c : Ahead) → listed_at which c ≡ listed_by listed_at which c }
{}

/// An entry is left out only for a reason that comes from fields: its CIE, the augmentation, the encoding, the return address column, or its own
/// fields.
#[tactic(auto, using(crate::proofs::ReasonLemmas::entry_reason))]
pub fn reasons_are_of_fields()
    ensures { (which : Sect) (address : ℕ) (raws : List Raw) (raw : Raw) → IfSome (reason_in (entry_of which address (cies_of which raws) raw).body) IsOfFields }
{}
