//! The law that a set of addresses has only one canonical list.
ghost use Rattle.std.specs.Prelude.{◌≡◌, ℕ, List};
ghost use Rattle.sym_edges.specs.Addresses.{Range};
ghost use Rattle.range_set.specs.Members.{holds_any};
ghost use Rattle.range_set.specs.Canonical.{IsCanonical};

/// Two canonical lists with the same addresses are equal.
#[tactic(auto, using(crate::proofs::OneList::one_list))]
pub fn same_addresses_same_list()
    ensures { (xs ys : List Range) → IsCanonical xs → IsCanonical ys → ((a : ℕ) → holds_any xs a ≡ holds_any ys a) → xs ≡ ys }
{}
