//! Laws of the readings, for proofs of other crates. Each function does nothing: its contract is the law.
ghost use Rattle.std.specs.Prelude.{◌≡◌, ℕ, List};
ghost use Rattle.std.specs.Int.{w8, w16, w32, w64, from_le_bytes};
ghost use Rattle.leb_cursor.specs.Ahead.{Ahead};
ghost use Rattle.leb_cursor.specs.Readings.{fixed_sum, fixed_at, uleb_at, sleb_at, text_at, take_at, part_at};
ghost use Rattle.leb_cursor.specs.Passes.{Passes};

/// A number of one, two, four or eight bytes is the number that std's `from_le_bytes` reads.
#[tactic(auto, unfolding(crate::specs::Readings::fixed_sum))]
pub fn fixed_is_word()
    ensures one { (bytes : List ℕ) → fixed_sum 1 bytes ≡ from_le_bytes w8 bytes }
    ensures two { (bytes : List ℕ) → fixed_sum 2 bytes ≡ from_le_bytes w16 bytes }
    ensures four { (bytes : List ℕ) → fixed_sum 4 bytes ≡ from_le_bytes w32 bytes }
    ensures eight { (bytes : List ℕ) → fixed_sum 8 bytes ≡ from_le_bytes w64 bytes }
{}

/// Each reading passes the bytes that it reads, and never goes past the end. A LEB128 and a text pass at least one byte. So a list that is read up to
/// the end has no more members than bytes.
#[tactic(auto, using(crate::proofs::PassLemmas::fixed_passes, crate::proofs::PassLemmas::uleb_passes, crate::proofs::PassLemmas::sleb_passes, crate::proofs::PassLemmas::text_passes, crate::proofs::PassLemmas::take_passes, crate::proofs::PassLemmas::part_passes))]
pub fn readings_pass()
    ensures fixed { (width : ℕ) (c : Ahead) → Passes width c (fixed_at width c) }
    ensures uleb { (c : Ahead) → Passes 1 c (uleb_at c) }
    ensures sleb { (c : Ahead) → Passes 1 c (sleb_at c) }
    ensures text { (c : Ahead) → Passes 1 c (text_at c) }
    ensures take { (n : ℕ) (c : Ahead) → Passes n c (take_at n c) }
    ensures part { (n : ℕ) (c : Ahead) → Passes n c (part_at n c) }
{}
