//! The ranges of records, in the order of the records.
ghost use Rattle.std.specs.Prelude.{◌≡◌, ℕ, ◌<◌, ◌&&◌, ◌||◌, ◌∷◌, nat_lt, false, IfOk, OnOk};
ghost use Rattle.sym_records.specs.declared.line.Extent.{Extent};
ghost use Rattle.sym_meaning.specs.Findings.{run_of, meet};
ghost use Rattle.range_union.specs.Ranges.{overlap, any_overlap, range_to};
ghost use Rattle.sym_findings.specs.internal.Ranges.{is_met};

use range_union::RangeUnion;
use std::alloc::Global;
use std::marker::Model;
use sym_edges::OutOfMemory;

/// The ranges of the records so far. The last ones, if they touch each other, are stored separately
/// as one range, so that records in ascending order need no look-up.
#[derive(Drop)]
pub struct MetRanges {
    earlier: RangeUnion,
    start: u128,
    end: u128,
    top: u128,
}

impl Model for MetRanges {
    ghost use Rattle.std.specs.Prelude.{List, ◌∷◌};
    ghost use Rattle.sym_edges.specs.Addresses.{Range};
    ghost use Rattle.range_union.specs.Ranges.{range_to};
    ghost use Rattle.sym_findings.specs.internal.Ranges.{EndBy, IsTail};

    ghost Value = { List Range };

    ghost view = { λ t. range_to t.start t.end ∷ t.earlier };

    ghost invariant = { λ t. IsTail t.start t.end t.top × EndBy t.top t.earlier };
}

/// Whether a range, which must not be empty, overlaps the last range or an earlier one.
#[tactic(auto, unfolding(range_union::specs::Ranges::any_overlap))]
fn overlaps_any(
    earlier: &RangeUnion,
    last_start: u128,
    last_end: u128,
    start: u128,
    end: u128,
) -> bool
    requires { start < end }
    ensures { result ≡ any_overlap (range_to start end) (range_to last_start last_end ∷ earlier.now) }
{
    if start < last_end && last_start < end {
        return true;
    }
    earlier.meets(start, end)
}

/// Adds a range, which may be empty.
fn put_some(earlier: &mut RangeUnion, start: u128, end: u128) -> Result<(), OutOfMemory>
    ensures more { OnOk result ((a b : ℕ) → a < b → any_overlap (range_to a b) earlier.new ≡ (any_overlap (range_to a b) earlier.old || (nat_lt start end && overlap (range_to a b) (range_to start end)))) }
    ensures no_other { (a b : ℕ) → a < b → (any_overlap (range_to a b) earlier.old || overlap (range_to a b) (range_to start end)) ≡ false → any_overlap (range_to a b) earlier.new ≡ false }
{
    if start < end {
        earlier.put(start, end)?;
    }
    Ok(())
}

impl MetRanges {
    #[tactic(auto, using(crate::proofs::MeetingLemmas::tail_none, crate::proofs::MeetingLemmas::none_ends, crate::proofs::MeetingLemmas::none_met))]
    pub fn new(alloc: Global) -> MetRanges
        ensures { (e : Extent) → is_met result e ≡ false }
    {
        MetRanges {
            earlier: RangeUnion::new(alloc),
            start: 0,
            end: 0,
            top: 0,
        }
    }

    /// Adds the range of a record. Returns whether it overlaps that of an earlier record.
    #[tactic(auto, using(crate::proofs::MeetingLemmas::ends_put, crate::proofs::MeetingLemmas::ends_more))]
    pub fn put(&mut self, address: u64, size: u64) -> Result<bool, OutOfMemory>
        ensures met { IfOk result (λ met. met ≡ is_met self.old (run_of address size)) }
        ensures more { OnOk result ((e : Extent) → is_met self.new e ≡ (is_met self.old e || meet e (run_of address size))) }
    {
        let start = u128::from(address);
        let end = start + u128::from(size);
        if end <= start {
            return Ok(false);
        }
        if start < self.top {
            let met = overlaps_any(&self.earlier, self.start, self.end, start, end);
            self.top = self.top.max(end);
            self.earlier.put(start, end)?;
            return Ok(met);
        }
        if self.end == start {
            self.end = end;
            self.top = end;
            return Ok(false);
        }
        put_some(&mut self.earlier, self.start, self.end)?;
        self.start = start;
        self.end = end;
        self.top = end;
        Ok(false)
    }
}
