//! The ranges of the entries that are written.
ghost use Rattle.std.specs.Prelude.{◌≡◌, ℕ, ◌<◌, ◌∷◌, [], ◌++◌, false, length, take, slice_index_or, Some, None, MatchOption, IfOk, OnOk};
ghost use Rattle.sym_edges.specs.Addresses.{Range};
ghost use Rattle.range_union.specs.Ranges.{any_overlap, range_to};
ghost use Rattle.rule_postfix.specs.internal.Taken.{AreRising, AreAlike};

use range_union::RangeUnion;
use std::alloc::Global;
use std::marker::Model;
use sym_edges::{OutOfMemory, Span};

/// Ranges of addresses in the order in which they were put, no two of which overlap; `top` is at or above all their ends. Once a range starts below
/// the end of an earlier one, `united` has their union too.
#[derive(Drop)]
pub struct WrittenRanges {
    spans: Vec<Span>,
    united: Option<RangeUnion>,
    top: u64,
}

impl Model for WrittenRanges {
    ghost use Rattle.std.specs.Prelude.{List};
    ghost use Rattle.sym_edges.specs.Addresses.{Range};
    ghost use Rattle.rule_postfix.specs.internal.Taken.{AreTaken};

    ghost Value = { List Range };

    ghost view = { λ t. t.spans.items };

    ghost invariant = { λ t. AreTaken t.spans.items t.united t.top };
}

/// Whether a range that is not empty overlaps one of a rising list: the first range that ends above `start` decides.
fn meets_rising(spans: &[Span], start: u64, end: u64) -> bool
    requires rising { AreRising 0 spans.now }
    requires some { start < end }
    ensures { result ≡ any_overlap (range_to start end) spans.now }
{
    let first = spans.partition_point(|span| span.end() <= start);
    match spans.get(first) {
        Some(span) => span.start() < end,
        None => false,
    }
}

/// The union of ranges, none of which overlaps an earlier one.
fn union_of(alloc: Global, spans: &[Span]) -> Result<RangeUnion, OutOfMemory>
    requires { (k : ℕ) (d : Range) → k < length spans.now → any_overlap (slice_index_or spans.now k d) (take k spans.now) ≡ false }
    ensures { IfOk result (λ united. AreAlike spans.now united) }
{
    let mut united = RangeUnion::new(alloc);
    'spans: for k in 0..spans.len() {
        let span = spans[k];
        united.add(u128::from(span.start()), u128::from(span.end()))?;
    }
    Ok(united)
}

/// The union of ranges, none of which overlaps an earlier one, and of one more, which overlaps none of them.
fn union_with(
    alloc: Global,
    spans: &[Span],
    start: u64,
    end: u64,
) -> Result<RangeUnion, OutOfMemory>
    requires old { (k : ℕ) (d : Range) → k < length spans.now → any_overlap (slice_index_or spans.now k d) (take k spans.now) ≡ false }
    requires some { start < end }
    requires apart { any_overlap (range_to start end) spans.now ≡ false }
    ensures { IfOk result (λ united. AreAlike (spans.now ++ range_to start end ∷ []) united) }
{
    let mut united = union_of(alloc, spans)?;
    united.add(u128::from(start), u128::from(end))?;
    Ok(united)
}

impl WrittenRanges {
    pub fn new(alloc: Global) -> WrittenRanges
        ensures { result ≡ [] }
    {
        WrittenRanges {
            spans: Vec::new(alloc),
            united: None,
            top: 0,
        }
    }

    /// The ranges in the order in which they were put: none overlaps an earlier one.
    pub fn as_slice(&self) -> &[Span]
        ensures value { result.now ≡ self.now }
        ensures apart { (k : ℕ) (d : Range) → k < length self.now → any_overlap (slice_index_or self.now k d) (take k self.now) ≡ false }
    {
        self.spans.as_slice()
    }

    /// Whether a range that is not empty overlaps one of these. A range that starts after all of them, as most do, overlaps none.
    #[tactic(auto, using(crate::proofs::OverlapLemmas::none_reaches))]
    pub fn meets(&self, start: u64, end: u64) -> bool
        requires { start < end }
        ensures { result ≡ any_overlap (range_to start end) self.now }
    {
        if self.top <= start {
            return false;
        }
        match &self.united {
            Some(united) => united.meets(u128::from(start), u128::from(end)),
            None => meets_rising(self.spans.as_slice(), start, end),
        }
    }

    /// Puts a range, which is not empty and overlaps none of the others.
    pub fn put(&mut self, alloc: Global, start: u64, end: u64) -> Result<(), OutOfMemory>
        requires some { start < end }
        requires apart { any_overlap (range_to start end) self.old ≡ false }
        ensures { OnOk result (self.new ≡ self.old ++ range_to start end ∷ []) }
    {
        self.spans.reserve(1)?;
        if let Some(united) = &mut self.united {
            united.add(u128::from(start), u128::from(end))?;
        } else if start < self.top {
            self.united = Some(union_with(alloc, self.spans.as_slice(), start, end)?);
        }
        self.spans.push_reserved(Span::new(start, end));
        self.top = self.top.max(end);
        Ok(())
    }
}
