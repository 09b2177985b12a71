//! Sets of addresses.
ghost use Rattle.std.specs.Prelude.{◌≡◌, ℕ, ◌&&◌, ◌||◌, ◌==◌, not, [], ◌∷◌, length, slice_get, IfOk};
ghost use Rattle.std.specs.Option.{option_copied};
ghost use Rattle.range_set.specs.Members.{holds_any};
ghost use Rattle.range_set.specs.Canonical.{IsCanonical};

use crate::difference::minus_spans;
use crate::intersection::meet_spans;
use crate::merge::join_spans;
use crate::search::is_held;
use std::alloc::Global;
use std::marker::Model;
use std::slice;
use sym_edges::{OutOfMemory, Span};

/// A set of addresses: spans that are sorted and disjoint and do not touch.
#[derive(Debug, Drop)]
pub struct RangeSet {
    kept: Kept,
}

/// The stored spans. Only two or more of them need allocated memory.
#[derive(Debug, Drop)]
enum Kept {
    Empty,
    One(Span),
    Many(Vec<Span>),
}

impl Model for RangeSet {
    ghost use Rattle.std.specs.Prelude.{List};
    ghost use Rattle.sym_edges.specs.Addresses.{Range};
    ghost use Rattle.range_set.specs.Canonical.{IsCanonical};

    ghost Value = { List Range };

    ghost use Rattle.range_set.specs.internal.Kept.{kept_ranges};

    ghost view = { λ s. kept_ranges s.kept };

    ghost invariant = { λ s. IsCanonical (kept_ranges s.kept) };
}

impl RangeSet {
    /// The set with no address. Allocates no memory.
    pub fn empty() -> RangeSet
        ensures { result ≡ [] }
    {
        RangeSet { kept: Kept::Empty }
    }

    /// The set of the addresses of one span. Allocates no memory.
    pub fn of_span(span: Span) -> RangeSet
        ensures { result ≡ span ∷ [] }
    {
        prove!(span.start() < span.end());
        RangeSet {
            kept: Kept::One(span),
        }
    }

    pub(crate) fn of_many(spans: Vec<Span>) -> RangeSet
        requires { IsCanonical spans.items }
        ensures { result ≡ spans.items }
    {
        RangeSet {
            kept: Kept::Many(spans),
        }
    }

    /// Whether the address is in the set, by a binary search. Allocates no memory.
    pub fn has(&self, a: u64) -> bool
        ensures { result ≡ holds_any self.now a }
    {
        is_held(self.spans(), a)
    }

    /// The set of the addresses that are in both sets, by one merge.
    pub fn meet(&self, alloc: Global, other: &RangeSet) -> Result<RangeSet, OutOfMemory>
        ensures members { IfOk result (λ set. (a : ℕ) → holds_any set a ≡ (holds_any self.now a && holds_any other.now a)) }
    {
        meet_spans(alloc, self.spans(), other.spans())
    }

    /// The set of the addresses that are in this set and not in the other, by one merge.
    pub fn minus(&self, alloc: Global, other: &RangeSet) -> Result<RangeSet, OutOfMemory>
        ensures members { IfOk result (λ set. (a : ℕ) → holds_any set a ≡ (holds_any self.now a && not (holds_any other.now a))) }
    {
        minus_spans(alloc, self.spans(), other.spans())
    }

    /// The set of the addresses that are in either set, by one merge.
    pub fn join(&self, alloc: Global, other: &RangeSet) -> Result<RangeSet, OutOfMemory>
        ensures members { IfOk result (λ set. (a : ℕ) → holds_any set a ≡ (holds_any self.now a || holds_any other.now a)) }
    {
        join_spans(alloc, self.spans(), other.spans())
    }

    /// The spans of the set, ascending.
    pub fn spans(&self) -> &[Span]
        ensures same { result.now ≡ self.now }
        ensures canonical { IsCanonical self.now }
    {
        match &self.kept {
            Kept::Empty => &[],
            Kept::One(span) => slice::from_ref(span),
            Kept::Many(spans) => spans.as_slice(),
        }
    }

    /// The spans of the set, ascending; the same as `spans`.
    pub fn as_slice(&self) -> &[Span]
        ensures same { result.now ≡ self.now }
        ensures canonical { IsCanonical self.now }
    {
        self.spans()
    }

    /// The number of spans.
    pub fn len(&self) -> usize
        ensures { result ≡ length self.now }
    {
        self.spans().len()
    }

    pub fn is_empty(&self) -> bool
        ensures { result ≡ (length self.now == 0) }
    {
        self.spans().is_empty()
    }

    pub fn get(&self, i: usize) -> Option<&Span>
        ensures { option_copied result ≡ slice_get self.now i }
    {
        self.spans().get(i)
    }
}
