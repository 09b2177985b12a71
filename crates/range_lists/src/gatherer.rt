//! The ranges of an entry, gathered while its list is read.
ghost use Rattle.std.specs.Prelude.{◌≡◌, ℕ, ◌||◌, ◌&&◌, [], ◌∷◌, IfOk, IfSome, OnOk};
ghost use Rattle.std.specs.Option.{option_to_list};
ghost use Rattle.range_set.specs.Members.{holds, holds_any};
ghost use Rattle.range_lists.specs.ListPairs.{base_after, pair_of};
ghost use Rattle.range_lists.specs.EntryRanges.{is_code, in_pairs};

use crate::effect::Effect;
use range_set::{Enclosing, RangeSet, of_owned};
use std::alloc::Global;
use std::marker::Model;
use sym_edges::{OutOfMemory, Span};

/// The ranges so far. The last one is separate, since the next one may widen it: if each range touches or overlaps the one before, no memory is
/// allocated.
#[derive(Drop)]
pub struct Gathering {
    done: Vec<Span>,
    last: Option<Span>,
}

impl Model for Gathering {
    ghost use Rattle.std.specs.Prelude.{List, ◌++◌};
    ghost use Rattle.std.specs.Option.{option_to_list};
    ghost use Rattle.sym_edges.specs.Addresses.{Range};

    ghost Value = { List Range };

    ghost view = { λ g. g.done.items ++ option_to_list g.last };
}

/// One range with the addresses of two ranges, if they touch or overlap.
#[inline]
fn joined(last: Span, span: Span) -> Option<Span>
    ensures { IfSome result (λ both. (a : ℕ) → holds both a ≡ (holds last a || holds span a)) }
{
    if span.start() > last.end() {
        return None;
    }
    if last.start() > span.end() {
        return None;
    }
    let start = last.start().min(span.start());
    let end = last.end().max(span.end());
    Some(Span::new(start, end))
}

/// A pair of addresses as a range, if it is code.
#[inline]
fn code_span(code: &Enclosing, start: u64, end: u64) -> Option<Span>
    ensures { (a : ℕ) → holds_any (option_to_list result) a ≡ in_pairs code.now (record { start = start; end = end } ∷ []) a }
{
    if start < end && code.encloses(start, end) {
        return Some(Span::new(start, end));
    }
    None
}

/// The set of the addresses in a pair, if it is code. Allocates no memory.
#[inline]
pub fn set_of_pair(code: &Enclosing, start: u64, end: u64) -> RangeSet
    ensures { (a : ℕ) → holds_any result a ≡ in_pairs code.now (record { start = start; end = end } ∷ []) a }
{
    match code_span(code, start, end) {
        Some(span) => RangeSet::of_span(span),
        None => RangeSet::empty(),
    }
}

impl Gathering {
    pub fn new(alloc: Global) -> Gathering
        ensures { result ≡ [] }
    {
        Gathering {
            done: Vec::new(alloc),
            last: None,
        }
    }

    /// Adds a range.
    #[inline]
    fn push(&mut self, span: Span) -> Result<(), OutOfMemory>
        ensures { OnOk result ((a : ℕ) → holds_any self.new a ≡ (holds_any self.old a || holds span a)) }
    {
        match self.last {
            None => self.last = Some(span),
            Some(last) => match joined(last, span) {
                Some(both) => self.last = Some(both),
                None => {
                    self.done.push(last)?;
                    self.last = Some(span);
                }
            },
        }
        Ok(())
    }

    /// Adds a pair of addresses, if it is code.
    #[inline]
    fn add(&mut self, code: &Enclosing, start: u64, end: u64) -> Result<(), OutOfMemory>
        ensures { OnOk result ((a : ℕ) → holds_any self.new a ≡ (holds_any self.old a || in_pairs code.now (record { start = start; end = end } ∷ []) a)) }
    {
        if let Some(span) = code_span(code, start, end) {
            self.push(span)?;
        }
        Ok(())
    }

    /// Adds the pair that an item gives, and returns the base after the item.
    #[inline]
    pub fn take(&mut self, code: &Enclosing, base: u64, effect: Effect) -> Result<u64, OutOfMemory>
        ensures base { IfOk result (λ after. after ≡ base_after base effect) }
        ensures members { OnOk result ((a : ℕ) → holds_any self.new a ≡ (holds_any self.old a || in_pairs code.now (pair_of base effect) a)) }
    {
        match effect {
            Effect::SetBase { address } => Ok(address),
            Effect::Absolute { start, end } => {
                self.add(code, start, end)?;
                Ok(base)
            }
            Effect::Relative { start, end } => {
                self.add(code, base.wrapping_add(start), base.wrapping_add(end))?;
                Ok(base)
            }
        }
    }

    /// The set of the addresses in these ranges. For a single range it allocates no memory.
    pub fn finish(self, alloc: Global) -> Result<RangeSet, OutOfMemory>
        ensures { IfOk result (λ set. (a : ℕ) → holds_any set a ≡ holds_any self a) }
    {
        let Gathering { mut done, last } = self;
        if let Some(last) = last {
            if done.is_empty() {
                return Ok(RangeSet::of_span(last));
            }
            done.push(last)?;
        }
        of_owned(alloc, done)
    }
}
