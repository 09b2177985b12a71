//! Making a set from spans in the order of their starts.
ghost use Rattle.std.specs.Prelude.{◌≡◌, ℕ, ◌<◌, ◌≤◌, ◌||◌, ◌&&◌, max, nat_le, nat_lt, List, [], length, IsOk, IfOk, OnOk};
ghost use Rattle.range_set.specs.Members.{holds, holds_any};
ghost use Rattle.range_set.specs.Building.{last_start};

use crate::set::RangeSet;
use std::alloc::Global;
use std::marker::Model;
use sym_edges::{OutOfMemory, Span};

/// A set that is made from spans in the order of their starts. Contracts see it as the list of its
/// spans so far.
///
/// The last span is stored apart, since the next span may widen it. So a set of one span allocates
/// no memory while it is made.
#[derive(Drop)]
pub(crate) struct SetBuilder {
    done: Vec<Span>,
    last: Option<Span>,
}

impl Model for SetBuilder {
    ghost use Rattle.std.specs.Prelude.{List, ◌++◌};
    ghost use Rattle.std.specs.Option.{option_to_list};
    ghost use Rattle.sym_edges.specs.Addresses.{Range};
    ghost use Rattle.range_set.specs.Building.{IsBuilt};

    ghost Value = { List Range };

    ghost view = { λ b. b.done.items ++ option_to_list b.last };

    ghost invariant = { λ b. IsBuilt b.done.items b.last };
}

impl SetBuilder {
    pub(crate) fn new(alloc: Global) -> SetBuilder
        ensures { result ≡ [] }
    {
        SetBuilder {
            done: Vec::new(alloc),
            last: None,
        }
    }

    /// Adds a span that starts at or above the start of each span so far.
    pub(crate) fn push(&mut self, span: Span) -> Result<(), OutOfMemory>
        requires { last_start self.old ≤ span.start }
        ensures members { OnOk result ((a : ℕ) → holds_any self.new a ≡ (holds_any self.old a || holds span a)) }
        ensures last { OnOk result (last_start self.new ≤ span.start) }
    {
        match self.last {
            None => self.last = Some(span),
            Some(last) => {
                if span.start() <= last.end() {
                    let end = last.end().max(span.end());
                    self.last = Some(Span::new(last.start(), end));
                } else {
                    self.done.push(last)?;
                    self.last = Some(span);
                }
            }
        }
        Ok(())
    }

    pub(crate) fn finish(self) -> Result<RangeSet, OutOfMemory>
        ensures same { IfOk result (λ set. set ≡ self) }
    {
        let SetBuilder { mut done, last } = self;
        match last {
            None => Ok(RangeSet::empty()),
            Some(last) if done.is_empty() => Ok(RangeSet::of_span(last)),
            Some(last) => {
                done.push(last)?;
                Ok(RangeSet::of_many(done))
            }
        }
    }
}
