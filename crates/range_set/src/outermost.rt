//! Whether one span encloses a range of addresses.
ghost use Rattle.std.specs.Prelude.{◌≡◌, ℕ, List, IfOk};
ghost use Rattle.sym_edges.specs.Addresses.{Range};
ghost use Rattle.range_set.specs.Building.{AreAscending};
ghost use Rattle.range_set.specs.Enclosing.{encloses};
ghost use Rattle.range_set.specs.Building.{AreRising};

use crate::merge::sorted_copy;
use std::alloc::{AllocError, Global};
use std::marker::Model;
use sym_edges::{OutOfMemory, Span};

/// The spans of a slice, without those that lie in another span. A look-up in them says whether one span encloses a range of addresses. Spans that
/// touch or overlap are not joined: a range across two of them is enclosed by none.
#[derive(Debug, Drop)]
pub struct Enclosing {
    outermost: Vec<Span>,
}

impl Model for Enclosing {
    ghost use Rattle.std.specs.Prelude.{List};
    ghost use Rattle.sym_edges.specs.Addresses.{Range};
    ghost use Rattle.range_set.specs.Building.{AreRising};

    ghost Value = { List Range };

    ghost view = { λ e. e.outermost.items };

    ghost invariant = { λ e. AreRising e.outermost.items };
}

impl Enclosing {
    /// Keeps the outermost spans of a sorted copy.
    pub fn of_spans(alloc: Global, spans: &[Span]) -> Result<Enclosing, OutOfMemory>
        ensures same { IfOk result (λ kept. (start end : ℕ) → encloses kept start end ≡ encloses spans.now start end) }
    {
        let sorted = sorted_copy(alloc, spans)?;
        let outermost = keep_outermost(alloc, sorted.as_slice())?;
        Ok(Enclosing { outermost })
    }

    /// Whether one of the spans starts at or below `start` and ends at or above `end`, by a binary
    /// search. Allocates no memory.
    pub fn encloses(&self, start: u64, end: u64) -> bool
        ensures { result ≡ encloses self.now start end }
    {
        is_enclosed(self.outermost.as_slice(), start, end)
    }
}

/// Of spans in the order of their starts, those that end above the ends of all spans before them.
fn keep_outermost(alloc: Global, spans: &[Span]) -> Result<Vec<Span>, AllocError>
    requires { AreAscending spans.now }
    ensures same { IfOk result (λ kept. (start end : ℕ) → encloses kept.items start end ≡ encloses spans.now start end) }
    ensures rising { IfOk result (λ kept. AreRising kept.items) }
{
    let mut kept = Vec::new(alloc);
    let mut reach = 0;
    let mut rest = spans;
    'spans: while let Some((span, after)) = rest.split_first() {
        if reach < span.end() {
            kept.push(*span)?;
            reach = span.end();
        }
        rest = after;
    }
    Ok(kept)
}

/// Whether one of the spans encloses a range. A binary search finds the last span that starts at or
/// below the range's start; its end decides.
fn is_enclosed(spans: &[Span], start: u64, end: u64) -> bool
    requires { AreRising spans.now }
    ensures { result ≡ encloses spans.now start end }
{
    let count = spans.partition_point(|span| span.start() <= start);
    if count == 0 {
        return false;
    }
    end <= spans[count - 1].end()
}
