//! Spans of addresses.
ghost use Rattle.std.specs.Prelude.{◌≡◌, ◌<◌};

use std::marker::Model;

/// The addresses from `start` up to `end`, without `end`. A span is never empty.
#[derive(Clone, Copy, Debug, PartialEq, Eq)]
pub struct Span {
    start: u64,
    end: u64,
}

impl Model for Span {
    ghost use Rattle.std.specs.Prelude.{◌<◌};
    ghost use Rattle.sym_edges.specs.Addresses.{Range};

    ghost Value = { Range };

    ghost view = { λ s. record { start = s.start; end = s.end } };

    ghost invariant = { λ s. s.start < s.end };

    ghost inverse = { λ r. record { start = r.start; end = r.end } };
}

impl Span {
    pub fn new(start: u64, end: u64) -> Span
        requires { start < end }
        ensures { result ≡ record { start = start; end = end } }
    {
        Span { start, end }
    }

    pub fn start(self) -> u64
        ensures start { result ≡ self.start }
        ensures ordered { self.start < self.end }
    {
        self.start
    }

    pub fn end(self) -> u64
        ensures end { result ≡ self.end }
        ensures ordered { self.start < self.end }
    {
        self.end
    }
}
