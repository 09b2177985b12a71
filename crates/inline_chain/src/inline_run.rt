//! The types of inlined copies.
use range_set::RangeSet;
use std::marker::Model;
use sym_edges::ListOf;

/// An inlined copy on the chains of a piece's addresses: its level, the number of its entry in the unit, and the addresses of the piece at which it
/// is on the chain at that level, in at most 16,384 spans.
#[derive(Debug, Drop)]
pub struct InlineRun {
    pub level: u32,
    pub entry: u32,
    pub spans: RangeSet,
}

impl Model for InlineRun {
    ghost use Rattle.inline_chain.specs.InlineRuns.{InlineParts};

    ghost Value = { InlineParts };

    ghost view = { λ r. record { level = r.level; entry = r.entry; spans = r.spans } };
}

/// Inlined copies by level and first address.
pub type InlineRuns = ListOf<InlineRun>;
