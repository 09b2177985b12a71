//! Stretches made from the spans of a set of addresses.
ghost use Rattle.std.specs.Prelude.{◌≡◌, ◌++◌, OnOk};
ghost use Rattle.step_maps.specs.SpanStretches.{span_stretches, AreFit};

use crate::stretch::Stretch;
use std::alloc::AllocError;
use sym_edges::Span;

/// Adds one stretch for each span of an item.
pub fn push_spans(
    stretches: &mut Vec<Stretch>,
    index: u32,
    class: u32,
    spans: &[Span],
) -> Result<(), AllocError>
    requires fit { AreFit stretches.old.items }
    ensures same { OnOk result (stretches.new.items ≡ stretches.old.items ++ span_stretches index class spans.now) }
    ensures fit { OnOk result (AreFit stretches.new.items) }
{
    let mut rest = spans;
    'spans: while let Some((span, later)) = rest.split_first() {
        stretches.push(Stretch {
            first: span.start(),
            last: span.end() - 1,
            index,
            class,
        })?;
        rest = later;
    }
    Ok(())
}
