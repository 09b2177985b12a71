//! Sets of a thousand spans with ample memory, and the sizes of types (`range_set`).
use crate::comparison::same;
use range_set::{Enclosing, RangeSet, of_ranges};
use std::alloc::{AllocError, Global};
use std::mem::size_of;
use std::process::Abort;
use std::test::Fail;
use sym_edges::{OutOfMemory, Span};

const _: () = prove!(size_of::<RangeSet>() == 32);

const _: () = prove!(size_of::<Span>() == 16);

/// A thousand spans, each from `from` to `to` after a multiple of ten, in ascending or descending
/// order.
fn thousand(alloc: Global, from: u64, to: u64, rising: bool) -> Result<Vec<Span>, AllocError> {
    let mut spans = Vec::new(alloc);
    for k in 0..1000 {
        let tenth: u64 = if rising { k } else { 999 - k };
        let start = tenth.wrapping_mul(10).wrapping_add(from);
        let end = tenth.wrapping_mul(10).wrapping_add(to);
        if start < end {
            spans.push(Span::new(start, end))?;
        }
    }
    Ok(spans)
}

/// The starts and ends of spans, alternating.
fn ends_of(alloc: Global, spans: &[Span]) -> Result<Vec<u64>, AllocError> {
    let mut ends = Vec::new(alloc);
    for span in spans {
        ends.push(span.start())?;
        ends.push(span.end())?;
    }
    Ok(ends)
}

/// How a set is made.
#[derive(Clone, Copy)]
enum Form {
    Alone,
    Met,
    Less,
    Joined,
}

/// The set of the spans from 0 to 4 after each multiple of ten, alone, or combined with those from
/// 2 to 6.
fn set_by(alloc: Global, form: Form) -> Result<RangeSet, OutOfMemory> {
    let low = of_ranges(alloc, thousand(alloc, 0, 4, false)?.as_slice())?;
    if let Form::Alone = form {
        return Ok(low);
    }
    let high = of_ranges(alloc, thousand(alloc, 2, 6, false)?.as_slice())?;
    match form {
        Form::Met => low.meet(alloc, &high),
        Form::Less => low.minus(alloc, &high),
        _ => low.join(alloc, &high),
    }
}

/// A form, and where the spans of the set begin and end after each multiple of ten.
const SETS: [(&str, Form, u64, u64); 4] = [
    ("of_ranges", Form::Alone, 0, 4),
    ("meet", Form::Met, 2, 4),
    ("minus", Form::Less, 0, 2),
    ("join", Form::Joined, 0, 6),
];

fn expect_set(
    rt: &impl Abort,
    alloc: Global,
    (row, form, from, to): (&str, Form, u64, u64),
) -> Result<(), OutOfMemory> {
    let set = set_by(alloc, form)?;
    let found = ends_of(alloc, set.spans())?;
    let wanted = thousand(alloc, from, to, true)?;
    let wanted = ends_of(alloc, wanted.as_slice())?;
    same(rt, row, &found, &wanted);
    Ok(())
}

#[test]
fn sets_of_a_thousand_spans(rt: HostRuntime) -> Result<(), Fail> {
    for row in SETS {
        expect_set(&rt, rt.alloc(), row)?;
    }
    Ok(())
}

/// Spans, given where they begin and end.
fn spans_of(alloc: Global, ends: &[(u64, u64)]) -> Result<Vec<Span>, AllocError> {
    let mut spans = Vec::new(alloc);
    for (start, end) in ends {
        if start < end {
            spans.push(Span::new(*start, *end))?;
        }
    }
    Ok(spans)
}

/// The set of these spans.
fn set_of(alloc: Global, ends: &[(u64, u64)]) -> Result<RangeSet, OutOfMemory> {
    of_ranges(alloc, spans_of(alloc, ends)?.as_slice())
}

/// A set of spans that touch, given in no order; this set without a hole; a part of that; and that
/// set joined with the hole.
fn four_sets(alloc: Global) -> Result<[RangeSet; 4], OutOfMemory> {
    let whole = set_of(alloc, &[(5, 9), (1, 3), (3, 5)])?;
    let hole = set_of(alloc, &[(4, 6)])?;
    let left = whole.minus(alloc, &hole)?;
    let part = left.meet(alloc, &set_of(alloc, &[(3, 7)])?)?;
    let joined = left.join(alloc, &hole)?;
    Ok([whole, left, part, joined])
}

const FOUR: [&[u64]; 4] = [&[1, 9], &[1, 4, 6, 9], &[3, 4, 6, 7], &[1, 9]];

#[test]
fn sets_of_some_spans(rt: HostRuntime) -> Result<(), Fail> {
    let sets = four_sets(rt.alloc())?;
    for k in 0..4 {
        let ends = ends_of(rt.alloc(), sets[k].spans())?;
        same(&rt, "whole, left, part, joined", &ends, FOUR[k]);
    }
    Ok(())
}

#[test]
fn a_thousand_spans_enclose(rt: HostRuntime) -> Result<(), Fail> {
    let spans = thousand(rt.alloc(), 0, 4, true)?;
    let enclosing = Enclosing::of_spans(rt.alloc(), spans.as_slice())?;
    let found = [
        enclosing.encloses(0, 4),
        enclosing.encloses(9990, 9994),
        enclosing.encloses(0, 5),
        enclosing.encloses(4, 10),
    ];
    same(&rt, "Enclosing", &found, &[true, true, false, false]);
    Ok(())
}
