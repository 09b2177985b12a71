//! Finding an address in a set, by a binary search.
ghost use Rattle.std.specs.Prelude.{◌≡◌};
ghost use Rattle.range_set.specs.Members.{holds_any};
ghost use Rattle.range_set.specs.Canonical.{IsCanonical};

use sym_edges::Span;

/// Whether the address is in a span of a set's list, by a binary search for the first span that ends above it.
pub(crate) fn is_held(spans: &[Span], a: u64) -> bool
    requires { IsCanonical spans.now }
    ensures { result ≡ holds_any spans.now a }
{
    let first = spans.partition_point(|span| span.end() <= a);
    match spans.get(first) {
        Some(span) => span.start() <= a,
        None => false,
    }
}
