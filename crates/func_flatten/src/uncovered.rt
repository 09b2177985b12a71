//! The function symbols that no piece covers.
ghost use Rattle.std.specs.Prelude.{◌≡◌, ℕ, ◌<◌, ◌≤◌, ◌∷◌, ◌++◌, ◌||◌, not, length, map, filter, true, take, drop, IfOk, OnOk};
ghost use Rattle.std.specs.List.{list_all, list_any};
ghost use Rattle.std.specs.Str.{bytes_eq};
ghost use Rattle.elf_sections.specs.Symbols.{symbol_view};
ghost use Rattle.clean_names.specs.Cleaning.{cleaned};
ghost use Rattle.range_set.specs.Members.{holds_any};
ghost use Rattle.range_set.specs.Canonical.{IsCanonical};
ghost use Rattle.func_flatten.specs.Publics.{publics, publics_where, is_inside, stands_at, names_of, public_named, public_view};
ghost use Rattle.func_flatten.specs.internal.Grouping.{IsOrdered, starts_elsewhere, group_public};

use crate::piece::{Piece, PieceList};
use crate::public::{PublicAt, PublicList};
use clean_names::clean;
use elf_sections::{Image, Symbol};
use range_set::of_ranges;
use std::alloc::{AllocError, Global};
use sym_edges::{ListOf, OutOfMemory, Span};

/// The symbols sorted by address; those with the same address keep their order.
pub(crate) fn sorted_symbols<'a>(
    alloc: Global,
    symbols: &[Symbol<'a>],
) -> Result<Vec<Symbol<'a>>, AllocError>
    ensures order { IfOk result (λ v. IsOrdered (map symbol_view v.items)) }
    ensures groups { IfOk result (λ v. (a : ℕ) → filter (stands_at a) (map symbol_view v.items) ≡ filter (stands_at a) (map symbol_view symbols.now)) }
{
    let mut sorted = Vec::from_slice(alloc, symbols)?;
    sorted.sort_by_key(|symbol| symbol.address)?;
    Ok(sorted)
}

/// How many symbols at the start of the list have the address.
fn group_len(symbols: &[Symbol<'_>], address: u64) -> usize
    ensures inside { result ≤ length symbols.now }
    ensures group { list_all (stands_at address) (map symbol_view (take result symbols.now)) ≡ true }
    ensures next { starts_elsewhere address (map symbol_view (drop result symbols.now)) ≡ true }
{
    'symbols: for (k, symbol) in symbols.iter().enumerate() {
        if symbol.address != address {
            return k;
        }
    }
    symbols.len()
}

/// Whether a symbol's cleaned name differs from that of the first one.
fn is_other_name(alloc: Global, first: &[u8], symbol: &Symbol<'_>) -> Result<bool, OutOfMemory>
    ensures { IfOk result (λ found. found ≡ not (bytes_eq (cleaned (symbol_view symbol.now).name) (cleaned first.now))) }
{
    if symbol.name == first {
        return Ok(false);
    }
    let name = clean(alloc, first)?;
    let other = clean(alloc, symbol.name)?;
    Ok(other.as_slice() != name.as_slice())
}

/// Whether some symbol's cleaned name differs from that of the first one.
fn has_other_name(alloc: Global, first: &[u8], others: &[Symbol<'_>]) -> Result<bool, OutOfMemory>
    ensures { IfOk result (λ found. found ≡ list_any (λ other. not (bytes_eq other (cleaned first.now))) (names_of (map symbol_view others.now))) }
{
    'others: for symbol in others {
        if is_other_name(alloc, first, symbol)? {
            return Ok(true);
        }
    }
    Ok(false)
}

/// What a PUBLIC record says of the address of some symbols.
fn public_of<'a>(
    alloc: Global,
    first: &Symbol<'a>,
    others: &[Symbol<'_>],
) -> Result<PublicAt<'a>, OutOfMemory>
    ensures { IfOk result (λ p. public_view p ≡ public_named first.now.address (names_of (symbol_view first.now ∷ map symbol_view others.now))) }
{
    let many = has_other_name(alloc, first.name, others)?;
    Ok(PublicAt {
        address: first.address,
        name: first.name,
        many,
    })
}

/// Adds what a PUBLIC record says of a group of symbols with one address, unless the address is
/// covered.
fn add_group<'a>(
    alloc: Global,
    publics: &mut Vec<PublicAt<'a>>,
    covered: bool,
    group: &[Symbol<'a>],
) -> Result<(), OutOfMemory>
    ensures { OnOk result (map public_view publics.new.items ≡ map public_view publics.old.items ++ group_public covered (map symbol_view group.now)) }
{
    if covered {
        return Ok(());
    }
    if group.is_empty() {
        return Ok(());
    }
    let public = public_of(alloc, &group[0], group.split_at(1).1)?;
    publics.push(public)?;
    Ok(())
}

/// The spans that end above an address, and whether one of them has it.
fn pass_to(spans: &[Span], address: u64) -> (&[Span], bool)
    requires { IsCanonical spans.now }
    ensures canonical { IsCanonical result.0.now }
    ensures above { (b : ℕ) → address ≤ b → holds_any result.0.now b ≡ holds_any spans.now b }
    ensures covered { result.1 ≡ holds_any spans.now address }
{
    let mut rest = spans;
    'spans: while let Some((span, later)) = rest.split_first() {
        if address < span.end() {
            return (rest, span.start() <= address);
        }
        rest = later;
    }
    (rest, false)
}

/// What PUBLIC records say of symbols that are sorted by address, except those that the spans
/// cover.
pub(crate) fn publics_beside<'a>(
    alloc: Global,
    sorted: &[Symbol<'a>],
    spans: &[Span],
) -> Result<Vec<PublicAt<'a>>, OutOfMemory>
    requires ordered { IsOrdered (map symbol_view sorted.now) }
    requires canonical { IsCanonical spans.now }
    ensures { IfOk result (λ publics. map public_view publics.items ≡ publics_where (holds_any spans.now) (map symbol_view sorted.now)) }
{
    let mut publics = Vec::new(alloc);
    let mut rest = spans;
    let mut at = 0;
    'groups: while at < sorted.len() {
        let address = sorted[at].address;
        let (beyond, covered) = pass_to(rest, address);
        rest = beyond;
        let left = sorted.split_at(at).1;
        let count = group_len(left, address);
        add_group(alloc, &mut publics, covered, left.split_at(count).0)?;
        at += count;
    }
    Ok(publics)
}

/// Adds the addresses of a piece.
#[tactic(auto, using(crate::proofs::PublicLemmas::span_push, crate::proofs::PublicLemmas::span_none))]
fn push_span(spans: &mut Vec<Span>, piece: &Piece) -> Result<(), AllocError>
    ensures { OnOk result ((a : ℕ) → holds_any spans.new.items a ≡ (holds_any spans.old.items a || is_inside a piece.now)) }
{
    if piece.end <= piece.start {
        return Ok(());
    }
    spans.push(Span::new(piece.start, piece.end))?;
    Ok(())
}

/// The spans of the pieces.
pub(crate) fn spans_of(alloc: Global, pieces: &[Piece]) -> Result<Vec<Span>, AllocError>
    ensures { IfOk result (λ spans. (a : ℕ) → holds_any spans.items a ≡ list_any (is_inside a) pieces.now) }
{
    let mut spans = Vec::with_capacity(alloc, pieces.len())?;
    'pieces: for k in 0..pieces.len() {
        push_span(&mut spans, &pieces[k])?;
    }
    Ok(spans)
}

/// The function symbols that no piece covers: one for each of their addresses, by address, with the name of the first symbol there, marked if another
/// symbol there has another cleaned name.
pub fn publics<'a>(
    alloc: Global,
    image: &Image<'a>,
    pieces: &PieceList,
) -> Result<PublicList<'a>, OutOfMemory>
    ensures { IfOk result (λ list. map public_view list ≡ publics pieces.now image.now.symbols) }
{
    let spans = spans_of(alloc, pieces.as_slice())?;
    let covered = of_ranges(alloc, spans.as_slice())?;
    let sorted = sorted_symbols(alloc, image.symbols())?;
    let found = publics_beside(alloc, sorted.as_slice(), covered.spans())?;
    Ok(ListOf::of(found))
}
