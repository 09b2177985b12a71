//! The numbers of the paths and names in use.
ghost use Rattle.std.specs.Prelude.{◌≡◌, ℕ, ◌<◌, ◌^◌, false, map, length, Any, slice_get, IfSome, IfNone, IfOk, true, vec_len, unwrap_or};
ghost use Rattle.std.specs.Str.{bytes_eq};
ghost use Rattle.std.specs.List.Sorted.{IsStrictlySortedBy};
ghost use Rattle.func_records.specs.internal.Texts.{text_cmp};
ghost use Rattle.func_records.specs.internal.Gathering.{bytes_of};
ghost use Rattle.func_records.specs.internal.Spelling.{number_or_0};

use crate::found::FoundShare;
use crate::path_numbers::PathNumbers;
use std::alloc::Global;
use sym_edges::OutOfMemory;

/// The numbers in the text: those of the paths in each unit's table, that of the text for an unknown path, and those of the names that the entries of
/// some shares give.
#[derive(Clone, Copy)]
pub struct Numbers<'n, 'a> {
    pub rows: &'n PathNumbers<'n, 'a>,
    pub omitted: u32,
    pub entries: &'n [FoundShare],
    pub numbers: &'n [u32],
}

/// The place of a text among sorted texts, by binary search.
fn find_text(sorted: &[&[u8]], text: &[u8]) -> Option<usize>
    requires { IsStrictlySortedBy text_cmp sorted.now }
    ensures none { IfNone result (Any (λ t. bytes_eq text.now t.now ≡ true) sorted.now → ⊥) }
    ensures found { IfSome result (λ n. slice_get (map (λ t. t.now) sorted.now) n ≡ Some text.now) }
    ensures inside { IfSome result (λ n. n < length sorted.now) }
{
    match sorted.binary_search(&text) {
        Ok(place) => Some(place),
        Err(_) => None,
    }
}

/// The number of a text in use, and 0 for other texts.
pub fn number_of(sorted: &[&[u8]], path: &[u8]) -> u32
    requires sorted { IsStrictlySortedBy text_cmp sorted.now }
    requires few { length sorted.now < 2 ^ 32 }
    ensures { result ≡ number_or_0 (bytes_of sorted.now) path.now }
{
    match find_text(sorted, path) {
        Some(place) => place as u32,
        None => 0,
    }
}

/// Whether two texts have the same bytes.
fn is_text(found: &[u8], text: &[u8]) -> bool
    ensures { result ≡ bytes_eq found.now text.now }
{
    found == text
}

/// The number of a text in use, and 0 for other texts. The place `guess` is tried first.
pub fn number_guessed(sorted: &[&[u8]], text: &[u8], guess: u32) -> u32
    requires sorted { IsStrictlySortedBy text_cmp sorted.now }
    requires few { length sorted.now < 2 ^ 32 }
    ensures { result ≡ number_or_0 (bytes_of sorted.now) text.now }
{
    let place = guess as usize;
    if place >= sorted.len() {
        return number_of(sorted, text);
    }
    let found = sorted[place];
    if is_text(found, text) {
        return guess;
    }
    number_of(sorted, text)
}

/// The numbers of texts. For each text its place in `guesses` is tried first.
pub fn numbers_of(
    alloc: Global,
    sorted: &[&[u8]],
    texts: &[&[u8]],
    guesses: &[u32],
) -> Result<Vec<u32>, OutOfMemory>
    requires sorted { IsStrictlySortedBy text_cmp sorted.now }
    requires few { length sorted.now < 2 ^ 32 }
    ensures { IfOk result (λ numbers. numbers.items ≡ map (number_or_0 (bytes_of sorted.now)) (bytes_of texts.now)) }
{
    let mut numbers = Vec::with_capacity(alloc, texts.len())?;
    'texts: for place in 0..texts.len() {
        let guess = number_in(guesses, place);
        numbers.push(number_guessed(sorted, texts[place], guess))?;
    }
    Ok(numbers)
}

/// The numbers at some places; 0 for a place after the end.
pub fn numbers_at(alloc: Global, numbers: &[u32], places: &[u32]) -> Result<Vec<u32>, OutOfMemory>
    ensures { IfOk result (λ found. found.items ≡ map (λ k. unwrap_or (slice_get numbers.now k) 0) places.now) }
{
    let mut found = Vec::with_capacity(alloc, places.len())?;
    let mut rest = places;
    'places: while let Some((place, later)) = rest.split_first() {
        found.push(number_in(numbers, *place as usize))?;
        rest = later;
    }
    Ok(found)
}

/// The number at a place, or 0.
pub fn number_in(numbers: &[u32], place: usize) -> u32
    ensures { result ≡ unwrap_or (slice_get numbers.now place) 0 }
{
    match numbers.get(place) {
        Some(number) => *number,
        None => 0,
    }
}
