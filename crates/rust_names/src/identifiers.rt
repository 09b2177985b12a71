//! The identifiers of v0 names.
ghost use Rattle.std.specs.Prelude.{◌≡◌, ◌≤◌, length, drop, Some, true, IfOk, IfSome};
ghost use Rattle.std.specs.List.{list_all};
ghost use Rattle.std.specs.Option.{option_map};
ghost use Rattle.rust_names.specs.V0Identifiers as v0;
ghost use Rattle.rust_names.specs.V0Leaves.{shown_on};
ghost use Rattle.rust_names.specs.internal.Reading.{kept};

use crate::numbers::eat;
use crate::part::{count_digits, is_digit, number_upto};
use crate::texts::add;
use idna::{Errors, punycode};
use std::alloc::Global;
use sym_edges::OutOfMemory;

/// The length in bytes up to which an identifier is checked byte by byte.
const SHORT: usize = 64;

/// Whether a byte is a letter, a digit or `_`; most are lower-case letters.
#[inline(always)]
fn is_identifier_byte(b: u8) -> bool
    ensures { result ≡ v0.is_identifier_byte b }
{
    if b'a' <= b && b <= b'z' {
        return true;
    }
    (b'0' <= b && b <= b'9') || (b'A' <= b && b <= b'Z') || b == b'_'
}

/// Whether many bytes are letters, digits and `_`. All are looked at, since a loop without an early
/// exit can be vectorized.
#[inline(never)]
fn are_many_identifier_bytes(bytes: &[u8]) -> bool
    ensures { result ≡ list_all v0.is_identifier_byte bytes.now }
{
    let mut all = true;
    for at in 0..bytes.len() {
        let b = bytes[at];
        let digit = (b'0' <= b) & (b <= b'9');
        let capital = (b'A' <= b) & (b <= b'Z');
        let small = (b'a' <= b) & (b <= b'z');
        all = all & (digit | capital | (b == b'_') | small);
    }
    all
}

/// Whether bytes are letters, digits and `_`.
#[tactic(auto, using(crate::proofs::IdentifierLemmas::letters_more, crate::proofs::IdentifierLemmas::letters_stop, crate::proofs::IdentifierLemmas::letters_end))]
#[inline(always)]
fn are_identifier_bytes(bytes: &[u8]) -> bool
    ensures { result ≡ list_all v0.is_identifier_byte bytes.now }
{
    if bytes.len() > SHORT {
        return are_many_identifier_bytes(bytes);
    }
    for b in bytes {
        if !is_identifier_byte(*b) {
            return false;
        }
    }
    true
}

/// Whether bytes are digits of Punycode.
fn are_punycode_digits(bytes: &[u8]) -> bool
    ensures { result ≡ list_all v0.is_punycode_digit bytes.now }
{
    bytes.iter().all(|b| (b'0' <= *b && *b <= b'9') || (b'a' <= *b && *b <= b'z'))
}

/// The bytes before the last `_`, and the bytes after it.
fn split_at_mark(bytes: &[u8]) -> (&[u8], &[u8])
    ensures plain { result.0.now ≡ v0.punycode_plain bytes.now }
    ensures digits { result.1.now ≡ v0.punycode_digits bytes.now }
{
    let mut after = bytes.len();
    'marks: while after > 0 && bytes[after - 1] != b'_' {
        after -= 1;
    }
    if after == 0 {
        (&[], bytes)
    } else {
        (&bytes[..after - 1], &bytes[after..])
    }
}

/// Whether bytes may be an identifier.
#[tactic(auto, unfolding(crate::specs::V0Identifiers::is_identifier))]
#[inline(always)]
fn is_identifier(marked: bool, bytes: &[u8]) -> bool
    ensures { result ≡ v0.is_identifier marked bytes.now }
{
    if !are_identifier_bytes(bytes) {
        return false;
    }
    if !marked {
        return true;
    }
    let digits = split_at_mark(bytes).1;
    !digits.is_empty() && are_punycode_digits(digits)
}

/// A length of one digit; most lengths have only one. May return `None` although there is a length.
#[tactic(auto, using(crate::proofs::IdentifierLemmas::one_digit_length))]
#[inline(always)]
fn short_length(bytes: &[u8]) -> Option<usize>
    ensures length { IfSome result (λ n. Some (n, drop 1 bytes.now) ≡ v0.length_in_front bytes.now) }
    ensures within { IfSome result (λ _. 2 ≤ length bytes.now) }
{
    if bytes.len() < 2 || bytes[0] < b'1' || bytes[0] > b'9' || is_digit(bytes[1]) {
        return None;
    }
    let number = usize::from(bytes[0] - b'0');
    if number > bytes.len() {
        return None;
    }
    Some(number)
}

/// A length, and the bytes after it.
#[inline(always)]
fn length_in_front(bytes: &[u8]) -> Option<(usize, &[u8])>
    ensures { option_map (λ x. (x.0, x.1.now)) result ≡ v0.length_in_front bytes.now }
{
    match short_length(bytes) {
        Some(number) => Some((number, bytes.split_at(1).1)),
        None => any_length(bytes),
    }
}

/// A length of any number of digits, and the bytes after it.
#[tactic(auto, unfolding(crate::specs::V0Identifiers::length_in_front))]
fn any_length(bytes: &[u8]) -> Option<(usize, &[u8])>
    ensures { option_map (λ x. (x.0, x.1.now)) result ≡ v0.length_in_front bytes.now }
{
    match eat(b'0', bytes) {
        Some(after) => Some((0, after)),
        None => {
            let (digits, after) = bytes.split_at(count_digits(bytes));
            match number_upto(bytes.len(), digits) {
                Some(number) => Some((number, after)),
                None => None,
            }
        }
    }
}

/// The bytes after an optional `_`.
#[tactic(auto, unfolding(crate::specs::V0Identifiers::after_separator))]
#[inline(always)]
fn after_separator(bytes: &[u8]) -> &[u8]
    ensures { result.now ≡ v0.after_separator bytes.now }
{
    match eat(b'_', bytes) {
        Some(after) => after,
        None => bytes,
    }
}

/// The first `count` bytes as an identifier.
#[inline(always)]
fn identifier_cut(marked: bool, count: usize, bytes: &[u8]) -> Option<(bool, &[u8], &[u8])>
    ensures { option_map (λ x. (x.0, x.1.now, x.2.now)) result ≡ v0.identifier_cut marked count bytes.now }
{
    if count > bytes.len() {
        return None;
    }
    let (name, after) = bytes.split_at(count);
    if !is_identifier(marked, name) {
        return None;
    }
    Some((marked, name, after))
}

/// An identifier after its mark.
#[inline(always)]
fn identifier_from(marked: bool, bytes: &[u8]) -> Option<(bool, &[u8], &[u8])>
    ensures { option_map (λ x. (x.0, x.1.now, x.2.now)) result ≡ v0.identifier_from marked (v0.length_in_front bytes.now) }
{
    match length_in_front(bytes) {
        Some((count, after)) => identifier_cut(marked, count, after_separator(after)),
        None => None,
    }
}

/// An identifier: whether it is marked as Punycode, its bytes, and the bytes after it.
#[tactic(auto, unfolding(crate::specs::V0Identifiers::identifier))]
#[inline(always)]
pub(crate) fn identifier(bytes: &[u8]) -> Option<(bool, &[u8], &[u8])>
    ensures { option_map (λ x. (x.0, x.1.now, x.2.now)) result ≡ v0.identifier bytes.now }
{
    match eat(b'u', bytes) {
        Some(after) => identifier_from(true, after),
        None => identifier_from(false, bytes),
    }
}

/// Punycode with its hyphen.
fn hyphened(alloc: Global, bytes: &[u8]) -> Result<Vec<u8>, OutOfMemory>
    ensures { IfOk result (λ text. text.items ≡ v0.hyphened bytes.now) }
{
    let (plain, digits) = split_at_mark(bytes);
    let mut text = Vec::with_capacity(alloc, bytes.len())?;
    if !plain.is_empty() {
        text.extend_from_slice(plain)?;
        text.push(b'-')?;
    }
    text.extend_from_slice(digits)?;
    Ok(text)
}

/// Adds the characters that Punycode stands for; returns false if it stands for none.
fn add_decoded(alloc: Global, text: &mut Vec<u8>, input: &str) -> Result<bool, OutOfMemory>
    ensures { IfOk result (λ said. shown_on true text.old.items (v0.decoded input.now) ≡ kept said text.new.items) }
{
    if input.len() as u128 >= (1 << 32) {
        return Ok(false);
    }
    match punycode::decode_to_string(alloc, input) {
        Ok(decoded) => add(text, decoded.as_str().as_bytes()),
        Err(Errors::Invalid) => Ok(false),
        Err(Errors::OutOfMemory) => Err(OutOfMemory),
    }
}

/// Adds what an identifier shows; returns false if that cannot be shown.
#[tactic(auto, unfolding(crate::specs::V0Identifiers::identifier_text))]
#[inline(always)]
pub(crate) fn add_identifier(
    alloc: Global,
    text: &mut Vec<u8>,
    marked: bool,
    bytes: &[u8],
) -> Result<bool, OutOfMemory>
    ensures { IfOk result (λ said. shown_on true text.old.items (v0.identifier_text marked bytes.now) ≡ kept said text.new.items) }
{
    if !marked {
        return add(text, bytes);
    }
    let input = hyphened(alloc, bytes)?;
    match str::from_utf8(input.as_slice()) {
        Ok(string) => {
            let said = add_decoded(alloc, text, string)?;
            Ok(said)
        }
        Err(_) => Ok(false),
    }
}
