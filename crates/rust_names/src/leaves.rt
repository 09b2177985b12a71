//! The symbols of v0 names that are made of bytes alone.
ghost use Rattle.std.specs.Prelude.{◌≡◌, ◌<◌, [], ◌∷◌, length, map, chars, decimal, true, Some, None, IfOk, IfSome, MatchOption};
ghost use Rattle.std.specs.Option.{option_map};
ghost use Rattle.rust_names.specs.V0Identifiers.{dashed};
ghost use Rattle.rust_names.specs.V0Texts as shows;
ghost use Rattle.rust_names.specs.V0Leaves as v0;
ghost use Rattle.rust_names.specs.declared.grammar.Leaf.TheVariants as leaf;
ghost use Rattle.rust_names.specs.internal.Reading.{kept};

use crate::constants::{constant_of, read_constant};
use crate::grammar::{Leaf, Scope};
use crate::identifiers::{add_identifier, identifier};
use crate::numbers::{after_letter, count_hex, front, hex_digit};
use crate::texts::{add, add_decimal, add_for_all, add_quoted, after_if, show, show_lifetime};
use crate::words::{Word, word_text};
use std::alloc::Global;
use sym_edges::OutOfMemory;

/// A word.
#[tactic(auto, unfolding(crate::specs::V0Leaves::read_leaf, crate::specs::V0Leaves::leaf_of))]
#[inline(always)]
pub(crate) fn read_word<'a>(
    text: &mut Vec<u8>,
    scope: Scope,
    word: Word,
    bytes: &'a [u8],
) -> Result<Option<&'a [u8]>, OutOfMemory>
    ensures { IfOk result (λ after. v0.read_leaf (leaf.Say word) scope bytes.now text.old.items ≡ option_map (λ a. (a.now, text.new.items)) after) }
{
    let said = show(text, scope.visible, word_text(word))?;
    Ok(after_if(said, bytes))
}

/// A disambiguator.
#[tactic(auto, unfolding(crate::specs::V0Leaves::read_leaf, crate::specs::V0Leaves::leaf_of))]
#[inline(always)]
pub(crate) fn read_disambiguator<'a>(
    text: &mut Vec<u8>,
    scope: Scope,
    bytes: &'a [u8],
) -> Result<Option<&'a [u8]>, OutOfMemory>
    ensures { IfOk result (λ after. v0.read_leaf leaf.Disambiguator scope bytes.now text.old.items ≡ option_map (λ a. (a.now, text.new.items)) after) }
{
    match after_letter(b's', bytes) {
        Some((_, after)) => {
            let said = show(text, scope.visible, b"")?;
            Ok(after_if(said, after))
        }
        None => Ok(None),
    }
}

/// An identifier.
#[tactic(auto, unfolding(crate::specs::V0Leaves::read_leaf, crate::specs::V0Leaves::leaf_of))]
#[inline(always)]
pub(crate) fn read_identifier<'a>(
    alloc: Global,
    text: &mut Vec<u8>,
    scope: Scope,
    bytes: &'a [u8],
) -> Result<Option<&'a [u8]>, OutOfMemory>
    ensures { IfOk result (λ after. v0.read_leaf leaf.Identifier scope bytes.now text.old.items ≡ option_map (λ a. (a.now, text.new.items)) after) }
{
    let Some((marked, name, after)) = identifier(bytes) else {
        return Ok(None);
    };
    let said = !scope.visible || add_identifier(alloc, text, marked, name)?;
    Ok(after_if(said, after))
}

/// Bytes with `-` in place of `_`.
fn dashed(alloc: Global, bytes: &[u8]) -> Result<Vec<u8>, OutOfMemory>
    ensures { IfOk result (λ text. text.items ≡ map dashed bytes.now) }
{
    let mut text = Vec::with_capacity(alloc, bytes.len())?;
    'letters: for b in bytes {
        text.push(if *b == b'_' { b'-' } else { *b })?;
    }
    Ok(text)
}

/// The name of a calling convention.
#[tactic(auto, unfolding(crate::specs::V0Leaves::read_leaf, crate::specs::V0Leaves::leaf_of))]
fn read_convention<'a>(
    alloc: Global,
    text: &mut Vec<u8>,
    scope: Scope,
    bytes: &'a [u8],
) -> Result<Option<&'a [u8]>, OutOfMemory>
    ensures { IfOk result (λ after. v0.read_leaf leaf.Convention scope bytes.now text.old.items ≡ option_map (λ a. (a.now, text.new.items)) after) }
{
    let Some((marked, name, after)) = identifier(bytes) else {
        return Ok(None);
    };
    if marked || name.is_empty() {
        return Ok(None);
    }
    let shown = dashed(alloc, name)?;
    let said = show(text, scope.visible, shown.as_slice())?;
    Ok(after_if(said, after))
}

/// The byte that the first two digits write, and the digits after them.
#[tactic(auto, using(crate::proofs::LeafLemmas::byte_some, crate::proofs::LeafLemmas::one_digit, crate::proofs::LeafLemmas::no_high, crate::proofs::LeafLemmas::no_low))]
fn byte_in_front(a: u8, digits: &[u8]) -> Option<(u8, &[u8])>
    ensures byte { MatchOption result (shows.bytes_of (a ∷ digits.now) ≡ None) (λ x. shows.bytes_of (a ∷ digits.now) ≡ option_map (λ later. x.0 ∷ later) (shows.bytes_of x.1.now)) }
    ensures shorter { IfSome result (λ x. length x.1.now < length digits.now) }
{
    match front(digits) {
        Some((b, after)) => match hex_digit(a) {
            Some(high) => match hex_digit(b) {
                Some(low) => {
                    let byte = high * 16 + low;
                    Some((byte, after))
                }
                None => None,
            },
            None => None,
        },
        None => None,
    }
}

/// The bytes that digits write.
fn bytes_of(alloc: Global, digits: &[u8]) -> Result<Option<Vec<u8>>, OutOfMemory>
    ensures { IfOk result (λ bytes. option_map (λ b. b.items) bytes ≡ shows.bytes_of digits.now) }
{
    let mut bytes = Vec::with_capacity(alloc, digits.len() / 2)?;
    let mut rest = digits;
    'pairs: while let Some((a, more)) = front(rest) {
        match byte_in_front(a, more) {
            Some((b, after)) => {
                bytes.push(b)?;
                rest = after;
            }
            None => return Ok(None),
        }
    }
    Ok(Some(bytes))
}

/// The characters of a text.
fn characters(alloc: Global, string: &str) -> Result<Vec<char>, OutOfMemory>
    ensures { IfOk result (λ cs. cs.items ≡ chars string.now) }
{
    let cs: Vec<char> = string.chars().collect(alloc)?;
    Ok(cs)
}

/// The characters of a text that digits write.
fn characters_of(alloc: Global, digits: &[u8]) -> Result<Option<Vec<char>>, OutOfMemory>
    ensures { IfOk result (λ cs. shows.string_by (shows.bytes_of digits.now) ≡ option_map (λ c. shows.quoted 34 c.items) cs) }
{
    let Some(bytes) = bytes_of(alloc, digits)? else {
        return Ok(None);
    };
    match str::from_utf8(bytes.as_slice()) {
        Ok(string) => {
            let cs = characters(alloc, string)?;
            Ok(Some(cs))
        }
        Err(_) => Ok(None),
    }
}

/// A text.
#[tactic(auto, unfolding(crate::specs::V0Leaves::read_leaf, crate::specs::V0Leaves::leaf_of))]
fn read_string<'a>(
    alloc: Global,
    text: &mut Vec<u8>,
    scope: Scope,
    bytes: &'a [u8],
) -> Result<Option<&'a [u8]>, OutOfMemory>
    ensures { IfOk result (λ after. v0.read_leaf leaf.Text scope bytes.now text.old.items ≡ option_map (λ a. (a.now, text.new.items)) after) }
{
    let Some(count) = count_hex(bytes) else {
        return Ok(None);
    };
    match characters_of(alloc, bytes.split_at(count).0)? {
        Some(characters) => {
            let said = !scope.visible || add_quoted(text, b'"', characters.as_slice())?;
            Ok(after_if(said, bytes.split_at(count + 1).1))
        }
        None => Ok(None),
    }
}

/// Whether a name ends, or a suffix begins.
#[tactic(auto, using(crate::proofs::LeafLemmas::end_some, crate::proofs::LeafLemmas::end_none))]
fn is_end(bytes: &[u8]) -> bool
    ensures { result ≡ v0.is_end bytes.now }
{
    match front(bytes) {
        Some((b, _)) => b == b'.',
        None => true,
    }
}

/// Reads a leaf, adds what it shows, and returns the bytes after it.
#[tactic(auto, unfolding(crate::specs::V0Leaves::read_leaf, crate::specs::V0Leaves::leaf_of))]
#[inline(always)]
pub(crate) fn read_leaf<'a>(
    alloc: Global,
    text: &mut Vec<u8>,
    leaf: Leaf,
    scope: Scope,
    bytes: &'a [u8],
) -> Result<Option<&'a [u8]>, OutOfMemory>
    ensures { IfOk result (λ after. v0.read_leaf leaf scope bytes.now text.old.items ≡ option_map (λ a. (a.now, text.new.items)) after) }
{
    match leaf {
        Leaf::Say(word) => read_word(text, scope, word, bytes),
        Leaf::Letter(b) => {
            let said = show(text, scope.visible, &[b])?;
            Ok(after_if(said, bytes))
        }
        Leaf::Index(number) => {
            let said = !scope.visible || add_decimal(text, number)?;
            Ok(after_if(said, bytes))
        }
        Leaf::Lifetime(number) => {
            let said = !scope.visible || show_lifetime(text, scope.bound, number)?;
            Ok(after_if(said, bytes))
        }
        Leaf::ForAll(count) => {
            let said = !scope.visible || add_for_all(text, scope.bound, count)?;
            Ok(after_if(said, bytes))
        }
        Leaf::Disambiguator => read_disambiguator(text, scope, bytes),
        Leaf::Identifier => read_identifier(alloc, text, scope, bytes),
        Leaf::Convention => read_convention(alloc, text, scope, bytes),
        Leaf::Number | Leaf::Boolean | Leaf::Character => match constant_of(bytes) {
            Some(constant) => read_constant(text, leaf, scope, constant, bytes),
            None => Ok(None),
        },
        Leaf::Text => read_string(alloc, text, scope, bytes),
        Leaf::End => {
            if !is_end(bytes) {
                return Ok(None);
            }
            let said = show(text, scope.visible, b"")?;
            Ok(after_if(said, bytes))
        }
    }
}
