//! The cleaning of names.
ghost use Rattle.std.specs.Prelude.{◌≡◌, ◌≤◌, ◌==◌, ◌++◌, codes, map, length, true, IfOk, OnOk, take};
ghost use Rattle.std.specs.List.{list_all};
ghost use Rattle.std.specs.Str.{bytes_eq};
ghost use Rattle.clean_names.specs.Names.{is_space, skip, is_name};
ghost use Rattle.clean_names.specs.Cleaning.{shown_byte, cleaned, cleaned_upto};

use std::alloc::{AllocError, Global};
use sym_edges::{ByteRun, OutOfMemory};

/// The greatest length of a cleaned name, in bytes.
pub const NAME_LIMIT: usize = 65_536;

/// How many leading spaces are passed at once.
const BLOCK: usize = 64;

/// The text that replaces a name that is empty or not known.
#[inline]
pub fn name_omitted() -> &'static [u8]
    ensures { result.now ≡ codes "<name omitted>" }
{
    b"<name omitted>"
}

/// Whether all bytes are spaces. The loop never ends early, so that it can test many bytes at once.
fn are_spaces(bytes: &[u8]) -> bool
    ensures { result ≡ list_all is_space bytes.now }
{
    let mut spaces = true;
    for at in 0..bytes.len() {
        spaces = spaces & (bytes[at] == b' ');
    }
    spaces
}

/// The bytes without whole blocks of leading spaces.
#[inline(never)]
fn after_blocks(bytes: &[u8]) -> &[u8]
    ensures { skip is_space result.now ≡ skip is_space bytes.now }
{
    let mut rest = bytes;
    'passed: while rest.len() > BLOCK {
        let (block, after) = rest.split_at(BLOCK);
        if !are_spaces(block) {
            return rest;
        }
        rest = after;
    }
    rest
}

/// The bytes without the leading spaces, which are passed one by one.
#[tactic(auto, using(crate::proofs::SkipLemmas::skip_stop, crate::proofs::SkipLemmas::skip_more, crate::proofs::SkipLemmas::skip_end))]
fn after_spaces(bytes: &[u8]) -> &[u8]
    ensures { result.now ≡ skip is_space bytes.now }
{
    for (at, b) in bytes.iter().enumerate() {
        if *b != b' ' {
            return bytes.split_at(at).1;
        }
    }
    &[]
}

/// The bytes without the leading spaces. Allocates no memory.
#[inline]
pub fn unspaced(bytes: &[u8]) -> &[u8]
    ensures { result.now ≡ skip is_space bytes.now }
{
    if bytes.starts_with(b" ") {
        return after_spaces(after_blocks(bytes));
    }
    after_spaces(bytes)
}

/// The byte, or `?` for a control byte.
#[inline]
pub fn shown_byte(b: u8) -> u8
    ensures { result ≡ shown_byte b }
{
    if b < 0x20 || b == 0x7f { b'?' } else { b }
}

/// Whether there is no control byte. The loop never ends early, so that it can test many bytes at once.
fn are_shown(bytes: &[u8]) -> bool
    ensures { result ≡ list_all (λ b. shown_byte b == b) bytes.now }
{
    let mut shown = true;
    for at in 0..bytes.len() {
        shown = shown & (shown_byte(bytes[at]) == bytes[at]);
    }
    shown
}

/// The bytes with `?` for each control byte.
#[tactic(auto, using(crate::proofs::CleaningLemmas::shown_step))]
fn shown(alloc: Global, bytes: &[u8]) -> Result<Vec<u8>, AllocError>
    ensures { IfOk result (λ v. v.items ≡ map shown_byte bytes.now) }
{
    let mut name = Vec::from_slice(alloc, bytes)?;
    for at in 0..name.len() {
        name[at] = shown_byte(name[at]);
    }
    Ok(name)
}

/// Whether cleaning does not change a name.
#[tactic(auto, using(crate::proofs::CleanLemmas::is_left, crate::proofs::CleanLemmas::none_changes, crate::proofs::CleanLemmas::long_changes, crate::proofs::CleanLemmas::spaced_changes))]
pub fn is_clean(bytes: &[u8]) -> bool
    ensures { result ≡ bytes_eq (cleaned bytes.now) bytes.now }
{
    if bytes.is_empty() {
        return false;
    }
    if bytes.len() > NAME_LIMIT {
        return false;
    }
    if bytes[0] == b' ' {
        return false;
    }
    are_shown(bytes)
}

/// Adds the bytes with `?` for each control byte.
#[tactic(auto, using(crate::proofs::CleaningLemmas::all_same, crate::proofs::CleaningLemmas::adds_byte, crate::proofs::CleaningLemmas::adds_bytes))]
fn add_shown(text: &mut Vec<u8>, bytes: &[u8]) -> Result<(), OutOfMemory>
    ensures { OnOk result (text.new.items ≡ text.old.items ++ map shown_byte bytes.now) }
{
    if are_shown(bytes) {
        text.extend_from_slice(bytes)?;
        return Ok(());
    }
    for b in bytes {
        text.push(shown_byte(*b))?;
    }
    Ok(())
}

/// Adds to the text the name that `clean` makes of the bytes. Only the growth of the text allocates
/// memory.
#[tactic(auto, using(crate::proofs::CleaningLemmas::cleaned_none, crate::proofs::CleaningLemmas::cleaned_some), unfolding(crate::specs::Cleaning::cleaned))]
pub fn add_cleaned(text: &mut Vec<u8>, bytes: &[u8]) -> Result<(), OutOfMemory>
    ensures { OnOk result (text.new.items ≡ text.old.items ++ cleaned bytes.now) }
{
    let rest = unspaced(bytes);
    let front = rest.split_at(NAME_LIMIT.min(rest.len())).0;
    if front.is_empty() {
        text.extend_from_slice(name_omitted())?;
        return Ok(());
    }
    add_shown(text, front)
}

#[tactic(auto, using(crate::proofs::CleaningLemmas::cleaned_none, crate::proofs::CleaningLemmas::cleaned_some))]
fn clean_upto(alloc: Global, limit: usize, bytes: &[u8]) -> Result<ByteRun, OutOfMemory>
    ensures { IfOk result (λ t. t ≡ cleaned_upto limit bytes.now) }
{
    let rest = unspaced(bytes);
    let front = rest.split_at(limit.min(rest.len())).0;
    if front.is_empty() {
        return Ok(ByteRun::of(Vec::from_slice(alloc, name_omitted())?));
    }
    Ok(ByteRun::of(shown(alloc, front)?))
}

/// A name for a record, made of any bytes: control bytes become `?`, leading spaces are dropped, the rest is cut off after 65,536 bytes, and an empty
/// name becomes `<name omitted>`.
#[tactic(auto, using(crate::proofs::CleaningLemmas::cleaned_named, crate::proofs::CleaningLemmas::cleaned_short), unfolding(crate::specs::Cleaning::cleaned))]
pub fn clean(alloc: Global, bytes: &[u8]) -> Result<ByteRun, OutOfMemory>
    ensures cleaned { IfOk result (λ t. t ≡ cleaned bytes.now) }
    ensures named { IfOk result (λ t. is_name t ≡ true) }
    ensures short { IfOk result (λ t. length t ≤ 65536) }
{
    clean_upto(alloc, NAME_LIMIT, bytes)
}
