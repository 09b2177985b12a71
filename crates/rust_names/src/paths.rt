//! Paths of v0 names that are read at once: nested paths down to the innermost one, and the names after it.
ghost use Rattle.std.specs.Prelude.{◌≡◌, ◌≢◌, ◌<◌, ◌≤◌, ◌∷◌, ◌++◌, ◌^◌, ◌⊎◌, [], ℕ, List, true, length, Some, IfOk, OnOk, IfSome};
ghost use Rattle.std.specs.Option.{option_map};
ghost use Rattle.rust_names.specs.declared.grammar.Kind.TheVariants as kind;
ghost use Rattle.rust_names.specs.declared.grammar.Part.TheVariants.{Deep, Phrase as Made};
ghost use Rattle.rust_names.specs.declared.grammar.Phrase.TheVariants as phrase;
ghost use Rattle.rust_names.specs.V0Grammar as v0;
ghost use Rattle.rust_names.specs.V0Numbers.{eat, front};
ghost use Rattle.rust_names.specs.internal.Passing.{IsEnd};
ghost use Rattle.rust_names.specs.internal.Running.{BeginsPathType, IsBackPath, IsTypePath, SameRun, back_of, crate_read, is_made, is_path, name_read, named_read, weight};

use crate::grammar::{Frame, Kind, Part, Phrase, Scope};
use crate::leaves::{read_disambiguator, read_identifier, read_word};
use crate::numbers::{after_letter, eat, front};
use crate::productions::is_namespace;
use crate::words::{Word, basic_type};
use std::alloc::Global;
use sym_edges::OutOfMemory;

/// Whether a part is a path that is not a trait's.
#[inline(always)]
fn is_path(part: Part) -> bool
    ensures { result ≡ is_path part }
{
    match part {
        Part::Deep(Kind::Path) | Part::Deep(Kind::ValuePath) => true,
        _ => false,
    }
}

/// Whether a part is a type of any kind.
#[inline(always)]
fn is_any_type(part: Part) -> bool
    ensures { result ≡ true → part ≡ Made phrase.AnyType }
{
    match part {
        Part::Phrase(Phrase::AnyType) => true,
        _ => false,
    }
}

/// Whether a type that is not basic and has this letter is a path.
#[inline(always)]
#[tactic(auto, unfolding(crate::specs::V0Grammar::type_parts))]
fn is_path_letter(b: u8) -> bool
    ensures { result ≡ true → (whole bytes : List ℕ) → v0.type_parts whole b bytes ≡ Some (Deep kind.Path ∷ [], whole) }
{
    match b {
        b'A' | b'S' | b'T' | b'R' | b'Q' | b'P' | b'O' | b'F' | b'D' | b'B' => false,
        _ => true,
    }
}

/// Whether the type at the start of the bytes is a path.
#[inline(always)]
fn begins_path_type(bytes: &[u8]) -> bool
    ensures { result ≡ true → BeginsPathType (front bytes.now) }
{
    match front(bytes) {
        Some((b, _)) => match basic_type(b) {
            Some(_) => false,
            None => is_path_letter(b),
        },
        None => false,
    }
}

/// If a frame is a type and the type is a path, makes it the frame of the path.
#[inline(always)]
fn enter_type(frame: &mut Frame, size: usize, bytes: &[u8])
    requires { size < 2 ^ 63 }
    ensures { (frame.new ≡ frame.old) ⊎ IsTypePath size frame.old frame.new bytes.now }
{
    if !is_any_type(frame.part) || frame.levels == 0 || frame.width == 0 {
        return;
    }
    if begins_path_type(bytes) {
        frame.part = Part::Deep(Kind::Path);
        frame.levels -= 1;
        frame.width = size + 8;
    }
}

/// The bytes after the letter of a path, if the frame is a path and bytes begin with it.
#[inline(always)]
fn path_front<'a>(letter: u8, frame: Frame, bytes: &'a [u8]) -> Option<&'a [u8]>
    ensures is { IfSome result (λ after. (frame.levels ≢ 0) × (is_path frame.part ≡ true) × (bytes.now ≡ letter ∷ after.now)) }
    ensures shorter { IfSome result (λ after. length after.now < length bytes.now) }
{
    if frame.levels == 0 || !is_path(frame.part) {
        return None;
    }
    match front(bytes) {
        Some((b, after)) => {
            if b == letter {
                return Some(after);
            }
            None
        }
        None => None,
    }
}

/// The bytes after the letter of a crate.
#[inline(always)]
pub(crate) fn crate_front<'a>(frame: Frame, bytes: &'a [u8]) -> Option<&'a [u8]>
    ensures { IfSome result (λ after. (frame.levels ≢ 0) × (is_path frame.part ≡ true) × (bytes.now ≡ 67 ∷ after.now)) }
{
    path_front(b'C', frame, bytes)
}

/// The namespace of a nested path, and the bytes after it.
#[inline(always)]
fn nested_front<'a>(frame: Frame, bytes: &'a [u8]) -> Option<(u8, &'a [u8])>
    ensures is { IfSome result (λ x. (frame.levels ≢ 0) × (is_path frame.part ≡ true) × (v0.is_namespace x.0 ≡ true) × (bytes.now ≡ 78 ∷ x.0 ∷ x.1.now)) }
    ensures shorter { IfSome result (λ x. length x.1.now < length bytes.now) }
{
    match path_front(b'N', frame, bytes) {
        Some(nested) => match front(nested) {
            Some((space, after)) => {
                if is_namespace(space) {
                    return Some((space, after));
                }
                None
            }
            None => None,
        },
        None => None,
    }
}

/// The part of a path, if the path is a backreference.
#[inline(always)]
fn back_of(part: Part) -> Part
    ensures { result ≡ back_of part }
{
    match part {
        Part::Deep(kind) => Part::Back(kind),
        other => other,
    }
}

/// If a path is a backreference, makes its frame that of the backreference. Returns the bytes that
/// are left.
#[inline(always)]
fn enter_back<'a>(frame: &mut Frame, size: usize, bytes: &'a [u8]) -> &'a [u8]
    requires { size < 2 ^ 63 }
    ensures { ((frame.new ≡ frame.old) × (result.now ≡ bytes.now)) ⊎ IsBackPath size frame.old frame.new bytes.now result.now }
{
    match path_front(b'B', *frame, bytes) {
        Some(after) => {
            frame.part = back_of(frame.part);
            frame.levels -= 1;
            frame.width = size + 8;
            after
        }
        None => bytes,
    }
}

/// Enters nested paths and a backreference, and puts the names of the nested paths onto the stack.
/// The frame is then that of the innermost path. Returns the bytes that are left.
#[inline(always)]
pub(crate) fn enter<'a>(
    stack: &mut Vec<Frame>,
    name: &[u8],
    frame: &mut Frame,
    bytes: &'a [u8],
) -> Result<&'a [u8], OutOfMemory>
    requires { is_made frame.old.part ≡ true }
    ensures same { IfOk result (λ rest. SameRun name.now (stack.old.items ++ frame.old ∷ []) bytes.now (stack.new.items ++ frame.new ∷ []) rest.now) }
    ensures ends { IfOk result (λ rest. IsEnd bytes.now rest.now) }
    ensures made { OnOk result (is_made frame.new.part ≡ true) }
    ensures lighter { OnOk result (weight (length name.now) (stack.new.items ++ frame.new ∷ []) ≤ weight (length name.now) (stack.old.items ++ frame.old ∷ [])) }
{
    enter_type(frame, name.len(), bytes);
    let mut rest = bytes;
    'names: while let Some((space, after)) = nested_front(*frame, rest) {
        frame.levels -= 1;
        frame.width = name.len() + 8;
        stack.push(Frame {
            part: Part::Phrase(Phrase::Named(space)),
            scope: frame.scope,
            levels: frame.levels,
            width: frame.width,
        })?;
        rest = after;
    }
    Ok(enter_back(frame, name.len(), rest))
}

/// The name of a crate.
#[inline(always)]
pub(crate) fn read_crate<'a>(
    alloc: Global,
    text: &mut Vec<u8>,
    scope: Scope,
    bytes: &'a [u8],
) -> Result<Option<&'a [u8]>, OutOfMemory>
    ensures { IfOk result (λ after. crate_read scope bytes.now text.old.items ≡ option_map (λ a. (a.now, text.new.items)) after) }
{
    match read_disambiguator(text, scope, bytes)? {
        Some(name) => read_identifier(alloc, text, scope, name),
        None => Ok(None),
    }
}

/// Reads a name in a path, and adds it after `::` unless it is empty.
#[inline(always)]
fn read_name<'a>(
    alloc: Global,
    text: &mut Vec<u8>,
    scope: Scope,
    bytes: &'a [u8],
) -> Result<Option<&'a [u8]>, OutOfMemory>
    ensures { IfOk result (λ after. name_read scope (eat 48 bytes.now) bytes.now text.old.items ≡ option_map (λ a. (a.now, text.new.items)) after) }
{
    match eat(b'0', bytes) {
        Some(_) => read_identifier(alloc, text, scope, bytes),
        None => match read_word(text, scope, Word::Scope, bytes)? {
            Some(name) => read_identifier(alloc, text, scope, name),
            None => Ok(None),
        },
    }
}

/// The name of a nested path in a namespace in lower case.
#[inline(always)]
pub(crate) fn read_named<'a>(
    alloc: Global,
    text: &mut Vec<u8>,
    scope: Scope,
    bytes: &'a [u8],
) -> Result<Option<&'a [u8]>, OutOfMemory>
    ensures { IfOk result (λ after. named_read scope bytes.now text.old.items ≡ option_map (λ a. (a.now, text.new.items)) after) }
{
    match after_letter(b's', bytes) {
        Some((_, name)) => read_name(alloc, text, scope, name),
        None => Ok(None),
    }
}
