//! The productions of the grammar of v0 names: what each symbol is made of, given its first byte.
ghost use Rattle.std.specs.Prelude.{◌≡◌, ◌≤◌, ◌+◌, ◌∷◌, ◌++◌, [], length, vec_len, Some, IfOk, OnOk, IfSome};
ghost use Rattle.std.specs.Option.{option_map, option_copied};
ghost use Rattle.rust_names.specs.V0Grammar as v0;
ghost use Rattle.rust_names.specs.V0Numbers.{eat};
ghost use Rattle.rust_names.specs.internal.Running.{inside, onto, opening, pushed};

use crate::grammar::{Count, Frame, Inner, Item, Kind, Leaf, Nest, Part, Phrase};
use crate::numbers::{base_62, eat, front};
use crate::words::Word;
use sym_edges::OutOfMemory;

/// Any type.
pub(crate) const ANY_TYPE: Part = Part::Phrase(Phrase::AnyType);

/// A word.
pub(crate) fn say(word: Word) -> Part
    ensures { result ≡ v0.say word }
{
    Part::Leaf(Leaf::Say(word))
}

/// One letter.
pub(crate) fn sign(b: u8) -> Part
    ensures { result ≡ v0.sign b }
{
    Part::Leaf(Leaf::Letter(b))
}

/// A list up to its `E`.
pub(crate) fn list_of(item: Item) -> Part
    ensures { result ≡ v0.list_of item }
{
    Part::Phrase(Phrase::Items(item, Count::Zero))
}

/// Puts a frame of a part onto a stack.
#[inline(always)]
pub(crate) fn push(stack: &mut Vec<Frame>, nest: &Nest, part: Part) -> Result<(), OutOfMemory>
    ensures { OnOk result (stack.new.items ≡ stack.old.items ++ inside nest.now.scope nest.now.levels nest.now.width part ∷ []) }
{
    Ok(stack.push(Frame {
        part,
        scope: nest.scope,
        levels: nest.levels,
        width: nest.width,
    })?)
}

/// Puts frames of parts onto a stack, so that the first is on top.
pub(crate) fn push_parts(
    stack: &mut Vec<Frame>,
    nest: &Nest,
    parts: &[Part],
) -> Result<(), OutOfMemory>
    ensures { OnOk result (stack.new.items ≡ onto stack.old.items nest.now parts.now) }
{
    'parts: for i in 0..parts.len() {
        push(stack, nest, parts[parts.len() - 1 - i])?;
    }
    Ok(())
}

/// Puts frames of parts onto a stack; returns the bytes left.
pub(crate) fn add<'a>(
    stack: &mut Vec<Frame>,
    nest: &Nest,
    parts: &[Part],
    bytes: &'a [u8],
) -> Result<Option<&'a [u8]>, OutOfMemory>
    ensures parts { IfOk result (λ after. pushed stack.old.items nest.now (Some (parts.now, bytes.now)) ≡ option_map (λ a. (stack.new.items, a.now)) after) }
    ensures few { IfOk result (λ _. vec_len stack.new ≤ vec_len stack.old + length parts.now) }
{
    push_parts(stack, nest, parts)?;
    Ok(Some(bytes))
}

/// A letter.
pub(crate) fn is_namespace(b: u8) -> bool
    ensures { result ≡ v0.is_namespace b }
{
    (b'A' <= b && b <= b'Z') || (b'a' <= b && b <= b'z')
}

/// A nested path: its outer path and its name.
#[tactic(auto, unfolding(crate::specs::V0Grammar::nested_parts))]
fn nested_parts<'a>(
    stack: &mut Vec<Frame>,
    nest: &Nest,
    outer: Kind,
    bytes: &'a [u8],
) -> Result<Option<&'a [u8]>, OutOfMemory>
    ensures parts { IfOk result (λ after. pushed stack.old.items nest.now (v0.nested_parts outer bytes.now) ≡ option_map (λ a. (stack.new.items, a.now)) after) }
    ensures few { IfOk result (λ _. vec_len stack.new ≤ vec_len stack.old + 8) }
{
    match front(bytes) {
        Some((space, after)) => {
            if !is_namespace(space) {
                return Ok(None);
            }
            add(
                stack,
                nest,
                &[Part::Deep(outer), Part::Phrase(Phrase::Named(space))],
                after,
            )
        }
        None => Ok(None),
    }
}

/// `<T>` of an impl.
fn inherent<'a>(
    stack: &mut Vec<Frame>,
    nest: &Nest,
    bytes: &'a [u8],
) -> Result<Option<&'a [u8]>, OutOfMemory>
    ensures parts { IfOk result (λ after. pushed stack.old.items nest.now (Some (v0.inherent, bytes.now)) ≡ option_map (λ a. (stack.new.items, a.now)) after) }
    ensures few { IfOk result (λ _. vec_len stack.new ≤ vec_len stack.old + 8) }
{
    add(
        stack,
        nest,
        &[
            Part::Leaf(Leaf::Disambiguator),
            Part::Inner(Inner::ImplPath),
            say(Word::Less),
            ANY_TYPE,
            say(Word::Greater),
        ],
        bytes,
    )
}

/// `<T as Trait>`.
fn of_trait<'a>(
    stack: &mut Vec<Frame>,
    nest: &Nest,
    bytes: &'a [u8],
) -> Result<Option<&'a [u8]>, OutOfMemory>
    ensures parts { IfOk result (λ after. pushed stack.old.items nest.now (Some (v0.of_trait, bytes.now)) ≡ option_map (λ a. (stack.new.items, a.now)) after) }
    ensures few { IfOk result (λ _. vec_len stack.new ≤ vec_len stack.old + 8) }
{
    add(
        stack,
        nest,
        &[
            say(Word::Less),
            ANY_TYPE,
            say(Word::As),
            Part::Deep(Kind::Path),
            say(Word::Greater),
        ],
        bytes,
    )
}

/// `<T as Trait>` of an impl.
fn of_impl<'a>(
    stack: &mut Vec<Frame>,
    nest: &Nest,
    bytes: &'a [u8],
) -> Result<Option<&'a [u8]>, OutOfMemory>
    ensures parts { IfOk result (λ after. pushed stack.old.items nest.now (Some (v0.of_impl, bytes.now)) ≡ option_map (λ a. (stack.new.items, a.now)) after) }
    ensures few { IfOk result (λ _. vec_len stack.new ≤ vec_len stack.old + 8) }
{
    add(
        stack,
        nest,
        &[
            Part::Leaf(Leaf::Disambiguator),
            Part::Inner(Inner::ImplPath),
            say(Word::Less),
            ANY_TYPE,
            say(Word::As),
            Part::Deep(Kind::Path),
            say(Word::Greater),
        ],
        bytes,
    )
}

/// The word that is shown before the generic arguments of a path.
fn opening(outer: Kind) -> Word
    ensures { result ≡ opening outer }
{
    match outer {
        Kind::ValuePath => Word::Turbofish,
        _ => Word::Less,
    }
}

/// A path.
#[tactic(auto, unfolding(crate::specs::V0Grammar::path_parts))]
fn path_parts<'a>(
    stack: &mut Vec<Frame>,
    nest: &Nest,
    outer: Kind,
    b: u8,
    bytes: &'a [u8],
) -> Result<Option<&'a [u8]>, OutOfMemory>
    ensures parts { IfOk result (λ after. pushed stack.old.items nest.now (v0.path_parts outer (opening outer) b bytes.now) ≡ option_map (λ a. (stack.new.items, a.now)) after) }
    ensures few { IfOk result (λ _. vec_len stack.new ≤ vec_len stack.old + 8) }
{
    match b {
        b'C' => add(
            stack,
            nest,
            &[
                Part::Leaf(Leaf::Disambiguator),
                Part::Leaf(Leaf::Identifier),
            ],
            bytes,
        ),
        b'M' => inherent(stack, nest, bytes),
        b'X' => of_impl(stack, nest, bytes),
        b'Y' => of_trait(stack, nest, bytes),
        b'N' => nested_parts(stack, nest, outer, bytes),
        b'I' => add(
            stack,
            nest,
            &[
                Part::Deep(outer),
                say(opening(outer)),
                list_of(Item::Argument),
                say(Word::Greater),
            ],
            bytes,
        ),
        b'B' => add(stack, nest, &[Part::Back(outer)], bytes),
        _ => Ok(None),
    }
}

/// The path of a trait.
#[tactic(auto, unfolding(crate::specs::V0Grammar::trait_parts), using(crate::proofs::FrameLemmas::onto_last))]
fn trait_parts<'a>(
    stack: &mut Vec<Frame>,
    nest: &Nest,
    b: u8,
    bytes: &'a [u8],
) -> Result<Option<&'a [u8]>, OutOfMemory>
    ensures parts { IfOk result (λ after. pushed stack.old.items nest.now (v0.trait_parts b bytes.now) ≡ option_map (λ a. (stack.new.items, a.now)) after) }
    ensures few { IfOk result (λ _. vec_len stack.new ≤ vec_len stack.old + 9) }
{
    match b {
        b'I' => add(
            stack,
            nest,
            &[
                Part::Deep(Kind::Path),
                say(Word::Less),
                list_of(Item::Argument),
                Part::Opened(true),
            ],
            bytes,
        ),
        b'B' => add(stack, nest, &[Part::Back(Kind::TraitPath)], bytes),
        _ => {
            push(stack, nest, Part::Opened(false))?;
            path_parts(stack, nest, Kind::Path, b, bytes)
        }
    }
}

/// An array.
fn array<'a>(
    stack: &mut Vec<Frame>,
    nest: &Nest,
    bytes: &'a [u8],
) -> Result<Option<&'a [u8]>, OutOfMemory>
    ensures parts { IfOk result (λ after. pushed stack.old.items nest.now (Some (v0.array, bytes.now)) ≡ option_map (λ a. (stack.new.items, a.now)) after) }
    ensures few { IfOk result (λ _. vec_len stack.new ≤ vec_len stack.old + 8) }
{
    add(
        stack,
        nest,
        &[
            say(Word::OpenBracket),
            ANY_TYPE,
            say(Word::Semicolon),
            Part::Deep(Kind::Value),
            say(Word::CloseBracket),
        ],
        bytes,
    )
}

/// A type that is not basic.
#[tactic(auto, unfolding(crate::specs::V0Grammar::type_parts))]
fn type_parts<'a>(
    stack: &mut Vec<Frame>,
    nest: &Nest,
    whole: &'a [u8],
    b: u8,
    bytes: &'a [u8],
) -> Result<Option<&'a [u8]>, OutOfMemory>
    ensures parts { IfOk result (λ after. pushed stack.old.items nest.now (v0.type_parts whole.now b bytes.now) ≡ option_map (λ a. (stack.new.items, a.now)) after) }
    ensures few { IfOk result (λ _. vec_len stack.new ≤ vec_len stack.old + 8) }
{
    match b {
        b'A' => array(stack, nest, bytes),
        b'S' => add(
            stack,
            nest,
            &[say(Word::OpenBracket), ANY_TYPE, say(Word::CloseBracket)],
            bytes,
        ),
        b'T' => add(
            stack,
            nest,
            &[
                say(Word::OpenParenthesis),
                list_of(Item::Member),
                say(Word::CloseParenthesis),
            ],
            bytes,
        ),
        b'R' => add(
            stack,
            nest,
            &[say(Word::Ampersand), Part::Phrase(Phrase::Borrow), ANY_TYPE],
            bytes,
        ),
        b'Q' => add(
            stack,
            nest,
            &[
                say(Word::Ampersand),
                Part::Phrase(Phrase::Borrow),
                say(Word::Mut),
                ANY_TYPE,
            ],
            bytes,
        ),
        b'P' => add(stack, nest, &[say(Word::PointerConst), ANY_TYPE], bytes),
        b'O' => add(stack, nest, &[say(Word::PointerMut), ANY_TYPE], bytes),
        b'F' => add(stack, nest, &[Part::Inner(Inner::Function)], bytes),
        b'D' => add(
            stack,
            nest,
            &[
                say(Word::Dyn),
                Part::Inner(Inner::Object),
                Part::Phrase(Phrase::Outlives),
            ],
            bytes,
        ),
        b'B' => add(stack, nest, &[Part::Back(Kind::Type)], bytes),
        _ => add(stack, nest, &[Part::Deep(Kind::Path)], whole),
    }
}

/// A reference.
#[tactic(auto, unfolding(crate::specs::V0Grammar::reference_parts))]
fn reference_parts<'a>(
    stack: &mut Vec<Frame>,
    nest: &Nest,
    bytes: &'a [u8],
) -> Result<Option<&'a [u8]>, OutOfMemory>
    ensures parts { IfOk result (λ after. pushed stack.old.items nest.now (Some (v0.reference_parts bytes.now)) ≡ option_map (λ a. (stack.new.items, a.now)) after) }
    ensures few { IfOk result (λ _. vec_len stack.new ≤ vec_len stack.old + 8) }
{
    match eat(b'e', bytes) {
        Some(after) => add(stack, nest, &[Part::Leaf(Leaf::Text)], after),
        None => add(
            stack,
            nest,
            &[say(Word::Ampersand), Part::Deep(Kind::Value)],
            bytes,
        ),
    }
}

/// A constant.
#[tactic(auto, unfolding(crate::specs::V0Grammar::value_parts))]
fn value_parts<'a>(
    stack: &mut Vec<Frame>,
    nest: &Nest,
    again: Kind,
    b: u8,
    bytes: &'a [u8],
) -> Result<Option<&'a [u8]>, OutOfMemory>
    ensures parts { IfOk result (λ after. pushed stack.old.items nest.now (v0.value_parts again b bytes.now) ≡ option_map (λ a. (stack.new.items, a.now)) after) }
    ensures few { IfOk result (λ _. vec_len stack.new ≤ vec_len stack.old + 8) }
{
    match b {
        b'p' => add(stack, nest, &[say(Word::Placeholder)], bytes),
        b'h' | b't' | b'm' | b'y' | b'o' | b'j' => add(
            stack,
            nest,
            &[Part::Leaf(Leaf::Number)],
            bytes,
        ),
        b'a' | b's' | b'l' | b'x' | b'n' | b'i' => add(
            stack,
            nest,
            &[Part::Phrase(Phrase::Sign), Part::Leaf(Leaf::Number)],
            bytes,
        ),
        b'b' => add(stack, nest, &[Part::Leaf(Leaf::Boolean)], bytes),
        b'c' => add(stack, nest, &[Part::Leaf(Leaf::Character)], bytes),
        b'e' => add(stack, nest, &[sign(b'*'), Part::Leaf(Leaf::Text)], bytes),
        b'R' => reference_parts(stack, nest, bytes),
        b'Q' => add(
            stack,
            nest,
            &[say(Word::AmpersandMut), Part::Deep(Kind::Value)],
            bytes,
        ),
        b'A' => add(
            stack,
            nest,
            &[
                say(Word::OpenBracket),
                list_of(Item::Element),
                say(Word::CloseBracket),
            ],
            bytes,
        ),
        b'T' => add(
            stack,
            nest,
            &[
                say(Word::OpenParenthesis),
                list_of(Item::Component),
                say(Word::CloseParenthesis),
            ],
            bytes,
        ),
        b'V' => add(
            stack,
            nest,
            &[Part::Deep(Kind::ValuePath), Part::Phrase(Phrase::Fields)],
            bytes,
        ),
        b'B' => add(stack, nest, &[Part::Back(again)], bytes),
        _ => Ok(None),
    }
}

/// Whether a constant stands in braces among generic arguments.
#[tactic(auto, unfolding(crate::specs::V0Grammar::is_braced))]
fn is_braced(b: u8, bytes: &[u8]) -> bool
    ensures { result ≡ v0.is_braced b bytes.now }
{
    match b {
        b'e' | b'Q' | b'A' | b'T' | b'V' => true,
        b'R' => match eat(b'e', bytes) {
            Some(_) => false,
            None => true,
        },
        _ => false,
    }
}

/// A constant among generic arguments.
#[tactic(auto, unfolding(crate::specs::V0Grammar::constant_parts), using(crate::proofs::FrameLemmas::braced_some, crate::proofs::FrameLemmas::braced_none))]
fn constant_parts<'a>(
    stack: &mut Vec<Frame>,
    nest: &Nest,
    b: u8,
    bytes: &'a [u8],
) -> Result<Option<&'a [u8]>, OutOfMemory>
    ensures parts { IfOk result (λ after. pushed stack.old.items nest.now (v0.constant_parts b bytes.now) ≡ option_map (λ a. (stack.new.items, a.now)) after) }
    ensures few { IfOk result (λ _. vec_len stack.new ≤ vec_len stack.old + 10) }
{
    if !is_braced(b, bytes) {
        return value_parts(stack, nest, Kind::Constant, b, bytes);
    }
    push(stack, nest, say(Word::CloseBrace))?;
    match value_parts(stack, nest, Kind::Constant, b, bytes)? {
        Some(after) => {
            push(stack, nest, say(Word::OpenBrace))?;
            Ok(Some(after))
        }
        None => Ok(None),
    }
}

/// What a level of nesting is made of.
#[tactic(auto, unfolding(crate::specs::V0Grammar::deep_parts, crate::specs::V0Grammar::deep_by))]
#[inline(always)]
pub(crate) fn deep_parts<'a>(
    stack: &mut Vec<Frame>,
    nest: &Nest,
    kind: Kind,
    bytes: &'a [u8],
) -> Result<Option<&'a [u8]>, OutOfMemory>
    ensures parts { IfOk result (λ after. pushed stack.old.items nest.now (v0.deep_parts kind bytes.now) ≡ option_map (λ a. (stack.new.items, a.now)) after) }
    ensures few { IfOk result (λ _. vec_len stack.new ≤ vec_len stack.old + 10) }
{
    match front(bytes) {
        Some((b, after)) => match kind {
            Kind::Path => path_parts(stack, nest, Kind::Path, b, after),
            Kind::ValuePath => path_parts(stack, nest, Kind::ValuePath, b, after),
            Kind::TraitPath => trait_parts(stack, nest, b, after),
            Kind::Type => type_parts(stack, nest, bytes, b, after),
            Kind::Constant => constant_parts(stack, nest, b, after),
            Kind::Value => value_parts(stack, nest, Kind::Value, b, after),
        },
        None => Ok(None),
    }
}

/// The part that is read at the place to which a backreference leads.
fn target(kind: Kind) -> Part
    ensures { result ≡ v0.target kind }
{
    match kind {
        Kind::Type => ANY_TYPE,
        other => Part::Deep(other),
    }
}

/// A backreference: what is at its place is read, if that is shown.
#[tactic(auto, unfolding(crate::specs::V0Grammar::back_parts), using(crate::proofs::FrameLemmas::onto_none))]
#[inline(always)]
pub(crate) fn back_parts<'a>(
    stack: &mut Vec<Frame>,
    nest: &Nest,
    size: usize,
    kind: Kind,
    bytes: &'a [u8],
) -> Result<Option<&'a [u8]>, OutOfMemory>
    ensures parts { IfOk result (λ after. pushed stack.old.items nest.now (v0.back_parts size kind nest.now.scope.visible bytes.now) ≡ option_map (λ a. (stack.new.items, a.now)) after) }
    ensures few { IfOk result (λ _. vec_len stack.new ≤ vec_len stack.old + 10) }
{
    let Some((place, after)) = base_62(bytes) else {
        return Ok(None);
    };
    if u128::from(place) + 1 + bytes.len() as u128 >= size as u128 {
        return Ok(None);
    }
    if !nest.scope.visible {
        return Ok(Some(after));
    }
    add(
        stack,
        nest,
        &[
            Part::Goto(place as usize),
            target(kind),
            Part::Goto(size.saturating_sub(after.len())),
        ],
        after,
    )
}
