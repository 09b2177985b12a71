//! The symbols within a level: types, lists, bindings, names in a namespace, and lifetimes.
ghost use Rattle.std.specs.Prelude.{◌≡◌, ◌≤◌, ◌+◌, ◌++◌, true, length, vec_len, Some, IfOk, OnOk};
ghost use Rattle.std.specs.Option.{option_map};
ghost use Rattle.rust_names.specs.V0Grammar as v0;
ghost use Rattle.rust_names.specs.V0Numbers.{eat};
ghost use Rattle.rust_names.specs.internal.Running.{onto, pushed};

use crate::grammar::{Count, Frame, Item, Kind, Leaf, Nest, Part, Phrase};
use crate::numbers::{after_letter, base_62, eat, front};
use crate::productions::{ANY_TYPE, add, list_of, push, push_parts, say, sign};
use crate::words::{Word, basic_type};
use sym_edges::OutOfMemory;

/// Any type.
#[tactic(auto, unfolding(crate::specs::V0Grammar::any_type_parts))]
fn any_type_parts<'a>(
    stack: &mut Vec<Frame>,
    nest: &Nest,
    bytes: &'a [u8],
) -> Result<Option<&'a [u8]>, OutOfMemory>
    ensures parts { IfOk result (λ after. pushed stack.old.items nest.now (v0.any_type_parts bytes.now) ≡ option_map (λ a. (stack.new.items, a.now)) after) }
    ensures few { IfOk result (λ _. vec_len stack.new ≤ vec_len stack.old + 8) }
{
    match front(bytes) {
        Some((b, after)) => match basic_type(b) {
            Some(word) => add(stack, nest, &[say(word)], after),
            None => add(stack, nest, &[Part::Deep(Kind::Type)], bytes),
        },
        None => Ok(None),
    }
}

/// Puts the parts of an item of a list onto a stack.
#[tactic(auto, unfolding(crate::specs::V0Grammar::item_parts))]
fn add_item(stack: &mut Vec<Frame>, nest: &Nest, item: Item) -> Result<(), OutOfMemory>
    ensures parts { OnOk result (stack.new.items ≡ onto stack.old.items nest.now (v0.item_parts item)) }
    ensures few { OnOk result (vec_len stack.new ≤ vec_len stack.old + 4) }
{
    match item {
        Item::Argument => push(stack, nest, Part::Phrase(Phrase::Argument)),
        Item::Parameter | Item::Member => push(stack, nest, ANY_TYPE),
        Item::Element | Item::Component => push(stack, nest, Part::Deep(Kind::Value)),
        Item::Field => push_parts(
            stack,
            nest,
            &[
                Part::Leaf(Leaf::Disambiguator),
                Part::Leaf(Leaf::Identifier),
                say(Word::FieldColon),
                Part::Deep(Kind::Value),
            ],
        ),
        Item::Bound => push_parts(
            stack,
            nest,
            &[Part::Deep(Kind::TraitPath), Part::Phrase(Phrase::Bindings)],
        ),
    }
}

/// The word that is shown between two items.
fn separator(item: Item) -> Word
    ensures { result ≡ v0.separator item }
{
    match item {
        Item::Bound => Word::Plus,
        _ => Word::CommaSpace,
    }
}

/// Puts an item, and the list of those after it, onto a stack.
#[tactic(auto, unfolding(crate::specs::V0Grammar::items_from), using(crate::proofs::FrameLemmas::onto_both))]
fn add_items(
    stack: &mut Vec<Frame>,
    nest: &Nest,
    item: Item,
    count: Count,
) -> Result<(), OutOfMemory>
    ensures parts { OnOk result (stack.new.items ≡ onto stack.old.items nest.now (v0.items_from item count)) }
    ensures few { OnOk result (vec_len stack.new ≤ vec_len stack.old + 6) }
{
    match count {
        Count::Zero => {
            push(stack, nest, Part::Phrase(Phrase::Items(item, Count::One)))?;
            add_item(stack, nest, item)
        }
        _ => {
            push(stack, nest, Part::Phrase(Phrase::Items(item, Count::Many)))?;
            add_item(stack, nest, item)?;
            push(stack, nest, say(separator(item)))
        }
    }
}

/// Puts the comma of a tuple of one item onto a stack.
#[tactic(auto, unfolding(crate::specs::V0Grammar::ending), using(crate::proofs::FrameLemmas::onto_none))]
fn add_ending(
    stack: &mut Vec<Frame>,
    nest: &Nest,
    item: Item,
    count: Count,
) -> Result<(), OutOfMemory>
    ensures parts { OnOk result (stack.new.items ≡ onto stack.old.items nest.now (v0.ending item count)) }
    ensures few { OnOk result (vec_len stack.new ≤ vec_len stack.old + 1) }
{
    match (item, count) {
        (Item::Member, Count::One) => push(stack, nest, sign(b',')),
        (Item::Component, Count::One) => push(stack, nest, sign(b',')),
        _ => Ok(()),
    }
}

/// The items of a list.
#[tactic(auto, unfolding(crate::specs::V0Grammar::items_parts))]
fn items_parts<'a>(
    stack: &mut Vec<Frame>,
    nest: &Nest,
    item: Item,
    count: Count,
    bytes: &'a [u8],
) -> Result<Option<&'a [u8]>, OutOfMemory>
    ensures parts { IfOk result (λ after. pushed stack.old.items nest.now (Some (v0.items_parts item count bytes.now)) ≡ option_map (λ a. (stack.new.items, a.now)) after) }
    ensures few { IfOk result (λ _. vec_len stack.new ≤ vec_len stack.old + 8) }
{
    match eat(b'E', bytes) {
        Some(after) => {
            add_ending(stack, nest, item, count)?;
            Ok(Some(after))
        }
        None => {
            add_items(stack, nest, item, count)?;
            Ok(Some(bytes))
        }
    }
}

/// A generic argument.
#[tactic(auto, unfolding(crate::specs::V0Grammar::argument_parts))]
fn argument_parts<'a>(
    stack: &mut Vec<Frame>,
    nest: &Nest,
    bytes: &'a [u8],
) -> Result<Option<&'a [u8]>, OutOfMemory>
    ensures parts { IfOk result (λ after. pushed stack.old.items nest.now (v0.argument_parts bytes.now) ≡ option_map (λ a. (stack.new.items, a.now)) after) }
    ensures few { IfOk result (λ _. vec_len stack.new ≤ vec_len stack.old + 8) }
{
    match eat(b'L', bytes) {
        Some(lifetime) => match base_62(lifetime) {
            Some((number, after)) => add(stack, nest, &[Part::Leaf(Leaf::Lifetime(number))], after),
            None => Ok(None),
        },
        None => match eat(b'K', bytes) {
            Some(after) => add(stack, nest, &[Part::Deep(Kind::Constant)], after),
            None => add(stack, nest, &[ANY_TYPE], bytes),
        },
    }
}

/// The word that is shown before the name of a binding.
fn binding_opening(opened: bool) -> Word
    ensures { result ≡ v0.binding_opening opened }
{
    if opened { Word::CommaSpace } else { Word::Less }
}

/// The bindings of a trait.
#[tactic(auto, unfolding(crate::specs::V0Grammar::bindings_parts))]
fn bindings_parts<'a>(
    stack: &mut Vec<Frame>,
    nest: &Nest,
    opened: bool,
    bytes: &'a [u8],
) -> Result<Option<&'a [u8]>, OutOfMemory>
    ensures parts { IfOk result (λ after. pushed stack.old.items nest.now (Some (v0.bindings_parts opened bytes.now)) ≡ option_map (λ a. (stack.new.items, a.now)) after) }
    ensures few { IfOk result (λ _. vec_len stack.new ≤ vec_len stack.old + 8) }
{
    match eat(b'p', bytes) {
        Some(after) => add(
            stack,
            nest,
            &[
                say(binding_opening(opened)),
                Part::Leaf(Leaf::Identifier),
                say(Word::Equals),
                ANY_TYPE,
                Part::Phrase(Phrase::LaterBindings),
            ],
            after,
        ),
        None => {
            if opened {
                return add(stack, nest, &[say(Word::Greater)], bytes);
            }
            add(stack, nest, &[], bytes)
        }
    }
}

/// A namespace.
fn space_part(space: u8) -> Part
    ensures { result ≡ v0.space_part space }
{
    match space {
        b'C' => say(Word::Closure),
        b'S' => say(Word::Shim),
        _ => Part::Leaf(Leaf::Letter(space)),
    }
}

/// Puts a part onto a stack, unless the identifier at the start of the bytes is empty.
#[tactic(auto, using(crate::proofs::FrameLemmas::onto_none))]
fn add_unless_empty(
    stack: &mut Vec<Frame>,
    nest: &Nest,
    part: Part,
    bytes: &[u8],
) -> Result<(), OutOfMemory>
    ensures parts { OnOk result (stack.new.items ≡ onto stack.old.items nest.now (v0.unless_empty part (eat 48 bytes.now))) }
    ensures few { OnOk result (vec_len stack.new ≤ vec_len stack.old + 1) }
{
    match eat(b'0', bytes) {
        Some(_) => Ok(()),
        None => push(stack, nest, part),
    }
}

/// The name of a nested path, given its namespace and number.
#[tactic(auto, unfolding(crate::specs::V0Grammar::named_parts), using(crate::proofs::FrameLemmas::onto_both))]
fn named_parts<'a>(
    stack: &mut Vec<Frame>,
    nest: &Nest,
    space: u8,
    number: u64,
    bytes: &'a [u8],
) -> Result<Option<&'a [u8]>, OutOfMemory>
    ensures parts { IfOk result (λ after. pushed stack.old.items nest.now (Some (v0.named_parts space (number, bytes.now))) ≡ option_map (λ a. (stack.new.items, a.now)) after) }
    ensures few { IfOk result (λ _. vec_len stack.new ≤ vec_len stack.old + 8) }
{
    if b'a' <= space {
        push(stack, nest, Part::Leaf(Leaf::Identifier))?;
        add_unless_empty(stack, nest, say(Word::Scope), bytes)?;
        return Ok(Some(bytes));
    }
    push_parts(
        stack,
        nest,
        &[
            Part::Leaf(Leaf::Identifier),
            sign(b'#'),
            Part::Leaf(Leaf::Index(number)),
            say(Word::CloseBrace),
        ],
    )?;
    add_unless_empty(stack, nest, sign(b':'), bytes)?;
    add(
        stack,
        nest,
        &[say(Word::OpenSpace), space_part(space)],
        bytes,
    )
}

/// The lifetime of a reference.
#[tactic(auto, unfolding(crate::specs::V0Grammar::borrow_parts))]
fn borrow_parts<'a>(
    stack: &mut Vec<Frame>,
    nest: &Nest,
    bytes: &'a [u8],
) -> Result<Option<&'a [u8]>, OutOfMemory>
    ensures parts { IfOk result (λ after. pushed stack.old.items nest.now (v0.borrow_parts bytes.now) ≡ option_map (λ a. (stack.new.items, a.now)) after) }
    ensures few { IfOk result (λ _. vec_len stack.new ≤ vec_len stack.old + 8) }
{
    match eat(b'L', bytes) {
        Some(lifetime) => match base_62(lifetime) {
            Some((number, after)) => {
                if number == 0 {
                    return add(stack, nest, &[], after);
                }
                add(
                    stack,
                    nest,
                    &[Part::Leaf(Leaf::Lifetime(number)), sign(b' ')],
                    after,
                )
            }
            None => Ok(None),
        },
        None => add(stack, nest, &[], bytes),
    }
}

/// The lifetime of a `dyn` type.
#[tactic(auto, unfolding(crate::specs::V0Grammar::outlives_parts))]
fn outlives_parts<'a>(
    stack: &mut Vec<Frame>,
    nest: &Nest,
    bytes: &'a [u8],
) -> Result<Option<&'a [u8]>, OutOfMemory>
    ensures parts { IfOk result (λ after. pushed stack.old.items nest.now (v0.outlives_parts bytes.now) ≡ option_map (λ a. (stack.new.items, a.now)) after) }
    ensures few { IfOk result (λ _. vec_len stack.new ≤ vec_len stack.old + 8) }
{
    match eat(b'L', bytes) {
        Some(lifetime) => match base_62(lifetime) {
            Some((number, after)) => {
                if number == 0 {
                    return add(stack, nest, &[], after);
                }
                add(
                    stack,
                    nest,
                    &[say(Word::Plus), Part::Leaf(Leaf::Lifetime(number))],
                    after,
                )
            }
            None => Ok(None),
        },
        None => Ok(None),
    }
}

/// A calling convention.
#[tactic(auto, unfolding(crate::specs::V0Grammar::convention_parts))]
fn convention_parts<'a>(
    stack: &mut Vec<Frame>,
    nest: &Nest,
    bytes: &'a [u8],
) -> Result<Option<&'a [u8]>, OutOfMemory>
    ensures parts { IfOk result (λ after. pushed stack.old.items nest.now (Some (v0.convention_parts bytes.now)) ≡ option_map (λ a. (stack.new.items, a.now)) after) }
    ensures few { IfOk result (λ _. vec_len stack.new ≤ vec_len stack.old + 8) }
{
    match eat(b'K', bytes) {
        Some(name) => match eat(b'C', name) {
            Some(after) => add(stack, nest, &[say(Word::ExternC)], after),
            None => add(
                stack,
                nest,
                &[
                    say(Word::Extern),
                    Part::Leaf(Leaf::Convention),
                    say(Word::CloseExtern),
                ],
                name,
            ),
        },
        None => add(stack, nest, &[], bytes),
    }
}

/// The fields of a value.
#[tactic(auto, unfolding(crate::specs::V0Grammar::fields_parts))]
fn fields_parts<'a>(
    stack: &mut Vec<Frame>,
    nest: &Nest,
    bytes: &'a [u8],
) -> Result<Option<&'a [u8]>, OutOfMemory>
    ensures parts { IfOk result (λ after. pushed stack.old.items nest.now (v0.fields_parts bytes.now) ≡ option_map (λ a. (stack.new.items, a.now)) after) }
    ensures few { IfOk result (λ _. vec_len stack.new ≤ vec_len stack.old + 8) }
{
    match front(bytes) {
        Some((b, after)) => match b {
            b'U' => add(stack, nest, &[], after),
            b'T' => add(
                stack,
                nest,
                &[
                    say(Word::OpenParenthesis),
                    list_of(Item::Element),
                    say(Word::CloseParenthesis),
                ],
                after,
            ),
            b'S' => add(
                stack,
                nest,
                &[
                    say(Word::OpenFields),
                    list_of(Item::Field),
                    say(Word::CloseFields),
                ],
                after,
            ),
            _ => Ok(None),
        },
        None => Ok(None),
    }
}

/// A part, if the bytes begin with this letter.
#[tactic(auto, unfolding(crate::specs::V0Grammar::part_after))]
fn part_after<'a>(
    stack: &mut Vec<Frame>,
    nest: &Nest,
    letter: u8,
    part: Part,
    bytes: &'a [u8],
) -> Result<Option<&'a [u8]>, OutOfMemory>
    ensures parts { IfOk result (λ after. pushed stack.old.items nest.now (Some (v0.part_after letter part bytes.now)) ≡ option_map (λ a. (stack.new.items, a.now)) after) }
    ensures few { IfOk result (λ _. vec_len stack.new ≤ vec_len stack.old + 8) }
{
    match eat(letter, bytes) {
        Some(after) => add(stack, nest, &[part], after),
        None => add(stack, nest, &[], bytes),
    }
}

/// The type that a function returns.
#[tactic(auto, unfolding(crate::specs::V0Grammar::returned_parts))]
fn returned_parts<'a>(
    stack: &mut Vec<Frame>,
    nest: &Nest,
    bytes: &'a [u8],
) -> Result<Option<&'a [u8]>, OutOfMemory>
    ensures parts { IfOk result (λ after. pushed stack.old.items nest.now (Some (v0.returned_parts bytes.now)) ≡ option_map (λ a. (stack.new.items, a.now)) after) }
    ensures few { IfOk result (λ _. vec_len stack.new ≤ vec_len stack.old + 8) }
{
    match eat(b'u', bytes) {
        Some(after) => add(stack, nest, &[], after),
        None => add(stack, nest, &[say(Word::Arrow), ANY_TYPE], bytes),
    }
}

/// What a symbol within a level is made of.
#[tactic(auto, unfolding(crate::specs::V0Grammar::phrase_parts))]
#[inline(always)]
pub(crate) fn phrase_parts<'a>(
    stack: &mut Vec<Frame>,
    nest: &Nest,
    phrase: Phrase,
    opened: bool,
    bytes: &'a [u8],
) -> Result<Option<&'a [u8]>, OutOfMemory>
    ensures parts { IfOk result (λ after. pushed stack.old.items nest.now (v0.phrase_parts phrase opened bytes.now) ≡ option_map (λ a. (stack.new.items, a.now)) after) }
    ensures few { IfOk result (λ _. vec_len stack.new ≤ vec_len stack.old + 8) }
{
    match phrase {
        Phrase::AnyType => any_type_parts(stack, nest, bytes),
        Phrase::Items(item, count) => items_parts(stack, nest, item, count, bytes),
        Phrase::Argument => argument_parts(stack, nest, bytes),
        Phrase::Bindings => bindings_parts(stack, nest, opened, bytes),
        Phrase::LaterBindings => bindings_parts(stack, nest, true, bytes),
        Phrase::Named(space) => match after_letter(b's', bytes) {
            Some((number, name)) => named_parts(stack, nest, space, number, name),
            None => Ok(None),
        },
        Phrase::Borrow => borrow_parts(stack, nest, bytes),
        Phrase::Outlives => outlives_parts(stack, nest, bytes),
        Phrase::Unsafety => part_after(stack, nest, b'U', say(Word::Unsafe), bytes),
        Phrase::Convention => convention_parts(stack, nest, bytes),
        Phrase::Returned => returned_parts(stack, nest, bytes),
        Phrase::Fields => fields_parts(stack, nest, bytes),
        Phrase::Sign => part_after(stack, nest, b'n', sign(b'-'), bytes),
    }
}
