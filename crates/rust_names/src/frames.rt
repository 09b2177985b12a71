//! Frames: the parts that are still to be read.
ghost use Rattle.std.specs.Prelude.{◌≡◌, ◌≤◌, ◌<◌, ◌+◌, ◌^◌, length, vec_len, IfOk};
ghost use Rattle.std.specs.Option.{option_map, option_copied};
ghost use Rattle.rust_names.specs.V0Grammar as v0;
ghost use Rattle.rust_names.specs.V0Numbers as number;
ghost use Rattle.rust_names.specs.internal.Running.{pushed, pushed_own, level_by, level_frames, phrase_frames, inner_frames, expand, Expanded};

use crate::grammar::{Frame, Inner, Item, Kind, Leaf, Nest, Part, Phrase, Scope};
use crate::numbers::{after_letter, front};
use crate::phrases::phrase_parts;
use crate::productions::{back_parts, deep_parts, list_of, push, push_parts, say};
use crate::words::Word;
use sym_edges::OutOfMemory;

/// The scope of the parts in which a binder binds this many lifetimes.
fn bound_in(scope: Scope, count: u64) -> Option<Scope>
    ensures { result ≡ v0.bound_in scope count }
{
    if !scope.visible {
        return Some(scope);
    }
    match scope.bound.checked_add(count) {
        Some(bound) => Some(Scope {
            bound,
            visible: scope.visible,
        }),
        None => None,
    }
}

/// Whether the bytes begin a path.
fn begins_path(bytes: &[u8]) -> bool
    ensures { result ≡ v0.begins_path (number.front bytes.now) }
{
    match front(bytes) {
        Some((b, _)) => b'A' <= b && b <= b'Z',
        None => false,
    }
}

/// The same nesting for parts that are not shown.
fn hidden(nest: &Nest) -> Nest
    ensures { result ≡ record nest.now { scope = v0.hidden nest.now.scope } }
{
    Nest {
        scope: Scope {
            bound: nest.scope.bound,
            visible: false,
        },
        levels: nest.levels,
        width: nest.width,
    }
}

/// Puts the parts that are within a binder onto the stack, and before them the binder's lifetimes.
#[tactic(auto, unfolding(crate::specs::V0Grammar::binder_parts), using(crate::proofs::FrameLemmas::onto_both))]
fn binder_parts<'a>(
    stack: &mut Vec<Frame>,
    nest: &Nest,
    within: &[Part],
    bytes: &'a [u8],
) -> Result<Option<&'a [u8]>, OutOfMemory>
    ensures parts { IfOk result (λ after. pushed_own stack.old.items nest.now (v0.binder_parts within.now nest.now.scope bytes.now) ≡ option_map (λ a. (stack.new.items, a.now)) after) }
    ensures few { IfOk result (λ _. vec_len stack.new ≤ vec_len stack.old + 1 + length within.now) }
{
    let Some((count, after)) = after_letter(b'G', bytes) else {
        return Ok(None);
    };
    let Some(scope) = bound_in(nest.scope, count) else {
        return Ok(None);
    };
    let own = Nest {
        scope,
        levels: nest.levels,
        width: nest.width,
    };
    push_parts(stack, &own, within)?;
    push(stack, &own, Part::Leaf(Leaf::ForAll(count)))?;
    Ok(Some(after))
}

/// What a symbol with a scope of its own is made of.
#[tactic(auto, unfolding(crate::specs::V0Grammar::inner_parts), using(crate::proofs::FrameLemmas::onto_none))]
fn inner_parts<'a>(
    stack: &mut Vec<Frame>,
    nest: &Nest,
    inner: Inner,
    bytes: &'a [u8],
) -> Result<Option<&'a [u8]>, OutOfMemory>
    ensures parts { IfOk result (λ after. pushed_own stack.old.items nest.now (v0.inner_parts inner nest.now.scope bytes.now) ≡ option_map (λ a. (stack.new.items, a.now)) after) }
    ensures few { IfOk result (λ _. vec_len stack.new ≤ vec_len stack.old + 10) }
{
    match inner {
        Inner::ImplPath => {
            push(stack, &hidden(nest), Part::Deep(Kind::Path))?;
            Ok(Some(bytes))
        }
        Inner::Instance => {
            if begins_path(bytes) {
                push(stack, &hidden(nest), Part::Deep(Kind::Path))?;
            }
            Ok(Some(bytes))
        }
        Inner::Function => binder_parts(
            stack,
            nest,
            &[
                Part::Phrase(Phrase::Unsafety),
                Part::Phrase(Phrase::Convention),
                say(Word::Fn),
                list_of(Item::Parameter),
                say(Word::CloseParenthesis),
                Part::Phrase(Phrase::Returned),
            ],
            bytes,
        ),
        Inner::Object => binder_parts(stack, nest, &[list_of(Item::Bound)], bytes),
    }
}

/// What a level is made of.
#[inline(always)]
fn level_parts<'a>(
    stack: &mut Vec<Frame>,
    nest: &Nest,
    size: usize,
    part: Part,
    bytes: &'a [u8],
) -> Result<Option<&'a [u8]>, OutOfMemory>
    ensures parts { IfOk result (λ after. pushed stack.old.items nest.now (level_by size nest.now.scope part bytes.now) ≡ option_map (λ a. (stack.new.items, a.now)) after) }
    ensures few { IfOk result (λ _. vec_len stack.new ≤ vec_len stack.old + 10) }
{
    match part {
        Part::Deep(kind) => deep_parts(stack, nest, kind, bytes),
        Part::Back(kind) => back_parts(stack, nest, size, kind, bytes),
        _ => Ok(None),
    }
}

/// Puts the frames that a level is made of onto the stack, and returns the bytes at which they
/// begin.
#[tactic(auto, using(crate::proofs::FrameLemmas::level_over, crate::proofs::FrameLemmas::level_none, crate::proofs::FrameLemmas::level_some))]
#[inline(always)]
fn expand_level<'a>(
    stack: &mut Vec<Frame>,
    size: usize,
    frame: Frame,
    bytes: &'a [u8],
) -> Result<Option<&'a [u8]>, OutOfMemory>
    requires { size < 2 ^ 63 }
    ensures { IfOk result (λ after. Expanded stack.old.items stack.new.items (level_frames size frame bytes.now) (option_copied after)) }
{
    if frame.levels == 0 {
        return Ok(None);
    }
    let nest = Nest {
        scope: frame.scope,
        levels: frame.levels - 1,
        width: size + 8,
    };
    match level_parts(stack, &nest, size, frame.part, bytes)? {
        Some(after) => Ok(Some(after)),
        None => Ok(None),
    }
}

/// Puts the frames that a symbol within a level is made of onto the stack, and returns the bytes at
/// which they begin.
#[tactic(auto, using(crate::proofs::FrameLemmas::phrase_over, crate::proofs::FrameLemmas::phrase_none, crate::proofs::FrameLemmas::phrase_some))]
#[inline(always)]
fn expand_phrase<'a>(
    stack: &mut Vec<Frame>,
    phrase: Phrase,
    frame: Frame,
    opened: bool,
    bytes: &'a [u8],
) -> Result<Option<&'a [u8]>, OutOfMemory>
    ensures { IfOk result (λ after. Expanded stack.old.items stack.new.items (phrase_frames phrase frame opened bytes.now) (option_copied after)) }
{
    if frame.width == 0 {
        return Ok(None);
    }
    let nest = Nest {
        scope: frame.scope,
        levels: frame.levels,
        width: frame.width - 1,
    };
    match phrase_parts(stack, &nest, phrase, opened, bytes)? {
        Some(after) => Ok(Some(after)),
        None => Ok(None),
    }
}

/// Puts the frames that a symbol with a scope of its own is made of onto the stack, and returns the
/// bytes at which they begin.
#[tactic(auto, using(crate::proofs::FrameLemmas::inner_over, crate::proofs::FrameLemmas::inner_none, crate::proofs::FrameLemmas::inner_some))]
#[inline(always)]
fn expand_inner<'a>(
    stack: &mut Vec<Frame>,
    inner: Inner,
    frame: Frame,
    bytes: &'a [u8],
) -> Result<Option<&'a [u8]>, OutOfMemory>
    ensures { IfOk result (λ after. Expanded stack.old.items stack.new.items (inner_frames inner frame bytes.now) (option_copied after)) }
{
    if frame.width == 0 {
        return Ok(None);
    }
    let nest = Nest {
        scope: frame.scope,
        levels: frame.levels,
        width: frame.width - 1,
    };
    match inner_parts(stack, &nest, inner, bytes)? {
        Some(after) => Ok(Some(after)),
        None => Ok(None),
    }
}

/// Puts the frames that a frame is made of onto the stack, and returns the bytes at which they
/// begin.
#[tactic(auto, unfolding(crate::specs::internal::Running::expand))]
#[inline(always)]
pub(crate) fn expand<'a>(
    stack: &mut Vec<Frame>,
    size: usize,
    frame: Frame,
    opened: bool,
    bytes: &'a [u8],
) -> Result<Option<&'a [u8]>, OutOfMemory>
    requires { size < 2 ^ 63 }
    ensures { IfOk result (λ after. Expanded stack.old.items stack.new.items (expand size frame opened bytes.now) (option_copied after)) }
{
    match frame.part {
        Part::Phrase(phrase) => expand_phrase(stack, phrase, frame, opened, bytes),
        Part::Inner(inner) => expand_inner(stack, inner, frame, bytes),
        _ => expand_level(stack, size, frame, bytes),
    }
}
