//! The reading of a v0 name, frame by frame.
ghost use Rattle.std.specs.Prelude.{◌≡◌, ◌∷◌, ◌++◌, false, true, [], drop, reverse, None, IfOk, IfSome, MatchOption};
ghost use Rattle.std.specs.Option.{option_map};
ghost use Rattle.rust_names.specs.internal.Passing.{AreConstants, IsEnd, Stopped, Turned, is_hidden};
ghost use Rattle.rust_names.specs.V0Leaves.{read_leaf};
ghost use Rattle.rust_names.specs.internal.Running.{at, is_made, read_frame, run};

use crate::constants::{Constant, constant_at, is_constant, read_constant};
use crate::frames::expand;
use crate::grammar::{Frame, Inner, Leaf, Part, Phrase, Scope};
use crate::leaves::read_leaf;
use crate::paths::{crate_front, enter, read_crate, read_named};
use std::alloc::Global;
use std::collections::BTreeMap;
use sym_edges::OutOfMemory;

/// Memory for what is read by frames.
#[derive(Drop)]
pub(crate) struct Room {
    /// The frames that are still to be read, the next on top.
    pub(crate) stack: Vec<Frame>,
    /// The text that is shown.
    pub(crate) text: Vec<u8>,
    /// Whether the last trait's arguments are open.
    pub(crate) opened: bool,
    /// The constants of many digits that were read, by their place.
    pub(crate) constants: BTreeMap<u64, Constant>,
}

impl Room {
    pub(crate) fn new(alloc: Global) -> Room {
        Room {
            stack: Vec::new(alloc),
            text: Vec::new(alloc),
            opened: false,
            constants: BTreeMap::new(alloc),
        }
    }
}

/// Where the reading of frames stops.
#[derive(Clone, Copy)]
pub struct Stop<'a> {
    /// The bytes that are still to be read.
    pub rest: &'a [u8],
    /// The path of an impl at which the reading stopped; `None` if it stopped at the end.
    pub hidden: Option<Frame>,
}

/// Whether a part is the path of an impl.
#[inline(always)]
fn is_hidden(part: Part) -> bool
    ensures { result ≡ is_hidden part }
{
    match part {
        Part::Inner(Inner::ImplPath) => true,
        _ => false,
    }
}

/// Whether a part is read by reading its own parts.
#[inline(always)]
pub(crate) fn is_made(part: Part) -> bool
    ensures { result ≡ is_made part }
{
    match part {
        Part::Phrase(Phrase::Named(space)) => space < b'a',
        Part::Deep(_) | Part::Back(_) | Part::Phrase(_) | Part::Inner(_) => true,
        _ => false,
    }
}

/// The bytes from a place on.
#[inline(always)]
pub(crate) fn from_place(name: &[u8], place: usize) -> &[u8]
    ensures { result.now ≡ drop place name.now }
{
    if place > name.len() {
        return &[];
    }
    name.split_at(place).1
}

/// Reads a leaf, and adds what it shows. A constant of many digits is read once.
#[inline(always)]
fn read_known_leaf<'a>(
    alloc: Global,
    room: &mut Room,
    name: &'a [u8],
    leaf: Leaf,
    scope: Scope,
    rest: &'a [u8],
) -> Result<Option<&'a [u8]>, OutOfMemory>
    requires ends { IsEnd name.now rest.now }
    requires constants { AreConstants name.now room.old.constants }
    ensures read { IfOk result (λ next. read_leaf leaf scope rest.now room.old.text.items ≡ option_map (λ a. (a.now, room.new.text.items)) next) }
    ensures stack { IfOk result (λ next. room.new.stack.items ≡ room.old.stack.items) }
    ensures opened { IfOk result (λ next. room.new.opened ≡ room.old.opened) }
    ensures constants { IfOk result (λ next. AreConstants name.now room.new.constants) }
{
    if !is_constant(leaf) {
        return read_leaf(alloc, &mut room.text, leaf, scope, rest);
    }
    match constant_at(&mut room.constants, name, rest)? {
        Some(constant) => read_constant(&mut room.text, leaf, scope, constant, rest),
        None => Ok(None),
    }
}

/// Reads a part that is not made of others, and adds what it shows.
#[tactic(auto, unfolding(crate::specs::internal::Running::read_frame), using(crate::proofs::PathLemmas::no_named, crate::proofs::PathLemmas::named_frame))]
#[inline(always)]
fn read_plain<'a>(
    alloc: Global,
    room: &mut Room,
    name: &'a [u8],
    frame: Frame,
    rest: &'a [u8],
) -> Result<Option<&'a [u8]>, OutOfMemory>
    requires plain { is_made frame.part ≡ false }
    requires ends { IsEnd name.now rest.now }
    requires constants { AreConstants name.now room.old.constants }
    ensures read { IfOk result (λ next. read_frame name.now frame (at rest.now room.old.text.items room.old.opened) ≡ option_map (λ a. at a.now room.new.text.items room.new.opened) next) }
    ensures ends { IfOk result (λ next. IfSome next (λ a. IsEnd name.now a.now)) }
    ensures stack { IfOk result (λ next. room.new.stack.items ≡ room.old.stack.items) }
    ensures constants { IfOk result (λ next. AreConstants name.now room.new.constants) }
{
    match frame.part {
        Part::Leaf(leaf) => {
            let next = read_known_leaf(alloc, room, name, leaf, frame.scope, rest)?;
            Ok(next)
        }
        Part::Phrase(_) => {
            if frame.width == 0 {
                return Ok(None);
            }
            let next = read_named(alloc, &mut room.text, frame.scope, rest)?;
            Ok(next)
        }
        Part::Goto(place) => Ok(Some(from_place(name, place))),
        Part::Opened(open) => {
            room.opened = open;
            Ok(Some(rest))
        }
        _ => Ok(None),
    }
}

/// Reads a frame, or puts the frames that it is made of onto the stack. Nested paths are entered at once.
#[inline(always)]
fn turn<'a>(
    alloc: Global,
    room: &mut Room,
    name: &'a [u8],
    top: Frame,
    begin: &'a [u8],
) -> Result<Option<&'a [u8]>, OutOfMemory>
    requires ends { IsEnd name.now begin.now }
    requires constants { AreConstants name.now room.old.constants }
    ensures turned { IfOk result (λ next. Turned name.now (room.old.stack.items ++ top ∷ []) (at begin.now room.old.text.items room.old.opened) room.new.stack.items room.new.text.items room.new.opened next) }
    ensures constants { IfOk result (λ next. AreConstants name.now room.new.constants) }
{
    if !is_made(top.part) {
        let next = read_plain(alloc, room, name, top, begin)?;
        return Ok(next);
    }
    let mut frame = top;
    let rest = enter(&mut room.stack, name, &mut frame, begin)?;
    if let Some(after) = crate_front(frame, rest) {
        let next = read_crate(alloc, &mut room.text, frame.scope, after)?;
        return Ok(next);
    }
    let next = expand(&mut room.stack, name.len(), frame, room.opened, rest)?;
    Ok(next)
}

/// Reads the frames of a stack from its top, and adds what they show. If `stops`, it stops before
/// the first path of an impl.
pub(crate) fn read_frames<'a>(
    alloc: Global,
    room: &mut Room,
    name: &'a [u8],
    begin: &'a [u8],
    stops: bool,
) -> Result<Option<Stop<'a>>, OutOfMemory>
    requires ends { IsEnd name.now begin.now }
    requires constants { AreConstants name.now room.old.constants }
    ensures constants { IfOk result (λ next. AreConstants name.now room.new.constants) }
    ensures read { IfOk result (λ next. MatchOption next (run name.now (reverse room.old.stack.items) (at begin.now room.old.text.items room.old.opened) ≡ None) (Stopped name.now room.old.stack.items (at begin.now room.old.text.items room.old.opened) stops room.new.stack.items room.new.text.items room.new.opened)) }
{
    let mut rest = begin;
    'frames: while let Some(top) = room.stack.pop() {
        if is_hidden(top.part) && stops {
            return Ok(Some(Stop {
                rest,
                hidden: Some(top),
            }));
        }
        match turn(alloc, room, name, top, rest)? {
            Some(next) => rest = next,
            None => return Ok(None),
        }
    }
    Ok(Some(Stop { rest, hidden: None }))
}
