//! A name in the v0 mangling.
ghost use Rattle.std.specs.Prelude.{◌≡◌, reverse, IfOk};
ghost use Rattle.std.specs.List.{list_all};
ghost use Rattle.clean_names.specs.Names.{is_name, is_within_line};
ghost use Rattle.rust_names.specs.V0Names as v0;
ghost use Rattle.rust_names.specs.internal.Passing.{AreConstants};
ghost use Rattle.rust_names.specs.internal.Stepping.{AreHidden};
ghost use Rattle.rust_names.specs.internal.Reading.{kept};
ghost use Rattle.rust_names.specs.internal.Running.{at, run, shown_after};

use crate::grammar::{Frame, Inner, Kind, Leaf, Part, Scope};
use crate::hidden::{Ahead, HiddenPaths, pass};
use crate::turns::{Room, read_frames};
use std::alloc::Global;
use sym_edges::OutOfMemory;

/// How many levels may nest.
const MOST_LEVELS: usize = 500;

/// How many bytes a text may have at most.
const TEXT_LIMIT: usize = 65_536;

/// Memory for names that are read one after the other.
#[derive(Drop)]
pub(crate) struct Rooms {
    /// Memory for what is shown.
    pub(crate) shown: Room,
    hidden: HiddenPaths,
}

impl Rooms {
    pub(crate) fn new(alloc: Global) -> Rooms {
        Rooms {
            shown: Room::new(alloc),
            hidden: HiddenPaths::new(alloc),
        }
    }
}

/// Reads frames from the top of a stack, and adds what they show; returns false if they cannot be
/// read. Paths of impls are read without being shown.
fn read_shown(alloc: Global, rooms: &mut Rooms, name: &[u8]) -> Result<bool, OutOfMemory>
    requires hidden { AreHidden name.now rooms.old.hidden.parts.known }
    requires constants { AreConstants name.now rooms.old.shown.constants }
    ensures { IfOk result (λ said. shown_after (run name.now (reverse rooms.old.shown.stack.items) (at name.now rooms.old.shown.text.items rooms.old.shown.opened)) ≡ kept said rooms.new.shown.text.items) }
{
    let mut rest = name;
    'paths: while let Some(stop) = read_frames(alloc, &mut rooms.shown, name, rest, true)? {
        let Some(frame) = stop.hidden else {
            return Ok(true);
        };
        let ahead = Ahead {
            rest: stop.rest,
            opened: rooms.shown.opened,
        };
        match pass(alloc, &mut rooms.hidden, name, frame, &ahead)? {
            Some(next) => {
                rooms.shown.opened = next.opened;
                rest = next.rest;
            }
            None => return Ok(false),
        }
    }
    Ok(false)
}

/// Adds what the bytes after `_R` show, if at most `levels` levels nest; returns false if they are
/// no name.
#[tactic(auto, unfolding(crate::specs::V0Names::text_within), using(crate::proofs::RunLemmas::whole_run))]
fn text_within(
    alloc: Global,
    levels: usize,
    rooms: &mut Rooms,
    name: &[u8],
) -> Result<bool, OutOfMemory>
    ensures { IfOk result (λ said. v0.text_within levels name.now ≡ kept said rooms.new.shown.text.items) }
{
    rooms.shown.text.clear();
    rooms.shown.stack.clear();
    rooms.shown.constants.clear();
    rooms.shown.opened = false;
    rooms.hidden.forget();
    let scope = Scope {
        bound: 0,
        visible: true,
    };
    let width = name.len() + 8;
    rooms.shown.stack.push(Frame {
        part: Part::Leaf(Leaf::End),
        scope,
        levels,
        width,
    })?;
    rooms.shown.stack.push(Frame {
        part: Part::Inner(Inner::Instance),
        scope,
        levels,
        width,
    })?;
    rooms.shown.stack.push(Frame {
        part: Part::Deep(Kind::ValuePath),
        scope,
        levels,
        width,
    })?;
    read_shown(alloc, rooms, name)
}

/// Whether no byte ends a line. All are looked at, since a loop without an early exit can be
/// vectorized.
fn are_one_line(bytes: &[u8]) -> bool
    ensures { result ≡ list_all is_within_line bytes.now }
{
    let mut one_line = true;
    for at in 0..bytes.len() {
        one_line = one_line & (bytes[at] != b'\n');
    }
    one_line
}

/// Whether a record may have the text as a name.
#[tactic(auto, unfolding(clean_names::specs::Names::is_name))]
fn is_name(text: &[u8]) -> bool
    ensures { result ≡ is_name text.now }
{
    if text.is_empty() {
        return false;
    }
    text[0] != b' ' && text[text.len() - 1] != b'\r' && are_one_line(text)
}

/// Stores what a v0 name shows as the text; returns false if it shows nothing.
#[tactic(auto, unfolding(crate::specs::V0Names::v0_text))]
pub(crate) fn v0_text(alloc: Global, rooms: &mut Rooms, name: &[u8]) -> Result<bool, OutOfMemory>
    ensures { IfOk result (λ said. v0.v0_text name.now ≡ kept said rooms.new.shown.text.items) }
{
    if !name.starts_with(b"_R") {
        return Ok(false);
    }
    if !text_within(alloc, MOST_LEVELS, rooms, name.split_at(2).1)? {
        return Ok(false);
    }
    let text = rooms.shown.text.as_slice();
    Ok(is_name(text) && text.len() <= TEXT_LIMIT)
}
