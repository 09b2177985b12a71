//! Paths of v0 names that are not shown: the paths of impls. Backreferences may lead to the same
//! path many times, and also into the middle of its lists. Once such paths have taken a few times
//! as many bytes as the name has, each part is read only once.
ghost use Rattle.std.specs.Prelude.{◌≡◌, ℕ, true, List, IfOk, OnOk, IfSome};
ghost use Rattle.std.specs.Option.{option_map};
ghost use Rattle.rust_names.specs.declared.grammar.Kind.TheVariants as kind;
ghost use Rattle.rust_names.specs.declared.grammar.Part.TheVariants.{Deep};
ghost use Rattle.rust_names.specs.V0Names.{read_level};
ghost use Rattle.rust_names.specs.internal.Passing.{IsEnd, Reads, dark, is_hidden};
ghost use Rattle.rust_names.specs.internal.Stepping.{AreHidden};
ghost use Rattle.rust_names.specs.internal.Running.{at, read_frame};

use crate::grammar::{Frame, Kind, Part, Scope};
use crate::passing::{HiddenParts, Reached, pass_part};
use crate::turns::{Room, from_place, read_frames};
use std::alloc::Global;
use sym_edges::OutOfMemory;

/// Steps are used after more bytes were read anew than about this many times the name's length.
const TIMES: usize = 4;

/// The bytes that are left, and whether the last trait's arguments are left open.
#[derive(Clone, Copy)]
pub(crate) struct Ahead<'a> {
    pub(crate) rest: &'a [u8],
    pub(crate) opened: bool,
}

/// Memory for the paths of a name that are not shown.
#[derive(Drop)]
pub(crate) struct HiddenPaths {
    parts: HiddenParts,
    /// How many bytes of these paths were read.
    spent: usize,
}

impl HiddenPaths {
    pub(crate) fn new(alloc: Global) -> HiddenPaths {
        HiddenPaths {
            parts: HiddenParts::new(alloc),
            spent: 0,
        }
    }

    /// Forgets the paths of the last name.
    pub(crate) fn forget(&mut self)
        ensures { (name : List ℕ) → AreHidden name self.new.parts.known }
    {
        self.parts.known.clear();
        self.spent = 0;
    }
}

/// Reads a path that is not shown, if at most `levels` levels nest.
fn read_hidden<'a>(
    alloc: Global,
    room: &mut Room,
    name: &'a [u8],
    levels: usize,
    ahead: &Ahead<'a>,
) -> Result<Option<Ahead<'a>>, OutOfMemory>
    requires { IsEnd name.now ahead.now.rest.now }
    ensures read { IfOk result (λ next. (bound : ℕ) (text : List ℕ) → read_level name.now levels (Deep kind.Path) (dark bound) (at ahead.now.rest.now text ahead.now.opened) ≡ option_map (λ a. at a.rest.now text a.opened) next) }
    ensures ends { IfOk result (λ next. IfSome next (λ a. IsEnd name.now a.rest.now)) }
{
    room.stack.clear();
    room.text.clear();
    room.constants.clear();
    room.opened = ahead.opened;
    room.stack.push(Frame {
        part: Part::Deep(Kind::Path),
        scope: Scope {
            bound: 0,
            visible: false,
        },
        levels,
        width: 0,
    })?;
    match read_frames(alloc, room, name, ahead.rest, false)? {
        Some(stop) => Ok(Some(Ahead {
            rest: stop.rest,
            opened: room.opened,
        })),
        None => Ok(None),
    }
}

/// Passes a path by steps. Returns `None` if there is no path; it may also do so if there is one.
#[tactic(auto, using(crate::proofs::EndLemmas::shorter))]
fn pass_steps<'a>(
    alloc: Global,
    hidden: &mut HiddenPaths,
    name: &'a [u8],
    levels: usize,
    ahead: &Ahead<'a>,
) -> Result<Option<Ahead<'a>>, OutOfMemory>
    requires ends { IsEnd name.now ahead.now.rest.now }
    requires known { AreHidden name.now hidden.old.parts.known }
    ensures reads { IfOk result (λ next. IfSome next (λ a. Reads name.now levels ahead.now.rest.now ahead.now.opened a.rest.now a.opened)) }
    ensures ends { IfOk result (λ next. IfSome next (λ a. IsEnd name.now a.rest.now)) }
    ensures known { OnOk result (AreHidden name.now hidden.new.parts.known) }
{
    let from = Reached {
        place: name.len() - ahead.rest.len(),
        opened: ahead.opened,
        levels: 0,
        width: 0,
    };
    let Some(end) = pass_part(alloc, &mut hidden.parts, name, Part::Deep(Kind::Path), from)? else {
        return Ok(None);
    };
    if end.levels > levels {
        return Ok(None);
    }
    Ok(Some(Ahead {
        rest: from_place(name, end.place),
        opened: end.opened,
    }))
}

/// Passes a path that is not shown, if at most `levels` levels nest.
fn pass_path<'a>(
    alloc: Global,
    hidden: &mut HiddenPaths,
    name: &'a [u8],
    levels: usize,
    ahead: &Ahead<'a>,
) -> Result<Option<Ahead<'a>>, OutOfMemory>
    requires ends { IsEnd name.now ahead.now.rest.now }
    requires known { AreHidden name.now hidden.old.parts.known }
    ensures read { IfOk result (λ next. (bound : ℕ) (text : List ℕ) → read_level name.now levels (Deep kind.Path) (dark bound) (at ahead.now.rest.now text ahead.now.opened) ≡ option_map (λ a. at a.rest.now text a.opened) next) }
    ensures ends { IfOk result (λ next. IfSome next (λ a. IsEnd name.now a.rest.now)) }
    ensures known { OnOk result (AreHidden name.now hidden.new.parts.known) }
{
    if hidden.spent / TIMES > name.len() {
        if let Some(next) = pass_steps(alloc, hidden, name, levels, ahead)? {
            return Ok(Some(next));
        }
    }
    match read_hidden(alloc, &mut hidden.parts.room, name, levels, ahead)? {
        Some(next) => {
            let read = ahead.rest.len().saturating_sub(next.rest.len());
            hidden.spent = hidden.spent.saturating_add(read);
            Ok(Some(next))
        }
        None => Ok(None),
    }
}

/// Passes the path of an impl.
pub(crate) fn pass<'a>(
    alloc: Global,
    hidden: &mut HiddenPaths,
    name: &'a [u8],
    frame: Frame,
    ahead: &Ahead<'a>,
) -> Result<Option<Ahead<'a>>, OutOfMemory>
    requires path { is_hidden frame.part ≡ true }
    requires ends { IsEnd name.now ahead.now.rest.now }
    requires known { AreHidden name.now hidden.old.parts.known }
    ensures read { IfOk result (λ next. (text : List ℕ) → read_frame name.now frame (at ahead.now.rest.now text ahead.now.opened) ≡ option_map (λ a. at a.rest.now text a.opened) next) }
    ensures ends { IfOk result (λ next. IfSome next (λ a. IsEnd name.now a.rest.now)) }
    ensures known { OnOk result (AreHidden name.now hidden.new.parts.known) }
{
    if frame.width == 0 {
        return Ok(None);
    }
    let next = pass_path(alloc, hidden, name, frame.levels, ahead)?;
    Ok(next)
}
