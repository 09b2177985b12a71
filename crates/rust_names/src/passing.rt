//! Parts of v0 names that are not shown. Each is read only once, by steps on a stack. A part that
//! was read is then known by its place, with the numbers of levels and symbols that are enough to
//! read it.
ghost use Rattle.std.specs.Prelude.{◌≡◌, ◌≤◌, ◌<◌, ◌∷◌, ◌++◌, ◌^◌, [], ℕ, true, false, reverse, map, IfOk, OnOk, IfSome};
ghost use Rattle.std.specs.Ordering.{nat_cmp};
ghost use Rattle.std.specs.BTreeMap.{get};
ghost use Rattle.rust_names.specs.declared.grammar.Count.TheVariants.{Many};
ghost use Rattle.rust_names.specs.declared.grammar.Phrase.TheVariants as phrase;
ghost use Rattle.rust_names.specs.declared.grammar.Part.TheVariants.{Deep, Phrase as Made};
ghost use Rattle.rust_names.specs.declared.passing.Begun.{Begun};
ghost use Rattle.rust_names.specs.declared.passing.Step.TheVariants.{Read};
ghost use Rattle.rust_names.specs.internal.Passing.{AreConstants};
ghost use Rattle.rust_names.specs.internal.Stepping.{AreHidden, Begins, CanEnd, IsJoined, Passes, Waits, coded, key, read_of};
ghost use Rattle.rust_names.specs.internal.Running.{is_made};

use crate::frames::expand;
use crate::grammar::{Count, Frame, Item, Kind, Part, Phrase, Scope};
use crate::turns::{Room, from_place, is_made, read_frames};
use std::alloc::Global;
use std::collections::BTreeMap;
use sym_edges::OutOfMemory;

/// A part of at most this many bytes is read anew each time.
const SHORT: usize = 64;

/// How far a name is read.
#[derive(Clone, Copy)]
pub struct Reached {
    pub place: usize,
    /// Whether the last trait's arguments are open there.
    pub opened: bool,
    /// How many levels are enough for what was read.
    pub levels: usize,
    /// How many symbols within a level are enough for it.
    pub width: usize,
}

/// A part whose own parts are being read, and where it begins.
#[derive(Clone, Copy)]
pub struct Begun {
    pub part: Part,
    pub from: Reached,
}

/// What is still to be done.
#[derive(Clone, Copy)]
pub enum Step {
    /// A part is to be read.
    Read(Part),
    /// All of a part was read.
    End(Begun),
}

/// Memory for the parts of a name that are not shown.
#[derive(Drop)]
pub(crate) struct HiddenParts {
    pub(crate) room: Room,
    /// What is still to be done, the next on top.
    pub(crate) steps: Vec<Step>,
    /// What is known of parts, by `key`.
    pub(crate) known: BTreeMap<u64, Reached>,
}

impl HiddenParts {
    pub(crate) fn new(alloc: Global) -> HiddenParts {
        HiddenParts {
            room: Room::new(alloc),
            steps: Vec::new(alloc),
            known: BTreeMap::new(alloc),
        }
    }
}

/// The number that stands for a kind of level.
fn level_code(kind: Kind) -> u64
    ensures coded { coded result ≡ Deep kind }
    ensures small { result < 16 }
{
    match kind {
        Kind::Path => 0,
        Kind::ValuePath => 1,
        Kind::TraitPath => 2,
        Kind::Type => 3,
        Kind::Constant => 4,
        Kind::Value => 5,
    }
}

/// The number that stands for the items of a list after two or more items.
fn list_code(item: Item) -> u64
    ensures coded { coded result ≡ Made (phrase.Items item Many) }
    ensures small { result < 16 }
{
    match item {
        Item::Argument => 6,
        Item::Parameter => 7,
        Item::Member => 8,
        Item::Element => 9,
        Item::Component => 10,
        Item::Field => 11,
        Item::Bound => 12,
    }
}

/// The number that stands for a part, if parts of its kind may be long.
fn code(part: Part) -> Option<u64>
    ensures coded { IfSome result (λ k. coded k ≡ part) }
    ensures small { IfSome result (λ k. k < 16) }
{
    match part {
        Part::Deep(kind) => Some(level_code(kind)),
        Part::Phrase(Phrase::Items(item, Count::Many)) => Some(list_code(item)),
        Part::Phrase(Phrase::LaterBindings) => Some(13),
        _ => None,
    }
}

/// The key of what is known of a part: its place, its number, and whether the last trait's
/// arguments are open before it.
fn key(place: usize, code: u64, opened: bool) -> u64
    requires place { place < 2 ^ 58 }
    requires code { code < 16 }
    ensures { result ≡ key place code opened }
{
    32 * place as u64 + 2 * code + u64::from(opened)
}

/// What is known of a part at a place.
fn find(known: &BTreeMap<u64, Reached>, name: &[u8], part: Part, now: Reached) -> Option<Reached>
    requires { AreHidden name.now known.now }
    ensures { IfSome result (λ end. Passes name.now part now.place now.opened end) }
{
    if now.place >= (1 << 58) {
        return None;
    }
    match code(part) {
        Some(code) => match known.get(&key(now.place, code, now.opened)) {
            Some(end) => Some(*end),
            None => None,
        },
        None => None,
    }
}

/// Keeps what is known of a part that was read, unless it is short.
fn keep(
    known: &mut BTreeMap<u64, Reached>,
    name: &[u8],
    begun: Begun,
    end: Reached,
) -> Result<(), OutOfMemory>
    requires known { AreHidden name.now known.old }
    requires passes { Passes name.now begun.part begun.from.place begun.from.opened end }
    ensures { OnOk result (AreHidden name.now known.new) }
{
    let from = begun.from;
    if from.place >= (1 << 58) || end.place.saturating_sub(from.place) <= SHORT {
        return Ok(());
    }
    match code(begun.part) {
        Some(code) => {
            known.insert(key(from.place, code, from.opened), end)?;
            Ok(())
        }
        None => Ok(()),
    }
}

/// The outcome of reading two parts, one after the other.
fn joined(now: Reached, end: Reached) -> Reached
    ensures { IsJoined now end result }
{
    Reached {
        place: end.place,
        opened: end.opened,
        levels: now.levels.max(end.levels),
        width: now.width.max(end.width),
    }
}

/// What is known of a part after all its parts were read.
fn ended(name: &[u8], begun: Begun, now: Reached) -> Option<Reached>
    requires { Begins name.now begun [] now }
    ensures { IfSome result (λ end. Passes name.now begun.part begun.from.place begun.from.opened end) }
{
    match begun.part {
        Part::Deep(_) | Part::Back(_) => {
            if now.width > name.len() + 8 || now.levels > name.len() {
                return None;
            }
            Some(Reached {
                place: now.place,
                opened: now.opened,
                levels: now.levels + 1,
                width: 0,
            })
        }
        _ => {
            if now.width > name.len() + 8 {
                return None;
            }
            Some(Reached {
                place: now.place,
                opened: now.opened,
                levels: now.levels,
                width: now.width + 1,
            })
        }
    }
}

/// Puts steps onto a stack that read the parts of these frames.
fn push_reads(steps: &mut Vec<Step>, frames: &[Frame]) -> Result<(), OutOfMemory>
    ensures { OnOk result (steps.new.items ≡ steps.old.items ++ map read_of frames.now) }
{
    'frames: for frame in frames {
        steps.push(Step::Read(frame.part))?;
    }
    Ok(())
}

/// Begins to read a part that is made of others: puts the steps for these onto the stack.
fn begin(
    stack: &mut Vec<Frame>,
    steps: &mut Vec<Step>,
    name: &[u8],
    part: Part,
    now: Reached,
) -> Result<Option<Reached>, OutOfMemory>
    requires { is_made part ≡ true }
    ensures { IfOk result (λ next. IfSome next (λ r. (first : Begun) → Waits name.now first (Read part ∷ reverse steps.old.items) [] now → Waits name.now first (reverse steps.new.items) [] r)) }
{
    stack.clear();
    let frame = Frame {
        part,
        scope: Scope {
            bound: 0,
            visible: false,
        },
        levels: 1,
        width: 1,
    };
    match expand(
        stack,
        name.len(),
        frame,
        now.opened,
        from_place(name, now.place),
    )? {
        Some(after) => {
            steps.push(Step::End(Begun { part, from: now }))?;
            push_reads(steps, stack.as_slice())?;
            Ok(Some(Reached {
                place: name.len().saturating_sub(after.len()),
                opened: now.opened,
                levels: 0,
                width: 0,
            }))
        }
        None => Ok(None),
    }
}

/// Reads a part that is not made of others.
fn read_one(
    alloc: Global,
    room: &mut Room,
    name: &[u8],
    part: Part,
    now: Reached,
) -> Result<Option<Reached>, OutOfMemory>
    requires plain { is_made part ≡ false }
    requires constants { AreConstants name.now room.old.constants }
    ensures passes { IfOk result (λ next. IfSome next (Passes name.now part now.place now.opened)) }
    ensures constants { IfOk result (λ next. AreConstants name.now room.new.constants) }
{
    room.opened = now.opened;
    let frame = Frame {
        part,
        scope: Scope {
            bound: 0,
            visible: false,
        },
        levels: 0,
        width: 1,
    };
    room.stack.clear();
    room.stack.push(frame)?;
    match read_frames(alloc, room, name, from_place(name, now.place), false)? {
        Some(stop) => Ok(Some(Reached {
            place: name.len().saturating_sub(stop.rest.len()),
            opened: room.opened,
            levels: 0,
            width: 1,
        })),
        None => Ok(None),
    }
}

/// Does one step.
fn do_step(
    alloc: Global,
    hidden: &mut HiddenParts,
    name: &[u8],
    step: Step,
    now: Reached,
) -> Result<Option<Reached>, OutOfMemory>
    requires ends { CanEnd name.now step now }
    requires known { AreHidden name.now hidden.old.known }
    requires constants { AreConstants name.now hidden.old.room.constants }
    ensures waits { IfOk result (λ next. IfSome next (λ r. (first : Begun) → Waits name.now first (step ∷ reverse hidden.old.steps.items) [] now → Waits name.now first (reverse hidden.new.steps.items) [] r)) }
    ensures known { OnOk result (AreHidden name.now hidden.new.known) }
    ensures constants { OnOk result (AreConstants name.now hidden.new.room.constants) }
{
    match step {
        Step::End(begun) => {
            let Some(end) = ended(name, begun, now) else {
                return Ok(None);
            };
            keep(&mut hidden.known, name, begun, end)?;
            Ok(Some(joined(begun.from, end)))
        }
        Step::Read(part) => {
            if let Some(end) = find(&hidden.known, name, part, now) {
                return Ok(Some(joined(now, end)));
            }
            if is_made(part) {
                let next = begin(&mut hidden.room.stack, &mut hidden.steps, name, part, now)?;
                return Ok(next);
            }
            match read_one(alloc, &mut hidden.room, name, part, now)? {
                Some(end) => Ok(Some(joined(now, end))),
                None => Ok(None),
            }
        }
    }
}

/// Passes a part that is not shown. Returns `None` if there is no such part; it may also do so if
/// there is one.
pub(crate) fn pass_part(
    alloc: Global,
    hidden: &mut HiddenParts,
    name: &[u8],
    part: Part,
    from: Reached,
) -> Result<Option<Reached>, OutOfMemory>
    requires { AreHidden name.now hidden.old.known }
    ensures passes { IfOk result (λ end. IfSome end (Passes name.now part from.place from.opened)) }
    ensures known { OnOk result (AreHidden name.now hidden.new.known) }
{
    hidden.room.constants.clear();
    hidden.steps.clear();
    hidden.steps.push(Step::Read(part))?;
    let mut now = Reached {
        place: from.place,
        opened: from.opened,
        levels: 0,
        width: 0,
    };
    'steps: for _ in 0..name.len().saturating_mul(64) {
        let Some(step) = hidden.steps.pop() else {
            return Ok(Some(now));
        };
        match do_step(alloc, hidden, name, step, now)? {
            Some(next) => now = next,
            None => return Ok(None),
        }
    }
    Ok(None)
}
