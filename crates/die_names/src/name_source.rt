//! Which entry gives a name.
ghost use Rattle.std.specs.Prelude.{◌≡◌, true, if◌then◌else◌};
ghost use Rattle.clean_names.specs.Cleaning.{cleaned};
ghost use Rattle.debug_units.specs.UnitEntries.{entry_of};
ghost use Rattle.die_names.specs.Names.{way, entry_name, linked_from};
ghost use Rattle.die_names.specs.NameRefs.{name_ref, name_bytes};
ghost use Rattle.die_names.specs.internal.Finding.{found};
ghost use Rattle.die_names.specs.internal.Following.{followed, noted_at};

use crate::entry_search::find_entry;
use crate::guesses::LinkGuesses;
use debug_units::{EntryRef, Units};
use die_walk::Die;

/// How an entry gives a name.
#[derive(Clone, Copy, Debug, PartialEq, Eq)]
pub enum How {
    /// By its linkage name.
    Linkage,
    /// By its name, after the names of its scopes.
    Joined,
    /// There is no name on the way.
    Omitted,
}

/// The entry that gives a name, and how. If two are equal, so are their names; if not, their names may still have the same text.
#[derive(Clone, Copy, Debug, PartialEq, Eq)]
pub struct NameRef {
    pub unit: u32,
    pub entry: u32,
    pub how: How,
}

/// The greatest number of links that are followed.
const LINKS: u32 = 16;

/// The entry that the link of an entry leads to.
fn follow_link(
    units: &Units<'_>,
    unit: u32,
    die: &Die<'_, '_>,
    guesses: &mut [EntryRef],
) -> Option<EntryRef>
    ensures { found units.now result ≡ linked_from units.now die.now }
{
    let place = match die.origin() {
        Some(place) => place,
        None => die.spec()?,
    };
    find_entry(units.as_slice(), unit, u64::from(place), guesses)
}

/// The name that the entry gives.
fn refer(at: EntryRef, how: How) -> NameRef
    ensures { result ≡ record { unit = at.unit; entry = at.entry; how = how } }
{
    NameRef {
        unit: at.unit,
        entry: at.entry,
        how,
    }
}

/// Which entry gives the name if no linkage name follows: the first entry that has a name.
fn note(die: &Die<'_, '_>, at: EntryRef, best: NameRef) -> NameRef
    ensures { result ≡ noted_at best at die.now }
{
    match best.how {
        How::Omitted if die.has_name() => refer(at, How::Joined),
        _ => best,
    }
}

/// Which entry gives the name, given `best` for the entries before `here`. It is the first entry
/// from `here` on with a linkage name. If there is none, it is `best` or, if `best` is omitted, the
/// first entry from `here` on with a name. If there is no such entry either, it is `best`.
#[tactic(auto, using(crate::proofs::FollowLemmas::way_none, crate::proofs::FollowLemmas::way_lost, crate::proofs::FollowLemmas::linkage_is, crate::proofs::FollowLemmas::last_is, crate::proofs::FollowLemmas::next_is))]
fn follow(
    units: &Units<'_>,
    here: Option<EntryRef>,
    links: u32,
    best: NameRef,
    guesses: &mut [EntryRef],
) -> NameRef
    ensures { result ≡ followed best (way units.now links (found units.now here)) }
{
    let Some(at) = here else {
        return best;
    };
    let Some(die) = units.entry(at) else {
        return best;
    };
    if die.has_linkage() {
        return refer(at, How::Linkage);
    }
    let noted = note(&die, at, best);
    if links == 0 {
        return noted;
    }
    let next = follow_link(units, at.unit, &die, guesses);
    follow(units, next, links - 1, noted, guesses)
}

/// The entry that gives the name of an entry, with guesses of where links lead.
#[tactic(auto, using(crate::proofs::NameLemmas::reference_is, crate::proofs::NameLemmas::name_from), unfolding(debug_units::specs::UnitEntries::entry_of))]
fn name_among(units: &Units<'_>, unit: u32, entry: u32, guesses: &mut [EntryRef]) -> NameRef
    ensures reference { result ≡ name_ref units.now unit entry }
    ensures name { cleaned (name_bytes units.now result) ≡ entry_name units.now unit entry }
{
    let asked = NameRef {
        unit,
        entry,
        how: How::Omitted,
    };
    follow(units, Some(EntryRef { unit, entry }), LINKS, asked, guesses)
}

/// The entry that gives the name of an entry. It is among the entry itself and those that at most
/// 16 links reach: the first one with a linkage name, or else the first one with a name. A link
/// goes by `DW_AT_abstract_origin`, or else by `DW_AT_specification`, to a kept entry of any unit.
/// Allocates no memory.
pub fn name_of(units: &Units<'_>, unit: u32, entry: u32) -> NameRef
    ensures reference { result ≡ name_ref units.now unit entry }
    ensures name { cleaned (name_bytes units.now result) ≡ entry_name units.now unit entry }
{
    name_among(units, unit, entry, &mut [])
}

/// The same as [`name_of`], for one of many entries whose links often lead to the same entries:
/// `guesses` keeps where they led. Allocates no memory.
pub fn name_by(units: &Units<'_>, unit: u32, entry: u32, guesses: &mut LinkGuesses) -> NameRef
    ensures reference { result ≡ name_ref units.now unit entry }
    ensures name { cleaned (name_bytes units.now result) ≡ entry_name units.now unit entry }
{
    name_among(units, unit, entry, guesses.slots())
}
