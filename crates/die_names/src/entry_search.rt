//! The entry that begins at a place.
ghost use Rattle.std.specs.Prelude.{◌≡◌, ◌+◌, ◌<◌, ◌^◌, ℕ, map, length, Some, IfSome};
ghost use Rattle.std.specs.List.{find};
ghost use Rattle.sym_edges.specs.Rising.{RisesFrom};
ghost use Rattle.die_walk.specs.EntryTable.{DieFields};
ghost use Rattle.debug_units.specs.UnitEntries.{AreRead, places, unit_entries, entries_from, entry_at};
ghost use Rattle.die_names.specs.internal.Finding.{is_at, found_in, found_from, found, moved, IsInside};

use debug_units::{EntryRef, UnitRead};
use die_walk::DieList;
use place_guesses::{guess_at, note_guess, slot_of};

/// The numbers of a unit and of an entry in it, while the entry is looked up.
#[derive(Clone, Copy, Debug)]
pub struct Standing {
    pub unit: usize,
    pub entry: usize,
}

/// The number of the entry of a unit that begins at a place.
#[tactic(auto, using(crate::proofs::FindLemmas::die_here, crate::proofs::FindLemmas::die_wrong, crate::proofs::FindLemmas::die_lost, crate::proofs::FindLemmas::die_inside))]
fn find_in_unit(dies: &DieList<'_>, place: u64) -> Option<usize>
    requires { RisesFrom 0 (map (λ (d : DieFields). d.at) dies.now) }
    ensures found { (unit : ℕ) → found_in unit dies.now result ≡ find (is_at place) (unit_entries unit 0 dies.now) }
    ensures inside { IfSome result (λ entry. entry < length dies.now) }
{
    let count = dies.count_before(place);
    let Some(die) = dies.get(count) else {
        return None;
    };
    if u64::from(die.at()) != place {
        return None;
    }
    Some(count)
}

/// The numbers of an entry, after `count` units were added in front of the list.
fn behind(count: usize, standing: Option<Standing>) -> Option<Standing>
    requires { IfSome standing (λ s. count + s.unit < 2 ^ 63) }
    ensures { result ≡ moved count standing }
{
    match standing {
        Some(s) => Some(Standing {
            unit: count + s.unit,
            entry: s.entry,
        }),
        None => None,
    }
}

/// The entry of some units that begins at a place, by binary search.
fn find_among(units: &[UnitRead<'_>], place: u64) -> Option<Standing>
    requires { RisesFrom 0 (places units.now) }
    ensures found { (first : ℕ) → found_from first units.now result ≡ find (is_at place) (entries_from first units.now) }
    ensures inside { IfSome result (λ s. IsInside units.now s) }
{
    let half = units.len() / 2;
    let (left, right) = units.split_at(half);
    let Some((part, rest)) = right.split_first() else {
        return None;
    };
    let dies = part.die.dies();
    let Some(die) = dies.get(0) else {
        return match find_among(left, place) {
            Some(standing) => Some(standing),
            None => behind(half + 1, find_among(rest, place)),
        };
    };
    if place < u64::from(die.at()) {
        return find_among(left, place);
    }
    match find_in_unit(dies, place) {
        Some(entry) => Some(Standing { unit: half, entry }),
        None => behind(half + 1, find_among(rest, place)),
    }
}

/// The guessed number, if the entry with that number begins at the place.
#[tactic(auto, using(crate::proofs::FindLemmas::guess_here, crate::proofs::FindLemmas::die_inside))]
fn guess_in_unit(dies: &DieList<'_>, guess: usize, place: u64) -> Option<usize>
    requires { RisesFrom 0 (map (λ (d : DieFields). d.at) dies.now) }
    ensures found { IfSome result (λ entry. (unit : ℕ) → found_in unit dies.now (Some entry) ≡ find (is_at place) (unit_entries unit 0 dies.now)) }
    ensures inside { IfSome result (λ entry. entry < length dies.now) }
{
    let Some(die) = dies.get(guess) else {
        return None;
    };
    if u64::from(die.at()) != place {
        return None;
    }
    Some(guess)
}

/// The number of the entry of a unit that begins at a place. If a number is guessed, only that entry is tried.
fn look_in_unit(dies: &DieList<'_>, guess: Option<usize>, place: u64) -> Option<usize>
    requires { RisesFrom 0 (map (λ (d : DieFields). d.at) dies.now) }
    ensures found { IfSome result (λ entry. (unit : ℕ) → found_in unit dies.now (Some entry) ≡ find (is_at place) (unit_entries unit 0 dies.now)) }
    ensures inside { IfSome result (λ entry. entry < length dies.now) }
{
    match guess {
        Some(guess) => guess_in_unit(dies, guess, place),
        None => find_in_unit(dies, place),
    }
}

/// The entry that begins at a place, if it is in unit `near`. If a number of an entry is guessed, only that entry is tried.
fn find_near(
    units: &[UnitRead<'_>],
    near: usize,
    guess: Option<usize>,
    place: u64,
) -> Option<Standing>
    requires { RisesFrom 0 (places units.now) }
    ensures found { IfSome result (λ s. (first : ℕ) → found_from first units.now (Some s) ≡ find (is_at place) (entries_from first units.now)) }
    ensures inside { IfSome result (λ s. IsInside units.now s) }
{
    if near >= units.len() {
        return None;
    }
    let (left, right) = units.split_at(near);
    let Some((part, rest)) = right.split_first() else {
        return None;
    };
    let dies = part.die.dies();
    let Some(die) = dies.get(0) else {
        return None;
    };
    if u64::from(die.at()) > place {
        return None;
    }
    match look_in_unit(dies, guess, place) {
        Some(entry) => Some(Standing { unit: near, entry }),
        None => None,
    }
}

/// The entry that begins at a place. Unit `near` is searched first.
fn find_from(units: &[UnitRead<'_>], near: usize, place: u64) -> Option<Standing>
    requires { RisesFrom 0 (places units.now) }
    ensures found { (first : ℕ) → found_from first units.now result ≡ find (is_at place) (entries_from first units.now) }
    ensures inside { IfSome result (λ s. IsInside units.now s) }
{
    match find_near(units, near, None, place) {
        Some(standing) => Some(standing),
        None => find_among(units, place),
    }
}

/// The entry that begins at a place. The guessed entry is tried first, then unit `near` is searched.
fn find_from_guess(
    units: &[UnitRead<'_>],
    guess: Option<EntryRef>,
    near: usize,
    place: u64,
) -> Option<Standing>
    requires { RisesFrom 0 (places units.now) }
    ensures found { (first : ℕ) → found_from first units.now result ≡ find (is_at place) (entries_from first units.now) }
    ensures inside { IfSome result (λ s. IsInside units.now s) }
{
    let Some(guess) = guess else {
        return find_from(units, near, place);
    };
    match find_near(
        units,
        guess.unit as usize,
        Some(guess.entry as usize),
        place,
    ) {
        Some(standing) => Some(standing),
        None => find_from(units, near, place),
    }
}

/// The entry that begins at a place of `.debug_info`. Most links of an entry lead into its own
/// unit, which is `near`. Many links lead to the same entries, and `guesses` keeps where those were
/// found.
#[tactic(auto, using(crate::proofs::AmongLemmas::found_none, crate::proofs::AmongLemmas::found_some, crate::proofs::FollowLemmas::small_unit, crate::proofs::FollowLemmas::small_entry))]
pub(crate) fn find_entry(
    units: &[UnitRead<'_>],
    near: u32,
    place: u64,
    guesses: &mut [EntryRef],
) -> Option<EntryRef>
    requires { AreRead units.now }
    ensures { found units.now result ≡ entry_at units.now place }
{
    let slot = slot_of(place, guesses.len());
    let guess = guess_at(guesses, slot);
    match find_from_guess(units, guess, near as usize, place) {
        Some(at) => {
            let at = EntryRef {
                unit: at.unit as u32,
                entry: at.entry as u32,
            };
            note_guess(guesses, slot, at);
            Some(at)
        }
        None => None,
    }
}
