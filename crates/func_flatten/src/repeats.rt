//! Functions that several units have. A compiler emits an inline function or an instance of a template in each unit that needs it. The linker keeps
//! one of them, and often the entries of the others get its addresses.
ghost use Rattle.std.specs.Prelude.{◌≡◌, true, IfOk, IfSome};
ghost use Rattle.clean_names.specs.Cleaning.{cleaned};
ghost use Rattle.step_maps.specs.SpanStretches.{AreFit};
ghost use Rattle.func_flatten.specs.internal.Classes.{number_name};
ghost use Rattle.func_flatten.specs.internal.Repeats.{AreOwn, IsRepeat, Represents};

use crate::name_classes::place_at;
use clean_names::NAME_LIMIT;
use debug_units::{EntryRef, Units};
use die_names::{name_of, name_slice};
use std::alloc::Global;
use step_maps::Stretch;
use sym_edges::OutOfMemory;

/// For each stretch, the place of an earlier one that has the same addresses, or a number that is no place before it.
fn guess_repeats(alloc: Global, stretches: &[Stretch]) -> Result<Vec<u32>, OutOfMemory> {
    let mut sorted = Vec::with_capacity(alloc, stretches.len())?;
    'stretches: for place in 0..stretches.len() {
        let stretch = stretches[place];
        sorted.push(Stretch {
            first: stretch.first,
            last: stretch.last,
            index: place.min(u32::MAX as usize) as u32,
            class: 0,
        })?;
    }
    sorted.sort_unstable_by_key(|stretch| (stretch.first, stretch.last, stretch.index));
    let mut guesses = vec![in alloc; u32::MAX; stretches.len()]?;
    'sorted: for at in 1..sorted.len() {
        let before = sorted[at - 1];
        let here = sorted[at];
        let place = here.index as usize;
        if before.first == here.first && before.last == here.last && place < guesses.len() {
            guesses[place] = before.index;
        }
    }
    Ok(guesses)
}

/// The bytes of a function's name, if the file has them as they are.
fn bytes_of_name<'a>(units: &Units<'a>, places: &[EntryRef], number: u32) -> Option<&'a [u8]>
    ensures { IfSome result (λ bytes. number_name units.now places.now number ≡ cleaned bytes.now) }
{
    let place = place_at(places, number);
    let name = name_of(units, place.unit, place.entry);
    let bytes = name_slice(units, name)?;
    Some(bytes)
}

/// Whether it is certain that two functions have the same name. Long names are not compared here.
fn have_same_bytes(units: &Units<'_>, places: &[EntryRef], one: u32, other: u32) -> bool
    ensures { result ≡ true → number_name units.now places.now one ≡ number_name units.now places.now other }
{
    let Some(first) = bytes_of_name(units, places, one) else {
        return false;
    };
    let Some(second) = bytes_of_name(units, places, other) else {
        return false;
    };
    first.len() <= NAME_LIMIT && first == second
}

/// Whether the stretch at a guessed place has the same addresses as a later one, and a function of the same name.
fn is_repeat(
    units: &Units<'_>,
    places: &[EntryRef],
    earlier: &[Stretch],
    guess: u32,
    stretch: Stretch,
) -> bool
    ensures { result ≡ true → IsRepeat (number_name units.now places.now) earlier.now stretch }
{
    let Some(known) = earlier.get(guess as usize) else {
        return false;
    };
    known.first == stretch.first
        && known.last == stretch.last
        && have_same_bytes(units, places, known.index, stretch.index)
}

/// The stretches without those that repeat an earlier one: with the same addresses, for a function of the same name. So most functions that several
/// units have do not overlap, and the rest is swept as if each function stood once.
pub fn without_repeats(
    alloc: Global,
    units: &Units<'_>,
    places: &[EntryRef],
    stretches: &[Stretch],
) -> Result<Vec<Stretch>, OutOfMemory>
    requires fit { AreFit stretches.now }
    requires own { AreOwn stretches.now }
    ensures represents { IfOk result (λ kept. Represents (number_name units.now places.now) stretches.now kept.items) }
    ensures fit { IfOk result (λ kept. AreFit kept.items) }
    ensures own { IfOk result (λ kept. AreOwn kept.items) }
{
    let guesses = guess_repeats(alloc, stretches)?;
    let mut kept = Vec::with_capacity(alloc, stretches.len())?;
    'stretches: for at in 0..stretches.len() {
        let stretch = stretches[at];
        let earlier = stretches.split_at(at).0;
        let guess = guesses.get(at).copied().unwrap_or(u32::MAX);
        if is_repeat(units, places, earlier, guess, stretch) {
            continue;
        }
        kept.push(stretch)?;
    }
    Ok(kept)
}
