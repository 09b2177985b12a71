//! Texts, and the same texts in the order of their bytes.
ghost use Rattle.std.specs.Prelude.{◌≡◌, ◌<◌, ◌^◌, map, length, IfOk};
ghost use Rattle.std.specs.List.Sorted.{IsStrictlySortedBy};
ghost use Rattle.func_records.specs.internal.Texts.{text_cmp, SameTexts};

use std::alloc::Global;
use std::thread::Threads;
use sym_edges::OutOfMemory;
use unit_workers::Crew;

/// A text, and its place among the given texts.
type PlacedText<'t> = (&'t [u8], u32);

/// Texts in the order of their bytes, each once; and for each given text the place that it should
/// have among them.
#[derive(Drop)]
pub struct RankedTexts<'t> {
    pub sorted: Vec<&'t [u8]>,
    pub guesses: Vec<u32>,
}

/// The texts with their places.
fn place_texts<'t>(alloc: Global, texts: &[&'t [u8]]) -> Result<Vec<PlacedText<'t>>, OutOfMemory>
    requires { length texts.now < 2 ^ 32 }
    ensures { IfOk result (λ placed. map (λ p. p.0) placed.items ≡ texts.now) }
{
    let mut placed = Vec::with_capacity(alloc, texts.len())?;
    'texts: for place in 0..texts.len() {
        placed.push((texts[place], place as u32))?;
    }
    Ok(placed)
}

/// The texts alone.
fn bare_texts<'t>(alloc: Global, placed: &[PlacedText<'t>]) -> Result<Vec<&'t [u8]>, OutOfMemory>
    ensures { IfOk result (λ texts. texts.items ≡ map (λ p. p.0) placed.now) }
{
    let mut texts = Vec::with_capacity(alloc, placed.len())?;
    'placed: for place in 0..placed.len() {
        let one = placed[place];
        texts.push(one.0)?;
    }
    Ok(texts)
}

/// The place of each text among the sorted texts, each of which is there once. A place is only used
/// as a guess: the text is looked for there first.
fn guess_places(alloc: Global, placed: &[PlacedText<'_>]) -> Result<Vec<u32>, OutOfMemory> {
    let mut guesses = vec![in alloc; 0; placed.len()]?;
    let mut last = match placed.first() {
        Some(one) => one.0,
        None => return Ok(guesses),
    };
    let mut number: u32 = 0;
    for one in placed {
        if one.0 != last {
            number = number.saturating_add(1);
            last = one.0;
        }
        let place = one.1 as usize;
        if place < guesses.len() {
            guesses[place] = number;
        }
    }
    Ok(guesses)
}

/// The texts in the order of their bytes, each once.
pub fn ranked_texts<'t, R: Threads + Sync>(
    crew: &Crew<'_, R>,
    texts: &[&'t [u8]],
) -> Result<RankedTexts<'t>, OutOfMemory>
    ensures sorted { IfOk result (λ ranked. IsStrictlySortedBy text_cmp ranked.sorted.items) }
    ensures same { IfOk result (λ ranked. SameTexts texts.now ranked.sorted.items) }
{
    if texts.len() > u32::MAX as usize {
        return Err(OutOfMemory);
    }
    let alloc = crew.alloc();
    let mut placed = place_texts(alloc, texts)?;
    crew.sort(placed.as_mut_slice())?;
    let mut sorted = bare_texts(alloc, placed.as_slice())?;
    sorted.dedup();
    let guesses = guess_places(alloc, placed.as_slice())?;
    Ok(RankedTexts { sorted, guesses })
}
