//! Names that were made, and the same names once each.
ghost use Rattle.std.specs.Prelude.{◌≡◌, IfOk, IfSome};
ghost use Rattle.func_records.specs.internal.Gathering.{bytes_of};
ghost use Rattle.func_records.specs.internal.Origins.{made_name, TextsSay};

use debug_units::Units;
use die_names::{EntryNameText, NameRef, clean_slice, name_text};
use place_guesses::PlaceGuesses;
use std::alloc::Global;
use std::hash::{FoldHasher, Hasher};
use std::marker::Model;
use std::sync::Arc;
use sym_edges::OutOfMemory;

/// A name whose bytes are in the file, or one that was made. Several entries may have a made name, which is in memory once.
#[derive(Drop)]
pub enum HeldName<'a> {
    Whole(&'a [u8]),
    Made(Arc<EntryNameText<'a>, Global>),
}

/// The name that an entry gives, and a key that few other names have.
#[derive(Drop)]
pub struct MadeName<'a> {
    text: HeldName<'a>,
    key: u64,
}

impl<'a> Model for MadeName<'a> {
    ghost use Rattle.std.specs.Prelude.{List, ℕ};
    ghost use Rattle.func_records.specs.internal.HeldNames.{held_name};

    ghost Value = { List ℕ };

    ghost view = { λ m. held_name m.text };
}

/// A key that few other texts have.
fn key_of(text: &[u8]) -> u64 {
    let mut hasher = FoldHasher::default();
    hasher.write(text);
    hasher.finish()
}

impl<'a> MadeName<'a> {
    /// A name whose bytes are in the file.
    fn whole(bytes: &'a [u8]) -> MadeName<'a>
        ensures { result ≡ bytes.now }
    {
        MadeName {
            text: HeldName::Whole(bytes),
            key: key_of(bytes),
        }
    }

    /// A name that was made.
    fn of(alloc: Global, text: EntryNameText<'a>) -> Result<MadeName<'a>, OutOfMemory>
        ensures { IfOk result (λ name. name ≡ text.entry) }
    {
        let key = key_of(text.as_slice());
        Ok(MadeName {
            text: HeldName::Made(Arc::new(alloc, text)?),
            key,
        })
    }

    /// The same name, for one more entry.
    fn again(&self) -> Result<MadeName<'a>, OutOfMemory>
        ensures { IfOk result (λ name. name ≡ self.now) }
    {
        let text = match &self.text {
            HeldName::Whole(bytes) => HeldName::Whole(bytes),
            HeldName::Made(text) => HeldName::Made(Arc::try_clone(text)?),
        };
        Ok(MadeName {
            text,
            key: self.key,
        })
    }

    pub fn as_slice(&self) -> &[u8]
        ensures { result.now ≡ self.now }
    {
        match &self.text {
            HeldName::Whole(bytes) => bytes,
            HeldName::Made(text) => text.as_slice(),
        }
    }
}

/// The name at a place of a list, if it has the same bytes.
fn same_name<'t, 'a>(
    names: &'t [MadeName<'a>],
    place: u32,
    name: &MadeName<'_>,
) -> Option<&'t MadeName<'a>>
    ensures { IfSome result (λ same. same.now ≡ name.now) }
{
    let same = names.get(place as usize)?;
    if same.key == name.key && same.as_slice() == name.as_slice() {
        return Some(same);
    }
    None
}

/// The cleaned name that an entry gives. If it is made, and an earlier one is equal, that one is taken. `guesses` has the places of earlier ones.
pub fn name_of_entry<'a>(
    alloc: Global,
    units: &Units<'a>,
    name: NameRef,
    earlier: &[MadeName<'a>],
    guesses: &mut PlaceGuesses,
) -> Result<MadeName<'a>, OutOfMemory>
    ensures { IfOk result (λ text. text ≡ made_name units.now name) }
{
    if let Some(bytes) = clean_slice(units, name) {
        return Ok(MadeName::whole(bytes));
    }
    let made = MadeName::of(alloc, name_text(alloc, units, name)?)?;
    let slot = guesses.slot_of(made.key);
    if let Some(same) = same_name(earlier, guesses.guess(slot), &made) {
        return same.again();
    }
    if earlier.len() < u32::MAX as usize {
        guesses.note(slot, earlier.len() as u32);
    }
    Ok(made)
}

/// Names, most of them once each, and for each given name its place among them.
#[derive(Drop)]
pub struct DistinctNames<'t> {
    pub texts: Vec<&'t [u8]>,
    pub places: Vec<u32>,
}

/// The given names, each once. Only if keys collide, a name may be there several times.
pub fn distinct_names<'t>(
    alloc: Global,
    names: &'t [MadeName<'_>],
) -> Result<DistinctNames<'t>, OutOfMemory>
    ensures { IfOk result (λ d. TextsSay (bytes_of d.texts.items) d.places.items names.now) }
{
    let mut guesses = PlaceGuesses::new(alloc, names.len())?;
    let mut texts = Vec::new(alloc);
    let mut places = Vec::with_capacity(alloc, names.len())?;
    'names: for k in 0..names.len() {
        let name = &names[k];
        let slot = guesses.slot_of(name.key);
        let place = guesses.place_or_add(slot, &mut texts, name.as_slice())?;
        places.push(place)?;
    }
    Ok(DistinctNames { texts, places })
}
