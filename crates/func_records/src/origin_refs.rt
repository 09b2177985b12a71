//! The entries that name the inlined functions.
ghost use Rattle.std.specs.Prelude.{◌≡◌, [], ◌++◌, ◌∷◌, length, List, ℕ, IfOk, OnOk};
ghost use Rattle.debug_units.specs.declared.unit_read.UnitRead.{UnitRead};
ghost use Rattle.func_records.specs.internal.Origins.{made_name, entry_names, all_names, RefsSay};

use debug_units::Units;
use die_names::{LinkGuesses, NameRef, name_by};
use flat_lists::FlatLists;
use func_flatten::Piece;
use inline_chain::InlineRun;
use place_guesses::PlaceGuesses;
use std::alloc::Global;
use std::marker::Model;
use sym_edges::OutOfMemory;

/// The number of guesses for the entries of a share.
const SLOTS: usize = 8192;

/// References to entries that name functions, most of them once each, and for each added reference
/// its place among them.
#[derive(Drop)]
pub struct OriginRefs {
    refs: Vec<NameRef>,
    places: Vec<u32>,
    guesses: PlaceGuesses,
}

impl Model for OriginRefs {
    ghost use Rattle.func_records.specs.internal.Origins.{RefParts};

    ghost Value = { RefParts };

    ghost view = { λ o. record { refs = o.refs.items; places = o.places.items } };
}

/// A key that distinguishes an entry from most others.
fn key_of(name: NameRef) -> u64 {
    u64::from(name.unit) << 32 | u64::from(name.entry)
}

impl OriginRefs {
    /// No references yet, with room for this many guesses.
    pub fn new(alloc: Global, slots: usize) -> Result<OriginRefs, OutOfMemory>
        ensures { IfOk result (λ origins. origins ≡ record { refs = []; places = [] }) }
    {
        Ok(OriginRefs {
            refs: Vec::new(alloc),
            places: Vec::new(alloc),
            guesses: PlaceGuesses::new(alloc, slots)?,
        })
    }

    /// The references and the places, without spare room.
    pub fn into_parts(self) -> (Vec<NameRef>, Vec<u32>)
        ensures refs { result.0.items ≡ self.refs }
        ensures places { result.1.items ≡ self.places }
    {
        let OriginRefs {
            mut refs,
            mut places,
            guesses: _,
        } = self;
        refs.shrink_to_fit();
        places.shrink_to_fit();
        (refs, places)
    }

    /// Adds the place of a reference, given where its guess is.
    fn add(&mut self, slot: usize, name: NameRef) -> Result<(), OutOfMemory>
        ensures { OnOk result ((units : List UnitRead) (names : List (List ℕ)) → RefsSay units self.old names → RefsSay units self.new (names ++ made_name units name ∷ [])) }
    {
        let place = self.guesses.place_or_add(slot, &mut self.refs, name)?;
        self.places.push(place)?;
        Ok(())
    }

    /// Adds the places of the entries that name the functions of a piece's inlined copies.
    fn add_copies(
        &mut self,
        units: &Units<'_>,
        unit: u32,
        copies: &[InlineRun],
        links: &mut LinkGuesses,
    ) -> Result<(), OutOfMemory>
        ensures { OnOk result ((names : List (List ℕ)) → RefsSay units.now self.old names → RefsSay units.now self.new (names ++ entry_names units.now unit copies.now)) }
    {
        'copies: for place in 0..copies.len() {
            let copy = &copies[place];
            let name = name_by(units, unit, copy.entry, links);
            let slot = self.guesses.slot_of(key_of(name));
            self.add(slot, name)?;
        }
        Ok(())
    }
}

/// The entries that name the functions of some pieces' inlined copies.
pub fn gather_refs(
    alloc: Global,
    units: &Units<'_>,
    pieces: &[Piece],
    held: &FlatLists<InlineRun>,
    links: &mut LinkGuesses,
) -> Result<OriginRefs, OutOfMemory>
    requires { length held.now ≡ length pieces.now }
    ensures { IfOk result (λ origins. RefsSay units.now origins (all_names units.now pieces.now held.now)) }
{
    let mut origins = OriginRefs::new(alloc, SLOTS)?;
    'pieces: for place in 0..pieces.len() {
        origins.add_copies(units, pieces[place].unit, held.at(place), links)?;
    }
    Ok(origins)
}
