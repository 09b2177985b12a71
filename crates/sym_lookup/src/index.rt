//! The index of a symbol file.
ghost use Rattle.std.specs.Prelude.{◌≡◌, ◌<◌, ◌^◌, ◌++◌, List, length, IfOk, IfSome, OnOk};
ghost use Rattle.cfi_eval.specs.Inits.{init_place};
ghost use Rattle.sym_lookup.specs.Answers.{func_place, public_place, answer_of};
ghost use Rattle.sym_lookup.specs.AnswerTexts.{answer_text};
ghost use Rattle.sym_lookup.specs.IndexOf.{IsIndexOf};
ghost use Rattle.sym_lookup.specs.PlaceMaps.{IsPlaceMap, IsPlaceRun};
ghost use Rattle.sym_lookup.specs.NearestMarks.{mark_at, public_of};
ghost use Rattle.sym_lookup.specs.declared.answers.Answer.TheVariants as answer;
ghost use Rattle.sym_records.specs.declared.line.SymLine.{SymLine};
ghost use Rattle.std.specs.List.Sorted.{IsNonDecreasingBy};
ghost use Rattle.std.specs.Option.{option_map_or, option_copied};
ghost use Rattle.sym_meaning.specs.TextNames.{text_path, text_origin};

use crate::answers::{Answer, PlaceRun};
use crate::marks::{Mark, Marked, mark_at, sorted_marks};
use crate::named::Records;
use crate::numbers::{Numbers, numbers_of};
use crate::shared_text::SharedText;
use crate::stretches::{Kind, PlaceMap, place_at, place_map, run_at};
use crate::texts::add_answer;
use crate::under::{Under, held_in_function, unders_of};
use std::alloc::Global;
use sym_edges::OutOfMemory;
use sym_records::{SymFile, SymLine};

/// An index of a symbol file. It has the first `FUNC` and the first `INIT` at each address, the
/// addresses at which `FUNC` and `PUBLIC` records begin, and the first `FILE` and the first
/// `INLINE_ORIGIN` of each number.
#[derive(Drop)]
pub struct Index {
    funcs: PlaceMap,
    inits: PlaceMap,
    starts: Vec<Mark>,
    publics: Vec<Mark>,
    unders: Vec<Under>,
    numbers: Numbers,
}

/// The place of the `PUBLIC` before an address, given the nearest `PUBLIC` and the nearest `FUNC`.
fn public_of(found: Option<Mark>, func: Option<Mark>) -> Option<usize>
    ensures { result ≡ public_of found func }
{
    match (found, func) {
        (None, _) => None,
        (Some(mark), None) => Some(mark.place as usize),
        (Some(mark), Some(func)) => {
            if mark.key <= func.key {
                return None;
            }
            Some(mark.place as usize)
        }
    }
}

/// The answer if no `FUNC` covers the address.
fn outside(starts: &[Mark], publics: &[Mark], address: u64) -> Answer
    requires starts { IsNonDecreasingBy (λ m. m.key) starts.now }
    requires publics { IsNonDecreasingBy (λ m. m.key) publics.now }
    ensures { result ≡ option_map_or answer.Public (public_of (mark_at publics.now address) (mark_at starts.now address)) answer.Nothing }
{
    let found = mark_at(publics, address);
    let func = mark_at(starts, address);
    match public_of(found, func) {
        Some(index) => Answer::Public { index },
        None => Answer::Nothing,
    }
}

/// The place of the first `FUNC` that covers the address, found in the map of `FUNC` records.
#[tactic(auto, using(crate::proofs::IndexLemmas::func_within))]
fn func_in(funcs: &PlaceMap, lines: &[SymLine], address: u64) -> Option<usize>
    requires { IsPlaceMap (func_place lines.now) funcs.now }
    ensures place { result ≡ func_place lines.now address }
    ensures within { IfSome result (λ func. func < length lines.now) }
{
    place_at(funcs, address)
}

impl Index {
    /// The index of a file of fewer than 2^32 records. The time for n records and ranges is O(n log
    /// n), however they overlap.
    pub fn of(alloc: Global, file: &SymFile) -> Result<Index, OutOfMemory>
        requires { length file.now < 2 ^ 32 }
        ensures { IfOk result (λ index. IsIndexOf file.now index) }
    {
        let lines = file.as_slice();
        let funcs = place_map(alloc, Kind::Functions, 0, lines)?;
        let inits = place_map(alloc, Kind::Inits, 0, lines)?;
        let starts = sorted_marks(alloc, Marked::Functions, lines)?;
        let publics = sorted_marks(alloc, Marked::Publics, lines)?;
        let unders = unders_of(alloc, lines)?;
        let numbers = numbers_of(alloc, lines)?;
        Ok(Index {
            funcs,
            inits,
            starts,
            publics,
            unders,
            numbers,
        })
    }

    /// The map of the first `FUNC` at each address.
    pub(crate) fn funcs(&self) -> &PlaceMap
        ensures { result.now ≡ self.now.funcs }
    {
        &self.funcs
    }

    /// The records under each `FUNC` that has more than a few ranges under it.
    pub(crate) fn unders(&self) -> &[Under]
        ensures { result.now ≡ self.now.unders.items }
    {
        self.unders.as_slice()
    }

    /// The answer at an address.
    pub fn answer_at(
        &self,
        alloc: Global,
        file: &SymFile,
        address: u64,
    ) -> Result<Answer, OutOfMemory>
        requires { IsIndexOf file.now self.now }
        ensures { IfOk result (λ found. found ≡ answer_of file.now address) }
    {
        let lines = file.as_slice();
        match func_in(&self.funcs, lines, address) {
            Some(func) => {
                let found = held_in_function(alloc, self.unders.as_slice(), lines, func, address)?;
                Ok(found)
            }
            None => {
                let starts = self.starts.as_slice();
                let publics = self.publics.as_slice();
                Ok(outside(starts, publics, address))
            }
        }
    }

    /// The place of the first `INIT` that covers the address. Allocates no memory.
    pub fn init_at(&self, address: u64) -> Option<usize>
        ensures { (lines : List SymLine) → IsIndexOf lines self.now → result ≡ init_place lines address }
    {
        place_at(&self.inits, address)
    }

    /// The place of the first `FUNC` that covers the address, and an end up to which it stays the first. Allocates no memory.
    #[tactic(auto, using(crate::proofs::IndexLemmas::run_of_map))]
    pub fn func_run(&self, address: u64) -> PlaceRun
        ensures { (lines : List SymLine) → IsIndexOf lines self.now → IsPlaceRun (func_place lines) address result }
    {
        run_at(&self.funcs, address)
    }

    /// The place of the first `INIT` that covers the address, and an end up to which it stays the first. Allocates no memory.
    #[tactic(auto, using(crate::proofs::IndexLemmas::run_of_map))]
    pub fn init_run(&self, address: u64) -> PlaceRun
        ensures { (lines : List SymLine) → IsIndexOf lines self.now → IsPlaceRun (init_place lines) address result }
    {
        run_at(&self.inits, address)
    }

    /// Adds the text of an answer, equal to that of [`crate::answer_text`], but without a scan of the
    /// file.
    pub fn add_answer(
        &self,
        text: &mut SharedText,
        file: &SymFile,
        answer: &Answer,
    ) -> Result<(), OutOfMemory>
        requires { IsIndexOf file.now self.now }
        ensures { OnOk result (text.new ≡ text.old ++ answer_text file.now answer.now) }
    {
        let records = Records::numbered(file.as_slice(), &self.numbers);
        add_answer(text, &records, answer)
    }

    /// The name of the first `FILE` with a number.
    pub fn path<'f>(&'f self, file: &'f SymFile, number: u32) -> Option<&'f [u8]>
        requires { IsIndexOf file.now self.now }
        ensures { option_copied result ≡ text_path file.now number }
    {
        Records::numbered(file.as_slice(), &self.numbers).path(number)
    }

    /// The name of the first `INLINE_ORIGIN` with a number.
    pub fn origin<'f>(&'f self, file: &'f SymFile, number: u32) -> Option<&'f [u8]>
        requires { IsIndexOf file.now self.now }
        ensures { option_copied result ≡ text_origin file.now number }
    {
        Records::numbered(file.as_slice(), &self.numbers).origin_text(number)
    }
}
