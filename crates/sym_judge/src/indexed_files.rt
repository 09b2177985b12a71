//! One of the two files that are judged.
ghost use Rattle.std.specs.Prelude.{◌≡◌, ◌<◌, ◌^◌, ℕ, length, IfOk, IfSome};
ghost use Rattle.std.specs.Option.{option_copied};
ghost use Rattle.cfi_eval.specs.Inits.{init_place};
ghost use Rattle.sym_lookup.specs.Answers.{answer_of, func_place, chain_places, line_place};
ghost use Rattle.sym_lookup.specs.IndexOf.{IsIndexOf};
ghost use Rattle.sym_lookup.specs.PlaceMaps.{IsPlaceRun};
ghost use Rattle.sym_lookup.specs.UnderOf.{chain_in};
ghost use Rattle.sym_judge.specs.internal.Blocks.{block_place};
ghost use Rattle.sym_meaning.specs.TextNames.{text_path, text_origin};

use crate::ruling::Half;
use std::alloc::Global;
use std::marker::Model;
use step_maps::{FirstItem, StepMap};
use sym_edges::OutOfMemory;
use sym_lookup::{Answer, Index, PlaceRun};
use sym_records::{SymFile, SymLine};

/// A file with its index. Contracts see the records.
#[derive(Drop)]
pub(crate) struct IndexedFile<'f> {
    file: &'f SymFile,
    index: &'f Index,
}

impl<'f> Model for IndexedFile<'f> {
    ghost use Rattle.std.specs.Prelude.{List};
    ghost use Rattle.sym_records.specs.declared.line.SymLine.{SymLine};
    ghost use Rattle.sym_lookup.specs.IndexOf.{IsIndexOf};

    ghost Value = { List SymLine };

    ghost view = { λ s. s.file.now };

    ghost invariant = { λ s. IsIndexOf s.file.now s.index.now };
}

impl<'f> IndexedFile<'f> {
    pub(crate) fn of(file: &'f SymFile, index: &'f Index) -> IndexedFile<'f>
        requires { IsIndexOf file.now index.now }
        ensures { result ≡ file.now }
    {
        IndexedFile { file, index }
    }

    pub(crate) fn lines(&self) -> &'f [SymLine]
        ensures { result.now ≡ self.now }
    {
        self.file.as_slice()
    }

    /// The place of the first `INIT` that covers an address.
    #[tactic(auto, using(crate::proofs::SideLemmas::init_within))]
    pub(crate) fn init_at(&self, address: u64) -> Option<usize>
        ensures place { result ≡ init_place self.now address }
        ensures within { IfSome result (λ init. init < length self.now) }
    {
        self.index.init_at(address)
    }

    /// The first block of a half that covers an address, and an end up to which it stays the first.
    pub(crate) fn run_at(&self, half: Half, address: u64) -> PlaceRun
        ensures { IsPlaceRun (block_place half self.now) address result }
    {
        match half {
            Half::Names => self.index.func_run(address),
            Half::Frames => self.index.init_run(address),
        }
    }

    /// The place of the first `FUNC` that covers an address.
    pub(crate) fn func_at(&self, address: u64) -> Option<usize>
        ensures { result ≡ func_place self.now address }
    {
        self.index.func_at(address)
    }

    /// The levels of the `FUNC` at a place, if the index has them.
    pub(crate) fn levels(&self, func: usize) -> Option<&'f [StepMap<Option<FirstItem>>]>
        ensures { IfSome result (λ levels. (x : ℕ) → x < 2 ^ 64 → chain_in levels.now x ≡ chain_places self.now func x) }
    {
        self.index.levels(func)
    }

    /// The place of the line record at an address under the `FUNC` at a place, if the index has what is under it.
    pub(crate) fn line_at(&self, func: usize, address: u64) -> Option<Option<usize>>
        ensures { IfSome result (λ line. line ≡ line_place self.now func address) }
    {
        self.index.line_at(self.file, func, address)
    }

    /// Which records name an address.
    pub(crate) fn answer_at(&self, alloc: Global, address: u64) -> Result<Answer, OutOfMemory>
        ensures { IfOk result (λ found. found ≡ answer_of self.now address) }
    {
        self.index.answer_at(alloc, self.file, address)
    }

    /// The name of the first `FILE` of a number.
    pub(crate) fn path(&self, number: u32) -> Option<&'f [u8]>
        ensures { option_copied result ≡ text_path self.now number }
    {
        self.index.path(self.file, number)
    }

    /// The name of the first `INLINE_ORIGIN` of a number.
    pub(crate) fn origin(&self, number: u32) -> Option<&'f [u8]>
        ensures { option_copied result ≡ text_origin self.now number }
    {
        self.index.origin(self.file, number)
    }
}
