//! The parts of an answer, for a `FUNC` that has more than a few ranges under it: the maps of its
//! levels, and its line.
ghost use Rattle.std.specs.Prelude.{◌≡◌, ◌<◌, ◌^◌, ℕ, List, IfSome};
ghost use Rattle.std.specs.Option.{is_some};
ghost use Rattle.sym_lookup.specs.Answers.{func_place, chain_places, line_place};
ghost use Rattle.sym_lookup.specs.IndexOf.{IsIndexOf};
ghost use Rattle.sym_lookup.specs.PlaceMaps.{place_in, IsPlaceRun};
ghost use Rattle.sym_lookup.specs.UnderOf.{chain_in};
ghost use Rattle.sym_lookup.specs.internal.HeldUnders.{is_held};
ghost use Rattle.sym_records.specs.declared.line.SymLine.{SymLine};

use crate::answers::PlaceRun;
use crate::index::Index;
use crate::stretches::{PlaceMap, run_at};
use crate::under::{level_maps, line_in, under_at};
use sym_records::SymFile;

/// The place of the first record at an address, and an end up to which this record is the first.
pub fn place_run(map: &PlaceMap, address: u64) -> PlaceRun
    ensures { IsPlaceRun (place_in map.now) address result }
{
    run_at(map, address)
}

impl Index {
    /// The place of the first `FUNC` that covers the address. Allocates no memory.
    pub fn func_at(&self, address: u64) -> Option<usize>
        ensures { (lines : List SymLine) → IsIndexOf lines self.now → result ≡ func_place lines address }
    {
        crate::stretches::place_at(self.funcs(), address)
    }

    /// The map of each level of `INLINE` records under the `FUNC` at a place, if the index stores
    /// these. It does so exactly for each `FUNC` with more than 32 ranges under it; a record
    /// without a range counts as one range.
    pub fn levels(&self, func: usize) -> Option<&[PlaceMap]>
        ensures held { (lines : List SymLine) → IsIndexOf lines self.now → is_some result ≡ is_held lines func }
        ensures chain { IfSome result (λ levels. (lines : List SymLine) (x : ℕ) → IsIndexOf lines self.now → x < 2 ^ 64 → chain_in levels.now x ≡ chain_places lines func x) }
    {
        match under_at(self.unders(), func) {
            Some(under) => Some(level_maps(under)),
            None => None,
        }
    }

    /// The place of the first line record under the `FUNC` at a place that covers the address, or
    /// `Some(None)` if there is none. `None` if the index does not store what is under the `FUNC`
    /// ([`Index::levels`]).
    pub fn line_at(&self, file: &SymFile, func: usize, address: u64) -> Option<Option<usize>>
        requires { IsIndexOf file.now self.now }
        ensures held { is_some result ≡ is_held file.now func }
        ensures line { IfSome result (λ line. line ≡ line_place file.now func address) }
    {
        match under_at(self.unders(), func) {
            Some(under) => Some(line_in(under, file.as_slice(), address)),
            None => None,
        }
    }
}
