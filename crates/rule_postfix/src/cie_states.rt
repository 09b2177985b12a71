//! The states after the CIEs of a section.
ghost use Rattle.std.specs.Prelude.{◌≡◌, Some, OnOk};
ghost use Rattle.std.specs.Ordering.{nat_cmp};
ghost use Rattle.std.specs.BTreeMap.{get};
ghost use Rattle.frame_entries.specs.FdeFields.{FdeFields};
ghost use Rattle.frame_entries.specs.SharedCies.{HaveOneCie};
ghost use Rattle.frame_rows.specs.CieLeft.{cie_left};
ghost use Rattle.rule_postfix.specs.internal.Keeping.{KeptFor};

use frame_entries::Fde;
use frame_rows::CieState;
use std::alloc::Global;
use std::collections::BTreeMap;
use sym_edges::OutOfMemory;

/// The most bytes of instructions that a short CIE has. The state of only one short CIE at a time is cached.
const SHORT: usize = 64;

/// Whether the CIE of an entry is long.
pub fn is_long(fde: &Fde<'_>) -> bool {
    fde.initial_instructions.len() > SHORT
}

/// The states after the CIEs at some places of a section. The state of a long CIE is made once, even if the entries of several CIEs alternate. Of the
/// short CIEs only the last one's state is cached, at the place `short`, so that many short CIEs take no more memory than one.
#[derive(Drop)]
pub struct CieStates {
    by_place: BTreeMap<usize, CieState>,
    short: Option<usize>,
}

impl CieStates {
    /// No state yet.
    #[tactic(auto, using(crate::proofs::KeepingLemmas::none_kept))]
    pub fn new(alloc: Global) -> CieStates
        ensures { (e : FdeFields) → KeptFor result e }
    {
        CieStates {
            by_place: BTreeMap::new(alloc),
            short: None,
        }
    }

    /// Drops the state of the short CIE.
    fn drop_short(&mut self)
        ensures { (f : FdeFields) → KeptFor self.old f → KeptFor self.new f }
    {
        if let Some(place) = self.short {
            self.by_place.remove(&place);
        }
    }

    /// Makes room for the state of a CIE.
    fn make_room(&mut self, fde: &Fde<'_>)
        ensures { (f : FdeFields) → KeptFor self.old f → KeptFor self.new f }
    {
        if !is_long(fde) {
            self.drop_short();
            self.short = Some(fde.cie);
        }
    }

    /// Makes the state after the CIE of an entry, if it is not cached.
    #[tactic(auto, using(crate::proofs::KeepingLemmas::is_there, crate::proofs::KeepingLemmas::is_made, crate::proofs::KeepingLemmas::new_kept))]
    pub fn make(&mut self, alloc: Global, fde: &Fde<'_>) -> Result<(), OutOfMemory>
        requires { KeptFor self.old fde.now }
        ensures known { OnOk result (get nat_cmp self.new.by_place fde.now.cie ≡ Some (cie_left fde.now)) }
        ensures kept { OnOk result ((f : FdeFields) → KeptFor self.old f → (fde.now.cie ≡ f.cie → HaveOneCie fde.now f) → KeptFor self.new f) }
    {
        if self.by_place.contains_key(&fde.cie) {
            return Ok(());
        }
        let state = CieState::of(alloc, fde)?;
        self.make_room(fde);
        self.by_place.insert(fde.cie, state)?;
        Ok(())
    }

    /// The cached state after the CIE of an entry.
    pub fn behind(&self, fde: &Fde<'_>) -> &CieState
        requires { get nat_cmp self.now.by_place fde.now.cie ≡ Some (cie_left fde.now) }
        ensures { result.now ≡ cie_left fde.now }
    {
        match self.by_place.get(&fde.cie) {
            Some(state) => state,
            None => unreachable!(),
        }
    }
}
