//! Two files that are compared in one half.
ghost use Rattle.std.specs.Prelude.{◌≡◌, IfOk};
ghost use Rattle.sym_judge.specs.internal.Chains.{AreFuncMeetings};
ghost use Rattle.sym_judge.specs.internal.Stops.{first_in};

use crate::file_pair::FilePair;
use crate::frames::RulePair;
use crate::function_pairs::{FuncMeetings, func_meetings, no_meetings};
use crate::names::first_name_aspect;
use crate::ruling::{Aspect, Half};
use std::alloc::Global;
use std::marker::Model;
use step_maps::StepMap;
use sym_edges::OutOfMemory;

/// Two files, and what is found out of them once for one half. Contracts see the half and the records.
#[derive(Drop)]
pub(crate) struct HalfComparison<'a, 'f> {
    half: Half,
    both: &'a FilePair<'f>,
    funcs: FuncMeetings,
    rules: RulePair<'a, 'f>,
}

impl<'a, 'f> Model for HalfComparison<'a, 'f> {
    ghost use Rattle.std.specs.Prelude.{◌≡◌};
    ghost use Rattle.sym_judge.specs.internal.Chains.{AreFuncMeetings};
    ghost use Rattle.sym_judge.specs.internal.Stops.{Compared};

    ghost Value = { Compared };

    ghost view = { λ c. record { half = c.half; own = c.both.now.own; other = c.both.now.other } };

    ghost invariant = { λ c. AreFuncMeetings c.both.now.own c.both.now.other c.funcs × (c.rules ≡ c.both.now) };
}

impl<'a, 'f> HalfComparison<'a, 'f> {
    /// Two files that may differ at some addresses; they will be compared at the stops.
    pub(crate) fn of(
        alloc: Global,
        half: Half,
        both: &'a FilePair<'f>,
        doubts: &StepMap<bool>,
        stops: &[u64],
    ) -> Result<HalfComparison<'a, 'f>, OutOfMemory>
        ensures { IfOk result (λ compared. compared ≡ record { half = half; own = both.now.own; other = both.now.other }) }
    {
        if stops.is_empty() {
            return Ok(HalfComparison {
                half,
                both,
                funcs: no_meetings(alloc),
                rules: RulePair::bare(alloc, both),
            });
        }
        match half {
            Half::Names => {
                let funcs = func_meetings(alloc, both, doubts)?;
                Ok(HalfComparison {
                    half,
                    both,
                    funcs,
                    rules: RulePair::bare(alloc, both),
                })
            }
            Half::Frames => {
                let rules = RulePair::of(alloc, both)?;
                Ok(HalfComparison {
                    half,
                    both,
                    funcs: no_meetings(alloc),
                    rules,
                })
            }
        }
    }

    /// The first aspect that differs at an address.
    pub(crate) fn first_in(
        &self,
        alloc: Global,
        address: u64,
    ) -> Result<Option<Aspect>, OutOfMemory>
        ensures { IfOk result (λ found. found ≡ first_in self.now.half self.now.own self.now.other address) }
    {
        match self.half {
            Half::Names => first_name_aspect(alloc, &self.funcs, self.both, address),
            Half::Frames => self.rules.first_aspect(alloc, address),
        }
    }
}
