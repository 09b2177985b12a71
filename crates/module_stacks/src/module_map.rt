//! Which module of a process counts at an address.
ghost use Rattle.std.specs.Prelude.{◌≡◌, ◌<◌, ◌^◌, ◌++◌, IfOk, IfSome, OnOk, length};
ghost use Rattle.std.specs.List.Sorted.{IsPermutation};
ghost use Rattle.step_maps.specs.Covers.{AreStretches};
ghost use Rattle.module_stacks.specs.ModuleAt.{module_at};
ghost use Rattle.module_stacks.specs.internal.ModuleStretches.{stretches_from, Fall};

use core_file::Module;
use std::alloc::Global;
use std::cmp::Reverse;
use std::marker::Model;
use step_maps::{FirstItem, StepMap, Stretch, first_items};
use sym_edges::OutOfMemory;

/// The modules of a process, and at each address the place of the module that counts there.
#[derive(Drop)]
pub struct ModuleMap<'m> {
    modules: &'m [Module],
    tops: StepMap<Option<FirstItem>>,
}

impl<'m> Model for ModuleMap<'m> {
    ghost use Rattle.std.specs.Prelude.{List};
    ghost use Rattle.core_file.specs.declared.modules.Module.{Module};
    ghost use Rattle.module_stacks.specs.internal.ModuleStretches.{IsModuleMap};

    ghost Value = { List Module };

    ghost view = { λ m. m.modules.now };

    ghost invariant = { λ m. IsModuleMap m.modules.now m.tops };
}

/// The addresses of the modules, each with the place of its module.
#[tactic(auto, using(crate::proofs::ModuleLemmas::stretch_more, crate::proofs::ModuleLemmas::stretch_none, crate::proofs::ModuleLemmas::stretches_end, step_maps::proofs::StretchLemmas::stretches_push))]
fn stretches_of(alloc: Global, modules: &[Module]) -> Result<Vec<Stretch>, OutOfMemory>
    requires { length modules.now < 2 ^ 32 }
    ensures all { IfOk result (λ v. v.items ≡ stretches_from 0 modules.now) }
    ensures some { IfOk result (λ v. AreStretches v.items) }
{
    let mut stretches = Vec::new(alloc);
    let mut index: u32 = 0;
    let mut rest = modules;
    'modules: while let Some((module, later)) = rest.split_first() {
        if module.start < module.end {
            stretches.push(Stretch {
                first: module.start,
                last: module.end - 1,
                index,
                class: 0,
            })?;
        }
        index += 1;
        rest = later;
    }
    Ok(stretches)
}

/// Sorts the addresses of modules: if one module counts before another, its addresses come first.
fn put_in_order(stretches: &mut Vec<Stretch>)
    ensures moved { IsPermutation stretches.old.items stretches.new.items }
    ensures order { Fall stretches.new.items }
{
    stretches.sort_unstable_by_key(|stretch| Reverse((stretch.first, stretch.index)));
}

impl<'m> ModuleMap<'m> {
    /// A map of modules, in n log n steps for n modules. If there are too many for a u32, the call
    /// ends as if memory ran out; a core has at most 65,536.
    pub fn of(alloc: Global, modules: &'m [Module]) -> Result<ModuleMap<'m>, OutOfMemory>
        ensures { IfOk result (λ map. map ≡ modules.now) }
    {
        if modules.len() > u32::MAX as usize {
            return Err(OutOfMemory);
        }
        let mut stretches = stretches_of(alloc, modules)?;
        put_in_order(&mut stretches);
        let tops = first_items(alloc, stretches.as_slice())?;
        Ok(ModuleMap { modules, tops })
    }

    pub fn modules(&self) -> &'m [Module]
        ensures { result.now ≡ self.now }
    {
        self.modules
    }

    /// The place of the module that counts at an address: of the modules that contain it, the one
    /// with the greatest start, and the last one of these.
    #[tactic(auto, using(crate::proofs::ModuleLemmas::at_within))]
    pub fn at(&self, a: u64) -> Option<usize>
        ensures exact { result ≡ module_at self.now a }
        ensures within { IfSome result (λ place. place < length self.now) }
    {
        match self.tops.at(None, a) {
            None => None,
            Some(item) => Some(item.index as usize),
        }
    }
}
