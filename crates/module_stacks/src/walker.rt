//! The stacks of a process's threads.
ghost use Rattle.std.specs.Prelude.{◌≡◌, ℕ, ◌<◌, ◌≤◌, List, Option, Some, None, Ok, Err, MatchResult, is_some, true, length, map, slice_get, IfSome, IfOk, OnOk};
ghost use Rattle.std.specs.Option.{option_copied, option_map, option_and_then};
ghost use Rattle.sym_edges.specs.Outside.{Files};
ghost use Rattle.core_file.specs.Code.{is_code};
ghost use Rattle.stack_walk.specs.Walk.{step_at, walk_from};
ghost use Rattle.module_stacks.specs.ModuleAt.{module_at};
ghost use Rattle.module_stacks.specs.SymbolFiles.{Agrees, Learns, AsksFresh, seen_in};
ghost use Rattle.module_stacks.specs.Symbols.{name_of, is_of, by_found, symbols_of, records_at};
ghost use Rattle.module_stacks.specs.Stacks.{regs_of, process_by, process_of, stack_of};
ghost use Rattle.module_stacks.specs.Walking.{known_found, IsAsked, AreAsked, IsPathOf};

use crate::core_memory::CoreMemory;
use crate::lack::Lack;
use crate::module_map::ModuleMap;
use crate::names::{SymbolName, names_of};
use crate::symbol_files::{SymbolFiles, Table};
use cfi_eval::Regs;
use core_file::{Core, Registers, Thread};
use stack_walk::{
    Known, Place, Records, Walk, WalkEnd, WalkStep, WalkSteps, first_place, place_after, take_step,
};
use std::alloc::Global;
use std::marker::Model;
use sym_edges::{OutOfMemory, Store};
use sym_records::{SymFile, SymLine};

/// How many steps a stack has at most.
const MOST_STEPS: usize = 1 << 20;

/// A process: its core file, the folder with the symbol files of its modules, and what was found of
/// the symbol files that were asked for.
#[derive(Drop)]
pub struct StackWalker<'c> {
    core: &'c Core<'c>,
    folder: &'c str,
    modules: ModuleMap<'c>,
    names: Vec<Option<SymbolName>>,
    files: SymbolFiles,
}

impl<'c> Model for StackWalker<'c> {
    ghost use Rattle.std.specs.Prelude.{◌≡◌, map};
    ghost use Rattle.module_stacks.specs.Symbols.{name_of};
    ghost use Rattle.module_stacks.specs.Walking.{Walking};

    ghost Value = { Walking };

    ghost view = { λ s. record { core = s.core.now; folder = s.folder.now; known = s.files } };

    ghost invariant = { λ s. (s.modules ≡ s.core.now.modules) × (s.names.items ≡ map (name_of s.folder.now) s.core.now.modules) };
}

/// The registers of a thread by their DWARF numbers.
fn regs_of(registers: &Registers) -> Regs
    ensures { result ≡ regs_of registers.now }
{
    let r = registers;
    Regs {
        values: [
            Some(r.rax),
            Some(r.rdx),
            Some(r.rcx),
            Some(r.rbx),
            Some(r.rsi),
            Some(r.rdi),
            Some(r.rbp),
            Some(r.rsp),
            Some(r.r8),
            Some(r.r9),
            Some(r.r10),
            Some(r.r11),
            Some(r.r12),
            Some(r.r13),
            Some(r.r14),
            Some(r.r15),
        ],
        rip: Some(r.rip),
    }
}

/// Whether the first record is a MODULE with this id.
fn is_of(id: &[u8], lines: &[SymLine]) -> bool
    ensures { result ≡ is_of id.now lines.now }
{
    match lines.first() {
        Some(SymLine::Module { binary }) => binary.parts().id.as_slice() == id,
        _ => false,
    }
}

impl<'c> StackWalker<'c> {
    /// A process whose symbol files were not asked for yet.
    pub fn new(
        alloc: Global,
        core: &'c Core<'c>,
        folder: &'c str,
    ) -> Result<StackWalker<'c>, OutOfMemory>
        ensures parts { IfOk result (λ w. (w.core ≡ core.now) × (w.folder ≡ folder.now)) }
        ensures none { IfOk result (λ w. (name : List ℕ) → seen_in w.known name ≡ None) }
    {
        let modules = ModuleMap::of(alloc, core.modules())?;
        let names = names_of(alloc, folder, core.modules())?;
        Ok(StackWalker {
            core,
            folder,
            modules,
            names,
            files: SymbolFiles::new(alloc),
        })
    }

    /// The core file.
    pub fn core(&self) -> &'c Core<'c>
        ensures { result.now ≡ self.now.core }
    {
        self.core
    }

    /// The place of the module that counts at an address.
    pub fn module_at(&self, a: u64) -> Option<usize>
        ensures exact { result ≡ module_at self.now.core.modules a }
        ensures within { IfSome result (λ place. place < length self.now.core.modules) }
    {
        self.modules.at(a)
    }

    /// The name of a module's symbol file.
    #[tactic(auto, using(crate::proofs::WalkerLemmas::name_there))]
    fn name_of(&self, place: usize) -> Option<&SymbolName>
        requires { place < length self.now.core.modules }
        ensures { option_copied result ≡ option_and_then (name_of self.now.folder) (slice_get self.now.core.modules place) }
    {
        match &self.names[place] {
            None => None,
            Some(name) => Some(name),
        }
    }

    /// The id that the MODULE of a module's symbol file must have, if the module has a build id.
    pub fn id_of(&self, place: usize) -> Option<&[u8]>
        requires { place < length self.now.core.modules }
        ensures { IfSome (slice_get self.now.core.modules place) (λ m. option_copied result ≡ option_map (λ name. name.id) (name_of self.now.folder m)) }
    {
        match self.name_of(place) {
            None => None,
            Some(name) => Some(name.id.as_slice()),
        }
    }

    /// Asks for the symbol file of the module that counts at an address, unless it was asked for before.
    fn ask_at<S: Store>(&mut self, alloc: Global, store: &mut S, a: u64) -> Result<(), OutOfMemory>
        ensures same { (self.new.core ≡ self.old.core) × (self.new.folder ≡ self.old.folder) }
        ensures asks { AsksFresh (IsPathOf self.old) (seen_in self.old.known) (S.asked store.old) (S.asked store.new) }
        ensures files { S.files store.new ≡ S.files store.old }
        ensures faults { S.faults store.old ≤ S.faults store.new }
        ensures there { OnOk result (IsAsked self.new a) }
        ensures learns { OnOk result (Learns (IsPathOf self.old) (S.files store.old) (S.asked store.old) (S.asked store.new) (S.faults store.old) (S.faults store.new) (seen_in self.old.known) (seen_in self.new.known)) }
    {
        let Some(place) = self.modules.at(a) else {
            return Ok(());
        };
        let Some(name) = &self.names[place] else {
            return Ok(());
        };
        let Some(path) = &name.path else {
            return Ok(());
        };
        self.files.ask(alloc, store, path.as_str())
    }

    /// The records under a path, if they have this id.
    #[tactic(auto, using(crate::proofs::WalkerLemmas::known_is))]
    fn find(&self, id: &[u8], path: &str) -> Result<&Table, Lack>
        ensures { MatchResult result
            (λ table. by_found id.now (known_found self.now.known path.now) ≡ Ok table.now)
            (λ lack. by_found id.now (known_found self.now.known path.now) ≡ Err lack) }
    {
        match self.files.found(path) {
            Some(Some(Ok(table))) => {
                if is_of(id, table.file().as_slice()) {
                    return Ok(table);
                }
                Err(Lack::OtherModule)
            }
            Some(Some(Err(why))) => Err(Lack::Refused(*why)),
            _ => Err(Lack::Missing),
        }
    }

    /// The symbols of a module, given what was found.
    #[tactic(auto, unfolding(crate::specs::Symbols::symbols_of))]
    pub fn symbols(&self, place: usize) -> Result<&Table, Lack>
        requires { place < length self.now.core.modules }
        ensures { IfSome (slice_get self.now.core.modules place) (λ m. MatchResult result
            (λ table. symbols_of (known_found self.now.known) self.now.folder m ≡ Ok table.now)
            (λ lack. symbols_of (known_found self.now.known) self.now.folder m ≡ Err lack)) }
    {
        let Some(name) = self.name_of(place) else {
            return Err(Lack::NoBuildId);
        };
        let Some(path) = &name.path else {
            return Err(Lack::Missing);
        };
        self.find(name.id.as_slice(), path.as_str())
    }

    /// The records at an address of the process, given what was found.
    #[tactic(auto, unfolding(crate::specs::Symbols::records_at))]
    pub fn records_at(&self, a: u64) -> Result<Records<'_>, WalkEnd>
        ensures { result ≡ records_at (known_found self.now.known) self.now.folder self.now.core.modules a }
    {
        let Some(place) = self.modules.at(a) else {
            return Err(WalkEnd::NoModule);
        };
        match self.symbols(place) {
            Ok(table) => Ok(table.records(self.core.modules()[place].base)),
            Err(_) => Err(WalkEnd::NoSymbols),
        }
    }

    /// The step at a place, given what was found.
    #[tactic(auto, using(crate::proofs::WalkerLemmas::step_by_known))]
    fn step_at(&self, alloc: Global, here: &Place) -> Result<WalkStep, OutOfMemory>
        ensures { IfOk result (λ step. step ≡ step_at (process_by (known_found self.now.known) self.now.folder self.now.core) here.now) }
    {
        let known = Known {
            records: self.records_at(here.at),
            is_code: self.core.is_code(here.at),
        };
        take_step(alloc, &known, &CoreMemory::of(self.core), true, here)
    }

    /// At most this many steps, from a place on.
    fn walk_from<S: Store>(
        &mut self,
        alloc: Global,
        store: &mut S,
        most: usize,
        first: &Place,
    ) -> Result<Walk, OutOfMemory>
        ensures same { (self.new.core ≡ self.old.core) × (self.new.folder ≡ self.old.folder) }
        ensures asks { AsksFresh (IsPathOf self.old) (seen_in self.old.known) (S.asked store.old) (S.asked store.new) }
        ensures files { S.files store.new ≡ S.files store.old }
        ensures faults { S.faults store.old ≤ S.faults store.new }
        ensures learns { OnOk result (Learns (IsPathOf self.old) (S.files store.old) (S.asked store.old) (S.asked store.new) (S.faults store.old) (S.faults store.new) (seen_in self.old.known) (seen_in self.new.known)) }
        ensures steps { IfOk result (λ walk. AreAsked self.new walk.steps) }
        ensures walk { IfOk result (λ walk. (got : Files) → Agrees got (seen_in self.new.known) → walk ≡ walk_from (process_of got self.old.folder self.old.core) most first.now) }
    {
        let mut steps = Vec::new(alloc);
        let mut here = *first;
        'steps: for turn in 0..most {
            self.ask_at(alloc, store, here.at)?;
            let step = self.step_at(alloc, &here)?;
            let next = place_after(&here, &step);
            steps.push(step)?;
            match next {
                Ok(place) => here = place,
                Err(end) => {
                    return Ok(Walk {
                        steps: WalkSteps::of(steps),
                        end,
                    });
                }
            }
        }
        Ok(Walk {
            steps: WalkSteps::of(steps),
            end: WalkEnd::Limit,
        })
    }

    /// The stack of a thread, the innermost step first. The symbol file of a module is asked for when a step first lies in the module.
    #[tactic(auto, unfolding(crate::specs::Stacks::stack_of))]
    pub fn walk<S: Store>(
        &mut self,
        alloc: Global,
        store: &mut S,
        thread: &Thread,
    ) -> Result<Walk, OutOfMemory>
        ensures same { (self.new.core ≡ self.old.core) × (self.new.folder ≡ self.old.folder) }
        ensures asks { AsksFresh (IsPathOf self.old) (seen_in self.old.known) (S.asked store.old) (S.asked store.new) }
        ensures files { S.files store.new ≡ S.files store.old }
        ensures faults { S.faults store.old ≤ S.faults store.new }
        ensures learns { OnOk result (Learns (IsPathOf self.old) (S.files store.old) (S.asked store.old) (S.asked store.new) (S.faults store.old) (S.faults store.new) (seen_in self.old.known) (seen_in self.new.known)) }
        ensures steps { IfOk result (λ walk. AreAsked self.new walk.steps) }
        ensures walk { IfOk result (λ walk. (got : Files) → Agrees got (seen_in self.new.known) → walk ≡ stack_of got self.old.folder self.old.core thread.now) }
    {
        let first = first_place(&regs_of(&thread.registers), thread.registers.rip);
        self.walk_from(alloc, store, MOST_STEPS, &first)
    }
}
