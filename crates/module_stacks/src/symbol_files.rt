//! The symbol files that were asked for.
ghost use Rattle.std.specs.Prelude.{◌≡◌, ℕ, ◌≤◌, List, Option, Some, None, IsSome, is_some, true, IfOk, OnOk};
ghost use Rattle.std.specs.Option.{option_copied};
ghost use Rattle.sym_lookup.specs.IndexOf.{IsIndexOf};
ghost use Rattle.sym_edges.specs.Outside.{Files};
ghost use Rattle.module_stacks.specs.SymbolFiles.{Found, IsFound, seen_in, AsksNew, AsksFresh, Learns};

use stack_walk::Records;
use std::alloc::Global;
use std::collections::BTreeMap;
use std::marker::Model;
use sym_edges::{FILE_LIMIT, OutOfMemory, Stop, Store};
use sym_grammar::{SymEnd, SymRefusal, read_file};
use sym_lookup::Index;
use sym_records::SymFile;

/// The records of a symbol file, with their index. A contract sees the records.
#[derive(Drop)]
pub struct Table {
    file: SymFile,
    index: Index,
}

impl Model for Table {
    ghost use Rattle.std.specs.Prelude.{List};
    ghost use Rattle.sym_records.specs.declared.line.SymLine.{SymLine};
    ghost use Rattle.sym_lookup.specs.IndexOf.{IsIndexOf};

    ghost Value = { List SymLine };

    ghost view = { λ t. t.file };

    ghost invariant = { λ t. IsIndexOf t.file t.index };
}

impl Table {
    /// The records of a file, with their index. A file of 2^32 records is longer than a file may
    /// be.
    fn of(alloc: Global, file: SymFile) -> Result<Table, OutOfMemory>
        ensures { IfOk result (λ table. table ≡ file) }
    {
        if file.len() > 0xffff_ffff {
            return Err(OutOfMemory);
        }
        let index = Index::of(alloc, &file)?;
        Ok(Table { file, index })
    }

    /// The records, given the address of the process from which their addresses count.
    pub fn records(&self, base: u64) -> Records<'_>
        ensures { result ≡ record { base = base; lines = self.now } }
    {
        Records::of(base, &self.file, &self.index)
    }

    pub fn file(&self) -> &SymFile
        ensures { result.now ≡ self.now }
    {
        &self.file
    }
}

/// What is found under a name that was asked for: nothing that can be read, a symbol file, or why the symbol file is refused.
pub type FoundFile = Option<Result<Table, SymRefusal>>;

/// What was found under each name that was asked for.
#[derive(Drop)]
pub struct SymbolFiles {
    files: BTreeMap<Vec<u8>, FoundFile>,
}

impl Model for SymbolFiles {
    ghost use Rattle.std.specs.Prelude.{List, ℕ};
    ghost use Rattle.module_stacks.specs.SymbolFiles.{Found};
    ghost use Rattle.module_stacks.specs.internal.FileTable.{names_of};

    ghost Value = { List (List ℕ × Found) };

    ghost view = { λ s. names_of s.files };
}

/// What is found under a name. The store is asked for it.
fn find_file<S: Store>(alloc: Global, store: &mut S, name: &str) -> Result<FoundFile, OutOfMemory>
    ensures asked { AsksNew result (S.asked store.old) name.now (S.asked store.new) }
    ensures files { S.files store.new ≡ S.files store.old }
    ensures faults { S.faults store.old ≤ S.faults store.new }
    ensures found { IfOk result (λ found. IsFound found (S.files store.old) name.now (S.faults store.old) (S.faults store.new)) }
{
    match read_file(alloc, store, name, FILE_LIMIT) {
        Ok(file) => Ok(Some(Ok(Table::of(alloc, file)?))),
        Err(Stop::Fault(SymEnd::Refused(why))) => Ok(Some(Err(why))),
        Err(Stop::Fault(SymEnd::Unread)) => Ok(None),
        Err(Stop::NoMemory) => Err(OutOfMemory),
    }
}

impl SymbolFiles {
    /// No name was asked for yet.
    pub fn new(alloc: Global) -> SymbolFiles
        ensures { (name : List ℕ) → seen_in result name ≡ None }
    {
        SymbolFiles {
            files: BTreeMap::new(alloc),
        }
    }

    /// What was found under a name, if it was asked for.
    #[tactic(auto, using(crate::proofs::FileLemmas::seen_is))]
    pub fn found(&self, name: &str) -> Option<&FoundFile>
        ensures { option_copied result ≡ seen_in self.now name.now }
    {
        self.files.get(name.as_bytes())
    }

    /// Asks the store for a name, unless it was asked for before.
    pub fn ask<S: Store>(
        &mut self,
        alloc: Global,
        store: &mut S,
        name: &str,
    ) -> Result<(), OutOfMemory>
        ensures asks { AsksFresh (λ asked_for. asked_for ≡ name.now) (seen_in self.old) (S.asked store.old) (S.asked store.new) }
        ensures files { S.files store.new ≡ S.files store.old }
        ensures faults { S.faults store.old ≤ S.faults store.new }
        ensures there { OnOk result (is_some (seen_in self.new name.now) ≡ true) }
        ensures learns { OnOk result (Learns (λ asked_for. asked_for ≡ name.now) (S.files store.old) (S.asked store.old) (S.asked store.new) (S.faults store.old) (S.faults store.new) (seen_in self.old) (seen_in self.new)) }
    {
        if self.found(name).is_some() {
            return Ok(());
        }
        let found = find_file(alloc, store, name)?;
        let owned = Vec::from_slice(alloc, name.as_bytes())?;
        self.files.insert(owned, found)?;
        Ok(())
    }
}
