//! A store in memory.
ghost use Rattle.std.specs.Prelude.{◌≡◌, ◌==◌, ◌+◌, ℕ, ◌≤◌, ◌<◌, ◌^◌, Some, List, [], ◌∷◌, ◌++◌, true, false, length, take, drop, position, IfOk, OnOk, OnErr, MatchResult, nat_lt};
ghost use Rattle.std.specs.Str.{bytes_eq};
ghost use Rattle.sym_edges.specs.Outside.{Opens, Reads, MatchStop, OnFault, OnNoMemory, Rose};
ghost use Rattle.sym_edges.specs.Memory.{next_call, is_failing, files_of, place_of, left_of, opening_fails, after_opening, read_count, after_failed_read, after_read};

use crate::fault::{Failed, Stop};
use crate::list::{CallList, ListOf};
use crate::name::{NameText, NamedFile};
use crate::store::Store;
use std::alloc::Global;
use std::marker::Model;

/// Files by name; if several have the same name, the first counts.
pub type FileList = ListOf<NamedFile>;

/// A store in memory; contracts see all of it.
///
/// Openings and reads are numbered together from 1. A call fails exactly if its number is in `fail`, or if it opens a name that the files lack. A
/// read moves at most `step` bytes.
#[derive(Debug, Drop)]
pub struct MemStore {
    alloc: Global,
    files: FileList,
    step: usize,
    fail: CallList,
    calls: u64,
    asked: Vec<NameText>,
    chosen: Option<usize>,
    place: usize,
    faults: u64,
}

impl Model for MemStore {
    ghost use Rattle.std.specs.Prelude.{◌<◌};
    ghost use Rattle.sym_edges.specs.Memory.{MemFiles, left_of};

    ghost Value = { MemFiles };

    ghost view = { λ s. record {
      files = s.files;
      step = s.step;
      fail = s.fail;
      calls = s.calls;
      asked = s.asked.items;
      left = left_of s.files s.chosen s.place;
      faults = s.faults;
    } };

    ghost invariant = { λ s. 0 < s.step };
}

impl MemStore {
    #[tactic(auto, unfolding(crate::specs::Memory::left_of))]
    pub fn new(alloc: Global, files: FileList, step: usize, fail: CallList) -> MemStore
        requires { 0 < step }
        ensures made { result ≡ record { files = files; step = step; fail = fail; calls = 0; asked = []; left = []; faults = 0 } }
    {
        MemStore {
            alloc,
            files,
            step,
            fail,
            calls: 0,
            asked: Vec::new(alloc),
            chosen: None,
            place: 0,
            faults: 0,
        }
    }
}

/// Whether the call with this number is to fail.
#[tactic(auto, unfolding(crate::specs::Memory::is_failing))]
pub(crate) fn fails(fail: &CallList, call: u64) -> bool
    ensures { result ≡ is_failing fail.now call }
{
    fail.as_slice().iter().any(|n| *n == call)
}

#[tactic(auto, unfolding(crate::specs::Memory::place_of))]
fn find_file(files: &FileList, name: &str) -> Option<usize>
    ensures { result ≡ place_of files.now name.now }
{
    files
        .as_slice()
        .iter()
        .position(|file| file.name.as_str().as_bytes() == name.as_bytes())
}

#[tactic(auto, unfolding(crate::specs::Memory::left_of, crate::specs::Memory::bytes_at))]
fn open_bytes(files: &FileList, chosen: Option<usize>, place: usize) -> &[u8]
    ensures left { result.now ≡ left_of files.now chosen place }
    ensures within { place + length result.now < 2 ^ 64 }
{
    match chosen {
        None => &[],
        Some(i) => match files.get(i) {
            None => &[],
            Some(file) => {
                let bytes = file.bytes.as_slice();
                if place <= bytes.len() {
                    bytes.split_at(place).1
                } else {
                    &[]
                }
            }
        },
    }
}

impl Store for MemStore {
    ghost use Rattle.std.specs.Prelude.{Some};
    ghost use Rattle.sym_edges.specs.Memory.{files_of};

    ghost asked = { λ s. s.asked };

    ghost files = { λ s. Some (files_of s.files) };

    ghost left = { λ s. Some s.left };

    ghost faults = { λ s. s.faults };

    #[tactic(auto, unfolding(crate::specs::Memory::left_of, crate::specs::Memory::files_of, crate::specs::Memory::opening_fails, crate::specs::Memory::after_opening))]
    fn open_file(&mut self, name: &str) -> Result<(), Stop<Failed>>
        ensures asked { MatchStop result
            (λ _. self.new.asked ≡ self.old.asked ++ name.now ∷ [])
            (λ _. self.new.asked ≡ self.old.asked ++ name.now ∷ [])
            (self.new.asked ≡ self.old.asked) }
        ensures files { Some (files_of self.new.files) ≡ Some (files_of self.old.files) }
        ensures opened { OnOk result (Opens (Some (files_of self.old.files)) name.now (Some self.new.left)) }
        ensures left { OnErr result (Some self.new.left ≡ Some self.old.left) }
        ensures faults { self.old.faults ≤ self.new.faults }
        ensures steady { OnOk result (self.new.faults ≡ self.old.faults) }
        ensures cause { OnFault result (Rose self.old.faults self.new.faults) }
        ensures no_memory { OnNoMemory result (self.new.faults ≡ self.old.faults) }
        ensures exact { MatchStop result
            (λ _. (opening_fails self.old name.now ≡ false) × (self.new ≡ after_opening self.old name.now))
            (λ _. (opening_fails self.old name.now ≡ true) × (self.new ≡ after_opening self.old name.now))
            (self.new ≡ self.old) }
    {
        let asked = NameText::of(String::from_str(self.alloc, name)?);
        self.asked.push(asked)?;
        self.calls = self.calls.saturating_add(1);
        if fails(&self.fail, self.calls) {
            self.faults = self.faults.saturating_add(1);
            return Err(Stop::Fault(Failed));
        }
        match find_file(&self.files, name) {
            None => {
                self.faults = self.faults.saturating_add(1);
                Err(Stop::Fault(Failed))
            }
            Some(i) => {
                self.chosen = Some(i);
                self.place = 0;
                Ok(())
            }
        }
    }

    #[tactic(auto, using(crate::proofs::MemoryLemmas::left_more, crate::proofs::MemoryLemmas::reads_front), unfolding(crate::specs::Memory::read_count, crate::specs::Memory::after_read, crate::specs::Memory::after_failed_read))]
    fn read(&mut self, buf: &mut [u8]) -> Result<usize, Failed>
        ensures within { IfOk result (λ n. n ≤ length buf.old) }
        ensures taken { IfOk result (λ n. Reads (Some self.old.left) n (length buf.old) (take n buf.new) (Some self.new.left)) }
        ensures left { OnErr result (Some self.new.left ≡ Some self.old.left) }
        ensures asked { self.new.asked ≡ self.old.asked }
        ensures files { Some (files_of self.new.files) ≡ Some (files_of self.old.files) }
        ensures faults { self.old.faults ≤ self.new.faults }
        ensures steady { OnOk result (self.new.faults ≡ self.old.faults) }
        ensures cause { OnErr result (Rose self.old.faults self.new.faults) }
        ensures exact { MatchResult result
            (λ n. (is_failing self.old.fail (next_call self.old.calls) ≡ false)
            × (n ≡ read_count self.old (length buf.old)) × (self.new ≡ after_read self.old (length buf.old)))
            (λ _. (is_failing self.old.fail (next_call self.old.calls) ≡ true) × (self.new ≡ after_failed_read self.old)) }
    {
        self.calls = self.calls.saturating_add(1);
        if fails(&self.fail, self.calls) {
            self.faults = self.faults.saturating_add(1);
            return Err(Failed);
        }
        let left = open_bytes(&self.files, self.chosen, self.place);
        let count = self.step.min(buf.len().min(left.len()));
        buf[..count].copy_from_slice(&left[..count]);
        self.place += count;
        Ok(count)
    }
}
