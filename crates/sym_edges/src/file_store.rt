//! A store over the system's files.
ghost use Rattle.std.specs.Prelude.{◌≡◌, ℕ, ◌≤◌, ◌<◌, List, [], None};
ghost use Rattle.sym_edges.specs.Outside.{MatchStop, OnFault, OnNoMemory, Rose};

use crate::fault::{Failed, Stop};
use crate::name::NameText;
use crate::retry::read_retrying;
use crate::store::Store;
use std::alloc::Global;
use std::fs;
use std::rt::Files;

/// The system's files. Contracts see neither their bytes nor what is left. Each error of the system is counted. A read that a signal interrupts is
/// tried again.
#[derive(Drop)]
pub struct FileStore<'a, R: Files> {
    system: &'a R,
    alloc: Global,
    asked: Vec<NameText>,
    opened: Option<R::File>,
    faults: u64,
}

impl<'a, R: Files> FileStore<'a, R> {
    /// A store in which no file is open.
    pub fn new(alloc: Global, system: &'a R) -> FileStore<'a, R>
        ensures asked { ⟦<FileStore<'a, R> as Store>⟧.asked result ≡ [] }
        ensures files { ⟦<FileStore<'a, R> as Store>⟧.files result ≡ None }
        ensures left { ⟦<FileStore<'a, R> as Store>⟧.left result ≡ None }
        ensures faults { ⟦<FileStore<'a, R> as Store>⟧.faults result ≡ 0 }
    {
        FileStore {
            system,
            alloc,
            asked: Vec::new(alloc),
            opened: None,
            faults: 0,
        }
    }
}

impl<R: Files> Store for FileStore<'_, R> {
    ghost asked = { λ s. s.asked.items };

    ghost files = { λ _. None };

    ghost left = { λ _. None };

    ghost faults = { λ s. s.faults };

    fn open_file(&mut self, name: &str) -> Result<(), Stop<Failed>> {
        let asked = NameText::of(String::from_str(self.alloc, name)?);
        self.asked.push(asked)?;
        match fs::open(self.system, name) {
            Ok(file) => {
                self.opened = Some(file);
                Ok(())
            }
            Err(_) => {
                self.faults = self.faults.saturating_add(1);
                Err(Stop::Fault(Failed))
            }
        }
    }

    fn read(&mut self, buf: &mut [u8]) -> Result<usize, Failed> {
        match &mut self.opened {
            None => Ok(0),
            Some(file) => match read_retrying(file, buf) {
                Ok(count) => Ok(count),
                Err(Failed) => {
                    self.faults = self.faults.saturating_add(1);
                    Err(Failed)
                }
            },
        }
    }
}
