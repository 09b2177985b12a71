//! The records of a module.
ghost use Rattle.std.specs.Prelude.{◌≡◌, ◌++◌, Some, None, IfOk, OnOk};
ghost use Rattle.sym_lookup.specs.AnswerTexts.{answer_text};
ghost use Rattle.sym_lookup.specs.IndexOf.{IsIndexOf};
ghost use Rattle.stack_walk.specs.Records.{rules_in, answer_in};

use cfi_eval::RulesAt;
use std::alloc::Global;
use std::marker::Model;
use sym_edges::OutOfMemory;
use sym_lookup::{Answer, Index, SharedText};
use sym_records::SymFile;

/// The records of a module, with their index, and the address of the process from which their addresses count.
#[derive(Drop)]
pub struct Records<'k> {
    base: u64,
    file: &'k SymFile,
    index: &'k Index,
}

impl<'k> Model for Records<'k> {
    ghost use Rattle.sym_lookup.specs.IndexOf.{IsIndexOf};
    ghost use Rattle.stack_walk.specs.Records.{ModuleRecords};

    ghost Value = { ModuleRecords };

    ghost view = { λ r. record { base = r.base; lines = r.file.now } };

    ghost invariant = { λ r. IsIndexOf r.file.now r.index.now };
}

impl<'k> Records<'k> {
    pub fn of(base: u64, file: &'k SymFile, index: &'k Index) -> Records<'k>
        requires { IsIndexOf file.now index.now }
        ensures { result ≡ record { base = base; lines = file.now } }
    {
        Records { base, file, index }
    }

    /// The rules at an address of the process.
    #[tactic(auto, using(crate::proofs::RecordLemmas::no_rules_at))]
    pub(crate) fn rules(&self, a: u64) -> Option<RulesAt<'k>>
        ensures { result ≡ rules_in self.now a }
    {
        if a < self.base {
            return None;
        }
        let at = a - self.base;
        match self.index.init_at(at) {
            None => None,
            Some(init) => Some(RulesAt::of(self.file.as_slice(), init, at)),
        }
    }

    /// Which records name an address of the process.
    pub(crate) fn answer(&self, alloc: Global, a: u64) -> Result<Answer, OutOfMemory>
        ensures { IfOk result (λ found. found ≡ answer_in self.now a) }
    {
        if a < self.base {
            return Ok(Answer::Nothing);
        }
        self.index.answer_at(alloc, self.file, a - self.base)
    }

    /// Adds the text that shows an answer, as `lookup` prints it.
    pub fn add_answer(&self, text: &mut SharedText, answer: &Answer) -> Result<(), OutOfMemory>
        ensures { OnOk result (text.new ≡ text.old ++ answer_text self.now.lines answer.now) }
    {
        self.index.add_answer(text, self.file, answer)
    }
}
