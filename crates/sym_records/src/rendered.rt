//! The spelling of a record or of rules as a text in memory.
ghost use Rattle.std.specs.Prelude.{◌≡◌, IfOk};
ghost use Rattle.sym_rules.specs.Rules.{spelled_rules};
ghost use Rattle.sym_records.specs.Canon.{canon};

use crate::byte_sink::ByteSink;
use crate::line::SymLine;
use crate::line_speller::put_record;
use std::alloc::Global;
use sym_edges::{Failed, OutOfMemory};
use sym_rules::{ByteText, RuleText, Waiting, hand_on, put_rules};

/// The record's canonical spelling, with LF.
pub fn render(alloc: Global, line: &SymLine) -> Result<ByteText, OutOfMemory>
    ensures { IfOk result (λ t. t ≡ canon line.now) }
{
    let mut sink = ByteSink::new(alloc);
    let mut waiting = Waiting::<64>::new();
    match put_record(&mut sink, &mut waiting, line) {
        Ok(()) => sink.into_text(&mut waiting),
        Err(Failed) => Err(OutOfMemory),
    }
}

/// Rules, with one space before each word.
pub fn spell_rules(alloc: Global, rules: &[RuleText]) -> Result<ByteText, OutOfMemory>
    ensures { IfOk result (λ t. t ≡ spelled_rules rules.now) }
{
    let mut sink = ByteSink::new(alloc);
    let mut waiting = Waiting::<64>::new();
    match put_rules(&mut sink, &mut waiting, rules) {
        Ok(()) => sink.into_text(&mut waiting),
        Err(Failed) => Err(OutOfMemory),
    }
}
