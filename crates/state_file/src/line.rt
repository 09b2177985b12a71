//! What the lines of a state file say.
ghost use Rattle.std.specs.Prelude.{◌≡◌, ok_or, Ok, Err, IfOk, MatchResult};
ghost use Rattle.sym_rules.specs.RuleReading.{words};
ghost use Rattle.state_file.specs.StateText.{register_line, memory_line, two_fields, worded_line, line_read};
ghost use Rattle.state_file.specs.internal.Parts.{HasRegister, Gives};

use crate::cuts::{cut_key, two_words};
use crate::fault::StateKind;
use crate::numbers::{bytes_of, hex_value};
use crate::registers::named_register;
use cfi_eval::MemRun;
use std::alloc::Global;
use sym_edges::Stop;
use sym_rules::is_blank;

/// What a line says.
#[derive(Debug, Drop)]
pub(crate) enum StateLine {
    Blank,
    /// The value of one of the sixteen registers, given its number, or of rip.
    Register { register: Option<u8>, value: u64 },
    /// Bytes of memory.
    Run(MemRun),
}

/// `REG name hex`.
#[tactic(auto, unfolding(crate::specs::StateText::register_line))]
fn register_line(name: &[u8], word: &[u8]) -> Result<StateLine, StateKind>
    ensures line { result ≡ register_line name.now word.now }
    ensures register { IfOk result (λ line. HasRegister line) }
{
    match named_register(name) {
        None => Err(StateKind::Register),
        Some(register) => match hex_value(word) {
            None => Err(StateKind::Hex),
            Some(value) => Ok(StateLine::Register { register, value }),
        },
    }
}

/// `MEM hex bytes`.
#[tactic(auto, unfolding(crate::specs::StateText::memory_line))]
fn memory_line(alloc: Global, word: &[u8], digits: &[u8]) -> Result<StateLine, Stop<StateKind>>
    ensures line { Gives result (memory_line word.now digits.now) }
    ensures register { IfOk result (λ line. HasRegister line) }
{
    let start = match hex_value(word) {
        None => return Err(Stop::Fault(StateKind::Hex)),
        Some(start) => start,
    };
    let bytes = bytes_of(alloc, digits)?;
    if (1 << 64) < u128::from(start) + bytes.len() as u128 {
        return Err(Stop::Fault(StateKind::Wraps));
    }
    Ok(StateLine::Run(MemRun { start, bytes }))
}

/// A line, given its first word and the bytes after it.
#[tactic(auto, unfolding(crate::specs::StateText::worded_line))]
fn worded_line(alloc: Global, key: &[u8], fields: &[u8]) -> Result<StateLine, Stop<StateKind>>
    ensures line { Gives result (worded_line key.now (words fields.now)) }
    ensures register { IfOk result (λ line. HasRegister line) }
{
    let is_memory = key == b"MEM".as_slice();
    if !is_memory && key != b"REG".as_slice() {
        return Err(Stop::Fault(StateKind::Keyword));
    }
    match two_words(fields) {
        None => Err(Stop::Fault(StateKind::Fields)),
        Some((first, second)) => {
            if is_memory {
                memory_line(alloc, first, second)
            } else {
                match register_line(first, second) {
                    Ok(line) => Ok(line),
                    Err(kind) => Err(Stop::Fault(kind)),
                }
            }
        }
    }
}

/// What a line says, or its first fault.
#[tactic(auto, unfolding(crate::specs::StateText::line_read))]
pub(crate) fn read_line(alloc: Global, line: &[u8]) -> Result<StateLine, Stop<StateKind>>
    ensures line { Gives result (line_read line.now) }
    ensures register { IfOk result (λ line. HasRegister line) }
{
    if is_blank(line) {
        return Ok(StateLine::Blank);
    }
    let (key, fields) = cut_key(line);
    worded_line(alloc, key, fields)
}
