//! The state that a file gives.
ghost use Rattle.std.specs.Prelude.{◌≡◌, Ok, Err, IfOk, OnOk};
ghost use Rattle.sym_edges.specs.Outside.{MatchStop};
ghost use Rattle.state_file.specs.StateText.{no_registers, with_line, numbered, line_read, state_of};
ghost use Rattle.state_file.specs.internal.Parts.{state, HasRegister, Gives};

use crate::cuts::cut_line;
use crate::fault::{StateFault, StateKind};
use crate::line::{StateLine, read_line};
use crate::registers::give_value;
use cfi_eval::{MemRun, Memory, Regs};
use std::alloc::Global;
use sym_edges::{OutOfMemory, Stop};

/// Registers and memory.
#[derive(Drop)]
pub struct State {
    pub regs: Regs,
    pub memory: Memory,
}

/// No register has a value.
fn no_registers() -> Regs
    ensures { result ≡ no_registers }
{
    Regs {
        values: [None; 16],
        rip: None,
    }
}

/// Adds what a line says to the registers and the memory.
fn take_line(line: StateLine, regs: &mut Regs, runs: &mut Vec<MemRun>) -> Result<(), OutOfMemory>
    requires { HasRegister line }
    ensures { OnOk result (state regs.new runs.new.items ≡ with_line line (state regs.old runs.old.items)) }
{
    match line {
        StateLine::Blank => Ok(()),
        StateLine::Register { register, value } => {
            give_value(regs, register, value);
            Ok(())
        }
        StateLine::Run(run) => {
            runs.push(run)?;
            Ok(())
        }
    }
}

/// What a line says, or its first fault with the number of the line.
fn read_numbered(alloc: Global, line: &[u8], number: u64) -> Result<StateLine, Stop<StateFault>>
    ensures line { Gives result (numbered number (line_read line.now)) }
    ensures register { IfOk result (λ line. HasRegister line) }
{
    match read_line(alloc, line) {
        Ok(line) => Ok(line),
        Err(Stop::Fault(kind)) => Err(Stop::Fault(StateFault { kind, line: number })),
        Err(Stop::NoMemory) => Err(Stop::NoMemory),
    }
}

/// The state that the bytes of a state file give, or its first fault. Faults are looked for line by line, and in each line in this order: the first
/// word, the number of fields, the fields from left to right, and whether a run's last byte is above 2^64 - 1. The runs of memory are in the order of
/// their lines.
#[tactic(auto, unfolding(crate::specs::StateText::state_of))]
pub fn read_state(alloc: Global, bytes: &[u8]) -> Result<State, Stop<StateFault>>
    ensures { MatchStop result (λ state. state_of bytes.now ≡ Ok state) (λ fault. state_of bytes.now ≡ Err fault) (Unit {0}) }
{
    let mut regs = no_registers();
    let mut runs = Vec::new(alloc);
    let mut rest = Some(bytes);
    let mut number: u64 = 0;
    'lines: while let Some(text) = rest {
        let (line, behind) = cut_line(text);
        number = number.saturating_add(1);
        let said = read_numbered(alloc, line, number)?;
        take_line(said, &mut regs, &mut runs)?;
        rest = behind;
    }
    let memory = Memory::of(alloc, runs)?;
    Ok(State { regs, memory })
}
