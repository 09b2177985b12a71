//! The threads of a core file, by their notes NT_PRSTATUS.
ghost use Rattle.std.specs.Prelude.{◌≡◌, ◌≤◌, length};
ghost use Rattle.core_file.specs.Threads.{registers_of, thread_of};

use crate::byte_list::{read_u16, read_u32, read_u64};
use crate::part::FilePart;

/// The registers of a thread that are read.
#[derive(Clone, Copy, Debug, PartialEq, Eq)]
pub struct Registers {
    pub r15: u64,
    pub r14: u64,
    pub r13: u64,
    pub r12: u64,
    pub rbp: u64,
    pub rbx: u64,
    pub r11: u64,
    pub r10: u64,
    pub r9: u64,
    pub r8: u64,
    pub rax: u64,
    pub rcx: u64,
    pub rdx: u64,
    pub rsi: u64,
    pub rdi: u64,
    pub rip: u64,
    pub rsp: u64,
}

/// A thread: its number, the signal that it had, and its registers.
#[derive(Clone, Copy, Debug, PartialEq, Eq)]
pub struct Thread {
    pub number: u32,
    pub signal: u16,
    pub registers: Registers,
}

/// The registers in the `pr_reg` of a state.
#[tactic(auto, unfolding(crate::specs::Threads::registers_of, crate::specs::Threads::register_at))]
fn read_registers(state: &FilePart<'_>) -> Registers
    requires { 272 ≤ length state.now }
    ensures { result ≡ registers_of state.now }
{
    Registers {
        r15: read_u64(state, 112),
        r14: read_u64(state, 120),
        r13: read_u64(state, 128),
        r12: read_u64(state, 136),
        rbp: read_u64(state, 144),
        rbx: read_u64(state, 152),
        r11: read_u64(state, 160),
        r10: read_u64(state, 168),
        r9: read_u64(state, 176),
        r8: read_u64(state, 184),
        rax: read_u64(state, 192),
        rcx: read_u64(state, 200),
        rdx: read_u64(state, 208),
        rsi: read_u64(state, 216),
        rdi: read_u64(state, 224),
        rip: read_u64(state, 240),
        rsp: read_u64(state, 264),
    }
}

/// A thread, given its state, a `struct elf_prstatus`.
#[tactic(auto, unfolding(crate::specs::Threads::thread_of))]
pub fn read_thread(state: &FilePart<'_>) -> Thread
    requires { 272 ≤ length state.now }
    ensures { result ≡ thread_of state.now }
{
    Thread {
        number: read_u32(state, 32),
        signal: read_u16(state, 12),
        registers: read_registers(state),
    }
}
