//! Registers by their DWARF numbers.

/// The known values of registers. Those of rax, rdx, rcx, rbx, rsi, rdi, rbp, rsp and r8 to r15 are
/// in the order of their DWARF numbers.
#[derive(Clone, Copy, Debug, PartialEq, Eq)]
pub struct Regs {
    pub values: [Option<u64>; 16],
    pub rip: Option<u64>,
}
