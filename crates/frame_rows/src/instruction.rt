//! The call frame instructions (DWARF 5, 6.4.2).

/// Where a block starts in its run of bytes, and how long it is.
#[derive(Clone, Copy, PartialEq, Eq, Debug)]
pub struct Block {
    pub start: usize,
    pub len: usize,
}

/// A call frame instruction. Opcodes that differ only in how an operand is written are one instruction. Columns and registers are DWARF numbers. A
/// factored offset is multiplied by the data alignment factor of the CIE, and a delta by its code alignment factor. A DWARF expression is a block in
/// the run of instructions.
#[derive(Clone, Copy, PartialEq, Eq, Debug)]
pub enum Instruction {
    SetLoc { address: u64 },
    AdvanceLoc { delta: u64 },
    DefCfa { register: u64, offset: u64 },
    DefCfaSf { register: u64, factored: i64 },
    DefCfaRegister { register: u64 },
    DefCfaOffset { offset: u64 },
    DefCfaOffsetSf { factored: i64 },
    DefCfaExpression { block: Block },
    Undefined { column: u64 },
    SameValue { column: u64 },
    Offset { column: u64, factored: u64 },
    OffsetExtendedSf { column: u64, factored: i64 },
    ValOffset { column: u64, factored: u64 },
    ValOffsetSf { column: u64, factored: i64 },
    Register { column: u64, register: u64 },
    Expression { column: u64, block: Block },
    ValExpression { column: u64, block: Block },
    Restore { column: u64 },
    RememberState,
    RestoreState,
    /// `DW_CFA_nop`, and `DW_CFA_GNU_args_size`, which says nothing about the row.
    Nop,
}
