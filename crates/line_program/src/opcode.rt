//! The opcodes of a line number program (DWARF 5, 6.2.5), with the standard's names.
use crate::file_entry::FileEntry;

/// One opcode with its operands.
#[derive(Drop)]
pub enum Opcode<'a> {
    /// A special opcode, minus opcode_base.
    Special { adjusted: u8 },
    Copy,
    AdvancePc { by: u64 },
    AdvanceLine { by: i64 },
    SetFile { file: u64 },
    SetColumn { column: u64 },
    NegateStmt,
    SetBasicBlock,
    ConstAddPc,
    FixedAdvancePc { by: u16 },
    SetPrologueEnd,
    SetEpilogueBegin,
    SetIsa { isa: u64 },

    /// An unknown standard opcode; its operands are skipped.
    UnknownStandard,
    EndSequence,
    SetAddress { address: u64 },
    DefineFile(FileEntry<'a>),

    /// `DW_LNE_set_discriminator`, or an unknown extended opcode; its bytes are skipped.
    OtherExtended,
}
