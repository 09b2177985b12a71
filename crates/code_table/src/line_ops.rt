//! The standard opcodes of line number programs (DWARF 5, table 7.25), by the standard's names.
use crate::code_row::CodeRow;
use crate::kind::{Kind, Shape};
use crate::table::Table;

pub const DW_LNS_copy: u64 = 0x01;

pub const DW_LNS_advance_pc: u64 = 0x02;

pub const DW_LNS_advance_line: u64 = 0x03;

pub const DW_LNS_set_file: u64 = 0x04;

pub const DW_LNS_set_column: u64 = 0x05;

pub const DW_LNS_negate_stmt: u64 = 0x06;

pub const DW_LNS_set_basic_block: u64 = 0x07;

pub const DW_LNS_const_add_pc: u64 = 0x08;

pub const DW_LNS_fixed_advance_pc: u64 = 0x09;

pub const DW_LNS_set_prologue_end: u64 = 0x0a;

pub const DW_LNS_set_epilogue_begin: u64 = 0x0b;

pub const DW_LNS_set_isa: u64 = 0x0c;

macro_rules! rows {
    ($($code:ident: $operand:ident;)*) => {
        [$(CodeRow {
            code: $code,
            shape: Shape { first: Kind::$operand, second: Kind::Nothing },
        }),*]
    };
}

/// The opcodes whose operands the standard defines; each has at most one.
pub const LINE_OPS: Table<12> = Table {
    rows: rows! {
        DW_LNS_copy: Nothing;
        DW_LNS_advance_pc: Uleb;
        DW_LNS_advance_line: Sleb;
        DW_LNS_set_file: Uleb;
        DW_LNS_set_column: Uleb;
        DW_LNS_negate_stmt: Nothing;
        DW_LNS_set_basic_block: Nothing;
        DW_LNS_const_add_pc: Nothing;
        DW_LNS_fixed_advance_pc: U16;
        DW_LNS_set_prologue_end: Nothing;
        DW_LNS_set_epilogue_begin: Nothing;
        DW_LNS_set_isa: Uleb;
    },
};
