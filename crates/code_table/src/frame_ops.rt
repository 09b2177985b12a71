//! The opcodes of call frame instructions (DWARF 5, table 7.29), by the standard's names.

use crate::code_row::CodeRow;
use crate::kind::{Kind, Shape};
use crate::table::Table;

// The next three opcodes have an operand in their low six bits.
pub const DW_CFA_advance_loc: u64 = 0x40;

pub const DW_CFA_offset: u64 = 0x80;

pub const DW_CFA_restore: u64 = 0xc0;

pub const DW_CFA_nop: u64 = 0x00;

pub const DW_CFA_set_loc: u64 = 0x01;

pub const DW_CFA_advance_loc1: u64 = 0x02;

pub const DW_CFA_advance_loc2: u64 = 0x03;

pub const DW_CFA_advance_loc4: u64 = 0x04;

pub const DW_CFA_offset_extended: u64 = 0x05;

pub const DW_CFA_restore_extended: u64 = 0x06;

pub const DW_CFA_undefined: u64 = 0x07;

pub const DW_CFA_same_value: u64 = 0x08;

pub const DW_CFA_register: u64 = 0x09;

pub const DW_CFA_remember_state: u64 = 0x0a;

pub const DW_CFA_restore_state: u64 = 0x0b;

pub const DW_CFA_def_cfa: u64 = 0x0c;

pub const DW_CFA_def_cfa_register: u64 = 0x0d;

pub const DW_CFA_def_cfa_offset: u64 = 0x0e;

pub const DW_CFA_def_cfa_expression: u64 = 0x0f;

pub const DW_CFA_expression: u64 = 0x10;

pub const DW_CFA_offset_extended_sf: u64 = 0x11;

pub const DW_CFA_def_cfa_sf: u64 = 0x12;

pub const DW_CFA_def_cfa_offset_sf: u64 = 0x13;

pub const DW_CFA_val_offset: u64 = 0x14;

pub const DW_CFA_val_offset_sf: u64 = 0x15;

pub const DW_CFA_val_expression: u64 = 0x16;

pub const DW_CFA_GNU_args_size: u64 = 0x2e;

/// The rows of the table, passed to the macro `$make`. The operand of `DW_CFA_set_loc` is a pointer, whose layout the augmentation gives, so its row
/// has no operand.
macro_rules! frame_ops {
    ($make:ident) => {
        $make! {
            DW_CFA_nop: Nothing, Nothing;
            DW_CFA_set_loc: Nothing, Nothing;
            DW_CFA_advance_loc1: U8, Nothing;
            DW_CFA_advance_loc2: U16, Nothing;
            DW_CFA_advance_loc4: U32, Nothing;
            DW_CFA_offset_extended: Uleb, Uleb;
            DW_CFA_restore_extended: Uleb, Nothing;
            DW_CFA_undefined: Uleb, Nothing;
            DW_CFA_same_value: Uleb, Nothing;
            DW_CFA_register: Uleb, Uleb;
            DW_CFA_remember_state: Nothing, Nothing;
            DW_CFA_restore_state: Nothing, Nothing;
            DW_CFA_def_cfa: Uleb, Uleb;
            DW_CFA_def_cfa_register: Uleb, Nothing;
            DW_CFA_def_cfa_offset: Uleb, Nothing;
            DW_CFA_def_cfa_expression: BlockUleb, Nothing;
            DW_CFA_expression: Uleb, BlockUleb;
            DW_CFA_offset_extended_sf: Uleb, Sleb;
            DW_CFA_def_cfa_sf: Uleb, Sleb;
            DW_CFA_def_cfa_offset_sf: Sleb, Nothing;
            DW_CFA_val_offset: Uleb, Uleb;
            DW_CFA_val_offset_sf: Uleb, Sleb;
            DW_CFA_val_expression: Uleb, BlockUleb;
            DW_CFA_GNU_args_size: Uleb, Nothing;
        }
    };
}

macro_rules! count {
    ($($code:ident: $first:ident, $second:ident;)*) => {
        [$($code),*].len()
    };
}

macro_rules! rows {
    ($($code:ident: $first:ident, $second:ident;)*) => {
        [$(CodeRow { code: $code, shape: Shape { first: Kind::$first, second: Kind::$second } }),*]
    };
}

const FRAME_OP_COUNT: usize = frame_ops!(count);

/// The instructions whose operands come after the opcode.
pub const FRAME_OPS: Table<FRAME_OP_COUNT> = Table {
    rows: frame_ops!(rows),
};
