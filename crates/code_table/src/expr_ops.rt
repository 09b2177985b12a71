//! The opcodes of DWARF expressions that an expression of a frame entry may have (DWARF 5, 2.5 and table 7.9), by the standard's names.
use crate::code_row::CodeRow;
use crate::kind::{Kind, Shape};
use crate::table::Table;

pub const DW_OP_deref: u64 = 0x06;

pub const DW_OP_const1u: u64 = 0x08;

pub const DW_OP_const1s: u64 = 0x09;

pub const DW_OP_const2u: u64 = 0x0a;

pub const DW_OP_const2s: u64 = 0x0b;

pub const DW_OP_const4u: u64 = 0x0c;

pub const DW_OP_const4s: u64 = 0x0d;

pub const DW_OP_const8u: u64 = 0x0e;

pub const DW_OP_const8s: u64 = 0x0f;

pub const DW_OP_constu: u64 = 0x10;

pub const DW_OP_consts: u64 = 0x11;

pub const DW_OP_and: u64 = 0x1a;

pub const DW_OP_minus: u64 = 0x1c;

pub const DW_OP_mul: u64 = 0x1e;

pub const DW_OP_plus: u64 = 0x22;

pub const DW_OP_plus_uconst: u64 = 0x23;

pub const DW_OP_shl: u64 = 0x24;

pub const DW_OP_ge: u64 = 0x2a;

pub const DW_OP_lit0: u64 = 0x30;

pub const DW_OP_lit1: u64 = 0x31;

pub const DW_OP_lit2: u64 = 0x32;

pub const DW_OP_lit3: u64 = 0x33;

pub const DW_OP_lit4: u64 = 0x34;

pub const DW_OP_lit5: u64 = 0x35;

pub const DW_OP_lit6: u64 = 0x36;

pub const DW_OP_lit7: u64 = 0x37;

pub const DW_OP_lit8: u64 = 0x38;

pub const DW_OP_lit9: u64 = 0x39;

pub const DW_OP_lit10: u64 = 0x3a;

pub const DW_OP_lit11: u64 = 0x3b;

pub const DW_OP_lit12: u64 = 0x3c;

pub const DW_OP_lit13: u64 = 0x3d;

pub const DW_OP_lit14: u64 = 0x3e;

pub const DW_OP_lit15: u64 = 0x3f;

pub const DW_OP_lit16: u64 = 0x40;

pub const DW_OP_lit17: u64 = 0x41;

pub const DW_OP_lit18: u64 = 0x42;

pub const DW_OP_lit19: u64 = 0x43;

pub const DW_OP_lit20: u64 = 0x44;

pub const DW_OP_lit21: u64 = 0x45;

pub const DW_OP_lit22: u64 = 0x46;

pub const DW_OP_lit23: u64 = 0x47;

pub const DW_OP_lit24: u64 = 0x48;

pub const DW_OP_lit25: u64 = 0x49;

pub const DW_OP_lit26: u64 = 0x4a;

pub const DW_OP_lit27: u64 = 0x4b;

pub const DW_OP_lit28: u64 = 0x4c;

pub const DW_OP_lit29: u64 = 0x4d;

pub const DW_OP_lit30: u64 = 0x4e;

pub const DW_OP_lit31: u64 = 0x4f;

pub const DW_OP_breg0: u64 = 0x70;

pub const DW_OP_breg1: u64 = 0x71;

pub const DW_OP_breg2: u64 = 0x72;

pub const DW_OP_breg3: u64 = 0x73;

pub const DW_OP_breg4: u64 = 0x74;

pub const DW_OP_breg5: u64 = 0x75;

pub const DW_OP_breg6: u64 = 0x76;

pub const DW_OP_breg7: u64 = 0x77;

pub const DW_OP_breg8: u64 = 0x78;

pub const DW_OP_breg9: u64 = 0x79;

pub const DW_OP_breg10: u64 = 0x7a;

pub const DW_OP_breg11: u64 = 0x7b;

pub const DW_OP_breg12: u64 = 0x7c;

pub const DW_OP_breg13: u64 = 0x7d;

pub const DW_OP_breg14: u64 = 0x7e;

pub const DW_OP_breg15: u64 = 0x7f;

pub const DW_OP_breg16: u64 = 0x80;

pub const DW_OP_breg17: u64 = 0x81;

pub const DW_OP_breg18: u64 = 0x82;

pub const DW_OP_breg19: u64 = 0x83;

pub const DW_OP_breg20: u64 = 0x84;

pub const DW_OP_breg21: u64 = 0x85;

pub const DW_OP_breg22: u64 = 0x86;

pub const DW_OP_breg23: u64 = 0x87;

pub const DW_OP_breg24: u64 = 0x88;

pub const DW_OP_breg25: u64 = 0x89;

pub const DW_OP_breg26: u64 = 0x8a;

pub const DW_OP_breg27: u64 = 0x8b;

pub const DW_OP_breg28: u64 = 0x8c;

pub const DW_OP_breg29: u64 = 0x8d;

pub const DW_OP_breg30: u64 = 0x8e;

pub const DW_OP_breg31: u64 = 0x8f;

macro_rules! rows {
    ($($code:ident: $operand:ident;)*) => {
        [$(CodeRow {
            code: $code,
            shape: Shape { first: Kind::$operand, second: Kind::Nothing },
        }),*]
    };
}

/// Constants, registers with an offset, and the operations on them that frame entries have. Each has at most one operand. A layout says how many
/// bytes a constant has, but not whether it has a sign.
pub const EXPR_OPS: Table<82> = Table {
    rows: rows! {
        DW_OP_deref: Nothing;
        DW_OP_const1u: U8;
        DW_OP_const1s: U8;
        DW_OP_const2u: U16;
        DW_OP_const2s: U16;
        DW_OP_const4u: U32;
        DW_OP_const4s: U32;
        DW_OP_const8u: U64;
        DW_OP_const8s: U64;
        DW_OP_constu: Uleb;
        DW_OP_consts: Sleb;
        DW_OP_and: Nothing;
        DW_OP_minus: Nothing;
        DW_OP_mul: Nothing;
        DW_OP_plus: Nothing;
        DW_OP_plus_uconst: Uleb;
        DW_OP_shl: Nothing;
        DW_OP_ge: Nothing;
        DW_OP_lit0: Nothing;
        DW_OP_lit1: Nothing;
        DW_OP_lit2: Nothing;
        DW_OP_lit3: Nothing;
        DW_OP_lit4: Nothing;
        DW_OP_lit5: Nothing;
        DW_OP_lit6: Nothing;
        DW_OP_lit7: Nothing;
        DW_OP_lit8: Nothing;
        DW_OP_lit9: Nothing;
        DW_OP_lit10: Nothing;
        DW_OP_lit11: Nothing;
        DW_OP_lit12: Nothing;
        DW_OP_lit13: Nothing;
        DW_OP_lit14: Nothing;
        DW_OP_lit15: Nothing;
        DW_OP_lit16: Nothing;
        DW_OP_lit17: Nothing;
        DW_OP_lit18: Nothing;
        DW_OP_lit19: Nothing;
        DW_OP_lit20: Nothing;
        DW_OP_lit21: Nothing;
        DW_OP_lit22: Nothing;
        DW_OP_lit23: Nothing;
        DW_OP_lit24: Nothing;
        DW_OP_lit25: Nothing;
        DW_OP_lit26: Nothing;
        DW_OP_lit27: Nothing;
        DW_OP_lit28: Nothing;
        DW_OP_lit29: Nothing;
        DW_OP_lit30: Nothing;
        DW_OP_lit31: Nothing;
        DW_OP_breg0: Sleb;
        DW_OP_breg1: Sleb;
        DW_OP_breg2: Sleb;
        DW_OP_breg3: Sleb;
        DW_OP_breg4: Sleb;
        DW_OP_breg5: Sleb;
        DW_OP_breg6: Sleb;
        DW_OP_breg7: Sleb;
        DW_OP_breg8: Sleb;
        DW_OP_breg9: Sleb;
        DW_OP_breg10: Sleb;
        DW_OP_breg11: Sleb;
        DW_OP_breg12: Sleb;
        DW_OP_breg13: Sleb;
        DW_OP_breg14: Sleb;
        DW_OP_breg15: Sleb;
        DW_OP_breg16: Sleb;
        DW_OP_breg17: Sleb;
        DW_OP_breg18: Sleb;
        DW_OP_breg19: Sleb;
        DW_OP_breg20: Sleb;
        DW_OP_breg21: Sleb;
        DW_OP_breg22: Sleb;
        DW_OP_breg23: Sleb;
        DW_OP_breg24: Sleb;
        DW_OP_breg25: Sleb;
        DW_OP_breg26: Sleb;
        DW_OP_breg27: Sleb;
        DW_OP_breg28: Sleb;
        DW_OP_breg29: Sleb;
        DW_OP_breg30: Sleb;
        DW_OP_breg31: Sleb;
    },
};
