//! The operations of DWARF expressions (DWARF 5, 2.5).

/// An operation by the standard's name. All opcodes that push a constant, in whatever encoding, are
/// one operation; so are all opcodes that push a register with an offset.
#[derive(Clone, Copy, PartialEq, Eq, Debug)]
pub enum Operation {
    /// `DW_OP_const1u` to `DW_OP_const8s`, `DW_OP_constu`, `DW_OP_consts`, `DW_OP_lit0` to `DW_OP_lit31`: the number modulo 2^64.
    Constant { value: u64 },
    /// `DW_OP_breg0` to `DW_OP_breg31`.
    Breg { register: u8, offset: i64 },
    Deref,
    And,
    Minus,
    Mul,
    Plus,
    PlusUconst { addend: u64 },
    Shl,
    Ge,
}
