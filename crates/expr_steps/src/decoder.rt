//! Reading an operation.
ghost use Rattle.std.specs.Prelude.{◌≡◌, Some};
ghost use Rattle.leb_cursor.specs.Ahead.{gave};
ghost use Rattle.expr_steps.specs.Operations.{behind_opcode, operation_at, next_operation};

use crate::operation::Operation;
use code_table::{
    DW_OP_and, DW_OP_breg0, DW_OP_breg31, DW_OP_const1s, DW_OP_const1u, DW_OP_const2s,
    DW_OP_const2u, DW_OP_const4s, DW_OP_const4u, DW_OP_const8s, DW_OP_const8u, DW_OP_consts,
    DW_OP_constu, DW_OP_deref, DW_OP_ge, DW_OP_lit0, DW_OP_lit31, DW_OP_minus, DW_OP_mul,
    DW_OP_plus, DW_OP_plus_uconst, DW_OP_shl,
};
use leb_cursor::Cursor;
use sym_edges::Reason;

/// A constant without a sign, which a call of the cursor reads.
macro_rules! unsigned {
    ($cursor:ident.$call:ident) => {
        match $cursor.$call() {
            Ok(value) => Ok(Operation::Constant {
                value: u64::from(value),
            }),
            Err(_) => Err(Reason::Expression),
        }
    };
}

/// A constant with a sign.
macro_rules! signed {
    ($cursor:ident.$call:ident) => {
        match $cursor.$call() {
            Ok(value) => Ok(Operation::Constant {
                value: i64::from(value.cast_signed()).cast_unsigned(),
            }),
            Err(_) => Err(Reason::Expression),
        }
    };
}

/// Reads the operand of an opcode.
#[tactic(auto, unfolding(crate::specs::Operations::behind_opcode))]
fn read_behind(cursor: &mut Cursor<'_>, opcode: u64) -> Result<Operation, Reason>
    ensures { gave result cursor.new ≡ behind_opcode opcode cursor.old }
{
    match opcode {
        DW_OP_deref => Ok(Operation::Deref),
        DW_OP_const1u => unsigned!(cursor.u8),
        DW_OP_const1s => signed!(cursor.u8),
        DW_OP_const2u => unsigned!(cursor.u16),
        DW_OP_const2s => signed!(cursor.u16),
        DW_OP_const4u => unsigned!(cursor.u32),
        DW_OP_const4s => signed!(cursor.u32),
        DW_OP_const8u => unsigned!(cursor.u64),
        DW_OP_const8s => signed!(cursor.u64),
        DW_OP_constu => unsigned!(cursor.uleb),
        DW_OP_consts => match cursor.sleb() {
            Ok(value) => Ok(Operation::Constant {
                value: value.cast_unsigned(),
            }),
            Err(_) => Err(Reason::Expression),
        },
        DW_OP_and => Ok(Operation::And),
        DW_OP_minus => Ok(Operation::Minus),
        DW_OP_mul => Ok(Operation::Mul),
        DW_OP_plus => Ok(Operation::Plus),
        DW_OP_plus_uconst => match cursor.uleb() {
            Ok(addend) => Ok(Operation::PlusUconst { addend }),
            Err(_) => Err(Reason::Expression),
        },
        DW_OP_shl => Ok(Operation::Shl),
        DW_OP_ge => Ok(Operation::Ge),
        DW_OP_lit0..=DW_OP_lit31 => Ok(Operation::Constant {
            value: opcode - DW_OP_lit0,
        }),
        DW_OP_breg0..=DW_OP_breg31 => match cursor.sleb() {
            Ok(offset) => Ok(Operation::Breg {
                register: (opcode - DW_OP_breg0) as u8,
                offset,
            }),
            Err(_) => Err(Reason::Expression),
        },
        _ => Err(Reason::Expression),
    }
}

impl Operation {
    /// Reads the next operation. If it cannot be read, it is refused as `Expression`.
    #[tactic(auto, unfolding(crate::specs::Operations::operation_at))]
    pub fn read(cursor: &mut Cursor<'_>) -> Result<Operation, Reason>
        ensures { gave result cursor.new ≡ operation_at cursor.old }
    {
        match cursor.u8() {
            Ok(opcode) => read_behind(cursor, u64::from(opcode)),
            Err(_) => Err(Reason::Expression),
        }
    }

    /// Reads the next operation, if there is a byte left.
    #[tactic(auto, unfolding(crate::specs::Operations::next_operation))]
    pub(crate) fn next(cursor: &mut Cursor<'_>) -> Result<Option<Operation>, Reason>
        ensures { gave result cursor.new ≡ next_operation cursor.old }
    {
        if cursor.is_at_end() {
            return Ok(None);
        }
        match Operation::read(cursor) {
            Ok(operation) => Ok(Some(operation)),
            Err(why) => Err(why),
        }
    }
}
