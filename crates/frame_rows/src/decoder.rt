//! Reading an instruction.
ghost use Rattle.std.specs.Prelude.{◌≡◌, IsTrue, if◌then◌else◌};
ghost use Rattle.leb_cursor.specs.Ahead.{gave};
ghost use Rattle.frame_entries.specs.Pointers.{is_encoding, pointer_at};
ghost use Rattle.frame_entries.specs.FrameEntries.{address_at};
ghost use Rattle.leb_cursor.specs.Readings.{uleb_at};
ghost use Rattle.frame_rows.specs.declared.instruction.Instruction.TheVariants.{SetLoc, DefCfaExpression, Expression, ValExpression, Nop};
ghost use Rattle.frame_rows.specs.Instructions.{or_instruction, block_at, one, two, extended_at, behind_opcode, instruction_at};

use crate::instruction::{Block, Instruction};
use code_table::{
    DW_CFA_GNU_args_size, DW_CFA_advance_loc1, DW_CFA_advance_loc2, DW_CFA_advance_loc4,
    DW_CFA_def_cfa, DW_CFA_def_cfa_expression, DW_CFA_def_cfa_offset, DW_CFA_def_cfa_offset_sf,
    DW_CFA_def_cfa_register, DW_CFA_def_cfa_sf, DW_CFA_expression, DW_CFA_nop,
    DW_CFA_offset_extended, DW_CFA_offset_extended_sf, DW_CFA_register, DW_CFA_remember_state,
    DW_CFA_restore_extended, DW_CFA_restore_state, DW_CFA_same_value, DW_CFA_set_loc,
    DW_CFA_undefined, DW_CFA_val_expression, DW_CFA_val_offset, DW_CFA_val_offset_sf,
};
use frame_entries::read_pointer;
use leb_cursor::Cursor;
use sym_edges::Reason;

/// An instruction with its operands, each read by a call of the cursor, one after the other.
macro_rules! read {
    ($cursor:ident; $instruction:ident { $($field:ident: $call:ident $(as $wide:ty)?),* }) => {{
        $(let Ok($field) = $cursor.$call() else {
            return Err(Reason::Instruction);
        };)*
        Ok(Instruction::$instruction { $($field: $field $(as $wide)?),* })
    }};
}

/// Reads the operand of `DW_CFA_set_loc`.
#[inline(never)]
#[tactic(auto, unfolding(frame_entries::specs::FrameEntries::address_at))]
fn read_set_loc(cursor: &mut Cursor<'_>, encoding: u8, base: u64) -> Result<Instruction, Reason>
    requires known { IsTrue (is_encoding encoding) }
    ensures { gave result cursor.new ≡ one SetLoc (or_instruction (pointer_at encoding (address_at base cursor.old.at) cursor.old)) }
{
    let address = base.wrapping_add(cursor.at() as u64);
    let Ok(address) = read_pointer(cursor, encoding, address) else {
        return Err(Reason::Instruction);
    };
    Ok(Instruction::SetLoc { address })
}

/// Skips the operand of `DW_CFA_GNU_args_size`, which says nothing about the row.
fn read_args_size(cursor: &mut Cursor<'_>) -> Result<Instruction, Reason>
    ensures { gave result cursor.new ≡ one (λ size. Nop) (or_instruction (uleb_at cursor.old)) }
{
    let Ok(_) = cursor.uleb() else {
        return Err(Reason::Instruction);
    };
    Ok(Instruction::Nop)
}

/// Reads a block: skips it, and returns where it starts and how long it is.
#[tactic(auto, unfolding(crate::specs::Instructions::block_at))]
fn read_block(cursor: &mut Cursor<'_>) -> Result<Block, Reason>
    ensures { gave result cursor.new ≡ block_at cursor.old }
{
    let Ok(len) = cursor.uleb() else {
        return Err(Reason::Instruction);
    };
    let start = cursor.at();
    let Ok(_) = cursor.take(len) else {
        return Err(Reason::Instruction);
    };
    Ok(Block {
        start,
        len: len as usize,
    })
}

/// Reads the operand of `DW_CFA_def_cfa_expression`.
#[inline(never)]
fn read_cfa_expression(cursor: &mut Cursor<'_>) -> Result<Instruction, Reason>
    ensures { gave result cursor.new ≡ one DefCfaExpression (block_at cursor.old) }
{
    let block = read_block(cursor)?;
    Ok(Instruction::DefCfaExpression { block })
}

/// Reads the operands of `DW_CFA_expression`, if `fetches`, or of `DW_CFA_val_expression`.
#[inline(never)]
fn read_expression(cursor: &mut Cursor<'_>, fetches: bool) -> Result<Instruction, Reason>
    ensures { gave result cursor.new ≡ two (if fetches then Expression else ValExpression) (or_instruction (uleb_at cursor.old)) block_at }
{
    let Ok(column) = cursor.uleb() else {
        return Err(Reason::Instruction);
    };
    let block = read_block(cursor)?;
    if fetches {
        return Ok(Instruction::Expression { column, block });
    }
    Ok(Instruction::ValExpression { column, block })
}

/// Reads the operands of an opcode that has no operand in its low bits.
#[inline(always)]
#[tactic(auto, unfolding(crate::specs::Instructions::extended_form, crate::specs::Instructions::form_at, crate::specs::Instructions::operand_at))]
fn read_extended(
    cursor: &mut Cursor<'_>,
    encoding: u8,
    base: u64,
    opcode: u64,
) -> Result<Instruction, Reason>
    requires known { IsTrue (is_encoding encoding) }
    ensures { gave result cursor.new ≡ extended_at encoding base opcode cursor.old }
{
    match opcode {
        DW_CFA_nop => Ok(Instruction::Nop),
        DW_CFA_set_loc => read_set_loc(cursor, encoding, base),
        DW_CFA_advance_loc1 => read!(cursor; AdvanceLoc { delta: u8 as u64 }),
        DW_CFA_advance_loc2 => read!(cursor; AdvanceLoc { delta: u16 as u64 }),
        DW_CFA_advance_loc4 => read!(cursor; AdvanceLoc { delta: u32 as u64 }),
        DW_CFA_offset_extended => read!(cursor; Offset { column: uleb, factored: uleb }),
        DW_CFA_restore_extended => read!(cursor; Restore { column: uleb }),
        DW_CFA_undefined => read!(cursor; Undefined { column: uleb }),
        DW_CFA_same_value => read!(cursor; SameValue { column: uleb }),
        DW_CFA_register => read!(cursor; Register { column: uleb, register: uleb }),
        DW_CFA_remember_state => Ok(Instruction::RememberState),
        DW_CFA_restore_state => Ok(Instruction::RestoreState),
        DW_CFA_def_cfa => read!(cursor; DefCfa { register: uleb, offset: uleb }),
        DW_CFA_def_cfa_register => read!(cursor; DefCfaRegister { register: uleb }),
        DW_CFA_def_cfa_offset => read!(cursor; DefCfaOffset { offset: uleb }),
        DW_CFA_def_cfa_expression => read_cfa_expression(cursor),
        DW_CFA_expression => read_expression(cursor, true),
        DW_CFA_val_expression => read_expression(cursor, false),
        DW_CFA_offset_extended_sf =>
            read!(cursor; OffsetExtendedSf { column: uleb, factored: sleb }),
        DW_CFA_def_cfa_sf => read!(cursor; DefCfaSf { register: uleb, factored: sleb }),
        DW_CFA_def_cfa_offset_sf => read!(cursor; DefCfaOffsetSf { factored: sleb }),
        DW_CFA_val_offset => read!(cursor; ValOffset { column: uleb, factored: uleb }),
        DW_CFA_val_offset_sf => read!(cursor; ValOffsetSf { column: uleb, factored: sleb }),
        DW_CFA_GNU_args_size => read_args_size(cursor),
        _ => Err(Reason::Instruction),
    }
}

/// Reads what follows an opcode.
#[inline(always)]
#[tactic(auto, unfolding(crate::specs::Instructions::form_of, crate::specs::Instructions::form_at, crate::specs::Instructions::operand_at))]
fn read_behind(
    cursor: &mut Cursor<'_>,
    encoding: u8,
    base: u64,
    opcode: u64,
) -> Result<Instruction, Reason>
    requires known { IsTrue (is_encoding encoding) }
    ensures { gave result cursor.new ≡ behind_opcode encoding base opcode cursor.old }
{
    let low = opcode % 64;
    match opcode / 64 {
        // DW_CFA_advance_loc, DW_CFA_offset and DW_CFA_restore.
        1 => Ok(Instruction::AdvanceLoc { delta: low }),
        2 => match cursor.uleb() {
            Ok(factored) => Ok(Instruction::Offset {
                column: low,
                factored,
            }),
            Err(_) => Err(Reason::Instruction),
        },
        3 => Ok(Instruction::Restore { column: low }),
        _ => read_extended(cursor, encoding, base, opcode),
    }
}

impl Instruction {
    /// Reads the next instruction. `base` is the address of the cursor's first byte, and `encoding` that of pointers.
    #[inline(always)]
    #[tactic(auto, unfolding(crate::specs::Instructions::instruction_at))]
    pub fn read(cursor: &mut Cursor<'_>, encoding: u8, base: u64) -> Result<Instruction, Reason>
        requires known { IsTrue (is_encoding encoding) }
        ensures { gave result cursor.new ≡ instruction_at encoding base cursor.old }
    {
        match cursor.u8() {
            Ok(opcode) => read_behind(cursor, encoding, base, u64::from(opcode)),
            Err(_) => Err(Reason::Instruction),
        }
    }
}
