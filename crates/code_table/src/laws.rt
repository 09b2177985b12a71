//! Laws, for proofs of other crates. Each function does nothing: its contract is the law.
ghost use Rattle.std.specs.Prelude.{◌≡◌, false, true};
ghost use Rattle.leb_cursor.specs.Ahead.{Ahead};
ghost use Rattle.leb_cursor.specs.Passes.{Passes};
ghost use Rattle.code_table.specs.declared.kind.Shape.{Shape};
ghost use Rattle.code_table.specs.ExprOps.{expr_opcodes};
ghost use Rattle.code_table.specs.Forms.{form_layouts};
ghost use Rattle.code_table.specs.FrameOps.{frame_opcodes};
ghost use Rattle.code_table.specs.LineOps.{line_opcodes};
ghost use Rattle.code_table.specs.Layouts.{shape_at};

use crate::expr_ops::DW_OP_and;
use crate::expr_ops::DW_OP_breg0;
use crate::expr_ops::DW_OP_breg1;
use crate::expr_ops::DW_OP_breg2;
use crate::expr_ops::DW_OP_breg3;
use crate::expr_ops::DW_OP_breg4;
use crate::expr_ops::DW_OP_breg5;
use crate::expr_ops::DW_OP_breg6;
use crate::expr_ops::DW_OP_breg7;
use crate::expr_ops::DW_OP_breg8;
use crate::expr_ops::DW_OP_breg9;
use crate::expr_ops::DW_OP_breg10;
use crate::expr_ops::DW_OP_breg11;
use crate::expr_ops::DW_OP_breg12;
use crate::expr_ops::DW_OP_breg13;
use crate::expr_ops::DW_OP_breg14;
use crate::expr_ops::DW_OP_breg15;
use crate::expr_ops::DW_OP_breg16;
use crate::expr_ops::DW_OP_breg17;
use crate::expr_ops::DW_OP_breg18;
use crate::expr_ops::DW_OP_breg19;
use crate::expr_ops::DW_OP_breg20;
use crate::expr_ops::DW_OP_breg21;
use crate::expr_ops::DW_OP_breg22;
use crate::expr_ops::DW_OP_breg23;
use crate::expr_ops::DW_OP_breg24;
use crate::expr_ops::DW_OP_breg25;
use crate::expr_ops::DW_OP_breg26;
use crate::expr_ops::DW_OP_breg27;
use crate::expr_ops::DW_OP_breg28;
use crate::expr_ops::DW_OP_breg29;
use crate::expr_ops::DW_OP_breg30;
use crate::expr_ops::DW_OP_breg31;
use crate::expr_ops::DW_OP_const1s;
use crate::expr_ops::DW_OP_const1u;
use crate::expr_ops::DW_OP_const2s;
use crate::expr_ops::DW_OP_const2u;
use crate::expr_ops::DW_OP_const4s;
use crate::expr_ops::DW_OP_const4u;
use crate::expr_ops::DW_OP_const8s;
use crate::expr_ops::DW_OP_const8u;
use crate::expr_ops::DW_OP_consts;
use crate::expr_ops::DW_OP_constu;
use crate::expr_ops::DW_OP_deref;
use crate::expr_ops::DW_OP_ge;
use crate::expr_ops::DW_OP_lit0;
use crate::expr_ops::DW_OP_lit1;
use crate::expr_ops::DW_OP_lit2;
use crate::expr_ops::DW_OP_lit3;
use crate::expr_ops::DW_OP_lit4;
use crate::expr_ops::DW_OP_lit5;
use crate::expr_ops::DW_OP_lit6;
use crate::expr_ops::DW_OP_lit7;
use crate::expr_ops::DW_OP_lit8;
use crate::expr_ops::DW_OP_lit9;
use crate::expr_ops::DW_OP_lit10;
use crate::expr_ops::DW_OP_lit11;
use crate::expr_ops::DW_OP_lit12;
use crate::expr_ops::DW_OP_lit13;
use crate::expr_ops::DW_OP_lit14;
use crate::expr_ops::DW_OP_lit15;
use crate::expr_ops::DW_OP_lit16;
use crate::expr_ops::DW_OP_lit17;
use crate::expr_ops::DW_OP_lit18;
use crate::expr_ops::DW_OP_lit19;
use crate::expr_ops::DW_OP_lit20;
use crate::expr_ops::DW_OP_lit21;
use crate::expr_ops::DW_OP_lit22;
use crate::expr_ops::DW_OP_lit23;
use crate::expr_ops::DW_OP_lit24;
use crate::expr_ops::DW_OP_lit25;
use crate::expr_ops::DW_OP_lit26;
use crate::expr_ops::DW_OP_lit27;
use crate::expr_ops::DW_OP_lit28;
use crate::expr_ops::DW_OP_lit29;
use crate::expr_ops::DW_OP_lit30;
use crate::expr_ops::DW_OP_lit31;
use crate::expr_ops::DW_OP_minus;
use crate::expr_ops::DW_OP_mul;
use crate::expr_ops::DW_OP_plus;
use crate::expr_ops::DW_OP_plus_uconst;
use crate::expr_ops::DW_OP_shl;
use crate::expr_ops::EXPR_OPS;
use crate::forms::FORMS;
use crate::forms::FORMS64;
use crate::frame_ops::DW_CFA_GNU_args_size;
use crate::frame_ops::DW_CFA_advance_loc;
use crate::frame_ops::DW_CFA_advance_loc1;
use crate::frame_ops::DW_CFA_advance_loc2;
use crate::frame_ops::DW_CFA_advance_loc4;
use crate::frame_ops::DW_CFA_def_cfa;
use crate::frame_ops::DW_CFA_def_cfa_expression;
use crate::frame_ops::DW_CFA_def_cfa_offset;
use crate::frame_ops::DW_CFA_def_cfa_offset_sf;
use crate::frame_ops::DW_CFA_def_cfa_register;
use crate::frame_ops::DW_CFA_def_cfa_sf;
use crate::frame_ops::DW_CFA_expression;
use crate::frame_ops::DW_CFA_nop;
use crate::frame_ops::DW_CFA_offset;
use crate::frame_ops::DW_CFA_offset_extended;
use crate::frame_ops::DW_CFA_offset_extended_sf;
use crate::frame_ops::DW_CFA_register;
use crate::frame_ops::DW_CFA_remember_state;
use crate::frame_ops::DW_CFA_restore;
use crate::frame_ops::DW_CFA_restore_extended;
use crate::frame_ops::DW_CFA_restore_state;
use crate::frame_ops::DW_CFA_same_value;
use crate::frame_ops::DW_CFA_set_loc;
use crate::frame_ops::DW_CFA_undefined;
use crate::frame_ops::DW_CFA_val_expression;
use crate::frame_ops::DW_CFA_val_offset;
use crate::frame_ops::DW_CFA_val_offset_sf;
use crate::frame_ops::FRAME_OPS;
use crate::line_ops::DW_LNS_advance_line;
use crate::line_ops::DW_LNS_advance_pc;
use crate::line_ops::DW_LNS_const_add_pc;
use crate::line_ops::DW_LNS_copy;
use crate::line_ops::DW_LNS_fixed_advance_pc;
use crate::line_ops::DW_LNS_negate_stmt;
use crate::line_ops::DW_LNS_set_basic_block;
use crate::line_ops::DW_LNS_set_column;
use crate::line_ops::DW_LNS_set_epilogue_begin;
use crate::line_ops::DW_LNS_set_file;
use crate::line_ops::DW_LNS_set_isa;
use crate::line_ops::DW_LNS_set_prologue_end;
use crate::line_ops::LINE_OPS;

/// The operands of a shape lie among the bytes that are ahead.
#[tactic(auto, using(crate::proofs::OperandLemmas::shape_passes))]
pub fn operands_pass()
    ensures { (shape : Shape) (c : Ahead) → Passes 0 c (shape_at shape c) }
{}

/// The opcodes of call frame instructions (DWARF 5, table 7.29, and `DW_CFA_GNU_args_size` of the GNU
/// tools). The first three have an operand in their low six bits.
pub fn frame_opcode_values()
    ensures advance_loc { DW_CFA_advance_loc ≡ 0x40 }
    ensures offset { DW_CFA_offset ≡ 0x80 }
    ensures restore { DW_CFA_restore ≡ 0xc0 }
    ensures nop { DW_CFA_nop ≡ 0x00 }
    ensures set_loc { DW_CFA_set_loc ≡ 0x01 }
    ensures advance_loc1 { DW_CFA_advance_loc1 ≡ 0x02 }
    ensures advance_loc2 { DW_CFA_advance_loc2 ≡ 0x03 }
    ensures advance_loc4 { DW_CFA_advance_loc4 ≡ 0x04 }
    ensures offset_extended { DW_CFA_offset_extended ≡ 0x05 }
    ensures restore_extended { DW_CFA_restore_extended ≡ 0x06 }
    ensures undefined { DW_CFA_undefined ≡ 0x07 }
    ensures same_value { DW_CFA_same_value ≡ 0x08 }
    ensures register { DW_CFA_register ≡ 0x09 }
    ensures remember_state { DW_CFA_remember_state ≡ 0x0a }
    ensures restore_state { DW_CFA_restore_state ≡ 0x0b }
    ensures def_cfa { DW_CFA_def_cfa ≡ 0x0c }
    ensures def_cfa_register { DW_CFA_def_cfa_register ≡ 0x0d }
    ensures def_cfa_offset { DW_CFA_def_cfa_offset ≡ 0x0e }
    ensures def_cfa_expression { DW_CFA_def_cfa_expression ≡ 0x0f }
    ensures expression { DW_CFA_expression ≡ 0x10 }
    ensures offset_extended_sf { DW_CFA_offset_extended_sf ≡ 0x11 }
    ensures def_cfa_sf { DW_CFA_def_cfa_sf ≡ 0x12 }
    ensures def_cfa_offset_sf { DW_CFA_def_cfa_offset_sf ≡ 0x13 }
    ensures val_offset { DW_CFA_val_offset ≡ 0x14 }
    ensures val_offset_sf { DW_CFA_val_offset_sf ≡ 0x15 }
    ensures val_expression { DW_CFA_val_expression ≡ 0x16 }
    ensures GNU_args_size { DW_CFA_GNU_args_size ≡ 0x2e }
{}

/// The rows of `FRAME_OPS` are those of the standard.
#[tactic(auto, unfolding(crate::specs::FrameOps::frame_opcodes))]
pub fn frame_ops_are_the_standards()
    ensures { FRAME_OPS.rows ≡ frame_opcodes }
{}

/// The standard opcodes of line number programs (DWARF 5, table 7.25).
pub fn line_opcode_values()
    ensures copy { DW_LNS_copy ≡ 0x01 }
    ensures advance_pc { DW_LNS_advance_pc ≡ 0x02 }
    ensures advance_line { DW_LNS_advance_line ≡ 0x03 }
    ensures set_file { DW_LNS_set_file ≡ 0x04 }
    ensures set_column { DW_LNS_set_column ≡ 0x05 }
    ensures negate_stmt { DW_LNS_negate_stmt ≡ 0x06 }
    ensures set_basic_block { DW_LNS_set_basic_block ≡ 0x07 }
    ensures const_add_pc { DW_LNS_const_add_pc ≡ 0x08 }
    ensures fixed_advance_pc { DW_LNS_fixed_advance_pc ≡ 0x09 }
    ensures set_prologue_end { DW_LNS_set_prologue_end ≡ 0x0a }
    ensures set_epilogue_begin { DW_LNS_set_epilogue_begin ≡ 0x0b }
    ensures set_isa { DW_LNS_set_isa ≡ 0x0c }
{}

/// The rows of `LINE_OPS` are those of the standard.
#[tactic(auto, unfolding(crate::specs::LineOps::line_opcodes))]
pub fn line_ops_are_the_standards()
    ensures { LINE_OPS.rows ≡ line_opcodes }
{}

/// The opcodes of DWARF expressions that are read (DWARF 5, table 7.9).
pub fn expr_opcode_values()
    ensures deref { DW_OP_deref ≡ 0x06 }
    ensures const1u { DW_OP_const1u ≡ 0x08 }
    ensures const1s { DW_OP_const1s ≡ 0x09 }
    ensures const2u { DW_OP_const2u ≡ 0x0a }
    ensures const2s { DW_OP_const2s ≡ 0x0b }
    ensures const4u { DW_OP_const4u ≡ 0x0c }
    ensures const4s { DW_OP_const4s ≡ 0x0d }
    ensures const8u { DW_OP_const8u ≡ 0x0e }
    ensures const8s { DW_OP_const8s ≡ 0x0f }
    ensures constu { DW_OP_constu ≡ 0x10 }
    ensures consts { DW_OP_consts ≡ 0x11 }
    ensures and_ { DW_OP_and ≡ 0x1a }
    ensures minus { DW_OP_minus ≡ 0x1c }
    ensures mul_ { DW_OP_mul ≡ 0x1e }
    ensures plus { DW_OP_plus ≡ 0x22 }
    ensures plus_uconst { DW_OP_plus_uconst ≡ 0x23 }
    ensures shl { DW_OP_shl ≡ 0x24 }
    ensures ge { DW_OP_ge ≡ 0x2a }
    ensures lit0 { DW_OP_lit0 ≡ 0x30 }
    ensures lit1 { DW_OP_lit1 ≡ 0x31 }
    ensures lit2 { DW_OP_lit2 ≡ 0x32 }
    ensures lit3 { DW_OP_lit3 ≡ 0x33 }
    ensures lit4 { DW_OP_lit4 ≡ 0x34 }
    ensures lit5 { DW_OP_lit5 ≡ 0x35 }
    ensures lit6 { DW_OP_lit6 ≡ 0x36 }
    ensures lit7 { DW_OP_lit7 ≡ 0x37 }
    ensures lit8 { DW_OP_lit8 ≡ 0x38 }
    ensures lit9 { DW_OP_lit9 ≡ 0x39 }
    ensures lit10 { DW_OP_lit10 ≡ 0x3a }
    ensures lit11 { DW_OP_lit11 ≡ 0x3b }
    ensures lit12 { DW_OP_lit12 ≡ 0x3c }
    ensures lit13 { DW_OP_lit13 ≡ 0x3d }
    ensures lit14 { DW_OP_lit14 ≡ 0x3e }
    ensures lit15 { DW_OP_lit15 ≡ 0x3f }
    ensures lit16 { DW_OP_lit16 ≡ 0x40 }
    ensures lit17 { DW_OP_lit17 ≡ 0x41 }
    ensures lit18 { DW_OP_lit18 ≡ 0x42 }
    ensures lit19 { DW_OP_lit19 ≡ 0x43 }
    ensures lit20 { DW_OP_lit20 ≡ 0x44 }
    ensures lit21 { DW_OP_lit21 ≡ 0x45 }
    ensures lit22 { DW_OP_lit22 ≡ 0x46 }
    ensures lit23 { DW_OP_lit23 ≡ 0x47 }
    ensures lit24 { DW_OP_lit24 ≡ 0x48 }
    ensures lit25 { DW_OP_lit25 ≡ 0x49 }
    ensures lit26 { DW_OP_lit26 ≡ 0x4a }
    ensures lit27 { DW_OP_lit27 ≡ 0x4b }
    ensures lit28 { DW_OP_lit28 ≡ 0x4c }
    ensures lit29 { DW_OP_lit29 ≡ 0x4d }
    ensures lit30 { DW_OP_lit30 ≡ 0x4e }
    ensures lit31 { DW_OP_lit31 ≡ 0x4f }
    ensures breg0 { DW_OP_breg0 ≡ 0x70 }
    ensures breg1 { DW_OP_breg1 ≡ 0x71 }
    ensures breg2 { DW_OP_breg2 ≡ 0x72 }
    ensures breg3 { DW_OP_breg3 ≡ 0x73 }
    ensures breg4 { DW_OP_breg4 ≡ 0x74 }
    ensures breg5 { DW_OP_breg5 ≡ 0x75 }
    ensures breg6 { DW_OP_breg6 ≡ 0x76 }
    ensures breg7 { DW_OP_breg7 ≡ 0x77 }
    ensures breg8 { DW_OP_breg8 ≡ 0x78 }
    ensures breg9 { DW_OP_breg9 ≡ 0x79 }
    ensures breg10 { DW_OP_breg10 ≡ 0x7a }
    ensures breg11 { DW_OP_breg11 ≡ 0x7b }
    ensures breg12 { DW_OP_breg12 ≡ 0x7c }
    ensures breg13 { DW_OP_breg13 ≡ 0x7d }
    ensures breg14 { DW_OP_breg14 ≡ 0x7e }
    ensures breg15 { DW_OP_breg15 ≡ 0x7f }
    ensures breg16 { DW_OP_breg16 ≡ 0x80 }
    ensures breg17 { DW_OP_breg17 ≡ 0x81 }
    ensures breg18 { DW_OP_breg18 ≡ 0x82 }
    ensures breg19 { DW_OP_breg19 ≡ 0x83 }
    ensures breg20 { DW_OP_breg20 ≡ 0x84 }
    ensures breg21 { DW_OP_breg21 ≡ 0x85 }
    ensures breg22 { DW_OP_breg22 ≡ 0x86 }
    ensures breg23 { DW_OP_breg23 ≡ 0x87 }
    ensures breg24 { DW_OP_breg24 ≡ 0x88 }
    ensures breg25 { DW_OP_breg25 ≡ 0x89 }
    ensures breg26 { DW_OP_breg26 ≡ 0x8a }
    ensures breg27 { DW_OP_breg27 ≡ 0x8b }
    ensures breg28 { DW_OP_breg28 ≡ 0x8c }
    ensures breg29 { DW_OP_breg29 ≡ 0x8d }
    ensures breg30 { DW_OP_breg30 ≡ 0x8e }
    ensures breg31 { DW_OP_breg31 ≡ 0x8f }
{}

/// The rows of `EXPR_OPS` are those of the standard.
#[tactic(auto, unfolding(crate::specs::ExprOps::expr_opcodes))]
pub fn expr_ops_are_the_standards()
    ensures { EXPR_OPS.rows ≡ expr_opcodes }
{}

/// The rows of `FORMS` and of `FORMS64` are those of the standard.
#[tactic(auto, unfolding(crate::specs::Forms::forms, crate::specs::Forms::form_layouts))]
pub fn forms_are_the_standards()
    ensures narrow { FORMS.rows ≡ form_layouts false }
    ensures wide { FORMS64.rows ≡ form_layouts true }
{}
