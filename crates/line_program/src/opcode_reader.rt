//! Reads the opcodes of a line number program.
ghost use Rattle.std.specs.Prelude.{◌≡◌, ◌<◌, ◌≤◌, length};
ghost use Rattle.leb_cursor.specs.Ahead.{gave};
ghost use Rattle.abbrev_units.specs.Faults.{left_by};
ghost use Rattle.line_program.specs.Opcodes.{pass_ulebs, file_behind, define_file_at, set_address_at, extended_of, extended_in, extended_at, standard_at, behind_opcode, opcode_at};

use crate::fault::LineFault;
use crate::file_entry::FileEntry;
use crate::opcode::Opcode;
use crate::program::Program;
use abbrev_units::DwarfKind;
use code_table::{
    DW_LNS_advance_line, DW_LNS_advance_pc, DW_LNS_const_add_pc, DW_LNS_copy,
    DW_LNS_fixed_advance_pc, DW_LNS_negate_stmt, DW_LNS_set_basic_block, DW_LNS_set_column,
    DW_LNS_set_epilogue_begin, DW_LNS_set_file, DW_LNS_set_isa, DW_LNS_set_prologue_end,
};
use leb_cursor::Cursor;
use text_table::held_text;

/// Skips `count` unsigned operands.
#[tactic(auto, using(crate::proofs::ReadLemmas::pass_none, crate::proofs::ReadLemmas::pass_more, crate::proofs::ReadLemmas::pass_cut))]
fn pass_operands(cursor: &mut Cursor<'_>, count: u8) -> Result<(), LineFault>
    ensures { left_by result cursor.new ≡ pass_ulebs count cursor.old }
{
    for index in 0..count {
        let _operand = cursor.uleb()?;
    }
    Ok(())
}

/// Reads the fields after a file's path.
#[tactic(auto, unfolding(crate::specs::Opcodes::file_behind))]
pub fn read_file_behind<'a>(
    cursor: &mut Cursor<'a>,
    path: &'a [u8],
) -> Result<FileEntry<'a>, LineFault>
    ensures { gave result cursor.new ≡ file_behind path.now cursor.old }
{
    let directory = cursor.uleb()?;
    let _time = cursor.uleb()?;
    let _size = cursor.uleb()?;
    let path = held_text(path);
    Ok(FileEntry { path, directory })
}

#[tactic(auto, unfolding(crate::specs::Opcodes::define_file_at))]
fn read_define_file<'a>(mut cursor: Cursor<'a>) -> Result<Opcode<'a>, LineFault>
    ensures { result ≡ define_file_at cursor.entry }
{
    let path = cursor.text()?;
    let file = read_file_behind(&mut cursor, path)?;
    Ok(Opcode::DefineFile(file))
}

#[tactic(auto, unfolding(crate::specs::Opcodes::set_address_at))]
fn read_set_address<'a>(
    mut cursor: Cursor<'a>,
    at: usize,
    len: u64,
) -> Result<Opcode<'a>, LineFault>
    ensures { result ≡ set_address_at at len cursor.entry }
{
    if len != 9 {
        return Err(LineFault::at(DwarfKind::LineOpcode, at));
    }
    let address = cursor.u64()?;
    Ok(Opcode::SetAddress { address })
}

/// Reads an extended opcode after its length.
#[tactic(auto, unfolding(crate::specs::Opcodes::extended_of, crate::specs::Opcodes::extended_in))]
fn read_part<'a>(
    mut cursor: Cursor<'a>,
    version: u16,
    at: usize,
    len: u64,
) -> Result<Opcode<'a>, LineFault>
    ensures { result ≡ extended_in version at len cursor.entry }
{
    let code = cursor.u8()?;
    match code {
        // DW_LNE_end_sequence, DW_LNE_set_address and DW_LNE_define_file.
        0x01 => Ok(Opcode::EndSequence),
        0x02 => read_set_address(cursor, at, len),
        0x03 if version < 5 => read_define_file(cursor),
        _ => Ok(Opcode::OtherExtended),
    }
}

/// Reads an extended opcode after its zero byte.
#[tactic(auto, unfolding(crate::specs::Opcodes::extended_at))]
fn read_extended<'a>(
    cursor: &mut Cursor<'a>,
    version: u16,
    at: usize,
) -> Result<Opcode<'a>, LineFault>
    ensures { gave result cursor.new ≡ extended_at version at cursor.old }
{
    let len = cursor.uleb()?;
    let part = cursor.part(len)?;
    if len == 0 {
        return Err(LineFault::at(DwarfKind::LineOpcode, at));
    }
    let opcode = read_part(part, version, at, len)?;
    Ok(opcode)
}

/// Reads the operand of a standard opcode.
macro_rules! read {
    ($cursor:ident; $opcode:ident { $field:ident: $call:ident }) => {{
        let $field = $cursor.$call()?;
        Ok(Opcode::$opcode { $field })
    }};
}

/// Reads a standard opcode after its first byte.
#[inline]
#[tactic(auto, unfolding(crate::specs::Opcodes::standard_at))]
fn read_standard<'a>(
    cursor: &mut Cursor<'a>,
    lengths: &[u8],
    code: u8,
) -> Result<Opcode<'a>, LineFault>
    requires some { 0 < code }
    requires known { code ≤ length lengths.now }
    ensures { gave result cursor.new ≡ standard_at lengths.now code cursor.old }
{
    match u64::from(code) {
        DW_LNS_copy => Ok(Opcode::Copy),
        DW_LNS_advance_pc => read!(cursor; AdvancePc { by: uleb }),
        DW_LNS_advance_line => read!(cursor; AdvanceLine { by: sleb }),
        DW_LNS_set_file => read!(cursor; SetFile { file: uleb }),
        DW_LNS_set_column => read!(cursor; SetColumn { column: uleb }),
        DW_LNS_negate_stmt => Ok(Opcode::NegateStmt),
        DW_LNS_set_basic_block => Ok(Opcode::SetBasicBlock),
        DW_LNS_const_add_pc => Ok(Opcode::ConstAddPc),
        DW_LNS_fixed_advance_pc => read!(cursor; FixedAdvancePc { by: u16 }),
        DW_LNS_set_prologue_end => Ok(Opcode::SetPrologueEnd),
        DW_LNS_set_epilogue_begin => Ok(Opcode::SetEpilogueBegin),
        DW_LNS_set_isa => read!(cursor; SetIsa { isa: uleb }),
        _ => {
            pass_operands(cursor, lengths[usize::from(code) - 1])?;
            Ok(Opcode::UnknownStandard)
        }
    }
}

impl<'a> Opcode<'a> {
    /// Reads the next opcode.
    #[inline]
    #[tactic(auto, unfolding(crate::specs::Opcodes::opcode_at, crate::specs::Opcodes::behind_opcode))]
    pub fn read(cursor: &mut Cursor<'a>, program: &Program<'_>) -> Result<Opcode<'a>, LineFault>
        ensures { gave result cursor.new ≡ opcode_at program.now cursor.old }
    {
        let at = cursor.at();
        let code = cursor.u8()?;
        if program.opcode_base <= code {
            return Ok(Opcode::Special {
                adjusted: code - program.opcode_base,
            });
        }
        if code == 0 {
            return read_extended(cursor, program.version, at);
        }
        read_standard(cursor, program.lengths, code)
    }
}
