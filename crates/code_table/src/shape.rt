//! Reading operands by their layout.
ghost use Rattle.std.specs.Prelude.{◌≡◌, OnErr};
ghost use Rattle.leb_cursor.specs.Ahead.{gave};
ghost use Rattle.code_table.specs.Layouts.{run_at, kind_at, shape_at};

use crate::kind::{Kind, Operand, Operands, Shape};
use leb_cursor::{Cursor, CursorFault};

/// Reads the next `n` bytes as a run.
#[inline]
#[tactic(auto, unfolding(crate::specs::Layouts::run_at))]
fn read_run(cursor: &mut Cursor<'_>, n: u64) -> Result<Operand, CursorFault>
    ensures read { gave result cursor.new ≡ run_at n cursor.old }
    ensures kept { OnErr result (cursor.new ≡ cursor.old) }
{
    let start = cursor.at();
    let run = cursor.take(n)?;
    Ok(Operand::Run {
        start,
        len: run.len(),
    })
}

/// Reads a text as a run.
#[inline]
#[tactic(auto, unfolding(crate::specs::Layouts::kind_at))]
fn read_text(cursor: &mut Cursor<'_>) -> Result<Operand, CursorFault>
    ensures read { gave result cursor.new ≡ kind_at Kind.ZeroText cursor.old }
    ensures kept { OnErr result (cursor.new ≡ cursor.old) }
{
    let start = cursor.at();
    let text = cursor.text()?;
    Ok(Operand::Run {
        start,
        len: text.len(),
    })
}

/// A match over all layouts. A number is read by a call of the cursor, and so is the length of a
/// block. Each other layout has an expression of its own.
macro_rules! read_by_kind {
    ($cursor:ident, $kind:ident;
        numbers { $($number:ident: $read_number:ident),* }
        blocks { $($block:ident: $read_length:ident),* }
        others { $($other:ident: $reading:expr),* }
    ) => {
        match $kind {
            $(Kind::$number => Ok(Operand::Num(u64::from($cursor.$read_number()?))),)*
            $(Kind::$block => {
                let mut probe = $cursor.fork();
                let length = u64::from(probe.$read_length()?);
                let run = read_run(&mut probe, length)?;
                *$cursor = probe;
                Ok(run)
            })*
            $(Kind::$other => $reading,)*
        }
    };
}

/// Reads an operand. A refused call leaves the cursor where it was. If the bytes of a block end too early, the place of the fault is after the length
/// of the block.
#[inline]
#[tactic(auto, unfolding(crate::specs::Layouts::kind_at))]
pub fn read_kind(cursor: &mut Cursor<'_>, kind: Kind) -> Result<Operand, CursorFault>
    ensures read { gave result cursor.new ≡ kind_at kind cursor.old }
    ensures kept { OnErr result (cursor.new ≡ cursor.old) }
{
    read_by_kind!(cursor, kind;
        numbers { U8: u8, U16: u16, U24: u24, U32: u32, U64: u64, Uleb: uleb }
        blocks { Block1: u8, Block2: u16, Block4: u32, BlockUleb: uleb }
        others {
            Nothing: Ok(Operand::Nothing),
            Bytes16: read_run(cursor, 16),
            Sleb: Ok(Operand::Signed(cursor.sleb()?)),
            ZeroText: read_text(cursor)
        }
    )
}

/// Reads the operands of `shape`, the first and then the second. A fault has the place of the number, text or run of bytes that cannot be read. If
/// the bytes of a block end too early, this place is after the length of the block.
#[inline]
#[tactic(auto, unfolding(crate::specs::Layouts::shape_at))]
pub fn read_shape(cursor: &mut Cursor<'_>, shape: Shape) -> Result<Operands, CursorFault>
    ensures read { gave result cursor.new ≡ shape_at shape cursor.old }
    ensures kept { OnErr result (cursor.new ≡ cursor.old) }
{
    let mut probe = cursor.fork();
    let first = read_kind(&mut probe, shape.first)?;
    let second = read_kind(&mut probe, shape.second)?;
    *cursor = probe;
    Ok(Operands { first, second })
}
