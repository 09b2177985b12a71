//! The numbers of a CIE.
ghost use Rattle.std.specs.Prelude.{◌≡◌};
ghost use Rattle.leb_cursor.specs.Ahead.{gave, gave_as};
ghost use Rattle.frame_entries.specs.Cies.{sizes_at, column_at, numbers_at, augmentation_at};

use leb_cursor::{Cursor, CursorFault};

/// The numbers after the augmentation string: whether the sizes of an address and of a segment are those of x86-64, the alignment factors, and the
/// return address column.
#[derive(Clone, Copy, PartialEq, Eq, Debug)]
pub struct Numbers {
    pub sizes: bool,
    pub code_align: u64,
    pub data_align: i64,
    pub column: u64,
}

#[tactic(auto, unfolding(crate::specs::Cies::sizes_at))]
fn read_sizes(cursor: &mut Cursor<'_>, version: u8) -> Result<bool, CursorFault>
    ensures { gave result cursor.new ≡ sizes_at version cursor.old }
{
    if version != 4 {
        return Ok(true);
    }
    let address = cursor.u8()?;
    let segment = cursor.u8()?;
    Ok(address == 8 && segment == 0)
}

#[tactic(auto, unfolding(crate::specs::Cies::column_at))]
fn read_column(cursor: &mut Cursor<'_>, version: u8) -> Result<u64, CursorFault>
    ensures { gave result cursor.new ≡ column_at version cursor.old }
{
    if version == 1 {
        return Ok(u64::from(cursor.u8()?));
    }
    cursor.uleb()
}

#[tactic(auto, unfolding(crate::specs::Cies::numbers_at))]
pub fn read_numbers(cursor: &mut Cursor<'_>, version: u8) -> Result<Numbers, CursorFault>
    ensures { gave result cursor.new ≡ numbers_at version cursor.old }
{
    let sizes = read_sizes(cursor, version)?;
    let code_align = cursor.uleb()?;
    let data_align = cursor.sleb()?;
    let column = read_column(cursor, version)?;
    Ok(Numbers {
        sizes,
        code_align,
        data_align,
        column,
    })
}

/// The bytes of the augmentation data, if the CIE has an augmentation.
#[tactic(auto, unfolding(crate::specs::Cies::augmentation_at))]
pub fn read_augmentation<'a>(
    cursor: &mut Cursor<'a>,
    augmented: bool,
) -> Result<&'a [u8], CursorFault>
    ensures { gave_as (λ run. run.now) result cursor.new ≡ augmentation_at augmented cursor.old }
{
    if !augmented {
        return Ok(&[]);
    }
    let count = cursor.uleb()?;
    cursor.take(count)
}
