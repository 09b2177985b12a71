//! The names of all records of a file.
ghost use Rattle.std.specs.Prelude.{◌≡◌, map, IfOk, OnOk};
ghost use Rattle.rust_names.specs.ShownRecords.{renamed, HaveShownNames};
ghost use Rattle.rust_names.specs.Named.{named};

use crate::name::show_name;
use crate::symbol::Rooms;
use std::alloc::Global;
use sym_edges::OutOfMemory;
use sym_records::{SymFile, SymLine, file_of_valid};

/// Replaces the name of a record by what it shows, if it shows anything.
fn show_record(alloc: Global, rooms: &mut Rooms, line: &mut SymLine) -> Result<(), OutOfMemory>
    ensures { OnOk result (line.new ≡ renamed named line.old) }
{
    match line {
        SymLine::Func { name, .. } => show_name(alloc, rooms, name),
        SymLine::Origin { name, .. } => show_name(alloc, rooms, name),
        SymLine::Public { name, .. } => show_name(alloc, rooms, name),
        _ => Ok(()),
    }
}

/// The file in which the name of each `FUNC`, `INLINE_ORIGIN` and `PUBLIC` is replaced by what it
/// shows, if it shows anything. All else stays, and so does the order. Allocates memory for the
/// names alone.
pub fn show_all(alloc: Global, file: SymFile) -> Result<SymFile, OutOfMemory>
    ensures shown { IfOk result (λ new. HaveShownNames file new) }
    ensures named { IfOk result (λ new. new ≡ map (renamed named) file) }
{
    // The contract of `as_slice` says that the records are valid.
    let count = file.as_slice().len();
    let mut lines = file.into_vec();
    let mut rooms = Rooms::new(alloc);
    for at in 0..count {
        show_record(alloc, &mut rooms, &mut lines[at])?;
    }
    Ok(file_of_valid(lines))
}
