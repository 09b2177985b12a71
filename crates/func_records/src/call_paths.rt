//! The paths of calls.
ghost use Rattle.std.specs.Prelude.{◌≡◌, ℕ, List, ◌||◌, OnOk};
ghost use Rattle.std.specs.Str.{bytes_eq};
ghost use Rattle.func_records.specs.FuncRecords.{call_path};
ghost use Rattle.func_records.specs.internal.Calls.{IsKnown, AreKnown};
ghost use Rattle.func_records.specs.internal.Gathering.{has_path, any_call};

use crate::calls::call_site;
use crate::path_list::{PathList, PathRef};
use debug_units::Units;
use inline_chain::InlineRun;
use sym_edges::OutOfMemory;

/// Adds the path of a call.
fn gather_call(
    units: &Units<'_>,
    unit: u32,
    entry: u32,
    paths: &mut PathList,
) -> Result<(), OutOfMemory>
    ensures known { OnOk result (IsKnown units.now unit entry) }
    ensures same { OnOk result ((path : List ℕ) → has_path units.now paths.new path ≡ (has_path units.now paths.old path || bytes_eq path (call_path units.now unit entry))) }
{
    let site = call_site(units, unit, entry);
    let path = site.path;
    paths.add(PathRef { unit, path })?;
    Ok(())
}

/// Adds the paths of the calls of a piece's inlined copies.
pub fn gather_calls(
    units: &Units<'_>,
    unit: u32,
    copies: &[InlineRun],
    paths: &mut PathList,
) -> Result<(), OutOfMemory>
    ensures known { OnOk result (AreKnown units.now unit copies.now) }
    ensures same { OnOk result ((path : List ℕ) → has_path units.now paths.new path ≡ (has_path units.now paths.old path || any_call units.now unit copies.now path)) }
{
    let mut rest = copies;
    'copies: while let Some((copy, later)) = rest.split_first() {
        gather_call(units, unit, copy.entry, paths)?;
        rest = later;
    }
    Ok(())
}
