//! The addresses at which records begin or have ended, as far as the files may differ there.
//! Between two neighbours nothing changes.
ghost use Rattle.std.specs.Prelude.{◌≡◌, ◌∷◌, [], ◌++◌, ℕ, IfOk, OnOk};
ghost use Rattle.std.specs.List.{Contains, flat_map};
ghost use Rattle.sym_judge.specs.internal.Stops.{run_stops, extent_stops, line_stops, stops_of, all_stops, doubted};

use crate::ruling::Half;
use std::alloc::Global;
use step_maps::StepMap;
use sym_edges::OutOfMemory;
use sym_records::{Extent, SymLine};

/// Adds an address, if the files may differ there.
fn push_stop(stops: &mut Vec<u64>, doubts: &StepMap<bool>, address: u64) -> Result<(), OutOfMemory>
    ensures { OnOk result (stops.new.items ≡ stops.old.items ++ doubted doubts.now (address ∷ [])) }
{
    if !doubts.at(false, address) {
        return Ok(());
    }
    stops.push(address)?;
    Ok(())
}

/// Adds the address at which a range begins, and the one after its last.
#[tactic(auto, using(crate::proofs::StopListLemmas::start_kept))]
fn push_run(
    stops: &mut Vec<u64>,
    doubts: &StepMap<bool>,
    address: u64,
    size: u64,
) -> Result<(), OutOfMemory>
    ensures { OnOk result (stops.new.items ≡ stops.old.items ++ doubted doubts.now (run_stops address size)) }
{
    push_stop(stops, doubts, address)?;
    let Some(end) = address.checked_add(size) else {
        return Ok(());
    };
    push_stop(stops, doubts, end)?;
    Ok(())
}

/// Adds both addresses for each of several ranges.
#[tactic(auto, using(crate::proofs::StopListLemmas::more, crate::proofs::StopListLemmas::all_of))]
fn push_extents(
    stops: &mut Vec<u64>,
    doubts: &StepMap<bool>,
    extents: &[Extent],
) -> Result<(), OutOfMemory>
    ensures { OnOk result (stops.new.items ≡ stops.old.items ++ doubted doubts.now (flat_map extent_stops extents.now)) }
{
    'extents: for at in 0..extents.len() {
        push_run(stops, doubts, extents[at].address, extents[at].size)?;
    }
    Ok(())
}

/// Adds the addresses at which a record of a half begins or has ended.
fn push_line(
    stops: &mut Vec<u64>,
    half: Half,
    doubts: &StepMap<bool>,
    line: &SymLine,
) -> Result<(), OutOfMemory>
    ensures { OnOk result (stops.new.items ≡ stops.old.items ++ doubted doubts.now (line_stops half line.now)) }
{
    match (half, line) {
        (Half::Names, SymLine::Func { address, size, .. })
        | (Half::Names, SymLine::Line { address, size, .. })
        | (Half::Frames, SymLine::Init { address, size, .. }) => {
            push_run(stops, doubts, *address, *size)
        }
        (Half::Names, SymLine::Inline { ranges, .. }) => {
            push_extents(stops, doubts, ranges.as_slice())
        }
        (Half::Frames, SymLine::Change { address, .. }) => push_stop(stops, doubts, *address),
        _ => Ok(()),
    }
}

/// Adds the addresses at which records of a half begin or have ended.
#[tactic(auto, using(crate::proofs::StopListLemmas::more, crate::proofs::StopListLemmas::all_of))]
fn push_lines(
    stops: &mut Vec<u64>,
    half: Half,
    doubts: &StepMap<bool>,
    lines: &[SymLine],
) -> Result<(), OutOfMemory>
    ensures { OnOk result (stops.new.items ≡ stops.old.items ++ doubted doubts.now (stops_of half lines.now)) }
{
    'lines: for at in 0..lines.len() {
        push_line(stops, half, doubts, &lines[at])?;
    }
    Ok(())
}

/// The addresses at which the two files are compared, sorted, each once. There are none if the
/// files differ nowhere.
pub(crate) fn half_stops(
    alloc: Global,
    half: Half,
    doubts: &StepMap<bool>,
    own: &[SymLine],
    other: &[SymLine],
) -> Result<Vec<u64>, OutOfMemory>
    ensures { IfOk result (λ stops. (x : ℕ) → Contains (doubted doubts.now (all_stops half own.now other.now)) x → Contains stops.items x) }
{
    let mut stops = Vec::new(alloc);
    if doubts.stops().is_empty() {
        return Ok(stops);
    }
    push_stop(&mut stops, doubts, 0)?;
    push_lines(&mut stops, half, doubts, own)?;
    push_lines(&mut stops, half, doubts, other)?;
    stops.sort_unstable();
    stops.dedup();
    Ok(stops)
}
