//! The stretches of inlined copies, each with the entry that the copy is directly in.
ghost use Rattle.std.specs.Prelude.{◌≡◌, ◌<◌, ◌^◌, true, length, OnOk};
ghost use Rattle.range_set.specs.Canonical.{IsCanonical};
ghost use Rattle.die_walk.specs.EntryKinds.{is_inlined};
ghost use Rattle.step_maps.specs.SpanStretches.{AreFit};
ghost use Rattle.inline_chain.specs.internal.Copies.{SaysInside, HaveSets, set_in, AddsCopy, TellChildren};

use crate::inside::inside_of;
use crate::met_copies::MetCopies;
use debug_units::UnitRead;
use die_walk::Die;
use std::alloc::AllocError;
use step_maps::{Stretch, push_spans};
use sym_edges::Span;

/// The addresses of the entry with this number.
fn spans_in<'u>(part: &'u UnitRead<'_>, entry: usize) -> &'u [Span]
    ensures spans { result.now ≡ set_in part.now.spans entry }
    ensures canonical { IsCanonical result.now }
{
    match part.ranges(entry) {
        Some(spans) => spans,
        None => &[],
    }
}

/// Adds the stretches of an entry if it is an inlined copy in another entry. It is left out if an
/// earlier copy directly in the same entry has the same set of addresses.
#[tactic(auto, using(crate::proofs::CollectLemmas::adds_other, crate::proofs::CollectLemmas::adds_nowhere, crate::proofs::CollectLemmas::adds_earlier, crate::proofs::CollectLemmas::adds_spans))]
fn push_copy(
    met: &mut MetCopies,
    stretches: &mut Vec<Stretch>,
    part: &UnitRead<'_>,
    row: &[Option<u32>],
    number: u32,
    die: &Die<'_, '_>,
    above: Option<u32>,
) -> Result<(), AllocError>
    requires fit { AreFit stretches.old.items }
    ensures same { OnOk result (AddsCopy part.now.die.dies part.now.spans row.now number die.now above stretches.old.items stretches.new.items) }
    ensures fit { OnOk result (AreFit stretches.new.items) }
    ensures canonical { OnOk result (is_inlined die.now ≡ true → IsCanonical (set_in part.now.spans number)) }
{
    if !die.is_inlined() {
        return Ok(());
    }
    let spans = spans_in(part, number as usize);
    let Some(class) = above else {
        return Ok(());
    };
    if met.meet(part, row, number, class)? {
        return Ok(());
    }
    push_spans(stretches, number, class, spans)?;
    Ok(())
}

/// Sets `stretches` to the stretches of a unit's inlined copies, in the order of their entries. The
/// class of a stretch is the number of the entry that the copy is directly in. If copies directly
/// in one entry have the same set of addresses, only the first is collected: the others are at no
/// address the first copy. The memory of `row` and `met` is reused. The function is never inlined,
/// so that its loop has the registers for itself.
#[inline(never)]
pub fn collect_copies(
    part: &UnitRead<'_>,
    row: &mut Vec<Option<u32>>,
    met: &mut MetCopies,
    stretches: &mut Vec<Stretch>,
) -> Result<(), AllocError>
    requires { length part.now.die.dies < 2 ^ 32 }
    ensures items { OnOk result (TellChildren part.now.die.dies part.now.spans stretches.new.items) }
    ensures fit { OnOk result (AreFit stretches.new.items) }
    ensures sets { OnOk result (HaveSets part.now.die.dies part.now.spans) }
{
    let count = part.die.dies().len();
    row.clear();
    row.reserve(count)?;
    met.clear();
    stretches.clear();
    'entries: for entry in 0..count {
        let Some(die) = part.entry(entry) else {
            return Ok(());
        };
        let above = inside_of(part, row.as_slice(), &die);
        push_copy(
            met,
            stretches,
            part,
            row.as_slice(),
            entry as u32,
            &die,
            above,
        )?;
        row.push(above)?;
    }
    Ok(())
}
