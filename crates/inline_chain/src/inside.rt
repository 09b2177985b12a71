//! The subprogram or inlined copy around an entry.
ghost use Rattle.std.specs.Prelude.{◌≡◌, ◌==◌, ◌||◌, length};
ghost use Rattle.die_walk.specs.EntryKinds.{is_inlined};
ghost use Rattle.debug_units.specs.Owners.{inside_of};
ghost use Rattle.inline_chain.specs.internal.Copies.{SaysInside};

use code_table::DW_TAG_subprogram;
use debug_units::UnitRead;
use die_walk::Die;

/// Whether an entry is a subprogram or an inlined copy.
fn is_around(die: &Die<'_, '_>) -> bool
    ensures { result ≡ (die.now.tag == 0x2e || is_inlined die.now) }
{
    die.tag() == DW_TAG_subprogram || die.is_inlined()
}

/// The nearest subprogram or inlined copy around an entry. `row` has the one around each entry
/// before it.
#[tactic(auto, using(crate::proofs::InsideLemmas::inside_none, crate::proofs::InsideLemmas::inside_past, crate::proofs::InsideLemmas::inside_lost, crate::proofs::InsideLemmas::inside_own, crate::proofs::InsideLemmas::inside_row))]
pub fn inside_of(part: &UnitRead<'_>, row: &[Option<u32>], die: &Die<'_, '_>) -> Option<u32>
    requires { SaysInside part.now.die.dies row.now (length row.now) }
    ensures { result ≡ inside_of part.now.die.dies (length row.now) die.now.parent }
{
    let parent = die.parent()?;
    let place = parent as usize;
    if place >= row.len() {
        return None;
    }
    let Some(around) = part.entry(place) else {
        return None;
    };
    if is_around(&around) {
        return Some(parent);
    }
    row[place]
}
