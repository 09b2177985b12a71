//! The first bad instruction of an entry.
ghost use Rattle.std.specs.Prelude.{◌≡◌, IfOk};
ghost use Rattle.frame_rows.specs.Rows.{instruction_fault};
ghost use Rattle.frame_rows.specs.CieLeft.{cie_left};

use crate::cie_state::{Begun, CieState};
use crate::machine::Context;
use crate::run::run_all;
use frame_entries::Fde;
use std::alloc::Global;
use sym_edges::{OutOfMemory, Reason, Stop};

/// The reason against the first bad instruction of an entry, given the state after its CIE. The
/// CIE's instructions come before the entry's own. The address range of the entry may be any, even
/// an empty one.
#[tactic(auto, unfolding(crate::specs::Rows::instruction_fault, crate::specs::Rows::own_items, crate::specs::Rows::own_context))]
pub fn inspect_behind(
    alloc: Global,
    state: &CieState,
    fde: &Fde<'_>,
) -> Result<Option<Reason>, OutOfMemory>
    requires { state.now ≡ cie_left fde.now }
    ensures { IfOk result (λ why. why ≡ instruction_fault fde.now) }
{
    let begun = match state.begin(alloc, fde) {
        Ok(begun) => begun,
        Err(why) => return Ok(Some(why)),
    };
    let Begun {
        mut machine,
        context,
    } = begun;
    let context = Context {
        cie: context.get(),
        run: fde.instructions,
    };
    match run_all(
        &mut machine,
        &context,
        fde.encoding,
        fde.instructions_address,
        fde.instructions,
    ) {
        Ok(()) => Ok(None),
        Err(Stop::Fault(why)) => Ok(Some(why)),
        Err(Stop::NoMemory) => Err(OutOfMemory),
    }
}

/// The reason against the first bad instruction of an entry. The CIE's instructions come before the
/// entry's own. The address range of the entry may be any, even an empty one.
pub fn inspect(alloc: Global, fde: &Fde<'_>) -> Result<Option<Reason>, OutOfMemory>
    ensures { IfOk result (λ why. why ≡ instruction_fault fde.now) }
{
    let state = CieState::of(alloc, fde)?;
    inspect_behind(alloc, &state, fde)
}
