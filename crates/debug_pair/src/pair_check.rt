//! A binary and its debug file as one image.
ghost use Rattle.std.specs.Prelude.{◌≡◌, Some, None, Ok, Err};
ghost use Rattle.std.specs.Option.{option_copied};
ghost use Rattle.sym_edges.specs.Outside.{MatchStop};
ghost use Rattle.debug_pair.specs.Pairing.{pair_fault, pair_of};

use crate::fault::PairFault;
use elf_sections::Image;
use std::alloc::Global;
use sym_edges::Stop;

/// Why files with these two build ids are no pair, if they are none.
fn find_fault(binary: Option<&[u8]>, debug: Option<&[u8]>) -> Option<PairFault>
    ensures { result ≡ pair_fault (option_copied binary.entry) (option_copied debug.entry) }
{
    let Some(id) = binary else {
        return Some(PairFault::NoBuildId);
    };
    let Some(other) = debug else {
        return Some(PairFault::NoBuildId);
    };
    if id == other {
        None
    } else {
        Some(PairFault::BuildId)
    }
}

/// The image of a stripped binary with its separate debug file, or why they are no pair. The parts
/// of the image are slices of both files.
pub fn pair<'a>(
    alloc: Global,
    binary: &Image<'a>,
    debug: &Image<'a>,
) -> Result<Image<'a>, Stop<PairFault>>
    ensures exact { MatchStop result
        (λ both. pair_of binary.now debug.now ≡ Ok both) (λ fault. pair_of binary.now debug.now ≡ Err fault) (Unit {0}) }
{
    match find_fault(binary.build_id(), debug.build_id()) {
        None => Ok(binary.with_debug(alloc, debug)?),
        Some(fault) => Err(Stop::Fault(fault)),
    }
}
