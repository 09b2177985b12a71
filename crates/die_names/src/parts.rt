//! The parts of a name.
ghost use Rattle.std.specs.Prelude.{◌≡◌};
ghost use Rattle.die_names.specs.NameRefs.{name_bytes, joined_bytes};

use crate::name_source::{How, NameRef};
use clean_names::name_omitted;
use debug_units::Units;

/// The bytes of a name as they are in the file, and whether the names of the scopes around its entry come before them.
#[derive(Clone, Copy, Debug)]
pub struct NameParts<'a> {
    pub is_joined: bool,
    pub bytes: &'a [u8],
}

/// The parts of a name, before it is cleaned. Allocates no memory.
#[tactic(auto, using(crate::proofs::PartLemmas::part_no_unit, crate::proofs::PartLemmas::part_no_die, crate::proofs::PartLemmas::part_linkage, crate::proofs::PartLemmas::part_no_linkage, crate::proofs::PartLemmas::part_joined, crate::proofs::PartLemmas::part_no_name, crate::proofs::PartLemmas::part_omitted))]
pub fn name_parts<'a>(units: &Units<'a>, name: NameRef) -> NameParts<'a>
    ensures { name_bytes units.now name ≡ joined_bytes units.now name result.is_joined result.bytes.now }
{
    let omitted = NameParts {
        is_joined: false,
        bytes: name_omitted(),
    };
    let Some(part) = units.unit(name.unit) else {
        return omitted;
    };
    let Some(die) = part.entry(name.entry as usize) else {
        return omitted;
    };
    match name.how {
        How::Linkage => match die.linkage() {
            Some(bytes) => NameParts {
                is_joined: false,
                bytes,
            },
            None => omitted,
        },
        How::Joined => match die.name() {
            Some(bytes) => NameParts {
                is_joined: true,
                bytes,
            },
            None => omitted,
        },
        How::Omitted => omitted,
    }
}
