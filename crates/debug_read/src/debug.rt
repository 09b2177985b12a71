//! The debugging information of a file.
ghost use Rattle.std.specs.Prelude.{◌≡◌, Err};
ghost use Rattle.sym_edges.specs.Outside.{MatchStop};
ghost use Rattle.debug_read.specs.DebugSays.{debug_says, IsDebugRead};

use crate::fault::{DebugFault, frame_stop};
use crate::found::DebugRead;
use crate::units::{BothRead, read_both};
use elf_sections::Image;
use frame_entries::entries;
use std::thread::Threads;
use sym_edges::{Sect, Stop};
use unit_workers::{Crew, Gate};

/// All debugging information of an image, read by a crew of workers: the headers of the units of `.debug_info`, the units that are read, in their
/// order, and the entries of `.eh_frame` and of `.debug_frame`. Before each unit of the file is read, `gate` is called with its number among those
/// that are read. If the image has the sections of a supplementary file (DWARF 5, 7.3.6), the units of that file come after those of the file; their
/// entries have no addresses, and the units have no lines.
///
/// If there is a fault, the result is the first one, in this order: of the unit headers (DWARF 5, 7.5.1); of the units, one after the other, each
/// with its abbreviations (7.5.3), its entries (7.5.2), the base of its range lists (3.1.1), the ranges entry by entry (2.17), its line table (6.2);
/// of the supplementary file's unit headers, and of its units; of `.eh_frame`; of `.debug_frame` (6.4.1). The result does not depend on the number of
/// workers. A `.debug_info` of more than 2^29 bytes, which no file that is dumped has, counts as out of memory.
#[tactic(auto, unfolding(crate::specs::DebugSays::debug_says))]
pub fn read_debug<'a, R: Threads + Sync, G: Gate + Sync>(
    crew: &Crew<'_, R>,
    image: &Image<'a>,
    gate: &G,
) -> Result<DebugRead<'a>, Stop<DebugFault>>
    ensures { MatchStop result
        (λ read. IsDebugRead image.now read)
        (λ fault. debug_says image.now ≡ Err fault)
        (Prim.Unit {0}) }
{
    let alloc = crew.alloc();
    let both = match read_both(crew, image, gate) {
        Ok(both) => both,
        Err(stop) => return Err(stop),
    };
    let first = match entries(alloc, image.section(Sect::EhFrame), Sect::EhFrame) {
        Ok(first) => first,
        Err(stop) => return Err(frame_stop(stop)),
    };
    let second = match entries(alloc, image.section(Sect::DebugFrame), Sect::DebugFrame) {
        Ok(second) => second,
        Err(stop) => return Err(frame_stop(stop)),
    };
    let BothRead {
        headers,
        sup_headers,
        units,
    } = both;
    Ok(DebugRead {
        headers,
        sup_headers,
        units,
        first,
        second,
    })
}
