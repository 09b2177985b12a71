//! The entries of one section.
ghost use Rattle.std.specs.Prelude.{◌≡◌, ◌==◌, ◌<◌, length, slice_get, filter, not, Some, Ok, Err};
ghost use Rattle.sym_edges.specs.Outside.{MatchStop};
ghost use Rattle.frame_entries.specs.FrameEntries.{IsFrameSection, is_cie, frame_entries};
ghost use Rattle.frame_entries.specs.SharedCies.{ShareCies};

use crate::cie::Cie;
use crate::description::Entry;
use crate::fault::FrameFault;
use crate::raw_entries::{RawEntry, read_listing};
use crate::section_cies::{is_cie, read_cies, read_entry};
use std::alloc::Global;
use std::marker::Model;
use sym_edges::{Part, Sect, Stop};

/// Entries of one section in the order of their places. The list has the CIEs, each read once, and
/// for each FDE 24 bytes that say where it is; [`EntryList::entry`] reads the FDE.
#[derive(Debug, Drop)]
pub struct EntryList<'a> {
    which: Sect,
    address: u64,
    cies: Vec<Cie<'a>>,
    fdes: Vec<RawEntry<'a>>,
}

impl<'a> Model for EntryList<'a> {
    ghost use Rattle.std.specs.Prelude.{List, map};
    ghost use Rattle.frame_entries.specs.declared.description.Entry.{Entry};
    ghost use Rattle.frame_entries.specs.FrameEntries.{entry_of};
    ghost use Rattle.sym_edges.specs.Rising.{RisesFrom};
    ghost use Rattle.frame_entries.specs.internal.CiePlaces.{places_of};

    ghost Value = { List Entry };

    ghost view = { λ l. map (entry_of l.which l.address l.cies.items) l.fdes.items };

    ghost invariant = { λ l. RisesFrom 0 (places_of l.cies.items) };
}

impl<'a> EntryList<'a> {
    #[tactic(auto, using(crate::proofs::SharedLemmas::entries_counted))]
    pub fn len(&self) -> usize
        ensures { result ≡ length self.now }
    {
        self.fdes.len()
    }

    #[tactic(auto, using(crate::proofs::SharedLemmas::entries_counted))]
    pub fn is_empty(&self) -> bool
        ensures { result ≡ (length self.now == 0) }
    {
        self.fdes.is_empty()
    }

    /// Reads the entry at an index. Entries whose CIEs are at the same place have the same fields of a CIE.
    #[tactic(auto, using(crate::proofs::SharedLemmas::entries_counted, crate::proofs::SharedLemmas::entry_read, crate::proofs::SharedLemmas::entries_share))]
    pub fn entry(&self, i: usize) -> Entry<'a>
        requires { i < length self.now }
        ensures value { slice_get self.now i ≡ Some result }
        ensures shared { ShareCies self.now }
    {
        let fde = &self.fdes[i];
        read_entry(self.which, self.address, self.cies.as_slice(), fde)
    }
}

/// Keeps only the FDEs.
fn keep_fdes(raws: &mut Vec<RawEntry<'_>>, which: Sect)
    ensures { raws.new.items ≡ filter (λ raw. not (is_cie which raw)) raws.old.items }
{
    raws.retain(|raw| !is_cie(which, raw));
}

/// The frame description entries of a section, in their order, or its first fault (DWARF 5, 6.4.1;
/// LSB Core, ".eh_frame"). Each has its fields, or the first reason to leave it out. A section of
/// more than 2^29 bytes counts as out of memory; no file that is dumped has one.
#[tactic(auto, using(crate::proofs::PlaceLemmas::cies_rise), unfolding(crate::specs::FrameEntries::frame_entries, crate::specs::FrameEntries::entries_of))]
pub fn entries<'a>(
    alloc: Global,
    part: Part<'a>,
    which: Sect,
) -> Result<EntryList<'a>, Stop<FrameFault>>
    requires { IsFrameSection which }
    ensures { MatchStop result
        (λ list. frame_entries part.entry.bytes.now part.entry.address which ≡ Ok list)
        (λ fault. frame_entries part.entry.bytes.now part.entry.address which ≡ Err fault)
        (Unit {0}) }
{
    let mut fdes = read_listing(alloc, part.bytes, which)?;
    let cies = read_cies(alloc, fdes.as_slice(), which)?;
    keep_fdes(&mut fdes, which);
    Ok(EntryList {
        which,
        address: part.address,
        cies,
        fdes,
    })
}
