//! The CIEs of a section, and the fields of an FDE by its CIE.
ghost use Rattle.std.specs.Prelude.{◌≡◌, IfOk};
ghost use Rattle.std.specs.Option.{option_copied};
ghost use Rattle.frame_entries.specs.FrameEntries.{cie_id, is_cie, cie_at, cies_of, cie_place, cie_from, cie_named, entry_of};
ghost use Rattle.sym_edges.specs.Rising.{RisesFrom, StandBelow};
ghost use Rattle.frame_entries.specs.internal.CiePlaces.{places_of};

use crate::cie::{Cie, read_cie};
use crate::description::{Body, Entry, read_body};
use crate::raw_entries::{RawEntry, is_eh};
use std::alloc::{AllocError, Global};
use sym_edges::{Reason, Sect};

/// The id of a CIE.
#[inline]
#[tactic(auto, unfolding(crate::specs::FrameEntries::cie_id))]
fn cie_id(which: Sect, wide: bool) -> u64
    ensures { result ≡ cie_id which wide }
{
    if is_eh(which) {
        return 0;
    }
    if wide { u64::MAX } else { 0xffff_ffff }
}

#[inline]
#[tactic(auto, unfolding(crate::specs::FrameEntries::is_cie))]
pub fn is_cie(which: Sect, raw: &RawEntry<'_>) -> bool
    ensures { result ≡ is_cie which raw.now }
{
    raw.id() == cie_id(which, raw.wide())
}

fn cie_at<'a>(raw: &RawEntry<'a>) -> Cie<'a>
    ensures { result ≡ cie_at raw.now }
{
    Cie {
        at: raw.at() as usize,
        parts: read_cie(raw.body()),
    }
}

/// The CIEs of a section, each read once.
#[tactic(auto, unfolding(crate::specs::FrameEntries::cies_of))]
pub fn read_cies<'a>(
    alloc: Global,
    raws: &[RawEntry<'a>],
    which: Sect,
) -> Result<Vec<Cie<'a>>, AllocError>
    ensures { IfOk result (λ cies. cies.items ≡ cies_of which raws.now) }
{
    raws.iter()
        .filter(|raw| is_cie(which, raw))
        .map(|raw| cie_at(raw))
        .collect(alloc)
}

/// Where the CIE of an FDE starts.
#[inline]
#[tactic(auto, unfolding(crate::specs::FrameEntries::cie_place))]
fn cie_place(which: Sect, raw: &RawEntry<'_>) -> Option<usize>
    ensures { result ≡ cie_place which raw.now }
{
    let id = raw.id();
    if !is_eh(which) {
        return Some(id as usize);
    }
    let id_at = raw.id_at();
    if id <= id_at {
        Some((id_at - id) as usize)
    } else {
        None
    }
}

/// How many CIEs start before a place, by binary search.
fn count_before(cies: &[Cie<'_>], place: usize) -> usize
    requires { RisesFrom 0 (places_of cies.now) }
    ensures { StandBelow (λ (c : Cie). c.at) place result cies.now }
{
    cies.partition_point(|cie| cie.at < place)
}

/// The CIE that starts at a place.
#[tactic(auto, using(crate::proofs::FindLemmas::cie_found, crate::proofs::FindLemmas::cie_other, crate::proofs::FindLemmas::cie_none))]
fn find_cie<'c, 'a>(cies: &'c [Cie<'a>], place: usize) -> Option<&'c Cie<'a>>
    requires { RisesFrom 0 (places_of cies.now) }
    ensures { option_copied result ≡ cie_from cies.now place }
{
    let count = count_before(cies, place);
    if count == cies.len() {
        return None;
    }
    let cie = &cies[count];
    if cie.at != place {
        return None;
    }
    Some(cie)
}

/// The CIE of an FDE.
#[tactic(auto, unfolding(crate::specs::FrameEntries::cie_named))]
fn name_cie<'c, 'a>(which: Sect, cies: &'c [Cie<'a>], raw: &RawEntry<'a>) -> Option<&'c Cie<'a>>
    requires { RisesFrom 0 (places_of cies.now) }
    ensures { option_copied result ≡ cie_named which cies.now raw.now }
{
    match cie_place(which, raw) {
        Some(place) => find_cie(cies, place),
        None => None,
    }
}

/// Reads an FDE.
#[tactic(auto, unfolding(crate::specs::FrameEntries::entry_of, crate::specs::FrameEntries::address_at))]
pub fn read_entry<'a>(which: Sect, address: u64, cies: &[Cie<'a>], raw: &RawEntry<'a>) -> Entry<'a>
    requires { RisesFrom 0 (places_of cies.now) }
    ensures { result ≡ entry_of which address cies.now raw.now }
{
    let base = address.wrapping_add(raw.body_at());
    let body = match name_cie(which, cies, raw) {
        Some(cie) => read_body(cie.at, &cie.parts, base, raw.body()),
        None => Body::Bad(Reason::Cie),
    };
    Entry {
        section: which,
        at: u64::from(raw.at()),
        body,
    }
}
