//! The judgement: the files are compared at each address at which a record of one of them begins or ends.
ghost use Rattle.std.specs.Prelude.{◌≡◌, IfOk};
ghost use Rattle.sym_lookup.specs.IndexOf.{IsIndexOf};
ghost use Rattle.sym_judge.specs.Rulings.{IsRuling};
ghost use Rattle.sym_judge.specs.internal.Stops.{is_settled, with_found, with_stop, with_stops, sooner, Fits, IsHalfRuling};

use crate::copies::are_copies;
use crate::doubtful_addresses::doubts_of;
use crate::file_pair::FilePair;
use crate::half_comparison::HalfComparison;
use crate::indexed_files::IndexedFile;
use crate::record_stops::half_stops;
use crate::ruling::{Aspect, Half, Ruling};
use std::alloc::Global;
use sym_edges::OutOfMemory;
use sym_lookup::Index;
use sym_records::SymFile;

fn is_settled(ruling: Ruling, address: u64) -> bool
    ensures { result ≡ is_settled ruling address }
{
    match ruling {
        Ruling::Yes => false,
        Ruling::No { address: first, .. } => first <= address,
    }
}

fn with_found(ruling: Ruling, address: u64, found: Option<Aspect>) -> Ruling
    ensures is { result ≡ with_found ruling address found }
    ensures fits { Fits ruling → Fits result }
{
    match found {
        None => ruling,
        Some(aspect) => Ruling::No { address, aspect },
    }
}

/// The ruling after an address is looked at. The address is not looked at if the files already
/// differ at an address below it.
#[tactic(auto, unfolding(crate::specs::internal::Stops::with_stop))]
fn with_stop(
    alloc: Global,
    compared: &HalfComparison<'_, '_>,
    ruling: Ruling,
    address: u64,
) -> Result<Ruling, OutOfMemory>
    ensures is { IfOk result (λ r. r ≡ with_stop compared.now.half compared.now.own compared.now.other ruling address) }
    ensures fits { IfOk result (λ r. Fits ruling → Fits r) }
{
    if is_settled(ruling, address) {
        return Ok(ruling);
    }
    let found = compared.first_in(alloc, address)?;
    Ok(with_found(ruling, address, found))
}

/// The ruling after some addresses are looked at.
fn with_stops(
    alloc: Global,
    compared: &HalfComparison<'_, '_>,
    stops: &[u64],
) -> Result<Ruling, OutOfMemory>
    ensures is { IfOk result (λ r. r ≡ with_stops compared.now.half compared.now.own compared.now.other Ruling.Yes stops.now) }
    ensures fits { IfOk result Fits }
{
    let mut known = Ruling::Yes;
    'stops: for at in 0..stops.len() {
        known = with_stop(alloc, compared, known, stops[at])?;
    }
    Ok(known)
}

/// The ruling of one half. The addresses are looked at in ascending order, so at most one is found at which the files differ.
fn half_ruling(alloc: Global, half: Half, both: &FilePair<'_>) -> Result<Ruling, OutOfMemory>
    ensures { IfOk result (λ r. IsHalfRuling half both.now.own both.now.other r) }
{
    let doubts = doubts_of(alloc, half, both)?;
    let stops = half_stops(
        alloc,
        half,
        &doubts,
        both.own().lines(),
        both.other().lines(),
    )?;
    let compared = HalfComparison::of(alloc, half, both, &doubts, stops.as_slice())?;
    let ruling = with_stops(alloc, &compared, stops.as_slice())?;
    Ok(ruling)
}

/// Of two rulings, the one with the lesser address; if the addresses are equal, the first one.
fn sooner(a: Ruling, b: Ruling) -> Ruling
    ensures { result ≡ sooner a b }
{
    match (a, b) {
        (Ruling::Yes, b) => b,
        (a, Ruling::Yes) => a,
        (
            Ruling::No { address: first, .. },
            Ruling::No {
                address: second,
                ..
            },
        ) => {
            if first <= second {
                return a;
            }
            b
        }
    }
}

/// The index of a file. A file of 2^32 records is longer than a symbol file may be.
fn index_of(alloc: Global, file: &SymFile) -> Result<Index, OutOfMemory>
    ensures { IfOk result (λ index. IsIndexOf file.now index) }
{
    if file.len() > 0xffff_ffff {
        return Err(OutOfMemory);
    }
    Index::of(alloc, file)
}

/// Whether two files say the same at every address, or the least address at which they differ and the first aspect there.
#[tactic(auto, using(crate::proofs::StopLemmas::rulings_join, crate::proofs::CopyLemmas::copies_alike))]
pub fn judge(alloc: Global, own: &SymFile, other: &SymFile) -> Result<Ruling, OutOfMemory>
    ensures { IfOk result (λ ruling. IsRuling own.now other.now ruling) }
{
    if are_copies(own.as_slice(), other.as_slice()) {
        return Ok(Ruling::Yes);
    }
    let first = index_of(alloc, own)?;
    let second = index_of(alloc, other)?;
    let both = FilePair::of(
        alloc,
        IndexedFile::of(own, &first),
        IndexedFile::of(other, &second),
    )?;
    let names = half_ruling(alloc, Half::Names, &both)?;
    let frames = half_ruling(alloc, Half::Frames, &both)?;
    Ok(sooner(names, frames))
}
