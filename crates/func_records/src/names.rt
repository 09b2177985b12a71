//! The names of the inlined functions.
ghost use Rattle.std.specs.Prelude.{◌≡◌, map, IfOk};
ghost use Rattle.std.specs.List.{flat_map};
ghost use Rattle.func_records.specs.internal.Origins.{made_name, all_refs};
ghost use Rattle.unit_workers.specs.Shares.{share};

use crate::found::FoundShare;
use crate::made_names::{MadeName, name_of_entry};
use crate::shares::{SHARE, share_count};
use debug_units::Units;
use die_names::NameRef;
use place_guesses::PlaceGuesses;
use std::alloc::Global;
use std::marker::Model;
use std::thread::Threads;
use sym_edges::OutOfMemory;
use unit_workers::{Crew, NoGate, UnitJob, share_of};

/// How many entries all shares have together.
fn count_refs(shares: &[FoundShare]) -> usize {
    let mut count: usize = 0;
    for share in shares {
        count = count.saturating_add(share.refs.len());
    }
    count
}

/// The entries that name the inlined functions, share after share.
pub fn join_refs(alloc: Global, shares: &[FoundShare]) -> Result<Vec<NameRef>, OutOfMemory>
    ensures { IfOk result (λ refs. refs.items ≡ all_refs shares.now) }
{
    let mut refs = Vec::with_capacity(alloc, count_refs(shares))?;
    'shares: for k in 0..shares.len() {
        refs.extend_from_slice(shares[k].refs.as_slice())?;
    }
    Ok(refs)
}

/// The cleaned names that entries give. Those that are made are in memory once each, as a rule.
fn make_names<'a>(
    alloc: Global,
    units: &Units<'a>,
    refs: &[NameRef],
) -> Result<Vec<MadeName<'a>>, OutOfMemory>
    ensures { IfOk result (λ texts. texts.items ≡ map (made_name units.now) refs.now) }
{
    let mut texts = Vec::with_capacity(alloc, refs.len())?;
    let mut guesses = PlaceGuesses::new(alloc, refs.len())?;
    let mut rest = refs;
    'refs: while let Some((name, later)) = rest.split_first() {
        let text = name_of_entry(alloc, units, *name, texts.as_slice(), &mut guesses)?;
        texts.push(text)?;
        rest = later;
    }
    Ok(texts)
}

/// A job that makes the names of entries, share by share.
#[derive(Drop)]
struct NameMaker<'t, 'a> {
    units: &'t Units<'a>,
    refs: &'t [NameRef],
}

impl<'t, 'a> Model for NameMaker<'t, 'a> {
    ghost use Rattle.func_records.specs.internal.Shares.{MakerParts};

    ghost Value = { MakerParts };

    ghost view = { λ m. record { units = m.units.now; refs = m.refs.now } };
}

impl<'t, 'a> NameMaker<'t, 'a> {
    fn of(units: &'t Units<'a>, refs: &'t [NameRef]) -> NameMaker<'t, 'a>
        ensures { result ≡ record { units = units.now; refs = refs.now } }
    {
        NameMaker { units, refs }
    }
}

impl<'t, 'a> UnitJob for NameMaker<'t, 'a> {
    type Out = Vec<MadeName<'a>>;

    type Scratch = ();

    ghost gives = { λ maker k texts. texts.items ≡ map (made_name maker.units) (share 512 k maker.refs) };

    fn scratch(&self, _alloc: Global) -> Result<(), OutOfMemory> {
        Ok(())
    }

    fn run(
        &self,
        alloc: Global,
        k: usize,
        _scratch: &mut (),
    ) -> Result<Vec<MadeName<'a>>, OutOfMemory> {
        let texts = make_names(alloc, self.units, share_of(self.refs, SHARE, k))?;
        Ok(texts)
    }
}

/// The names of all shares, one share after another.
fn join_names<'a>(
    alloc: Global,
    shares: Vec<Vec<MadeName<'a>>>,
    count: usize,
) -> Result<Vec<MadeName<'a>>, OutOfMemory>
    ensures { IfOk result (λ texts. texts.items ≡ flat_map (λ one. one.items) shares.entry.items) }
{
    let mut left = shares;
    left.reverse();
    let mut texts = Vec::with_capacity(alloc, count)?;
    'shares: while let Some(mut one) = left.pop() {
        texts.append(&mut one)?;
    }
    Ok(texts)
}

/// The cleaned names that entries give, made by a crew of workers.
pub fn gather_names<'a, R: Threads + Sync>(
    crew: &Crew<'_, R>,
    units: &Units<'a>,
    refs: &[NameRef],
) -> Result<Vec<MadeName<'a>>, OutOfMemory>
    ensures { IfOk result (λ texts. texts.items ≡ map (made_name units.now) refs.now) }
{
    let maker = NameMaker::of(units, refs);
    let count = share_count(refs.len())?;
    let shares = crew.run(&maker, &NoGate, count)?;
    let texts = join_names(crew.alloc(), shares, refs.len())?;
    Ok(texts)
}
