//! Functions of both files that meet at addresses at which the files may differ: what is found out once for one function or for two.
ghost use Rattle.std.specs.Prelude.{◌≡◌, List, IfOk, OnOk, IfSome};
ghost use Rattle.std.specs.Str.{bytes_eq};
ghost use Rattle.sym_lookup.specs.AnswerTexts.{func_name_at};
ghost use Rattle.sym_records.specs.declared.line.SymLine.{SymLine};
ghost use Rattle.sym_judge.specs.internal.Chains.{IsFuncPair, AreFuncPairs, AreNumbered, AreFuncMeetings};

use crate::aliases::Numbered;
use crate::calls::Calls;
use crate::chain_numbers::no_numbers;
use crate::chains::{FuncChains, func_chains, has_many};
use crate::doubtful_addresses::nearer;
use crate::file_pair::FilePair;
use crate::names::func_name_at;
use crate::ruling::Half;
use std::alloc::Global;
use step_maps::StepMap;
use sym_edges::OutOfMemory;

/// Two functions that are the first of their files at some address.
#[derive(Clone, Copy)]
pub struct Meeting {
    pub key: u64,
    pub own: usize,
    pub other: usize,
}

/// Whether the names of two functions are the same.
#[derive(Clone, Copy)]
pub struct FuncPair {
    pub met: Meeting,
    pub same_name: bool,
}

/// What is known of functions that meet. For two with long names or with many levels it is whether
/// they have one name. For each with many levels it is the chains. Both lists are in the order of
/// the functions.
#[derive(Drop)]
pub struct FuncMeetings {
    pub pairs: Vec<FuncPair>,
    pub own: Vec<FuncChains>,
    pub other: Vec<FuncChains>,
}

/// The length in bytes up to which two names are compared at each meeting.
const SHORT: usize = 256;

/// A number for two places, by which meetings are sorted.
fn key_of(own: usize, other: usize) -> u64 {
    (own as u64)
        .wrapping_mul(0x1_0000_0000)
        .wrapping_add(other as u64)
}

/// Adds a meeting, if both files have a function.
fn push_meeting(
    meetings: &mut Vec<Meeting>,
    own: Option<usize>,
    other: Option<usize>,
) -> Result<(), OutOfMemory> {
    let Some(own) = own else {
        return Ok(());
    };
    let Some(other) = other else {
        return Ok(());
    };
    meetings.push(Meeting {
        key: key_of(own, other),
        own,
        other,
    })?;
    Ok(())
}

/// The meetings at the addresses at which the files may differ, in the order of addresses.
fn meetings(
    alloc: Global,
    both: &FilePair<'_>,
    doubts: &StepMap<bool>,
) -> Result<Vec<Meeting>, OutOfMemory> {
    let mut meetings = Vec::new(alloc);
    let mut address = 0;
    'runs: loop {
        let mine = both.own().run_at(Half::Names, address);
        let theirs = both.other().run_at(Half::Names, address);
        if doubts.at(false, address) {
            push_meeting(&mut meetings, mine.place, theirs.place)?;
        }
        match nearer(mine.end, theirs.end) {
            None => return Ok(meetings),
            Some(end) => address = end,
        }
    }
}

/// Each pair of functions once, given the meetings in the order of their functions.
fn distinct(alloc: Global, meetings: &[Meeting]) -> Result<Vec<Meeting>, OutOfMemory> {
    let mut distinct = Vec::new(alloc);
    'meetings: for at in 0..meetings.len() {
        if at > 0 && meetings[at - 1].key == meetings[at].key {
            continue;
        }
        distinct.push(meetings[at])?;
    }
    Ok(distinct)
}

/// Whether two functions have many levels.
fn have_many(both: &FilePair<'_>, met: &Meeting) -> bool {
    has_many(both.own(), met.own) && has_many(both.other(), met.other)
}

/// Adds whether two functions have one name, if both names are long or both functions have many levels.
fn push_pair(
    pairs: &mut Vec<FuncPair>,
    both: &FilePair<'_>,
    met: Meeting,
) -> Result<(), OutOfMemory>
    requires { AreFuncPairs both.now.own both.now.other pairs.old.items }
    ensures { OnOk result (AreFuncPairs both.now.own both.now.other pairs.new.items) }
{
    let name = func_name_at(both.own().lines(), met.own);
    let called = func_name_at(both.other().lines(), met.other);
    if !have_many(both, &met) && (name.len() <= SHORT || called.len() <= SHORT) {
        return Ok(());
    }
    let same_name = name == called;
    pairs.push(FuncPair { met, same_name })?;
    Ok(())
}

/// Which functions that meet have one name, in their order.
fn func_pairs(
    alloc: Global,
    both: &FilePair<'_>,
    met: &[Meeting],
) -> Result<Vec<FuncPair>, OutOfMemory>
    ensures { IfOk result (λ pairs. AreFuncPairs both.now.own both.now.other pairs.items) }
{
    let mut pairs = Vec::new(alloc);
    'meetings: for at in 0..met.len() {
        push_pair(&mut pairs, both, met[at])?;
    }
    Ok(pairs)
}

/// The places of the functions with many levels that meet others with many levels, in their order.
fn many_in(
    alloc: Global,
    both: &FilePair<'_>,
    met: &[Meeting],
) -> Result<(Vec<usize>, Vec<usize>), OutOfMemory> {
    let mut own = Vec::new(alloc);
    let mut other = Vec::new(alloc);
    'meetings: for at in 0..met.len() {
        if have_many(both, &met[at]) {
            own.push(met[at].own)?;
            other.push(met[at].other)?;
        }
    }
    own.sort_unstable();
    other.sort_unstable();
    Ok((own, other))
}

/// The chains of functions of both files, whose places are given, numbered by the same entries.
fn numbered(
    alloc: Global,
    both: &FilePair<'_>,
    mine: &[usize],
    theirs: &[usize],
) -> Result<(Vec<FuncChains>, Vec<FuncChains>), OutOfMemory>
    ensures { IfOk result (λ chains. AreNumbered both.now.own both.now.other chains.0.items chains.1.items) }
{
    let paths = both.aliases(alloc, Numbered::Files)?;
    let origins = both.aliases(alloc, Numbered::Origins)?;
    let mut numbers = no_numbers(alloc);
    let calls = Calls::of(both.own(), both.own(), paths.mine, origins.mine);
    let own = func_chains(alloc, &calls, &mut numbers, mine)?;
    let others = Calls::of(both.own(), both.other(), paths.theirs, origins.theirs);
    let other = func_chains(alloc, &others, &mut numbers, theirs)?;
    Ok((own, other))
}

/// What is known if no functions meet.
pub(crate) fn no_meetings(alloc: Global) -> FuncMeetings
    ensures { (own other : List SymLine) → AreFuncMeetings own other result }
{
    FuncMeetings {
        pairs: Vec::new(alloc),
        own: Vec::new(alloc),
        other: Vec::new(alloc),
    }
}

/// What is known of functions that meet.
pub(crate) fn func_meetings(
    alloc: Global,
    both: &FilePair<'_>,
    doubts: &StepMap<bool>,
) -> Result<FuncMeetings, OutOfMemory>
    ensures { IfOk result (λ met. AreFuncMeetings both.now.own both.now.other met) }
{
    let mut met = meetings(alloc, both, doubts)?;
    met.sort_unstable_by_key(|meeting| meeting.key);
    let met = distinct(alloc, met.as_slice())?;
    let pairs = func_pairs(alloc, both, met.as_slice())?;
    let (mine, theirs) = many_in(alloc, both, met.as_slice())?;
    if mine.is_empty() {
        return Ok(FuncMeetings {
            pairs,
            own: Vec::new(alloc),
            other: Vec::new(alloc),
        });
    }
    let (own, other) = numbered(alloc, both, mine.as_slice(), theirs.as_slice())?;
    Ok(FuncMeetings { pairs, own, other })
}

/// Whether two functions have one name, if that is known.
pub(crate) fn pair_of(pairs: &[FuncPair], own: usize, other: usize) -> Option<&FuncPair>
    ensures own { IfSome result (λ pair. pair.now.met.own ≡ own) }
    ensures other { IfSome result (λ pair. pair.now.met.other ≡ other) }
    ensures is { IfSome result (λ pair. (mine theirs : List SymLine) → AreFuncPairs mine theirs pairs.now → IsFuncPair mine theirs pair.now) }
{
    let key = key_of(own, other);
    let at = pairs.partition_point(|pair| pair.met.key < key);
    if at >= pairs.len() {
        return None;
    }
    let pair = &pairs[at];
    if pair.met.own != own || pair.met.other != other {
        return None;
    }
    Some(pair)
}
