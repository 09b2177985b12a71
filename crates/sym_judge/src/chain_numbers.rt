//! Numbers of chains of calls: chains with one number are the same, whichever file they are from.
ghost use Rattle.std.specs.Prelude.{◌≡◌, [], Some, slice_get, IfOk, OnOk, IfSome};
ghost use Rattle.std.specs.Bool.{OnTrue};
ghost use Rattle.sym_judge.specs.declared.chain_numbers.Entry.TheVariants.{Call, Joined};
ghost use Rattle.sym_judge.specs.internal.Chains.{Keeps};

use crate::names::CallSpot;
use std::alloc::Global;
use std::collections::BTreeMap;
use sym_edges::OutOfMemory;

/// The chain of a number: one call, given by the numbers of the first file, or the chains of two numbers, one after the other.
#[derive(Clone, Copy)]
pub enum Entry {
    Call(CallSpot),
    Joined(u32, u32),
}

/// What each number stands for, and the numbers of the calls and of the pairs of chains so far.
#[derive(Drop)]
pub(crate) struct Numbers {
    entries: Vec<Entry>,
    calls: BTreeMap<(u32, Option<u32>, Option<u32>), u32>,
    joined: BTreeMap<(u32, u32), u32>,
}

/// Numbers of chains, of which none is given yet.
pub(crate) fn no_numbers(alloc: Global) -> Numbers {
    Numbers {
        entries: Vec::new(alloc),
        calls: BTreeMap::new(alloc),
        joined: BTreeMap::new(alloc),
    }
}

/// Whether two optional numbers are the same.
fn is_same_number(a: Option<u32>, b: Option<u32>) -> bool
    ensures { OnTrue result (a ≡ b) }
{
    match (a, b) {
        (None, None) => true,
        (Some(a), Some(b)) => a == b,
        _ => false,
    }
}

/// Whether two calls are given by the same numbers.
fn is_same_spot(a: CallSpot, b: CallSpot) -> bool
    ensures { OnTrue result (a ≡ b) }
{
    a.spot.line == b.spot.line
        && is_same_number(a.spot.file, b.spot.file)
        && is_same_number(a.origin, b.origin)
}

/// Whether a number stands for a call.
fn is_of_call(entries: &[Entry], number: u32, call: CallSpot) -> bool
    ensures { OnTrue result (slice_get entries.now number ≡ Some (Call call)) }
{
    match entries.get(number as usize) {
        Some(Entry::Call(known)) => is_same_spot(*known, call),
        _ => false,
    }
}

/// Whether a number stands for two given chains, one after the other.
fn is_of_joined(entries: &[Entry], number: u32, front: u32, back: u32) -> bool
    ensures { OnTrue result (slice_get entries.now number ≡ Some (Joined front back)) }
{
    match entries.get(number as usize) {
        Some(Entry::Joined(known, other)) => *known == front && *other == back,
        _ => false,
    }
}

/// A new number, if there is one below 2^32.
fn push_entry(entries: &mut Vec<Entry>, entry: Entry) -> Result<Option<u32>, OutOfMemory>
    ensures keeps { OnOk result (Keeps entries.old.items entries.new.items) }
    ensures number { IfOk result (λ number. IfSome number (λ n. slice_get entries.new.items n ≡ Some entry)) }
{
    let count = entries.len();
    if count > 0xffff_ffff {
        return Ok(None);
    }
    entries.push(entry)?;
    Ok(Some(count as u32))
}

/// The number of a call.
pub(crate) fn call_number(numbers: &mut Numbers, call: CallSpot) -> Result<Option<u32>, OutOfMemory>
    ensures keeps { OnOk result (Keeps numbers.old.entries.items numbers.new.entries.items) }
    ensures number { IfOk result (λ number. IfSome number (λ n. slice_get numbers.new.entries.items n ≡ Some (Call call))) }
{
    let key = (call.spot.line, call.spot.file, call.origin);
    if let Some(number) = numbers.calls.get(&key).copied() {
        if is_of_call(numbers.entries.as_slice(), number, call) {
            return Ok(Some(number));
        }
    }
    let Some(number) = push_entry(&mut numbers.entries, Entry::Call(call))? else {
        return Ok(None);
    };
    numbers.calls.insert(key, number)?;
    Ok(Some(number))
}

/// The number of the chain that consists of two chains, one after the other.
pub(crate) fn joined_number(
    numbers: &mut Numbers,
    front: u32,
    back: u32,
) -> Result<Option<u32>, OutOfMemory>
    ensures keeps { OnOk result (Keeps numbers.old.entries.items numbers.new.entries.items) }
    ensures number { IfOk result (λ number. IfSome number (λ n. slice_get numbers.new.entries.items n ≡ Some (Joined front back))) }
{
    let key = (front, back);
    if let Some(number) = numbers.joined.get(&key).copied() {
        if is_of_joined(numbers.entries.as_slice(), number, front, back) {
            return Ok(Some(number));
        }
    }
    let Some(number) = push_entry(&mut numbers.entries, Entry::Joined(front, back))? else {
        return Ok(None);
    };
    numbers.joined.insert(key, number)?;
    Ok(Some(number))
}
