//! Bytes in blocks, of which those that are all zeros are not kept in memory.
ghost use Rattle.std.specs.Prelude.{◌≡◌, ℕ, ◌+◌, ◌*◌, ◌^◌, ◌<◌, ◌≤◌, ◌++◌, ◌∷◌, ◌==◌, [], true, false, length, slice_index, IfOk, OnOk, OnErr, MatchOption};
ghost use Rattle.std.specs.List.{list_all};
ghost use Rattle.sym_edges.specs.Outside.{MatchStop};
ghost use Rattle.core_file.specs.HeldBlocks.{has_some, held_blocks, is_past};
ghost use Rattle.core_file.specs.internal.Joined.{joined, block_of, AreInside, all_bytes, IsKept, IsHeld, SameSizes};

use crate::fault::TooLong;
use sym_edges::{OutOfMemory, Stop};

/// Bytes to which more can be added at the end. Each complete block of `size` bytes is stored as a
/// number: 0 for a block of zeros, otherwise the number of a block in memory, counted from 1. After
/// the complete blocks come the bytes of a block that is not complete. There are at most `limit`
/// bytes, and at most `room` bytes in blocks in memory.
#[derive(Debug, Drop)]
pub struct Blocks {
    pub size: usize,
    pub limit: usize,
    pub room: usize,
    pub count: usize,
    pub places: Vec<u32>,
    pub held: Vec<u8>,
    pub tail: Vec<u8>,
}

/// The byte at a place, given the numbers of the blocks, the blocks in memory, and the bytes after
/// the blocks.
#[tactic(auto, using(crate::proofs::JoinedLemmas::byte_of_zeros, crate::proofs::JoinedLemmas::byte_of_block, crate::proofs::JoinedLemmas::byte_behind, crate::proofs::JoinedLemmas::place_in_block, crate::proofs::JoinedLemmas::block_before))]
pub fn byte_in(size: usize, places: &[u32], held: &[u8], tail: &[u8], at: usize) -> u8
    requires some { 0 < size }
    requires long { size * length places.now < 2 ^ 63 }
    requires fits { length held.now < 2 ^ 63 }
    requires inside { AreInside size (length held.now) places.now }
    requires within { at < length (joined size held.now places.now ++ tail.now) }
    ensures { result ≡ slice_index (joined size held.now places.now ++ tail.now) at }
{
    let full = size * places.len();
    if at >= full {
        return tail[at - full];
    }
    let place = places[at / size] as usize;
    if place == 0 {
        return 0;
    }
    held[size * (place - 1) + at % size]
}

/// Whether all bytes are zeros. The loop looks at all of them, since a loop without an early exit
/// can be vectorized.
fn are_zeros(bytes: &[u8]) -> bool
    ensures { result ≡ list_all (λ b. b == 0) bytes.now }
{
    let mut zeros = true;
    for at in 0..bytes.len() {
        zeros = zeros & (bytes[at] == 0);
    }
    zeros
}

/// Adds a block of zeros.
fn keep_zeros(blocks: &mut Blocks) -> Result<(), OutOfMemory>
    ensures sizes { SameSizes blocks.old blocks.new }
    ensures count { blocks.new.count ≡ blocks.old.count }
    ensures held { blocks.new.held.items ≡ blocks.old.held.items }
    ensures tail { blocks.new.tail.items ≡ blocks.old.tail.items }
    ensures kept { OnOk result (blocks.new.places.items ≡ blocks.old.places.items ++ 0 ∷ []) }
    ensures same { OnErr result (blocks.new.places.items ≡ blocks.old.places.items) }
{
    match blocks.places.push(0) {
        Ok(()) => Ok(()),
        Err(_) => Err(OutOfMemory),
    }
}

/// Adds a block in memory.
fn keep_block(blocks: &mut Blocks) -> Result<(), OutOfMemory>
    requires { blocks.old.count < 2 ^ 31 }
    ensures sizes { SameSizes blocks.old blocks.new }
    ensures tail { blocks.new.tail.items ≡ blocks.old.tail.items }
    ensures kept { OnOk result (blocks.new.places.items ≡ blocks.old.places.items ++ (blocks.old.count + 1) ∷ []) }
    ensures held { OnOk result (blocks.new.held.items ≡ blocks.old.held.items ++ blocks.old.tail.items) }
    ensures count { OnOk result (blocks.new.count ≡ blocks.old.count + 1) }
    ensures same_places { OnErr result (blocks.new.places.items ≡ blocks.old.places.items) }
    ensures same_held { OnErr result (blocks.new.held.items ≡ blocks.old.held.items) }
    ensures same_count { OnErr result (blocks.new.count ≡ blocks.old.count) }
{
    let place = blocks.count + 1;
    match blocks.places.push(place as u32) {
        Ok(()) => {}
        Err(_) => return Err(OutOfMemory),
    }
    match blocks.held.extend_from_slice(blocks.tail.as_slice()) {
        Ok(()) => {
            blocks.count = place;
            Ok(())
        }
        Err(_) => {
            blocks.places.pop();
            Err(OutOfMemory)
        }
    }
}

/// Adds a full block.
#[tactic(auto, using(crate::proofs::KeepLemmas::joined_kept, crate::proofs::KeepLemmas::kept_same))]
fn keep(blocks: &mut Blocks) -> Result<(), Stop<TooLong>>
    requires kept { IsKept blocks.old }
    requires full { length blocks.old.tail.items ≡ blocks.old.size }
    ensures sizes { SameSizes blocks.old blocks.new }
    ensures kept { IsKept blocks.new }
    ensures tail { blocks.new.tail.items ≡ blocks.old.tail.items }
    ensures joined { MatchStop result
        (λ _. joined blocks.new.size blocks.new.held.items blocks.new.places.items ≡ joined blocks.old.size blocks.old.held.items blocks.old.places.items ++ blocks.old.tail.items)
        (λ _. blocks.old.room < blocks.old.size * held_blocks blocks.old.size (all_bytes blocks.old)) (Unit {0}) }
    ensures unkept { OnErr result (joined blocks.new.size blocks.new.held.items blocks.new.places.items ≡ joined blocks.old.size blocks.old.held.items blocks.old.places.items) }
{
    if are_zeros(blocks.tail.as_slice()) {
        keep_zeros(blocks)?;
        return Ok(());
    }
    if blocks.room - blocks.held.len() < blocks.size {
        return Err(Stop::Fault(TooLong));
    }
    keep_block(blocks)?;
    Ok(())
}

/// Ends a full block. If there is no room for it, the bytes after the blocks are dropped.
#[tactic(auto, using(crate::proofs::KeepLemmas::bytes_ended, crate::proofs::KeepLemmas::bytes_dropped))]
fn end_block(blocks: &mut Blocks) -> Result<(), Stop<TooLong>>
    requires held { IsHeld blocks.old }
    requires full { length blocks.old.tail.items ≡ blocks.old.size }
    ensures sizes { SameSizes blocks.old blocks.new }
    ensures kept { IsKept blocks.new }
    ensures empty { blocks.new.tail.items ≡ [] }
    ensures ended { MatchStop result (λ _. all_bytes blocks.new ≡ all_bytes blocks.old)
        (λ _. blocks.old.room < blocks.old.size * held_blocks blocks.old.size (all_bytes blocks.old)) (Unit {0}) }
    ensures dropped { OnErr result (length (all_bytes blocks.new) ≤ length (all_bytes blocks.old)) }
{
    let ended = keep(blocks);
    blocks.tail.clear();
    ended
}

/// Adds as many of the bytes as the last block needs, and returns the others.
fn add_front<'p>(blocks: &mut Blocks, bytes: &'p [u8]) -> Result<&'p [u8], Stop<TooLong>>
    requires held { IsHeld blocks.old }
    requires short { length blocks.old.tail.items < blocks.old.size }
    requires some { 0 < length bytes.now }
    requires fits { length (all_bytes blocks.old) + length bytes.now ≤ blocks.old.limit }
    ensures sizes { SameSizes blocks.old blocks.new }
    ensures held { IsHeld blocks.new }
    ensures short { length blocks.new.tail.items < blocks.new.size }
    ensures added { MatchStop result
        (λ rest. (all_bytes blocks.new ++ rest.now ≡ all_bytes blocks.old ++ bytes.now) × (length rest.now < length bytes.now))
        (λ _. is_past blocks.old.size blocks.old.limit blocks.old.room (all_bytes blocks.old ++ bytes.now) ≡ true) (Unit {0}) }
{
    let wanted = blocks.size - blocks.tail.len();
    let (front, rest) = bytes.split_at(wanted.min(bytes.len()));
    blocks.tail.extend_from_slice(front)?;
    if blocks.tail.len() == blocks.size {
        match end_block(blocks) {
            Ok(()) => {}
            Err(stop) => return Err(stop),
        }
    }
    Ok(rest)
}

/// How many bytes there are.
#[tactic(auto, using(crate::proofs::KeepLemmas::length_all))]
pub fn count_bytes(blocks: &Blocks) -> usize
    requires { IsHeld blocks.now }
    ensures { result ≡ length (all_bytes blocks.now) }
{
    blocks.size * blocks.places.len() + blocks.tail.len()
}

/// Adds bytes at the end.
#[tactic(auto, using(crate::proofs::KeepLemmas::past_limit, crate::proofs::KeepLemmas::held_is_short))]
pub fn add(blocks: &mut Blocks, bytes: &[u8]) -> Result<(), Stop<TooLong>>
    requires held { IsHeld blocks.old }
    requires short { length blocks.old.tail.items < blocks.old.size }
    ensures sizes { SameSizes blocks.old blocks.new }
    ensures held { IsHeld blocks.new }
    ensures short { length blocks.new.tail.items < blocks.new.size }
    ensures added { MatchStop result
        (λ _. (all_bytes blocks.new ≡ all_bytes blocks.old ++ bytes.now) × (is_past blocks.old.size blocks.old.limit blocks.old.room (all_bytes blocks.old ++ bytes.now) ≡ false))
        (λ _. is_past blocks.old.size blocks.old.limit blocks.old.room (all_bytes blocks.old ++ bytes.now) ≡ true) (Unit {0}) }
{
    if bytes.len() > blocks.limit - count_bytes(blocks) {
        return Err(Stop::Fault(TooLong));
    }
    let mut rest = bytes;
    'fronts: while rest.len() > 0 {
        match add_front(blocks, rest) {
            Ok(later) => rest = later,
            Err(stop) => return Err(stop),
        }
    }
    Ok(())
}
