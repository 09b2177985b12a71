//! Core files of a store.
ghost use Rattle.std.specs.Prelude.{◌≡◌, ◌<◌, ◌≤◌};
ghost use Rattle.sym_edges.specs.WholeFile.{AsksOnce, IsSteady};
ghost use Rattle.core_file.specs.StoredFile.{HeldRead};
ghost use Rattle.core_file.specs.internal.HeldRest.{HeldRest};

use crate::byte_list::ByteList;
use crate::fault::TooLong;
use crate::held::HeldBytes;
use std::alloc::Global;
use sym_edges::{Failed, ReadEnd, Stop, Store};

/// The bytes that are read at once.
const PIECE: usize = 65536;

/// The most bytes that a core file has: 2^40.
const LIMIT: usize = 0x100_0000_0000;

/// The bytes of the core file `name`, read in pieces. The store is asked for this name only, at most once.
///
/// If the result is `CantOpen` or `CantRead`, the store's count of faults rose; otherwise it did not change.
#[tactic(auto, using(crate::proofs::StoredLemmas::opened_held, crate::proofs::StoredLemmas::steady_behind))]
pub fn read_held<S: Store>(
    alloc: Global,
    store: &mut S,
    name: &str,
) -> Result<HeldBytes, Stop<ReadEnd>>
    ensures asked { AsksOnce result (S.asked store.old) name.now (S.asked store.new) }
    ensures files { S.files store.new ≡ S.files store.old }
    ensures faults { S.faults store.old ≤ S.faults store.new }
    ensures steady { IsSteady result (S.faults store.old) (S.faults store.new) }
    ensures read { HeldRead result (S.files store.old) name.now (S.faults store.old) (S.faults store.new) }
{
    match store.open_file(name) {
        Ok(()) => read_rest(alloc, store, PIECE),
        Err(Stop::Fault(Failed)) => Err(Stop::Fault(ReadEnd::CantOpen)),
        Err(Stop::NoMemory) => Err(Stop::NoMemory),
    }
}

/// What is left of the open file, read `room` bytes at a time.
fn read_rest<S: Store>(
    alloc: Global,
    store: &mut S,
    room: usize,
) -> Result<HeldBytes, Stop<ReadEnd>>
    requires { 0 < room }
    ensures asked { S.asked store.new ≡ S.asked store.old }
    ensures files { S.files store.new ≡ S.files store.old }
    ensures faults { S.faults store.old ≤ S.faults store.new }
    ensures steady { IsSteady result (S.faults store.old) (S.faults store.new) }
    ensures read { HeldRest result (S.left store.old) (S.faults store.old) (S.faults store.new) }
{
    let mut bytes = HeldBytes::new(alloc);
    let mut buffer = vec![in alloc; 0; room]?;
    let piece = buffer.as_mut_slice();
    'pieces: while bytes.len() <= LIMIT {
        let count = match store.read(piece) {
            Ok(count) => count,
            Err(Failed) => return Err(Stop::Fault(ReadEnd::CantRead)),
        };
        if count == 0 {
            return Ok(bytes);
        }
        match bytes.push(piece.split_at(count).0) {
            Ok(()) => {}
            Err(Stop::Fault(TooLong)) => return Err(Stop::Fault(ReadEnd::TooLong)),
            Err(Stop::NoMemory) => return Err(Stop::NoMemory),
        }
    }
    Err(Stop::Fault(ReadEnd::TooLong))
}
