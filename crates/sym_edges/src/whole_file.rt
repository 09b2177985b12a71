//! Reading a whole file, up to a limit.
ghost use Rattle.std.specs.Prelude.{◌≡◌, ℕ, ◌≤◌, ◌<◌, List, [], ◌∷◌, ◌++◌, Option, length, IfOk, OnOk};
ghost use Rattle.sym_edges.specs.Outside.{MatchStop, Rose};
ghost use Rattle.sym_edges.specs.WholeFile.{AsksOnce, HoldsFile, IsSteady, ReadAll, ReadRest};

use crate::fault::{Failed, Stop};
use crate::list::ByteRun;
use crate::store::Store;
use std::alloc::{AllocError, Global};
use thiserror::Error;

/// Why a file could not be read whole.
#[derive(Clone, Copy, Debug, PartialEq, Eq, Error)]
pub enum ReadEnd {
    #[error("the file cannot be opened")]
    CantOpen,
    #[error("the file cannot be read")]
    CantRead,
    #[error("the file is too long")]
    TooLong,
}

/// The greatest length of a file that is dumped, and thus of each of its sections: 2^29 bytes.
pub const FILE_LIMIT: usize = 0x2000_0000;

/// How many bytes are read at once.
const PIECE: usize = 65536;

/// The whole file with this name, which has at most `limit` bytes. The store is asked for no other name, and for this one at most once.
///
/// After `CantOpen` and `CantRead` the store's count of faults has risen; after any other result it has not changed. Before `CantRead` the file was
/// opened. After `CantOpen`, what was left of an earlier file is still left. `TooLong` comes exactly if more than `limit` bytes were taken.
pub fn read_all<S: Store>(
    alloc: Global,
    store: &mut S,
    name: &str,
    limit: usize,
) -> Result<ByteRun, Stop<ReadEnd>>
    ensures asked { AsksOnce result (S.asked store.old) name.now (S.asked store.new) }
    ensures files { S.files store.new ≡ S.files store.old }
    ensures faults { S.faults store.old ≤ S.faults store.new }
    ensures steady { IsSteady result (S.faults store.old) (S.faults store.new) }
    ensures read { ReadAll result (S.files store.old) name.now limit (S.left store.old) (S.left store.new) (S.faults store.old) (S.faults store.new) }
{
    match store.open_file(name) {
        Ok(()) => read_rest(alloc, store, limit, PIECE),
        Err(Stop::Fault(Failed)) => Err(Stop::Fault(ReadEnd::CantOpen)),
        Err(Stop::NoMemory) => Err(Stop::NoMemory),
    }
}

/// Reads what is left of the open file, at most `room` bytes at a time.
#[tactic(auto, using(crate::proofs::ReadingLemmas::parted_more, crate::proofs::ReadingLemmas::parted_whole, crate::proofs::ReadingLemmas::parted_longer))]
fn read_rest<S: Store>(
    alloc: Global,
    store: &mut S,
    limit: usize,
    room: usize,
) -> Result<ByteRun, Stop<ReadEnd>>
    requires { 0 < room }
    ensures asked { S.asked store.new ≡ S.asked store.old }
    ensures files { S.files store.new ≡ S.files store.old }
    ensures faults { S.faults store.old ≤ S.faults store.new }
    ensures steady { IsSteady result (S.faults store.old) (S.faults store.new) }
    ensures read { ReadRest result (S.left store.old) (S.left store.new) limit (S.faults store.old) (S.faults store.new) }
{
    let mut bytes = Vec::new(alloc);
    let mut buffer = vec![in alloc; 0; room]?;
    let piece = buffer.as_mut_slice();
    'pieces: while bytes.len() <= limit {
        match store.read(piece) {
            Ok(0) => return Ok(ByteRun::of(bytes)),
            Ok(count) => match bytes.extend_from_slice(&piece[..count]) {
                Ok(()) => {}
                Err(_) => return Err(Stop::NoMemory),
            },
            Err(Failed) => return Err(Stop::Fault(ReadEnd::CantRead)),
        }
    }
    Err(Stop::Fault(ReadEnd::TooLong))
}
