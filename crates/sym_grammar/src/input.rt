//! Reading a symbol file from a store.
ghost use Rattle.std.specs.Prelude.{◌≡◌, ℕ, ◌+◌, ◌^◌, ◌<◌, ◌≤◌, Ok, Err};
ghost use Rattle.sym_grammar.specs.Answer.{Reads};
ghost use Rattle.sym_grammar.specs.Input.{SymRead, IsSteadyRead, AsksName};
ghost use Rattle.sym_grammar.specs.internal.Fed.{SymRest, EndsAs, refused_stop};

use crate::reader::Reader;
use crate::refusal::{SymEnd, SymRefusal};
use std::alloc::Global;
use sym_edges::{Failed, Stop, Store};
use sym_records::SymFile;
use sym_rules::TextFault;

/// How many bytes are read from the store at once.
const PIECE: usize = 65536;

/// Why a reader stopped, as why the reading of a file stopped.
fn refused(stop: Stop<TextFault>) -> Stop<SymEnd>
    ensures { result ≡ refused_stop stop }
{
    match stop {
        Stop::Fault(fault) => Stop::Fault(SymEnd::Refused(SymRefusal::Text(fault))),
        Stop::NoMemory => Stop::NoMemory,
    }
}

/// The records of the text that was fed to a reader. The text is the whole file.
#[tactic(auto, using(crate::proofs::InputLemmas::ends_as))]
fn end(alloc: Global, reader: Reader) -> Result<SymFile, Stop<SymEnd>>
    ensures { EndsAs result reader }
{
    match reader.finish(alloc) {
        Ok(file) => Ok(file),
        Err(stop) => Err(refused(stop)),
    }
}

/// The records of the open file. Its remaining bytes are read `room` at a time.
#[tactic(auto, using(crate::proofs::InputLemmas::start_read, crate::proofs::InputLemmas::next_read, crate::proofs::InputLemmas::stopped_read, crate::proofs::InputLemmas::ended_read, crate::proofs::InputLemmas::longer_read, crate::proofs::InputLemmas::steady_read))]
fn read_rest<S: Store>(
    alloc: Global,
    store: &mut S,
    limit: usize,
    room: usize,
) -> Result<SymFile, Stop<SymEnd>>
    requires some { 0 < room }
    requires small { limit + room < 2 ^ 63 }
    ensures asked { S.asked store.new ≡ S.asked store.old }
    ensures files { S.files store.new ≡ S.files store.old }
    ensures faults { S.faults store.old ≤ S.faults store.new }
    ensures steady { IsSteadyRead result (S.faults store.old) (S.faults store.new) }
    ensures read { SymRest result (S.left store.old) limit (S.faults store.old) (S.faults store.new) }
{
    let mut reader = Reader::new(alloc);
    let mut buffer = vec![in alloc; 0; room]?;
    let piece = buffer.as_mut_slice();
    let mut count = 0;
    'pieces: while count <= limit {
        let read = match store.read(piece) {
            Ok(read) => read,
            Err(Failed) => return Err(Stop::Fault(SymEnd::Unread)),
        };
        if read == 0 {
            return end(alloc, reader);
        }
        let kept = read.min(limit - count);
        match reader.feed(alloc, piece.split_at(kept).0) {
            Ok(()) => {}
            Err(stop) => return Err(refused(stop)),
        }
        count += read;
    }
    Err(Stop::Fault(SymEnd::Refused(SymRefusal::TooLong)))
}

/// The records of the symbol file with this name, which may have at most `limit` bytes and is read in pieces. The store is asked only for this name,
/// and at most once.
///
/// If the result is `Unread`, the store's count of faults rose; with any other result the count is
/// unchanged. If the file has more than `limit` bytes, only the first `limit` are looked at. If
/// these decide a fault, the file is refused for it, otherwise for its length.
#[tactic(auto, using(crate::proofs::InputLemmas::opened_read, crate::proofs::InputLemmas::steady_behind))]
pub fn read_file<S: Store>(
    alloc: Global,
    store: &mut S,
    name: &str,
    limit: usize,
) -> Result<SymFile, Stop<SymEnd>>
    requires { limit < 2 ^ 62 }
    ensures asked { AsksName result (S.asked store.old) name.now (S.asked store.new) }
    ensures files { S.files store.new ≡ S.files store.old }
    ensures faults { S.faults store.old ≤ S.faults store.new }
    ensures steady { IsSteadyRead result (S.faults store.old) (S.faults store.new) }
    ensures read { SymRead result (S.files store.old) name.now limit (S.faults store.old) (S.faults store.new) }
{
    match store.open_file(name) {
        Ok(()) => read_rest(alloc, store, limit, PIECE),
        Err(Stop::Fault(Failed)) => Err(Stop::Fault(SymEnd::Unread)),
        Err(Stop::NoMemory) => Err(Stop::NoMemory),
    }
}
