//! The path of a debug file below a root directory, given the build id.
ghost use Rattle.std.specs.Prelude.{◌≡◌, ◌++◌, Some, None, IfOk, codes};
ghost use Rattle.std.specs.String.{string_bytes};
ghost use Rattle.hex.specs.Hex.{encode_lower};
ghost use Rattle.sym_edges.specs.Outside.{MatchStop};
ghost use Rattle.debug_pair.specs.DebugPath.{debug_path};

use crate::fault::ShortId;
use std::alloc::{AllocError, Global};
use sym_edges::Stop;

/// The path of a file below a root, given the first byte and the other bytes of a build id.
#[tactic(auto, using(crate::proofs::PathLemmas::joined))]
fn join_path(alloc: Global, root: &str, first: &[u8], rest: &[u8]) -> Result<String, AllocError>
    ensures { IfOk result (λ path. string_bytes path
        ≡ root.now ++ codes "/.build-id/" ++ encode_lower first.now ++ codes "/" ++ encode_lower rest.now ++ codes ".debug") }
{
    let mut path = String::from_str(alloc, root)?;
    path.push_str("/.build-id/")?;
    path.push_str(hex::encode(alloc, first)?.as_str())?;
    path.push_str("/")?;
    path.push_str(hex::encode(alloc, rest)?.as_str())?;
    path.push_str(".debug")?;
    Ok(path)
}

/// The path of the debug file of a build below a root: `ROOT/.build-id/ab/cdef.debug`.
#[tactic(auto, using(crate::proofs::PathLemmas::long_id, crate::proofs::PathLemmas::short_id))]
pub fn debug_path(alloc: Global, root: &str, id: &[u8]) -> Result<String, Stop<ShortId>>
    ensures exact { MatchStop result
        (λ path. debug_path root.now id.now ≡ Some (string_bytes path)) (λ fault. debug_path root.now id.now ≡ None) (Unit {0}) }
{
    if id.len() < 2 {
        return Err(Stop::Fault(ShortId));
    }
    let (first, rest) = id.split_at(1);
    Ok(join_path(alloc, root, first, rest)?)
}
