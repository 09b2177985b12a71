//! The path of the symbol file of a module in a store.
ghost use Rattle.std.specs.Prelude.{◌≡◌, ◌++◌, IfOk, codes};
ghost use Rattle.std.specs.String.{string_bytes};
ghost use Rattle.debug_pair.specs.SymbolPath.{symbol_path};

use crate::identity::id_text;
use std::alloc::{AllocError, Global};
use sym_edges::OutOfMemory;

/// The path of a file in a store, given its parts.
#[tactic(auto, using(crate::proofs::PathLemmas::joined_eight))]
fn join_parts(alloc: Global, store: &str, name: &str, id: &str) -> Result<String, AllocError>
    ensures { IfOk result (λ path. string_bytes path
        ≡ store.now ++ codes "/" ++ name.now ++ codes "/" ++ id.now ++ codes "/" ++ name.now ++ codes ".sym") }
{
    let mut path = String::from_str(alloc, store)?;
    path.push_str("/")?;
    path.push_str(name)?;
    path.push_str("/")?;
    path.push_str(id)?;
    path.push_str("/")?;
    path.push_str(name)?;
    path.push_str(".sym")?;
    Ok(path)
}

/// The path of the symbol file of a module in a store, given the module's name and its identity: `STORE/NAME/ID/NAME.sym`, with the ID of MODULE.
#[tactic(auto, unfolding(crate::specs::SymbolPath::symbol_path))]
pub fn symbol_path(
    alloc: Global,
    store: &str,
    name: &str,
    identity: [u8; 16],
) -> Result<String, OutOfMemory>
    ensures { IfOk result (λ path. string_bytes path ≡ symbol_path store.now name.now identity) }
{
    let id = id_text(alloc, identity)?;
    Ok(join_parts(alloc, store, name, id.as_str())?)
}
