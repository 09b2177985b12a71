//! The name of a module, given the name of its file.
ghost use Rattle.std.specs.Prelude.{◌≡◌, IfOk};
ghost use Rattle.core_file.specs.Modules.{behind_slash, without_deleted, module_name};

use clean_names::clean;
use std::alloc::Global;
use sym_edges::{ByteRun, OutOfMemory};

/// What follows the last slash.
#[tactic(auto, using(crate::proofs::NameLemmas::slash_here, crate::proofs::NameLemmas::slash_none, crate::proofs::NameLemmas::slash_begin, crate::proofs::NameLemmas::slash_end))]
fn behind_slash(text: &[u8]) -> &[u8]
    ensures { result.now ≡ behind_slash text.now }
{
    let mut name = text;
    let mut rest = text;
    'bytes: while let Some((b, later)) = rest.split_first() {
        if *b == b'/' {
            name = later;
        }
        rest = later;
    }
    name
}

/// A name without the words of a deleted file.
#[tactic(auto, unfolding(crate::specs::Modules::without_deleted))]
fn without_deleted(name: &[u8]) -> &[u8]
    ensures { result.now ≡ without_deleted name.now }
{
    if name.len() < 10 {
        return name;
    }
    let (front, words) = name.split_at(name.len() - 10);
    if words == b" (deleted)".as_slice() {
        front
    } else {
        name
    }
}

#[tactic(auto, unfolding(crate::specs::Modules::module_name))]
pub fn module_name(alloc: Global, text: &[u8]) -> Result<ByteRun, OutOfMemory>
    ensures { IfOk result (λ name. name ≡ module_name text.now) }
{
    clean(alloc, without_deleted(behind_slash(text)))
}
