//! The names under which a folder has the symbol files of modules.
ghost use Rattle.std.specs.Prelude.{◌≡◌, map, IfOk};
ghost use Rattle.module_stacks.specs.Symbols.{path_by, name_by, name_of};

use core_file::Module;
use debug_pair::{build_identity, make_id, symbol_path};
use std::alloc::Global;
use std::str;
use sym_edges::{ByteRun, NameText, OutOfMemory};

/// The path of a module's symbol file, if the module's name is UTF-8, and the id in that file's MODULE.
#[derive(Debug, Drop)]
pub struct SymbolName {
    pub path: Option<NameText>,
    pub id: ByteRun,
}

fn path_by(
    alloc: Global,
    folder: &str,
    name: &[u8],
    identity: [u8; 16],
) -> Result<Option<NameText>, OutOfMemory>
    ensures { IfOk result (λ path. path ≡ path_by folder.now name.now identity) }
{
    match str::from_utf8(name) {
        Ok(text) => Ok(Some(NameText::of(symbol_path(alloc, folder, text, identity)?))),
        Err(_) => Ok(None),
    }
}

fn name_by(
    alloc: Global,
    folder: &str,
    name: &[u8],
    build_id: &[u8],
) -> Result<SymbolName, OutOfMemory>
    ensures { IfOk result (λ name_is. name_is ≡ name_by folder.now name.now build_id.now) }
{
    let identity = build_identity(build_id);
    let id = make_id(alloc, identity)?;
    let path = path_by(alloc, folder, name, identity)?;
    Ok(SymbolName {
        path,
        id: ByteRun::of(id),
    })
}

#[tactic(auto, unfolding(crate::specs::Symbols::name_of))]
fn name_of(alloc: Global, folder: &str, m: &Module) -> Result<Option<SymbolName>, OutOfMemory>
    ensures { IfOk result (λ name. name ≡ name_of folder.now m.now) }
{
    match &m.build_id {
        None => Ok(None),
        Some(id) => Ok(Some(name_by(alloc, folder, m.name.as_slice(), id.as_slice())?)),
    }
}

/// The names of all modules.
pub(crate) fn names_of(
    alloc: Global,
    folder: &str,
    modules: &[Module],
) -> Result<Vec<Option<SymbolName>>, OutOfMemory>
    ensures { IfOk result (λ names. names.items ≡ map (name_of folder.now) modules.now) }
{
    let mut names = Vec::new(alloc);
    'modules: for module in modules {
        names.push(name_of(alloc, folder, module)?)?;
    }
    Ok(names)
}
