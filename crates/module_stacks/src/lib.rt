//! The stacks of a process's threads, given its core file and the symbol files of its modules.
//!
//! A process is a core file and a folder with symbol files, each at `NAME/ID/NAME.sym`, with the
//! module's name and the ID of MODULE (`specs/Symbols.antt`, `specs/Stacks.antt`).
//! [`StackWalker::walk`] gives the stack of a thread as `stack_walk` defines it: with the memory of
//! the core and the records of the module that counts at an address. Frames of signals and calls to
//! nowhere are recognized.
//!
//! Symbol files are asked for one by one, when a step first lies in their module, and each name at
//! most once. A contract says that some files agree with what was found (`specs/SymbolFiles.antt`).
//! If the files of the store are known, these are the store's, without the names at which a call
//! failed. Each walk is the stack by `specs/Stacks.antt`, for all files that agree with what was
//! found.
//!
//! A reader begins with `specs/CoreRuns.antt`, `specs/ModuleAt.antt`, `specs/Symbols.antt` and
//! `specs/Stacks.antt`. Then come `core_memory`, `module_map`, `names`, `symbol_files` and
//! `walker`.
#![tactic(auto)]

mod core_memory;
mod lack;
mod module_map;
mod names;
mod symbol_files;
#[cfg(test)]
mod tests;
mod walker;

pub use core_memory::CoreMemory;
pub use lack::Lack;
pub use module_map::ModuleMap;
pub use symbol_files::{FoundFile, SymbolFiles, Table};
pub use walker::StackWalker;
