//! The records of functions (Breakpad's symbol_files.md): FILE, INLINE_ORIGIN, FUNC, INLINE and line records. They are spelled at the end of a text.
//!
//! [`add_functions`] goes over the pieces of functions twice, share by share. First it finds the inlined copies of each piece and keeps them. It also
//! gathers which entries name the inlined functions, and which paths line records and calls will name. The names and the paths of all shares are
//! sorted by their bytes and numbered. Then it spells the records of each piece, and makes the line runs of the piece on the
//! spot. Nothing is kept for a line record. `specs/FuncRecords.antt` defines these records. `specs/TextNames.antt` defines what a look-up names in a
//! text that has them: at each address the function that owns it, the calls that are inlined there, and its line in the file
//! (`laws::names_are_kept`). A checker finds nothing in such a text (`laws::records_have_no_findings`).
//!
//! The modules are best read in this order: `functions`; `shares`, `found`, `finder`;
//! `origin_refs`, `made_names`, `names`; `calls`, `path_list`, `line_paths`, `call_paths`, `paths`;
//! `text_ranks`, `numbers`, `path_numbers`; `text_numbers`, `inlines`, `parts`; `speller`.
#![tactic(auto)]

mod call_paths;
mod calls;
mod finder;
mod found;
mod functions;
mod inlines;
pub mod laws;
mod line_paths;
mod made_names;
mod names;
mod numbers;
mod origin_refs;
mod parts;
mod path_list;
mod path_numbers;
mod paths;
mod shares;
mod speller;
mod text_numbers;
mod text_ranks;
mod writer;

pub use functions::add_functions;
