//! The modules of a process, given its mapped files and their own headers in memory.
ghost use Rattle.std.specs.Prelude.{◌≡◌, ℕ, ◌<◌, ◌≤◌, ◌^◌, ◌+◌, ◌++◌, ◌∷◌, [], List, None, Some, length, map, IfOk, OnOk};
ghost use Rattle.core_file.specs.MappedFiles.{MappedFile};
ghost use Rattle.core_file.specs.LoadedImages.{image_end, image_base};
ghost use Rattle.core_file.specs.Modules.{end_behind, module_by, module_of, begins_module, modules_in};
ghost use Rattle.core_file.specs.internal.FilePlaces.{file_view, IsInside};
ghost use Rattle.core_file.specs.internal.ImageViews.{image_view};
ghost use Rattle.core_file.specs.internal.Listings.{IsListing};

use crate::byte_list::{copy, stands_at};
use crate::code::add_image;
use crate::files::FilePlace;
use crate::ids::image_id;
use crate::images::{Image, read_image};
use crate::memory::ProcessMemory;
use crate::names::module_name;
use crate::pages::add_pages;
use crate::part::FilePart;
use std::alloc::Global;
use std::collections::BTreeSet;
use step_maps::Stretch;
use sym_edges::{ByteRun, OutOfMemory};

/// A module: its addresses from `start` up to `end`, the address from which its own addresses count, its name, and its build id if it has one.
#[derive(Debug, Drop)]
pub struct Module {
    pub start: u64,
    pub end: u64,
    pub base: u64,
    pub name: ByteRun,
    pub build_id: Option<ByteRun>,
}

/// Where modules are read from: the memory of the process, and the note of its mapped files.
#[derive(Drop)]
pub struct Source<'s, 'a> {
    pub alloc: Global,
    pub memory: &'s ProcessMemory<'a>,
    pub note: &'s FilePart<'a>,
}

/// The modules so far, the pages at which their files were mapped from their first pages on, and the addresses of code.
#[derive(Drop)]
pub struct Listing {
    pub modules: Vec<Module>,
    pub pages: BTreeSet<u64>,
    pub code: Vec<Stretch>,
}

/// The end of a module without headers in memory, given the name of its file and the mappings after
/// its first one.
#[tactic(auto, using(crate::proofs::ModuleLemmas::end_more, crate::proofs::ModuleLemmas::end_other, crate::proofs::ModuleLemmas::end_begin, crate::proofs::ModuleLemmas::end_none))]
fn end_behind(note: &FilePart<'_>, files: &[FilePlace], text: &[u8], end: u64) -> u64
    requires { IsInside (length note.now) files.now }
    ensures { result ≡ end_behind text.now end (map (file_view note.now) files.now) }
{
    let mut last = end;
    let mut rest = files;
    'files: while let Some((file, later)) = rest.split_first() {
        if !stands_at(note, file.text, file.size, text) {
            return last;
        }
        if file.offset == 0 {
            return last;
        }
        last = file.end;
        rest = later;
    }
    last
}

/// A module without headers in memory.
fn plain_module(
    source: &Source<'_, '_>,
    file: &FilePlace,
    later: &[FilePlace],
) -> Result<Module, OutOfMemory>
    requires text { file.now.text + file.now.size ≤ length source.now.note.now }
    requires inside { IsInside (length source.now.note.now) later.now }
    ensures { IfOk result (λ m. m ≡ module_by source.now.memory.now (file_view source.now.note.now file.now) (map (file_view source.now.note.now) later.now) None) }
{
    let text = copy(source.alloc, source.note, file.text, file.size)?;
    let name = module_name(source.alloc, text.as_slice())?;
    Ok(Module {
        start: file.start,
        end: end_behind(source.note, later, text.as_slice(), file.end),
        base: file.start,
        name,
        build_id: None,
    })
}

/// A module by its headers in memory.
fn loaded_module(
    source: &Source<'_, '_>,
    file: &FilePlace,
    image: &Image,
) -> Result<Module, OutOfMemory>
    requires text { file.now.text + file.now.size ≤ length source.now.note.now }
    requires end { image_end file.now.start (image_view image.now) < 2 ^ 64 }
    requires base { image_base file.now.start (image_view image.now) < 2 ^ 64 }
    ensures { IfOk result (λ m. (later : List MappedFile) → m ≡ module_by source.now.memory.now (file_view source.now.note.now file.now) later (Some (image_view image.now))) }
{
    let text = copy(source.alloc, source.note, file.text, file.size)?;
    let name = module_name(source.alloc, text.as_slice())?;
    let build_id = image_id(source.alloc, source.memory, file.start, image)?;
    Ok(Module {
        start: file.start,
        end: image.end(file.start) as u64,
        base: image.base(file.start) as u64,
        name,
        build_id,
    })
}

/// Adds the module that begins with a mapping.
fn add_module(
    source: &Source<'_, '_>,
    file: &FilePlace,
    later: &[FilePlace],
    listing: &mut Listing,
) -> Result<(), OutOfMemory>
    requires text { file.now.text + file.now.size ≤ length source.now.note.now }
    requires inside { IsInside (length source.now.note.now) later.now }
    requires listing { IsListing source.now.memory.now listing.old }
    ensures added { OnOk result (listing.new.modules.items ≡ listing.old.modules.items ++ module_of source.now.memory.now (file_view source.now.note.now file.now) (map (file_view source.now.note.now) later.now) ∷ []) }
    ensures listing { OnOk result (IsListing source.now.memory.now listing.new) }
{
    match read_image(source.alloc, source.memory, file.start)? {
        None => {
            let module = plain_module(source, file, later)?;
            listing.modules.push(module)?;
        }
        Some(image) => {
            let module = loaded_module(source, file, &image)?;
            add_pages(&mut listing.pages, file.start, module.end, &image)?;
            add_image(&mut listing.code, file.start, &image)?;
            listing.modules.push(module)?;
        }
    }
    Ok(())
}

/// Whether a mapping begins a module.
#[tactic(auto, unfolding(crate::specs::Modules::begins_module))]
fn begins(source: &Source<'_, '_>, file: &FilePlace, listing: &Listing) -> bool
    requires { IsListing source.now.memory.now listing.now }
    ensures { result ≡ begins_module source.now.memory.now listing.now.modules.items (file_view source.now.note.now file.now) }
{
    file.offset == 0 && !listing.pages.contains(&file.start)
}

/// Adds the modules that begin with these mappings, until there are `limit` modules.
#[tactic(auto, using(crate::proofs::ModuleLemmas::listed_begin, crate::proofs::ModuleLemmas::listed_more, crate::proofs::ModuleLemmas::listed_other, crate::proofs::ModuleLemmas::listed_full, crate::proofs::ModuleLemmas::listed_end))]
pub fn list_modules(
    source: &Source<'_, '_>,
    files: &[FilePlace],
    limit: usize,
    listing: &mut Listing,
) -> Result<(), OutOfMemory>
    requires inside { IsInside (length source.now.note.now) files.now }
    requires listing { IsListing source.now.memory.now listing.old }
    requires none { listing.old.modules.items ≡ [] }
    ensures modules { OnOk result (listing.new.modules.items ≡ modules_in limit source.now.memory.now (map (file_view source.now.note.now) files.now)) }
    ensures listing { OnOk result (IsListing source.now.memory.now listing.new) }
{
    let mut rest = files;
    'files: while let Some((file, later)) = rest.split_first() {
        if listing.modules.len() >= limit {
            return Ok(());
        }
        if begins(source, file, listing) {
            add_module(source, file, later, listing)?;
        }
        rest = later;
    }
    Ok(())
}
