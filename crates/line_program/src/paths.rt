//! The paths of a table's files (DWARF 5, 6.2.4).
ghost use Rattle.std.specs.Prelude.{◌≡◌, ◌==◌, ◌-◌, ◌<◌, ◌++◌, ◌∷◌, [], map, length, slice_get, slice_index, Some, IfOk, OnOk};
ghost use Rattle.clean_names.specs.Cleaning.{cleaned};
ghost use Rattle.line_program.specs.Paths.{joined, root_of, directories_of, path_under, file_path, is_rooted, ends_in_slash};

use crate::file_entry::FileEntry;
use clean_names::{add_cleaned, is_clean};
use std::alloc::Global;
use std::marker::Model;
use sym_edges::OutOfMemory;

/// Texts whose memory is reused for each path that is made: the first directory, the path of the
/// file's directory, the joined path, and the cleaned path.
#[derive(Drop)]
pub struct PathTexts {
    root: Vec<u8>,
    directory: Vec<u8>,
    path: Vec<u8>,
    cleaned: Vec<u8>,
}

impl PathTexts {
    /// Empty texts. Allocates no memory.
    pub fn new(alloc: Global) -> PathTexts {
        PathTexts {
            root: Vec::new(alloc),
            directory: Vec::new(alloc),
            path: Vec::new(alloc),
            cleaned: Vec::new(alloc),
        }
    }
}

/// The texts of two paths that are compared.
#[derive(Drop)]
pub struct PathPair {
    pub(crate) one: PathTexts,
    pub(crate) other: PathTexts,
}

impl PathPair {
    /// Empty texts. Allocates no memory.
    pub fn new(alloc: Global) -> PathPair {
        PathPair {
            one: PathTexts::new(alloc),
            other: PathTexts::new(alloc),
        }
    }
}

/// The directories of a table, from number 0 on: the first one (`root`), and the entries that are
/// relative to it.
#[derive(Drop)]
pub struct Directories<'t, 'a> {
    some: bool,
    root: &'t [u8],
    entries: &'t [FileEntry<'a>],
}

impl<'t, 'a> Model for Directories<'t, 'a> {
    ghost use Rattle.std.specs.Prelude.{List, ℕ};
    ghost use Rattle.line_program.specs.internal.Directories.{directories_in};

    ghost Value = { List (List ℕ) };

    ghost view = { λ d. directories_in d.some d.root.now d.entries.now };
}

fn is_rooted(path: &[u8]) -> bool
    ensures { result ≡ is_rooted path.now }
{
    match path.first() {
        Some(byte) => *byte == b'/',
        None => false,
    }
}

fn ends_in_slash(directory: &[u8]) -> bool
    ensures { result ≡ ends_in_slash directory.now }
{
    match directory.last() {
        Some(byte) => *byte == b'/',
        None => false,
    }
}

/// Replaces a text by `bytes`.
fn put_text(text: &mut Vec<u8>, bytes: &[u8]) -> Result<(), OutOfMemory>
    ensures { OnOk result (text.new.items ≡ bytes.now) }
{
    text.clear();
    text.extend_from_slice(bytes)?;
    Ok(())
}

/// Replaces a text by a path in a directory.
#[tactic(auto, unfolding(crate::specs::Paths::joined))]
fn put_joined(text: &mut Vec<u8>, directory: &[u8], path: &[u8]) -> Result<(), OutOfMemory>
    ensures { OnOk result (text.new.items ≡ joined directory.now path.now) }
{
    if directory.is_empty() || is_rooted(path) {
        put_text(text, path)?;
        return Ok(());
    }
    put_text(text, directory)?;
    if path.is_empty() {
        return Ok(());
    }
    if ends_in_slash(directory) {
        text.extend_from_slice(path)?;
        return Ok(());
    }
    text.push(b'/')?;
    text.extend_from_slice(path)?;
    Ok(())
}

/// Directory 0 of version 5. If it must be joined, the joined path is stored in `text`.
#[tactic(auto, unfolding(crate::specs::Paths::root_of))]
fn root_of<'t>(
    text: &'t mut Vec<u8>,
    comp_dir: &[u8],
    path: &'t [u8],
) -> Result<&'t [u8], OutOfMemory>
    ensures { IfOk result (λ root. root.now ≡ root_of comp_dir.now path.now) }
{
    if path == comp_dir {
        return Ok(path);
    }
    put_joined(text, comp_dir, path)?;
    Ok(text.as_slice())
}

/// The cleaned path. If it is not clean, it is cleaned in `text`.
fn cleaned_path<'t>(text: &'t mut Vec<u8>, path: &'t [u8]) -> Result<&'t [u8], OutOfMemory>
    ensures { IfOk result (λ shown. shown.now ≡ cleaned path.now) }
{
    if is_clean(path) {
        return Ok(path);
    }
    text.clear();
    add_cleaned(text, path)?;
    Ok(text.as_slice())
}

impl<'t, 'a> Directories<'t, 'a> {
    /// The directories of a table, given the unit's compilation directory. If the first one must be
    /// joined, the joined path is stored in `text`.
    #[tactic(auto, unfolding(crate::specs::Paths::directories_of))]
    pub fn of(
        text: &'t mut Vec<u8>,
        version: u16,
        comp_dir: &'t [u8],
        entries: &'t [FileEntry<'a>],
    ) -> Result<Directories<'t, 'a>, OutOfMemory>
        ensures { IfOk result (λ directories. directories ≡ directories_of version comp_dir.now entries.now) }
    {
        if version != 5 {
            return Ok(Directories {
                some: true,
                root: comp_dir,
                entries,
            });
        }
        match entries.split_first() {
            Some((first, rest)) => {
                let root = root_of(text, comp_dir, first.path)?;
                Ok(Directories {
                    some: true,
                    root,
                    entries: rest,
                })
            }
            None => Ok(Directories {
                some: false,
                root: comp_dir,
                entries,
            }),
        }
    }

    /// Replaces a text by the path of a file. The path of its directory is stored in `directory`.
    #[tactic(auto, using(crate::proofs::PathLemmas::none_there, crate::proofs::PathLemmas::root_there, crate::proofs::PathLemmas::entry_there, crate::proofs::PathLemmas::entry_missing))]
    fn put_path(
        &self,
        directory: &mut Vec<u8>,
        text: &mut Vec<u8>,
        file: &FileEntry<'_>,
    ) -> Result<(), OutOfMemory>
        ensures { OnOk result (text.new.items ≡ path_under (slice_get self.now file.now.directory) file.now.path) }
    {
        if !self.some {
            put_text(text, file.path)?;
            return Ok(());
        }
        if file.directory == 0 {
            put_joined(text, self.root, file.path)?;
            return Ok(());
        }
        match self.entries.get((file.directory - 1) as usize) {
            Some(entry) => {
                put_joined(directory, self.root, entry.path)?;
                put_joined(text, directory.as_slice(), file.path)?;
                Ok(())
            }
            None => {
                put_text(text, file.path)?;
                Ok(())
            }
        }
    }
}

/// The files of a table: its entries, the compilation directory of the unit, and the version.
#[derive(Drop)]
pub(crate) struct Files<'a> {
    version: u16,
    comp_dir: &'a [u8],
    directories: Vec<FileEntry<'a>>,
    entries: Vec<FileEntry<'a>>,
}

impl<'a> Model for Files<'a> {
    ghost use Rattle.std.specs.Prelude.{List, ℕ, map};
    ghost use Rattle.line_program.specs.Paths.{directories_of, file_path};

    ghost Value = { List (List ℕ) };

    ghost view = { λ f. map (file_path (directories_of f.version f.comp_dir.now f.directories.items)) f.entries.items };
}

impl<'a> Files<'a> {
    /// No files. Allocates no memory.
    pub fn none(alloc: Global) -> Files<'a>
        ensures { result ≡ [] }
    {
        Files {
            version: 0,
            comp_dir: &[],
            directories: Vec::new(alloc),
            entries: Vec::new(alloc),
        }
    }

    /// The files of a table, without spare room.
    pub fn of(
        version: u16,
        comp_dir: &'a [u8],
        mut directories: Vec<FileEntry<'a>>,
        mut entries: Vec<FileEntry<'a>>,
    ) -> Files<'a>
        ensures { result ≡ map (file_path (directories_of version comp_dir.now directories.entry.items)) entries.entry.items }
    {
        directories.shrink_to_fit();
        entries.shrink_to_fit();
        Files {
            version,
            comp_dir,
            directories,
            entries,
        }
    }

    /// The number of files.
    pub fn len(&self) -> usize
        ensures { result ≡ length self.now }
    {
        self.entries.len()
    }

    /// The cleaned path of a file, by its place. It is in `texts` or in the file that is read.
    #[tactic(auto, unfolding(crate::specs::Paths::file_path))]
    pub fn path<'t>(
        &'t self,
        place: usize,
        texts: &'t mut PathTexts,
    ) -> Result<&'t [u8], OutOfMemory>
        requires { place < length self.now }
        ensures { IfOk result (λ path. Some path.now ≡ slice_get self.now place) }
    {
        let comp_dir: &'t [u8] = self.comp_dir;
        let entries: &'t [FileEntry<'a>] = self.directories.as_slice();
        let directories = Directories::of(&mut texts.root, self.version, comp_dir, entries)?;
        directories.put_path(&mut texts.directory, &mut texts.path, &self.entries[place])?;
        let path = texts.path.as_slice();
        let shown = cleaned_path(&mut texts.cleaned, path)?;
        Ok(shown)
    }
}
