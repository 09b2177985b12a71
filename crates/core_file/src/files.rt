//! The files that a process had mapped, by the note NT_FILE of its core file.
ghost use Rattle.std.specs.Prelude.{◌≡◌, ◌+◌, ◌≤◌, ◌==◌, not, length, map, drop, true, IfOk};
ghost use Rattle.std.specs.List.{prefix_len, All};
ghost use Rattle.core_file.specs.CoreNotes.{has_files};
ghost use Rattle.core_file.specs.MappedFiles.{files_of};
ghost use Rattle.core_file.specs.internal.FilePlaces.{file_view, IsInside};

use crate::byte_list::{ByteList, read_u64};
use crate::part::FilePart;
use std::alloc::Global;
use sym_edges::OutOfMemory;

/// A mapping: its addresses, its place in its file in pages, and where the note has the file's name.
#[derive(Clone, Copy, Debug)]
pub struct FilePlace {
    pub start: u64,
    pub end: u64,
    pub offset: u64,
    pub text: usize,
    pub size: usize,
}

/// How many bytes come before the next zero, or before the end.
#[tactic(auto, using(crate::proofs::FileLemmas::text_ends, crate::proofs::FileLemmas::text_more, crate::proofs::FileLemmas::text_past))]
fn text_size(note: &FilePart<'_>, from: usize) -> usize
    requires { from ≤ length note.now }
    ensures size { result ≡ prefix_len (λ b. not (b == 0)) (drop from note.now) }
    ensures within { from + result ≤ length note.now }
{
    let end = note.len() - from;
    for size in 0..end {
        if note.byte(from + size) == 0 {
            return size;
        }
    }
    end
}

/// The mappings of a note that has all their numbers.
#[tactic(auto, using(crate::proofs::FileLemmas::files_none, crate::proofs::FileLemmas::files_more, crate::proofs::FileLemmas::inside_push, crate::proofs::FileLemmas::files_all))]
pub fn read_files(alloc: Global, note: &FilePart<'_>) -> Result<Vec<FilePlace>, OutOfMemory>
    requires { has_files note.now ≡ true }
    ensures files { IfOk result (λ v. map (file_view note.now) v.items ≡ files_of note.now) }
    ensures inside { IfOk result (λ v. IsInside (length note.now) v.items) }
{
    let len = note.len();
    let count = read_u64(note, 0) as usize;
    let mut files = Vec::new(alloc);
    let mut text = 16 + 24 * count;
    'files: for k in 0..count {
        let at = 16 + 24 * k;
        let size = text_size(note, text);
        files.push(FilePlace {
            start: read_u64(note, at),
            end: read_u64(note, at + 8),
            offset: read_u64(note, at + 16),
            text,
            size,
        })?;
        text = len.min((text + size).saturating_add(1));
    }
    Ok(files)
}
