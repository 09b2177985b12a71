//! Build ids of loaded files, by their notes in memory.
ghost use Rattle.std.specs.Prelude.{◌≡◌, ◌+◌, ◌<◌, ◌≤◌, length, take, drop, None, IfOk, IfSome, map};
ghost use Rattle.std.specs.Option.{option_map};
ghost use Rattle.elf_sections.specs.Notes.{notes, is_build_id, first_id};
ghost use Rattle.core_file.specs.LoadedImages.{image_notes_of, image_id};
ghost use Rattle.core_file.specs.internal.NotePlaces.{note_view, descriptor_at};
ghost use Rattle.core_file.specs.internal.ImageViews.{image_view};

use crate::byte_list::{ByteList, copy, stands_at};
use crate::constants::{NT_GNU_BUILD_ID, PT_NOTE};
use crate::front::Front;
use crate::images::Image;
use crate::memory::ProcessMemory;
use crate::notes::{NotePlace, read_note};
use crate::segments::Segment;
use std::alloc::Global;
use sym_edges::{ByteRun, OutOfMemory};

#[tactic(auto, using(crate::proofs::PartLemmas::length_part), unfolding(elf_sections::specs::Notes::is_build_id))]
fn is_id<B: ByteList>(list: &B, note: &NotePlace) -> bool
    requires name { note.now.name + note.now.name_len ≤ length (B.bytes list.now) }
    requires descriptor { note.now.descriptor + note.now.size ≤ length (B.bytes list.now) }
    ensures { result ≡ is_build_id (note_view (B.bytes list.now) note.now) }
{
    stands_at(list, note.name, note.name_len, b"GNU\0")
        && (note.kind == NT_GNU_BUILD_ID && (note.size > 0 && note.size <= 64))
}

/// The first build id among notes.
#[tactic(auto, using(crate::proofs::IdLemmas::id_in_front, crate::proofs::IdLemmas::id_not_in_front, crate::proofs::IdLemmas::id_of_none, crate::proofs::IdLemmas::id_at_end))]
fn find_id<B: ByteList>(list: &B) -> Option<NotePlace>
    ensures first { option_map (descriptor_at (B.bytes list.now)) result ≡ first_id (notes (B.bytes list.now)) }
    ensures within { IfSome result (λ p. p.descriptor + p.size ≤ length (B.bytes list.now)) }
{
    let mut at = 0;
    'notes: while at < list.len() {
        let Some(note) = read_note(list, at) else {
            return None;
        };
        if is_id(list, &note) {
            return Some(note);
        }
        at = note.next;
    }
    None
}

/// The first build id among the notes of a segment.
#[tactic(auto, using(crate::proofs::IdLemmas::id_past, crate::proofs::IdLemmas::first_none), unfolding(crate::specs::LoadedImages::image_notes_of))]
fn segment_id(
    alloc: Global,
    memory: &ProcessMemory<'_>,
    start: u64,
    image: &Image,
    segment: &Segment,
) -> Result<Option<ByteRun>, OutOfMemory>
    ensures { IfOk result (λ id. id ≡ first_id (image_notes_of memory.now start (image_view image.now) segment.now)) }
{
    if segment.kind != PT_NOTE {
        return Ok(None);
    }
    let Some(place) = image.place(start, segment) else {
        return Ok(None);
    };
    if place >= 1 << 64 {
        return Ok(None);
    }
    let front = Front::of(memory, place as u64, segment.file_size);
    let Some(note) = find_id(&front) else {
        return Ok(None);
    };
    let id = copy(alloc, &front, note.descriptor, note.size)?;
    Ok(Some(ByteRun::of(id)))
}

/// The first build id among the notes of a loaded file.
#[tactic(auto, using(crate::proofs::IdLemmas::id_here, crate::proofs::IdLemmas::id_later, crate::proofs::IdLemmas::id_end), unfolding(crate::specs::LoadedImages::image_id))]
pub fn image_id(
    alloc: Global,
    memory: &ProcessMemory<'_>,
    start: u64,
    image: &Image,
) -> Result<Option<ByteRun>, OutOfMemory>
    ensures { IfOk result (λ id. id ≡ image_id memory.now start (image_view image.now)) }
{
    'headers: for k in 0..image.headers.len() {
        if let Some(id) = segment_id(alloc, memory, start, image, &image.headers[k])? {
            return Ok(Some(id));
        }
    }
    Ok(None)
}
