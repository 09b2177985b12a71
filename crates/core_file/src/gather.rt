//! The threads and the mapped files among the notes of a core file.
ghost use Rattle.std.specs.Prelude.{◌≡◌, ℕ, ◌+◌, ◌≤◌, ◌==◌, ◌∷◌, ◌++◌, ◌<◌, [], true, false, not, None, Some, IfSome, position, List, length, take, drop, count_by, IsTrue, IfOk, OnOk};
ghost use Rattle.std.specs.Option.{option_or};
ghost use Rattle.elf_sections.specs.Notes.{NoteParts, notes};
ghost use Rattle.core_file.specs.declared.threads.Thread.{Thread};
ghost use Rattle.core_file.specs.Threads.{thread_of};
ghost use Rattle.core_file.specs.CoreNotes.{is_prstatus, is_files, has_files, is_whole_note, are_whole_notes, has_bad_note, notes_of, all_notes};
ghost use Rattle.core_file.specs.Segments.{is_bad};
ghost use Rattle.core_file.specs.internal.NotePlaces.{note_view};
ghost use Rattle.core_file.specs.internal.Gathering.{gathered, so_far};

use crate::byte_list::{ByteList, read_u64, stands_at};
use crate::constants::{NT_FILE, NT_PRSTATUS, PT_NOTE};
use crate::held::HeldBytes;
use crate::notes::{NotePlace, read_note};
use crate::part::FilePart;
use crate::segments::Segment;
use crate::threads::{Thread, read_thread};
use sym_edges::OutOfMemory;

/// The threads that were found, `limit` at most, and the descriptor of the first note of mapped files.
#[derive(Debug, Drop)]
pub struct Found<'a> {
    pub limit: usize,
    pub threads: Vec<Thread>,
    pub files: Option<FilePart<'a>>,
}

#[tactic(auto, unfolding(crate::specs::CoreNotes::is_prstatus))]
fn is_state(part: &FilePart<'_>, note: &NotePlace) -> bool
    requires { note.now.name + note.now.name_len ≤ length part.now }
    ensures { result ≡ is_prstatus (note_view part.now note.now) }
{
    stands_at(part, note.name, note.name_len, b"CORE\0") && note.kind == NT_PRSTATUS
}

#[tactic(auto, unfolding(crate::specs::CoreNotes::is_files))]
fn is_mapped(part: &FilePart<'_>, note: &NotePlace) -> bool
    requires { note.now.name + note.now.name_len ≤ length part.now }
    ensures { result ≡ is_files (note_view part.now note.now) }
{
    stands_at(part, note.name, note.name_len, b"CORE\0") && note.kind == NT_FILE
}

/// How many zero bytes there are from a place on.
#[tactic(auto, using(crate::proofs::GatherLemmas::zeros_yes, crate::proofs::GatherLemmas::zeros_no))]
fn count_zeros(part: &FilePart<'_>, from: usize) -> usize
    requires { from ≤ length part.now }
    ensures { result ≡ count_by (λ b. b == 0) (drop from part.now) }
{
    let mut zeros: usize = 0;
    for i in 0..part.len() - from {
        if part.byte(from + i) == 0 {
            zeros += 1;
        }
    }
    zeros
}

/// Whether a note of mapped files has all its numbers and texts.
#[tactic(auto, unfolding(crate::specs::CoreNotes::has_files, crate::specs::CoreNotes::file_count, crate::specs::CoreNotes::files_size))]
fn has_files(part: &FilePart<'_>) -> bool
    ensures { result ≡ has_files part.now }
{
    if part.len() < 16 {
        return false;
    }
    let count = read_u64(part, 0);
    let size = 16 + 24 * u128::from(count);
    if size > part.len() as u128 {
        return false;
    }
    count <= count_zeros(part, size as usize) as u64
}

/// Keeps the thread of a state, if there is room.
#[tactic(auto, using(crate::proofs::GatherLemmas::thread_room, crate::proofs::GatherLemmas::thread_full), unfolding(crate::specs::internal::Gathering::gathered))]
fn take_thread(state: &FilePart<'_>, found: &mut Found<'_>) -> Result<(), OutOfMemory>
    requires long { 272 ≤ length state.now }
    requires few { length found.old.threads.items ≤ found.old.limit }
    ensures limit { found.new.limit ≡ found.old.limit }
    ensures few { length found.new.threads.items ≤ found.new.limit }
    ensures files { found.new.files ≡ found.old.files }
    ensures taken { OnOk result ((more : List Thread) → take found.old.limit (found.old.threads.items ++ thread_of state.now ∷ more) ≡ take found.old.limit (found.new.threads.items ++ more)) }
{
    if found.threads.len() < found.limit {
        found.threads.push(read_thread(state))?;
    }
    Ok(())
}

/// Keeps the mapped files, if they are the first.
fn take_files<'a>(descriptor: FilePart<'a>, found: &mut Found<'a>)
    requires whole { has_files descriptor ≡ true }
    requires fit { IfSome found.old.files (λ d. has_files d ≡ true) }
    ensures fit { IfSome found.new.files (λ d. has_files d ≡ true) }
    ensures limit { found.new.limit ≡ found.old.limit }
    ensures threads { found.new.threads.items ≡ found.old.threads.items }
    ensures files { found.new.files ≡ option_or found.old.files (Some descriptor.entry) }
{
    if found.files.is_none() {
        found.files = Some(descriptor);
    }
}

/// Keeps what is needed from a note, and says whether the note is whole.
#[tactic(auto, using(crate::proofs::GatherLemmas::whole_state, crate::proofs::GatherLemmas::whole_files, crate::proofs::GatherLemmas::whole_other))]
fn take_note<'a>(
    part: &FilePart<'a>,
    note: &NotePlace,
    found: &mut Found<'a>,
) -> Result<bool, OutOfMemory>
    requires name { note.now.name + note.now.name_len ≤ length part.now }
    requires descriptor { note.now.descriptor + note.now.size ≤ length part.now }
    requires few { length found.old.threads.items ≤ found.old.limit }
    requires fit { IfSome found.old.files (λ d. has_files d ≡ true) }
    ensures fit { IfSome found.new.files (λ d. has_files d ≡ true) }
    ensures whole { IfOk result (λ w. w ≡ is_whole_note (note_view part.now note.now)) }
    ensures limit { found.new.limit ≡ found.old.limit }
    ensures few { length found.new.threads.items ≤ found.new.limit }
    ensures taken { IfOk result (λ w. IsTrue w → (more : List NoteParts)
        → gathered found.old.limit (so_far found.old) (note_view part.now note.now ∷ more) ≡ gathered found.old.limit (so_far found.new) more) }
{
    let descriptor = part.part(note.descriptor, note.size);
    if is_state(part, note) {
        if descriptor.len() < 272 {
            return Ok(false);
        }
        take_thread(&descriptor, found)?;
        return Ok(true);
    }
    if is_mapped(part, note) {
        if !has_files(&descriptor) {
            return Ok(false);
        }
        take_files(descriptor, found);
    }
    Ok(true)
}

/// Keeps what is needed from the notes of a segment, and says whether all of them are whole.
pub fn gather<'a>(part: &FilePart<'a>, found: &mut Found<'a>) -> Result<bool, OutOfMemory>
    requires few { length found.old.threads.items ≤ found.old.limit }
    requires fit { IfSome found.old.files (λ d. has_files d ≡ true) }
    ensures fit { IfSome found.new.files (λ d. has_files d ≡ true) }
    ensures limit { found.new.limit ≡ found.old.limit }
    ensures few { length found.new.threads.items ≤ found.new.limit }
    ensures whole { IfOk result (λ w. w ≡ are_whole_notes part.now) }
    ensures gathered { IfOk result (λ w. IsTrue w → so_far found.new ≡ gathered found.old.limit (so_far found.old) (notes part.now)) }
{
    let mut at = 0;
    'notes: while at < part.len() {
        let Some(note) = read_note(part, at) else {
            return Ok(false);
        };
        if !take_note(part, &note, found)? {
            return Ok(false);
        }
        at = note.next;
    }
    Ok(true)
}

/// Keeps what is needed from the notes of a segment, if it is a segment of notes, and says whether
/// all of them are whole. A segment of another type has no notes.
#[tactic(auto, using(crate::proofs::GatherLemmas::noted_inside, crate::proofs::GatherLemmas::gathered_end), unfolding(crate::specs::CoreNotes::has_bad_note, crate::specs::CoreNotes::notes_of, crate::specs::Segments::bytes_of))]
fn gather_segment<'a>(
    file: &'a HeldBytes,
    segment: &Segment,
    found: &mut Found<'a>,
) -> Result<bool, OutOfMemory>
    requires inside { is_bad file.now segment.now ≡ false }
    requires few { length found.old.threads.items ≤ found.old.limit }
    requires fit { IfSome found.old.files (λ d. has_files d ≡ true) }
    ensures fit { IfSome found.new.files (λ d. has_files d ≡ true) }
    ensures limit { found.new.limit ≡ found.old.limit }
    ensures few { length found.new.threads.items ≤ found.new.limit }
    ensures whole { IfOk result (λ w. has_bad_note file.now segment.now ≡ not w) }
    ensures gathered { IfOk result (λ w. IsTrue w → so_far found.new ≡ gathered found.old.limit (so_far found.old) (notes_of file.now segment.now)) }
{
    if segment.kind != PT_NOTE {
        return Ok(true);
    }
    let part = FilePart::new(file, segment.offset as usize, segment.file_size as usize);
    gather(&part, found)
}

/// The first segment with a note that is not whole, or what is needed from the notes of all segments.
#[tactic(auto, using(crate::proofs::GatherLemmas::segment_fine, crate::proofs::GatherLemmas::segments_step, crate::proofs::GatherLemmas::segments_end, crate::proofs::PositionLemmas::place_here, crate::proofs::PositionLemmas::place_later, crate::proofs::PositionLemmas::place_none))]
pub fn gather_all<'a>(
    file: &'a HeldBytes,
    segments: &[Segment],
    found: &mut Found<'a>,
) -> Result<Option<usize>, OutOfMemory>
    requires inside { position (is_bad file.now) segments.now ≡ None }
    requires few { length found.old.threads.items ≤ found.old.limit }
    requires fit { IfSome found.old.files (λ d. has_files d ≡ true) }
    ensures fit { IfSome found.new.files (λ d. has_files d ≡ true) }
    ensures limit { found.new.limit ≡ found.old.limit }
    ensures bad { IfOk result (λ index. index ≡ position (has_bad_note file.now) segments.now) }
    ensures within { IfOk result (λ index. IfSome index (λ k. k < length segments.now)) }
    ensures gathered { IfOk result (λ index. index ≡ None → so_far found.new ≡ gathered found.old.limit (so_far found.old) (all_notes file.now segments.now)) }
{
    'segments: for k in 0..segments.len() {
        if !gather_segment(file, &segments[k], found)? {
            return Ok(Some(k));
        }
    }
    Ok(None)
}
