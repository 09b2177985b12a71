//! Notes, and the build id among them.
ghost use Rattle.std.specs.Prelude.{◌≡◌, ◌+◌, ◌≤◌, ℕ, List, [], ◌∷◌, if◌then◌else◌, length, drop, find, filter, true, false, Some, None, IsTrue, IfOk, OnOk, IfSome, MatchOption};
ghost use Rattle.std.specs.List.{flat_map};
ghost use Rattle.std.specs.Option.{option_copied, option_map};
ghost use Rattle.elf_sections.specs.Numbers.{u32_at};
ghost use Rattle.elf_sections.specs.Sections.{bytes_of};
ghost use Rattle.elf_sections.specs.Notes.{notes, notes_in, has_note, note_at, after_note, padded, first_id, is_build_id, notes_of};
ghost use Rattle.elf_sections.specs.internal.Steps.{note_view};
ghost use Rattle.elf_sections.specs.Kept.{GaveNone};

use crate::constants::{NT_GNU_BUILD_ID, SHT_NOTE};
use crate::numbers::read_u32;
use crate::section::{SectionHeader, read_content};
use std::alloc::{AllocError, Global};
use std::collections::BTreeSet;

/// A note at the start of some bytes, and the bytes after it.
#[derive(Clone, Copy)]
struct Note<'a> {
    name: &'a [u8],
    kind: u32,
    descriptor: &'a [u8],
    rest: &'a [u8],
}

#[tactic(auto, unfolding(crate::specs::Notes::padded))]
fn padded_len(len: u32) -> u64
    ensures exact { result ≡ padded len }
    ensures longer { len ≤ result }
    ensures near { result ≤ len + 3 }
{
    (u64::from(len) + 3) / 4 * 4
}

/// The bytes after the first `len` bytes, or nothing if there are fewer.
fn behind(bytes: &[u8], len: u64) -> &[u8]
    ensures { result.now ≡ drop len bytes.now }
{
    if len <= bytes.len() as u64 {
        bytes.split_at(len as usize).1
    } else {
        &[]
    }
}

/// The note at the start of the bytes, if it fits.
#[tactic(auto, unfolding(crate::specs::Notes::has_note, crate::specs::Notes::note_len, crate::specs::Notes::note_at, crate::specs::Notes::after_note))]
fn read_note(bytes: &[u8]) -> Option<Note<'_>>
    ensures { MatchOption result (has_note bytes.now ≡ false)
        (λ note. (has_note bytes.now ≡ true) × (note_view note ≡ note_at bytes.now) × (note.rest.now ≡ after_note bytes.now)) }
{
    if bytes.len() < 12 {
        return None;
    }
    let name_len = read_u32(bytes, 0);
    let descriptor_len = read_u32(bytes, 4);
    let descriptor_at = 12 + padded_len(name_len);
    if descriptor_at + u64::from(descriptor_len) > bytes.len() as u64 {
        return None;
    }
    Some(Note {
        name: bytes.split_at(12).1.split_at(name_len as usize).0,
        kind: read_u32(bytes, 8),
        descriptor: behind(bytes, descriptor_at)
            .split_at(descriptor_len as usize)
            .0,
        rest: behind(bytes, descriptor_at + padded_len(descriptor_len)),
    })
}

#[tactic(auto, unfolding(crate::specs::Notes::is_build_id))]
fn is_id(note: &Note<'_>) -> bool
    ensures exact { result ≡ is_build_id (note_view note.now) }
    ensures short { IsTrue result → length note.now.descriptor.now ≤ 64 }
{
    note.name == b"GNU\0".as_slice()
        && (note.kind == NT_GNU_BUILD_ID
            && (!note.descriptor.is_empty() && note.descriptor.len() <= 64))
}

/// The first build id among the notes of a section.
#[tactic(auto, using(crate::proofs::NoteLemmas::notes_begin, crate::proofs::NoteLemmas::no_note, crate::proofs::NoteLemmas::next_id, crate::proofs::NoteLemmas::next_other, crate::proofs::NoteLemmas::notes_each))]
fn find_id(bytes: &[u8]) -> Option<&[u8]>
    ensures first { option_copied result ≡ first_id (notes bytes.now) }
    ensures each { (some : List ℕ) → notes some ≡ (if has_note some then note_at some ∷ notes (after_note some) else []) }
    ensures short { IfSome result (λ id. length id.now ≤ 64) }
{
    let mut rest = bytes;
    'notes: for _ in 0..bytes.len() {
        match read_note(rest) {
            None => return None,
            Some(note) => {
                if is_id(&note) {
                    return Some(note.descriptor);
                }
                rest = note.rest;
            }
        }
    }
    None
}

/// The build id of one section, if it is a section of notes.
#[tactic(auto, unfolding(crate::specs::Sections::bytes_of, crate::specs::Notes::notes_of, crate::specs::Notes::first_id, crate::specs::Notes::notes, crate::specs::Notes::notes_in))]
fn id_in<'a>(file: &'a [u8], section: &SectionHeader) -> Option<&'a [u8]>
    ensures first { option_copied result ≡ first_id (notes_of file.now section.now) }
    ensures short { IfSome result (λ id. length id.now ≤ 64) }
{
    if section.kind != SHT_NOTE {
        return None;
    }
    match read_content(file, section) {
        None => None,
        Some(bytes) => find_id(bytes),
    }
}

/// The build id of one section, if it is a section of notes. A section with the same offset and
/// size as one without a build id is not searched again.
#[tactic(auto, using(crate::proofs::WalkedLemmas::no_notes, crate::proofs::WalkedLemmas::none_again, crate::proofs::WalkedLemmas::gave_none_more))]
fn id_unless_walked<'a>(
    file: &'a [u8],
    section: &SectionHeader,
    walked: &mut BTreeSet<(u64, u64)>,
) -> Result<Option<&'a [u8]>, AllocError>
    requires { GaveNone file.now walked.old }
    ensures first { IfOk result (λ id. option_copied id ≡ first_id (notes_of file.now section.now)) }
    ensures short { IfOk result (λ id. IfSome id (λ bytes. length bytes.now ≤ 64)) }
    ensures walked { OnOk result (GaveNone file.now walked.new) }
{
    if section.kind != SHT_NOTE {
        return Ok(None);
    }
    let run = (section.offset, section.size);
    if walked.contains(&run) {
        return Ok(None);
    }
    match id_in(file, section) {
        Some(id) => Ok(Some(id)),
        None => {
            walked.insert(run)?;
            Ok(None)
        }
    }
}

/// The first build id in the sections of notes, in the order of the sections.
pub fn find_build_id<'a>(
    alloc: Global,
    file: &'a [u8],
    sections: &[SectionHeader],
) -> Result<Option<&'a [u8]>, AllocError>
    ensures first { IfOk result (λ id. option_copied id ≡ first_id (flat_map (notes_of file.now) sections.now)) }
    ensures short { IfOk result (λ id. IfSome id (λ bytes. length bytes.now ≤ 64)) }
{
    let mut walked = BTreeSet::new(alloc);
    'sections: for section in sections {
        if let Some(id) = id_unless_walked(file, section, &mut walked)? {
            return Ok(Some(id));
        }
    }
    Ok(None)
}
