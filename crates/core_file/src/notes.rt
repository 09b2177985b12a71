//! Notes, one by one (System V gABI, "Note Section").
ghost use Rattle.std.specs.Prelude.{◌≡◌, ℕ, ◌+◌, ◌<◌, ◌≤◌, true, false, length, drop, IfSome, MatchOption};
ghost use Rattle.elf_sections.specs.Notes.{padded, has_note, note_at, after_note};
ghost use Rattle.core_file.specs.internal.NotePlaces.{note_view};

use crate::byte_list::{ByteList, read_u32};

/// Where the parts of a note are, and what comes after it.
#[derive(Clone, Copy, Debug)]
pub struct NotePlace {
    pub name: usize,
    pub name_len: usize,
    pub kind: u32,
    pub descriptor: usize,
    pub size: usize,
    pub next: usize,
}

#[tactic(auto, unfolding(elf_sections::specs::Notes::padded))]
fn padded_len(len: u32) -> u64
    ensures exact { result ≡ padded len }
    ensures longer { len ≤ result }
    ensures near { result ≤ len + 3 }
{
    (u64::from(len) + 3) / 4 * 4
}

/// The note at a place, if it fits.
#[tactic(auto, using(crate::proofs::NoteLemmas::number_behind, crate::proofs::NoteLemmas::part_behind, crate::proofs::NoteLemmas::rest_behind), unfolding(elf_sections::specs::Notes::has_note, elf_sections::specs::Notes::note_len, elf_sections::specs::Notes::note_at, elf_sections::specs::Notes::after_note))]
pub fn read_note<B: ByteList>(list: &B, at: usize) -> Option<NotePlace>
    requires { at ≤ length (B.bytes list.now) }
    ensures note { MatchOption result (has_note (drop at (B.bytes list.now)) ≡ false)
        (λ p. (has_note (drop at (B.bytes list.now)) ≡ true) × (note_view (B.bytes list.now) p ≡ note_at (drop at (B.bytes list.now))) × (drop p.next (B.bytes list.now) ≡ after_note (drop at (B.bytes list.now)))) }
    ensures name { IfSome result (λ p. p.name + p.name_len ≤ length (B.bytes list.now)) }
    ensures descriptor { IfSome result (λ p. p.descriptor + p.size ≤ length (B.bytes list.now)) }
    ensures next { IfSome result (λ p. at < p.next) }
    ensures within { IfSome result (λ p. p.next ≤ length (B.bytes list.now)) }
{
    let left = (list.len() - at) as u64;
    if left < 12 {
        return None;
    }
    let name_len = read_u32(list, at);
    let size = read_u32(list, at + 4);
    let descriptor = 12 + padded_len(name_len);
    if descriptor + u64::from(size) > left {
        return None;
    }
    let next = left.min(descriptor + padded_len(size));
    Some(NotePlace {
        name: at + 12,
        name_len: name_len as usize,
        kind: read_u32(list, at + 8),
        descriptor: at + descriptor as usize,
        size: size as usize,
        next: at + next as usize,
    })
}
