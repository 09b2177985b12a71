//! The texts of a section.
ghost use Rattle.std.specs.Prelude.{◌≡◌, ℕ, ◌<◌, ◌≤◌, nat_le, length, drop, IfOk, IfSome};
ghost use Rattle.std.specs.Option.{option_copied, option_map, is_none};
ghost use Rattle.leb_cursor.specs.Texts.{front_text};
ghost use Rattle.text_table.specs.Spaces.{held_text, held_front};
ghost use Rattle.text_table.specs.Ends.{later_start};

use crate::spaces::{SpaceEnds, count_spaces};
use memchr::{memchr, memrchr};
use std::alloc::{AllocError, Global};
use std::marker::Model;

/// How many leading spaces of a text are held.
const SPACES: usize = 65_536;

/// How many bytes of a text are held.
const HELD: usize = 131_072;

/// The place after the last zero byte, or 0 if there is none. A text begins at each place below it, and at no other.
#[tactic(auto, using(crate::proofs::EndLemmas::texts_below, crate::proofs::EndLemmas::no_text))]
pub fn end_of_texts(bytes: &[u8]) -> usize
    ensures { (at : ℕ) → is_none (front_text (drop at bytes.now)) ≡ nat_le result at }
{
    match memrchr(0, bytes) {
        None => 0,
        Some(last) => last + 1,
    }
}

/// What is held of a text.
pub fn held_text(text: &[u8]) -> &[u8]
    ensures { result.now ≡ held_text text.now }
{
    let spaces = count_spaces(text).saturating_sub(SPACES);
    let rest = text.split_at(spaces).1;
    rest.split_at(HELD.min(rest.len())).0
}

/// What is held of the bytes up to the first zero byte, or up to the end if there is none.
#[inline]
pub fn held_front(bytes: &[u8]) -> &[u8]
    ensures { result.now ≡ held_front bytes.now }
{
    let front = bytes.split_at(HELD.min(bytes.len())).0;
    match memchr(0, front) {
        Some(end) => front.split_at(end).0,
        None => front,
    }
}

/// The place from which on there are at most 65,536 spaces.
#[inline(never)]
#[tactic(auto, unfolding(crate::specs::Ends::spaces_end), using(crate::proofs::EndLemmas::span_within))]
fn spaced_start(bytes: &[u8], place: usize) -> usize
    requires { place ≤ length bytes.now }
    ensures { result ≡ later_start bytes.now place }
{
    place + count_spaces(bytes.split_at(place).1).saturating_sub(SPACES)
}

/// The place from which on the text at a place is held, if it is zero-terminated. All its leading spaces are passed.
#[inline]
#[tactic(auto, using(crate::proofs::SpaceLemmas::held_from, crate::proofs::SpaceLemmas::held_unspaced, crate::proofs::SpaceLemmas::later_inside))]
pub fn start_of(bytes: &[u8], place: usize) -> usize
    requires { place < length bytes.now }
    ensures text { option_map held_text (front_text (drop place bytes.now)) ≡ option_map (λ text. held_front (drop result bytes.now)) (front_text (drop place bytes.now)) }
    ensures inside { result < length bytes.now }
{
    if bytes[place] == b' ' {
        return spaced_start(bytes, place);
    }
    place
}

/// A section of zero-terminated texts.
#[derive(Drop)]
pub struct TextTable<'a> {
    bytes: &'a [u8],
    spaces: SpaceEnds<'a>,
    end: usize,
    far: bool,
}

impl<'a> Model for TextTable<'a> {
    ghost use Rattle.std.specs.Prelude.{List, ℕ};
    ghost use Rattle.text_table.specs.Ends.{IsTable};

    ghost Value = { List ℕ };

    ghost view = { λ t. t.bytes.now };

    ghost invariant = { λ t. IsTable t.bytes.now t.spaces t.end t.far };
}

impl<'a> TextTable<'a> {
    pub fn new(alloc: Global, bytes: &'a [u8]) -> Result<TextTable<'a>, AllocError>
        ensures { IfOk result (λ table. table ≡ bytes.now) }
    {
        let spaces = SpaceEnds::of(alloc, bytes)?;
        let far = spaces.are_far();
        Ok(TextTable {
            bytes,
            spaces,
            end: end_of_texts(bytes),
            far,
        })
    }

    /// The whole section.
    #[inline]
    pub fn bytes(&self) -> &'a [u8]
        ensures { result.now ≡ self.now }
    {
        self.bytes
    }

    /// The place from which on a text has at most 65,536 leading spaces.
    #[inline(never)]
    fn later_start(&self, place: usize) -> usize
        requires { place < length self.now }
        ensures { result ≡ later_start self.now place }
    {
        let past = self.spaces.from(place);
        place + (past - place).saturating_sub(SPACES)
    }

    /// The place from which on the text at a place is held; `None` if there is no zero-terminated text. The time does not depend on the text.
    #[inline]
    pub fn start(&self, place: u64) -> Option<usize>
        ensures text { option_map held_text (front_text (drop place self.now)) ≡ option_map (λ start. held_front (drop start self.now)) result }
        ensures inside { IfSome result (λ start. start < length self.now) }
    {
        if place >= self.end as u64 {
            return None;
        }
        if !self.far {
            return Some(place as usize);
        }
        Some(self.later_start(place as usize))
    }

    /// What is held of the text at a place; `None` if no zero byte follows.
    #[inline]
    pub fn text(&self, place: u64) -> Option<&'a [u8]>
        ensures { option_copied result ≡ option_map held_text (front_text (drop place self.now)) }
    {
        let start = self.start(place)?;
        Some(held_front(self.bytes.split_at(start).1))
    }
}
