//! The entries of a section, one after the other.
ghost use Rattle.std.specs.Prelude.{◌≡◌, ◌+◌, ◌^◌, ◌<◌, ◌≤◌, length, Ok, Err};
ghost use Rattle.sym_edges.specs.Outside.{MatchStop};
ghost use Rattle.leb_cursor.specs.Ahead.{gave};
ghost use Rattle.leb_cursor.specs.Readings.{fixed_sum};
ghost use Rattle.frame_entries.specs.Raw.{length_width, id_width};
ghost use Rattle.frame_entries.specs.Listing.{is_eh, from_start, entry_at, wide_behind, mark_behind, mark_at, listed_at};

use crate::fault::{FrameFault, FrameKind};
use leb_cursor::Cursor;
use std::alloc::Global;
use std::marker::Model;
use std::mem::size_of;
use sym_edges::{FILE_LIMIT, Located, Sect, Stop};

/// An entry as it is in its section: the place of its first byte, whether it has the 64-bit format, and the bytes after its length, which are its id
/// and its body.
#[derive(Debug, Drop)]
pub struct RawEntry<'a> {
    at: u32,
    wide: bool,
    bytes: &'a [u8],
}

const _: () = prove!(size_of::<RawEntry<'_>>() == 24);

impl<'a> Model for RawEntry<'a> {
    ghost use Rattle.std.specs.Prelude.{◌+◌, ◌≤◌, drop, length};
    ghost use Rattle.leb_cursor.specs.Readings.{fixed_sum};
    ghost use Rattle.frame_entries.specs.Raw.{length_width, id_width, Raw};

    ghost Value = { Raw };

    ghost view = { λ r. record {
      at = r.at;
      wide = r.wide;
      id_at = r.at + length_width r.wide;
      id = fixed_sum (id_width r.wide) r.bytes.now;
      body_at = r.at + length_width r.wide + id_width r.wide;
      body = drop (id_width r.wide) r.bytes.now;
    } };

    ghost invariant = { λ r. id_width r.wide ≤ length r.bytes.now };
}

/// How many bytes a length has; in the 64-bit format this includes the ffffffff before it.
#[inline]
fn length_width(wide: bool) -> u32
    ensures { result ≡ length_width wide }
{
    if wide { 12 } else { 4 }
}

#[inline]
fn id_width(wide: bool) -> u32
    ensures { result ≡ id_width wide }
{
    if wide { 8 } else { 4 }
}

/// The number at the start of the bytes.
#[inline]
#[tactic(auto, using(crate::proofs::PlaceLemmas::front_number))]
fn front_u64(bytes: &[u8]) -> u64
    requires { 8 ≤ length bytes.now }
    ensures { result ≡ fixed_sum 8 bytes.now }
{
    match cursor_over(bytes).u64() {
        Ok(number) => number,
        Err(_) => 0,
    }
}

#[inline]
#[tactic(auto, using(crate::proofs::PlaceLemmas::front_number))]
fn front_u32(bytes: &[u8]) -> u32
    requires { 4 ≤ length bytes.now }
    ensures { result ≡ fixed_sum 4 bytes.now }
{
    match cursor_over(bytes).u32() {
        Ok(number) => number,
        Err(_) => 0,
    }
}

/// The id at the start of an entry's bytes.
#[inline]
fn front_id(bytes: &[u8], wide: bool) -> u64
    requires { id_width wide ≤ length bytes.now }
    ensures { result ≡ fixed_sum (id_width wide) bytes.now }
{
    if wide {
        front_u64(bytes)
    } else {
        u64::from(front_u32(bytes))
    }
}

impl<'a> RawEntry<'a> {
    /// The place of the entry's first byte.
    #[inline]
    pub fn at(&self) -> u32
        ensures { result ≡ self.now.at }
    {
        self.at
    }

    /// Whether the entry has the 64-bit format.
    #[inline]
    pub fn wide(&self) -> bool
        ensures { result ≡ self.now.wide }
    {
        self.wide
    }

    #[inline]
    pub fn id(&self) -> u64
        ensures { result ≡ self.now.id }
    {
        front_id(self.bytes, self.wide)
    }

    /// The place of the entry's id.
    #[inline]
    pub fn id_at(&self) -> u64
        ensures { result ≡ self.now.id_at }
    {
        u64::from(self.at) + u64::from(length_width(self.wide))
    }

    /// The place of the entry's body.
    #[inline]
    pub fn body_at(&self) -> u64
        ensures { result ≡ self.now.body_at }
    {
        u64::from(self.at) + u64::from(length_width(self.wide)) + u64::from(id_width(self.wide))
    }

    #[inline]
    pub fn body(&self) -> &'a [u8]
        ensures { result.now ≡ self.now.body }
    {
        &self.bytes[id_width(self.wide) as usize..]
    }
}

/// What is at a place of a section: the zero that ends `.eh_frame`, a zero that is skipped in `.debug_frame`, or an entry.
#[derive(Drop)]
pub enum Mark<'a> {
    Terminator,
    Padding,
    Listed(RawEntry<'a>),
}

/// A cursor that has all bytes of the section ahead.
#[inline]
pub fn cursor_over(bytes: &[u8]) -> Cursor<'_>
    ensures { result ≡ from_start bytes.now }
{
    Cursor::new(bytes, 0, bytes.len())
}

#[inline]
#[tactic(auto, unfolding(crate::specs::Listing::is_eh))]
pub fn is_eh(which: Sect) -> bool
    ensures { result ≡ is_eh which }
{
    matches!(which, Sect::EhFrame)
}

#[inline]
fn fault_at(kind: FrameKind, which: Sect, at: u32) -> FrameFault
    ensures { result ≡ record { kind = kind; section = which; at = at } }
{
    Located {
        kind,
        section: which,
        at: at as usize,
    }
}

/// Reads an entry after its length, in either format.
#[tactic(auto, using(crate::proofs::PlaceLemmas::taken_length), unfolding(crate::specs::Listing::entry_at))]
fn read_entry<'a>(
    cursor: &mut Cursor<'a>,
    which: Sect,
    at: u32,
    wide: bool,
    count: u64,
) -> Result<Mark<'a>, FrameFault>
    requires { cursor.old.at ≡ at + length_width wide }
    ensures { gave result cursor.new ≡ entry_at which at wide count cursor.old }
{
    if count < u64::from(id_width(wide)) {
        return Err(fault_at(FrameKind::Length, which, at));
    }
    let Ok(bytes) = cursor.take(count) else {
        return Err(fault_at(FrameKind::Length, which, at));
    };
    Ok(Mark::Listed(RawEntry { at, wide, bytes }))
}

/// Reads what follows ffffffff: in `.debug_frame` an entry in the 64-bit format.
#[tactic(auto, using(crate::proofs::PlaceLemmas::fixed_ends), unfolding(crate::specs::Listing::wide_behind))]
fn read_wide<'a>(cursor: &mut Cursor<'a>, which: Sect, at: u32) -> Result<Mark<'a>, FrameFault>
    requires { cursor.old.at ≡ at + 4 }
    ensures { gave result cursor.new ≡ wide_behind which at cursor.old }
{
    if is_eh(which) {
        return Err(fault_at(FrameKind::Format64, which, at));
    }
    let Ok(count) = cursor.u64() else {
        return Err(fault_at(FrameKind::Length, which, at));
    };
    read_entry(cursor, which, at, true, count)
}

/// Reads what follows a length of four bytes.
#[tactic(auto, unfolding(crate::specs::Listing::mark_behind))]
fn read_behind<'a>(
    cursor: &mut Cursor<'a>,
    which: Sect,
    at: u32,
    count: u32,
) -> Result<Mark<'a>, FrameFault>
    requires { cursor.old.at ≡ at + 4 }
    ensures { gave result cursor.new ≡ mark_behind which at count cursor.old }
{
    if count == 0 {
        if is_eh(which) {
            return Ok(Mark::Terminator);
        }
        return Ok(Mark::Padding);
    }
    if count == 0xffff_ffff {
        return read_wide(cursor, which, at);
    }
    if count >= 0xffff_fff0 {
        return Err(fault_at(FrameKind::Length, which, at));
    }
    read_entry(cursor, which, at, false, u64::from(count))
}

/// Reads the next mark of a section.
#[tactic(auto, using(crate::proofs::PlaceLemmas::fixed_ends), unfolding(crate::specs::Listing::mark_at))]
fn read_mark<'a>(cursor: &mut Cursor<'a>, which: Sect) -> Result<Mark<'a>, FrameFault>
    requires { cursor.old.at < 2 ^ 32 }
    ensures { gave result cursor.new ≡ mark_at which cursor.old }
{
    let at = cursor.at() as u32;
    let Ok(count) = cursor.u32() else {
        return Err(fault_at(FrameKind::Length, which, at));
    };
    read_behind(cursor, which, at, count)
}

/// The entries of a section, or its first fault. Places are stored in four bytes, so a section of
/// more than 2^29 bytes counts as out of memory; no file that is dumped has one.
#[tactic(auto, using(crate::proofs::ListingLemmas::listing_begins, crate::proofs::ListingLemmas::listing_at_end, crate::proofs::ListingLemmas::listing_ended, crate::proofs::ListingLemmas::listing_refused, crate::proofs::ListingLemmas::listing_passed, crate::proofs::ListingLemmas::listing_more, crate::proofs::ListingLemmas::listing_out_of_turns, crate::proofs::PlaceLemmas::mark_ends), unfolding(crate::specs::Listing::listed_at))]
pub fn read_listing<'a>(
    alloc: Global,
    bytes: &'a [u8],
    which: Sect,
) -> Result<Vec<RawEntry<'a>>, Stop<FrameFault>>
    ensures { MatchStop result
        (λ raws. listed_at which (from_start bytes.now) ≡ Ok raws.items)
        (λ fault. listed_at which (from_start bytes.now) ≡ Err fault)
        (Unit {0}) }
{
    if bytes.len() > FILE_LIMIT {
        return Err(Stop::NoMemory);
    }
    let mut cursor = cursor_over(bytes);
    let mut raws = Vec::new(alloc);
    'marks: for _ in 0..bytes.len() {
        if cursor.is_at_end() {
            return Ok(raws);
        }
        let mark = match read_mark(&mut cursor, which) {
            Ok(mark) => mark,
            Err(fault) => return Err(Stop::Fault(fault)),
        };
        match mark {
            Mark::Terminator => return Ok(raws),
            Mark::Padding => {}
            Mark::Listed(raw) => raws.push(raw)?,
        }
    }
    Ok(raws)
}
