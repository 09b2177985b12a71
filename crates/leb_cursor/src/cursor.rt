//! The cursor, and its calls.
ghost use Rattle.std.specs.Prelude.{◌≡◌, ◌≤◌, ◌+◌, ◌==◌, length, take, drop, OnErr};
ghost use Rattle.leb_cursor.specs.Ahead.{Ahead, gave, gave_as};
ghost use Rattle.leb_cursor.specs.Readings.{fixed_at, uleb_at, sleb_at, text_at, take_at, part_at};

use crate::fault::CursorFault;
use crate::fixed::{front_u16, front_u24, front_u32, front_u64};
use crate::leb::{signed_byte, sleb_front, uleb_front};
use memchr::memchr;
use std::marker::Model;

/// A place in a run of bytes, up to an end. A contract sees what is ahead: the bytes that are left, and the place of the first of them.
#[derive(Drop)]
pub struct Cursor<'a> {
    bytes: &'a [u8],
    place: usize,
}

impl<'a> Model for Cursor<'a> {
    ghost use Rattle.std.specs.Prelude.{◌≤◌, drop, length};
    ghost use Rattle.leb_cursor.specs.Ahead.{Ahead};

    ghost Value = { Ahead };

    ghost view = { λ c. record { bytes = drop c.place c.bytes.now; at = c.place } };

    ghost invariant = { λ c. c.place ≤ length c.bytes.now };
}

impl<'a> Cursor<'a> {
    /// A cursor at the place `at`, over the bytes before the place `end`. Places are counted in `bytes`.
    #[inline]
    pub fn new(bytes: &'a [u8], at: usize, end: usize) -> Cursor<'a>
        requires ordered { at ≤ end }
        requires inside { end ≤ length bytes.now }
        ensures { result ≡ record { bytes = drop at (take end bytes.now); at = at } }
    {
        Cursor {
            bytes: &bytes[..end],
            place: at,
        }
    }

    /// The place of the next byte.
    #[inline]
    pub fn at(&self) -> usize
        ensures { result ≡ self.now.at }
    {
        self.place
    }

    /// The bytes that are left.
    #[inline]
    fn rest(&self) -> &'a [u8]
        ensures { result.now ≡ self.now.bytes }
    {
        &self.bytes[self.place..]
    }

    /// The place after the last byte.
    #[inline]
    pub fn end(&self) -> usize
        ensures { result ≡ self.now.at + length self.now.bytes }
    {
        self.bytes.len()
    }

    /// Whether no byte is left.
    #[inline]
    pub fn is_at_end(&self) -> bool
        ensures { result ≡ (length self.now.bytes == 0) }
    {
        self.place == self.bytes.len()
    }

    /// A second cursor at the same place, with the same end.
    #[inline]
    pub fn fork(&self) -> Cursor<'a>
        ensures { result ≡ self.now }
    {
        Cursor {
            bytes: self.bytes,
            place: self.place,
        }
    }

    /// Reads one byte.
    #[inline]
    #[tactic(auto, unfolding(crate::specs::Readings::fixed_at, crate::specs::Readings::fixed_sum, crate::specs::Ahead::passed))]
    pub fn u8(&mut self) -> Result<u8, CursorFault>
        ensures read { gave result self.new ≡ fixed_at 1 self.old }
        ensures kept { OnErr result (self.new ≡ self.old) }
    {
        if self.place == self.bytes.len() {
            return Err(CursorFault::Ends { at: self.place });
        }
        let byte = self.bytes[self.place];
        self.place += 1;
        Ok(byte)
    }

    /// Reads a number of two bytes.
    #[inline]
    #[tactic(auto, using(crate::proofs::FixedLemmas::fixed_moved, crate::proofs::FixedLemmas::fixed_short))]
    pub fn u16(&mut self) -> Result<u16, CursorFault>
        ensures read { gave result self.new ≡ fixed_at 2 self.old }
        ensures kept { OnErr result (self.new ≡ self.old) }
    {
        let rest = self.rest();
        if rest.len() < 2 {
            return Err(CursorFault::Ends { at: self.place });
        }
        let number = front_u16(rest);
        self.place += 2;
        Ok(number)
    }

    /// Reads a number of three bytes.
    #[inline]
    #[tactic(auto, using(crate::proofs::FixedLemmas::fixed_moved, crate::proofs::FixedLemmas::fixed_short))]
    pub fn u24(&mut self) -> Result<u32, CursorFault>
        ensures read { gave result self.new ≡ fixed_at 3 self.old }
        ensures kept { OnErr result (self.new ≡ self.old) }
    {
        let rest = self.rest();
        if rest.len() < 3 {
            return Err(CursorFault::Ends { at: self.place });
        }
        let number = front_u24(rest);
        self.place += 3;
        Ok(number)
    }

    /// Reads a number of four bytes.
    #[inline]
    #[tactic(auto, using(crate::proofs::FixedLemmas::fixed_moved, crate::proofs::FixedLemmas::fixed_short))]
    pub fn u32(&mut self) -> Result<u32, CursorFault>
        ensures read { gave result self.new ≡ fixed_at 4 self.old }
        ensures kept { OnErr result (self.new ≡ self.old) }
    {
        let rest = self.rest();
        if rest.len() < 4 {
            return Err(CursorFault::Ends { at: self.place });
        }
        let number = front_u32(rest);
        self.place += 4;
        Ok(number)
    }

    /// Reads a number of eight bytes.
    #[inline]
    #[tactic(auto, using(crate::proofs::FixedLemmas::fixed_moved, crate::proofs::FixedLemmas::fixed_short))]
    pub fn u64(&mut self) -> Result<u64, CursorFault>
        ensures read { gave result self.new ≡ fixed_at 8 self.old }
        ensures kept { OnErr result (self.new ≡ self.old) }
    {
        let rest = self.rest();
        if rest.len() < 8 {
            return Err(CursorFault::Ends { at: self.place });
        }
        let number = front_u64(rest);
        self.place += 8;
        Ok(number)
    }

    /// Reads an unsigned LEB128 of one to ten bytes (DWARF 5, 7.6).
    #[inline]
    #[tactic(auto, using(crate::proofs::UlebLemmas::uleb_first, crate::proofs::UlebLemmas::uleb_moved, crate::proofs::UlebLemmas::uleb_refused))]
    pub fn uleb(&mut self) -> Result<u64, CursorFault>
        ensures read { gave result self.new ≡ uleb_at self.old }
        ensures kept { OnErr result (self.new ≡ self.old) }
    {
        let rest = self.rest();
        if let [byte, ..] = rest
            && *byte < 128
        {
            self.place += 1;
            return Ok(u64::from(*byte));
        }
        let front = uleb_front(rest, self.place)?;
        self.place += front.1;
        Ok(front.0)
    }

    /// Reads a signed LEB128 of one to ten bytes (DWARF 5, 7.6).
    #[inline]
    #[tactic(auto, using(crate::proofs::SlebLemmas::sleb_first, crate::proofs::SlebLemmas::sleb_moved, crate::proofs::SlebLemmas::sleb_refused))]
    pub fn sleb(&mut self) -> Result<i64, CursorFault>
        ensures read { gave result self.new ≡ sleb_at self.old }
        ensures kept { OnErr result (self.new ≡ self.old) }
    {
        let rest = self.rest();
        if let [byte, ..] = rest
            && *byte < 128
        {
            self.place += 1;
            return Ok(signed_byte(*byte));
        }
        let front = sleb_front(rest, self.place)?;
        self.place += front.1;
        Ok(front.0)
    }

    /// Reads the bytes before the next zero byte, and passes the zero byte.
    #[inline]
    #[tactic(auto, using(crate::proofs::TextLemmas::text_moved, crate::proofs::TextLemmas::text_open))]
    pub fn text(&mut self) -> Result<&'a [u8], CursorFault>
        ensures read { gave_as (λ text. text.now) result self.new ≡ text_at self.old }
        ensures kept { OnErr result (self.new ≡ self.old) }
    {
        let rest = self.rest();
        match memchr(0, rest) {
            Some(length) => {
                self.place += length + 1;
                Ok(&rest[..length])
            }
            None => Err(CursorFault::NoZero { at: self.place }),
        }
    }

    /// Reads the next `n` bytes.
    #[inline]
    #[tactic(auto, unfolding(crate::specs::Readings::take_at, crate::specs::Ahead::passed))]
    pub fn take(&mut self, n: u64) -> Result<&'a [u8], CursorFault>
        ensures read { gave_as (λ run. run.now) result self.new ≡ take_at n self.old }
        ensures kept { OnErr result (self.new ≡ self.old) }
    {
        let rest = self.rest();
        if (rest.len() as u64) < n {
            return Err(CursorFault::Ends { at: self.place });
        }
        let count = n as usize;
        self.place += count;
        Ok(&rest[..count])
    }

    /// A cursor over the next `n` bytes, which keep their places. The first cursor passes these
    /// bytes.
    #[inline]
    #[tactic(auto, using(crate::proofs::AheadLemmas::part_moved), unfolding(crate::specs::Readings::part_at))]
    pub fn part(&mut self, n: u64) -> Result<Cursor<'a>, CursorFault>
        ensures read { gave result self.new ≡ part_at n self.old }
        ensures kept { OnErr result (self.new ≡ self.old) }
    {
        let rest = self.rest();
        if (rest.len() as u64) < n {
            return Err(CursorFault::Ends { at: self.place });
        }
        let start = self.place;
        self.place += n as usize;
        Ok(Cursor {
            bytes: &self.bytes[..self.place],
            place: start,
        })
    }
}
