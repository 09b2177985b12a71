//! A line that is written from its end to its start.
ghost use Rattle.std.specs.Prelude.{◌≡◌, ◌+◌, ◌≤◌, [], ◌∷◌, ◌++◌, length, OnOk};
ghost use Rattle.std.specs.Fmt.{signed_decimal};
ghost use Rattle.sym_edges.specs.Abi.{register_name};
ghost use Rattle.sym_records.specs.Canon.{init_front, change_front};

use std::marker::Model;
use sym_edges::OutOfMemory;
use sym_records::{write_change, write_init};
use sym_rules::{write_byte, write_bytes, write_register, write_signed};

/// Room for `N` bytes; those from `at` on are written. More bytes are put before them. Contracts see the written bytes.
#[derive(Drop)]
pub struct BackwardLine<const N: usize> {
    room: [u8; N],
    at: usize,
}

impl<const N: usize> Model for BackwardLine<N> {
    ghost use Rattle.std.specs.Prelude.{◌≤◌, List, ℕ, drop};

    ghost Value = { List ℕ };

    ghost view = { λ l. drop l.at l.room };

    ghost invariant = { λ l. l.at ≤ N };
}

impl<const N: usize> BackwardLine<N> {
    /// An empty line.
    pub fn new() -> BackwardLine<N>
        ensures { result ≡ [] }
    {
        BackwardLine {
            room: [0; N],
            at: N,
        }
    }

    /// Empties the line.
    #[inline]
    pub fn clear(&mut self)
        ensures { self.new ≡ [] }
    {
        self.at = N;
    }

    #[inline]
    pub fn len(&self) -> usize
        ensures { result ≡ length self.now }
    {
        N - self.at
    }

    /// Adds the line to a text.
    #[inline]
    pub fn add_to(&self, text: &mut Vec<u8>) -> Result<(), OutOfMemory>
        ensures { OnOk result (text.new.items ≡ text.old.items ++ self.now) }
    {
        let room = &self.room[..];
        text.extend_from_slice(&room[self.at..])?;
        Ok(())
    }

    #[inline]
    pub fn put_byte(&mut self, byte: u8)
        requires room { length self.old + 1 ≤ N }
        ensures { self.new ≡ byte ∷ self.old }
    {
        self.at = write_byte(byte, &mut self.room, self.at);
    }

    #[inline]
    pub fn put_bytes(&mut self, bytes: &[u8])
        requires room { length self.old + length bytes.now ≤ N }
        ensures { self.new ≡ bytes.now ++ self.old }
    {
        self.at = write_bytes(bytes, &mut self.room, self.at);
    }

    /// Puts a signed number in decimal.
    #[inline(always)]
    pub fn put_signed(&mut self, number: i64)
        requires room { length self.old + 21 ≤ N }
        ensures short { length self.new ≤ length self.old + 21 }
        ensures written { self.new ≡ signed_decimal number ++ self.old }
    {
        self.at = write_signed(number, &mut self.room, self.at);
    }

    /// Puts the name of a register, which is empty from 16 on.
    #[inline]
    pub fn put_register(&mut self, number: u8)
        requires room { length self.old + 4 ≤ N }
        ensures short { length self.new ≤ length self.old + 4 }
        ensures written { self.new ≡ register_name number ++ self.old }
    {
        self.at = write_register(number, &mut self.room, self.at);
    }

    /// Puts `STACK CFI INIT`, the address and the size.
    #[inline]
    pub fn put_init(&mut self, address: u64, size: u64)
        requires room { length self.old + 48 ≤ N }
        ensures { self.new ≡ init_front address size ++ self.old }
    {
        self.at = write_init(address, size, &mut self.room, self.at);
    }

    /// Puts `STACK CFI` and the address.
    #[inline]
    pub fn put_change(&mut self, address: u64)
        requires room { length self.old + 26 ≤ N }
        ensures { self.new ≡ change_front address ++ self.old }
    {
        self.at = write_change(address, &mut self.room, self.at);
    }
}
