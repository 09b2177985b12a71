//! Spells the records of functions, share by share.
ghost use Rattle.std.specs.Prelude.{◌≡◌, ◌++◌, [], map, length, IfOk};
ghost use Rattle.std.specs.List.{flat_map};
ghost use Rattle.sym_records.specs.Spelled.{text_bytes};
ghost use Rattle.func_records.specs.internal.Origins.{all_refs, ref_numbers, all_numbers};
ghost use Rattle.func_records.specs.internal.Parts.{AddsParts};
ghost use Rattle.unit_workers.specs.Shares.{share};
ghost use Rattle.func_records.specs.internal.Shares.{all_held, AreFound, AddsShare, AreSplit, CanSpell};

use crate::found::FoundShare;
use crate::numbers::numbers_at;
use crate::parts::add_parts;
use crate::shares::SHARE;
use crate::writer::FuncWriter;
use func_flatten::Piece;
use std::alloc::Global;
use std::marker::Model;
use std::thread::Threads;
use sym_edges::OutOfMemory;
use sym_records::TextPieces;
use unit_workers::{Crew, NoGate, UnitJob, share_of};

/// Room for the text of a share, so that it is not copied as it grows. Unused room is given back.
const ROOM: usize = 1 << 20;

/// The numbers of the names that the entries of each share give.
fn split_numbers<'n>(
    alloc: Global,
    writer: &FuncWriter<'_, '_, '_>,
    shares: &[FoundShare],
    numbers: &'n [u32],
) -> Result<Vec<&'n [u32]>, OutOfMemory>
    requires { numbers.now ≡ ref_numbers writer.now.numbers writer.now.units.now (all_refs shares.now) }
    ensures { IfOk result (λ split. AreSplit writer.now.numbers writer.now.units.now shares.now split.items) }
{
    let mut split = Vec::with_capacity(alloc, shares.len())?;
    let mut rest = numbers;
    'shares: for k in 0..shares.len() {
        let (here, later) = rest.split_at(shares[k].refs.len());
        split.push(here)?;
        rest = later;
    }
    Ok(split)
}

/// A job that spells records share by share: the pieces, what was found for them, and the numbers
/// of the names that the entries found there give.
#[derive(Drop)]
struct Speller<'s, 'u, 'a, 'n> {
    writer: &'s FuncWriter<'u, 'a, 'n>,
    pieces: &'s [Piece],
    shares: &'s [FoundShare],
    numbers: &'s [&'s [u32]],
}

impl<'s, 'u, 'a, 'n> Model for Speller<'s, 'u, 'a, 'n> {
    ghost use Rattle.func_records.specs.internal.Shares.{SpellerParts, CanSpell};

    ghost Value = { SpellerParts };

    ghost view = { λ s. record { base = s.writer.now.base; units = s.writer.now.units.now; numbers = s.writer.now.numbers; pieces = s.pieces.now; shares = s.shares.now; split = s.numbers.now } };

    ghost invariant = { λ s. CanSpell (record { base = s.writer.now.base; units = s.writer.now.units.now; numbers = s.writer.now.numbers; pieces = s.pieces.now; shares = s.shares.now; split = s.numbers.now }) };
}

impl<'s, 'u, 'a, 'n> Speller<'s, 'u, 'a, 'n> {
    fn of(
        writer: &'s FuncWriter<'u, 'a, 'n>,
        pieces: &'s [Piece],
        shares: &'s [FoundShare],
        numbers: &'s [&'s [u32]],
    ) -> Speller<'s, 'u, 'a, 'n>
        requires { CanSpell (record { base = writer.now.base; units = writer.now.units.now; numbers = writer.now.numbers; pieces = pieces.now; shares = shares.now; split = numbers.now }) }
        ensures { result ≡ record { base = writer.now.base; units = writer.now.units.now; numbers = writer.now.numbers; pieces = pieces.now; shares = shares.now; split = numbers.now } }
    {
        Speller {
            writer,
            pieces,
            shares,
            numbers,
        }
    }
}

impl<'s, 'u, 'a, 'n> UnitJob for Speller<'s, 'u, 'a, 'n> {
    type Out = TextPieces;

    type Scratch = ();

    ghost gives = { λ s k text. AddsShare s k (text_bytes text) };

    fn scratch(&self, _alloc: Global) -> Result<(), OutOfMemory> {
        Ok(())
    }

    /// A number after the last share has no result; no worker draws it.
    fn run(&self, alloc: Global, k: usize, _scratch: &mut ()) -> Result<TextPieces, OutOfMemory> {
        if k >= self.shares.len() {
            return Err(OutOfMemory);
        }
        let found = &self.shares[k];
        let origins = numbers_at(alloc, self.numbers[k], found.places.as_slice())?;
        let mut text = TextPieces {
            full: Vec::new(alloc),
            last: Vec::with_capacity(alloc, ROOM)?,
        };
        add_parts(
            alloc,
            self.writer,
            share_of(self.pieces, SHARE, k),
            &found.held,
            origins.as_slice(),
            &mut text,
        )?;
        text.last.shrink_to_fit();
        Ok(text)
    }
}

/// A text, followed by the texts of all shares.
fn join_shares(front: TextPieces, shares: Vec<TextPieces>) -> Result<TextPieces, OutOfMemory>
    ensures { IfOk result (λ text. text_bytes text ≡ text_bytes front ++ flat_map text_bytes shares.items) }
{
    let mut left = shares;
    left.reverse();
    let mut text = front;
    'shares: while let Some(one) = left.pop() {
        text.append(one)?;
    }
    Ok(text)
}

/// Pieces, what was found for them share by share, and the numbers of the names that the entries of all shares give.
#[derive(Clone, Copy)]
pub struct FoundPieces<'s> {
    pub pieces: &'s [Piece],
    pub shares: &'s [FoundShare],
    pub numbers: &'s [u32],
}

/// Adds the records of pieces, their inlined copies and their lines, spelled by a crew of workers.
pub fn add_shares<R: Threads + Sync>(
    crew: &Crew<'_, R>,
    writer: &FuncWriter<'_, '_, '_>,
    found: FoundPieces<'_>,
    front: TextPieces,
) -> Result<TextPieces, OutOfMemory>
    requires found { AreFound writer.now.units.now found.pieces.now found.shares.now }
    requires numbered { found.numbers.now ≡ ref_numbers writer.now.numbers writer.now.units.now (all_refs found.shares.now) }
    ensures { IfOk result (λ text. AddsParts writer.now.base writer.now.numbers writer.now.units.now found.entry.pieces.now (all_held found.entry.shares.now) (text_bytes front) (text_bytes text)) }
{
    let FoundPieces {
        pieces,
        shares,
        numbers,
    } = found;
    let split = split_numbers(crew.alloc(), writer, shares, numbers)?;
    let speller = Speller::of(writer, pieces, shares, split.as_slice());
    let texts = crew.run(&speller, &NoGate, shares.len())?;
    let text = join_shares(front, texts)?;
    Ok(text)
}
