//! Tickets: numbers below a count, each drawn once.
ghost use Rattle.std.specs.Prelude.{◌≡◌, ◌+◌, ◌-◌, ◌^◌, ◌<◌, ◌≤◌, [], ◌∷◌, ◌++◌, IfOk, IfSome, IfNone};
ghost use Rattle.std.specs.List.{All};
ghost use Rattle.unit_workers.specs.Numbers.{HasEachBelow};
ghost use Rattle.unit_workers.specs.Held.{held};

use crate::lot::Lot;
use crate::rule::{Both, Draw, OneRight, Seat, Word};
use std::alloc::Global;
use std::marker::Model;
use std::mem::size_of;
use sym_edges::OutOfMemory;

/// The numbers below a count, one for each unit; each is drawn once. Threads share the tickets by reference.
#[derive(Drop)]
pub struct Tickets {
    word: Word,
    count: u64,
}

impl Model for Tickets {
    ghost use Rattle.std.specs.Prelude.{◌≡◌, ◌<◌};
    ghost use Rattle.unit_workers.specs.Held.{Roll};

    ghost Value = { Roll };

    ghost view = { λ t. record { id = t.word.shared.table_id; count = t.word.shared.key.count; workers = t.word.shared.key.workers } };

    ghost invariant = { λ t. (t.word.shared.table_id.words ≡ 1) × (t.word.shared.table_id.slots ≡ 0) × (t.count ≡ t.word.shared.key.count) × (0 < t.word.shared.key.workers) };
}

/// The right to draw, and what was drawn. It takes no bytes: only contracts know its contents.
#[derive(Drop)]
pub struct Hand {
    seat: Seat,
}

const _: () = prove!(size_of::<Hand>() == 0);

impl Model for Hand {
    ghost use Rattle.std.specs.Prelude.{◌≡◌, []};
    ghost use Rattle.unit_workers.specs.Held.{Held};

    ghost Value = { Held };

    ghost view = { λ h. record {
      roll = record { id = h.seat.table_id; count = h.seat.me.0.lot.count; workers = h.seat.me.0.lot.workers };
      drawn = h.seat.me.0.drawn;
      rights = h.seat.me.0.rights;
      share = h.seat.me.0.share;
    } };

    ghost invariant = { λ h. h.seat.me.1 ≡ [] };
}

/// Tickets for the numbers below `count`, and the hand that stands for all workers.
pub fn open_tickets(
    alloc: Global,
    count: usize,
    workers: usize,
) -> Result<(Tickets, Hand), OutOfMemory>
    requires count { count ≤ 2 ^ 32 }
    requires workers { (1 ≤ workers) × (workers ≤ 64) }
    ensures tickets { IfOk result (λ opened. (opened.0.count ≡ count) × (opened.0.workers ≡ workers)) }
    ensures hand { IfOk result (λ opened. opened.1 ≡ held opened.0 [] workers workers) }
{
    let lot = Lot {
        count: count as u64,
        workers: workers as u64,
    };
    let (word, seat) = Word::of_words(alloc, &[0], &lot)?;
    let count = lot.count;
    Ok((Tickets { word, count }, Hand { seat }))
}

impl Hand {
    /// A hand for one more worker. Allocates no memory.
    pub fn split(&mut self, tickets: &Tickets) -> Hand
        requires of { self.old.roll ≡ tickets.now }
        requires rights { 2 ≤ self.old.rights }
        ensures new { result ≡ held tickets.now [] 1 1 }
        ensures old { self.new ≡ held tickets.now self.old.drawn (self.old.rights - 1) (self.old.share - 1) }
    {
        let seat = tickets.word.shared.split_seat::<OneRight>(&mut self.seat);
        Hand { seat }
    }

    /// Draws the next number. If all are drawn there is none, and a right is spent. Allocates no
    /// memory.
    pub fn draw(&mut self, tickets: &Tickets) -> Option<usize>
        requires of { self.old.roll ≡ tickets.now }
        requires right { 0 < self.old.rights }
        ensures number { IfSome result (λ k. (k < tickets.now.count) × All (λ x. x < k) self.old.drawn) }
        ensures drawn { IfSome result (λ k. self.new ≡ held tickets.now (self.old.drawn ++ k ∷ []) self.old.rights self.old.share) }
        ensures none { IfNone result (self.new ≡ held tickets.now self.old.drawn (self.old.rights - 1) self.old.share) }
    {
        let found = tickets.word.shared.fetch_add::<Draw>(&mut self.seat, 0, 1);
        if found < tickets.count {
            Some(found as usize)
        } else {
            None
        }
    }

    /// Joins another hand: its numbers come after those of this one.
    pub fn join(&mut self, tickets: &Tickets, other: Hand)
        requires of { (self.old.roll ≡ tickets.now) × (other.roll ≡ tickets.now) }
        ensures { self.new ≡ held tickets.now (self.old.drawn ++ other.drawn) (self.old.rights + other.rights) (self.old.share + other.share) }
    {
        let Hand { seat } = other;
        tickets.word.shared.join_seat::<Both>(&mut self.seat, seat);
    }

    /// Ends the tickets. This hand stands for all workers and has no right left, so it drew each
    /// number once.
    pub fn close(self, tickets: Tickets)
        requires of { self.roll ≡ tickets }
        requires share { self.share ≡ tickets.workers }
        requires rights { self.rights ≡ 0 }
        ensures { HasEachBelow tickets.count self.drawn }
    {
        let Hand { seat } = self;
        let Tickets { word, count: _ } = tickets;
        word.close_with(seat).free();
    }
}
