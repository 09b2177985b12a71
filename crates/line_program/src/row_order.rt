//! Sequences that count, with their rows in the order of their addresses.
ghost use Rattle.std.specs.Prelude.{◌≡◌, ℕ, OnOk};
ghost use Rattle.std.specs.Bool.{OnTrue};
ghost use Rattle.line_program.specs.LineAt.{least_address, row_at};
ghost use Rattle.line_program.specs.internal.Painting.{SortedFrom, least_step};

use crate::row::Row;
use std::marker::Model;
use sym_edges::OutOfMemory;

/// A sequence that counts: the addresses from `first` to `last`, both included, and its rows in the order of their addresses.
#[derive(Drop)]
pub struct CountedSequence {
    pub first: u64,
    pub last: u64,
    pub rows: Vec<Row>,
}

impl Model for CountedSequence {
    ghost use Rattle.std.specs.Prelude.{◌≤◌};
    ghost use Rattle.line_program.specs.internal.Painting.{Counted, SortedFrom};

    ghost Value = { Counted };

    ghost view = { λ s. record { first = s.first; last = s.last; rows = s.rows.items } };

    ghost invariant = { λ s. (s.first ≤ s.last) × SortedFrom 0 s.rows.items };
}

/// The lesser of an address and the least address so far.
#[inline]
fn lesser(least: Option<u64>, address: u64) -> Option<u64>
    ensures { result ≡ least_step least address }
{
    match least {
        None => Some(address),
        Some(other) => Some(address.min(other)),
    }
}

/// The least address of some rows.
pub fn least_address(rows: &[Row]) -> Option<u64>
    ensures { result ≡ least_address rows.now }
{
    let mut least = None;
    for row in rows {
        least = lesser(least, row.address);
    }
    least
}

/// Whether no row has a lower address than the row before it.
fn are_sorted(rows: &[Row]) -> bool
    ensures { OnTrue result (SortedFrom 0 rows.now) }
{
    let mut last = 0;
    for row in rows {
        if row.address < last {
            return false;
        }
        last = row.address;
    }
    true
}

/// Sorts rows by their addresses; rows with the same address stay in their order.
pub fn sort_rows(rows: &mut Vec<Row>) -> Result<(), OutOfMemory>
    ensures same { OnOk result ((a : ℕ) → row_at rows.new.items a ≡ row_at rows.old.items a) }
    ensures sorted { OnOk result (SortedFrom 0 rows.new.items) }
{
    if are_sorted(rows.as_slice()) {
        return Ok(());
    }
    rows.sort_by_key(|row| row.address)?;
    Ok(())
}
