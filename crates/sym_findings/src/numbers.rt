//! The numbers that records give.
ghost use Rattle.std.specs.Prelude.{◌≡◌, ℕ, ◌||◌, ◌==◌, ◌++◌, true, [], slice_get, IfOk, OnOk};
ghost use Rattle.std.specs.Bool.{OnTrue};
ghost use Rattle.std.specs.List.{flat_map};
ghost use Rattle.std.specs.List.Sorted.{IsNonDecreasing};
ghost use Rattle.sym_findings.specs.internal.Numbers.{has_number, file_number, origin_number};

use std::alloc::Global;
use std::collections::BTreeSet;
use std::marker::Model;
use sym_edges::OutOfMemory;
use sym_records::SymLine;

/// The numbers given so far.
#[derive(Drop)]
pub struct GivenNumbers {
    kept: BTreeSet<u32>,
}

impl Model for GivenNumbers {
    ghost use Rattle.std.specs.Prelude.{List, ℕ};

    ghost Value = { List ℕ };

    ghost view = { λ t. t.kept.keys };
}

impl GivenNumbers {
    pub fn new(alloc: Global) -> GivenNumbers
        ensures { result ≡ [] }
    {
        GivenNumbers {
            kept: BTreeSet::new(alloc),
        }
    }

    /// Adds a number; returns whether it was given before.
    #[tactic(auto, using(crate::proofs::NumberLemmas::given_again, crate::proofs::NumberLemmas::given_more))]
    pub fn give(&mut self, number: u32) -> Result<bool, OutOfMemory>
        ensures again { IfOk result (λ again. again ≡ has_number self.old number) }
        ensures more { OnOk result ((n : ℕ) → has_number self.new n ≡ (has_number self.old n || number == n)) }
    {
        let added = self.kept.insert(number)?;
        Ok(!added)
    }
}

/// All numbers of some records, in ascending order.
#[derive(Drop)]
pub struct KnownNumbers {
    sorted: Vec<u32>,
}

impl Model for KnownNumbers {
    ghost use Rattle.std.specs.Prelude.{List, ℕ};
    ghost use Rattle.std.specs.List.Sorted.{IsNonDecreasing};

    ghost Value = { List ℕ };

    ghost view = { λ t. t.sorted.items };

    ghost invariant = { λ t. IsNonDecreasing t.sorted.items };
}

impl KnownNumbers {
    #[tactic(auto, using(crate::proofs::NumberLemmas::sorted_rise, crate::proofs::NumberLemmas::sorted_same))]
    pub fn of(numbers: Vec<u32>) -> Result<KnownNumbers, OutOfMemory>
        ensures { IfOk result (λ known. (n : ℕ) → has_number known n ≡ has_number numbers.items n) }
    {
        let mut sorted = numbers;
        sorted.sort()?;
        Ok(KnownNumbers { sorted })
    }

    /// Whether a number is one of these. The search begins at the index at which the number is if
    /// the numbers are consecutive.
    #[inline]
    pub fn has(&self, number: u32) -> bool
        ensures { result ≡ has_number self.now number }
    {
        has_sorted(self.sorted.as_slice(), number)
    }
}

/// Whether a number is in an ascending list of numbers.
#[inline]
fn has_sorted(sorted: &[u32], number: u32) -> bool
    requires { IsNonDecreasing sorted.now }
    ensures { result ≡ has_number sorted.now number }
{
    if stands_apart(sorted, number) {
        return true;
    }
    is_found(sorted, number)
}

#[inline]
fn number_at(sorted: &[u32], place: usize) -> Option<u32>
    ensures { result ≡ slice_get sorted.now place }
{
    sorted.get(place).copied()
}

/// Whether a number is at the index that is its distance from the first number.
#[tactic(auto, using(crate::proofs::NumberLemmas::stands_in))]
#[inline]
fn stands_apart(sorted: &[u32], number: u32) -> bool
    ensures { OnTrue result (has_number sorted.now number ≡ true) }
{
    match number_at(sorted, 0) {
        Some(first) => number_at(sorted, number.wrapping_sub(first) as usize) == Some(number),
        None => false,
    }
}

/// Whether a number is in an ascending list of numbers, by binary search.
#[tactic(auto, using(crate::proofs::NumberLemmas::by_halves))]
fn is_found(sorted: &[u32], number: u32) -> bool
    requires { IsNonDecreasing sorted.now }
    ensures { result ≡ has_number sorted.now number }
{
    sorted.binary_search(&number).is_ok()
}

/// The numbers that records give, in the order of the records.
#[derive(Drop)]
pub struct NumberLists {
    pub files: Vec<u32>,
    pub origins: Vec<u32>,
}

/// Adds the number of a record, if it gives one.
fn add_number(
    files: &mut Vec<u32>,
    origins: &mut Vec<u32>,
    line: &SymLine,
) -> Result<(), OutOfMemory>
    ensures files { OnOk result (files.new.items ≡ files.old.items ++ file_number line.now) }
    ensures origins { OnOk result (origins.new.items ≡ origins.old.items ++ origin_number line.now) }
{
    match line {
        SymLine::File { number, .. } => files.push(*number)?,
        SymLine::Origin { number, .. } => origins.push(*number)?,
        _ => {}
    }
    Ok(())
}

/// The numbers of all `FILE` and of all `INLINE_ORIGIN` records.
pub fn numbers_in(alloc: Global, lines: &[SymLine]) -> Result<NumberLists, OutOfMemory>
    ensures files { IfOk result (λ numbers. numbers.files.items ≡ flat_map file_number lines.now) }
    ensures origins { IfOk result (λ numbers. numbers.origins.items ≡ flat_map origin_number lines.now) }
{
    let mut files = Vec::new(alloc);
    let mut origins = Vec::new(alloc);
    for line in lines {
        add_number(&mut files, &mut origins, line)?;
    }
    Ok(NumberLists { files, origins })
}
