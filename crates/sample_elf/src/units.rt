//! The units, and their line tables.
ghost use Rattle.std.specs.Prelude.{◌≡◌, ◌<◌, ◌≤◌, ◌^◌, ◌++◌, ◌∷◌, [], OnOk, IfOk};
ghost use Rattle.sample_elf.specs.Made.{by_version, root_texts, root_numbers, unit_root, unit_front, function, inlined_copy, unit_functions, unit_body, unit, units, line_tables};

use crate::lines::{code_at, put_line_table};
use crate::pieces::put_all;
use itoa::Buffer;
use std::alloc::Global;
use sym_edges::OutOfMemory;

/// The header of a unit, after its length.
fn unit_header(k: u32) -> &'static [u8]
    ensures { result.now ≡ by_version k (5 ∷ 0 ∷ 1 ∷ 8 ∷ 0 ∷ 0 ∷ 0 ∷ 0 ∷ []) (4 ∷ 0 ∷ 0 ∷ 0 ∷ 0 ∷ 0 ∷ 8 ∷ []) }
{
    if k % 2 == 0 {
        return &[5, 0, 1, 8, 0, 0, 0, 0];
    }
    &[4, 0, 0, 0, 0, 0, 8]
}

/// Adds the name of a unit, and its compilation directory.
#[tactic(auto, unfolding(crate::specs::Made::root_texts))]
fn put_root_texts(bytes: &mut Vec<u8>, digits: &[u8]) -> Result<(), OutOfMemory>
    ensures { OnOk result (bytes.new.items ≡ bytes.old.items ++ root_texts digits.now) }
{
    put_all(bytes, &[&[1], b"u", digits, b".c", &[0], b"/s", &[0]])
}

/// Adds the offset of a unit's line table, its first address and its size.
#[tactic(auto, unfolding(crate::specs::Made::root_numbers))]
fn put_root_numbers(bytes: &mut Vec<u8>, code: u64, table: u32) -> Result<(), OutOfMemory>
    ensures { OnOk result (bytes.new.items ≡ bytes.old.items ++ root_numbers code table) }
{
    put_all(
        bytes,
        &[&table.to_le_bytes(), &code.to_le_bytes(), &[64, 0, 0, 0]],
    )
}

/// Adds the root of a unit, given the digits of its number, its first address and the offset of its line table.
#[tactic(auto, using(crate::proofs::PieceLemmas::both), unfolding(crate::specs::Made::unit_root))]
fn put_root(bytes: &mut Vec<u8>, digits: &[u8], code: u64, table: u32) -> Result<(), OutOfMemory>
    ensures { OnOk result (bytes.new.items ≡ bytes.old.items ++ unit_root digits.now code table) }
{
    put_root_texts(bytes, digits)?;
    put_root_numbers(bytes, code, table)
}

/// The header and the root of a unit.
#[tactic(auto, using(crate::proofs::PieceLemmas::started), unfolding(crate::specs::Made::unit_front))]
fn unit_front(alloc: Global, k: u32, code: u64, table: u32) -> Result<Vec<u8>, OutOfMemory>
    ensures { IfOk result (λ bytes. bytes.items ≡ unit_front k code table) }
{
    let mut buffer = Buffer::new();
    let mut bytes = Vec::from_slice(alloc, unit_header(k))?;
    put_root(&mut bytes, buffer.format(k).as_bytes(), code, table)?;
    Ok(bytes)
}

/// Adds a function of 32 bytes.
#[tactic(auto, unfolding(crate::specs::Made::function))]
fn put_function(
    bytes: &mut Vec<u8>,
    abbreviation: u8,
    letter: &[u8],
    k: u32,
    address: u64,
) -> Result<(), OutOfMemory>
    ensures { OnOk result (bytes.new.items ≡ bytes.old.items ++ function abbreviation letter.now k address) }
{
    let mut buffer = Buffer::new();
    let digits = buffer.format(k).as_bytes();
    put_all(
        bytes,
        &[
            &[abbreviation],
            letter,
            digits,
            &[0],
            &address.to_le_bytes(),
            &[32, 0, 0, 0],
        ],
    )
}

/// Adds the inlined copy of a function, which is at an offset in the unit, and the ends of children.
#[tactic(auto, unfolding(crate::specs::Made::inlined_copy))]
fn put_copy(bytes: &mut Vec<u8>, code: u64, origin: u32) -> Result<(), OutOfMemory>
    requires low { code < 2 ^ 32 }
    ensures { OnOk result (bytes.new.items ≡ bytes.old.items ++ inlined_copy code origin) }
{
    put_all(
        bytes,
        &[
            &[4],
            &origin.to_le_bytes(),
            &(code + 8).to_le_bytes(),
            &[8, 0, 0, 0, 1, 5, 0, 0],
        ],
    )
}

/// Adds the functions of a unit, the first of which is at an offset in it.
#[tactic(auto, using(crate::proofs::PieceLemmas::three), unfolding(crate::specs::Made::unit_functions))]
fn put_functions(bytes: &mut Vec<u8>, k: u32, code: u64, origin: u32) -> Result<(), OutOfMemory>
    requires low { code < 2 ^ 32 }
    ensures { OnOk result (bytes.new.items ≡ bytes.old.items ++ unit_functions k code origin) }
{
    put_function(bytes, 3, b"g", k, code + 32)?;
    put_function(bytes, 2, b"f", k, code)?;
    put_copy(bytes, code, origin)
}

/// A unit, after its length.
#[tactic(auto, using(crate::proofs::LengthLemmas::front_length), unfolding(crate::specs::Made::unit_body))]
fn unit_body(alloc: Global, k: u32, code: u64, table: u32) -> Result<Vec<u8>, OutOfMemory>
    requires few { k < 20000 }
    requires low { code < 2 ^ 32 }
    ensures { IfOk result (λ bytes. bytes.items ≡ unit_body k code table) }
{
    let mut bytes = unit_front(alloc, k, code, table)?;
    let origin = 4 + bytes.len() as u32;
    put_functions(&mut bytes, k, code, origin)?;
    Ok(bytes)
}

/// Adds a unit.
#[tactic(auto, using(crate::proofs::LengthLemmas::unit_body_length), unfolding(crate::specs::Made::unit))]
fn put_unit(
    alloc: Global,
    bytes: &mut Vec<u8>,
    k: u32,
    code: u64,
    table: u32,
) -> Result<(), OutOfMemory>
    requires few { k < 20000 }
    requires low { code < 2 ^ 32 }
    ensures { OnOk result (bytes.new.items ≡ bytes.old.items ++ unit k code table) }
{
    let body = unit_body(alloc, k, code, table)?;
    put_all(bytes, &[&(body.len() as u32).to_le_bytes(), &body])
}

/// `.debug_info` and `.debug_line`.
#[derive(Drop)]
pub struct UnitSections {
    pub units: Vec<u8>,
    pub lines: Vec<u8>,
}

/// The units of a file, and their line tables.
#[tactic(auto, using(crate::proofs::LengthLemmas::tables_length, crate::proofs::PieceLemmas::one_unit, crate::proofs::PieceLemmas::one_table), unfolding(crate::specs::Made::line_tables, crate::specs::Made::units))]
pub fn make_units(alloc: Global, n: u32) -> Result<UnitSections, OutOfMemory>
    requires few { n ≤ 20000 }
    ensures units { IfOk result (λ made. made.units.items ≡ units n) }
    ensures lines { IfOk result (λ made. made.lines.items ≡ line_tables n) }
{
    let mut units = Vec::new(alloc);
    let mut lines = Vec::new(alloc);
    'units: for k in 0..n {
        put_unit(alloc, &mut units, k, code_at(k), lines.len() as u32)?;
        put_line_table(alloc, &mut lines, k)?;
    }
    Ok(UnitSections { units, lines })
}
