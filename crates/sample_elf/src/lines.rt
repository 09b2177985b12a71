//! The line tables of the units.
ghost use Rattle.std.specs.Prelude.{◌≡◌, ◌<◌, ◌++◌, ◌∷◌, [], OnOk, IfOk};
ghost use Rattle.sample_elf.specs.Made.{code_at, by_version, line_program, line_header, line_body, line_table};

use crate::pieces::put_all;
use itoa::Buffer;
use std::alloc::Global;
use sym_edges::OutOfMemory;

/// The first fields of the headers of both versions.
const LINE_FIELDS: [u8; 18] = [1, 1, 1, 0xfb, 14, 13, 0, 1, 1, 1, 1, 0, 0, 0, 1, 0, 0, 1];

/// The first address of a unit's code.
pub fn code_at(k: u32) -> u64
    ensures { result ≡ code_at k }
{
    0x40_1000 + 64 * u64::from(k)
}

/// Adds the program of a unit whose code begins at an address.
#[tactic(auto, unfolding(crate::specs::Made::line_program))]
fn put_program(bytes: &mut Vec<u8>, code: u64) -> Result<(), OutOfMemory>
    ensures { OnOk result (bytes.new.items ≡ bytes.old.items ++ line_program code) }
{
    put_all(
        bytes,
        &[
            &[0x00, 9, 0x02],
            &code.to_le_bytes(),
            &[
                0x03, 9, 0x01, 0x02, 16, 0x03, 1, 0x01, 0x02, 16, 0x03, 9, 0x01, 0x02, 16, 0x03, 1,
                0x01, 0x02, 16,
            ],
            &[0x00, 1, 0x01],
        ],
    )
}

/// The header of a unit's table, after the length of the header.
#[tactic(auto, unfolding(crate::specs::Made::line_header_4, crate::specs::Made::line_header_5, crate::specs::Made::line_fields))]
fn line_header(alloc: Global, k: u32) -> Result<Vec<u8>, OutOfMemory>
    ensures { IfOk result (λ bytes. bytes.items ≡ line_header k) }
{
    let mut buffer = Buffer::new();
    let digits = buffer.format(k).as_bytes();
    let mut bytes = Vec::new(alloc);
    if k % 2 == 0 {
        put_all(
            &mut bytes,
            &[
                &LINE_FIELDS,
                &[1, 0x01, 0x08, 1],
                b"/s",
                &[0],
                &[2, 0x01, 0x08, 0x02, 0x0b, 2],
                b"u",
                digits,
                b".c",
                &[0, 0],
                b"u",
                digits,
                b".c",
                &[0, 0],
            ],
        )?;
    } else {
        put_all(
            &mut bytes,
            &[&LINE_FIELDS, &[0], b"u", digits, b".c", &[0, 0, 0, 0, 0]],
        )?;
    }
    Ok(bytes)
}

/// A unit's version, and in version 5 the sizes of addresses and of segment selectors.
fn version_fields(k: u32) -> &'static [u8]
    ensures { result.now ≡ by_version k (5 ∷ 0 ∷ 8 ∷ 0 ∷ []) (4 ∷ 0 ∷ []) }
{
    if k % 2 == 0 {
        return &[5, 0, 8, 0];
    }
    &[4, 0]
}

/// The table of a unit, after its length.
#[tactic(auto, using(crate::proofs::LengthLemmas::header_length), unfolding(crate::specs::Made::line_body))]
fn line_body(alloc: Global, k: u32) -> Result<Vec<u8>, OutOfMemory>
    requires few { k < 20000 }
    ensures { IfOk result (λ bytes. bytes.items ≡ line_body k) }
{
    let header = line_header(alloc, k)?;
    let mut bytes = Vec::new(alloc);
    put_all(
        &mut bytes,
        &[
            version_fields(k),
            &(header.len() as u32).to_le_bytes(),
            &header,
        ],
    )?;
    put_program(&mut bytes, code_at(k))?;
    Ok(bytes)
}

/// Adds the table of a unit.
#[tactic(auto, using(crate::proofs::LengthLemmas::body_length), unfolding(crate::specs::Made::line_table))]
pub fn put_line_table(alloc: Global, bytes: &mut Vec<u8>, k: u32) -> Result<(), OutOfMemory>
    requires few { k < 20000 }
    ensures { OnOk result (bytes.new.items ≡ bytes.old.items ++ line_table k) }
{
    let body = line_body(alloc, k)?;
    put_all(bytes, &[&(body.len() as u32).to_le_bytes(), &body])
}
