//! The fields of a line table's header that its program depends on.
ghost use Rattle.std.specs.Prelude.{◌≡◌, ◌+◌, ◌/◌, ◌%◌, ◌<◌};

use std::marker::Model;

/// The fields of a line table's header that its program depends on (DWARF 5, 6.2.4).
#[derive(Drop)]
pub struct Program<'a> {
    pub version: u16,
    pub minimum_length: u8,
    pub line_base: i8,
    pub line_range: u8,
    pub opcode_base: u8,

    /// A factor that turns the division of a special opcode by `line_range` into a multiplication
    /// and a shift.
    pub line_factor: u32,

    /// The number of operands of each standard opcode, from opcode 1 on.
    pub lengths: &'a [u8],
}

impl<'a> Model for Program<'a> {
    ghost use Rattle.std.specs.Prelude.{◌≡◌, ◌+◌, ◌/◌, ◌<◌, length};
    ghost use Rattle.line_program.specs.ProgramFields.{ProgramFields};

    ghost Value = { ProgramFields };

    ghost view = { λ p. record {
      version = p.version;
      minimum_length = p.minimum_length;
      line_base = p.line_base;
      line_range = p.line_range;
      opcode_base = p.opcode_base;
      lengths = p.lengths.now;
    } };

    ghost invariant = { λ p. (0 < p.line_range) × (length p.lengths.now + 1 ≡ p.opcode_base) × (p.line_factor ≡ 65535 / p.line_range + 1) };
}

/// Quotient and remainder of one byte by another, given the factor of the latter; computed by a
/// multiplication and a shift.
#[inline]
fn divided(number: u8, by: u8, factor: u32) -> (u8, u8)
    requires some { 0 < by }
    requires factor { factor ≡ 65535 / by + 1 }
    ensures quotient { result.0 ≡ number / by }
    ensures rest { result.1 ≡ number % by }
{
    let quotient = (u32::from(number) * factor / 65536) as u8;
    (quotient, number - quotient * by)
}

impl<'a> Program<'a> {
    /// The quotient of a special opcode by `line_range`, which advances the address, and the
    /// remainder, which advances the line.
    #[inline]
    pub fn divide(&self, adjusted: u8) -> (u8, u8)
        ensures quotient { result.0 ≡ adjusted / self.now.line_range }
        ensures rest { result.1 ≡ adjusted % self.now.line_range }
    {
        divided(adjusted, self.line_range, self.line_factor)
    }
}
