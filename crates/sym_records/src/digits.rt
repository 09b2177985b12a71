//! Hexadecimal digits.
ghost use Rattle.std.specs.Prelude.{◌≡◌, ◌<◌, ◌≤◌, length, IfSome};
ghost use Rattle.sym_records.specs.FieldReading.{hex_digit};
ghost use Rattle.sym_records.specs.Fields.{hex};

use std::marker::Model;
use sym_rules::write_hex;

/// A number in lower-case hexadecimal without leading zeros; contracts see its digits. Allocates no
/// memory.
#[derive(Drop)]
pub struct HexText {
    digits: [u8; 16],
    start: usize,
}

impl Model for HexText {
    ghost use Rattle.std.specs.Prelude.{◌≤◌, List, ℕ, drop};

    ghost Value = { List ℕ };

    ghost view = { λ t. drop t.start t.digits };

    ghost invariant = { λ t. t.start ≤ 16 };
}

impl HexText {
    #[tactic(auto, using(sym_rules::proofs::BackwardLemmas::nothing_behind))]
    pub fn of(number: u64) -> HexText
        ensures { result ≡ hex number }
    {
        let mut digits = [0; 16];
        let start = write_hex(number, &mut digits, 16);
        HexText { digits, start }
    }

    pub fn as_slice(&self) -> &[u8]
        ensures { result.now ≡ self.now }
    {
        &self.digits[self.start..]
    }

    pub fn len(&self) -> usize
        ensures { result ≡ length self.now }
    {
        16 - self.start
    }
}

/// The value of a hexadecimal digit, in upper or lower case.
#[inline]
#[tactic(auto, unfolding(crate::specs::FieldReading::hex_digit))]
pub fn hex_digit(b: u8) -> Option<u8>
    ensures digit { result ≡ hex_digit b }
    ensures small { IfSome result (λ v. v < 16) }
{
    match b {
        b'0'..=b'9' => Some(b - b'0'),
        b'a'..=b'f' => Some(b - b'a' + 10),
        b'A'..=b'F' => Some(b - b'A' + 10),
        _ => None,
    }
}
