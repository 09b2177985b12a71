//! Numbers and bytes, given their hexadecimal digits.
ghost use Rattle.std.specs.Prelude.{◌≡◌, ok_or};
ghost use Rattle.sym_records.specs.FieldReading.{hex_value};
ghost use Rattle.state_file.specs.StateText.{bytes_of};
ghost use Rattle.state_file.specs.internal.Parts.{Gives};

use crate::fault::StateKind;
use hex::FromHexError;
use std::alloc::Global;
use sym_edges::{ByteRun, Stop};
use sym_records::hex_digit;

/// The number with these hexadecimal digits, at most 16.
#[tactic(auto, using(crate::proofs::HexLemmas::hex_more, crate::proofs::HexLemmas::hex_bad, crate::proofs::HexLemmas::hex_end, crate::proofs::HexLemmas::hex_long))]
pub fn hex_value(word: &[u8]) -> Option<u64>
    ensures { result ≡ hex_value word.now }
{
    if word.len() > 16 {
        return None;
    }
    let mut n: u64 = 0;
    'digits: for (at, b) in word.iter().enumerate() {
        match hex_digit(*b) {
            Some(v) => n = n * 16 + u64::from(v),
            None => return None,
        }
    }
    Some(n)
}

/// The bytes of pairs of digits.
pub(crate) fn bytes_of(alloc: Global, digits: &[u8]) -> Result<ByteRun, Stop<StateKind>>
    ensures { Gives result (ok_or (bytes_of digits.now) StateKind.Hex) }
{
    match hex::decode(alloc, digits) {
        Ok(bytes) => Ok(ByteRun::of(bytes)),
        Err(error) => match error {
            FromHexError::OutOfMemory => Err(Stop::NoMemory),
            _ => Err(Stop::Fault(StateKind::Hex)),
        },
    }
}
