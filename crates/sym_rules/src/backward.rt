//! Text that is written backward: each call writes bytes that end just before `end`, and returns
//! where they start. So each digit is written directly to its place, and a line needs no second
//! buffer.
ghost use Rattle.std.specs.Prelude.{◌≡◌, ◌+◌, ◌<◌, ◌≤◌, [], ◌∷◌, ◌++◌, false, length, drop};
ghost use Rattle.std.specs.Fmt.{decimal, signed_decimal, digits};

use itoa::write_digits;

/// The two hexadecimal digits of each byte.
static PAIRS: [u8; 512] = *b"\
    000102030405060708090a0b0c0d0e0f\
    101112131415161718191a1b1c1d1e1f\
    202122232425262728292a2b2c2d2e2f\
    303132333435363738393a3b3c3d3e3f\
    404142434445464748494a4b4c4d4e4f\
    505152535455565758595a5b5c5d5e5f\
    606162636465666768696a6b6c6d6e6f\
    707172737475767778797a7b7c7d7e7f\
    808182838485868788898a8b8c8d8e8f\
    909192939495969798999a9b9c9d9e9f\
    a0a1a2a3a4a5a6a7a8a9aaabacadaeaf\
    b0b1b2b3b4b5b6b7b8b9babbbcbdbebf\
    c0c1c2c3c4c5c6c7c8c9cacbcccdcecf\
    d0d1d2d3d4d5d6d7d8d9dadbdcdddedf\
    e0e1e2e3e4e5e6e7e8e9eaebecedeeef\
    f0f1f2f3f4f5f6f7f8f9fafbfcfdfeff";

/// Writes the last byte of the line.
#[inline]
#[tactic(auto, using(crate::proofs::BackwardLemmas::last_byte))]
pub fn write_last(byte: u8, line: &mut [u8]) -> usize
    requires { 0 < length line.old }
    ensures start { result + 1 ≡ length line.old }
    ensures written { drop result line.new ≡ byte ∷ [] }
{
    let start = line.len() - 1;
    line[start] = byte;
    start
}

/// Writes a byte before `end`.
#[inline]
#[tactic(auto, using(crate::proofs::BackwardLemmas::byte_before))]
pub fn write_byte(byte: u8, line: &mut [u8], end: usize) -> usize
    requires some { 0 < end }
    requires within { end ≤ length line.old }
    ensures start { result + 1 ≡ end }
    ensures written { drop result line.new ≡ byte ∷ drop end line.old }
{
    let start = end - 1;
    line[start] = byte;
    start
}

/// Writes bytes before `end`.
#[inline]
#[tactic(auto, using(crate::proofs::BackwardLemmas::bytes_before))]
pub fn write_bytes(bytes: &[u8], line: &mut [u8], end: usize) -> usize
    requires room { length bytes.now ≤ end }
    requires within { end ≤ length line.old }
    ensures start { result + length bytes.now ≡ end }
    ensures written { drop result line.new ≡ bytes.now ++ drop end line.old }
{
    let start = end - bytes.len();
    line[start..end].copy_from_slice(bytes);
    start
}

/// Writes a number in lower-case hexadecimal without leading zeros.
pub fn write_hex(number: u64, line: &mut [u8], end: usize) -> usize
    requires room { 16 ≤ end }
    requires within { end ≤ length line.old }
    ensures below { result ≤ end }
    ensures short { end ≤ result + 16 }
    ensures written { drop result line.new ≡ digits 16 false number ++ drop end line.old }
{
    let mut rest = number;
    for done in 0..8 {
        let byte = (rest % 256) as usize;
        let at = write_byte(PAIRS[byte * 2 + 1], line, end - 2 * done);
        let start = write_byte(PAIRS[byte * 2], line, at);
        rest /= 256;
        if rest == 0 {
            return start + usize::from(byte < 16);
        }
    }
    unreachable!()
}

/// Writes a number of 32 bits in decimal.
#[inline]
pub fn write_decimal(number: u32, line: &mut [u8], end: usize) -> usize
    requires room { 10 ≤ end }
    requires within { end ≤ length line.old }
    ensures below { result ≤ end }
    ensures short { end ≤ result + 10 }
    ensures written { drop result line.new ≡ decimal number ++ drop end line.old }
{
    write_digits(number as u64, line, end)
}

/// Writes a signed number in decimal, with `-` if it is negative.
#[inline]
pub fn write_signed(number: i64, line: &mut [u8], end: usize) -> usize
    requires room { 21 ≤ end }
    requires within { end ≤ length line.old }
    ensures below { result ≤ end }
    ensures short { end ≤ result + 21 }
    ensures written { drop result line.new ≡ signed_decimal number ++ drop end line.old }
{
    let start = write_digits(number.unsigned_abs(), line, end);
    if number >= 0 {
        return start;
    }
    write_byte(b'-', line, start)
}
