//! The numbers of v0 names.
ghost use Rattle.std.specs.Prelude.{◌≡◌, ◌==◌, ◌<◌, ◌≤◌, ◌+◌, ◌^◌, length, take, drop, IfSome};
ghost use Rattle.std.specs.List.{list_all};
ghost use Rattle.std.specs.Option.{option_map, option_copied};
ghost use Rattle.rust_names.specs.V0Numbers.{front, eat, base_62_digit, below_64, next_62, base_62_from, base_62, after_letter, hex_digit, hex_digits, next_hex, hex_from};

/// How many leading zeros are passed at once. A number in base 62 may have many, and backreferences may lead to it again and again.
const BLOCK: usize = 64;

/// The first byte, and the bytes after it.
#[tactic(auto, unfolding(crate::specs::V0Numbers::front), using(crate::proofs::NumberLemmas::front_none, crate::proofs::NumberLemmas::front_some))]
pub(crate) fn front(bytes: &[u8]) -> Option<(u8, &[u8])>
    ensures front { option_map (λ x. (x.0, x.1.now)) result ≡ front bytes.now }
    ensures shorter { IfSome result (λ x. length x.1.now < length bytes.now) }
{
    if bytes.is_empty() {
        return None;
    }
    Some((bytes[0], bytes.split_at(1).1))
}

/// The bytes after a byte, if they begin with it.
#[tactic(auto, unfolding(crate::specs::V0Numbers::eat))]
pub(crate) fn eat(wanted: u8, bytes: &[u8]) -> Option<&[u8]>
    ensures after { option_copied result ≡ eat wanted bytes.now }
    ensures shorter { IfSome result (λ x. length x.now < length bytes.now) }
{
    match front(bytes) {
        Some((b, after)) => {
            if b == wanted {
                return Some(after);
            }
            None
        }
        None => None,
    }
}

/// The value of a digit of base 62.
fn base_62_digit(b: u8) -> Option<u64>
    ensures value { result ≡ base_62_digit b }
    ensures small { IfSome result (λ v. v < 62) }
{
    if b'a' <= b && b <= b'z' {
        return Some(u64::from(b - b'a' + 10));
    }
    if b'A' <= b && b <= b'Z' {
        return Some(u64::from(b - b'A' + 36));
    }
    if b'0' <= b && b <= b'9' {
        return Some(u64::from(b - b'0'));
    }
    None
}

/// A number, if it is below 2^64.
fn below_64(number: u128) -> Option<u64>
    ensures { result ≡ below_64 number }
{
    if number < (1 << 64) {
        return Some(number as u64);
    }
    None
}

/// The number plus one, if that is below 2^64.
fn raise(number: u64) -> Option<u64>
    ensures { result ≡ below_64 (number + 1) }
{
    below_64(u128::from(number) + 1)
}

/// A value with one more digit.
fn next_62(value: u64, b: u8) -> Option<u64>
    ensures { result ≡ next_62 value (base_62_digit b) }
{
    match base_62_digit(b) {
        Some(digit) => {
            if value < (1 << 58) {
                return Some(value * 62 + digit);
            }
            below_64(u128::from(value) * 62 + u128::from(digit))
        }
        None => None,
    }
}

/// Whether all bytes are zeros. All are looked at, since a loop without an early exit can be
/// vectorized.
#[inline(always)]
fn are_zeros(bytes: &[u8]) -> bool
    ensures { result ≡ list_all (λ b. b == 48) bytes.now }
{
    let mut zeros = true;
    for at in 0..bytes.len() {
        zeros = zeros & (bytes[at] == b'0');
    }
    zeros
}

/// The digits without their leading zeros, if these are many.
#[inline(always)]
fn without_zeros(bytes: &[u8]) -> &[u8]
    ensures same { base_62_from 0 result.now ≡ base_62_from 0 bytes.now }
    ensures within { length result.now ≤ length bytes.now }
{
    if bytes.starts_with(b"00") {
        return after_zeros(bytes);
    }
    bytes
}

/// The digits without whole blocks of leading zeros.
#[inline(never)]
fn after_zeros(bytes: &[u8]) -> &[u8]
    ensures same { base_62_from 0 result.now ≡ base_62_from 0 bytes.now }
    ensures within { length result.now ≤ length bytes.now }
{
    let mut rest = bytes;
    'zeros: while rest.len() > BLOCK {
        let (block, after) = rest.split_at(BLOCK);
        if !are_zeros(block) {
            return rest;
        }
        rest = after;
    }
    rest
}

/// The value of digits up to `_`, and the bytes after it.
#[inline(always)]
fn base_62_from(bytes: &[u8]) -> Option<(u64, &[u8])>
    ensures number { option_map (λ x. (x.0, x.1.now)) result ≡ base_62_from 0 bytes.now }
    ensures within { IfSome result (λ x. length x.1.now ≤ length bytes.now) }
{
    let mut value = 0;
    'digits: for (at, b) in bytes.iter().enumerate() {
        if *b == b'_' {
            let after = bytes.split_at(at + 1).1;
            return match raise(value) {
                Some(number) => Some((number, after)),
                None => None,
            };
        }
        match next_62(value, *b) {
            Some(more) => value = more,
            None => return None,
        }
    }
    None
}

/// A number in base 62, and the bytes after it.
#[tactic(auto, unfolding(crate::specs::V0Numbers::base_62))]
#[inline(always)]
pub(crate) fn base_62(bytes: &[u8]) -> Option<(u64, &[u8])>
    ensures number { option_map (λ x. (x.0, x.1.now)) result ≡ base_62 bytes.now }
    ensures within { IfSome result (λ x. length x.1.now ≤ length bytes.now) }
{
    match eat(b'_', bytes) {
        Some(after) => Some((0, after)),
        None => base_62_from(without_zeros(bytes)),
    }
}

/// One more than the number after a letter, or 0 if the letter is missing.
#[tactic(auto, unfolding(crate::specs::V0Numbers::after_letter))]
#[inline(always)]
pub(crate) fn after_letter(letter: u8, bytes: &[u8]) -> Option<(u64, &[u8])>
    ensures number { option_map (λ x. (x.0, x.1.now)) result ≡ after_letter letter bytes.now }
    ensures within { IfSome result (λ x. length x.1.now ≤ length bytes.now) }
{
    match eat(letter, bytes) {
        Some(after) => match base_62(after) {
            Some((number, rest)) => match raise(number) {
                Some(more) => Some((more, rest)),
                None => None,
            },
            None => None,
        },
        None => Some((0, bytes)),
    }
}

/// The value of a hexadecimal digit in lower case.
pub(crate) fn hex_digit(b: u8) -> Option<u8>
    ensures value { result ≡ hex_digit b }
    ensures small { IfSome result (λ v. v < 16) }
{
    match b {
        b'0'..=b'9' => Some(b - b'0'),
        b'a'..=b'f' => Some(b - b'a' + 10),
        _ => None,
    }
}

/// How many hexadecimal digits come before a `_`.
pub(crate) fn count_hex(bytes: &[u8]) -> Option<usize>
    ensures digits { option_map (λ n. (take n bytes.now, drop (n + 1) bytes.now)) result ≡ hex_digits bytes.now }
    ensures within { IfSome result (λ n. n < length bytes.now) }
{
    for (at, b) in bytes.iter().enumerate() {
        if *b == b'_' {
            return Some(at);
        }
        match hex_digit(*b) {
            Some(_) => {}
            None => return None,
        }
    }
    None
}

/// A value with one more digit.
fn next_hex(value: u64, b: u8) -> Option<u64>
    ensures { result ≡ next_hex value (hex_digit b) }
{
    match hex_digit(b) {
        Some(digit) => below_64(u128::from(value) * 16 + u128::from(digit)),
        None => None,
    }
}

/// The value of hexadecimal digits, if it is below 2^64.
pub(crate) fn hex_value(digits: &[u8]) -> Option<u64>
    ensures { result ≡ hex_from 0 digits.now }
{
    let mut value = 0;
    'digits: for b in digits {
        match next_hex(value, *b) {
            Some(more) => value = more,
            None => return None,
        }
    }
    Some(value)
}
