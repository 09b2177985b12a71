//! The text that a v0 name shows, which has at most 65,536 bytes.
ghost use Rattle.std.specs.Prelude.{◌≡◌, ◌<◌, ◌+◌, ◌-◌, ◌^◌, length, drop, decimal, Some, true, false, IfOk, MatchOption};
ghost use Rattle.std.specs.List.{flat_map};
ghost use Rattle.std.specs.Option.{option_map};
ghost use Rattle.rust_names.specs.V0Texts as v0;
ghost use Rattle.rust_names.specs.V0Leaves.{after_if, shown_on};
ghost use Rattle.rust_names.specs.internal.Reading.{kept};

use itoa::Buffer;
use sym_edges::OutOfMemory;
use sym_records::HexText;

/// How many bytes a text may have at most.
const TEXT_LIMIT: usize = 65_536;

/// Adds bytes to a text; false if they do not fit.
#[tactic(auto, using(crate::proofs::TextLemmas::say_over, crate::proofs::TextLemmas::say_fits))]
#[inline(always)]
pub(crate) fn add(text: &mut Vec<u8>, more: &[u8]) -> Result<bool, OutOfMemory>
    ensures { IfOk result (λ said. v0.say text.old.items more.now ≡ kept said text.new.items) }
{
    if more.len() > TEXT_LIMIT || text.len() > TEXT_LIMIT - more.len() {
        return Ok(false);
    }
    text.extend_from_slice(more)?;
    Ok(true)
}

/// Adds bytes if they are shown.
#[inline(always)]
pub(crate) fn show(text: &mut Vec<u8>, visible: bool, more: &[u8]) -> Result<bool, OutOfMemory>
    ensures { IfOk result (λ said. shown_on visible text.old.items (Some more.now) ≡ kept said text.new.items) }
{
    if !visible {
        return Ok(true);
    }
    add(text, more)
}

/// The bytes after a leaf, if all of it was added.
pub(crate) fn after_if(said: bool, bytes: &[u8]) -> Option<&[u8]>
    ensures { option_map (λ a. a.now) result ≡ after_if said bytes.now }
{
    if said { Some(bytes) } else { None }
}

/// Adds a number.
pub(crate) fn add_decimal(text: &mut Vec<u8>, number: u64) -> Result<bool, OutOfMemory>
    ensures { IfOk result (λ said. v0.say text.old.items (decimal number) ≡ kept said text.new.items) }
{
    let mut buffer = Buffer::new();
    let digits = buffer.format(number);
    add(text, digits.as_bytes())
}

/// Adds the name of the lifetime that is bound at a depth.
#[tactic(auto, using(crate::proofs::TextLemmas::say_then, crate::proofs::TextLemmas::say_stop))]
fn add_lifetime(text: &mut Vec<u8>, depth: u64) -> Result<bool, OutOfMemory>
    ensures { IfOk result (λ said. v0.say text.old.items (v0.lifetime_name depth) ≡ kept said text.new.items) }
{
    if depth < 26 {
        return add(text, &[b'\'', b'a' + depth as u8]);
    }
    if !add(text, b"'_")? {
        return Ok(false);
    }
    add_decimal(text, depth)
}

/// Adds a lifetime by its number; false if it is not bound.
#[tactic(auto, using(crate::proofs::TextLemmas::unbound, crate::proofs::TextLemmas::nameless, crate::proofs::TextLemmas::bound_so))]
pub(crate) fn show_lifetime(
    text: &mut Vec<u8>,
    bound: u64,
    number: u64,
) -> Result<bool, OutOfMemory>
    ensures { IfOk result (λ said. shown_on true text.old.items (v0.lifetime_text bound number) ≡ kept said text.new.items) }
{
    if number == 0 {
        return add(text, b"'_");
    }
    if number > bound {
        return Ok(false);
    }
    add_lifetime(text, bound - number)
}

/// Adds a comma and the lifetime that is bound at a depth.
#[tactic(auto, using(crate::proofs::TextLemmas::say_then, crate::proofs::TextLemmas::say_stop))]
fn add_next_lifetime(text: &mut Vec<u8>, depth: u64) -> Result<bool, OutOfMemory>
    ensures { IfOk result (λ said. v0.say text.old.items (v0.next_lifetime depth) ≡ kept said text.new.items) }
{
    if !add(text, b", ")? {
        return Ok(false);
    }
    add_lifetime(text, depth)
}

/// Adds `count` lifetimes from a depth on, each after a comma.
fn add_lifetimes(text: &mut Vec<u8>, count: u64, depth: u64) -> Result<bool, OutOfMemory>
    requires { depth + count < 2 ^ 64 }
    ensures { IfOk result (λ said. v0.say text.old.items (v0.lifetimes_from count depth) ≡ kept said text.new.items) }
{
    'names: for i in 0..count {
        if !add_next_lifetime(text, depth + i)? {
            return Ok(false);
        }
    }
    add(text, b"")
}

/// Adds the `for<..>` of the lifetimes that were bound last.
pub(crate) fn add_for_all(text: &mut Vec<u8>, bound: u64, count: u64) -> Result<bool, OutOfMemory>
    ensures { IfOk result (λ said. v0.say text.old.items (v0.for_all_text bound count) ≡ kept said text.new.items) }
{
    if count == 0 {
        return add(text, b"");
    }
    if !add(text, b"for<")? || !add_lifetime(text, bound.saturating_sub(count))? {
        return Ok(false);
    }
    if !add_lifetimes(text, count - 1, bound.saturating_sub(count - 1))? {
        return Ok(false);
    }
    add(text, b"> ")
}

/// Adds an integer by its value and its hexadecimal digits.
#[tactic(auto, using(crate::proofs::TextLemmas::say_then, crate::proofs::TextLemmas::say_stop))]
pub(crate) fn add_integer(
    text: &mut Vec<u8>,
    value: Option<u64>,
    digits: &[u8],
) -> Result<bool, OutOfMemory>
    ensures { IfOk result (λ said. v0.say text.old.items (v0.integer_by digits.now value) ≡ kept said text.new.items) }
{
    match value {
        Some(number) => add_decimal(text, number),
        None => {
            if !add(text, b"0x")? {
                return Ok(false);
            }
            add(text, digits)
        }
    }
}

/// The character with a code.
pub(crate) fn character(code: u64) -> Option<char>
    ensures { MatchOption result (v0.is_scalar code ≡ false) (λ c. (v0.is_scalar code ≡ true) × (c ≡ code)) }
{
    if code > 0x10_ffff {
        return None;
    }
    char::from_u32(code as u32)
}

/// Adds the code of a character.
#[tactic(auto, using(crate::proofs::TextLemmas::say_then, crate::proofs::TextLemmas::say_stop))]
fn add_code(text: &mut Vec<u8>, c: u32) -> Result<bool, OutOfMemory>
    ensures { IfOk result (λ said. v0.say text.old.items (v0.code_text c) ≡ kept said text.new.items) }
{
    if !add(text, b"\\u{")? || !add(text, HexText::of(u64::from(c)).as_slice())? {
        return Ok(false);
    }
    add(text, b"}")
}

/// Adds a character between quotes of a kind.
#[tactic(auto, unfolding(crate::specs::V0Texts::escaped))]
fn add_escaped(text: &mut Vec<u8>, quote: u8, c: u32) -> Result<bool, OutOfMemory>
    ensures { IfOk result (λ said. v0.say text.old.items (v0.escaped quote c) ≡ kept said text.new.items) }
{
    if c == 0 {
        return add(text, b"\\0");
    }
    if c == 9 {
        return add(text, b"\\t");
    }
    if c == 10 {
        return add(text, b"\\n");
    }
    if c == 13 {
        return add(text, b"\\r");
    }
    if c == 92 {
        return add(text, b"\\\\");
    }
    if c == u32::from(quote) {
        return add(text, &[b'\\', quote]);
    }
    if 32 <= c && c <= 126 {
        return add(text, &[c as u8]);
    }
    add_code(text, c)
}

/// Adds characters between quotes of a kind.
fn add_all_escaped(text: &mut Vec<u8>, quote: u8, characters: &[char]) -> Result<bool, OutOfMemory>
    ensures { IfOk result (λ said. v0.say text.old.items (flat_map (v0.escaped quote) characters.now) ≡ kept said text.new.items) }
{
    'characters: for c in characters {
        if !add_escaped(text, quote, u32::from(*c))? {
            return Ok(false);
        }
    }
    add(text, b"")
}

/// Adds characters in quotes.
#[tactic(auto, using(crate::proofs::TextLemmas::say_then, crate::proofs::TextLemmas::say_stop))]
pub(crate) fn add_quoted(
    text: &mut Vec<u8>,
    quote: u8,
    characters: &[char],
) -> Result<bool, OutOfMemory>
    ensures { IfOk result (λ said. v0.say text.old.items (v0.quoted quote characters.now) ≡ kept said text.new.items) }
{
    if !add(text, &[quote])? || !add_all_escaped(text, quote, characters)? {
        return Ok(false);
    }
    add(text, &[quote])
}
