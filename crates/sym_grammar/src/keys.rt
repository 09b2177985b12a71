//! The keyword of a line.
ghost use Rattle.std.specs.Prelude.{◌≡◌, Ok, Err};
ghost use Rattle.std.specs.List.{list_all};
ghost use Rattle.sym_records.specs.Text.{is_hex_digit, cfi_key, stack_key, worded_key, key_at};
ghost use Rattle.sym_grammar.specs.internal.Given.{Gives};

use sym_edges::Stop;
use sym_records::Keyword;
use sym_rules::{TextKind, cut_word, skip_spaces};

/// Whether the bytes are only hexadecimal digits.
#[inline]
fn are_hex_digits(word: &[u8]) -> bool
    ensures { result ≡ list_all is_hex_digit word.now }
{
    word.iter()
        .all(|b| matches!(*b, b'0'..=b'9' | b'a'..=b'f' | b'A'..=b'F'))
}

/// The keyword after `STACK CFI`, which is `INIT` or has no more words; and the bytes after it.
#[inline]
#[tactic(auto, unfolding(sym_records::specs::Text::cfi_key))]
fn cfi_key(bytes: &[u8]) -> (Keyword, &[u8])
    ensures { (result.0, result.1.now) ≡ cfi_key bytes.now }
{
    let (word, rest) = cut_word(skip_spaces(bytes));
    if word == b"INIT".as_slice() {
        (Keyword::Init, rest)
    } else {
        (Keyword::Change, bytes)
    }
}

/// The keyword after `STACK`, by the next word; and the bytes after it.
#[inline]
#[tactic(auto, unfolding(sym_records::specs::Text::stack_key))]
fn stack_key(bytes: &[u8]) -> Result<(Keyword, &[u8]), Stop<TextKind>>
    ensures { Gives result (λ x. (x.0, x.1.now)) (stack_key bytes.now) }
{
    let (word, rest) = cut_word(skip_spaces(bytes));
    if word == b"CFI".as_slice() {
        return Ok(cfi_key(rest));
    }
    if word == b"WIN".as_slice() {
        return Err(Stop::Fault(TextKind::Windows));
    }
    Err(Stop::Fault(TextKind::Unknown))
}

/// The keyword, given the first word of a line and the bytes after this word; and the bytes after
/// the keyword.
#[tactic(auto, unfolding(sym_records::specs::Text::worded_key))]
fn worded_key<'a>(word: &[u8], rest: &'a [u8]) -> Result<(Keyword, &'a [u8]), Stop<TextKind>>
    ensures { Gives result (λ x. (x.0, x.1.now)) (worded_key word.now rest.now) }
{
    if word == b"FUNC".as_slice() {
        return Ok((Keyword::Func, rest));
    }
    if word == b"INLINE".as_slice() {
        return Ok((Keyword::Inline, rest));
    }
    if word == b"STACK".as_slice() {
        return stack_key(rest);
    }
    if word == b"FILE".as_slice() {
        return Ok((Keyword::File, rest));
    }
    if word == b"INLINE_ORIGIN".as_slice() {
        return Ok((Keyword::Origin, rest));
    }
    if word == b"PUBLIC".as_slice() {
        return Ok((Keyword::Public, rest));
    }
    if word == b"INFO".as_slice() {
        return Ok((Keyword::Info, rest));
    }
    if word == b"MODULE".as_slice() {
        return Ok((Keyword::Module, rest));
    }
    Err(Stop::Fault(TextKind::Unknown))
}

/// The keyword of a line, and the bytes after it. A line record begins with a number and has no
/// keyword.
#[inline]
#[tactic(auto, unfolding(sym_records::specs::Text::key_at, sym_records::specs::Text::keyed))]
pub(crate) fn key_at(bytes: &[u8]) -> Result<(Keyword, &[u8]), Stop<TextKind>>
    ensures { Gives result (λ x. (x.0, x.1.now)) (key_at bytes.now) }
{
    let (word, rest) = cut_word(bytes);
    if are_hex_digits(word) {
        return Ok((Keyword::Line, bytes));
    }
    worded_key(word, rest)
}
