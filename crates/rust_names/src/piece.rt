//! The pieces of a part of a path: escapes, `..`, and bytes.
ghost use Rattle.std.specs.Prelude.{◌≡◌, ◌<◌, ◌≤◌, ◌++◌, length, IfSome, OnOk};
ghost use Rattle.rust_names.specs.Legacy.{written, shown, begins_with_dot};
ghost use Rattle.rust_names.specs.internal.Reading.{sign_of, code_of, plain_piece, piece_of};

use crate::numbers::hex_digit;
use sym_edges::OutOfMemory;

/// A piece of a part, as it is read from left to right.
#[derive(Clone, Copy, Debug, PartialEq, Eq)]
pub enum Piece {
    /// `$SP$`
    At,
    /// `$BP$`
    Star,
    /// `$RF$`
    And,
    /// `$LT$`
    Less,
    /// `$GT$`
    Greater,
    /// `$LP$`
    Opening,
    /// `$RP$`
    Closing,
    /// `$C$`
    Comma,
    /// `$uHH$`: a byte by its two hexadecimal digits.
    Code(u8),
    /// `..`
    Scope,
    /// A byte that stands for itself.
    Plain(u8),
}

/// The sign that an escape stands for.
#[tactic(auto, unfolding(crate::specs::internal::Reading::sign_of))]
fn sign_of(bytes: &[u8]) -> Option<Piece>
    ensures { result ≡ sign_of bytes.now }
{
    if bytes.starts_with(b"$SP$") {
        return Some(Piece::At);
    }
    if bytes.starts_with(b"$BP$") {
        return Some(Piece::Star);
    }
    if bytes.starts_with(b"$RF$") {
        return Some(Piece::And);
    }
    if bytes.starts_with(b"$LT$") {
        return Some(Piece::Less);
    }
    if bytes.starts_with(b"$GT$") {
        return Some(Piece::Greater);
    }
    if bytes.starts_with(b"$LP$") {
        return Some(Piece::Opening);
    }
    if bytes.starts_with(b"$RP$") {
        return Some(Piece::Closing);
    }
    if bytes.starts_with(b"$C$") {
        return Some(Piece::Comma);
    }
    None
}

/// The byte that an escape stands for.
#[tactic(auto, unfolding(crate::specs::internal::Reading::code_of))]
fn code_of(bytes: &[u8]) -> Option<Piece>
    ensures { result ≡ code_of bytes.now }
{
    if bytes.len() < 5 || bytes[1] != b'u' || bytes[4] != b'$' {
        return None;
    }
    let high = hex_digit(bytes[2])?;
    let low = hex_digit(bytes[3])?;
    let byte = high * 16 + low;
    if 0x20 <= byte && byte <= 0x7e {
        return Some(Piece::Code(byte));
    }
    None
}

fn begins_with_dot(bytes: &[u8]) -> bool
    ensures { result ≡ begins_with_dot bytes.now }
{
    match bytes.first() {
        Some(b) => *b == b'.',
        None => false,
    }
}

/// A byte that stands for itself.
fn plain_piece(b: u8) -> Option<Piece>
    ensures { result ≡ plain_piece b }
{
    if 0x21 <= b && b <= 0x7e {
        return Some(Piece::Plain(b));
    }
    None
}

/// The piece at the start of the bytes.
#[tactic(auto, using(crate::proofs::FrontLemmas::piece_none, crate::proofs::FrontLemmas::piece_at, crate::proofs::PieceLemmas::piece_within))]
pub(crate) fn piece_of(bytes: &[u8]) -> Option<Piece>
    ensures piece { result ≡ piece_of bytes.now }
    ensures within { IfSome result (λ p. length (written p) ≤ length bytes.now) }
{
    if bytes.is_empty() {
        return None;
    }
    let b = bytes[0];
    if b == b'$' {
        return match sign_of(bytes) {
            Some(piece) => Some(piece),
            None => code_of(bytes),
        };
    }
    if b == b'.' && begins_with_dot(bytes.split_at(1).1) {
        return Some(Piece::Scope);
    }
    plain_piece(b)
}

/// How many bytes a piece takes.
pub(crate) fn written_length(piece: Piece) -> usize
    ensures { result ≡ length (written piece) }
{
    match piece {
        Piece::At
        | Piece::Star
        | Piece::And
        | Piece::Less
        | Piece::Greater
        | Piece::Opening
        | Piece::Closing => 4,
        Piece::Comma => 3,
        Piece::Code(_) => 5,
        Piece::Scope => 2,
        Piece::Plain(_) => 1,
    }
}

/// Adds what a piece shows.
pub(crate) fn add_shown(text: &mut Vec<u8>, piece: Piece) -> Result<(), OutOfMemory>
    ensures { OnOk result (text.new.items ≡ text.old.items ++ shown piece) }
{
    let byte = match piece {
        Piece::At => b'@',
        Piece::Star => b'*',
        Piece::And => b'&',
        Piece::Less => b'<',
        Piece::Greater => b'>',
        Piece::Opening => b'(',
        Piece::Closing => b')',
        Piece::Comma => b',',
        Piece::Code(byte) => byte,
        Piece::Plain(byte) => byte,
        Piece::Scope => {
            text.extend_from_slice(b"::")?;
            return Ok(());
        }
    };
    text.push(byte)?;
    Ok(())
}
