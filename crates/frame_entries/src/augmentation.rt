//! The augmentation of a CIE: the letters of its string, and the part of the augmentation data for each letter.
ghost use Rattle.std.specs.Prelude.{◌≡◌, true, IfOk};
ghost use Rattle.std.specs.List.{list_all};
ghost use Rattle.leb_cursor.specs.Ahead.{gave};
ghost use Rattle.frame_entries.specs.Listing.{from_start};
ghost use Rattle.frame_entries.specs.Cies.{is_letter, is_understood, is_personality, personality_at, encoding_at, letter_at, letters_at, encodings_of};
ghost use Rattle.frame_entries.specs.internal.KnownEncodings.{LastIsRead};

use crate::pointer::{format_of, is_encoding, is_format, read_number};
use crate::raw_entries::cursor_over;
use leb_cursor::Cursor;
use sym_edges::Reason;

/// The encoding of pointers, from the last `R`, and whether the encoding of each `R` is one that is read.
#[derive(Clone, Copy, PartialEq, Eq, Debug)]
pub struct Encodings {
    pub pointer: u8,
    pub known: bool,
}

#[inline]
#[tactic(auto, unfolding(crate::specs::Cies::is_letter))]
fn is_letter(letter: u8) -> bool
    ensures { result ≡ is_letter letter }
{
    letter == b'L' || letter == b'P' || letter == b'R' || letter == b'S'
}

fn are_letters(letters: &[u8]) -> bool
    ensures { result ≡ list_all is_letter letters.now }
{
    letters.iter().all(|letter| is_letter(*letter))
}

/// Whether the text is empty, or `z` and then known letters.
#[tactic(auto, unfolding(crate::specs::Cies::is_understood))]
pub fn is_understood(text: &[u8]) -> bool
    ensures { result ≡ is_understood text.now }
{
    match text {
        [] => true,
        [first, letters @ ..] => {
            if *first == b'z' {
                are_letters(letters)
            } else {
                false
            }
        }
    }
}

#[tactic(auto, unfolding(crate::specs::Cies::is_personality))]
fn is_personality(encoding: u8) -> bool
    ensures { result ≡ is_personality encoding }
{
    is_format(encoding) && encoding / 16 % 8 != 5
}

#[tactic(auto, unfolding(crate::specs::Cies::personality_at))]
fn read_personality(cursor: &mut Cursor<'_>, before: Encodings) -> Result<Encodings, Reason>
    ensures read { gave result cursor.new ≡ personality_at before cursor.old }
    ensures sound { IfOk result (λ after. after ≡ before) }
{
    let Ok(encoding) = cursor.u8() else {
        return Err(Reason::Cie);
    };
    if encoding == 0xff {
        return Ok(before);
    }
    if !is_personality(encoding) {
        return Err(Reason::Encoding);
    }
    match read_number(cursor, format_of(encoding)) {
        Ok(_) => Ok(before),
        Err(_) => Err(Reason::Cie),
    }
}

#[tactic(auto, unfolding(crate::specs::Cies::encoding_at))]
fn read_encoding(cursor: &mut Cursor<'_>, before: Encodings) -> Result<Encodings, Reason>
    ensures read { gave result cursor.new ≡ encoding_at before cursor.old }
    ensures sound { IfOk result (λ after. LastIsRead after) }
{
    let Ok(pointer) = cursor.u8() else {
        return Err(Reason::Cie);
    };
    Ok(Encodings {
        pointer,
        known: before.known && is_encoding(pointer),
    })
}

/// Reads the part of the augmentation data for a letter.
#[tactic(auto, unfolding(crate::specs::Cies::letter_at))]
fn read_letter(cursor: &mut Cursor<'_>, letter: u8, before: Encodings) -> Result<Encodings, Reason>
    requires { LastIsRead before }
    ensures read { gave result cursor.new ≡ letter_at letter before cursor.old }
    ensures sound { IfOk result (λ after. LastIsRead after) }
{
    match letter {
        b'R' => read_encoding(cursor, before),
        b'P' => read_personality(cursor, before),
        b'L' => match cursor.u8() {
            Ok(_) => Ok(before),
            Err(_) => Err(Reason::Cie),
        },
        _ => Ok(before),
    }
}

#[tactic(auto, using(crate::proofs::LetterLemmas::zero_is_read, crate::proofs::LetterLemmas::letters_next, crate::proofs::LetterLemmas::letters_refused, crate::proofs::LetterLemmas::letters_end))]
fn read_letters(letters: &[u8], augmentation: &[u8]) -> Result<Encodings, Reason>
    ensures read { result ≡ letters_at letters.now (record { pointer = 0; known = true }) (from_start augmentation.now) }
    ensures sound { IfOk result (λ after. LastIsRead after) }
{
    let mut cursor = cursor_over(augmentation);
    let mut encodings = Encodings {
        pointer: 0,
        known: true,
    };
    'letters: for letter in letters {
        match read_letter(&mut cursor, *letter, encodings) {
            Ok(after) => encodings = after,
            Err(reason) => return Err(reason),
        }
    }
    Ok(encodings)
}

/// The encoding of pointers, or the reason why the augmentation data cannot be read.
#[tactic(auto, unfolding(crate::specs::Cies::encodings_of))]
pub fn read_encodings(text: &[u8], augmentation: &[u8]) -> Result<Encodings, Reason>
    ensures read { result ≡ encodings_of text.now augmentation.now }
    ensures sound { IfOk result (λ after. LastIsRead after) }
{
    let letters = if text.is_empty() { text } else { &text[1..] };
    read_letters(letters, augmentation)
}
