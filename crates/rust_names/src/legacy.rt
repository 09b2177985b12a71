//! A name in the legacy mangling.
ghost use Rattle.std.specs.Prelude.{◌≡◌, length, IfOk};
ghost use Rattle.std.specs.List.{list_all};
ghost use Rattle.std.specs.Option.{option_copied};
ghost use Rattle.rust_names.specs.Legacy.{is_low_hex, is_shown_text};
ghost use Rattle.rust_names.specs.internal.Reading.{is_tail, middle_of, legacy_of};

use crate::part::add_parts;
use std::alloc::Global;
use sym_edges::OutOfMemory;
use sym_records::ByteText;

/// How many bytes a name may have at most.
const NAME_LIMIT: usize = 65_536;

fn are_low_hex(bytes: &[u8]) -> bool
    ensures { result ≡ list_all is_low_hex bytes.now }
{
    bytes.iter().all(|b| (b'0' <= *b && *b <= b'9') || (b'a' <= *b && *b <= b'f'))
}

/// Whether 20 bytes are a hash after its length, and `E`.
#[tactic(auto, unfolding(crate::specs::internal::Reading::is_tail))]
fn is_tail(bytes: &[u8]) -> bool
    requires { length bytes.now ≡ 20 }
    ensures { result ≡ is_tail bytes.now }
{
    if !bytes.starts_with(b"17h") || bytes[19] != b'E' {
        return false;
    }
    are_low_hex(bytes.split_at(3).1.split_at(16).0)
}

/// The bytes between `_ZN` and the hash.
#[tactic(auto, unfolding(crate::specs::internal::Reading::middle_of))]
fn middle_of(name: &[u8]) -> Option<&[u8]>
    ensures { option_copied result ≡ middle_of name.now }
{
    if !name.starts_with(b"_ZN") || name.len() < 23 {
        return None;
    }
    let (front, tail) = name.split_at(name.len() - 20);
    if !is_tail(tail) {
        return None;
    }
    Some(front.split_at(3).1)
}

/// Whether a record may have the text as a name.
fn is_shown_text(text: &[u8]) -> bool
    ensures { result ≡ is_shown_text text.now }
{
    !text.is_empty() && text[0] != b' ' && text.len() <= NAME_LIMIT
}

/// What the name shows.
#[tactic(auto, using(crate::proofs::NameLemmas::no_middle))]
pub(crate) fn legacy_text(alloc: Global, name: &[u8]) -> Result<Option<ByteText>, OutOfMemory>
    ensures { IfOk result (λ text. text ≡ legacy_of name.now) }
{
    let Some(middle) = middle_of(name) else {
        return Ok(None);
    };
    let mut text = Vec::with_capacity(alloc, middle.len())?;
    if !add_parts(&mut text, middle)? {
        return Ok(None);
    }
    if !is_shown_text(text.as_slice()) {
        return Ok(None);
    }
    Ok(Some(ByteText::of(text)))
}
