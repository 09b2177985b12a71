//! A name, and what it shows.
ghost use Rattle.std.specs.Prelude.{◌≡◌, ◌≤◌, length, true, IfOk, OnOk, IfSome, MatchOption};
ghost use Rattle.clean_names.specs.Names.{is_name};
ghost use Rattle.rust_names.specs.Shown.{IsShown, IsPlainName};
ghost use Rattle.rust_names.specs.internal.Finding.{shown_of};
ghost use Rattle.rust_names.specs.Named.{named};

use crate::legacy::legacy_text;
use crate::symbol::{Rooms, v0_text};
use std::alloc::Global;
use sym_edges::OutOfMemory;
use sym_records::ByteText;

/// A copy of the bytes, as a name.
fn name_of(alloc: Global, bytes: &[u8]) -> Result<ByteText, OutOfMemory>
    ensures { IfOk result (λ text. text ≡ bytes.now) }
{
    let mut text = Vec::with_capacity(alloc, bytes.len())?;
    text.extend_from_slice(bytes)?;
    Ok(ByteText::of(text))
}

/// What a name shows.
#[tactic(auto, unfolding(crate::specs::internal::Finding::shown_of))]
fn text_of(alloc: Global, rooms: &mut Rooms, name: &[u8]) -> Result<Option<ByteText>, OutOfMemory>
    ensures { IfOk result (λ text. text ≡ shown_of name.now) }
{
    if !name.starts_with(b"_R") {
        return legacy_text(alloc, name);
    }
    if !v0_text(alloc, rooms, name)? {
        return Ok(None);
    }
    let text = name_of(alloc, rooms.shown.text.as_slice())?;
    Ok(Some(text))
}

/// What a name shows, if it is one in Rust's legacy mangling or in the current one (RFC 2603). Memory is allocated only for a name that begins and
/// ends as a legacy name does, or begins as one of the current mangling.
#[tactic(auto, using(crate::proofs::JoinLemmas::exact_text, crate::proofs::JoinLemmas::shown_named, crate::proofs::JoinLemmas::shown_short))]
pub fn shown(alloc: Global, name: &[u8]) -> Result<Option<ByteText>, OutOfMemory>
    ensures exact { IfOk result (λ text. MatchOption text (IsPlainName name.now) (IsShown name.now)) }
    ensures named { IfOk result (λ text. IfSome text (λ t. is_name t ≡ true)) }
    ensures short { IfOk result (λ text. IfSome text (λ t. length t ≤ 65536)) }
{
    let mut rooms = Rooms::new(alloc);
    let text = text_of(alloc, &mut rooms, name)?;
    Ok(text)
}

/// Replaces a name by what it shows, if it shows anything.
#[tactic(auto, unfolding(crate::specs::Named::named))]
pub(crate) fn show_name(
    alloc: Global,
    rooms: &mut Rooms,
    name: &mut ByteText,
) -> Result<(), OutOfMemory>
    ensures { OnOk result (name.new ≡ named name.old) }
{
    match text_of(alloc, rooms, name.as_slice())? {
        Some(text) => {
            *name = text;
            Ok(())
        }
        None => Ok(()),
    }
}
