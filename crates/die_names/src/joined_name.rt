//! The text of a name.
ghost use Rattle.std.specs.Prelude.{◌≡◌, ℕ, List, true, ◌++◌, ◌≤◌, ◌<◌, length, IfOk, OnOk};
ghost use Rattle.std.specs.Option.{option_copied};
ghost use Rattle.clean_names.specs.Cleaning.{cleaned};
ghost use Rattle.die_walk.specs.EntryTable.{DieFields};
ghost use Rattle.std.specs.List.{slice_get};
ghost use Rattle.die_names.specs.Names.{scope_name, scope_front, fronts};
ghost use Rattle.die_names.specs.NameRefs.{name_bytes, name_slice};
ghost use Rattle.die_names.specs.internal.Gathering.{scopes_of};

use crate::kept::{EntryNameText, whole_name};
use crate::name_source::{How, NameRef};
use clean_names::{NAME_LIMIT, clean, name_omitted};
use debug_units::Units;
use die_walk::{Die, DieList};
use std::alloc::Global;
use sym_edges::{ByteRun, OutOfMemory};

/// The entry with a number.
fn entry_in<'u, 'a>(dies: &'u DieList<'a>, entry: usize) -> Option<Die<'u, 'a>>
    ensures { result ≡ slice_get dies.now entry }
{
    dies.get(entry)
}

/// The name of a scope in the prefix of other names. A name in a supplementary file that was not read is unknown.
pub fn scope_name<'a>(die: &Die<'_, 'a>) -> &'a [u8]
    ensures { result.now ≡ scope_name die.now }
{
    match die.name() {
        Some(name) => name,
        None if die.is_named_elsewhere() => name_omitted(),
        None => b"(anonymous)",
    }
}

/// Adds the prefix that an entry gives to a name.
#[tactic(auto, unfolding(crate::specs::Names::scope_front))]
fn add_front(text: &mut Vec<u8>, die: &Die<'_, '_>) -> Result<(), OutOfMemory>
    ensures { OnOk result (text.new.items ≡ text.old.items ++ scope_front die.now) }
{
    if !die.is_scope() {
        return Ok(());
    }
    text.extend_from_slice(scope_name(die))?;
    text.extend_from_slice(b"::")?;
    Ok(())
}

/// The numbers of the scopes around the entry `entry`, beginning with the innermost.
fn scopes_around(alloc: Global, dies: &DieList<'_>, entry: usize) -> Result<Vec<u32>, OutOfMemory>
    ensures { IfOk result (λ v. v.items ≡ scopes_of dies.now entry) }
{
    let mut numbers = Vec::new(alloc);
    let mut limit = entry;
    'around: loop {
        let Some(number) = dies.scope_around(limit) else {
            return Ok(numbers);
        };
        numbers.push(number)?;
        limit = number as usize;
    }
}

/// The first index, from `from` on, at which the text has no space, or the end of the text.
fn past_spaces(text: &[u8], from: usize) -> usize
    ensures { from ≤ result }
{
    let mut place = from;
    'spaces: while place < text.len() && text[place] == b' ' {
        place += 1;
    }
    place
}

/// Whether it is certain that cleaning drops all bytes after these. This is so if there is no space
/// at `place`, and at least `NAME_LIMIT` bytes from there on.
#[tactic(auto, using(crate::proofs::CutLemmas::cleaned_cut))]
fn is_full(text: &[u8], place: usize) -> bool
    ensures { result ≡ true → (more : List ℕ) → cleaned (text.now ++ more) ≡ cleaned text.now }
{
    if place >= text.len() {
        return false;
    }
    if text[place] == b' ' {
        return false;
    }
    text.len() - place >= NAME_LIMIT
}

/// The names of the scopes and then the name, as far as cleaning keeps them.
#[tactic(auto, using(crate::proofs::JoinLemmas::fronts_more, crate::proofs::CutLemmas::cut_whole, crate::proofs::CutLemmas::uncut))]
fn join(
    alloc: Global,
    dies: &DieList<'_>,
    entry: usize,
    name: &[u8],
) -> Result<Vec<u8>, OutOfMemory>
    ensures { IfOk result (λ v. cleaned v.items ≡ cleaned (fronts dies.now (scopes_of dies.now entry) ++ name.now)) }
{
    let mut numbers = scopes_around(alloc, dies, entry)?;
    let mut text = Vec::new(alloc);
    let mut first = 0;
    'scopes: while let Some(number) = numbers.pop() {
        first = past_spaces(text.as_slice(), first);
        if is_full(text.as_slice(), first) {
            return Ok(text);
        }
        if let Some(die) = entry_in(dies, number as usize) {
            add_front(&mut text, &die)?;
        }
    }
    text.extend_from_slice(name)?;
    Ok(text)
}

/// The bytes of a name before it is cleaned, if the file has them as they are: a linkage name, or a name that has no scopes. Allocates no memory.
#[tactic(auto, using(crate::proofs::TextLemmas::slice_no_part, crate::proofs::TextLemmas::slice_no_die, crate::proofs::TextLemmas::slice_linkage, crate::proofs::TextLemmas::slice_omitted, crate::proofs::TextLemmas::slice_bare, crate::proofs::TextLemmas::slice_scoped))]
pub fn name_slice<'a>(units: &Units<'a>, name: NameRef) -> Option<&'a [u8]>
    ensures { option_copied result ≡ name_slice units.now name }
{
    let Some(part) = units.unit(name.unit) else {
        return None;
    };
    let dies = part.die.dies();
    let Some(die) = entry_in(dies, name.entry as usize) else {
        return None;
    };
    match name.how {
        How::Linkage => die.linkage(),
        How::Joined => match dies.scope_around(name.entry as usize) {
            Some(_) => None,
            None => die.name(),
        },
        How::Omitted => None,
    }
}

/// The text of a name, cleaned for records, in new memory.
#[tactic(auto, using(crate::proofs::TextLemmas::text_sliced, crate::proofs::TextLemmas::text_joined, crate::proofs::TextLemmas::text_no_part, crate::proofs::TextLemmas::text_no_die, crate::proofs::TextLemmas::text_no_name, crate::proofs::TextLemmas::text_no_linkage, crate::proofs::TextLemmas::text_omitted))]
fn made_text(alloc: Global, units: &Units<'_>, name: NameRef) -> Result<ByteRun, OutOfMemory>
    ensures { IfOk result (λ t. t ≡ cleaned (name_bytes units.now name)) }
{
    if let Some(bytes) = name_slice(units, name) {
        return clean(alloc, bytes);
    }
    let Some(part) = units.unit(name.unit) else {
        return clean(alloc, name_omitted());
    };
    let dies = part.die.dies();
    let Some(die) = entry_in(dies, name.entry as usize) else {
        return clean(alloc, name_omitted());
    };
    match name.how {
        How::Joined => match die.name() {
            Some(text) => {
                let joined = join(alloc, dies, name.entry as usize, text)?;
                clean(alloc, joined.as_slice())
            }
            None => clean(alloc, name_omitted()),
        },
        How::Linkage => clean(alloc, name_omitted()),
        How::Omitted => clean(alloc, name_omitted()),
    }
}

/// The text of a name, cleaned for records. If `name_of` gave the name for an entry, this is the
/// name of that entry. Allocates no memory if the file has the name as it is and the name is clean.
pub fn name_text<'a>(
    alloc: Global,
    units: &Units<'a>,
    name: NameRef,
) -> Result<EntryNameText<'a>, OutOfMemory>
    ensures { IfOk result (λ t. t ≡ cleaned (name_bytes units.now name)) }
{
    if let Some(text) = whole_name(units, name) {
        return Ok(text);
    }
    Ok(EntryNameText::of(made_text(alloc, units, name)?))
}
