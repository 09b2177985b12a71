//! Constants of v0 names that are given by a value: integers, `bool` and `char`. Backreferences may
//! lead to the same constant many times. If it has many digits, it is read once and then known by
//! its place. Leading zeros are read without adding to the text, so the limit of the text does not
//! bound them.
ghost use Rattle.std.specs.Prelude.{◌≡◌, ◌<◌, [], ◌∷◌, length, take, true, None, IfOk, OnOk, IfSome, MatchOption};
ghost use Rattle.std.specs.Option.{option_map};
ghost use Rattle.std.specs.Ordering.{nat_cmp};
ghost use Rattle.std.specs.BTreeMap.{get};
ghost use Rattle.rust_names.specs.V0Numbers.{hex_digits};
ghost use Rattle.rust_names.specs.V0Texts as shows;
ghost use Rattle.rust_names.specs.V0Leaves as v0;
ghost use Rattle.rust_names.specs.declared.grammar.Leaf.TheVariants as leaf;
ghost use Rattle.rust_names.specs.internal.Passing.{AreConstants, IsConstant, IsEnd, is_constant};

use crate::grammar::{Leaf, Scope};
use crate::numbers::{count_hex, hex_value};
use crate::texts::{add_integer, add_quoted, after_if, character, show};
use std::collections::BTreeMap;
use sym_edges::OutOfMemory;

/// A constant of at most this many digits is read anew each time.
const SHORT: usize = 64;

/// What is known of a constant.
#[derive(Clone, Copy)]
pub struct Constant {
    /// How many digits it has.
    pub count: usize,
    /// Its value, if that is below 2^64.
    pub value: Option<u64>,
}

/// The constant at the start of the bytes.
pub(crate) fn constant_of(bytes: &[u8]) -> Option<Constant>
    ensures { MatchOption result (hex_digits bytes.now ≡ None) (IsConstant bytes.now) }
{
    let Some(count) = count_hex(bytes) else {
        return None;
    };
    Some(Constant {
        count,
        value: hex_value(bytes.split_at(count).0),
    })
}

/// What is known of the constant at a place.
fn find(known: &BTreeMap<u64, Constant>, place: usize) -> Option<Constant>
    ensures { result ≡ get nat_cmp known.now place }
{
    match known.get(&(place as u64)) {
        Some(constant) => Some(*constant),
        None => None,
    }
}

/// The constant whose digits are at a place of a name. If it has many digits, it is known from then
/// on.
#[tactic(auto, using(crate::proofs::EndLemmas::shorter))]
pub(crate) fn constant_at(
    known: &mut BTreeMap<u64, Constant>,
    name: &[u8],
    bytes: &[u8],
) -> Result<Option<Constant>, OutOfMemory>
    requires ends { IsEnd name.now bytes.now }
    requires known { AreConstants name.now known.old }
    ensures is { IfOk result (λ c. MatchOption c (hex_digits bytes.now ≡ None) (IsConstant bytes.now)) }
    ensures known { OnOk result (AreConstants name.now known.new) }
{
    let place = name.len() - bytes.len();
    if let Some(constant) = find(known, place) {
        return Ok(Some(constant));
    }
    let Some(constant) = constant_of(bytes) else {
        return Ok(None);
    };
    if constant.count > SHORT {
        known.insert(place as u64, constant)?;
    }
    Ok(Some(constant))
}

/// Whether a leaf is a constant that is given by a value.
pub(crate) fn is_constant(leaf: Leaf) -> bool
    ensures { result ≡ is_constant leaf }
{
    match leaf {
        Leaf::Number | Leaf::Boolean | Leaf::Character => true,
        _ => false,
    }
}

/// The word of a `bool`.
fn boolean(value: Option<u64>) -> Option<&'static [u8]>
    ensures { option_map (λ a. a.now) result ≡ shows.boolean_by value }
{
    match value {
        Some(0) => Some(b"false"),
        Some(1) => Some(b"true"),
        _ => None,
    }
}

/// The character with a code.
fn character_of(code: Option<u64>) -> Option<char>
    ensures { shows.character_by code ≡ option_map (λ c. shows.quoted 39 (c ∷ [])) result }
{
    match code {
        Some(code) => character(code),
        None => None,
    }
}

/// An integer.
#[tactic(auto, unfolding(crate::specs::V0Leaves::read_leaf, crate::specs::V0Leaves::leaf_of, crate::specs::V0Texts::integer_text))]
fn read_number<'a>(
    text: &mut Vec<u8>,
    scope: Scope,
    constant: Constant,
    bytes: &'a [u8],
) -> Result<Option<&'a [u8]>, OutOfMemory>
    requires { IsConstant bytes.now constant }
    ensures { IfOk result (λ after. v0.read_leaf leaf.Number scope bytes.now text.old.items ≡ option_map (λ a. (a.now, text.new.items)) after) }
{
    let digits = bytes.split_at(constant.count).0;
    let said = !scope.visible || add_integer(text, constant.value, digits)?;
    Ok(after_if(said, bytes.split_at(constant.count + 1).1))
}

/// A `bool`.
#[tactic(auto, unfolding(crate::specs::V0Leaves::read_leaf, crate::specs::V0Leaves::leaf_of))]
fn read_boolean<'a>(
    text: &mut Vec<u8>,
    scope: Scope,
    constant: Constant,
    bytes: &'a [u8],
) -> Result<Option<&'a [u8]>, OutOfMemory>
    requires { IsConstant bytes.now constant }
    ensures { IfOk result (λ after. v0.read_leaf leaf.Boolean scope bytes.now text.old.items ≡ option_map (λ a. (a.now, text.new.items)) after) }
{
    match boolean(constant.value) {
        Some(word) => {
            let said = show(text, scope.visible, word)?;
            Ok(after_if(said, bytes.split_at(constant.count + 1).1))
        }
        None => Ok(None),
    }
}

/// A `char`.
#[tactic(auto, unfolding(crate::specs::V0Leaves::read_leaf, crate::specs::V0Leaves::leaf_of))]
fn read_character<'a>(
    text: &mut Vec<u8>,
    scope: Scope,
    constant: Constant,
    bytes: &'a [u8],
) -> Result<Option<&'a [u8]>, OutOfMemory>
    requires { IsConstant bytes.now constant }
    ensures { IfOk result (λ after. v0.read_leaf leaf.Character scope bytes.now text.old.items ≡ option_map (λ a. (a.now, text.new.items)) after) }
{
    match character_of(constant.value) {
        Some(c) => {
            let said = !scope.visible || add_quoted(text, b'\'', &[c])?;
            Ok(after_if(said, bytes.split_at(constant.count + 1).1))
        }
        None => Ok(None),
    }
}

/// Reads a constant that was found, adds what it shows, and returns the bytes after it.
pub(crate) fn read_constant<'a>(
    text: &mut Vec<u8>,
    leaf: Leaf,
    scope: Scope,
    constant: Constant,
    bytes: &'a [u8],
) -> Result<Option<&'a [u8]>, OutOfMemory>
    requires is { is_constant leaf ≡ true }
    requires found { IsConstant bytes.now constant }
    ensures { IfOk result (λ after. v0.read_leaf leaf scope bytes.now text.old.items ≡ option_map (λ a. (a.now, text.new.items)) after) }
{
    match leaf {
        Leaf::Number => read_number(text, scope, constant, bytes),
        Leaf::Boolean => read_boolean(text, scope, constant, bytes),
        Leaf::Character => read_character(text, scope, constant, bytes),
        _ => Ok(None),
    }
}
