//! Names that are built part by part. Each has a short key: a hash of its text, the length of the text, and its root.
//!
//! A text is full if it is as long as a name may be. If the prefix that a scope and the scopes around it give is full, the names in it are all this
//! text. The outermost such scope is the root of the names.
ghost use Rattle.std.specs.Prelude.{◌≡◌, ℕ, ◌==◌, List, [], map, length};
ghost use Rattle.clean_names.specs.Names.{is_space, skip};
ghost use Rattle.clean_names.specs.Cleaning.{shown_byte};
ghost use Rattle.debug_units.specs.declared.unit_read.UnitRead.{UnitRead};
ghost use Rattle.func_flatten.specs.internal.ScopeFronts.{inner_front};
ghost use Rattle.func_flatten.specs.internal.NameKeys.{kept, kept_more, begun, kept_part, mixed, hash_from, IsKey};

use clean_names::{NAME_LIMIT, shown_byte, unspaced};
use debug_units::EntryRef;

/// The key of the text of a name, or of the beginning of a name.
#[derive(Clone, Copy, Debug)]
pub(crate) struct NameKey {
    pub(crate) hash: u64,
    length: usize,
    pub(crate) root: Option<EntryRef>,
}

/// The bytes without leading spaces, if the text has no bytes yet.
#[tactic(auto, using(crate::proofs::KeyLemmas::begun_first, crate::proofs::KeyLemmas::begun_later))]
fn begun(so_far: usize, bytes: &[u8]) -> &[u8]
    ensures { result.now ≡ begun so_far bytes.now }
{
    if so_far == 0 {
        return unspaced(bytes);
    }
    bytes
}

/// Those of the bytes that are kept, if `so_far` bytes of the name were kept before them.
#[tactic(auto, using(crate::proofs::KeyLemmas::part_is))]
fn kept_part(limit: usize, so_far: usize, bytes: &[u8]) -> &[u8]
    ensures { result.now ≡ kept_part limit so_far bytes.now }
{
    let rest = begun(so_far, bytes);
    rest.split_at(limit.saturating_sub(so_far).min(rest.len()))
        .0
}

/// The factor of the hash.
const FACTOR: u64 = 0x9e37_79b9_7f4a_7c15;

/// The fourth power of the factor, modulo 2^64.
const FACTOR_4: u64 = 0xd943_63fc_5382_27b1;

/// The hash of a text with one more byte.
#[tactic(auto, unfolding(crate::specs::internal::NameKeys::mixed))]
fn mixed(hash: u64, b: u8) -> u64
    ensures { result ≡ mixed hash b }
{
    hash.wrapping_mul(FACTOR).wrapping_add(u64::from(b))
}

/// The hash of a text with four more bytes. Only one multiplication waits for the hash, so that long names take two fifths of the time.
#[tactic(auto, using(crate::proofs::KeyLemmas::four_steps))]
fn mixed_four(hash: u64, a: u8, b: u8, c: u8, d: u8) -> u64
    ensures { result ≡ mixed (mixed (mixed (mixed hash a) b) c) d }
{
    let later = mixed(mixed(mixed(u64::from(a), b), c), d);
    hash.wrapping_mul(FACTOR_4).wrapping_add(later)
}

/// The hash of a text with four more bytes, with `?` for each control byte.
#[tactic(auto, using(crate::proofs::KeyLemmas::hash_four))]
fn hash_four(hash: u64, front: &[u8]) -> u64
    requires { length front.now ≡ 4 }
    ensures { result ≡ hash_from hash (map shown_byte front.now) }
{
    mixed_four(
        hash,
        shown_byte(front[0]),
        shown_byte(front[1]),
        shown_byte(front[2]),
        shown_byte(front[3]),
    )
}

/// The hash of a text with more bytes, with `?` for each control byte.
fn hash_from(hash: u64, bytes: &[u8]) -> u64
    ensures { result ≡ hash_from hash (map shown_byte bytes.now) }
{
    let mut whole = hash;
    let mut rest = bytes;
    'fours: while rest.len() >= 4 {
        let (front, later) = rest.split_at(4);
        whole = hash_four(whole, front);
        rest = later;
    }
    'bytes: while let Some((b, later)) = rest.split_first() {
        whole = mixed(whole, shown_byte(*b));
        rest = later;
    }
    whole
}

impl NameKey {
    /// The key of the empty text.
    pub(crate) fn empty() -> NameKey
        ensures { (units : List UnitRead) → IsKey units result (kept []) }
    {
        NameKey {
            hash: 0,
            length: 0,
            root: None,
        }
    }

    /// Whether the text is empty.
    #[tactic(auto, using(crate::proofs::KeyLemmas::empty_is))]
    pub(crate) fn is_empty(self) -> bool
        ensures { (units : List UnitRead) (text : List ℕ) → IsKey units self text → result ≡ (length text == 0) }
    {
        self.length == 0
    }

    /// The key of the text with more bytes, as far as a name has room for them.
    pub(crate) fn with(self, bytes: &[u8]) -> NameKey
        ensures { (units : List UnitRead) (text : List ℕ) → IsKey units self text → IsKey units result (kept_more text bytes.now) }
    {
        let front = kept_part(NAME_LIMIT, self.length, bytes);
        NameKey {
            hash: hash_from(self.hash, front),
            length: self.length.saturating_add(front.len()),
            root: self.root,
        }
    }

    /// The key of the prefix that an entry and the scopes around it give. If the text is full and has no root yet, the entry is its root.
    #[tactic(auto, using(crate::proofs::KeyLemmas::key_rooted))]
    pub(crate) fn rooted(self, unit: u32, entry: u32) -> NameKey
        ensures { (units : List UnitRead) → IsKey units self (kept (inner_front units unit entry)) → IsKey units result (kept (inner_front units unit entry)) }
    {
        if self.length != NAME_LIMIT || self.root.is_some() {
            return self;
        }
        NameKey {
            hash: self.hash,
            length: self.length,
            root: Some(EntryRef { unit, entry }),
        }
    }
}
