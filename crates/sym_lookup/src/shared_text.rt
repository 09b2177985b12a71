//! A text in which a long part that comes again is in memory once.
ghost use Rattle.std.specs.Prelude.{◌≡◌, ◌≤◌, true, [], ◌++◌, length, OnOk, OnErr};
ghost use Rattle.sym_edges.specs.Outside.{append_told, AddsFront, Rose};
ghost use Rattle.sym_rules.specs.Buffer.{Hands};
ghost use Rattle.sym_lookup.specs.internal.SharedTexts.{part_text, parts_text, AreWithin};

use std::alloc::Global;
use std::collections::BTreeMap;
use std::hash::{FoldHasher, Hasher};
use std::marker::Model;
use sym_edges::{Failed, OutOfMemory, Sink};
use sym_rules::{Waiting, hand_on, put};

/// A part with fewer bytes is stored each time that it comes.
const LONG: usize = 64;

/// Where the bytes of a part are, from `start` up to `end`.
#[derive(Clone, Copy, Debug)]
struct Part {
    start: usize,
    end: usize,
}

/// A text in parts, one after another; contracts see its bytes. `bytes` has the bytes of the parts, and `known` has the long ones by their hashes.
#[derive(Debug, Drop)]
pub struct SharedText {
    bytes: Vec<u8>,
    parts: Vec<Part>,
    known: BTreeMap<u64, Part>,
}

impl Model for SharedText {
    ghost use Rattle.std.specs.Prelude.{List, ℕ, length};
    ghost use Rattle.sym_lookup.specs.internal.SharedTexts.{parts_text, AreWithin};

    ghost Value = { List ℕ };

    ghost view = { λ t. parts_text t.bytes.items t.parts.items };

    ghost invariant = { λ t. AreWithin (length t.bytes.items) t.parts.items };
}

/// A hash that few other texts have.
fn hash_of(bytes: &[u8]) -> u64 {
    let mut hasher = FoldHasher::default();
    hasher.write(bytes);
    hasher.finish()
}

/// The bytes of a part.
fn part_of(bytes: &[u8], part: Part) -> &[u8]
    requires { (part.start ≤ part.end) × (part.end ≤ length bytes.now) }
    ensures { result.now ≡ part_text bytes.now part }
{
    &bytes[part.start..part.end]
}

/// Whether a part of the bytes is this text.
fn is_part(bytes: &[u8], part: Part, text: &[u8]) -> bool
    ensures within { result ≡ true → (part.start ≤ part.end) × (part.end ≤ length bytes.now) }
    ensures text { result ≡ true → part_text bytes.now part ≡ text.now }
{
    if part.start > part.end || part.end > bytes.len() {
        return false;
    }
    part_of(bytes, part) == text
}

/// Puts the parts of a text into the buffer.
fn put_parts<O: Sink, const N: usize>(
    sink: &mut O,
    waiting: &mut Waiting<N>,
    bytes: &[u8],
    parts: &[Part],
) -> Result<(), Failed>
    requires { AreWithin (length bytes.now) parts.now }
    ensures { Hands result (O.taken sink.old) (O.faults sink.old) waiting.old (parts_text bytes.now parts.now) (O.taken sink.new) (O.faults sink.new) waiting.new }
{
    for part in parts {
        match put(sink, waiting, part_of(bytes, *part)) {
            Ok(()) => {}
            Err(Failed) => return Err(Failed),
        }
    }
    Ok(())
}

impl SharedText {
    /// No part yet.
    pub fn new(alloc: Global) -> SharedText
        ensures { result ≡ [] }
    {
        SharedText {
            bytes: Vec::new(alloc),
            parts: Vec::new(alloc),
            known: BTreeMap::new(alloc),
        }
    }

    /// Adds a part whose bytes are stored, and returns where they are.
    fn push(&mut self, bytes: &[u8]) -> Result<Part, OutOfMemory>
        ensures { OnOk result (self.new ≡ self.old ++ bytes.now) }
    {
        let start = self.bytes.len();
        self.parts.reserve(1)?;
        self.bytes.extend_from_slice(bytes)?;
        let part = Part {
            start,
            end: self.bytes.len(),
        };
        self.parts.push_reserved(part);
        Ok(part)
    }

    /// Adds bytes to the text.
    pub fn add(&mut self, bytes: &[u8]) -> Result<(), OutOfMemory>
        ensures { OnOk result (self.new ≡ self.old ++ bytes.now) }
    {
        if bytes.len() < LONG {
            self.push(bytes)?;
            return Ok(());
        }
        let hash = hash_of(bytes);
        if let Some(part) = self.known.get(&hash).copied() {
            if is_part(self.bytes.as_slice(), part, bytes) {
                self.parts.push(part)?;
                return Ok(());
            }
        }
        let part = self.push(bytes)?;
        self.known.insert(hash, part)?;
        Ok(())
    }

    /// Writes the text in pieces of up to 64 KiB. If it fails, a front of the text was written. Allocates no memory.
    pub fn write<O: Sink>(&self, sink: &mut O) -> Result<(), Failed>
        ensures written { OnOk result (O.taken sink.new ≡ append_told (O.taken sink.old) self.now) }
        ensures front { OnErr result (AddsFront (O.taken sink.old) (O.taken sink.new) self.now) }
        ensures faults { O.faults sink.old ≤ O.faults sink.new }
        ensures cause { OnErr result (Rose (O.faults sink.old) (O.faults sink.new)) }
    {
        let mut waiting = Waiting::<65536>::new();
        match put_parts(
            sink,
            &mut waiting,
            self.bytes.as_slice(),
            self.parts.as_slice(),
        ) {
            Ok(()) => {}
            Err(Failed) => return Err(Failed),
        }
        match hand_on(sink, &mut waiting) {
            Ok(()) => Ok(()),
            Err(Failed) => Err(Failed),
        }
    }
}
