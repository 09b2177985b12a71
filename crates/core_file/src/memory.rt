//! The memory of a process, as far as its core file has it.
ghost use Rattle.std.specs.Prelude.{◌≡◌, ℕ, ◌+◌, ◌^◌, ◌<◌, ◌≤◌, ◌++◌, None, IfOk, IfSome, OnOk, find, is_some, length, true};
ghost use Rattle.std.specs.Option.{option_copied};
ghost use Rattle.step_maps.specs.Covers.{AreStretches};
ghost use Rattle.core_file.specs.Memory.{present, gives, given, byte_at};
ghost use Rattle.core_file.specs.internal.Firsts.{stretches_of, AreFirsts};

use crate::byte_list::ByteList;
use crate::constants::PT_LOAD;
use crate::held::HeldBytes;
use crate::segments::Segment;
use std::alloc::Global;
use std::marker::Model;
use step_maps::{FirstItem, StepMap, Stretch, first_items};
use sym_edges::OutOfMemory;

/// The bytes of a core file, its segments, and at each address the number of the first segment that gives it a byte.
#[derive(Drop)]
pub struct ProcessMemory<'a> {
    bytes: &'a HeldBytes,
    segments: Vec<Segment>,
    firsts: StepMap<Option<FirstItem>>,
}

impl<'a> Model for ProcessMemory<'a> {
    ghost use Rattle.core_file.specs.Memory.{Memory};
    ghost use Rattle.core_file.specs.internal.Firsts.{AreFirsts};

    ghost Value = { Memory };

    ghost view = { λ m. record { file = m.bytes.now; segments = m.segments.items } };

    ghost invariant = { λ m. AreFirsts m.bytes.now m.segments.items m.firsts };
}

/// How many bytes of a segment are in the file.
#[tactic(auto, unfolding(crate::specs::Memory::present))]
fn present(file: &HeldBytes, segment: &Segment) -> u64
    ensures exact { result ≡ present file.now segment.now }
    ensures short { result ≤ length file.now }
{
    let left = (file.len() as u64).saturating_sub(segment.offset);
    segment.file_size.min(left)
}

/// The addresses to which the segments give bytes, each with the number of its segment.
#[tactic(auto, using(crate::proofs::MemoryLemmas::stretch_more, crate::proofs::MemoryLemmas::stretch_none, crate::proofs::MemoryLemmas::stretches_end, crate::proofs::MemoryLemmas::stretches_push))]
fn stretches(
    alloc: Global,
    file: &HeldBytes,
    segments: &[Segment],
) -> Result<Vec<Stretch>, OutOfMemory>
    requires { length segments.now < 2 ^ 32 }
    ensures all { IfOk result (λ v. v.items ≡ stretches_of file.now 0 segments.now) }
    ensures some { IfOk result (λ v. AreStretches v.items) }
{
    let mut stretches = Vec::new(alloc);
    let mut index: u32 = 0;
    let mut rest = segments;
    'segments: while let Some((segment, later)) = rest.split_first() {
        let count = present(file, segment);
        if segment.kind == PT_LOAD && count > 0 {
            stretches.push(Stretch {
                first: segment.address,
                last: segment.address.saturating_add(count - 1),
                index,
                class: 0,
            })?;
        }
        index += 1;
        rest = later;
    }
    Ok(stretches)
}

impl<'a> ProcessMemory<'a> {
    /// The memory that the segments of a file give, found in n log n steps for n segments.
    #[tactic(auto, using(crate::proofs::MemoryLemmas::are_firsts))]
    pub fn of(
        alloc: Global,
        bytes: &'a HeldBytes,
        segments: Vec<Segment>,
    ) -> Result<ProcessMemory<'a>, OutOfMemory>
        requires { length segments.items < 2 ^ 32 }
        ensures { IfOk result (λ m. m ≡ record { file = bytes.now; segments = segments.items }) }
    {
        let stretches = stretches(alloc, bytes, segments.as_slice())?;
        let firsts = first_items(alloc, stretches.as_slice())?;
        Ok(ProcessMemory {
            bytes,
            segments,
            firsts,
        })
    }

    pub fn segments(&self) -> &[Segment]
        ensures { result.now ≡ self.now.segments }
    {
        self.segments.as_slice()
    }

    pub fn file(&self) -> &'a HeldBytes
        ensures { result.now ≡ self.now.file }
    {
        self.bytes
    }

    /// The first segment that gives an address a byte.
    fn giver(&self, a: u64) -> Option<&Segment>
        ensures { option_copied result ≡ find (gives self.now.file a) self.now.segments }
    {
        match self.firsts.at(None, a) {
            None => None,
            Some(item) => self.segments.get(item.index as usize),
        }
    }

    /// The byte at an address.
    #[tactic(auto, using(crate::proofs::MemoryLemmas::found_gives), unfolding(crate::specs::Memory::byte_at))]
    pub fn byte(&self, a: u64) -> Option<u8>
        ensures { result ≡ byte_at self.now a }
    {
        match self.giver(a) {
            None => None,
            Some(segment) => Some(byte_of(self.file(), segment, a)),
        }
    }

    /// How many consecutive addresses, from this one on, surely have a byte; there may be more. The
    /// result is 0 only if this address has no byte.
    #[tactic(auto, using(crate::proofs::MemoryLemmas::found_gives, crate::proofs::MemoryLemmas::none_at, crate::proofs::MemoryLemmas::some_at))]
    pub fn extent(&self, a: u64) -> u64
        ensures none { result ≡ 0 → byte_at self.now a ≡ None }
        ensures all { (j : ℕ) → j < result → is_some (byte_at self.now (a + j)) ≡ true }
    {
        match self.giver(a) {
            None => 0,
            Some(segment) => extent_of(self.file(), segment, a),
        }
    }
}

/// The byte that a segment gives an address.
#[tactic(auto, using(crate::proofs::MemoryLemmas::gives_low, crate::proofs::MemoryLemmas::gives_high), unfolding(crate::specs::Memory::given))]
fn byte_of(file: &HeldBytes, segment: &Segment, a: u64) -> u8
    requires { gives file.now a segment.now ≡ true }
    ensures { result ≡ given file.now a segment.now }
{
    let _len = file.len();
    let at = segment.offset + (a - segment.address);
    file.byte(at as usize)
}

/// To how many addresses, from this one on, a segment gives a byte.
#[tactic(auto, using(crate::proofs::MemoryLemmas::gives_low, crate::proofs::MemoryLemmas::gives_end, crate::proofs::MemoryLemmas::gives_more))]
fn extent_of(file: &HeldBytes, segment: &Segment, a: u64) -> u64
    requires { gives file.now a segment.now ≡ true }
    ensures some { 0 < result }
    ensures within { a + result ≤ 2 ^ 64 }
    ensures all { (j : ℕ) → j < result → gives file.now (a + j) segment.now ≡ true }
{
    let end = u128::from(segment.address) + u128::from(present(file, segment));
    (end.min(1 << 64) - u128::from(a)) as u64
}
