//! A core file, read whole.
ghost use Rattle.std.specs.Prelude.{◌≡◌, ◌<◌, ◌^◌, None, Some, Ok, Err, true, is_some, length, IfSome, IfOk};
ghost use Rattle.sym_edges.specs.Outside.{MatchStop};
ghost use Rattle.core_file.specs.CoreHeader.{header_fault};
ghost use Rattle.core_file.specs.Segments.{segments};
ghost use Rattle.core_file.specs.CoreNotes.{all_notes, has_files};
ghost use Rattle.core_file.specs.Threads.{threads_in};
ghost use Rattle.core_file.specs.MappedFiles.{files_of};
ghost use Rattle.core_file.specs.Memory.{byte_at, word_at};
ghost use Rattle.core_file.specs.Modules.{modules_in};
ghost use Rattle.core_file.specs.Code.{is_code};
ghost use Rattle.core_file.specs.Core.{core_fault, memory_of, parts_upto, core};
ghost use Rattle.core_file.specs.internal.Gathering.{first_files};
ghost use Rattle.core_file.specs.internal.Listings.{IsListing};
ghost use Rattle.core_file.specs.internal.CodeMaps.{IsCodeMap, files_by};

use crate::code::add_loads;
use crate::fault::CoreFault;
use crate::files::read_files;
use crate::front::word;
use crate::gather::{Found, gather_all};
use crate::header::find_header;
use crate::held::HeldBytes;
use crate::memory::ProcessMemory;
use crate::modules::{Listing, Module, Source, list_modules};
use crate::segments::{Segment, find_bad, read_segments};
use crate::threads::Thread;
use std::alloc::Global;
use std::collections::BTreeSet;
use std::marker::Model;
use step_maps::{FirstItem, StepMap, first_items};
use sym_edges::{OutOfMemory, Stop};

/// How many threads, and how many modules, are read of a core at most.
const MOST: usize = 65_536;

/// A core file: the memory, the threads and the modules of its process.
#[derive(Drop)]
pub struct Core<'a> {
    memory: ProcessMemory<'a>,
    threads: Vec<Thread>,
    modules: Vec<Module>,
    code: StepMap<Option<FirstItem>>,
}

impl<'a> Model for Core<'a> {
    ghost use Rattle.core_file.specs.Core.{CoreParts};
    ghost use Rattle.core_file.specs.internal.CodeMaps.{IsCodeMap};

    ghost Value = { CoreParts };

    ghost view = { λ c. record { memory = c.memory; threads = c.threads.items; modules = c.modules.items } };

    ghost invariant = { λ c. IsCodeMap c.memory c.modules.items c.code };
}

/// What the segments and the notes of a core file give.
#[derive(Drop)]
struct Parts<'a> {
    memory: ProcessMemory<'a>,
    found: Found<'a>,
}

/// The segments of a core file, or the first fault of its header.
#[tactic(auto, using(crate::proofs::CoreLemmas::segments_are, crate::proofs::CoreLemmas::few_segments))]
fn read_table(alloc: Global, bytes: &HeldBytes) -> Result<Vec<Segment>, Stop<CoreFault>>
    ensures read { MatchStop result
        (λ v. (header_fault bytes.now ≡ None) × (v.items ≡ segments bytes.now))
        (λ fault. header_fault bytes.now ≡ Some fault) (Unit {0}) }
    ensures few { IfOk result (λ v. length v.items < 2 ^ 16) }
{
    let header = match find_header(bytes) {
        Ok(header) => header,
        Err(fault) => return Err(Stop::Fault(fault)),
    };
    let segments = read_segments(alloc, bytes, header.table as usize, header.count as usize)?;
    Ok(segments)
}

/// The parts of a core file, or its first fault.
fn read_parts<'a>(
    alloc: Global,
    bytes: &'a HeldBytes,
    limit: usize,
) -> Result<Parts<'a>, Stop<CoreFault>>
    requires { 0 < limit }
    ensures read { MatchStop result
        (λ p. (core_fault bytes.now ≡ None) × (p.memory ≡ memory_of bytes.now) × (p.found.threads.items ≡ threads_in limit (all_notes bytes.now (segments bytes.now))) × (p.found.files ≡ first_files (all_notes bytes.now (segments bytes.now))))
        (λ fault. core_fault bytes.now ≡ Some fault) (Unit {0}) }
    ensures fit { IfOk result (λ p. IfSome p.found.files (λ d. has_files d ≡ true)) }
{
    let segments = match read_table(alloc, bytes) {
        Ok(segments) => segments,
        Err(stop) => return Err(stop),
    };
    if let Some(index) = find_bad(bytes, segments.as_slice()) {
        return Err(Stop::Fault(CoreFault::BadSegment {
            index: index as u32,
        }));
    }
    let mut found = Found {
        limit,
        threads: Vec::new(alloc),
        files: None,
    };
    if let Some(index) = gather_all(bytes, segments.as_slice(), &mut found)? {
        return Err(Stop::Fault(CoreFault::BadNote {
            index: index as u32,
        }));
    }
    if found.threads.as_slice().is_empty() {
        return Err(Stop::Fault(CoreFault::NoThread));
    }
    let memory = ProcessMemory::of(alloc, bytes, segments)?;
    Ok(Parts { memory, found })
}

/// The modules of the process, and which addresses are code.
#[tactic(auto, using(crate::proofs::CoreLemmas::no_modules))]
fn read_modules(alloc: Global, parts: &Parts<'_>, limit: usize) -> Result<Listing, OutOfMemory>
    requires { IfSome parts.now.found.files (λ d. has_files d ≡ true) }
    ensures modules { IfOk result (λ l. l.modules.items ≡ modules_in limit parts.now.memory (files_by parts.now.found.files)) }
    ensures listing { IfOk result (λ l. IsListing parts.now.memory l) }
{
    let mut listing = Listing {
        modules: Vec::new(alloc),
        pages: BTreeSet::new(alloc),
        code: Vec::new(alloc),
    };
    add_loads(&mut listing.code, parts.memory.segments())?;
    let Some(note) = &parts.found.files else {
        return Ok(listing);
    };
    let files = read_files(alloc, note)?;
    let source = Source {
        alloc,
        memory: &parts.memory,
        note,
    };
    list_modules(&source, files.as_slice(), limit, &mut listing)?;
    Ok(listing)
}

#[tactic(auto, using(crate::proofs::CoreLemmas::parts_are, crate::proofs::CoreLemmas::code_map))]
fn read_upto<'a>(
    alloc: Global,
    bytes: &'a HeldBytes,
    limit: usize,
) -> Result<Core<'a>, Stop<CoreFault>>
    requires { 0 < limit }
    ensures { MatchStop result
        (λ c. (core_fault bytes.now ≡ None) × (c ≡ parts_upto limit bytes.now))
        (λ fault. core_fault bytes.now ≡ Some fault) (Unit {0}) }
{
    let parts = read_parts(alloc, bytes, limit)?;
    let Listing {
        modules,
        pages: _,
        code,
    } = read_modules(alloc, &parts, limit)?;
    let code = first_items(alloc, code.as_slice())?;
    let Parts { memory, found } = parts;
    let Found {
        limit: _,
        threads,
        files: _,
    } = found;
    Ok(Core {
        memory,
        threads,
        modules,
        code,
    })
}

/// The core of a file, or its first fault in the order of `CoreFault`.
#[tactic(auto, unfolding(crate::specs::Core::core, crate::specs::Core::parts_of))]
pub fn read_core(alloc: Global, bytes: &HeldBytes) -> Result<Core<'_>, Stop<CoreFault>>
    ensures exact { MatchStop result (λ c. core bytes.now ≡ Ok c) (λ fault. core bytes.now ≡ Err fault) (Unit {0}) }
{
    read_upto(alloc, bytes, MOST)
}

impl<'a> Core<'a> {
    /// The threads, of which the first is the one that crashed.
    pub fn threads(&self) -> &[Thread]
        ensures { result.now ≡ self.now.threads }
    {
        self.threads.as_slice()
    }

    /// The modules, in the order of the process's mapped files.
    pub fn modules(&self) -> &[Module]
        ensures { result.now ≡ self.now.modules }
    {
        self.modules.as_slice()
    }

    /// The byte at an address.
    pub fn byte(&self, a: u64) -> Option<u8>
        ensures { result ≡ byte_at self.now.memory a }
    {
        self.memory.byte(a)
    }

    /// The eight bytes at an address as a number, the lowest first, if all of them are in memory.
    pub fn word(&self, a: u64) -> Option<u64>
        ensures { result ≡ word_at self.now.memory a }
    {
        word(&self.memory, a)
    }

    /// Whether an address is code.
    pub fn is_code(&self, a: u64) -> bool
        ensures { result ≡ is_code self.now.memory self.now.modules a }
    {
        self.code.at(None, a).is_some()
    }
}
