//! The files of a dump: an ELF file, and perhaps its separate debug file. `sup_input` reads the supplementary file.
ghost use Rattle.std.specs.Prelude.{◌≡◌, ◌≤◌, [], ◌∷◌, Ok, Err, codes};
ghost use Rattle.std.specs.String.{string_bytes};
ghost use Rattle.sym_edges.specs.Outside.{MatchStop};
ghost use Rattle.full_image.specs.FullImage.{any_image, outcomes_of};
ghost use Rattle.debug_pair.specs.Pairing.{pair_of};
ghost use Rattle.sym_records.specs.Canon.{spaced};
ghost use Rattle.stack_text.specs.Lines.{line};
ghost use Rattle.dumpsyms_cmd.specs.Refusals.{elf_line, pair_line};
ghost use Rattle.dumpsyms_cmd.specs.Verdict.{refused};
ghost use Rattle.dumpsyms_cmd.specs.Words.{debug_view, source_view};
ghost use Rattle.dumpsyms_cmd.specs.ElfInput.{or_refused, path_below, path_of, read_names, given_image, debug_given, with_file, then_path, then_link, with_debug, then_debug};
ghost use Rattle.dumpsyms_cmd.specs.internal.Judged.{AnswersImage, AsksAll, AsksFile, AsksPath, AsksDebug, AsksBehind, AsksSource, IsSteadyAnswer};

use crate::commands::{answer_line, answer_stop};
use crate::judgement::Answer;
use crate::refusals::{debug_fault_line, fault_line, pair_line, unread_line};
use crate::sup_input::answer_image;
use crate::watched_crew::WatchedCrew;
use crate::words::{DebugPlace, ElfPlace};
use debug_pair::{PairFault, debug_path, pair};
use elf_sections::{ElfFault, Image};
use full_image::{Inflations, PackedImage, inflate_sections, read_packed};
use std::alloc::Global;
use std::thread::Threads;
use sym_edges::{FILE_LIMIT, Stop, Store, read_all};
use unit_workers::{Crew, Gate};

/// A file whose tables were read, and the results of inflating its compressed sections.
#[derive(Drop)]
struct Opened<'a> {
    packed: PackedImage<'a>,
    inflated: Inflations,
}

/// A binary and its debug file.
#[derive(Clone, Copy)]
struct Images<'i, 'b, 'd> {
    binary: &'i Image<'b>,
    debug: &'i Image<'d>,
}

/// Reads the tables of a file, and inflates its compressed sections if `full`.
fn open_file<'a, R: Threads + Sync>(
    crew: &Crew<'_, R>,
    bytes: &'a [u8],
    full: bool,
) -> Result<Opened<'a>, Stop<ElfFault>>
    ensures { MatchStop result (λ o. (o.packed ≡ record { full = full; file = bytes.now }) × (o.inflated ≡ outcomes_of o.packed)) (λ fault. any_image full bytes.now ≡ Err fault) (Unit {0}) }
{
    match read_packed(crew.alloc(), bytes, full) {
        Ok(packed) => {
            let inflated = inflate_sections(crew, &packed)?;
            Ok(Opened { packed, inflated })
        }
        Err(stop) => Err(stop),
    }
}

/// The path of a binary's debug file below a root directory, or the word for why there is none.
#[tactic(auto, using(crate::proofs::SourceLemmas::placed_below, crate::proofs::SourceLemmas::short_below, crate::proofs::SourceLemmas::none_below))]
fn find_below(alloc: Global, root: &str, binary: &Image<'_>) -> Result<String, Stop<&'static [u8]>>
    ensures { MatchStop result
        (λ path. path_below root.now binary.now.build_id ≡ Ok (string_bytes path))
        (λ word. path_below root.now binary.now.build_id ≡ Err (refused (line (spaced (codes "refused pair") (word.now ∷ [])))))
        (Unit {0}) }
{
    let Some(id) = binary.build_id() else {
        return Err(Stop::Fault(PairFault::NoBuildId.word()));
    };
    match debug_path(alloc, root, id) {
        Ok(path) => Ok(path),
        Err(Stop::Fault(short)) => Err(Stop::Fault(short.word())),
        Err(Stop::NoMemory) => Err(Stop::NoMemory),
    }
}

/// The path of a binary's debug file, or the word for why there is none.
fn find_debug(
    alloc: Global,
    debug: DebugPlace<'_>,
    binary: &Image<'_>,
) -> Result<String, Stop<&'static [u8]>>
    ensures { MatchStop result
        (λ path. path_of (debug_view debug.entry) binary.now ≡ Ok (string_bytes path))
        (λ word. path_of (debug_view debug.entry) binary.now ≡ Err (refused (line (spaced (codes "refused pair") (word.now ∷ [])))))
        (Unit {0}) }
{
    match debug {
        DebugPlace::File { path } => Ok(String::from_str(alloc, path)?),
        DebugPlace::Root { root } => find_below(alloc, root, binary),
    }
}

/// The answer given a binary and the image of its debug file, which was read from `path`.
#[tactic(auto, using(crate::proofs::SourceLemmas::pair_answered, crate::proofs::SourceLemmas::pair_asked, crate::proofs::SourceLemmas::pair_refused, crate::proofs::SourceLemmas::no_pair_asked, crate::proofs::SourceLemmas::none_asked, crate::proofs::SteadyLemmas::any_steady))]
fn answer_pair<R: Threads + Sync, S: Store, G: Gate + Sync>(
    watched: &WatchedCrew<'_, R, G>,
    images: Images<'_, '_, '_>,
    path: &str,
    source: &ElfPlace<'_>,
    store: &mut S,
) -> Answer
    ensures asked { AsksAll result (read_names (source_view source.now) path.now (or_refused pair_line (pair_of images.entry.binary.now images.entry.debug.now))) (S.asked store.old) (S.asked store.new) }
    ensures files { S.files store.new ≡ S.files store.old }
    ensures faults { S.faults store.old ≤ S.faults store.new }
    ensures steady { IsSteadyAnswer result (S.faults store.old) (S.faults store.new) }
    ensures answered { AnswersImage result (then_link (source_view source.now) path.now (or_refused pair_line (pair_of images.entry.binary.now images.entry.debug.now))) (source_view source.now) (S.files store.old) (S.asked store.new) (S.faults store.old) (S.faults store.new) }
{
    let alloc = watched.crew.alloc();
    match pair(alloc, images.binary, images.debug) {
        Ok(both) => answer_image(watched, both, path, source, store),
        Err(Stop::Fault(fault)) => answer_line(pair_line(alloc, fault.word())),
        Err(Stop::NoMemory) => Answer::NoMemory,
    }
}
/// The answer given a debug file whose tables were read.
#[tactic(auto, using(crate::proofs::SourceLemmas::debug_answered, crate::proofs::SourceLemmas::debug_asked, crate::proofs::SourceLemmas::debug_refused, crate::proofs::SourceLemmas::no_debug_asked, crate::proofs::SteadyLemmas::any_steady))]
fn answer_unpacked<R: Threads + Sync, S: Store, G: Gate + Sync>(
    watched: &WatchedCrew<'_, R, G>,
    binary: &Image<'_>,
    opened: Opened<'_>,
    path: &str,
    source: &ElfPlace<'_>,
    store: &mut S,
) -> Answer
    requires inflated { opened.inflated ≡ outcomes_of opened.packed }
    ensures asked { AsksAll result (read_names (source_view source.now) path.now (debug_given binary.now (any_image opened.entry.packed.full opened.entry.packed.file))) (S.asked store.old) (S.asked store.new) }
    ensures files { S.files store.new ≡ S.files store.old }
    ensures faults { S.faults store.old ≤ S.faults store.new }
    ensures steady { IsSteadyAnswer result (S.faults store.old) (S.faults store.new) }
    ensures answered { AnswersImage result (then_link (source_view source.now) path.now (debug_given binary.now (any_image opened.entry.packed.full opened.entry.packed.file))) (source_view source.now) (S.files store.old) (S.asked store.new) (S.faults store.old) (S.faults store.new) }
{
    let Opened { packed, inflated } = opened;
    match packed.unpack(&inflated) {
        Ok(debug) => answer_pair(
            watched,
            Images {
                binary,
                debug: &debug,
            },
            path,
            source,
            store,
        ),
        Err(fault) => answer_line(debug_fault_line(watched.crew.alloc(), fault)),
    }
}

/// The answer given the bytes of the debug file.
#[tactic(auto, using(crate::proofs::SourceLemmas::debug_opened, crate::proofs::SourceLemmas::debug_opened_asked, crate::proofs::SourceLemmas::debug_refused, crate::proofs::SourceLemmas::no_debug_asked, crate::proofs::SourceLemmas::none_asked, crate::proofs::SteadyLemmas::any_steady))]
fn answer_debug<R: Threads + Sync, S: Store, G: Gate + Sync>(
    watched: &WatchedCrew<'_, R, G>,
    binary: &Image<'_>,
    bytes: &[u8],
    path: &str,
    source: &ElfPlace<'_>,
    store: &mut S,
) -> Answer
    ensures asked { AsksAll result (read_names (source_view source.now) path.now (debug_given binary.now (any_image source.now.full bytes.now))) (S.asked store.old) (S.asked store.new) }
    ensures files { S.files store.new ≡ S.files store.old }
    ensures faults { S.faults store.old ≤ S.faults store.new }
    ensures steady { IsSteadyAnswer result (S.faults store.old) (S.faults store.new) }
    ensures answered { AnswersImage result (then_link (source_view source.now) path.now (debug_given binary.now (any_image source.now.full bytes.now))) (source_view source.now) (S.files store.old) (S.asked store.new) (S.faults store.old) (S.faults store.new) }
{
    match open_file(&watched.crew, bytes, source.full) {
        Ok(opened) => answer_unpacked(watched, binary, opened, path, source, store),
        Err(Stop::Fault(fault)) => answer_line(debug_fault_line(watched.crew.alloc(), fault)),
        Err(Stop::NoMemory) => Answer::NoMemory,
    }
}

/// The answer given the path of a debug file, which is read here. The line for an unreadable file is made before that, since no memory is allocated
/// after a file failed.
#[tactic(auto, using(crate::proofs::SourceLemmas::file_unread, crate::proofs::SteadyLemmas::stop_steady, crate::proofs::SteadyLemmas::steady_behind, crate::proofs::SteadyLemmas::any_steady))]
fn answer_file<R: Threads + Sync, S: Store, G: Gate + Sync>(
    watched: &WatchedCrew<'_, R, G>,
    binary: &Image<'_>,
    path: &str,
    source: &ElfPlace<'_>,
    store: &mut S,
) -> Answer
    ensures asked { AsksFile result (source_view source.now) binary.now path.now (S.files store.old) (S.asked store.old) (S.asked store.new) }
    ensures files { S.files store.new ≡ S.files store.old }
    ensures faults { S.faults store.old ≤ S.faults store.new }
    ensures steady { IsSteadyAnswer result (S.faults store.old) (S.faults store.new) }
    ensures answered { AnswersImage result (with_file (source_view source.now) binary.now path.now) (source_view source.now) (S.files store.old) (S.asked store.new) (S.faults store.old) (S.faults store.new) }
{
    let alloc = watched.crew.alloc();
    let Ok(unread) = unread_line(alloc, source.full, path.as_bytes()) else {
        return Answer::NoMemory;
    };
    match read_all(alloc, store, path, FILE_LIMIT) {
        Ok(bytes) => answer_debug(watched, binary, bytes.as_slice(), path, source, store),
        Err(stop) => answer_stop(stop, unread),
    }
}

/// The answer given a binary whose debug file is still to be found.
#[tactic(auto, using(crate::proofs::SourceLemmas::file_answered, crate::proofs::SourceLemmas::file_asked, crate::proofs::SourceLemmas::file_refused, crate::proofs::SourceLemmas::no_file_asked, crate::proofs::SourceLemmas::path_unknown, crate::proofs::SteadyLemmas::any_steady))]
fn answer_place<R: Threads + Sync, S: Store, G: Gate + Sync>(
    watched: &WatchedCrew<'_, R, G>,
    binary: &Image<'_>,
    debug: DebugPlace<'_>,
    source: &ElfPlace<'_>,
    store: &mut S,
) -> Answer
    ensures asked { AsksPath result (source_view source.now) binary.now (path_of (debug_view debug.entry) binary.now) (S.files store.old) (S.asked store.old) (S.asked store.new) }
    ensures files { S.files store.new ≡ S.files store.old }
    ensures faults { S.faults store.old ≤ S.faults store.new }
    ensures steady { IsSteadyAnswer result (S.faults store.old) (S.faults store.new) }
    ensures answered { AnswersImage result (then_path (with_file (source_view source.now) binary.now) (path_of (debug_view debug.entry) binary.now)) (source_view source.now) (S.files store.old) (S.asked store.new) (S.faults store.old) (S.faults store.new) }
{
    let alloc = watched.crew.alloc();
    match find_debug(alloc, debug, binary) {
        Ok(path) => answer_file(watched, binary, path.as_str(), source, store),
        Err(Stop::Fault(word)) => answer_line(pair_line(alloc, word)),
        Err(Stop::NoMemory) => Answer::NoMemory,
    }
}

/// The answer given the image of the ELF file.
#[tactic(auto, using(crate::proofs::SourceLemmas::none_answered, crate::proofs::SourceLemmas::none_named, crate::proofs::SourceLemmas::some_answered, crate::proofs::SourceLemmas::some_asked))]
fn answer_binary<R: Threads + Sync, S: Store, G: Gate + Sync>(
    watched: &WatchedCrew<'_, R, G>,
    binary: Image<'_>,
    source: &ElfPlace<'_>,
    store: &mut S,
) -> Answer
    ensures asked { AsksDebug result (source_view source.now) (source_view source.now).debug binary.entry (S.files store.old) (S.asked store.old) (S.asked store.new) }
    ensures files { S.files store.new ≡ S.files store.old }
    ensures faults { S.faults store.old ≤ S.faults store.new }
    ensures steady { IsSteadyAnswer result (S.faults store.old) (S.faults store.new) }
    ensures answered { AnswersImage result (with_debug (source_view source.now) (source_view source.now).debug binary.entry) (source_view source.now) (S.files store.old) (S.asked store.new) (S.faults store.old) (S.faults store.new) }
{
    match source.debug {
        None => answer_image(watched, binary, source.elf, source, store),
        Some(debug) => answer_place(watched, &binary, debug, source, store),
    }
}

/// The answer given the ELF file, whose tables were read.
#[tactic(auto, using(crate::proofs::SourceLemmas::binary_answered, crate::proofs::SourceLemmas::binary_refused, crate::proofs::SourceLemmas::binary_asked, crate::proofs::SourceLemmas::refused_asked, crate::proofs::SteadyLemmas::any_steady))]
fn answer_opened<R: Threads + Sync, S: Store, G: Gate + Sync>(
    watched: &WatchedCrew<'_, R, G>,
    opened: Opened<'_>,
    source: &ElfPlace<'_>,
    store: &mut S,
) -> Answer
    requires inflated { opened.inflated ≡ outcomes_of opened.packed }
    ensures asked { AsksBehind result (source_view source.now) (or_refused elf_line (any_image opened.entry.packed.full opened.entry.packed.file)) (S.files store.old) (S.asked store.old) (S.asked store.new) }
    ensures files { S.files store.new ≡ S.files store.old }
    ensures faults { S.faults store.old ≤ S.faults store.new }
    ensures steady { IsSteadyAnswer result (S.faults store.old) (S.faults store.new) }
    ensures answered { AnswersImage result (then_debug (source_view source.now) (or_refused elf_line (any_image opened.entry.packed.full opened.entry.packed.file))) (source_view source.now) (S.files store.old) (S.asked store.new) (S.faults store.old) (S.faults store.new) }
{
    let Opened { packed, inflated } = opened;
    match packed.unpack(&inflated) {
        Ok(binary) => answer_binary(watched, binary, source, store),
        Err(fault) => answer_line(fault_line(watched.crew.alloc(), fault)),
    }
}

/// The answer given the bytes of the ELF file.
#[tactic(auto, using(crate::proofs::SourceLemmas::opened_answered, crate::proofs::SourceLemmas::opened_asked, crate::proofs::SourceLemmas::binary_refused, crate::proofs::SourceLemmas::refused_asked, crate::proofs::SourceLemmas::memory_asked, crate::proofs::SteadyLemmas::any_steady))]
fn answer_bytes<R: Threads + Sync, S: Store, G: Gate + Sync>(
    watched: &WatchedCrew<'_, R, G>,
    bytes: &[u8],
    source: &ElfPlace<'_>,
    store: &mut S,
) -> Answer
    ensures asked { AsksBehind result (source_view source.now) (or_refused elf_line (any_image source.now.full bytes.now)) (S.files store.old) (S.asked store.old) (S.asked store.new) }
    ensures files { S.files store.new ≡ S.files store.old }
    ensures faults { S.faults store.old ≤ S.faults store.new }
    ensures steady { IsSteadyAnswer result (S.faults store.old) (S.faults store.new) }
    ensures answered { AnswersImage result (then_debug (source_view source.now) (or_refused elf_line (any_image source.now.full bytes.now))) (source_view source.now) (S.files store.old) (S.asked store.new) (S.faults store.old) (S.faults store.new) }
{
    match open_file(&watched.crew, bytes, source.full) {
        Ok(opened) => answer_opened(watched, opened, source, store),
        Err(Stop::Fault(fault)) => answer_line(fault_line(watched.crew.alloc(), fault)),
        Err(Stop::NoMemory) => Answer::NoMemory,
    }
}

/// The answer for the image that the files of a source give. The ELF file is read first. The debug file is read only if the ELF file has an image and
/// the place of the debug file is known.
#[tactic(auto, using(crate::proofs::SourceLemmas::elf_stopped, crate::proofs::SourceLemmas::elf_not_read, crate::proofs::SourceLemmas::nothing_asked, crate::proofs::SteadyLemmas::stop_steady, crate::proofs::SteadyLemmas::steady_behind, crate::proofs::SteadyLemmas::any_steady))]
pub(crate) fn answer_source<R: Threads + Sync, S: Store, G: Gate + Sync>(
    watched: &WatchedCrew<'_, R, G>,
    source: &ElfPlace<'_>,
    store: &mut S,
) -> Answer
    ensures asked { AsksSource result (source_view source.now) (S.files store.old) (S.asked store.old) (S.asked store.new) }
    ensures files { S.files store.new ≡ S.files store.old }
    ensures faults { S.faults store.old ≤ S.faults store.new }
    ensures steady { IsSteadyAnswer result (S.faults store.old) (S.faults store.new) }
    ensures answered { AnswersImage result (given_image (source_view source.now)) (source_view source.now) (S.files store.old) (S.asked store.new) (S.faults store.old) (S.faults store.new) }
{
    let alloc = watched.crew.alloc();
    let Ok(unread) = unread_line(alloc, source.full, source.elf.as_bytes()) else {
        return Answer::NoMemory;
    };
    match read_all(alloc, store, source.elf, FILE_LIMIT) {
        Ok(bytes) => answer_bytes(watched, bytes.as_slice(), source, store),
        Err(stop) => answer_stop(stop, unread),
    }
}
