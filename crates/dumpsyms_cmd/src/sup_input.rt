//! The supplementary file to which the file with the debugging information links (DWARF 5, 7.3.6). It is read only if `full`.
ghost use Rattle.std.specs.Prelude.{◌≡◌, ◌≤◌, ◌∷◌, [], true, Ok, Err, IfOk};
ghost use Rattle.std.specs.Option.{option_copied, option_map};
ghost use Rattle.std.specs.String.{string_bytes};
ghost use Rattle.sym_edges.specs.Outside.{MatchStop};
ghost use Rattle.full_image.specs.FullImage.{outcomes_of};
ghost use Rattle.full_image.specs.SupImage.{sup_image};
ghost use Rattle.debug_pair.specs.SupLinkView.{sup_link_view};
ghost use Rattle.dumpsyms_cmd.specs.Refusals.{sup_line};
ghost use Rattle.dumpsyms_cmd.specs.Verdict.{refused};
ghost use Rattle.dumpsyms_cmd.specs.Words.{debug_view, source_view};
ghost use Rattle.dumpsyms_cmd.specs.ElfInput.{joined, root_of, sup_place, with_sup_file, then_path, then_sup, path_names, sup_names};
ghost use Rattle.dumpsyms_cmd.specs.internal.Judged.{JudgesGiven, JudgesSup, AnswersImage, AsksAll, IsSteadyAnswer};

use crate::commands::{answer_line, answer_stop, judge_image, refuse};
use crate::judgement::{Answer, Judgement, Message};
use crate::refusals::{sup_fault_line, sup_line, unread_line};
use crate::symbol_input::answer_judged;
use crate::watched_crew::WatchedCrew;
use crate::words::{DebugPlace, ElfPlace};
use debug_pair::{SupFault, SupLink, find_sup_link, is_linked, sup_path};
use elf_sections::{ElfFault, Image};
use full_image::{Inflations, PackedSup, inflate_supplement, read_packed_sup};
use std::alloc::Global;
use std::thread::Threads;
use sym_edges::{FILE_LIMIT, OutOfMemory, Stop, Store, read_all};
use unit_workers::{Crew, Gate};

/// An image, and the link to its supplementary file.
#[derive(Drop)]
struct Linked<'a> {
    image: Image<'a>,
    link: SupLink<'a>,
}

/// A supplementary file whose tables were read, and the results of inflating its compressed sections.
#[derive(Drop)]
struct OpenedSup<'a> {
    packed: PackedSup<'a>,
    inflated: Inflations,
}

/// Reads the tables of a supplementary file, and inflates its compressed sections.
fn open_sup<'a, R: Threads + Sync>(
    crew: &Crew<'_, R>,
    bytes: &'a [u8],
) -> Result<OpenedSup<'a>, Stop<ElfFault>>
    ensures { MatchStop result (λ o. (o.packed ≡ bytes.now) × (o.inflated ≡ outcomes_of (record { full = true; file = o.packed }))) (λ fault. sup_image bytes.now ≡ Err fault) (Unit {0}) }
{
    match read_packed_sup(crew.alloc(), bytes) {
        Ok(packed) => {
            let inflated = inflate_supplement(crew, &packed)?;
            Ok(OpenedSup { packed, inflated })
        }
        Err(stop) => Err(stop),
    }
}

/// A dump of an image joined with that of its supplementary file.
#[tactic(auto, using(crate::proofs::SupLemmas::joined_judged, crate::proofs::SupLemmas::joined_refused))]
fn judge_joined<R: Threads + Sync, G: Gate + Sync>(
    watched: &WatchedCrew<'_, R, G>,
    linked: Linked<'_>,
    sup: &Image<'_>,
    source: &ElfPlace<'_>,
) -> Result<Judgement, OutOfMemory>
    ensures { IfOk result (λ j. JudgesGiven j (source_view source.now) (joined linked.entry.image (sup_link_view linked.entry.link) sup.now)) }
{
    let Linked { image, link } = linked;
    if is_linked(&link, sup) {
        judge_image(watched, &image.with_sup(sup), source)
    } else {
        Ok(refuse(Message::Made(sup_line(watched.crew.alloc(), SupFault::BuildId)?)))
    }
}

/// A dump given a supplementary file whose tables were read.
#[tactic(auto, using(crate::proofs::SupLemmas::sup_judged, crate::proofs::SupLemmas::sup_refused))]
fn judge_opened<R: Threads + Sync, G: Gate + Sync>(
    watched: &WatchedCrew<'_, R, G>,
    linked: Linked<'_>,
    opened: OpenedSup<'_>,
    source: &ElfPlace<'_>,
) -> Result<Judgement, OutOfMemory>
    requires inflated { opened.inflated ≡ outcomes_of (record { full = true; file = opened.packed }) }
    ensures { IfOk result (λ j. JudgesSup j (source_view source.now) linked.entry.image (sup_link_view linked.entry.link) (sup_image opened.entry.packed)) }
{
    let OpenedSup { packed, inflated } = opened;
    match packed.unpack(&inflated) {
        Ok(sup) => judge_joined(watched, linked, &sup, source),
        Err(fault) => Ok(refuse(Message::Made(sup_fault_line(watched.crew.alloc(), fault)?))),
    }
}

/// A dump given the bytes of the supplementary file.
#[tactic(auto, using(crate::proofs::SupLemmas::sup_opened, crate::proofs::SupLemmas::sup_refused))]
fn judge_sup<R: Threads + Sync, G: Gate + Sync>(
    watched: &WatchedCrew<'_, R, G>,
    linked: Linked<'_>,
    bytes: &[u8],
    source: &ElfPlace<'_>,
) -> Result<Judgement, OutOfMemory>
    ensures { IfOk result (λ j. JudgesSup j (source_view source.now) linked.entry.image (sup_link_view linked.entry.link) (sup_image bytes.now)) }
{
    match open_sup(&watched.crew, bytes) {
        Ok(opened) => judge_opened(watched, linked, opened, source),
        Err(Stop::Fault(fault)) => Ok(refuse(Message::Made(sup_fault_line(
            watched.crew.alloc(),
            fault,
        )?))),
        Err(Stop::NoMemory) => Err(OutOfMemory),
    }
}

/// The root directory below which debug files are looked for, if it is given.
fn given_root<'w>(debug: Option<DebugPlace<'w>>) -> Option<&'w str>
    ensures { option_copied result ≡ root_of (option_map debug_view debug.entry) }
{
    match debug {
        None => None,
        Some(DebugPlace::File { path: _ }) => None,
        Some(DebugPlace::Root { root }) => Some(root),
    }
}

/// The path of the supplementary file to which the file `name` links.
#[tactic(auto, using(crate::proofs::SupLemmas::placed, crate::proofs::SupLemmas::nowhere))]
fn find_sup(
    alloc: Global,
    source: &ElfPlace<'_>,
    name: &str,
    link: &SupLink<'_>,
) -> Result<String, Stop<SupFault>>
    ensures { MatchStop result
        (λ path. sup_place (source_view source.now).debug name.now (sup_link_view link.now) ≡ Ok (string_bytes path))
        (λ fault. sup_place (source_view source.now).debug name.now (sup_link_view link.now) ≡ Err (refused (sup_line fault)))
        (Unit {0}) }
{
    sup_path(alloc, given_root(source.debug), name, link.path)
}

/// The answer given the path of a supplementary file, which is read here. The line for an unreadable file is made before that, since no memory is
/// allocated after a file failed.
#[tactic(auto, using(crate::proofs::SupLemmas::sup_read, crate::proofs::SupLemmas::sup_stopped, crate::proofs::SourceLemmas::all_asked, crate::proofs::SourceLemmas::stop_asked, crate::proofs::SourceLemmas::none_asked, crate::proofs::SteadyLemmas::stop_steady, crate::proofs::SteadyLemmas::any_steady))]
fn answer_sup_file<R: Threads + Sync, S: Store, G: Gate + Sync>(
    watched: &WatchedCrew<'_, R, G>,
    linked: Linked<'_>,
    path: &str,
    source: &ElfPlace<'_>,
    store: &mut S,
) -> Answer
    ensures asked { AsksAll result (path.now ∷ []) (S.asked store.old) (S.asked store.new) }
    ensures files { S.files store.new ≡ S.files store.old }
    ensures faults { S.faults store.old ≤ S.faults store.new }
    ensures steady { IsSteadyAnswer result (S.faults store.old) (S.faults store.new) }
    ensures answered { AnswersImage result (with_sup_file source.now.full linked.entry.image (sup_link_view linked.entry.link) path.now) (source_view source.now) (S.files store.old) (S.asked store.new) (S.faults store.old) (S.faults store.new) }
{
    let alloc = watched.crew.alloc();
    let Ok(unread) = unread_line(alloc, source.full, path.as_bytes()) else {
        return Answer::NoMemory;
    };
    match read_all(alloc, store, path, FILE_LIMIT) {
        Ok(bytes) => answer_judged(judge_sup(watched, linked, bytes.as_slice(), source)),
        Err(stop) => answer_stop(stop, unread),
    }
}

/// The answer given an image whose supplementary file is still to be found.
#[tactic(auto, using(crate::proofs::SupLemmas::place_answered, crate::proofs::SourceLemmas::path_asked, crate::proofs::SupLemmas::place_refused, crate::proofs::SourceLemmas::no_path_asked, crate::proofs::SourceLemmas::none_asked, crate::proofs::SteadyLemmas::any_steady))]
fn answer_link<R: Threads + Sync, S: Store, G: Gate + Sync>(
    watched: &WatchedCrew<'_, R, G>,
    linked: Linked<'_>,
    name: &str,
    source: &ElfPlace<'_>,
    store: &mut S,
) -> Answer
    ensures asked { AsksAll result (path_names (sup_place (source_view source.now).debug name.now (sup_link_view linked.entry.link))) (S.asked store.old) (S.asked store.new) }
    ensures files { S.files store.new ≡ S.files store.old }
    ensures faults { S.faults store.old ≤ S.faults store.new }
    ensures steady { IsSteadyAnswer result (S.faults store.old) (S.faults store.new) }
    ensures answered { AnswersImage result (then_path (with_sup_file source.now.full linked.entry.image (sup_link_view linked.entry.link)) (sup_place (source_view source.now).debug name.now (sup_link_view linked.entry.link))) (source_view source.now) (S.files store.old) (S.asked store.new) (S.faults store.old) (S.faults store.new) }
{
    let alloc = watched.crew.alloc();
    match find_sup(alloc, source, name, &linked.link) {
        Ok(path) => answer_sup_file(watched, linked, path.as_str(), source, store),
        Err(Stop::Fault(fault)) => answer_line(sup_line(alloc, fault)),
        Err(Stop::NoMemory) => Answer::NoMemory,
    }
}

/// The answer given the image with the debugging information, which was read from the file `name`. If this file links to a supplementary file, the
/// supplementary file is read too.
#[tactic(auto, using(crate::proofs::SupLemmas::plain_answered, crate::proofs::SupLemmas::plain_asked, crate::proofs::SupLemmas::alone_answered, crate::proofs::SupLemmas::alone_asked, crate::proofs::SupLemmas::link_answered, crate::proofs::SupLemmas::link_asked, crate::proofs::SupLemmas::link_refused, crate::proofs::SupLemmas::bad_link_asked, crate::proofs::SteadyLemmas::any_steady))]
pub fn answer_image<R: Threads + Sync, S: Store, G: Gate + Sync>(
    watched: &WatchedCrew<'_, R, G>,
    image: Image<'_>,
    name: &str,
    source: &ElfPlace<'_>,
    store: &mut S,
) -> Answer
    ensures asked { AsksAll result (sup_names (source_view source.now) name.now image.entry) (S.asked store.old) (S.asked store.new) }
    ensures files { S.files store.new ≡ S.files store.old }
    ensures faults { S.faults store.old ≤ S.faults store.new }
    ensures steady { IsSteadyAnswer result (S.faults store.old) (S.faults store.new) }
    ensures answered { AnswersImage result (then_sup (source_view source.now) name.now image.entry) (source_view source.now) (S.files store.old) (S.asked store.new) (S.faults store.old) (S.faults store.new) }
{
    if !source.full {
        return answer_judged(judge_image(watched, &image, source));
    }
    match find_sup_link(&image) {
        Ok(None) => answer_judged(judge_image(watched, &image, source)),
        Ok(Some(link)) => answer_link(watched, Linked { image, link }, name, source, store),
        Err(fault) => answer_line(sup_line(watched.crew.alloc(), fault)),
    }
}
