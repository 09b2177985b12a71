//! The symbol file of an image: the text of its records, and the lines about what is left out.
ghost use Rattle.std.specs.Prelude.{◌≡◌, ◌≤◌, ◌++◌, ◌∷◌, true, None, Ok, length, map, IfOk, OnOk};
ghost use Rattle.std.specs.Thread.{IsSync};
ghost use Rattle.clean_names.specs.Cleaning.{cleaned};
ghost use Rattle.sym_records.specs.Canon.{canon, canon_text};
ghost use Rattle.sym_records.specs.Spelled.{text_bytes};
ghost use Rattle.sym_records.specs.Reading.{fits};
ghost use Rattle.sym_records.specs.Validity.{first_bad, first_bad_from, fields_fit};
ghost use Rattle.sym_records.specs.declared.place.Place.TheVariants.{Start, Inside};
ghost use Rattle.func_flatten.specs.Publics.{public_view};
ghost use Rattle.debug_units.specs.CleanPaths.{HaveCleanPaths};
ghost use Rattle.debug_read.specs.DebugSays.{IsDebugRead};
ghost use Rattle.dumpsyms_cmd.specs.commands.Dump.{module_line, info_line, info_lines, public_line};
ghost use Rattle.dumpsyms_cmd.specs.internal.Spelled.{FitsInside, HasHead, HasFrames, DumpsRead};
ghost use Rattle.dumpsyms_cmd.specs.commands.Dump.{Assembles};

use crate::omissions::list_left_out;
use debug_pair::{hex_text, make_id};
use debug_read::DebugRead;
use elf_sections::Image;
use func_flatten::{PublicAt, pieces, publics};
use func_records::add_functions;
use rule_postfix::{Frames, Omissions, translate_all};
use std::alloc::Global;
use std::thread::Threads;
use sym_edges::OutOfMemory;
use sym_records::laws::cleaned_bytes_are_names;
use sym_records::{ByteText, SymText, TextPieces, add_info, add_module, add_public};
use unit_workers::Crew;

/// Spells the MODULE record of the binary, with its cleaned name.
#[tactic(auto, using(crate::proofs::RecordLemmas::module_valid), unfolding(crate::specs::commands::Dump::module_line))]
fn put_module(
    alloc: Global,
    text: &mut Vec<u8>,
    identity: [u8; 16],
    name: &[u8],
) -> Result<(), OutOfMemory>
    ensures text { OnOk result (text.new.items ≡ text.old.items ++ canon (module_line identity (cleaned name.now))) }
    ensures first { OnOk result (fits Start (module_line identity (cleaned name.now)) ≡ true) }
    ensures fit { OnOk result (fields_fit (module_line identity (cleaned name.now)) ≡ true) }
{
    cleaned_bytes_are_names();
    let id = make_id(alloc, identity)?;
    add_module(text, b"Linux", b"x86_64", &id, name)
}

/// Spells the INFO record of a build id.
#[tactic(auto, using(crate::proofs::RecordLemmas::info_valid), unfolding(crate::specs::commands::Dump::info_line))]
fn put_info(alloc: Global, text: &mut Vec<u8>, id: &[u8]) -> Result<(), OutOfMemory>
    requires { length id.now ≤ 64 }
    ensures text { OnOk result (text.new.items ≡ text.old.items ++ canon (info_line id.now)) }
    ensures fit { OnOk result (FitsInside (info_line id.now)) }
{
    let mut words = Vec::from_slice(alloc, b"CODE_ID ")?;
    words.extend_from_slice(&hex_text(alloc, id)?)?;
    add_info(text, &words)
}

/// Spells the MODULE record of the binary and the INFO record of its build id.
#[tactic(auto, using(crate::proofs::RecordLemmas::module_alone, crate::proofs::RecordLemmas::module_and_info, crate::proofs::RecordLemmas::module_fits_first, crate::proofs::RecordLemmas::info_fits_behind))]
fn put_identity(
    alloc: Global,
    text: &mut Vec<u8>,
    image: &Image<'_>,
    name: &[u8],
) -> Result<(), OutOfMemory>
    ensures text { OnOk result (text.new.items ≡ text.old.items ++ canon_text (module_line image.now.identity (cleaned name.now) ∷ info_lines image.now.build_id)) }
    ensures valid { OnOk result (first_bad (module_line image.now.identity (cleaned name.now) ∷ info_lines image.now.build_id) ≡ None) }
{
    put_module(alloc, text, image.identity(), name)?;
    if let Some(id) = image.build_id() {
        put_info(alloc, text, id)?;
    }
    Ok(())
}

/// Adds the PUBLIC record for an address with function symbols.
#[tactic(auto, using(sym_records::proofs::MakingLemmas::public_fits))]
fn add_public_at(text: &mut Vec<u8>, base: u64, at: &PublicAt<'_>) -> Result<(), OutOfMemory>
    ensures text { OnOk result (text.new.items ≡ text.old.items ++ canon (public_line base (public_view at.now))) }
    ensures fit { FitsInside (public_line base (public_view at.now)) }
{
    cleaned_bytes_are_names();
    add_public(text, at.many, at.address.saturating_sub(base), 0, at.name)
}

/// Adds the PUBLIC records of function symbols that no piece of a function covers.
fn add_publics(
    alloc: Global,
    base: u64,
    found: &[PublicAt<'_>],
    text: &mut TextPieces,
) -> Result<(), OutOfMemory>
    ensures text { OnOk result (text_bytes text.new ≡ text_bytes text.old ++ canon_text (map (public_line base) (map public_view found.now))) }
    ensures fit { OnOk result (first_bad_from 0 Inside (map (public_line base) (map public_view found.now)) ≡ None) }
{
    'addresses: for k in 0..found.len() {
        add_public_at(&mut text.last, base, &found[k])?;
        text.turn(alloc)?;
    }
    Ok(())
}

/// Spells the records before the frame records. MODULE has the file's cleaned name.
fn spell_head<R: Threads + Sync>(
    crew: &Crew<'_, R>,
    image: &Image<'_>,
    name: &[u8],
    debug: &DebugRead<'_>,
) -> Result<TextPieces, OutOfMemory>
    requires clean { HaveCleanPaths debug.now.units }
    ensures { IfOk result (λ text. HasHead image.now name.now debug.now.units (text_bytes text)) }
{
    let alloc = crew.alloc();
    let base = image.base();
    let pieces = pieces(alloc, &debug.units)?;
    let mut front = TextPieces::new(alloc);
    put_identity(alloc, &mut front.last, image, name)?;
    let mut text = add_functions(crew, base, &debug.units, pieces.as_slice(), front)?;
    let found = publics(alloc, image, &pieces)?;
    add_publics(alloc, base, found.as_slice(), &mut text)?;
    Ok(text)
}

/// Spells the frame records.
fn spell_frames<R: Threads + Sync>(
    crew: &Crew<'_, R>,
    image: &Image<'_>,
    debug: &DebugRead<'_>,
) -> Result<Frames, OutOfMemory>
    ensures { IfOk result (λ frames. HasFrames image.now debug.now (text_bytes frames.text) frames.omitted) }
{
    let frames = translate_all(
        crew,
        &debug.first,
        &debug.second,
        image.code(),
        image.base(),
    )?;
    Ok(frames)
}

/// The text of a file, and the frame entries that are left out.
#[derive(Debug, Drop)]
struct FileText {
    file: SymText,
    omitted: Omissions,
}

/// Spells the records of a file. The frame records come last; they are spelled at the same time as
/// the others if there are several workers.
fn dump_file<R: Threads + Sync>(
    crew: &Crew<'_, R>,
    image: &Image<'_>,
    name: &[u8],
    debug: &DebugRead<'_>,
) -> Result<FileText, OutOfMemory>
    requires found { IsDebugRead image.now debug.now }
    ensures { IfOk result (λ d. DumpsRead image.now name.now debug.now d.file d.omitted) }
{
    let head = || -> Result<TextPieces, OutOfMemory>
        requires { IsSync R.row × HaveCleanPaths debug.now.units }
        ensures { IfOk result (λ text. HasHead image.entry.now name.entry.now debug.entry.now.units (text_bytes text)) }
    { spell_head(crew, image, name, debug) };
    let frames = || -> Result<Frames, OutOfMemory>
        requires { IsSync R.row }
        ensures { IfOk result (λ frames. HasFrames image.entry.now debug.entry.now (text_bytes frames.text) frames.omitted) }
    { spell_frames(crew, image, debug) };
    let (front, behind) = crew.both(head, frames);
    let mut head = front?;
    let framed = behind?;
    let Frames { text, omitted } = framed;
    head.append(text)?;
    Ok(FileText {
        file: SymText::of(head),
        omitted,
    })
}

/// A symbol file; what is left out of it, as lines of text (skipped units, then frame entries); and the number of frame entries that are left out.
#[derive(Debug, Drop)]
pub struct Dumped {
    pub file: SymText,
    pub err: ByteText,
    pub omitted: usize,
}

/// Spells the symbol file of an image (Breakpad's symbol_files.md): MODULE, INFO, FILE, INLINE_ORIGIN, each FUNC with its INLINE and line records,
/// PUBLIC, and the frame records. The name is cleaned. `debug` is what `read_debug` returned for the image. If `full`, the lines about what is left
/// out also name the units whose entries are in another file. A crew of workers spells the text; their number changes nothing.
pub fn assemble<R: Threads + Sync>(
    crew: &Crew<'_, R>,
    image: &Image<'_>,
    debug: &DebugRead<'_>,
    name: &[u8],
    full: bool,
) -> Result<Dumped, OutOfMemory>
    requires found { IsDebugRead image.now debug.now }
    ensures { IfOk result (λ d. Assembles full image.now name.now d.file d.err d.omitted) }
{
    let text = dump_file(crew, image, name, debug)?;
    let FileText { file, omitted } = text;
    let err = list_left_out(crew.alloc(), full, image, debug, omitted.as_slice())?;
    Ok(Dumped {
        file,
        err,
        omitted: omitted.len(),
    })
}
