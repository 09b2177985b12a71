//! The text of an answer.
ghost use Rattle.std.specs.Prelude.{◌≡◌, ◌++◌, codes, map, reverse, Some, IfOk, OnOk};
ghost use Rattle.std.specs.Option.{unwrap_or};
ghost use Rattle.std.specs.Fmt.{decimal};
ghost use Rattle.sym_meaning.specs.TextNames.{file_name, origin_name, text_path, text_origin, func_name, call_of, path_and_line};
ghost use Rattle.sym_lookup.specs.AnswerTexts.{spot_text, line_spot, call_spot, call_name, frame_text, func_name_at, call_at, line_at, frames_text, public_name, public_name_at, answer_text};
ghost use Rattle.sym_lookup.specs.internal.Spots.{spot_shown};

use crate::answers::Answer;
use crate::named::{Records, file_name, origin_name};
use crate::numbers::numbers_of;
use crate::shared_text::SharedText;
use clean_names::name_omitted;
use itoa::Buffer;
use std::alloc::Global;
use sym_edges::OutOfMemory;
use sym_records::{SymFile, SymLine};

fn func_name(line: &SymLine) -> &[u8]
    ensures { result.now ≡ func_name line.now }
{
    match line {
        SymLine::Func { name, .. } => name.as_slice(),
        _ => &[],
    }
}

fn public_name(line: &SymLine) -> &[u8]
    ensures { result.now ≡ public_name line.now }
{
    match line {
        SymLine::Public { name, .. } => name.as_slice(),
        _ => &[],
    }
}

/// Adds the path of a `FILE` and a line.
fn add_path_and_line(text: &mut SharedText, path: &[u8], line: u32) -> Result<(), OutOfMemory>
    ensures { OnOk result (text.new ≡ text.old ++ (path.now ++ codes ":" ++ decimal line)) }
{
    let mut buffer = Buffer::new();
    text.add(path)?;
    text.add(b":")?;
    text.add(buffer.format(line).as_bytes())
}

/// Adds the path of the first `FILE` with a number, and a line.
fn add_spot(
    text: &mut SharedText,
    lines: &Records<'_>,
    file: u32,
    line: u32,
) -> Result<(), OutOfMemory>
    ensures { OnOk result (text.new ≡ text.old ++ spot_text (text_path lines.now file) line) }
{
    match lines.file(file) {
        None => text.add(b"?"),
        Some(path) => add_path_and_line(text, file_name(path), line),
    }
}

/// Adds the path and line of a line record.
fn add_line_spot(
    text: &mut SharedText,
    lines: &Records<'_>,
    spot: &SymLine,
) -> Result<(), OutOfMemory>
    ensures { OnOk result (text.new ≡ text.old ++ line_spot (Some (path_and_line lines.now spot.now))) }
{
    match spot {
        SymLine::Line { line, file, .. } => add_spot(text, lines, *file, *line),
        _ => text.add(b"?"),
    }
}

/// Adds the path and line of the line record at a place.
fn add_line_spot_at(
    text: &mut SharedText,
    lines: &Records<'_>,
    place: Option<usize>,
) -> Result<(), OutOfMemory>
    ensures { OnOk result (text.new ≡ text.old ++ line_spot (line_at lines.now place)) }
{
    let Some(place) = place else {
        return text.add(b"?");
    };
    match lines.get(place) {
        None => text.add(b"?"),
        Some(spot) => add_line_spot(text, lines, spot),
    }
}

/// Adds the path and line of the call of an `INLINE`.
fn add_call_spot(
    text: &mut SharedText,
    lines: &Records<'_>,
    spot: &SymLine,
) -> Result<(), OutOfMemory>
    ensures { OnOk result (text.new ≡ text.old ++ call_spot (call_of lines.now spot.now)) }
{
    match spot {
        SymLine::Inline {
            call_line,
            call_file,
            ..
        } => add_spot(text, lines, *call_file, *call_line),
        _ => text.add(b"?"),
    }
}

/// Adds the path and line of the call of the `INLINE` at a place.
fn add_call_spot_at(
    text: &mut SharedText,
    lines: &Records<'_>,
    place: usize,
) -> Result<(), OutOfMemory>
    ensures { OnOk result (text.new ≡ text.old ++ call_spot (call_at lines.now place)) }
{
    match lines.get(place) {
        None => text.add(b"?"),
        Some(spot) => add_call_spot(text, lines, spot),
    }
}

/// The place of the record that has the path and line of a frame.
#[derive(Clone, Copy)]
enum Spot {
    /// The line record, if there is one.
    OfLine(Option<usize>),
    /// The `INLINE` of the next inner frame.
    OfCall(usize),
}

/// Adds the path and line of a frame.
fn add_spot_shown(text: &mut SharedText, lines: &Records<'_>, spot: Spot) -> Result<(), OutOfMemory>
    ensures { OnOk result (text.new ≡ text.old ++ spot_shown lines.now spot) }
{
    match spot {
        Spot::OfLine(place) => add_line_spot_at(text, lines, place),
        Spot::OfCall(place) => add_call_spot_at(text, lines, place),
    }
}

/// Adds the name of the first `INLINE_ORIGIN` with a number.
fn add_origin(text: &mut SharedText, lines: &Records<'_>, number: u32) -> Result<(), OutOfMemory>
    ensures { OnOk result (text.new ≡ text.old ++ unwrap_or (text_origin lines.now number) (codes "<name omitted>")) }
{
    match lines.origin(number) {
        None => text.add(name_omitted()),
        Some(origin) => text.add(origin_name(origin)),
    }
}

/// Adds the name of the function of an `INLINE`.
fn add_call_name(
    text: &mut SharedText,
    lines: &Records<'_>,
    inline: &SymLine,
) -> Result<(), OutOfMemory>
    ensures { OnOk result (text.new ≡ text.old ++ call_name (call_of lines.now inline.now)) }
{
    match inline {
        SymLine::Inline { origin, .. } => add_origin(text, lines, *origin),
        _ => text.add(name_omitted()),
    }
}

/// Adds the name of the function of the `INLINE` at a place.
fn add_call_name_at(
    text: &mut SharedText,
    lines: &Records<'_>,
    place: usize,
) -> Result<(), OutOfMemory>
    ensures { OnOk result (text.new ≡ text.old ++ call_name (call_at lines.now place)) }
{
    match lines.get(place) {
        None => text.add(name_omitted()),
        Some(inline) => add_call_name(text, lines, inline),
    }
}

/// Adds the path and line of a frame, and the end of its line.
fn end_frame(text: &mut SharedText, lines: &Records<'_>, spot: Spot) -> Result<(), OutOfMemory>
    ensures { OnOk result (text.new ≡ text.old ++ (codes " at " ++ spot_shown lines.now spot ++ codes "\n")) }
{
    text.add(b" at ")?;
    add_spot_shown(text, lines, spot)?;
    text.add(b"\n")
}

/// Adds the line of an inlined frame.
fn add_inlined_frame(
    text: &mut SharedText,
    lines: &Records<'_>,
    place: usize,
    spot: Spot,
) -> Result<(), OutOfMemory>
    ensures { OnOk result (text.new ≡ text.old ++ frame_text (call_name (call_at lines.now place)) (spot_shown lines.now spot)) }
{
    add_call_name_at(text, lines, place)?;
    end_frame(text, lines, spot)
}

/// Adds the name of the `FUNC` at a place.
fn add_func_name(text: &mut SharedText, lines: &Records<'_>, func: usize) -> Result<(), OutOfMemory>
    ensures { OnOk result (text.new ≡ text.old ++ func_name_at lines.now func) }
{
    match lines.get(func) {
        None => Ok(()),
        Some(line) => text.add(func_name(line)),
    }
}

/// Adds the line of a function's frame.
fn add_func_frame(
    text: &mut SharedText,
    lines: &Records<'_>,
    func: usize,
    spot: Spot,
) -> Result<(), OutOfMemory>
    ensures { OnOk result (text.new ≡ text.old ++ frame_text (func_name_at lines.now func) (spot_shown lines.now spot)) }
{
    add_func_name(text, lines, func)?;
    end_frame(text, lines, spot)
}

/// Adds the lines of all frames, the innermost first.
fn add_frames(
    text: &mut SharedText,
    lines: &Records<'_>,
    func: usize,
    chain: &[usize],
    line: Option<usize>,
) -> Result<(), OutOfMemory>
    ensures { OnOk result (text.new ≡ text.old ++ frames_text (func_name_at lines.now func) (line_spot (line_at lines.now line)) (map (call_at lines.now) (reverse chain.now))) }
{
    let mut spot = Spot::OfLine(line);
    let mut rest = chain;
    'frames: while let Some((place, outer)) = rest.split_last() {
        add_inlined_frame(text, lines, *place, spot)?;
        spot = Spot::OfCall(*place);
        rest = outer;
    }
    add_func_frame(text, lines, func, spot)
}

/// Adds the name of the `PUBLIC` at a place.
fn add_public_name(
    text: &mut SharedText,
    lines: &Records<'_>,
    index: usize,
) -> Result<(), OutOfMemory>
    ensures { OnOk result (text.new ≡ text.old ++ public_name_at lines.now index) }
{
    match lines.get(index) {
        None => Ok(()),
        Some(line) => text.add(public_name(line)),
    }
}

/// Adds the line of a `PUBLIC`.
fn add_public(text: &mut SharedText, lines: &Records<'_>, index: usize) -> Result<(), OutOfMemory>
    ensures { OnOk result (text.new ≡ text.old ++ (codes "public " ++ public_name_at lines.now index ++ codes "\n")) }
{
    text.add(b"public ")?;
    add_public_name(text, lines, index)?;
    text.add(b"\n")
}

/// Adds the text of an answer.
#[tactic(auto, unfolding(crate::specs::AnswerTexts::answer_text))]
pub(crate) fn add_answer(
    text: &mut SharedText,
    lines: &Records<'_>,
    answer: &Answer,
) -> Result<(), OutOfMemory>
    ensures { OnOk result (text.new ≡ text.old ++ answer_text lines.now answer.now) }
{
    match answer {
        Answer::Function { func, chain, line } => {
            add_frames(text, lines, *func, chain.as_slice(), *line)
        }
        Answer::Public { index } => add_public(text, lines, *index),
        Answer::Nothing => text.add(b"none\n"),
    }
}

/// With at most this many inlined calls, the names are found by scans.
const FEW: usize = 8;

/// Whether an answer has more than a few inlined calls.
fn are_many(answer: &Answer) -> bool {
    match answer {
        Answer::Function { chain, .. } => chain.len() > FEW,
        Answer::Public { .. } | Answer::Nothing => false,
    }
}

/// The text of an answer: a line `NAME at PATH:LINE` for each frame, the innermost first; or
/// `public NAME`, or `none`.
pub fn answer_text(
    alloc: Global,
    file: &SymFile,
    answer: &Answer,
) -> Result<SharedText, OutOfMemory>
    ensures { IfOk result (λ text. text ≡ answer_text file.now answer.now) }
{
    let lines = file.as_slice();
    let mut text = SharedText::new(alloc);
    if are_many(answer) && lines.len() < 1 << 32 {
        let numbers = numbers_of(alloc, lines)?;
        add_answer(&mut text, &Records::numbered(lines, &numbers), answer)?;
        return Ok(text);
    }
    add_answer(&mut text, &Records::of(lines), answer)?;
    Ok(text)
}
