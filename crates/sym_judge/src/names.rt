//! Whether two files name the same at an address.
ghost use Rattle.std.specs.Prelude.{◌≡◌, List, map, codes, true, if◌then◌else◌, None, Some, IfOk, IfSome};
ghost use Rattle.std.specs.Bool.{OnTrue};
ghost use Rattle.std.specs.Option.{option_copied, option_map, option_and_then, unwrap_or};
ghost use Rattle.std.specs.Str.{bytes_eq};
ghost use Rattle.sym_meaning.specs.TextNames.{func_name, path_and_line, text_path, text_origin};
ghost use Rattle.sym_records.specs.declared.line.SymLine.{SymLine};
ghost use Rattle.sym_lookup.specs.Answers.{answer_of, func_place, chain_places, line_place};
ghost use Rattle.sym_judge.specs.internal.Chains.{IsFuncPair, AreFuncPairs, AreFuncMeetings};
ghost use Rattle.sym_lookup.specs.AnswerTexts.{call_at, func_name_at, line_at, owner_of, calls_of, line_of};
ghost use Rattle.sym_judge.specs.Alike.{same_option, same_list, same_line, same_call};
ghost use Rattle.sym_judge.specs.declared.ruling.Half.TheVariants.{Names};
ghost use Rattle.sym_judge.specs.internal.Stops.{first_in};
ghost use Rattle.sym_judge.specs.internal.Spots.{spot_view, call_spot_of, first_named};

use crate::aliases::{Numbered, is_same_text, name_in};
use crate::chains::{ChainPart, chains_of, have_one_number};
use crate::file_pair::FilePair;
use crate::function_pairs::{FuncMeetings, FuncPair, pair_of};
use crate::indexed_files::IndexedFile;
use crate::ruling::Aspect;
use clean_names::name_omitted;
use std::alloc::Global;
use sym_edges::OutOfMemory;
use sym_lookup::Answer;
use sym_records::SymLine;

/// The number of a file, if there is one, and a line.
#[derive(Clone, Copy)]
pub(crate) struct Spot {
    pub file: Option<u32>,
    pub line: u32,
}

/// An inlined call: the number of the function's origin, if there is one, and the file and line of the call.
#[derive(Clone, Copy)]
pub(crate) struct CallSpot {
    pub origin: Option<u32>,
    pub spot: Spot,
}

fn func_name(line: &SymLine) -> &[u8]
    ensures { result.now ≡ func_name line.now }
{
    match line {
        SymLine::Func { name, .. } => name.as_slice(),
        _ => &[],
    }
}

/// The name of the `FUNC` at a place.
pub(crate) fn func_name_at(lines: &[SymLine], func: usize) -> &[u8]
    ensures { result.now ≡ func_name_at lines.now func }
{
    match lines.get(func) {
        Some(line) => func_name(line),
        None => &[],
    }
}

/// The name of the function of an answer.
#[tactic(auto, unfolding(sym_lookup::specs::AnswerTexts::owner_of))]
fn owner_of<'f>(lines: &'f [SymLine], answer: &Answer) -> Option<&'f [u8]>
    ensures { option_copied result ≡ owner_of lines.now answer.now }
{
    match answer {
        Answer::Function { func, .. } => Some(func_name_at(lines, *func)),
        _ => None,
    }
}

/// The places of the inlined copies of an answer.
#[tactic(auto, unfolding(sym_lookup::specs::AnswerTexts::calls_of))]
fn chain_of(answer: &Answer) -> &[usize]
    ensures { (lines : List SymLine) → map (call_at lines) result.now ≡ calls_of lines answer.now }
{
    match answer {
        Answer::Function { chain, .. } => chain.as_slice(),
        _ => &[],
    }
}

/// The place of the line record of an answer.
#[tactic(auto, unfolding(sym_lookup::specs::AnswerTexts::line_of))]
fn line_of(answer: &Answer) -> Option<usize>
    ensures { (lines : List SymLine) → line_at lines result ≡ line_of lines answer.now }
{
    match answer {
        Answer::Function { line, .. } => *line,
        _ => None,
    }
}

/// Whether the paths under two numbers are the same.
fn is_same_file(both: &FilePair<'_>, a: Option<u32>, b: Option<u32>) -> bool
    ensures { result ≡ same_option bytes_eq (option_and_then (text_path both.now.own) a) (option_and_then (text_path both.now.other) b) }
{
    if let (Some(a), Some(b)) = (a, b) {
        return both.is_same_name(Numbered::Files, a, b);
    }
    is_same_text(
        name_in(Numbered::Files, both.own(), a),
        name_in(Numbered::Files, both.other(), b),
    )
}

fn is_same_spot(both: &FilePair<'_>, a: Spot, b: Spot) -> bool
    ensures { result ≡ same_line (spot_view both.now.own a) (spot_view both.now.other b) }
{
    is_same_file(both, a.file, b.file) && a.line == b.line
}

/// The file and line of a line record.
fn spot_of(line: &SymLine) -> Spot
    ensures { (lines : List SymLine) → spot_view lines result ≡ path_and_line lines line.now }
{
    match line {
        SymLine::Line { line, file, .. } => Spot {
            file: Some(*file),
            line: *line,
        },
        _ => Spot {
            file: None,
            line: 0,
        },
    }
}

/// The file and line of the line record at a place.
fn spot_at(side: &IndexedFile<'_>, place: Option<usize>) -> Option<Spot>
    ensures { option_map (spot_view side.now) result ≡ line_at side.now place }
{
    match side.lines().get(place?) {
        Some(line) => Some(spot_of(line)),
        None => None,
    }
}

/// Whether two line records say the same.
fn is_same_line(both: &FilePair<'_>, a: Option<usize>, b: Option<usize>) -> bool
    ensures { result ≡ same_option same_line (line_at both.now.own a) (line_at both.now.other b) }
{
    match (spot_at(both.own(), a), spot_at(both.other(), b)) {
        (None, None) => true,
        (Some(a), Some(b)) => is_same_spot(both, a, b),
        _ => false,
    }
}

/// The name of an inlined function.
pub(crate) fn name_or_omitted(name: Option<&[u8]>) -> &[u8]
    ensures { result.now ≡ unwrap_or (option_copied name.entry) (codes "<name omitted>") }
{
    match name {
        Some(name) => name,
        None => name_omitted(),
    }
}

/// The call of the INLINE at a place.
pub(crate) fn call_at(side: &IndexedFile<'_>, place: usize) -> CallSpot
    ensures name { option_and_then (text_origin side.now) result.origin ≡ (call_at side.now place).name }
    ensures spot { spot_view side.now result.spot ≡ call_spot_of (call_at side.now place) }
{
    match side.lines().get(place) {
        Some(
            SymLine::Inline {
                call_line,
                call_file,
                origin,
                ..
            },
        ) => CallSpot {
            origin: Some(*origin),
            spot: Spot {
                file: Some(*call_file),
                line: *call_line,
            },
        },
        _ => CallSpot {
            origin: None,
            spot: Spot {
                file: None,
                line: 0,
            },
        },
    }
}

/// Whether the names of two inlined functions are the same.
#[tactic(auto, using(crate::proofs::NameLemmas::one_origin))]
fn is_same_origin(both: &FilePair<'_>, a: Option<u32>, b: Option<u32>) -> bool
    ensures { result ≡ bytes_eq (unwrap_or (option_and_then (text_origin both.now.own) a) (codes "<name omitted>")) (unwrap_or (option_and_then (text_origin both.now.other) b) (codes "<name omitted>")) }
{
    if let (Some(a), Some(b)) = (a, b) {
        if both.is_same_name(Numbered::Origins, a, b) {
            return true;
        }
    }
    name_or_omitted(name_in(Numbered::Origins, both.own(), a))
        == name_or_omitted(name_in(Numbered::Origins, both.other(), b))
}

/// Whether two inlined calls are the same.
fn is_same_call(both: &FilePair<'_>, a: usize, b: usize) -> bool
    ensures { result ≡ same_call (call_at both.now.own a) (call_at both.now.other b) }
{
    let first = call_at(both.own(), a);
    let second = call_at(both.other(), b);
    is_same_origin(both, first.origin, second.origin) && is_same_spot(both, first.spot, second.spot)
}

/// Whether two chains are the same.
fn are_same_calls(both: &FilePair<'_>, a: &[usize], b: &[usize]) -> bool
    ensures { result ≡ same_list same_call (map (call_at both.now.own) a.now) (map (call_at both.now.other) b.now) }
{
    let mut front = a;
    let mut back = b;
    'calls: while let Some((x, xs)) = front.split_first() {
        let Some((y, ys)) = back.split_first() else {
            return false;
        };
        if !is_same_call(both, *x, *y) {
            return false;
        }
        front = xs;
        back = ys;
    }
    back.is_empty()
}

/// Whether the functions of two answers have one name.
fn is_same_owner(both: &FilePair<'_>, a: &Answer, b: &Answer) -> bool
    ensures { result ≡ same_option bytes_eq (owner_of both.now.own a.now) (owner_of both.now.other b.now) }
{
    is_same_text(
        owner_of(both.own().lines(), a),
        owner_of(both.other().lines(), b),
    )
}

/// The first aspect in which the names of two answers differ, given whether their functions have
/// one name.
#[tactic(auto, using(crate::proofs::NameLemmas::func_met, crate::proofs::NameLemmas::chain_met, crate::proofs::NameLemmas::line_met, crate::proofs::NameLemmas::none_met))]
fn first_named(both: &FilePair<'_>, same_owner: bool, a: &Answer, b: &Answer) -> Option<Aspect>
    requires { same_owner ≡ same_option bytes_eq (owner_of both.now.own a.now) (owner_of both.now.other b.now) }
    ensures { result ≡ first_named both.now.own a.now both.now.other b.now }
{
    if !same_owner {
        return Some(Aspect::Func);
    }
    if !are_same_calls(both, chain_of(a), chain_of(b)) {
        return Some(Aspect::Chain);
    }
    if !is_same_line(both, line_of(a), line_of(b)) {
        return Some(Aspect::Line);
    }
    None
}

/// The aspect that differs if all but the line is the same.
fn line_alone(same: bool) -> Option<Aspect>
    ensures { result ≡ (if same then None else Some Aspect.Line) }
{
    if same { None } else { Some(Aspect::Line) }
}

/// The first aspect in which the names of two functions with the same chain differ at an address,
/// given their line records.
fn first_in_funcs(
    both: &FilePair<'_>,
    pair: &FuncPair,
    address: u64,
    a: Option<usize>,
    b: Option<usize>,
) -> Option<Aspect>
    requires own { func_place both.now.own address ≡ Some pair.now.met.own }
    requires other { func_place both.now.other address ≡ Some pair.now.met.other }
    requires pair { IsFuncPair both.now.own both.now.other pair.now }
    requires alike { same_list same_call (map (call_at both.now.own) (chain_places both.now.own pair.now.met.own address)) (map (call_at both.now.other) (chain_places both.now.other pair.now.met.other address)) ≡ true }
    requires first { a ≡ line_place both.now.own pair.now.met.own address }
    requires second { b ≡ line_place both.now.other pair.now.met.other address }
    ensures { result ≡ first_in Names both.now.own both.now.other address }
{
    if !pair.same_name {
        return Some(Aspect::Func);
    }
    line_alone(is_same_line(both, a, b))
}

/// Whether the chains of two functions have one number at an address.
fn have_one_chain(met: &FuncMeetings, pair: &FuncPair, address: u64) -> bool
    ensures { OnTrue result ((own other : List SymLine) → AreFuncMeetings own other met.now → same_list same_call (map (call_at own) (chain_places own pair.now.met.own address)) (map (call_at other) (chain_places other pair.now.met.other address)) ≡ true) }
{
    let Some(mine) = chains_of(met.own.as_slice(), pair.met.own) else {
        return false;
    };
    let Some(theirs) = chains_of(met.other.as_slice(), pair.met.other) else {
        return false;
    };
    have_one_number(
        mine.at(ChainPart::Nothing, address),
        theirs.at(ChainPart::Nothing, address),
    )
}

/// The first aspect in which the names of two functions differ at an address, if both are the first
/// there and their chains have one number.
fn first_by_chains(
    both: &FilePair<'_>,
    met: &FuncMeetings,
    pair: &FuncPair,
    address: u64,
) -> Option<Option<Aspect>>
    requires own { func_place both.now.own address ≡ Some pair.now.met.own }
    requires other { func_place both.now.other address ≡ Some pair.now.met.other }
    requires met { AreFuncMeetings both.now.own both.now.other met.now }
    requires pair { IsFuncPair both.now.own both.now.other pair.now }
    ensures { IfSome result (λ found. found ≡ first_in Names both.now.own both.now.other address) }
{
    if !have_one_chain(met, pair, address) {
        return None;
    }
    let a = both.own().line_at(pair.met.own, address)?;
    let b = both.other().line_at(pair.met.other, address)?;
    Some(first_in_funcs(both, pair, address, a, b))
}

/// The first aspect in which the names of the files differ at an address; whether their functions
/// there have one name may be `known`.
#[tactic(auto, using(crate::proofs::NameLemmas::names_differ))]
fn first_by_answers(
    alloc: Global,
    both: &FilePair<'_>,
    known: Option<bool>,
    address: u64,
) -> Result<Option<Aspect>, OutOfMemory>
    requires { IfSome known (λ same. same ≡ same_option bytes_eq (owner_of both.now.own (answer_of both.now.own address)) (owner_of both.now.other (answer_of both.now.other address))) }
    ensures { IfOk result (λ found. found ≡ first_in Names both.now.own both.now.other address) }
{
    let a = both.own().answer_at(alloc, address)?;
    let b = both.other().answer_at(alloc, address)?;
    let same = match known {
        Some(same) => same,
        None => is_same_owner(both, &a, &b),
    };
    Ok(first_named(both, same, &a, &b))
}

/// The functions of both files at an address, with what is known of them, if they are in the list.
fn met_at<'p>(pairs: &'p [FuncPair], both: &FilePair<'_>, address: u64) -> Option<&'p FuncPair>
    ensures own { IfSome result (λ pair. func_place both.now.own address ≡ Some pair.now.met.own) }
    ensures other { IfSome result (λ pair. func_place both.now.other address ≡ Some pair.now.met.other) }
    ensures is { IfSome result (λ pair. (mine theirs : List SymLine) → AreFuncPairs mine theirs pairs.now → IsFuncPair mine theirs pair.now) }
{
    if pairs.is_empty() {
        return None;
    }
    let own = both.own().func_at(address)?;
    let other = both.other().func_at(address)?;
    pair_of(pairs, own, other)
}

/// The first aspect in which the names of the files differ at an address.
pub(crate) fn first_name_aspect(
    alloc: Global,
    met: &FuncMeetings,
    both: &FilePair<'_>,
    address: u64,
) -> Result<Option<Aspect>, OutOfMemory>
    requires { AreFuncMeetings both.now.own both.now.other met.now }
    ensures { IfOk result (λ found. found ≡ first_in Names both.now.own both.now.other address) }
{
    let Some(pair) = met_at(met.pairs.as_slice(), both, address) else {
        return first_by_answers(alloc, both, None, address);
    };
    match first_by_chains(both, met, pair, address) {
        Some(found) => Ok(found),
        None => first_by_answers(alloc, both, Some(pair.same_name), address),
    }
}
