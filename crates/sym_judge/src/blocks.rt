//! Whether the blocks of two files say the same: a `FUNC` with the records under it, or an `INIT` with the changes after it.
ghost use Rattle.std.specs.Prelude.{◌≡◌, ◌+◌, ◌<◌, List, [], ◌∷◌, ℕ, true, drop, length, None, Some, slice_get, MatchOption};
ghost use Rattle.std.specs.Bool.{OnTrue};
ghost use Rattle.cfi_eval.specs.TextRules.{same_target};
ghost use Rattle.sym_records.specs.declared.line.SymLine.{SymLine};
ghost use Rattle.sym_records.specs.declared.line.SymLine.TheVariants as record_line;
ghost use Rattle.sym_judge.specs.Alike.{same_list};
ghost use Rattle.sym_judge.specs.internal.Blocks.{block_place, inside, is_inside, same_extent, same_rule_text, same_run, same_source, same_ranges, same_site, same_record, same_head, same_inside, AreSameBlocks};
ghost use Rattle.sym_judge.specs.internal.Stops.{first_in};

use crate::aliases::Numbered;
use crate::file_pair::FilePair;
use crate::forms::are_same_words;
use crate::ruling::Half;
use sym_records::{Extent, SymLine};
use sym_rules::{RuleText, Target};

fn is_inside(half: Half, line: &SymLine) -> bool
    ensures { result ≡ is_inside half line.now }
{
    match (half, line) {
        (Half::Names, SymLine::Inline { .. })
        | (Half::Names, SymLine::Line { .. })
        | (Half::Frames, SymLine::Change { .. }) => true,
        _ => false,
    }
}

/// The next record of a block, and the records after it.
#[tactic(auto, using(crate::proofs::BlockLemmas::inside_more, crate::proofs::BlockLemmas::inside_ends))]
fn next_inside(half: Half, lines: &[SymLine]) -> Option<(&SymLine, &[SymLine])>
    ensures { MatchOption result (inside half lines.now ≡ []) (λ next. (inside half lines.now ≡ next.0.now ∷ inside half next.1.now) × (length next.1.now < length lines.now)) }
{
    let Some((line, later)) = lines.split_first() else {
        return None;
    };
    if !is_inside(half, line) {
        return None;
    }
    Some((line, later))
}

pub(crate) fn is_same_target(a: &Target, b: &Target) -> bool
    ensures { result ≡ same_target a.now b.now }
{
    match (a, b) {
        (Target::Cfa, Target::Cfa) | (Target::Ra, Target::Ra) => true,
        (Target::Reg(a), Target::Reg(b)) => *a == *b,
        (Target::Other(a), Target::Other(b)) => a.as_slice() == b.as_slice(),
        _ => false,
    }
}

fn is_same_rule_text(a: &RuleText, b: &RuleText) -> bool
    ensures { result ≡ same_rule_text a.now b.now }
{
    is_same_target(&a.target, &b.target) && are_same_words(a.tokens.as_slice(), b.tokens.as_slice())
}

/// Whether two lists have the same rules, word for word.
pub(crate) fn are_same_rule_texts(a: &[RuleText], b: &[RuleText]) -> bool
    ensures { result ≡ same_list same_rule_text a.now b.now }
{
    let mut front = a;
    let mut back = b;
    'rules: while let Some((x, xs)) = front.split_first() {
        let Some((y, ys)) = back.split_first() else {
            return false;
        };
        if !is_same_rule_text(x, y) {
            return false;
        }
        front = xs;
        back = ys;
    }
    back.is_empty()
}

fn is_same_run(address: u64, size: u64, start: u64, many: u64) -> bool
    ensures { result ≡ same_run address size start many }
{
    address == start && size == many
}

/// Whether two lines of a file are the same.
fn is_same_source(both: &FilePair<'_>, line: u32, file: u32, number: u32, path: u32) -> bool
    ensures { result ≡ same_source both.now.own both.now.other line file number path }
{
    line == number && both.is_same_name(Numbered::Files, file, path)
}

/// Whether two lists have the same ranges.
pub(crate) fn are_same_extents(a: &[Extent], b: &[Extent]) -> bool
    ensures { result ≡ same_list same_extent a.now b.now }
{
    a == b
}

/// Whether the ranges of two levels are the same.
fn are_same_ranges(level: u32, ranges: &[Extent], depth: u32, extents: &[Extent]) -> bool
    ensures { result ≡ same_ranges level ranges.now depth extents.now }
{
    level == depth && are_same_extents(ranges, extents)
}

/// A call of an inlined function: the line and the file of the call, and the function's origin.
#[derive(Clone, Copy)]
struct Site {
    line: u32,
    file: u32,
    origin: u32,
}

fn is_same_site(both: &FilePair<'_>, a: Site, b: Site) -> bool
    ensures { result ≡ same_site both.now.own both.now.other a.line a.file a.origin b.line b.file b.origin }
{
    is_same_source(both, a.line, a.file, b.line, b.file)
        && both.is_same_name(Numbered::Origins, a.origin, b.origin)
}

/// Whether a record is an `INLINE` of a level, a call and ranges.
fn is_inline_like(
    both: &FilePair<'_>,
    level: u32,
    site: Site,
    ranges: &[Extent],
    found: &SymLine,
) -> bool
    ensures { result ≡ same_record both.now.own both.now.other (record_line.Inline level site.line site.file site.origin ranges.now) found.now }
{
    let SymLine::Inline {
        level: depth,
        call_line: line,
        call_file: file,
        origin,
        ranges: extents,
    } = found
    else {
        return false;
    };
    let second = Site {
        line: *line,
        file: *file,
        origin: *origin,
    };
    are_same_ranges(level, ranges, *depth, extents.as_slice()) && is_same_site(both, site, second)
}

/// Whether a record is a line record of some addresses, a line and a file.
fn is_line_like(both: &FilePair<'_>, run: Extent, line: u32, file: u32, found: &SymLine) -> bool
    ensures { result ≡ same_record both.now.own both.now.other (record_line.Line run.address run.size line file) found.now }
{
    let SymLine::Line {
        address,
        size,
        line: number,
        file: path,
    } = found
    else {
        return false;
    };
    is_same_run(run.address, run.size, *address, *size)
        && is_same_source(both, line, file, *number, *path)
}

/// Whether a record is one of changes at an address.
fn is_change_like(address: u64, rules: &[RuleText], found: &SymLine) -> bool
    ensures { (own other : List SymLine) → result ≡ same_record own other (record_line.Change address rules.now) found.now }
{
    let SymLine::Change {
        address: start,
        rules: others,
    } = found
    else {
        return false;
    };
    address == *start && are_same_rule_texts(rules, others.as_slice())
}

/// Whether two records say the same of the same addresses.
fn is_same_record(both: &FilePair<'_>, a: &SymLine, b: &SymLine) -> bool
    ensures { result ≡ same_record both.now.own both.now.other a.now b.now }
{
    match a {
        SymLine::Inline {
            level,
            call_line,
            call_file,
            origin,
            ranges,
        } => {
            let site = Site {
                line: *call_line,
                file: *call_file,
                origin: *origin,
            };
            is_inline_like(both, *level, site, ranges.as_slice(), b)
        }
        SymLine::Line {
            address,
            size,
            line,
            file,
        } => {
            let run = Extent {
                address: *address,
                size: *size,
            };
            is_line_like(both, run, *line, *file, b)
        }
        SymLine::Change { address, rules } => is_change_like(*address, rules.as_slice(), b),
        _ => false,
    }
}

/// Whether the records of two blocks after their first say the same.
fn are_same_inside(half: Half, both: &FilePair<'_>, front: &[SymLine], back: &[SymLine]) -> bool
    ensures { result ≡ same_inside half both.now.own both.now.other front.now back.now }
{
    let mut mine = front;
    let mut theirs = back;
    'records: while let Some((x, xs)) = next_inside(half, mine) {
        let Some((y, ys)) = next_inside(half, theirs) else {
            return false;
        };
        if !is_same_record(both, x, y) {
            return false;
        }
        mine = xs;
        theirs = ys;
    }
    next_inside(half, theirs).is_none()
}

/// Whether the first records of two blocks say the same.
fn is_same_head(a: &SymLine, b: &SymLine) -> bool
    ensures { result ≡ same_head a.now b.now }
{
    match (a, b) {
        (SymLine::Func { name, .. }, SymLine::Func { name: called, .. }) => {
            name.as_slice() == called.as_slice()
        }
        (SymLine::Init { rules, .. }, SymLine::Init { rules: others, .. }) => {
            are_same_rule_texts(rules.as_slice(), others.as_slice())
        }
        _ => false,
    }
}

/// Whether a block begins at an address.
fn begins_at(line: &SymLine, start: u64) -> bool {
    match line {
        SymLine::Func { address, .. } | SymLine::Init { address, .. } => *address == start,
        _ => false,
    }
}

/// Whether blocks that cover an address say the same. The answer is no if the first file's block
/// does not begin at the address, so that each block is compared only once.
fn are_same_blocks(half: Half, both: &FilePair<'_>, i: usize, j: usize, address: u64) -> bool
    ensures { OnTrue result (AreSameBlocks half both.now.own both.now.other i j) }
{
    let mine = both.own().lines();
    let theirs = both.other().lines();
    if i >= mine.len() || j >= theirs.len() {
        return false;
    }
    if !begins_at(&mine[i], address) || !is_same_head(&mine[i], &theirs[j]) {
        return false;
    }
    are_same_inside(half, both, mine.split_at(i + 1).1, theirs.split_at(j + 1).1)
}

/// Whether two files do not differ at any address at which they have the same blocks as at this one.
#[tactic(auto, using(crate::proofs::ClearLemmas::no_blocks, crate::proofs::ClearLemmas::same_blocks))]
pub(crate) fn is_clear(
    half: Half,
    both: &FilePair<'_>,
    first: Option<usize>,
    second: Option<usize>,
    address: u64,
) -> bool
    ensures { OnTrue result ((y : ℕ) → block_place half both.now.own y ≡ first → block_place half both.now.other y ≡ second → first_in half both.now.own both.now.other y ≡ None) }
{
    match (first, second) {
        (None, None) => true,
        (Some(i), Some(j)) => are_same_blocks(half, both, i, j, address),
        _ => false,
    }
}
