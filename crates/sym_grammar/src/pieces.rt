//! The pieces of a text, cut into lines.
ghost use Rattle.std.specs.Prelude.{◌≡◌, ◌≤◌, ◌^◌, ◌++◌, [], true, ⊤, OnOk};
ghost use Rattle.std.specs.List.{list_all};
ghost use Rattle.sym_edges.specs.Outside.{MatchStop};
ghost use Rattle.sym_edges.specs.declared.fault.Stop.TheVariants.{Fault};
ghost use Rattle.sym_rules.specs.declared.text_fault.TextKind.TheVariants.{LongLine};
ghost use Rattle.sym_rules.specs.Cuts.{is_within_line};
ghost use Rattle.sym_records.specs.Reading.{next_number, with_text, numbered};
ghost use Rattle.sym_grammar.specs.Answer.{IsUpToDate};
ghost use Rattle.sym_grammar.specs.internal.Given.{Leaves};
ghost use Rattle.sym_grammar.specs.internal.Parts.{IsFront, part_of, GoesOn, Faults};

use crate::cuts::cut_line;
use crate::progress::{Progress, add_numbered, next_number};
use std::alloc::Global;
use sym_edges::Stop;
use sym_rules::{TextFault, TextKind};

/// The fault of a line that is too long.
fn too_long(seen: &Progress) -> Stop<TextFault>
    ensures { result ≡ Fault (record { kind = LongLine; line = next_number seen.now.number }) }
{
    Stop::Fault(TextFault {
        kind: TextKind::LongLine,
        line: next_number(seen),
    })
}

/// Reads the line that ends with these bytes; the stored bytes come before them.
#[inline]
#[tactic(auto, using(crate::proofs::PieceLemmas::line_long, crate::proofs::PieceLemmas::joined_front, crate::proofs::PieceLemmas::front_nothing, crate::proofs::PieceLemmas::nothing_held, crate::proofs::PieceLemmas::nothing_joined))]
fn end_line(
    alloc: Global,
    limit: usize,
    seen: &mut Progress,
    held: &mut Vec<u8>,
    line: &[u8],
) -> Result<(), Stop<TextFault>>
    requires small { limit ≤ 2 ^ 20 }
    requires front { IsFront limit held.old.items }
    requires one_line { list_all is_within_line line.now ≡ true }
    ensures ends { Leaves result seen.new (numbered (next_number seen.old.number) (with_text limit seen.old (held.old.items ++ line.now))) }
    ensures empty { OnOk result (held.new.items ≡ []) }
    ensures front { IsFront limit held.new.items }
{
    if held.is_empty() {
        return add_numbered(alloc, limit, seen, line);
    }
    if line.len() > limit - held.len() {
        return Err(too_long(seen));
    }
    held.extend_from_slice(line)?;
    match add_numbered(alloc, limit, seen, held.as_slice()) {
        Ok(()) => {
            held.clear();
            Ok(())
        }
        Err(stop) => Err(stop),
    }
}

/// Stores the start of a line, if it is not too long.
#[tactic(auto, using(crate::proofs::PieceLemmas::held_long, crate::proofs::PieceLemmas::held_up, crate::proofs::PieceLemmas::held_on, crate::proofs::PieceLemmas::joined_front))]
fn hold(
    limit: usize,
    seen: &Progress,
    held: &mut Vec<u8>,
    front: &[u8],
) -> Result<(), Stop<TextFault>>
    requires front { IsFront limit held.old.items }
    requires one_line { list_all is_within_line front.now ≡ true }
    ensures goes_on { MatchStop result
        (λ _. IsUpToDate limit (part_of seen.now held.old.items) front.now (part_of seen.now held.new.items)
        × GoesOn limit (part_of seen.now held.old.items) front.now (part_of seen.now held.new.items) [])
        (λ fault. Faults limit (part_of seen.now held.old.items) front.now fault)
        ⊤ }
    ensures front { IsFront limit held.new.items }
{
    if front.len() > limit - held.len() {
        return Err(too_long(seen));
    }
    held.extend_from_slice(front)?;
    Ok(())
}

/// Reads a piece of the text, up to the start of a line that has not ended.
#[tactic(auto, using(crate::proofs::PieceLemmas::line_taken, crate::proofs::PieceLemmas::nothing_taken))]
pub(crate) fn take_piece(
    alloc: Global,
    limit: usize,
    seen: &mut Progress,
    held: &mut Vec<u8>,
    piece: &[u8],
) -> Result<(), Stop<TextFault>>
    requires small { limit ≤ 2 ^ 20 }
    requires front { IsFront limit held.old.items }
    ensures goes_on { MatchStop result
        (λ _. IsUpToDate limit (part_of seen.old held.old.items) piece.now (part_of seen.new held.new.items)
        × GoesOn limit (part_of seen.old held.old.items) piece.now (part_of seen.new held.new.items) [])
        (λ fault. Faults limit (part_of seen.old held.old.items) piece.now fault)
        ⊤ }
    ensures front { IsFront limit held.new.items }
{
    let mut rest = piece;
    'lines: loop {
        match cut_line(rest) {
            Some((line, later)) => {
                match end_line(alloc, limit, seen, held, line) {
                    Ok(()) => {}
                    Err(stop) => return Err(stop),
                }
                rest = later;
            }
            None => return hold(limit, seen, held, rest),
        }
    }
}
