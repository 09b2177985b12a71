//! The inlined copies of a piece.
ghost use Rattle.std.specs.Prelude.{◌≡◌, ◌∷◌, [], ◌<◌, ◌≤◌, IfOk};
ghost use Rattle.inline_chain.specs.InlineRuns.{AreInlineRuns};
ghost use Rattle.debug_units.specs.declared.unit_read.UnitRead.{UnitRead};
ghost use Rattle.step_maps.specs.SpanStretches.{AreFit};
ghost use Rattle.inline_chain.specs.Trees.{IsTree};
ghost use Rattle.inline_chain.specs.internal.Levels.{HaveRuns, AllRuns};

use crate::groups::push_level;
use crate::inline_run::{InlineRun, InlineRuns};
use crate::levels::level_under;
use crate::trees::InlineTrees;
use flat_lists::FlatLists;
use func_flatten::Piece;
use std::alloc::Global;
use std::mem::swap;
use step_maps::{Cover, Stretch};
use sym_edges::{ListOf, OutOfMemory, Span};

/// Lists that are filled anew for each piece. They are kept to reuse their memory; what they hold does not matter.
#[derive(Drop)]
pub struct LevelLists {
    level: Vec<Stretch>,
    next: Vec<Stretch>,
    made: Vec<InlineRun>,
    spans: Vec<Span>,
    runs: Vec<InlineRun>,
}

impl LevelLists {
    pub fn new(alloc: Global) -> LevelLists {
        LevelLists {
            level: Vec::new(alloc),
            next: Vec::new(alloc),
            made: Vec::new(alloc),
            spans: Vec::new(alloc),
            runs: Vec::new(alloc),
        }
    }
}

/// The inlined copies on the chains of a piece's addresses, by level and first address. For each
/// entry that is on a chain at a level, they have the maximal ranges of the addresses at which it
/// is there, in records of at most 16,384 ranges.
pub fn inlines(
    alloc: Global,
    trees: &InlineTrees<'_, '_>,
    piece: &Piece,
    levels: &mut LevelLists,
) -> Result<InlineRuns, OutOfMemory>
    ensures { IfOk result (λ runs. AreInlineRuns trees.now piece.now runs) }
{
    let Some(tree) = trees.tree(piece.unit) else {
        return Ok(ListOf::of(Vec::new(alloc)));
    };
    if piece.end <= piece.start {
        return Ok(ListOf::of(Vec::new(alloc)));
    }
    let owner = Stretch {
        first: piece.start,
        last: piece.end - 1,
        index: piece.entry,
        class: piece.entry,
    };
    let runs = runs_under(alloc, tree, owner, levels)?;
    Ok(ListOf::of(runs))
}

/// Moves records to a list without spare room.
fn in_exact_room(alloc: Global, runs: &mut Vec<InlineRun>) -> Result<Vec<InlineRun>, OutOfMemory>
    ensures { IfOk result (λ exact. exact.items ≡ runs.old.items) }
{
    let mut exact = Vec::with_capacity(alloc, runs.len())?;
    exact.append(runs)?;
    Ok(exact)
}

/// The records of the inlined copies in an owner, level by level.
fn runs_under(
    alloc: Global,
    lists: &FlatLists<Cover>,
    owner: Stretch,
    levels: &mut LevelLists,
) -> Result<Vec<InlineRun>, OutOfMemory>
    requires fit { AreFit (owner ∷ []) }
    requires runs { HaveRuns lists.now }
    ensures { IfOk result (λ runs. (part : UnitRead) → IsTree part lists.now → AllRuns part owner runs.items) }
{
    levels.runs.clear();
    level_under(lists, &[owner], &mut levels.level)?;
    'levels: for number in 0..u32::MAX {
        if levels.level.is_empty() {
            let exact = in_exact_room(alloc, &mut levels.runs)?;
            return Ok(exact);
        }
        level_under(lists, levels.level.as_slice(), &mut levels.next)?;
        push_level(
            alloc,
            &mut levels.runs,
            number,
            &mut levels.level,
            &mut levels.made,
            &mut levels.spans,
        )?;
        swap(&mut levels.level, &mut levels.next);
    }
    Err(OutOfMemory)
}
