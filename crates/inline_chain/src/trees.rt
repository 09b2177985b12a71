//! The inlined copies directly in each entry.
ghost use Rattle.std.specs.Prelude.{◌≡◌, ℕ, ◌<◌, ◌^◌, length, Some, IfOk, OnOk};
ghost use Rattle.step_maps.specs.SpanStretches.{AreFit};
ghost use Rattle.std.specs.List.{slice_get};
ghost use Rattle.std.specs.Option.{option_copied};
ghost use Rattle.debug_units.specs.UnitEntries.{AreRead};
ghost use Rattle.inline_chain.specs.internal.Copies.{AreLists, TreeFor, AddsCovers};
ghost use Rattle.inline_chain.specs.internal.Links.{AreLinked};
ghost use Rattle.inline_chain.specs.Trees.{IsTree, AreTrees};

use crate::children::collect_copies;
use crate::class_links::{ClassLinks, fill_class, fill_links};
use crate::cover_sweep::fill_covers;
use crate::tree_scratch::{ClassScratch, TreeScratch};
use debug_units::{UnitRead, Units};
use flat_lists::FlatLists;
use std::alloc::Global;
use std::marker::Model;
use std::thread::Threads;
use step_maps::{Cover, Stretch};
use sym_edges::OutOfMemory;
use unit_workers::{Crew, NoGate, UnitJob};

/// The units of a file, and the inlined copies directly in each of their entries, by address.
#[derive(Drop)]
pub struct InlineTrees<'u, 'a> {
    units: &'u Units<'a>,
    trees: Vec<FlatLists<Cover>>,
}

impl<'u, 'a> Model for InlineTrees<'u, 'a> {
    ghost use Rattle.std.specs.Prelude.{List};
    ghost use Rattle.debug_units.specs.declared.unit_read.UnitRead.{UnitRead};
    ghost use Rattle.inline_chain.specs.Trees.{AreTrees};

    ghost Value = { List UnitRead };

    ghost view = { λ t. t.units.now };

    ghost invariant = { λ t. AreTrees t.units.now t.trees.items };
}

impl<'u, 'a> InlineTrees<'u, 'a> {
    /// Finds the inlined copies directly in each entry, once for all pieces, by a crew of workers.
    pub fn of<R: Threads + Sync>(
        crew: &Crew<'_, R>,
        units: &'u Units<'a>,
    ) -> Result<InlineTrees<'u, 'a>, OutOfMemory>
        ensures { IfOk result (λ trees. trees ≡ units.now) }
    {
        let trees = all_trees(crew, units)?;
        Ok(InlineTrees { units, trees })
    }

    /// The covers of the inlined copies directly in each entry of a unit.
    pub(crate) fn tree(&self, unit: u32) -> Option<&FlatLists<Cover>>
        ensures { TreeFor (slice_get self.now unit) (option_copied result) }
    {
        tree_in(self.trees.as_slice(), unit as usize)
    }
}

fn tree_in(trees: &[FlatLists<Cover>], unit: usize) -> Option<&FlatLists<Cover>>
    ensures { option_copied result ≡ slice_get trees.now unit }
{
    trees.get(unit)
}

/// The units whose trees are made by workers, by number.
#[derive(Drop)]
struct TreeMaker<'u, 'a> {
    units: &'u Units<'a>,
}

impl<'u, 'a> Model for TreeMaker<'u, 'a> {
    ghost use Rattle.std.specs.Prelude.{List};
    ghost use Rattle.debug_units.specs.declared.unit_read.UnitRead.{UnitRead};

    ghost Value = { List UnitRead };

    ghost view = { λ m. m.units.now };
}

impl<'u, 'a> TreeMaker<'u, 'a> {
    fn of(units: &'u Units<'a>) -> TreeMaker<'u, 'a>
        ensures { result ≡ units.now }
    {
        TreeMaker { units }
    }
}

fn unit_at<'u, 'a>(units: &'u [UnitRead<'a>], k: usize) -> Option<&'u UnitRead<'a>>
    ensures { option_copied result ≡ slice_get units.now k }
{
    units.get(k)
}

impl<'u, 'a> UnitJob for TreeMaker<'u, 'a> {
    type Out = FlatLists<Cover>;

    type Scratch = TreeScratch;

    ghost gives = { λ units k lists. TreeFor (slice_get units k) (Some lists) };

    fn scratch(&self, alloc: Global) -> Result<TreeScratch, OutOfMemory> {
        Ok(TreeScratch::new(alloc))
    }

    /// A number after the last unit has no result; no worker draws it.
    fn run(
        &self,
        alloc: Global,
        k: usize,
        scratch: &mut TreeScratch,
    ) -> Result<FlatLists<Cover>, OutOfMemory> {
        match unit_at(self.units.as_slice(), k) {
            Some(part) => tree_of(alloc, part, scratch),
            None => Err(OutOfMemory),
        }
    }
}

/// The trees of all units.
fn all_trees<R: Threads + Sync>(
    crew: &Crew<'_, R>,
    units: &Units<'_>,
) -> Result<Vec<FlatLists<Cover>>, OutOfMemory>
    ensures { IfOk result (λ trees. AreTrees units.now trees.items) }
{
    let maker = TreeMaker::of(units);
    let count = units.as_slice().len();
    let trees = crew.run(&maker, &NoGate, count)?;
    Ok(trees)
}

/// The tree of a unit.
fn tree_of(
    alloc: Global,
    part: &UnitRead<'_>,
    scratch: &mut TreeScratch,
) -> Result<FlatLists<Cover>, OutOfMemory>
    requires { length part.now.die.dies < 2 ^ 32 }
    ensures { IfOk result (λ lists. IsTree part.now lists) }
{
    collect_copies(
        part,
        &mut scratch.row,
        &mut scratch.met,
        &mut scratch.stretches,
    )?;
    let items = scratch.stretches.as_slice();
    fill_links(items, &mut scratch.links)?;
    fill_lists(
        alloc,
        items,
        &scratch.links,
        &mut scratch.class,
        &mut scratch.lists,
    )?;
    let lists = scratch.lists.copied(alloc)?;
    Ok(lists)
}

/// Adds the list of the covers of stretches. The memory of `sorted` and `own` is reused.
fn push_covers(
    alloc: Global,
    lists: &mut FlatLists<Cover>,
    group: &[Stretch],
    sorted: &mut Vec<Stretch>,
    own: &mut Vec<Cover>,
) -> Result<(), OutOfMemory>
    requires { AreFit group.now }
    ensures { OnOk result (AddsCovers group.now lists.old lists.new) }
{
    fill_covers(alloc, group, sorted, own)?;
    lists.push(own.as_slice())
}

/// Sets `lists` to the covers of each class, or to none for a class without stretches. It is never inlined, like `collect_copies`.
#[inline(never)]
fn fill_lists(
    alloc: Global,
    items: &[Stretch],
    links: &ClassLinks,
    class_lists: &mut ClassScratch,
    lists: &mut FlatLists<Cover>,
) -> Result<(), OutOfMemory>
    requires fit { AreFit items.now }
    requires linked { AreLinked items.now links.now.firsts.items links.now.nexts.items }
    ensures { OnOk result (AreLists items.now lists.new) }
{
    lists.clear(links.firsts.len())?;
    'classes: for class in 0..links.firsts.len() {
        if links.firsts[class] == 0 {
            lists.push(&[])?;
            continue;
        }
        fill_class(items, links, class, &mut class_lists.group)?;
        push_covers(
            alloc,
            lists,
            class_lists.group.as_slice(),
            &mut class_lists.sorted,
            &mut class_lists.own,
        )?;
    }
    Ok(())
}
