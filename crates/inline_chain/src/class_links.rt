//! Linked lists of the stretches of each class.
ghost use Rattle.std.specs.Prelude.{◌≡◌, ◌<◌, length, OnOk};
ghost use Rattle.inline_chain.specs.internal.Copies.{HaveClasses, of_class};
ghost use Rattle.inline_chain.specs.internal.Links.{AreLinked};

use std::alloc::Global;
use step_maps::Stretch;
use sym_edges::OutOfMemory;

/// The number of the first stretch of each class, and for each stretch the number of the next one
/// of its class. Stretches are numbered from the last one, from 1 on; the number 0 means none.
/// `nexts` goes from the last stretch to the first.
#[derive(Drop)]
pub struct ClassLinks {
    pub firsts: Vec<u32>,
    pub nexts: Vec<u32>,
}

impl ClassLinks {
    /// No links yet. Allocates no memory.
    pub fn new(alloc: Global) -> ClassLinks {
        ClassLinks {
            firsts: Vec::new(alloc),
            nexts: Vec::new(alloc),
        }
    }
}

/// A number above all classes, or 0 if there are no stretches.
fn class_end(items: &[Stretch]) -> usize
    ensures { HaveClasses result items.now }
{
    let mut end: usize = 0;
    let mut rest = items;
    'items: while let Some((item, later)) = rest.split_first() {
        end = end.max(item.class as usize + 1);
        rest = later;
    }
    end
}

/// Sets `links` to the links of these stretches.
pub fn fill_links(items: &[Stretch], links: &mut ClassLinks) -> Result<(), OutOfMemory>
    ensures { OnOk result (AreLinked items.now links.new.firsts.items links.new.nexts.items) }
{
    if items.len() > u32::MAX as usize {
        return Err(OutOfMemory);
    }
    links.firsts.clear();
    links.firsts.resize(class_end(items), 0)?;
    links.nexts.clear();
    links.nexts.reserve(items.len())?;
    let mut rest = items;
    'items: while let Some((item, before)) = rest.split_last() {
        let class = item.class as usize;
        links.nexts.push(links.firsts[class])?;
        links.firsts[class] = links.nexts.len() as u32;
        rest = before;
    }
    Ok(())
}

/// Sets `group` to the stretches of a class, in their order.
pub fn fill_class(
    items: &[Stretch],
    links: &ClassLinks,
    class: usize,
    group: &mut Vec<Stretch>,
) -> Result<(), OutOfMemory>
    requires linked { AreLinked items.now links.now.firsts.items links.now.nexts.items }
    requires inside { class < length links.now.firsts.items }
    ensures { OnOk result (group.new.items ≡ of_class class items.now) }
{
    group.clear();
    let mut place = links.firsts[class] as usize;
    'places: while place > 0 {
        group.push(items[items.len() - place])?;
        place = links.nexts[place - 1] as usize;
    }
    Ok(())
}
