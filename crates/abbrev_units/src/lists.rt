//! The attributes of a table's abbreviations in one list, and the takes of the short way in another.
ghost use Rattle.std.specs.Prelude.{◌≡◌, ◌≤◌, [], length, drop, IfOk, OnOk};
ghost use Rattle.abbrev_units.specs.KeptTags.{is_kept_tag};
ghost use Rattle.abbrev_units.specs.internal.Listed.{IsHeld, Starts, Grown, abbrev_in};

use crate::spec::Spec;
use crate::take::{Take, make_takes};
use code_table::{
    DW_TAG_class_type, DW_TAG_inlined_subroutine, DW_TAG_namespace, DW_TAG_structure_type,
    DW_TAG_subprogram, DW_TAG_union_type,
};
use std::alloc::Global;
use sym_edges::OutOfMemory;

/// The attributes of all abbreviations of a table, and their takes.
#[derive(Drop)]
pub struct Lists {
    pub specs: Vec<Spec>,
    pub takes: Vec<Take>,
}

/// Members of a list, from one index to another.
#[derive(Clone, Copy)]
pub struct Run {
    pub from: u32,
    pub to: u32,
}

/// An abbreviation: its code, the tag of its entries, whether they have children and are kept, where its attributes and takes are in the lists, the
/// number of bytes after the last take, and whether it has takes.
#[derive(Clone, Copy)]
pub struct Head {
    pub code: u64,
    pub tag: u64,
    pub specs: Run,
    pub takes: Run,
    pub tail: u32,
    pub has_takes: bool,
    pub children: bool,
    pub kept: bool,
}

/// The run from one index to another, or `OutOfMemory` if `to` is 2^32 or more.
fn run_of(from: usize, to: usize) -> Result<Run, OutOfMemory>
    requires { from ≤ to }
    ensures { IfOk result (λ run. (run.from ≡ from) × (run.to ≡ to)) }
{
    if to as u64 >= 1 << 32 {
        return Err(OutOfMemory);
    }
    Ok(Run {
        from: from as u32,
        to: to as u32,
    })
}

/// Whether entries of a tag are kept: their values are needed.
#[inline]
#[tactic(auto, unfolding(crate::specs::KeptTags::is_kept_tag))]
fn is_kept_tag(tag: u64) -> bool
    ensures { result ≡ is_kept_tag tag }
{
    matches!(
        tag,
        DW_TAG_class_type
            | DW_TAG_structure_type
            | DW_TAG_union_type
            | DW_TAG_inlined_subroutine
            | DW_TAG_subprogram
            | DW_TAG_namespace
    )
}

impl Lists {
    pub fn new(alloc: Global) -> Lists
        ensures specs { result.specs.items ≡ [] }
        ensures takes { result.takes.items ≡ [] }
    {
        Lists {
            specs: Vec::new(alloc),
            takes: Vec::new(alloc),
        }
    }

    /// Reserves the room that most tables need, unless it is there.
    pub fn reserve(&mut self) -> Result<(), OutOfMemory>
        ensures specs { self.new.specs.items ≡ self.old.specs.items }
        ensures takes { self.new.takes.items ≡ self.old.takes.items }
    {
        self.specs.reserve(1024)?;
        self.takes.reserve(384)?;
        Ok(())
    }

    /// Gives unused room back.
    pub fn shrink(&mut self)
        ensures specs { self.new.specs.items ≡ self.old.specs.items }
        ensures held { Grown self.old self.new }
    {
        self.specs.shrink_to_fit();
        self.takes.shrink_to_fit();
    }

    /// Empties the lists; they keep their memory.
    pub fn clear(&mut self)
        ensures specs { self.new.specs.items ≡ [] }
        ensures takes { self.new.takes.items ≡ [] }
    {
        self.specs.clear();
        self.takes.clear();
    }

    /// Makes an abbreviation with the attributes from an index on.
    #[tactic(auto, using(crate::proofs::ListedLemmas::abbrev_rest, crate::proofs::ListedLemmas::held_rest))]
    pub fn add(
        &mut self,
        from: usize,
        code: u64,
        tag: u64,
        children: bool,
    ) -> Result<Head, OutOfMemory>
        requires { from ≤ length self.old.specs.items }
        ensures given { IfOk result (λ head. abbrev_in self.new.specs.items head ≡ record { code = code; tag = tag; children = children; specs = drop from self.old.specs.items }) }
        ensures held { IfOk result (λ head. IsHeld self.new head) }
        ensures specs { self.new.specs.items ≡ self.old.specs.items }
        ensures takes { OnOk result (Starts self.old.takes.items self.new.takes.items) }
    {
        let kept = is_kept_tag(tag);
        let begin = self.takes.len();
        let made = make_takes(&mut self.takes, &self.specs.as_slice()[from..], kept)?;
        let takes = run_of(begin, self.takes.len())?;
        let specs = run_of(from, self.specs.len())?;
        Ok(Head {
            code,
            tag,
            specs,
            takes,
            tail: made.unwrap_or(0),
            has_takes: made.is_some(),
            children,
            kept,
        })
    }
}
