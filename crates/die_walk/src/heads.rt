//! Kept entries: each has a head of 28 bytes and, if there is more, a site.
ghost use Rattle.std.specs.Prelude.{◌≡◌, if◌then◌else◌, ◌<◌, ◌/◌, ◌%◌, ◌++◌, ◌==◌, ◌∷◌, [], length, map, IfOk, OnOk};
ghost use Rattle.std.specs.List.{slice_get};
ghost use Rattle.std.specs.Option.{option_copied};
ghost use Rattle.sym_edges.specs.Rising.{RisesFrom, StandBelow};
ghost use Rattle.die_walk.specs.EntryTable.{DieFields};
ghost use Rattle.die_walk.specs.internal.Heads.{homes_of, has_parent, is_declaration, link_of, rest_of, no_site, slim, broad, found_in, with_rest};

use crate::die::Die;
use abbrev_units::{Class, Pick, Sections};
use std::alloc::Global;
use std::marker::Model;
use sym_edges::OutOfMemory;

/// Where a text is: in a section of this file or of the supplementary file (DWARF 5, 7.3.6), in a supplementary file that was not read, or nowhere.
#[derive(Clone, Copy)]
pub enum Home {
    Missing,
    Strs,
    LineStrs,
    Info,
    SupStrs,
    Elsewhere,
}

/// The head of an entry. `name` and `linkage` are places of texts, `target` is the origin or the declaration, and `number` is the index of the site
/// or of the wide entry. The four parts of `flags` say whether there is a parent, whether it is a declaration, what the target is, and where the rest
/// is. A head takes 28 bytes.
#[derive(Clone, Copy)]
pub struct Head {
    pub at: u32,
    pub parent: u32,
    pub name: u32,
    pub linkage: u32,
    pub target: u32,
    pub number: u32,
    pub tag: u8,
    pub flags: u8,
    pub name_in: Home,
    pub linkage_in: Home,
}

/// The target is the abstract entry.
pub const ORIGIN: u8 = 1;

/// The target is the declaration.
pub const SPECIFICATION: u8 = 2;

const SITE: u8 = 1;

const WIDE: u8 = 2;

/// 1 if the condition holds, else 0.
#[inline(always)]
fn bit(so: bool) -> u8
    ensures { result ≡ if so then 1 else 0 }
{
    if so { 1 } else { 0 }
}

/// The flags of a head that has no site yet.
#[inline(always)]
#[tactic(auto, using(crate::proofs::FlagLemmas::parent_made, crate::proofs::FlagLemmas::declaration_made, crate::proofs::FlagLemmas::link_made, crate::proofs::FlagLemmas::flags_small))]
pub fn flags_of(parent: bool, declaration: bool, link: u8) -> u8
    requires { link < 3 }
    ensures parent { (result % 2 == 1) ≡ parent }
    ensures declaration { (result / 2 % 2 == 1) ≡ declaration }
    ensures link { result / 4 % 4 ≡ link }
    ensures small { result < 16 }
{
    bit(parent) + 2 * bit(declaration) + 4 * link
}

impl Head {
    #[inline(always)]
    pub fn has_parent(&self) -> bool
        ensures { result ≡ has_parent self.now }
    {
        self.flags % 2 == 1
    }

    #[inline(always)]
    pub fn is_declaration(&self) -> bool
        ensures { result ≡ is_declaration self.now }
    {
        self.flags / 2 % 2 == 1
    }

    #[inline(always)]
    pub fn link(&self) -> u8
        ensures { result ≡ link_of self.now }
    {
        self.flags / 4 % 4
    }

    #[inline(always)]
    fn rest(&self) -> u8
        ensures { result ≡ rest_of self.now }
    {
        self.flags / 16
    }

    /// The head, with the kind and the index of its rest.
    #[inline(always)]
    fn with_rest(self, rest: u8, number: u32) -> Head
        requires flags { self.flags < 16 }
        requires rest { rest < 3 }
        ensures { result ≡ with_rest self rest number }
    {
        Head {
            flags: self.flags + 16 * rest,
            number,
            ..self
        }
    }
}

/// The low address of an entry, its high address or its ranges in `more`, and where it is called. It takes 24 bytes.
#[derive(Drop)]
pub struct Site {
    pub low: u64,
    pub more: u32,
    pub call_file: u32,
    pub call_line: u32,
    pub low_class: Class,
    pub high_class: Class,
    pub ranges_class: Class,
    pub has_call_file: bool,
}

impl Model for Site {
    ghost use Rattle.abbrev_units.specs.Picks.{value_in};
    ghost use Rattle.die_walk.specs.internal.Sites.{SiteFields};
    ghost use Rattle.die_walk.specs.internal.Heads.{where_said};

    ghost Value = { SiteFields };

    ghost view = { λ s. record {
      low = value_in s.low_class s.low;
      high = value_in s.high_class s.more;
      ranges = value_in s.ranges_class s.more;
      call_file = where_said s.has_call_file s.call_file;
      call_line = s.call_line;
    } };
}

impl Site {
    #[inline]
    pub fn call_file(&self) -> Option<u64>
        ensures { result ≡ self.now.call_file }
    {
        self.has_call_file.then_some(u64::from(self.call_file))
    }
}

/// An entry that does not fit into a head and a site: the tag, both links, and all that a site has.
#[derive(Drop)]
pub struct Wide {
    pub tag: u64,
    pub origin: Option<u32>,
    pub spec: Option<u32>,
    pub low: Pick,
    pub high: Pick,
    pub ranges: Pick,
    pub call_file: Option<u64>,
    pub call_line: u32,
}

impl Model for Wide {
    ghost use Rattle.abbrev_units.specs.Picks.{value_in};
    ghost use Rattle.die_walk.specs.internal.Sites.{SiteFields, WideFields};

    ghost Value = { WideFields };

    ghost view = { λ w. record {
      tag = w.tag;
      origin = w.origin;
      spec = w.spec;
      site = record {
        low = value_in w.low.class w.low.number;
        high = value_in w.high.class w.high.number;
        ranges = value_in w.ranges.class w.ranges.number;
        call_file = w.call_file;
        call_line = w.call_line;
      };
    } };
}

/// The sections that have the texts of entries.
#[derive(Drop)]
pub struct Texts<'a> {
    pub info: &'a [u8],
    pub strs: &'a [u8],
    pub line_strs: &'a [u8],
    pub sup_strs: &'a [u8],
}

impl<'a> Model for Texts<'a> {
    ghost use Rattle.die_walk.specs.internal.Sites.{Homes};

    ghost Value = { Homes };

    ghost view = { λ t. record { info = t.info.now; strs = t.strs.now; line_strs = t.line_strs.now; sup_strs = t.sup_strs.now } };
}

/// The sections that have the texts of entries, and the sites and wide entries.
#[derive(Drop)]
pub struct DieParts<'a> {
    pub texts: Texts<'a>,
    pub sites: Vec<Site>,
    pub wides: Vec<Wide>,
}

/// The site of a head, if it has one.
#[inline(always)]
pub fn site_of<'t>(parts: &'t DieParts<'_>, head: &Head) -> Option<&'t Site>
    ensures { option_copied result ≡ found_in 1 head.now parts.now.sites.items }
{
    if head.rest() != SITE {
        return None;
    }
    parts.sites.get(head.number as usize)
}

/// The wide entry of a head, if it has one.
#[inline(always)]
pub fn wide_of<'t>(parts: &'t DieParts<'_>, head: &Head) -> Option<&'t Wide>
    ensures { option_copied result ≡ found_in 2 head.now parts.now.wides.items }
{
    if head.rest() != WIDE {
        return None;
    }
    parts.wides.get(head.number as usize)
}

/// Kept entries while they are added.
#[derive(Drop)]
pub struct EntryList<'a> {
    heads: Vec<Head>,
    parts: DieParts<'a>,
}

impl<'a> Model for EntryList<'a> {
    ghost use Rattle.std.specs.Prelude.{map, length};
    ghost use Rattle.die_walk.specs.internal.Sites.{HeldEntries};
    ghost use Rattle.die_walk.specs.internal.Heads.{held_in, AreThere};

    ghost Value = { HeldEntries };

    ghost view = { λ l. record { dies = map (held_in l.parts.texts l.parts.sites.items l.parts.wides.items) l.heads.items; homes = l.parts.texts } };

    ghost invariant = { λ l. AreThere (length l.parts.sites.items) (length l.parts.wides.items) l.heads.items };
}

impl<'a> EntryList<'a> {
    /// An empty list, with room for `room` entries and for some sites. The texts of the entries are
    /// in `sections`.
    pub fn with_room(
        alloc: Global,
        sections: &Sections<'a>,
        room: usize,
    ) -> Result<EntryList<'a>, OutOfMemory>
        ensures { IfOk result (λ list. list ≡ record { dies = []; homes = homes_of sections.now }) }
    {
        Ok(EntryList {
            heads: Vec::with_capacity(alloc, room)?,
            parts: DieParts {
                texts: Texts {
                    info: sections.info,
                    strs: sections.strs.bytes(),
                    line_strs: sections.line_str.bytes(),
                    sup_strs: match &sections.sup_strs {
                        Some(strs) => strs.bytes(),
                        None => &[],
                    },
                },
                sites: Vec::with_capacity(alloc, (room / 4).max(8).min(64))?,
                wides: Vec::new(alloc),
            },
        })
    }

    /// Gives unused room back.
    pub fn shrink(&mut self)
        ensures { self.new ≡ self.old }
    {
        self.heads.shrink_to_fit();
        self.parts.sites.shrink_to_fit();
        self.parts.wides.shrink_to_fit();
    }

    #[inline]
    pub fn len(&self) -> usize
        ensures { result ≡ length self.now.dies }
    {
        self.heads.len()
    }

    #[inline]
    pub fn is_empty(&self) -> bool
        ensures { result ≡ (length self.now.dies == 0) }
    {
        self.heads.len() == 0
    }

    /// Adds an entry that has only a head.
    #[inline(always)]
    #[tactic(auto, using(crate::proofs::HeadLemmas::pushed_alone, crate::proofs::HeadLemmas::there_alone))]
    pub fn push_alone(&mut self, head: Head) -> Result<(), OutOfMemory>
        requires { head.flags < 16 }
        ensures dies { OnOk result (self.new.dies ≡ self.old.dies ++ slim self.old.homes head no_site ∷ []) }
        ensures homes { self.new.homes ≡ self.old.homes }
    {
        self.heads.push(head)?;
        Ok(())
    }

    /// Adds an entry with a site.
    #[inline(always)]
    #[tactic(auto, using(crate::proofs::HeadLemmas::more_sites))]
    pub fn push_site(&mut self, head: Head, site: Site) -> Result<(), OutOfMemory>
        requires { head.flags < 16 }
        ensures dies { OnOk result (self.new.dies ≡ self.old.dies ++ slim self.old.homes head site ∷ []) }
        ensures homes { self.new.homes ≡ self.old.homes }
    {
        let number = self.parts.sites.len();
        if number > u32::MAX as usize {
            return Err(OutOfMemory);
        }
        self.parts.sites.push(site)?;
        self.heads.push(head.with_rest(SITE, number as u32))?;
        Ok(())
    }

    /// Adds an entry that does not fit into a head and a site.
    #[inline(never)]
    #[tactic(auto, using(crate::proofs::HeadLemmas::more_wides))]
    pub fn push_wide(&mut self, head: Head, wide: Wide) -> Result<(), OutOfMemory>
        requires { head.flags < 16 }
        ensures dies { OnOk result (self.new.dies ≡ self.old.dies ++ broad self.old.homes head wide ∷ []) }
        ensures homes { self.new.homes ≡ self.old.homes }
    {
        let number = self.parts.wides.len();
        if number > u32::MAX as usize {
            return Err(OutOfMemory);
        }
        self.parts.wides.push(wide)?;
        self.heads.push(head.with_rest(WIDE, number as u32))?;
        Ok(())
    }

    /// The entry at an index.
    #[inline]
    pub fn get(&self, entry: usize) -> Option<Die<'_, 'a>>
        ensures { result ≡ slice_get self.now.dies entry }
    {
        Some(Die::of(&self.parts, self.heads.get(entry)?))
    }

    /// The number of entries that begin before a place, by binary search.
    pub fn count_before(&self, place: u64) -> usize
        requires { RisesFrom 0 (map (λ (d : DieFields). d.at) self.now.dies) }
        ensures { StandBelow (λ (d : DieFields). d.at) place result self.now.dies }
    {
        self.heads
            .partition_point(|head| u64::from(head.at) < place)
    }
}
