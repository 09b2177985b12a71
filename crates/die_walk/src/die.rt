//! Kept entries.
ghost use Rattle.std.specs.Prelude.{◌≡◌, ◌==◌, ℕ, Some, is_some, drop};
ghost use Rattle.std.specs.Option.{option_copied};
ghost use Rattle.die_walk.specs.EntryKinds.{is_function, is_inlined, is_scope};
ghost use Rattle.abbrev_units.specs.Picks.{value_in};
ghost use Rattle.die_walk.specs.internal.Sites.{Homes};
ghost use Rattle.die_walk.specs.internal.Heads.{held_in, link_of, text_from, text_at_home, where_said};

use crate::heads::{DieParts, Head, Home, ORIGIN, SPECIFICATION, Texts, site_of, wide_of};
use abbrev_units::{Class, Pick, Value};
use code_table::{
    DW_TAG_class_type, DW_TAG_inlined_subroutine, DW_TAG_namespace, DW_TAG_structure_type,
    DW_TAG_subprogram, DW_TAG_union_type,
};
use std::marker::Model;
use text_table::held_front;

/// A kept entry with the attributes that matter here (DWARF 5, 7.5.4). An attribute is absent if it is not given, has a value of another class, or
/// leads to no text. Each call returns one attribute.
#[derive(Drop)]
pub struct Die<'t, 'a> {
    parts: &'t DieParts<'a>,
    head: &'t Head,
}

impl<'t, 'a> Model for Die<'t, 'a> {
    ghost use Rattle.die_walk.specs.EntryTable.{DieFields};
    ghost use Rattle.die_walk.specs.internal.Heads.{held_in};

    ghost Value = { DieFields };

    ghost view = { λ d. held_in d.parts.now.texts d.parts.now.sites.items d.parts.now.wides.items d.head.now };
}

/// The bytes from a place on; none after the end.
#[inline]
#[tactic(auto, using(crate::proofs::HeadLemmas::drop_past))]
fn bytes_from(bytes: &[u8], place: usize) -> &[u8]
    ensures { result.now ≡ drop place bytes.now }
{
    if place > bytes.len() {
        return &[];
    }
    bytes.split_at(place).1
}

/// What is held of the text at a place: up to the next zero byte or, without one, up to the end of the section.
#[inline]
fn text_from(bytes: &[u8], place: u32) -> &[u8]
    ensures { Some result.now ≡ text_from bytes.now place }
{
    held_front(bytes_from(bytes, place as usize))
}

/// A text, given its section and its place there.
#[inline]
fn text_at_home<'a>(texts: &Texts<'a>, home: Home, place: u32) -> Option<&'a [u8]>
    ensures { option_copied result ≡ text_at_home texts.now home place }
{
    match home {
        Home::Missing | Home::Elsewhere => None,
        Home::Strs => Some(text_from(texts.strs, place)),
        Home::LineStrs => Some(text_from(texts.line_strs, place)),
        Home::Info => Some(text_from(texts.info, place)),
        Home::SupStrs => Some(text_from(texts.sup_strs, place)),
    }
}

/// Whether there is a text.
#[inline(always)]
fn is_text_home(home: Home) -> bool
    ensures { (texts : Homes) (place : ℕ) → result ≡ is_some (text_at_home texts home place) }
{
    !matches!(home, Home::Missing | Home::Elsewhere)
}

/// The target of a head, if it is of the kind `link`.
#[inline(always)]
fn target_of(head: &Head, link: u8) -> Option<u32>
    ensures { result ≡ where_said (link_of head.now == link) head.now.target }
{
    (head.link() == link).then_some(head.target)
}

/// The value that a class and a number stand for.
#[inline(always)]
fn value_of(class: Class, number: u64) -> Option<Value>
    ensures { result ≡ value_in class number }
{
    Pick { class, number }.value()
}

impl<'t, 'a> Die<'t, 'a> {
    #[inline]
    pub(crate) fn of(parts: &'t DieParts<'a>, head: &'t Head) -> Die<'t, 'a>
        ensures { result ≡ held_in parts.now.texts parts.now.sites.items parts.now.wides.items head.now }
    {
        Die { parts, head }
    }

    /// The place of the entry in `.debug_info`, counted through the file and its supplementary file
    /// (DWARF 5, 7.3.6). The places of the supplementary file begin at 2^29.
    #[inline]
    pub fn at(&self) -> u32
        ensures { result ≡ self.now.at }
    {
        self.head.at
    }

    /// The tag (DWARF 5, table 7.3).
    #[inline]
    pub fn tag(&self) -> u64
        ensures { result ≡ self.now.tag }
    {
        match wide_of(self.parts, self.head) {
            Some(wide) => wide.tag,
            None => u64::from(self.head.tag),
        }
    }

    /// Whether the entry is a function and not a declaration.
    #[inline]
    #[tactic(auto, unfolding(crate::specs::EntryKinds::is_function))]
    pub fn is_function(&self) -> bool
        ensures { result ≡ is_function self.now }
    {
        self.tag() == DW_TAG_subprogram && !self.declaration()
    }

    /// Whether the entry is an inlined copy of a function.
    #[inline]
    #[tactic(auto, unfolding(crate::specs::EntryKinds::is_inlined))]
    pub fn is_inlined(&self) -> bool
        ensures { result ≡ is_inlined self.now }
    {
        self.tag() == DW_TAG_inlined_subroutine
    }

    /// Whether the entry is a class, a structure, a union or a namespace, whose name is a prefix of
    /// the names in it.
    #[inline]
    #[tactic(auto, unfolding(crate::specs::EntryKinds::is_scope))]
    pub fn is_scope(&self) -> bool
        ensures { result ≡ is_scope self.now }
    {
        matches!(
            self.tag(),
            DW_TAG_class_type | DW_TAG_structure_type | DW_TAG_union_type | DW_TAG_namespace
        )
    }

    /// The index of the nearest kept ancestor.
    #[inline]
    pub fn parent(&self) -> Option<u32>
        ensures { result ≡ self.now.parent }
    {
        self.head.has_parent().then_some(self.head.parent)
    }

    #[inline]
    pub fn declaration(&self) -> bool
        ensures { result ≡ self.now.declaration }
    {
        self.head.is_declaration()
    }

    /// DW_AT_low_pc: an address, or the index of one.
    pub fn low(&self) -> Option<Value>
        ensures { result ≡ self.now.low }
    {
        if let Some(wide) = wide_of(self.parts, self.head) {
            return wide.low.value();
        }
        let site = site_of(self.parts, self.head)?;
        value_of(site.low_class, site.low)
    }

    /// DW_AT_high_pc: an address, the index of one, or a length.
    pub fn high(&self) -> Option<Value>
        ensures { result ≡ self.now.high }
    {
        if let Some(wide) = wide_of(self.parts, self.head) {
            return wide.high.value();
        }
        let site = site_of(self.parts, self.head)?;
        value_of(site.high_class, u64::from(site.more))
    }

    /// DW_AT_ranges: the place or the index of a range list.
    pub fn ranges(&self) -> Option<Value>
        ensures { result ≡ self.now.ranges }
    {
        if let Some(wide) = wide_of(self.parts, self.head) {
            return wide.ranges.value();
        }
        let site = site_of(self.parts, self.head)?;
        value_of(site.ranges_class, u64::from(site.more))
    }

    /// The place of the abstract entry in `.debug_info`, counted through the file and its
    /// supplementary file; 2^31 if the reference leaves its file.
    #[inline]
    pub fn origin(&self) -> Option<u32>
        ensures { result ≡ self.now.origin }
    {
        match wide_of(self.parts, self.head) {
            Some(wide) => wide.origin,
            None => target_of(self.head, ORIGIN),
        }
    }

    /// The place of the declaration in `.debug_info`, counted through the file and its
    /// supplementary file; 2^31 if the reference leaves its file.
    #[inline]
    pub fn spec(&self) -> Option<u32>
        ensures { result ≡ self.now.spec }
    {
        match wide_of(self.parts, self.head) {
            Some(wide) => wide.spec,
            None => target_of(self.head, SPECIFICATION),
        }
    }

    /// Whether there is a name.
    #[inline]
    pub fn has_name(&self) -> bool
        ensures { result ≡ is_some self.now.name }
    {
        is_text_home(self.head.name_in)
    }

    pub fn name(&self) -> Option<&'a [u8]>
        ensures { option_copied result ≡ self.now.name }
    {
        text_at_home(&self.parts.texts, self.head.name_in, self.head.name)
    }

    /// Whether the name is in a supplementary file (DWARF 5, 7.3.6) that was not read.
    #[inline]
    pub fn is_named_elsewhere(&self) -> bool
        ensures { result ≡ self.now.name_elsewhere }
    {
        matches!(self.head.name_in, Home::Elsewhere)
    }

    /// Whether there is a linkage name.
    #[inline]
    pub fn has_linkage(&self) -> bool
        ensures { result ≡ is_some self.now.linkage }
    {
        is_text_home(self.head.linkage_in)
    }

    pub fn linkage(&self) -> Option<&'a [u8]>
        ensures { option_copied result ≡ self.now.linkage }
    {
        text_at_home(&self.parts.texts, self.head.linkage_in, self.head.linkage)
    }

    pub fn call_file(&self) -> Option<u64>
        ensures { result ≡ self.now.call_file }
    {
        if let Some(wide) = wide_of(self.parts, self.head) {
            return wide.call_file;
        }
        site_of(self.parts, self.head)?.call_file()
    }

    pub fn call_line(&self) -> u32
        ensures { result ≡ self.now.call_line }
    {
        if let Some(wide) = wide_of(self.parts, self.head) {
            return wide.call_line;
        }
        match site_of(self.parts, self.head) {
            Some(site) => site.call_line,
            None => 0,
        }
    }
}
