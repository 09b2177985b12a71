//! Heads and sites, made from picks.
ghost use Rattle.std.specs.Prelude.{◌≡◌, ◌≤◌, ◌<◌, ◌^◌, ◌++◌, ◌∷◌, [], ℕ, List, Option, None, true, false, IfOk, IfSome, OnOk, is_none, is_some, length, option_and_then};
ghost use Rattle.abbrev_units.specs.DebugSections.{first_place, place_in};
ghost use Rattle.abbrev_units.specs.Attributes.{as_reference, as_flag, as_number, is_elsewhere, is_yes, line_of, or_else};
ghost use Rattle.abbrev_units.specs.Picks.{value_in};
ghost use Rattle.abbrev_units.specs.Texts.{text_in, text_place};
ghost use Rattle.die_walk.specs.Picking.{text_by};
ghost use Rattle.die_walk.specs.internal.Heads.{AreSmall, FitsPlace, IsClosed, IsAdded, IsHead, IsTarget, IsWhole, Says, homes_of, slim, text_from, text_at_home, is_text_home, is_elsewhere_home, link_of, no_site, site_by};
ghost use Rattle.die_walk.specs.internal.Sites.{Homes};

use crate::heads::{EntryList, Head, Home, ORIGIN, SPECIFICATION, Site, Wide, flags_of};
use crate::root::Root;
use abbrev_units::{Class, Pick, Picks, Sections, Slot, Unit, text_in, text_place};
use sym_edges::{FILE_LIMIT, OutOfMemory};
use text_table::{TextTable, start_of};

/// Where a text is: its section, and its place there.
#[derive(Clone, Copy)]
pub struct Named {
    pub home: Home,
    pub place: u32,
}

const NO_NAME: Named = Named {
    home: Home::Missing,
    place: 0,
};

/// Where the names of an entry are.
#[derive(Clone, Copy)]
pub struct Names {
    pub name: Named,
    pub linkage: Named,
}

/// The places to which an entry refers, counted through the file and its supplementary file.
#[derive(Clone, Copy)]
pub struct Links {
    pub origin: Option<u32>,
    pub spec: Option<u32>,
}

/// The link of an entry that fits into its head: the kind of the link, which is 0 for none,
/// `ORIGIN` or `SPECIFICATION`, and the place.
#[derive(Clone, Copy)]
pub struct Target {
    pub link: u8,
    pub place: u32,
}

const NO_TARGET: Target = Target { link: 0, place: 0 };

/// Whether a section ends with a zero byte.
#[inline]
fn is_closed(bytes: &[u8]) -> bool
    ensures { IsClosed result bytes.now }
{
    match bytes.last() {
        Some(byte) => *byte == 0,
        None => false,
    }
}

/// Whether there is a terminated text at a place of `.debug_info`. This is seldom called, since nearly
/// all files have a zero byte at its end, so it is not inlined.
#[inline(never)]
fn is_text(bytes: &[u8], place: u64) -> bool
    ensures { result ≡ is_some (text_in bytes.now place) }
{
    text_in(bytes, place).is_some()
}

/// Where a text in an entry is held from, if it is terminated. In a section that ends with a zero byte each text is.
#[inline(always)]
#[tactic(auto, using(crate::proofs::HeldLemmas::open_text, crate::proofs::HeldLemmas::past_text, crate::proofs::HeldLemmas::here_text, crate::proofs::HeldLemmas::no_text))]
fn place_within(bytes: &[u8], place: u64) -> Option<u32>
    requires { length bytes.now ≤ 2 ^ 29 }
    ensures { FitsPlace bytes.now result (text_in bytes.now place) }
{
    if place >= bytes.len() as u64 {
        return None;
    }
    if is_closed(bytes) {
        return Some(start_of(bytes, place as usize) as u32);
    }
    if is_text(bytes, place) {
        return Some(start_of(bytes, place as usize) as u32);
    }
    None
}

/// Where a text of a section is held from, if it is terminated.
#[inline(always)]
#[tactic(auto, using(crate::proofs::HeldLemmas::started, crate::proofs::HeldLemmas::not_started))]
fn place_in(texts: &TextTable<'_>, place: u64) -> Option<u32>
    requires { length texts.now ≤ 2 ^ 29 }
    ensures { FitsPlace texts.now result (text_in texts.now place) }
{
    match texts.start(place) {
        Some(start) => Some(start as u32),
        None => None,
    }
}

/// The place of a text in `.debug_str`, given its index in `.debug_str_offsets`; none if there is
/// no terminated text.
#[inline(never)]
fn place_by_index(
    sections: &Sections<'_>,
    unit: &Unit,
    base: Option<u64>,
    index: u64,
) -> Option<u32>
    requires { length sections.now.strs ≤ 2 ^ 29 }
    ensures { FitsPlace sections.now.strs result (option_and_then (text_in sections.now.strs) (text_place sections.now.str_offsets unit.now.wide base index)) }
{
    let place = text_place(sections.str_offsets, unit.wide, base, index)?;
    place_in(&sections.strs, place)
}

/// Where a text of a section is.
#[inline(always)]
fn at_home(home: Home, place: Option<u32>) -> Named
    requires { is_text_home home ≡ true }
    ensures text { (bytes : List ℕ) (texts : Homes) (text : Option (List ℕ)) → ((n : ℕ) → text_at_home texts home n ≡ text_from bytes n) → FitsPlace bytes place text → text_at_home texts result.home result.place ≡ text }
    ensures here { is_elsewhere_home result.home ≡ false }
{
    match place {
        Some(place) => Named { home, place },
        None => NO_NAME,
    }
}

/// Where a text of the supplementary file is.
#[inline(never)]
fn sup_home(sections: &Sections<'_>, place: u64) -> Named
    requires { AreSmall (homes_of sections.now) }
    ensures text { text_at_home (homes_of sections.now) result.home result.place ≡ option_and_then (λ strs. text_in strs place) sections.now.sup_strs }
    ensures elsewhere { is_elsewhere_home result.home ≡ is_none sections.now.sup_strs }
{
    match &sections.sup_strs {
        Some(strs) => at_home(Home::SupStrs, place_in(strs, place)),
        None => Named {
            home: Home::Elsewhere,
            place: 0,
        },
    }
}

/// Where the text of a pick is; `base` is the unit's str_offsets_base.
#[inline(always)]
#[tactic(auto, unfolding(abbrev_units::specs::Texts::text_of))]
fn text_home(sections: &Sections<'_>, unit: &Unit, base: Option<u64>, pick: Pick) -> Named
    requires { AreSmall (homes_of sections.now) }
    ensures text { text_at_home (homes_of sections.now) result.home result.place ≡ text_by sections.now unit.now base (value_in pick.class pick.number) }
    ensures elsewhere { is_elsewhere_home result.home ≡ is_elsewhere sections.now (value_in pick.class pick.number) }
{
    match pick.class {
        Class::StrAt => at_home(Home::Strs, place_in(&sections.strs, pick.number)),
        Class::StrIndex => at_home(
            Home::Strs,
            place_by_index(sections, unit, base, pick.number),
        ),
        Class::LineStrAt => at_home(Home::LineStrs, place_in(&sections.line_str, pick.number)),
        Class::InlineText => at_home(Home::Info, place_within(sections.info, pick.number)),
        Class::SupStrAt => sup_home(sections, pick.number),
        _ => NO_NAME,
    }
}

/// The first name or, if it is missing, the second.
#[inline(always)]
fn either(first: Named, second: Named) -> Named
    ensures { (texts : Homes) → text_at_home texts result.home result.place ≡ or_else (text_at_home texts first.home first.place) (text_at_home texts second.home second.place) }
{
    match first.home {
        Home::Missing | Home::Elsewhere => second,
        Home::Strs | Home::LineStrs | Home::Info | Home::SupStrs => first,
    }
}

/// Where the names of an entry are. The linkage name may also be given by DW_AT_MIPS_linkage_name.
#[inline(always)]
fn names_of(sections: &Sections<'_>, unit: &Unit, base: Option<u64>, picks: &Picks) -> Names
    requires { AreSmall (homes_of sections.now) }
    ensures name { text_at_home (homes_of sections.now) result.name.home result.name.place ≡ text_by sections.now unit.now base picks.now.name }
    ensures elsewhere { is_elsewhere_home result.name.home ≡ is_elsewhere sections.now picks.now.name }
    ensures linkage { text_at_home (homes_of sections.now) result.linkage.home result.linkage.place ≡ or_else (text_by sections.now unit.now base picks.now.linkage) (text_by sections.now unit.now base picks.now.old_linkage) }
{
    Names {
        name: text_home(sections, unit, base, picks.pick(Slot::Name)),
        linkage: either(
            text_home(sections, unit, base, picks.pick(Slot::Linkage)),
            text_home(sections, unit, base, picks.pick(Slot::OldLinkage)),
        ),
    }
}

/// The first place of the supplementary file: its places come after those of a file.
pub const FIRST_OF_SUP: u32 = FILE_LIMIT as u32;

/// The first place of `.debug_info`, counted through the file and its supplementary file.
#[inline(always)]
pub fn first_place(is_sup: bool) -> u32
    ensures { result ≡ first_place is_sup }
{
    if is_sup { FIRST_OF_SUP } else { 0 }
}

/// A place of `.debug_info`, counted through the file and its supplementary file. If the place is
/// outside of its file, it is 2^31, at which there is no entry.
#[inline(always)]
#[tactic(auto, unfolding(abbrev_units::specs::DebugSections::place_in))]
fn count_place(is_sup: bool, place: u64) -> u32
    ensures { result ≡ place_in is_sup place }
{
    if place >= u64::from(FIRST_OF_SUP) {
        return 1 << 31;
    }
    first_place(is_sup) + place as u32
}

/// The place to which a reference leads.
#[inline(always)]
fn place_of(sections: &Sections<'_>, unit: &Unit, pick: Pick) -> Option<u32>
    ensures { result ≡ option_and_then (as_reference sections.now unit.now) (value_in pick.class pick.number) }
{
    match pick.class {
        Class::UnitRef => match unit.start.checked_add(pick.number) {
            Some(place) => Some(count_place(sections.is_sup, place)),
            None => None,
        },
        Class::InfoRef => Some(count_place(sections.is_sup, pick.number)),
        Class::SupRefAt if sections.sup_strs.is_some() => Some(count_place(true, pick.number)),
        _ => None,
    }
}

/// The places to which an entry refers.
#[inline(always)]
fn links_of(sections: &Sections<'_>, unit: &Unit, picks: &Picks) -> Links
    ensures origin { result.origin ≡ option_and_then (as_reference sections.now unit.now) picks.now.origin }
    ensures spec { result.spec ≡ option_and_then (as_reference sections.now unit.now) picks.now.spec }
{
    Links {
        origin: place_of(sections, unit, picks.pick(Slot::Origin)),
        spec: place_of(sections, unit, picks.pick(Slot::Specification)),
    }
}

/// The target of an entry, if the entry does not have two links.
#[inline(always)]
fn fit_links(links: Links) -> Option<Target>
    ensures target { IfSome result (λ target. IsTarget target.link target.place links) }
    ensures link { IfSome result (λ target. target.link < 3) }
{
    match (links.origin, links.spec) {
        (None, None) => Some(NO_TARGET),
        (Some(place), None) => Some(Target {
            link: ORIGIN,
            place,
        }),
        (None, Some(place)) => Some(Target {
            link: SPECIFICATION,
            place,
        }),
        (Some(_), Some(_)) => None,
    }
}

/// Whether a pick is a flag that is true.
#[inline(always)]
fn says_yes(pick: Pick) -> bool
    ensures { result ≡ is_yes (option_and_then as_flag (value_in pick.class pick.number)) }
{
    match pick.class {
        Class::Flag => pick.number != 0,
        _ => false,
    }
}

/// The number of a pick.
#[inline(always)]
fn number_of(pick: Pick) -> Option<u64>
    ensures { result ≡ option_and_then as_number (value_in pick.class pick.number) }
{
    match pick.class {
        Class::Num | Class::Signed => Some(pick.number),
        _ => None,
    }
}

/// The line number of a pick.
#[inline(always)]
fn line_in(pick: Pick) -> u32
    ensures { result ≡ line_of (option_and_then as_number (value_in pick.class pick.number)) }
{
    match pick.class {
        Class::Num | Class::Signed => (pick.number % (1 << 32)) as u32,
        _ => 0,
    }
}

#[inline(always)]
fn is_missing(pick: Pick) -> bool
    ensures { result ≡ true → value_in pick.class pick.number ≡ None }
{
    matches!(pick.class, Class::Missing)
}

/// Whether an entry has no addresses and no call.
#[inline(always)]
fn has_no_site(picks: &Picks) -> bool
    ensures { result ≡ true → site_by picks.now ≡ no_site }
{
    is_missing(picks.pick(Slot::Low))
        && is_missing(picks.pick(Slot::High))
        && is_missing(picks.pick(Slot::Ranges))
        && is_missing(picks.pick(Slot::CallFile))
        && is_missing(picks.pick(Slot::CallLine))
}

/// The classes of the high address and of the ranges, and the number of the one that is there: a site has no room for both numbers.
#[derive(Clone, Copy)]
struct More {
    high: Class,
    ranges: Class,
    number: u32,
}

/// The high address or the ranges, if the number fits into four bytes.
#[inline(always)]
fn fit_more(high: Pick, ranges: Pick) -> Option<More>
    ensures { IfSome result (λ more. (value_in more.high more.number ≡ value_in high.class high.number) × (value_in more.ranges more.number ≡ value_in ranges.class ranges.number)) }
{
    let number = match (high.class, ranges.class) {
        (Class::Missing, Class::Missing) => 0,
        (Class::Missing, _) => ranges.number,
        (_, Class::Missing) => high.number,
        (_, _) => return None,
    };
    if number > u64::from(u32::MAX) {
        return None;
    }
    Some(More {
        high: high.class,
        ranges: ranges.class,
        number: number as u32,
    })
}

/// The site of an entry, if it fits into one.
#[inline(always)]
fn fit_site(picks: &Picks) -> Option<Site>
    ensures { IfSome result (λ site. site ≡ site_by picks.now) }
{
    let low = picks.pick(Slot::Low);
    let Some(more) = fit_more(picks.pick(Slot::High), picks.pick(Slot::Ranges)) else {
        return None;
    };
    let file = number_of(picks.pick(Slot::CallFile));
    let call_file = file.unwrap_or(0);
    if call_file > u64::from(u32::MAX) {
        return None;
    }
    Some(Site {
        low: low.number,
        more: more.number,
        call_file: call_file as u32,
        call_line: line_in(picks.pick(Slot::CallLine)),
        low_class: low.class,
        high_class: more.high,
        ranges_class: more.ranges,
        has_call_file: file.is_some(),
    })
}

/// A wide entry, which can hold all values of any entry.
fn make_wide(tag: u64, links: Links, picks: &Picks) -> Wide
    ensures { result ≡ record { tag = tag; origin = links.origin; spec = links.spec; site = site_by picks.now } }
{
    Wide {
        tag,
        origin: links.origin,
        spec: links.spec,
        low: picks.pick(Slot::Low),
        high: picks.pick(Slot::High),
        ranges: picks.pick(Slot::Ranges),
        call_file: number_of(picks.pick(Slot::CallFile)),
        call_line: line_in(picks.pick(Slot::CallLine)),
    }
}

/// The place of an entry, counted through the file and its supplementary file, and the index of the
/// nearest kept entry around it.
#[derive(Clone, Copy)]
pub struct Frame {
    pub at: u32,
    pub parent: Option<u32>,
}

/// What an entry has besides its tag, its addresses and its call.
#[derive(Clone, Copy)]
pub struct Parts {
    pub frame: Frame,
    pub declaration: bool,
    pub names: Names,
    pub links: Links,
}

/// The parts of an entry, given its picks.
#[inline(always)]
pub fn parts_of(
    sections: &Sections<'_>,
    unit: &Unit,
    root: &Root<'_>,
    picks: &Picks,
    frame: Frame,
) -> Parts
    requires { AreSmall (homes_of sections.now) }
    ensures says { Says sections.now unit.now root.now.str_offsets_base picks.now result }
    ensures frame { result.frame ≡ frame }
{
    Parts {
        frame,
        declaration: says_yes(picks.pick(Slot::Declaration)),
        names: names_of(sections, unit, root.str_offsets_base, picks),
        links: links_of(sections, unit, picks),
    }
}

/// A head with this tag and target, without a site.
#[inline(always)]
fn head_of(parts: Parts, tag: u8, target: Target) -> Head
    requires { target.link < 3 }
    ensures says { IsHead result parts }
    ensures tag { result.tag ≡ tag }
    ensures link { link_of result ≡ target.link }
    ensures target { result.target ≡ target.place }
{
    Head {
        at: parts.frame.at,
        parent: parts.frame.parent.unwrap_or(0),
        name: parts.names.name.place,
        linkage: parts.names.linkage.place,
        target: target.place,
        number: 0,
        tag,
        flags: flags_of(parts.frame.parent.is_some(), parts.declaration, target.link),
        name_in: parts.names.name.home,
        linkage_in: parts.names.linkage.home,
    }
}

/// The head of an entry, if its tag and its target fit into one.
#[inline(always)]
fn fit_head(parts: Parts, tag: u64) -> Option<Head>
    ensures { IfSome result (λ head. IsWhole head parts tag) }
{
    if tag >= 256 {
        return None;
    }
    match fit_links(parts.links) {
        Some(target) => Some(head_of(parts, tag as u8, target)),
        None => None,
    }
}

/// Adds an entry, given its head. Returns false and adds nothing if its addresses and its call do not fit into a site.
#[inline(always)]
fn push_site(list: &mut EntryList<'_>, head: Head, picks: &Picks) -> Result<bool, OutOfMemory>
    requires { head.flags < 16 }
    ensures added { IfOk result (λ fits. fits ≡ true → list.new.dies ≡ list.old.dies ++ slim list.old.homes head (site_by picks.now) ∷ []) }
    ensures same { IfOk result (λ fits. fits ≡ false → list.new ≡ list.old) }
    ensures homes { list.new.homes ≡ list.old.homes }
{
    if has_no_site(picks) {
        list.push_alone(head)?;
        return Ok(true);
    }
    let Some(site) = fit_site(picks) else {
        return Ok(false);
    };
    list.push_site(head, site)?;
    Ok(true)
}

/// Adds an entry that fits into a head and a site. Returns false and adds nothing if it does not fit.
#[inline(always)]
#[tactic(auto, using(crate::proofs::HeadLemmas::fit_is))]
pub fn push_fit(
    list: &mut EntryList<'_>,
    parts: Parts,
    tag: u64,
    picks: &Picks,
) -> Result<bool, OutOfMemory>
    ensures added { IfOk result (λ fits. fits ≡ true → IsAdded list.old list.new parts tag picks.now) }
    ensures same { IfOk result (λ fits. fits ≡ false → list.new ≡ list.old) }
    ensures homes { list.new.homes ≡ list.old.homes }
{
    match fit_head(parts, tag) {
        Some(head) => push_site(list, head, picks),
        None => Ok(false),
    }
}

/// Adds any entry, also one that does not fit into a head and a site.
#[tactic(auto, using(crate::proofs::HeadLemmas::broad_is))]
pub fn push_wide(
    list: &mut EntryList<'_>,
    parts: Parts,
    tag: u64,
    picks: &Picks,
) -> Result<(), OutOfMemory>
    ensures added { OnOk result (IsAdded list.old list.new parts tag picks.now) }
    ensures homes { list.new.homes ≡ list.old.homes }
{
    let head = head_of(parts, 0, NO_TARGET);
    list.push_wide(head, make_wide(tag, parts.links, picks))
}
