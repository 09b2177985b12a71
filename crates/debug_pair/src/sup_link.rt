//! The link of a file to its supplementary file (DWARF 5, 7.3.6; GNU's `.gnu_debugaltlink`).
ghost use Rattle.std.specs.Prelude.{◌≡◌, Ok, Err, MatchResult};
ghost use Rattle.std.specs.Option.{option_copied, option_map};
ghost use Rattle.leb_cursor.specs.Ahead.{gave};
ghost use Rattle.elf_sections.specs.SupLinks.{link_view};
ghost use Rattle.debug_pair.specs.SupLink.{all_ahead, sup_front_at, sup_name_at, sup_fields, checked, link_in_altlink, link_in_sup, sup_link, own_id, is_of_link};
ghost use Rattle.debug_pair.specs.SupLinkView.{sup_link_view, fields_view};

use crate::fault::SupFault;
use elf_sections::{Image, LinkSection};
use leb_cursor::Cursor;
use std::str;
use sym_edges::Sect;

/// The second field of `.debug_sup` in a file that links, and in a supplementary file.
const LINKS: u8 = 0;

const IS_SUPPLEMENTARY: u8 = 1;

/// The path of a supplementary file, and its id, as a link gives them.
#[derive(Clone, Copy, Debug)]
pub struct SupLink<'a> {
    pub path: &'a str,
    pub id: &'a [u8],
    /// Whether the id is its build id; if not, it is the one in its `.debug_sup`.
    pub by_build_id: bool,
}

/// The name and the id in a `.debug_sup`.
#[derive(Clone, Copy)]
struct SupFields<'a> {
    name: &'a [u8],
    id: &'a [u8],
}

/// A cursor over all bytes of a section.
fn cursor_over(bytes: &[u8]) -> Cursor<'_>
    ensures { result ≡ all_ahead bytes.now }
{
    Cursor::new(bytes, 0, bytes.len())
}

/// Reads the first two fields: whether the version is 5 and the second field is `kind`.
#[tactic(auto, unfolding(crate::specs::SupLink::sup_front_at))]
fn read_front(kind: u8, cursor: &mut Cursor<'_>) -> Result<bool, SupFault>
    ensures { gave result cursor.new ≡ sup_front_at kind cursor.old }
{
    let version = cursor.u16()?;
    let is_supplementary = cursor.u8()?;
    Ok(version == 5 && is_supplementary == kind)
}

/// Reads the name and the id after the first two fields.
#[tactic(auto, unfolding(crate::specs::SupLink::sup_name_at))]
fn read_name<'a>(cursor: &mut Cursor<'a>) -> Result<SupFields<'a>, SupFault>
    ensures { MatchResult result (λ fields. sup_name_at cursor.old ≡ Ok (fields_view fields)) (λ fault. sup_name_at cursor.old ≡ Err fault) }
{
    let name = cursor.text()?;
    let size = cursor.uleb()?;
    let id = cursor.take(size)?;
    Ok(SupFields { name, id })
}

/// The name and the id in a `.debug_sup` of version 5 whose second field is `kind`.
#[tactic(auto, unfolding(crate::specs::SupLink::sup_fields))]
fn read_fields(kind: u8, bytes: &[u8]) -> Result<Option<SupFields<'_>>, SupFault>
    ensures { MatchResult result
        (λ found. sup_fields kind bytes.now ≡ Ok (option_map fields_view found)) (λ fault. sup_fields kind bytes.now ≡ Err fault) }
{
    let mut cursor = cursor_over(bytes);
    if !read_front(kind, &mut cursor)? {
        return Ok(None);
    }
    let fields = read_name(&mut cursor)?;
    Ok(Some(fields))
}

/// A link with these parts, if it has a path in UTF-8 and an id.
#[tactic(auto, using(crate::proofs::LinkLemmas::text_path, crate::proofs::LinkLemmas::no_text), unfolding(crate::specs::SupLink::checked))]
fn check_link<'a>(path: &'a [u8], id: &'a [u8], by_build_id: bool) -> Result<SupLink<'a>, SupFault>
    ensures { MatchResult result
        (λ link. checked (record { path = path.now; id = id.now; by_build_id = by_build_id }) ≡ Ok (Some (sup_link_view link)))
        (λ fault. checked (record { path = path.now; id = id.now; by_build_id = by_build_id }) ≡ Err fault) }
{
    if path.is_empty() || id.is_empty() {
        return Err(SupFault::Link);
    }
    match str::from_utf8(path) {
        Ok(path) => Ok(SupLink {
            path,
            id,
            by_build_id,
        }),
        Err(_) => Err(SupFault::Link),
    }
}

/// The bytes that the cursor has not read yet.
#[tactic(auto, unfolding(leb_cursor::specs::Readings::take_at))]
fn rest_of<'a>(mut cursor: Cursor<'a>) -> &'a [u8]
    ensures { result.now ≡ cursor.entry.bytes }
{
    let left = cursor.end() - cursor.at();
    cursor.take(left as u64).unwrap_or(&[])
}

/// The link in the bytes of `.gnu_debugaltlink`.
#[tactic(auto, unfolding(crate::specs::SupLink::link_in_altlink))]
fn read_altlink(bytes: &[u8]) -> Result<SupLink<'_>, SupFault>
    ensures { MatchResult result
        (λ link. link_in_altlink bytes.now ≡ Ok (Some (sup_link_view link))) (λ fault. link_in_altlink bytes.now ≡ Err fault) }
{
    let mut cursor = cursor_over(bytes);
    let path = cursor.text()?;
    check_link(path, rest_of(cursor), true)
}

/// The link in `.debug_sup`.
fn read_debug_sup<'a>(section: LinkSection<'a>) -> Result<Option<SupLink<'a>>, SupFault>
    ensures { MatchResult result
        (λ found. link_in_sup (link_view section.entry) ≡ Ok (option_map sup_link_view found))
        (λ fault. link_in_sup (link_view section.entry) ≡ Err fault) }
{
    let bytes = match section {
        LinkSection::Missing => return Ok(None),
        LinkSection::Unreadable => return Err(SupFault::Link),
        LinkSection::Held(bytes) => bytes,
    };
    match read_fields(LINKS, bytes)? {
        None => Ok(None),
        Some(fields) => Ok(Some(check_link(fields.name, fields.id, false)?)),
    }
}

/// The link of an image to its supplementary file, in `.gnu_debugaltlink` if there is this section,
/// otherwise in `.debug_sup`.
#[tactic(auto, unfolding(crate::specs::SupLink::sup_link))]
pub fn find_sup_link<'a>(image: &Image<'a>) -> Result<Option<SupLink<'a>>, SupFault>
    ensures exact { MatchResult result
        (λ found. sup_link image.now ≡ Ok (option_map sup_link_view found)) (λ fault. sup_link image.now ≡ Err fault) }
{
    if image.section(Sect::Info).bytes.is_empty() {
        return Ok(None);
    }
    match image.altlink() {
        LinkSection::Missing => read_debug_sup(image.debug_sup()),
        LinkSection::Unreadable => Err(SupFault::Link),
        LinkSection::Held(bytes) => Ok(Some(read_altlink(bytes)?)),
    }
}

/// The id in a supplementary file's own `.debug_sup`.
fn own_id<'a>(section: LinkSection<'a>) -> Option<&'a [u8]>
    ensures { option_copied result ≡ own_id (link_view section.entry) }
{
    let LinkSection::Held(bytes) = section else {
        return None;
    };
    match read_fields(IS_SUPPLEMENTARY, bytes) {
        Ok(Some(fields)) => Some(fields.id),
        Ok(None) => None,
        Err(_) => None,
    }
}

/// Whether a file is the supplementary file that a link means, that is, whether it has the id of
/// the link.
#[tactic(auto, unfolding(crate::specs::SupLink::is_of_link))]
pub fn is_linked(link: &SupLink<'_>, sup: &Image<'_>) -> bool
    ensures exact { result ≡ is_of_link (sup_link_view link.now) sup.now }
{
    let id = if link.by_build_id {
        sup.build_id()
    } else {
        own_id(sup.debug_sup())
    };
    match id {
        None => false,
        Some(id) => id == link.id,
    }
}
