//! The pages of modules at which the first pages of their own files were mapped.
ghost use Rattle.std.specs.Prelude.{◌≡◌, ℕ, ◌<◌, ◌^◌, ◌&&◌, ◌||◌, nat_le, nat_lt, Bool, OnOk};
ghost use Rattle.std.specs.List.{list_any};
ghost use Rattle.std.specs.Ordering.{nat_cmp};
ghost use Rattle.std.specs.BTreeSet.{contains};
ghost use Rattle.core_file.specs.Modules.{first_page_of, is_page};
ghost use Rattle.core_file.specs.internal.ImageViews.{image_view};

use crate::constants::{PAGE, PT_LOAD};
use crate::images::{Image, page_down};
use crate::segments::Segment;
use std::collections::BTreeSet;
use sym_edges::OutOfMemory;

/// The page at which a loaded segment begins, if the segment has the first page of the file.
#[tactic(auto, unfolding(crate::specs::Modules::first_page_of))]
fn first_page(start: u64, image: &Image, segment: &Segment) -> Option<u128>
    ensures { result ≡ first_page_of start (image_view image.now) segment.now }
{
    if segment.kind != PT_LOAD || segment.offset >= PAGE {
        return None;
    }
    match image.place(start, segment) {
        None => None,
        Some(place) => Some(page_down(place)),
    }
}

/// Adds a page, if its address lies from `start` up to `end`, without `end`.
#[tactic(auto, using(crate::proofs::PageLemmas::page_added, crate::proofs::PageLemmas::page_below, crate::proofs::PageLemmas::page_above))]
fn add_page(
    pages: &mut BTreeSet<u64>,
    start: u64,
    end: u64,
    page: Option<u128>,
) -> Result<(), OutOfMemory>
    ensures { OnOk result ((a : ℕ) → (rest : Bool) → (contains nat_cmp pages.new a || (nat_le start a && nat_lt a end && rest)) ≡ (contains nat_cmp pages.old a || (nat_le start a && nat_lt a end && (is_page a page || rest)))) }
{
    let Some(at) = page else {
        return Ok(());
    };
    if at < u128::from(start) {
        return Ok(());
    }
    if at >= u128::from(end) {
        return Ok(());
    }
    pages.insert(at as u64)?;
    Ok(())
}

/// Adds the pages that have the first page of a loaded file, if they lie in its module.
#[tactic(auto, using(crate::proofs::PageLemmas::pages_step, crate::proofs::PageLemmas::pages_end))]
pub fn add_pages(
    pages: &mut BTreeSet<u64>,
    start: u64,
    end: u64,
    image: &Image,
) -> Result<(), OutOfMemory>
    ensures { OnOk result ((a : ℕ) → contains nat_cmp pages.new a ≡ (contains nat_cmp pages.old a || (nat_le start a && nat_lt a end && list_any (λ s. is_page a (first_page_of start (image_view image.now) s)) image.now.headers.items))) }
{
    'headers: for k in 0..image.headers.len() {
        let page = first_page(start, image, &image.headers[k]);
        add_page(pages, start, end, page)?;
    }
    Ok(())
}
