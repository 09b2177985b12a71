//! The addresses of code.
ghost use Rattle.std.specs.Prelude.{◌≡◌, ℕ, ◌<◌, ◌^◌, ◌&&◌, ◌||◌, Bool, nat_le, nat_lt, OnOk};
ghost use Rattle.std.specs.List.{list_any};
ghost use Rattle.step_maps.specs.Covers.{AreStretches, reaches};
ghost use Rattle.core_file.specs.Code.{is_executable, has_code, has_page};
ghost use Rattle.core_file.specs.internal.ImageViews.{image_view};

use crate::constants::{PF_X, PT_LOAD};
use crate::images::{Image, page_down, page_up};
use crate::segments::Segment;
use step_maps::Stretch;
use sym_edges::OutOfMemory;

#[tactic(auto, unfolding(crate::specs::Code::is_executable))]
fn is_executable(segment: &Segment) -> bool
    ensures { result ≡ is_executable segment.now }
{
    segment.kind == PT_LOAD && segment.flags & PF_X != 0
}

/// Adds the addresses from `low` up to `high`, without `high`.
#[tactic(auto, using(crate::proofs::CodeLemmas::range_empty, crate::proofs::CodeLemmas::range_past, crate::proofs::CodeLemmas::range_added, crate::proofs::MemoryLemmas::stretches_push))]
fn add_range(code: &mut Vec<Stretch>, low: u128, high: u128) -> Result<(), OutOfMemory>
    requires some { AreStretches code.old.items }
    ensures some { OnOk result (AreStretches code.new.items) }
    ensures added { OnOk result ((a : ℕ) → a < 2 ^ 64 → (rest : Bool) → (list_any (λ s. reaches s a) code.new.items || rest) ≡ (list_any (λ s. reaches s a) code.old.items || ((nat_le low a && nat_lt a high) || rest))) }
{
    if low >= high {
        return Ok(());
    }
    if low >= 1 << 64 {
        return Ok(());
    }
    let last = (high - 1).min(u64::MAX as u128);
    code.push(Stretch {
        first: low as u64,
        last: last as u64,
        index: 0,
        class: 0,
    })?;
    Ok(())
}

/// Adds the addresses of a segment of the core, if they are code.
#[tactic(auto, using(crate::proofs::CodeLemmas::load_other, crate::proofs::CodeLemmas::load_added))]
fn add_load(code: &mut Vec<Stretch>, segment: &Segment) -> Result<(), OutOfMemory>
    requires some { AreStretches code.old.items }
    ensures some { OnOk result (AreStretches code.new.items) }
    ensures added { OnOk result ((a : ℕ) → a < 2 ^ 64 → (rest : Bool) → (list_any (λ s. reaches s a) code.new.items || rest) ≡ (list_any (λ s. reaches s a) code.old.items || (has_code a segment.now || rest))) }
{
    if !is_executable(segment) {
        return Ok(());
    }
    let start = u128::from(segment.address);
    add_range(code, start, start + u128::from(segment.memory_size))
}

/// Adds the code of the segments of the core.
#[tactic(auto, using(crate::proofs::CodeLemmas::code_step, crate::proofs::CodeLemmas::code_end))]
pub fn add_loads(code: &mut Vec<Stretch>, segments: &[Segment]) -> Result<(), OutOfMemory>
    requires some { AreStretches code.old.items }
    ensures some { OnOk result (AreStretches code.new.items) }
    ensures added { OnOk result ((a : ℕ) → a < 2 ^ 64 → list_any (λ s. reaches s a) code.new.items ≡ (list_any (λ s. reaches s a) code.old.items || list_any (has_code a) segments.now)) }
{
    'segments: for k in 0..segments.len() {
        add_load(code, &segments[k])?;
    }
    Ok(())
}

/// Adds the pages of a segment of a file that was loaded, if they are code.
#[tactic(auto, using(crate::proofs::CodeLemmas::page_other, crate::proofs::CodeLemmas::page_none, crate::proofs::CodeLemmas::page_added))]
fn add_segment(
    code: &mut Vec<Stretch>,
    start: u64,
    image: &Image,
    segment: &Segment,
) -> Result<(), OutOfMemory>
    requires some { AreStretches code.old.items }
    ensures some { OnOk result (AreStretches code.new.items) }
    ensures added { OnOk result ((a : ℕ) → a < 2 ^ 64 → (rest : Bool) → (list_any (λ s. reaches s a) code.new.items || rest) ≡ (list_any (λ s. reaches s a) code.old.items || (has_page start (image_view image.now) a segment.now || rest))) }
{
    if !is_executable(segment) {
        return Ok(());
    }
    if segment.memory_size == 0 {
        return Ok(());
    }
    let first = page_down(u128::from(image.first));
    let low = u128::from(start) + u128::from(segment.address);
    let high = page_up(low + u128::from(segment.memory_size));
    add_range(
        code,
        page_down(low).saturating_sub(first),
        high.saturating_sub(first),
    )
}

/// Adds the code of a file that was loaded.
#[tactic(auto, using(crate::proofs::CodeLemmas::code_step, crate::proofs::CodeLemmas::code_end))]
pub fn add_image(code: &mut Vec<Stretch>, start: u64, image: &Image) -> Result<(), OutOfMemory>
    requires some { AreStretches code.old.items }
    ensures some { OnOk result (AreStretches code.new.items) }
    ensures added { OnOk result ((a : ℕ) → a < 2 ^ 64 → list_any (λ s. reaches s a) code.new.items ≡ (list_any (λ s. reaches s a) code.old.items || list_any (has_page start (image_view image.now) a) image.now.headers.items)) }
{
    'headers: for k in 0..image.headers.len() {
        add_segment(code, start, image, &image.headers[k])?;
    }
    Ok(())
}
