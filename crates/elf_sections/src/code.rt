//! The addresses that are code: those of sections with the flags ALLOC and EXECINSTR.
ghost use Rattle.std.specs.Prelude.{◌≡◌, IfOk};
ghost use Rattle.std.specs.List.{filter_map};
ghost use Rattle.range_set.specs.Starts.{AllFrom};
ghost use Rattle.elf_sections.specs.Programs.{code_range, is_code, is_in_code};

use crate::constants::{SHF_ALLOC, SHF_EXECINSTR};
use crate::section::SectionHeader;
use range_set::RangeSet;
use std::alloc::{AllocError, Global};
use sym_edges::Span;

#[tactic(auto, unfolding(crate::specs::Programs::is_code))]
fn is_code_section(base: u64, section: &SectionHeader) -> bool
    ensures { result ≡ is_code base section.now }
{
    (section.flags & SHF_ALLOC != 0 && section.flags & SHF_EXECINSTR != 0)
        && (section.size > 0
            && (base <= section.address && section.size <= u64::MAX - section.address))
}

/// The addresses of a section, if it is code.
#[tactic(auto, unfolding(crate::specs::Programs::code_range, crate::specs::Programs::is_code))]
fn span_of(base: u64, section: &SectionHeader) -> Option<Span>
    ensures { result ≡ code_range base section.now }
{
    if is_code_section(base, section) {
        Some(Span::new(section.address, section.address + section.size))
    } else {
        None
    }
}

fn collect_code(
    alloc: Global,
    base: u64,
    sections: &[SectionHeader],
) -> Result<Vec<Span>, AllocError>
    ensures { IfOk result (λ v. v.items ≡ filter_map (code_range base) sections.now) }
{
    sections
        .iter()
        .filter_map(|section| span_of(base, section))
        .collect(alloc)
}

/// The addresses of code, in the order of the sections. None starts below the base.
#[tactic(auto, using(crate::proofs::CodeLemmas::code_above))]
pub fn read_code(
    alloc: Global,
    base: u64,
    sections: &[SectionHeader],
) -> Result<Vec<Span>, AllocError>
    ensures ranges { IfOk result (λ v. v.items ≡ filter_map (code_range base) sections.now) }
    ensures above { IfOk result (λ v. AllFrom base v.items) }
{
    let spans = collect_code(alloc, base, sections)?;
    Ok(spans)
}

/// Whether an address lies in code, by a binary search.
#[tactic(auto, using(crate::proofs::CodeLemmas::in_code))]
pub fn holds_code(code: &RangeSet, address: u64) -> bool
    ensures { result ≡ is_in_code code.now address }
{
    code.has(address)
}
