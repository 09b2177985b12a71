//! Spells the records of inlined copies.
ghost use Rattle.std.specs.Prelude.{◌≡◌, ◌++◌, ◌<◌, ◌≤◌, true, length, map, unwrap_or, IfOk, OnOk};
ghost use Rattle.std.specs.List.{list_all, slice_get};
ghost use Rattle.sym_records.specs.Canon.{canon, canon_text};
ghost use Rattle.sym_records.specs.Fields.{is_range};
ghost use Rattle.sym_records.specs.Validity.{fields_fit};
ghost use Rattle.func_records.specs.FuncRecords.{extent};
ghost use Rattle.func_records.specs.internal.Origins.{name_number, copy_numbers};
ghost use Rattle.func_records.specs.internal.Parts.{file_by, inline_by, AreShort};
ghost use Rattle.func_records.specs.internal.Spelling.{row_of};
ghost use Rattle.die_names.specs.Names.{entry_name};

use crate::calls::call_site;
use crate::numbers::Numbers;
use crate::writer::FuncWriter;
use inline_chain::InlineRun;
use sym_edges::{OutOfMemory, Span};
use sym_records::laws::records_of_functions_fit;
use sym_records::{Extent, add_inline};

/// A span, less the base.
fn extent_of(base: u64, span: Span) -> Extent
    ensures extent { result ≡ extent base span }
    ensures fit { is_range result ≡ true }
{
    Extent {
        address: span.start().saturating_sub(base),
        size: span.end().saturating_sub(span.start()),
    }
}

/// Sets `ranges` to the spans, less the base.
fn fill_ranges(base: u64, spans: &[Span], ranges: &mut Vec<Extent>) -> Result<(), OutOfMemory>
    ensures filled { OnOk result (ranges.new.items ≡ map (extent base) spans.now) }
    ensures fit { OnOk result (list_all is_range ranges.new.items ≡ true) }
{
    ranges.clear();
    let mut rest = spans;
    'spans: while let Some((span, later)) = rest.split_first() {
        ranges.push(extent_of(base, *span))?;
        rest = later;
    }
    Ok(())
}

/// The FILE number of a call's path.
fn file_number(numbers: Numbers<'_, '_>, unit: u32, path: Option<u32>) -> Result<u32, OutOfMemory>
    ensures { IfOk result (λ number. number ≡ file_by (row_of numbers.entry.rows.now unit) numbers.entry.omitted path) }
{
    match path {
        Some(path) => {
            let one = numbers.rows.number(unit, path)?;
            Ok(one.number)
        }
        None => Ok(numbers.omitted),
    }
}

/// Adds the record of an inlined copy. The memory of `ranges` is reused; what it holds does not matter.
fn add_copy(
    writer: &FuncWriter<'_, '_, '_>,
    unit: u32,
    copy: &InlineRun,
    origin: u32,
    ranges: &mut Vec<Extent>,
    text: &mut Vec<u8>,
) -> Result<(), OutOfMemory>
    requires numbered { origin ≡ name_number writer.now.numbers writer.now.units.now (entry_name writer.now.units.now unit copy.now.entry) }
    requires some { 0 < length copy.now.spans }
    requires short { length copy.now.spans ≤ 16384 }
    ensures text { OnOk result (text.new.items ≡ text.old.items ++ canon (inline_by writer.now.base writer.now.numbers writer.now.units.now unit copy.now)) }
    ensures fit { OnOk result (fields_fit (inline_by writer.now.base writer.now.numbers writer.now.units.now unit copy.now) ≡ true) }
{
    records_of_functions_fit();
    let site = call_site(writer.units, unit, copy.entry);
    let file = file_number(writer.numbers, unit, site.path)?;
    fill_ranges(writer.base, copy.spans.spans(), ranges)?;
    add_inline(text, copy.level, site.line, file, origin, ranges.as_slice())
}

/// Adds the records of a piece's inlined copies, each with the number of its name.
pub fn add_copies(
    writer: &FuncWriter<'_, '_, '_>,
    unit: u32,
    copies: &[InlineRun],
    origins: &[u32],
    ranges: &mut Vec<Extent>,
    text: &mut Vec<u8>,
) -> Result<(), OutOfMemory>
    requires numbered { origins.now ≡ copy_numbers writer.now.numbers writer.now.units.now unit copies.now }
    requires short { AreShort copies.now }
    ensures text { OnOk result (text.new.items ≡ text.old.items ++ canon_text (map (inline_by writer.now.base writer.now.numbers writer.now.units.now unit) copies.now)) }
    ensures fit { OnOk result (list_all fields_fit (map (inline_by writer.now.base writer.now.numbers writer.now.units.now unit) copies.now) ≡ true) }
{
    'copies: for place in 0..copies.len() {
        add_copy(writer, unit, &copies[place], origins[place], ranges, text)?;
    }
    Ok(())
}
