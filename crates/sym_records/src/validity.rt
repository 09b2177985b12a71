//! Which records a text can spell.
ghost use Rattle.std.specs.Prelude.{◌≡◌, ◌^◌, ◌↔◌, IsTrue};
ghost use Rattle.std.specs.List.{list_all};
ghost use Rattle.sym_records.specs.Fields.{is_range, are_ranges};
ghost use Rattle.sym_records.specs.Listed.{said, fits_field};
ghost use Rattle.sym_records.specs.Validity.{has_fields, fields_fit, IsValid};

use crate::field::Field;
use crate::fields::{is_field, is_name};
use crate::lengths::is_short;
use crate::line::{Extent, SymLine};
use crate::table::fields_of;
use sym_rules::are_rules;

/// The greatest number of bytes of a line without its LF.
const LINE_LIMIT: usize = 1 << 20;

fn is_range(range: Extent) -> bool
    ensures { result ≡ is_range range }
{
    let _numbers = (range.address, range.size);
    true
}

fn are_all_ranges(ranges: &[Extent]) -> bool
    ensures { result ≡ list_all is_range ranges.now }
{
    ranges.iter().all(|range| is_range(*range))
}

#[tactic(auto, unfolding(crate::specs::Fields::are_ranges))]
fn are_ranges(ranges: &[Extent]) -> bool
    ensures { result ≡ are_ranges ranges.now }
{
    !ranges.is_empty() && are_all_ranges(ranges)
}

/// Whether a line can carry the field.
fn fits_field(field: Field<'_>) -> bool
    ensures { result ≡ fits_field (said field.entry) }
{
    match field {
        Field::Word(word) => is_field(word),
        Field::Name(name) => is_name(name),
        Field::Hex(_number) => true,
        Field::Marked(_many, _number) => true,
        Field::Decimal(_number) => true,
        Field::Ranges(ranges) => are_ranges(ranges),
        Field::Rules(rules) => are_rules(rules),
    }
}

fn fit(fields: &[Field<'_>]) -> bool
    ensures { result ≡ list_all (λ f. fits_field (said f)) fields.now }
{
    fields.iter().all(|field| fits_field(*field))
}

/// Whether a line can carry each field of the record.
fn has_fields(line: &SymLine) -> bool
    ensures { result ≡ has_fields line.now }
{
    let list = fields_of(line);
    fit(list.as_slice())
}

/// Whether a record passes the test of its fields and its length.
#[tactic(auto, unfolding(crate::specs::Validity::fields_fit))]
fn fields_fit(line: &SymLine) -> bool
    ensures { result ≡ fields_fit line.now }
{
    has_fields(line) && is_short(LINE_LIMIT, line)
}

/// Whether a text can spell the record. Allocates no memory.
pub fn is_valid(line: &SymLine) -> bool
    ensures fits { result ≡ fields_fit line.now }
    ensures valid { IsTrue result ↔ IsValid line.now }
{
    fields_fit(line)
}
