//! The length of a record's line.
ghost use Rattle.std.specs.Prelude.{◌≡◌, ◌<◌, ◌-◌, ◌^◌, ◌+◌, length, nat_le, min};
ghost use Rattle.std.specs.List.{flat_map};
ghost use Rattle.sym_records.specs.Canon.{body};
ghost use Rattle.sym_records.specs.Fields.{spelled_range};
ghost use Rattle.sym_records.specs.Listed.{said, spelled_field};

use crate::digits::HexText;
use crate::field::Field;
use crate::line::{Extent, SymLine};
use crate::table::{fields_of, headed, keyword_of};
use itoa::Buffer;
use sym_rules::rules_length;

fn word_length(word: &[u8]) -> usize
    ensures { result ≡ min (length word.now + 1) (2 ^ 64 - 1) }
{
    word.len().saturating_add(1)
}

#[tactic(auto, using(crate::proofs::LengthLemmas::range_length), unfolding(crate::specs::Fields::spelled_range))]
fn range_length(range: Extent) -> usize
    ensures { result ≡ min (length (spelled_range range)) (2 ^ 64 - 1) }
{
    let address = HexText::of(range.address);
    let size = HexText::of(range.size);
    word_length(address.as_slice()).saturating_add(word_length(size.as_slice()))
}

#[tactic(auto, using(sym_rules::proofs::LengthLemmas::pieces_length, sym_rules::proofs::LengthLemmas::pieces_whole))]
fn ranges_length(ranges: &[Extent]) -> usize
    ensures { result ≡ min (length (flat_map spelled_range ranges.now)) (2 ^ 64 - 1) }
{
    let mut total = 0_usize;
    for range in ranges {
        total = total.saturating_add(range_length(*range));
    }
    total
}

#[tactic(auto, using(crate::proofs::LengthLemmas::word_said, crate::proofs::LengthLemmas::marked_said))]
fn field_length(field: Field<'_>) -> usize
    ensures { result ≡ min (length (spelled_field (said field.entry))) (2 ^ 64 - 1) }
{
    match field {
        Field::Word(w) => word_length(w),
        Field::Name(n) => word_length(n),
        Field::Hex(n) => {
            let digits = HexText::of(n);
            word_length(digits.as_slice())
        }
        Field::Marked(many, n) => {
            let digits = HexText::of(n);
            let mark: usize = if many { 2 } else { 0 };
            word_length(digits.as_slice()).saturating_add(mark)
        }
        Field::Decimal(n) => {
            let mut buffer = Buffer::new();
            word_length(buffer.format(n).as_bytes())
        }
        Field::Ranges(rs) => ranges_length(rs),
        Field::Rules(rs) => rules_length(rs),
    }
}

#[tactic(auto, using(sym_rules::proofs::LengthLemmas::pieces_length, sym_rules::proofs::LengthLemmas::pieces_whole))]
fn fields_length(fields: &[Field<'_>]) -> usize
    ensures { result ≡ min (length (flat_map (λ f. spelled_field (said f)) fields.now)) (2 ^ 64 - 1) }
{
    let mut total = 0_usize;
    for field in fields {
        total = total.saturating_add(field_length(*field));
    }
    total
}

/// Whether the record's line has at most `limit` bytes without its LF.
pub(crate) fn is_short(limit: usize, line: &SymLine) -> bool
    requires { limit < 2 ^ 63 }
    ensures { result ≡ nat_le (length (body line.now)) limit }
{
    let list = fields_of(line);
    let words = headed(keyword_of(line));
    let whole = fields_length(list.as_slice()).saturating_add(words.len());
    whole <= limit + 1
}
