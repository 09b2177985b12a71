//! Whether a file is a copy of another one, record for record: such files say the same, and nothing more is computed for them.
ghost use Rattle.std.specs.Prelude.{◌≡◌, map};
ghost use Rattle.std.specs.Bool.{OnTrue};
ghost use Rattle.sym_records.specs.Listed.{said};

use crate::blocks::{are_same_extents, are_same_rule_texts};
use sym_records::{Field, SymLine, fields_of, keyword_of};

/// Whether two fields say the same.
fn is_same_field(a: &Field<'_>, b: &Field<'_>) -> bool
    ensures { OnTrue result (said a.now ≡ said b.now) }
{
    match (a, b) {
        (Field::Word(a), Field::Word(b)) | (Field::Name(a), Field::Name(b)) => *a == *b,
        (Field::Hex(a), Field::Hex(b)) => *a == *b,
        (Field::Marked(mine, a), Field::Marked(theirs, b)) => *mine == *theirs && *a == *b,
        (Field::Decimal(a), Field::Decimal(b)) => *a == *b,
        (Field::Ranges(a), Field::Ranges(b)) => are_same_extents(a, b),
        (Field::Rules(a), Field::Rules(b)) => are_same_rule_texts(a, b),
        _ => false,
    }
}

/// Whether two lists of fields say the same.
fn are_same_fields(a: &[Field<'_>], b: &[Field<'_>]) -> bool
    ensures { OnTrue result (map said a.now ≡ map said b.now) }
{
    if a.len() != b.len() {
        return false;
    }
    'fields: for i in 0..a.len() {
        if !is_same_field(&a[i], &b[i]) {
            return false;
        }
    }
    true
}

/// Whether two records have the same keyword and the same fields.
#[tactic(auto, using(crate::proofs::CopyLemmas::same_records))]
fn is_copy(a: &SymLine, b: &SymLine) -> bool
    ensures { OnTrue result (a.now ≡ b.now) }
{
    keyword_of(a) == keyword_of(b)
        && are_same_fields(fields_of(a).as_slice(), fields_of(b).as_slice())
}

/// Whether two lists have the same records.
pub(crate) fn are_copies(a: &[SymLine], b: &[SymLine]) -> bool
    ensures { OnTrue result (a.now ≡ b.now) }
{
    let mut front = a;
    let mut back = b;
    'records: while let Some((x, xs)) = front.split_first() {
        let Some((y, ys)) = back.split_first() else {
            return false;
        };
        if !is_copy(x, y) {
            return false;
        }
        front = xs;
        back = ys;
    }
    back.is_empty()
}
