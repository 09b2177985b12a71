//! The fields of a record as a list.
ghost use Rattle.std.specs.Prelude.{◌≡◌, ◌<◌, ◌^◌, [], ◌∷◌, ◌++◌, ◌≤◌, map, length, take};
ghost use Rattle.sym_records.specs.Listed.{said};

use crate::field::Field;
use std::marker::Model;

/// The fields of a record, at most five. Contracts see the fields with their values.
#[derive(Drop)]
pub struct FieldList<'a> {
    held: [Field<'a>; 5],
    used: usize,
}

impl<'a> Model for FieldList<'a> {
    ghost use Rattle.std.specs.Prelude.{◌≤◌, List, take, map};
    ghost use Rattle.sym_records.specs.Listed.{Said, said};

    ghost Value = { List Said };

    ghost view = { λ f. map said (take f.used f.held) };

    ghost invariant = { λ f. f.used ≤ 5 };
}

impl<'a> FieldList<'a> {
    pub(crate) fn one(a: Field<'a>) -> FieldList<'a>
        ensures { result ≡ said a.entry ∷ [] }
    {
        FieldList {
            held: [a, a, a, a, a],
            used: 1,
        }
    }

    pub(crate) fn two(a: Field<'a>, b: Field<'a>) -> FieldList<'a>
        ensures { result ≡ said a.entry ∷ said b.entry ∷ [] }
    {
        FieldList {
            held: [a, b, b, b, b],
            used: 2,
        }
    }

    pub(crate) fn three(a: Field<'a>, b: Field<'a>, c: Field<'a>) -> FieldList<'a>
        ensures { result ≡ said a.entry ∷ said b.entry ∷ said c.entry ∷ [] }
    {
        FieldList {
            held: [a, b, c, c, c],
            used: 3,
        }
    }

    pub(crate) fn four(a: Field<'a>, b: Field<'a>, c: Field<'a>, d: Field<'a>) -> FieldList<'a>
        ensures { result ≡ said a.entry ∷ said b.entry ∷ said c.entry ∷ said d.entry ∷ [] }
    {
        FieldList {
            held: [a, b, c, d, d],
            used: 4,
        }
    }

    pub(crate) fn five(
        a: Field<'a>,
        b: Field<'a>,
        c: Field<'a>,
        d: Field<'a>,
        e: Field<'a>,
    ) -> FieldList<'a>
        ensures { result ≡ said a.entry ∷ said b.entry ∷ said c.entry ∷ said d.entry ∷ said e.entry ∷ [] }
    {
        FieldList {
            held: [a, b, c, d, e],
            used: 5,
        }
    }

    /// The fields, in the order of the line.
    pub fn as_slice(&self) -> &[Field<'a>]
        ensures { map said result.now ≡ self.now }
    {
        &self.held[..self.used]
    }
}
