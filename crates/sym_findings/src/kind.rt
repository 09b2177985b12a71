//! The kinds of findings.
use sym_edges::ListOf;

/// What a checker finds at a record, in the order of the kinds' numbers.
#[derive(Clone, Copy, Debug, PartialEq, Eq)]
pub enum FindingKind {
    /// C1: the number of a `FILE` or an `INLINE_ORIGIN` was given before with the same keyword.
    GivenAgain,
    /// C2: a line record or an `INLINE` refers to a `FILE` that is not among the records.
    NoFile,
    /// C3: an `INLINE` refers to an `INLINE_ORIGIN` that is not among the records.
    NoOrigin,
    /// C4: a `FUNC`, a line record, a range of an `INLINE` or a `STACK CFI INIT` has size 0, or an end above 2^64 - 1.
    BadSize,
    /// C5: a `FUNC` overlaps an earlier `FUNC`.
    FuncMeets,
    /// C6: a line record or a range of an `INLINE` reaches outside of its `FUNC`.
    LeavesFunc,
    /// C7: a line record overlaps an earlier line record of its `FUNC`.
    LineMeets,
    /// C8: a `STACK CFI INIT` overlaps an earlier one.
    InitMeets,
    /// C9: a `STACK CFI` is outside its `STACK CFI INIT`, or not above the address of the record before it.
    ChangeOutside,
}

impl FindingKind {
    ghost use Rattle.std.specs.Prelude.{◌≡◌};
    ghost use Rattle.sym_findings.specs.FindingWords.{kind_number, kind_word};

    /// The number of the kind, from 1 to 9.
    pub fn number(self) -> u8
        ensures { result ≡ kind_number self }
    {
        match self {
            FindingKind::GivenAgain => 1,
            FindingKind::NoFile => 2,
            FindingKind::NoOrigin => 3,
            FindingKind::BadSize => 4,
            FindingKind::FuncMeets => 5,
            FindingKind::LeavesFunc => 6,
            FindingKind::LineMeets => 7,
            FindingKind::InitMeets => 8,
            FindingKind::ChangeOutside => 9,
        }
    }

    /// The kind as it is printed: `C` and its number.
    pub fn word(self) -> &'static [u8]
        ensures { result.now ≡ kind_word self }
    {
        match self {
            FindingKind::GivenAgain => b"C1",
            FindingKind::NoFile => b"C2",
            FindingKind::NoOrigin => b"C3",
            FindingKind::BadSize => b"C4",
            FindingKind::FuncMeets => b"C5",
            FindingKind::LeavesFunc => b"C6",
            FindingKind::LineMeets => b"C7",
            FindingKind::InitMeets => b"C8",
            FindingKind::ChangeOutside => b"C9",
        }
    }
}

/// A finding: its kind, and the index of the record, counted from 0.
#[derive(Clone, Copy, Debug, PartialEq, Eq)]
pub struct Finding {
    pub kind: FindingKind,
    pub index: usize,
}

/// Findings, ordered by record and then by kind.
pub type FindingList = ListOf<Finding>;
