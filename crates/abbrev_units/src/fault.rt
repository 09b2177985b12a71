//! Why debugging information is refused.
ghost use Rattle.std.specs.Prelude.{◌≡◌};
ghost use Rattle.abbrev_units.specs.declared.fault.FormFault.TheVariants as form;
ghost use Rattle.abbrev_units.specs.declared.fault.HeaderFault.TheVariants as header;
ghost use Rattle.abbrev_units.specs.Faults.{in_section, header_fault};

use leb_cursor::CursorFault;
use sym_edges::{Located, Sect};

/// What is wrong at a place of a debugging section.
#[derive(Clone, Copy, PartialEq, Eq, Debug)]
pub enum DwarfKind {
    /// The bytes end too early, or a length leaves its section.
    Ends,

    /// A LEB128 has more than ten bytes, or its value does not fit into its type.
    LebLong,

    /// A text is not terminated by a zero byte.
    NoZero,

    /// The length of a unit or of a line table is a reserved value.
    Reserved,

    /// The addresses of a unit do not have eight bytes.
    AddressSize,

    /// The standard does not have the type of a unit.
    UnitType,

    /// The form of a value is unknown.
    UnknownForm,

    /// There is no abbreviation with an entry's code.
    NoAbbrev,

    /// A place is outside of its section.
    OffsetOutside,

    /// A value is given by index, and the base for it is missing.
    NoBase,

    /// The standard does not have the kind of a range list's item.
    RangeKind,

    /// The version of a line table is not 2 to 5.
    LineVersion,

    /// A field of a line table's header has an impossible value.
    LineHeader,

    /// The length of an extended opcode is impossible.
    LineOpcode,
}

impl DwarfKind {
    ghost use Rattle.abbrev_units.specs.FaultWords.{dwarf_word};

    /// The word that is printed for the kind.
    pub fn word(self) -> &'static [u8]
        ensures { result.now ≡ dwarf_word self }
    {
        match self {
            DwarfKind::Ends => b"ends",
            DwarfKind::LebLong => b"leb-long",
            DwarfKind::NoZero => b"no-zero",
            DwarfKind::Reserved => b"reserved",
            DwarfKind::AddressSize => b"address-size",
            DwarfKind::UnitType => b"unit-type",
            DwarfKind::UnknownForm => b"unknown-form",
            DwarfKind::NoAbbrev => b"no-abbrev",
            DwarfKind::OffsetOutside => b"offset-outside",
            DwarfKind::NoBase => b"no-base",
            DwarfKind::RangeKind => b"range-kind",
            DwarfKind::LineVersion => b"line-version",
            DwarfKind::LineHeader => b"line-header",
            DwarfKind::LineOpcode => b"line-opcode",
        }
    }
}

/// A fault of debugging information, at a place of a section.
pub type DwarfFault = Located<DwarfKind>;

/// Why a value cannot be read.
#[derive(Clone, Copy, PartialEq, Eq, Debug)]
pub enum FormFault {
    Cursor(CursorFault),

    /// The form is unknown: `at` is the place where the value would begin.
    Unknown { at: usize },
}

impl From<CursorFault> for FormFault {
    ghost from_gives = { λ fault gives. gives ≡ form.Cursor fault };

    fn from(fault: CursorFault) -> FormFault {
        FormFault::Cursor(fault)
    }
}

/// Why a header is refused. If a field is cut off, the fault is at the field. If a value is
/// refused, it is at the start of the header.
#[derive(Clone, Copy, PartialEq, Eq, Debug)]
pub enum HeaderFault {
    Cursor(CursorFault),
    Start(DwarfKind),
}

impl From<CursorFault> for HeaderFault {
    ghost from_gives = { λ fault gives. gives ≡ header.Cursor fault };

    fn from(fault: CursorFault) -> HeaderFault {
        HeaderFault::Cursor(fault)
    }
}

/// The fault of a reading in a section.
#[inline]
#[tactic(auto, unfolding(crate::specs::Faults::in_section))]
pub fn in_section(section: Sect, fault: CursorFault) -> DwarfFault
    ensures { result ≡ in_section section fault }
{
    let (kind, at) = match fault {
        CursorFault::Ends { at } => (DwarfKind::Ends, at),
        CursorFault::LebLong { at } => (DwarfKind::LebLong, at),
        CursorFault::NoZero { at } => (DwarfKind::NoZero, at),
    };
    Located { kind, section, at }
}

/// The fault of a header that starts at `start`.
#[inline]
#[tactic(auto, unfolding(crate::specs::Faults::header_fault))]
pub fn header_fault(section: Sect, start: usize, fault: HeaderFault) -> DwarfFault
    ensures { result ≡ header_fault section start fault }
{
    match fault {
        HeaderFault::Cursor(fault) => in_section(section, fault),
        HeaderFault::Start(kind) => Located {
            kind,
            section,
            at: start,
        },
    }
}
