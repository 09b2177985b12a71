//! Faults inside a line table.
ghost use Rattle.std.specs.Prelude.{◌≡◌};
ghost use Rattle.sym_edges.specs.declared.part.Sect.TheVariants.{Line};
ghost use Rattle.abbrev_units.specs.Faults.{in_section, header_fault};
ghost use Rattle.line_program.specs.Faults.{fault_at, value_fault};

use abbrev_units::{DwarfFault, DwarfKind, FormFault, HeaderFault, header_fault, in_section};
use leb_cursor::CursorFault;
use std::marker::Model;
use sym_edges::{Located, OutOfMemory, Sect};

/// A fault at a place of `.debug_line`.
#[derive(Debug, Drop)]
pub struct LineFault {
    fault: DwarfFault,
}

/// What was read, or the fault of the reading; or out of memory.
pub type Reading<T> = Result<Result<T, LineFault>, OutOfMemory>;

impl Model for LineFault {
    ghost use Rattle.sym_edges.specs.declared.located.Located.{Located};
    ghost use Rattle.abbrev_units.specs.declared.fault.DwarfKind.{DwarfKind};

    ghost Value = { Located DwarfKind };

    ghost view = { λ f. f.fault };
}

impl LineFault {
    #[inline]
    pub fn at(kind: DwarfKind, at: usize) -> LineFault
        ensures { result ≡ fault_at kind at }
    {
        LineFault {
            fault: Located {
                kind,
                section: Sect::Line,
                at,
            },
        }
    }

    /// The fault of a header that starts at `start`.
    pub fn of_header(start: usize, fault: HeaderFault) -> LineFault
        ensures { result ≡ header_fault Line start fault }
    {
        LineFault {
            fault: header_fault(Sect::Line, start, fault),
        }
    }

    #[inline]
    pub fn into_fault(self) -> DwarfFault
        ensures { result ≡ self }
    {
        self.fault
    }
}

impl From<CursorFault> for LineFault {
    ghost from_gives = { λ fault line. line ≡ in_section Line fault };

    fn from(fault: CursorFault) -> LineFault {
        LineFault {
            fault: in_section(Sect::Line, fault),
        }
    }
}

impl From<FormFault> for LineFault {
    ghost from_gives = { λ fault line. line ≡ value_fault fault };

    fn from(fault: FormFault) -> LineFault {
        match fault {
            FormFault::Cursor(fault) => LineFault {
                fault: in_section(Sect::Line, fault),
            },
            FormFault::Unknown { at } => LineFault::at(DwarfKind::UnknownForm, at),
        }
    }
}
