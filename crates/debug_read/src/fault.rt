//! Why the debugging information of a file is refused.
ghost use Rattle.std.specs.Prelude.{◌≡◌};
ghost use Rattle.debug_read.specs.internal.Stops.{dwarf_stop, sup_stop, frame_stop};

use abbrev_units::DwarfFault;
use frame_entries::FrameFault;
use sym_edges::Stop;

#[derive(Clone, Copy, PartialEq, Eq, Debug)]
pub enum DebugFault {
    /// In `.debug_info`, or in a section to which it leads.
    Dwarf(DwarfFault),

    /// In one of these sections of the supplementary file (DWARF 5, 7.3.6).
    Sup(DwarfFault),

    /// In `.eh_frame` or `.debug_frame`.
    Frame(FrameFault),
}

/// A fault of debugging information, as a fault of the file.
pub fn dwarf_stop(stop: Stop<DwarfFault>) -> Stop<DebugFault>
    ensures { result ≡ dwarf_stop stop }
{
    match stop {
        Stop::Fault(fault) => Stop::Fault(DebugFault::Dwarf(fault)),
        Stop::NoMemory => Stop::NoMemory,
    }
}

/// A fault of the supplementary file's debugging information, as a fault of the file.
pub fn sup_stop(stop: Stop<DwarfFault>) -> Stop<DebugFault>
    ensures { result ≡ sup_stop stop }
{
    match stop {
        Stop::Fault(fault) => Stop::Fault(DebugFault::Sup(fault)),
        Stop::NoMemory => Stop::NoMemory,
    }
}

/// A fault of a frame section, as a fault of the file.
pub fn frame_stop(stop: Stop<FrameFault>) -> Stop<DebugFault>
    ensures { result ≡ frame_stop stop }
{
    match stop {
        Stop::Fault(fault) => Stop::Fault(DebugFault::Frame(fault)),
        Stop::NoMemory => Stop::NoMemory,
    }
}
