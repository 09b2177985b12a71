//! The units that are read, each by a worker, and joined in their order.
ghost use Rattle.std.specs.Prelude.{◌≡◌, [], ◌++◌, OnOk, IfOk, ◌≤◌, ◌^◌, length, List, slice_get, Err, Ok};
ghost use Rattle.abbrev_units.specs.UnitPlaces.{IsInside, with_read, read_units};
ghost use Rattle.sym_edges.specs.Addresses.{Range};
ghost use Rattle.sym_edges.specs.Outside.{MatchStop};
ghost use Rattle.line_program.specs.LineMaps.{EncloseAlike};
ghost use Rattle.debug_read.specs.Each.{Says, each_of, Match};
ghost use Rattle.debug_read.specs.UnitSays.{unit_says};
ghost use Rattle.debug_units.specs.UnitEntries.{AreRead};
ghost use Rattle.debug_read.specs.DebugSays.{file_says, both_says};
ghost use Rattle.debug_read.specs.internal.Files.{IsFileRead, IsBothRead};
ghost use Rattle.debug_read.specs.UnitsRead.{IsUnitRead};
ghost use Rattle.debug_read.specs.internal.Jobs.{IsReader};
ghost use Rattle.debug_read.specs.internal.Sharing.{IsRead};
ghost use Rattle.abbrev_units.specs.Abbreviations.{abbrevs_of};
ghost use Rattle.debug_read.specs.internal.Owing.{HoldsUnit, IsOwing, ReaderGives};
ghost use Rattle.abbrev_units.specs.Units.{units_in};

use crate::fault::{DebugFault, dwarf_stop, sup_stop};
use crate::lines::has_function;
use crate::ranges::read_pairs;
use crate::sections::{sections_of, sup_sections_of};
use crate::shared_abbrevs::{SharedAbbrevs, read_shared, unit_at};
use crate::unit_tables::{UnitFound, settle_units};
use abbrev_units::{AbbrevScratch, Abbrevs, DwarfFault, Sections, Unit, UnitList, UnitPart, units};
use debug_units::{UnitRead, Units};
use die_walk::walk;
use elf_sections::Image;
use range_lists::laws::code_by_what_it_encloses;
use range_set::Enclosing;
use std::alloc::Global;
use std::marker::Model;
use std::thread::Threads;
use sym_edges::{FILE_LIMIT, OutOfMemory, Span, Stop};
use unit_workers::{Crew, Gate, NoGate, UnitJob};

/// Adds a unit that is read.
fn add_read(read: &mut Vec<Unit>, unit: &Unit) -> Result<(), OutOfMemory>
    ensures { OnOk result (read.new.items ≡ read.old.items ++ with_read unit.now unit.now.part []) }
{
    match unit.part {
        UnitPart::Read => read.push(*unit)?,
        UnitPart::Passed | UnitPart::Skipped => {}
    }
    Ok(())
}

/// The units that are read, in their order.
fn pick_read(alloc: Global, units: &[Unit]) -> Result<Vec<Unit>, OutOfMemory>
    ensures { IfOk result (λ read. read.items ≡ read_units units.now) }
{
    let mut read = Vec::new(alloc);
    'units: for unit in units {
        add_read(&mut read, unit)?;
    }
    Ok(read)
}

/// Reads the entries of a unit and their addresses, given its abbreviations. Its line table is not
/// read.
#[tactic(auto, unfolding(crate::specs::UnitSays::unit_says))]
fn read_entries<'a>(
    alloc: Global,
    sections: &Sections<'a>,
    unit: &Unit,
    code: &Enclosing,
    abbrevs: &Abbrevs,
) -> Result<UnitFound<'a>, Stop<DwarfFault>>
    requires inside { IsInside (length sections.now.info) unit.now }
    requires small { length sections.now.info ≤ 2 ^ 29 }
    requires abbrevs { abbrevs_of sections.now unit.now ≡ Ok abbrevs.now }
    ensures { MatchStop result
        (λ found. (spans : List Range) → EncloseAlike code.now spans → HoldsUnit spans sections.now unit.now found)
        (λ fault. unit_says sections.now unit.now ≡ Err fault)
        (Prim.Unit {0}) }
{
    code_by_what_it_encloses();
    let die = match walk(alloc, sections, unit, abbrevs) {
        Ok(die) => die,
        Err(stop) => return Err(stop),
    };
    let spans = match read_pairs(alloc, sections, unit, &die, code) {
        Ok(spans) => spans,
        Err(stop) => return Err(stop),
    };
    let function = has_function(die.dies());
    Ok(UnitFound {
        die,
        spans,
        function,
    })
}

/// Reads a unit whose abbreviations no other unit names; they replace those that were read before.
#[tactic(auto, unfolding(crate::specs::UnitSays::unit_says))]
fn read_alone<'a>(
    alloc: Global,
    sections: &Sections<'a>,
    unit: &Unit,
    code: &Enclosing,
    scratch: &mut AbbrevScratch,
) -> Result<UnitFound<'a>, Stop<DwarfFault>>
    requires inside { IsInside (length sections.now.info) unit.now }
    requires small { length sections.now.info ≤ 2 ^ 29 }
    ensures { MatchStop result
        (λ found. (spans : List Range) → EncloseAlike code.now spans → HoldsUnit spans sections.now unit.now found)
        (λ fault. unit_says sections.now unit.now ≡ Err fault)
        (Prim.Unit {0}) }
{
    match scratch.read(alloc, sections, unit) {
        Ok(()) => read_entries(alloc, sections, unit, code, scratch.abbrevs()),
        Err(stop) => Err(stop),
    }
}

/// Reads unit `k`: its abbreviations, if they are not among the shared ones, and then the rest.
#[tactic(auto, unfolding(crate::specs::UnitSays::unit_says))]
fn read_unit<'a>(
    alloc: Global,
    sections: &Sections<'a>,
    unit: &Unit,
    code: &Enclosing,
    shared: &SharedAbbrevs,
    k: usize,
    scratch: &mut AbbrevScratch,
) -> Result<UnitFound<'a>, Stop<DwarfFault>>
    requires inside { IsInside (length sections.now.info) unit.now }
    requires small { length sections.now.info ≤ 2 ^ 29 }
    requires shared { Match (IsRead sections.now) shared.now.firsts shared.now.tables }
    ensures { MatchStop result
        (λ found. (spans : List Range) → EncloseAlike code.now spans → HoldsUnit spans sections.now unit.now found)
        (λ fault. unit_says sections.now unit.now ≡ Err fault)
        (Prim.Unit {0}) }
{
    let Some(table) = shared.table(sections, unit, k) else {
        return read_alone(alloc, sections, unit, code, scratch);
    };
    match table {
        Ok(abbrevs) => read_entries(alloc, sections, unit, code, abbrevs),
        Err(fault) => Err(Stop::Fault(*fault)),
    }
}

/// A job that reads units of these sections by number. Ranges that `code` encloses are code.
#[derive(Drop)]
struct UnitReader<'s, 'a> {
    sections: &'s Sections<'a>,
    units: &'s [Unit],
    code: &'s Enclosing,
    shared: &'s SharedAbbrevs,
}

impl<'s, 'a> Model for UnitReader<'s, 'a> {
    ghost use Rattle.debug_read.specs.internal.Jobs.{ReaderParts, IsReader};

    ghost Value = { ReaderParts };

    ghost view = { λ r. record { sections = r.sections.now; units = r.units.now; code = r.code.now; shared = r.shared.now } };

    ghost invariant = { λ r. IsReader (record { sections = r.sections.now; units = r.units.now; code = r.code.now; shared = r.shared.now }) };
}

impl<'s, 'a> UnitReader<'s, 'a> {
    fn of(
        sections: &'s Sections<'a>,
        units: &'s [Unit],
        code: &'s Enclosing,
        shared: &'s SharedAbbrevs,
    ) -> UnitReader<'s, 'a>
        requires { IsReader (record { sections = sections.now; units = units.now; code = code.now; shared = shared.now }) }
        ensures { result ≡ record { sections = sections.now; units = units.now; code = code.now; shared = shared.now } }
    {
        UnitReader {
            sections,
            units,
            code,
            shared,
        }
    }
}

impl<'s, 'a> UnitJob for UnitReader<'s, 'a> {
    type Out = Result<UnitFound<'a>, DwarfFault>;

    type Scratch = AbbrevScratch;

    ghost gives = { λ reader k out. ReaderGives reader (slice_get reader.units k) out };

    fn scratch(&self, alloc: Global) -> Result<AbbrevScratch, OutOfMemory> {
        Ok(AbbrevScratch::new(alloc))
    }

    /// A number after the last unit, which no worker draws, has no result.
    fn run(
        &self,
        alloc: Global,
        k: usize,
        scratch: &mut AbbrevScratch,
    ) -> Result<Result<UnitFound<'a>, DwarfFault>, OutOfMemory> {
        let Some(unit) = unit_at(self.units, k) else {
            return Err(OutOfMemory);
        };
        match read_unit(
            alloc,
            self.sections,
            unit,
            self.code,
            self.shared,
            k,
            scratch,
        ) {
            Ok(found) => Ok(Ok(found)),
            Err(Stop::Fault(fault)) => Ok(Err(fault)),
            Err(Stop::NoMemory) => Err(OutOfMemory),
        }
    }
}

/// What the workers find, unit by unit.
fn find_all<'a, R: Threads + Sync, G: Gate + Sync>(
    crew: &Crew<'_, R>,
    sections: &Sections<'a>,
    headers: &[Unit],
    code: &[Span],
    gate: &G,
) -> Result<Vec<Result<UnitFound<'a>, DwarfFault>>, OutOfMemory>
    requires small { length sections.now.info ≤ 2 ^ 29 }
    requires headers { units_in sections.now.info ≡ Ok headers.now }
    ensures { IfOk result (λ found. Match (IsOwing code.now sections.now) (read_units headers.now) found.items) }
{
    let alloc = crew.alloc();
    let code = Enclosing::of_spans(alloc, code)?;
    let read = pick_read(alloc, headers)?;
    let shared = read_shared(crew, sections, read.as_slice())?;
    let job = UnitReader::of(sections, read.as_slice(), &code, &shared);
    let found = crew.run(&job, gate, read.len())?;
    Ok(found)
}

/// The units that are read, or the fault of the first unit that has one.
fn read_parts<'a, R: Threads + Sync, G: Gate + Sync>(
    crew: &Crew<'_, R>,
    sections: &Sections<'a>,
    headers: &[Unit],
    code: &[Span],
    gate: &G,
) -> Result<Vec<UnitRead<'a>>, Stop<DwarfFault>>
    requires small { length sections.now.info ≤ 2 ^ 29 }
    requires headers { units_in sections.now.info ≡ Ok headers.now }
    ensures { MatchStop result
        (λ parts. Says (Match (IsUnitRead code.now)) (each_of (unit_says sections.now) (read_units headers.now)) parts.items)
        (λ fault. each_of (unit_says sections.now) (read_units headers.now) ≡ Err fault)
        (Prim.Unit {0}) }
{
    let found = find_all(crew, sections, headers, code, gate)?;
    settle_units(crew, sections, code, found)
}

/// The headers of the units of a file, and the units that are read.
#[derive(Drop)]
pub(crate) struct FileRead<'a> {
    pub headers: UnitList,
    pub parts: Vec<UnitRead<'a>>,
}

/// The units of a file, or its first fault.
#[tactic(auto, using(crate::proofs::FileLemmas::file_made, crate::proofs::FileLemmas::headers_fault, crate::proofs::FileLemmas::units_fault))]
fn read_file<'a, R: Threads + Sync, G: Gate + Sync>(
    crew: &Crew<'_, R>,
    sections: &Sections<'a>,
    code: &[Span],
    gate: &G,
) -> Result<FileRead<'a>, Stop<DwarfFault>>
    ensures says { MatchStop result
        (λ file. Says (IsFileRead code.now) (file_says sections.now) file)
        (λ fault. file_says sections.now ≡ Err fault)
        (Prim.Unit {0}) }
    ensures small { OnOk result (length sections.now.info ≤ 2 ^ 29) }
{
    if sections.info.len() > FILE_LIMIT {
        return Err(Stop::NoMemory);
    }
    let headers = match units(crew.alloc(), sections.info) {
        Ok(headers) => headers,
        Err(stop) => return Err(stop),
    };
    match read_parts(crew, sections, headers.as_slice(), code, gate) {
        Ok(parts) => Ok(FileRead { headers, parts }),
        Err(stop) => Err(stop),
    }
}

/// The headers of the units of a file and of its supplementary file, and the units of both that are read, those of the file first.
#[derive(Drop)]
pub struct BothRead<'a> {
    pub headers: UnitList,
    pub sup_headers: UnitList,
    pub units: Units<'a>,
}

/// The units of a file, followed by those of its supplementary file.
fn join_files<'a>(
    parts: Vec<UnitRead<'a>>,
    others: Vec<UnitRead<'a>>,
) -> Result<Units<'a>, OutOfMemory>
    requires { AreRead (parts.items ++ others.items) }
    ensures { IfOk result (λ units. units ≡ parts.entry.items ++ others.entry.items) }
{
    let mut all = parts;
    let mut more = others;
    all.append(&mut more)?;
    Ok(Units::of(all))
}

/// The units of an image and of its supplementary file, or the first fault.
pub fn read_both<'a, R: Threads + Sync, G: Gate + Sync>(
    crew: &Crew<'_, R>,
    image: &Image<'a>,
    gate: &G,
) -> Result<BothRead<'a>, Stop<DebugFault>>
    ensures { MatchStop result
        (λ both. Says (IsBothRead image.now.code) (both_says image.now) both)
        (λ fault. both_says image.now ≡ Err fault)
        (Prim.Unit {0}) }
{
    let alloc = crew.alloc();
    let own = sections_of(alloc, image)?;
    let file = match read_file(crew, &own, image.code(), gate) {
        Ok(file) => file,
        Err(stop) => return Err(dwarf_stop(stop)),
    };
    let sup = sup_sections_of(alloc, image.sup())?;
    let other = match read_file(crew, &sup, image.code(), &NoGate) {
        Ok(other) => other,
        Err(stop) => return Err(sup_stop(stop)),
    };
    let units = join_files(file.parts, other.parts)?;
    Ok(BothRead {
        headers: file.headers,
        sup_headers: other.headers,
        units,
    })
}
