//! The file: its headers, and its sections one after another (ELF64, chapters 3 to 5).
ghost use Rattle.std.specs.Prelude.{◌≡◌, ◌≤◌, ◌*◌, ◌^◌, ◌++◌, length, replicate, OnOk, IfOk};
ghost use Rattle.std.specs.List.{flat_map};
ghost use Rattle.sample_elf.specs.Made.{abbreviations, section_names, frames, units, line_tables, frames_at, abbreviations_at, units_at, lines_at, names_at, headers_at, section_header, plain, sections, section_headers, file_header, program_header, build_id, padding, front, made};

use crate::frames::make_frames;
use crate::pieces::{put_all, put_zeros};
use crate::section::Section;
use crate::units::{UnitSections, make_units};
use std::alloc::Global;
use sym_edges::{ByteRun, OutOfMemory};

/// `.debug_abbrev`: pairs of attribute and form.
#[tactic(auto, unfolding(crate::specs::Made::abbreviations))]
fn abbreviations() -> &'static [u8]
    ensures { result.now ≡ abbreviations }
{
    &[
        1, 0x11, 1, 0x03, 0x08, 0x1b, 0x08, 0x10, 0x17, 0x11, 0x01, 0x12, 0x06, 0, 0, 2, 0x2e, 1,
        0x03, 0x08, 0x11, 0x01, 0x12, 0x06, 0, 0, 3, 0x2e, 0, 0x03, 0x08, 0x11, 0x01, 0x12, 0x06,
        0, 0, 4, 0x1d, 0, 0x31, 0x13, 0x11, 0x01, 0x12, 0x06, 0x58, 0x0b, 0x59, 0x0b, 0, 0, 0,
    ]
}

/// The names of sections.
#[tactic(auto, unfolding(crate::specs::Made::section_names))]
fn section_names() -> &'static [u8]
    ensures { result.now ≡ section_names }
{
    b"\0.note.gnu.build-id\0.text\0.eh_frame\0.debug_abbrev\0.debug_info\0.debug_line\0.shstrtab\0"
}

/// Where the sections after the code begin in the file.
#[derive(Clone, Copy)]
struct Layout {
    frames: u64,
    abbreviations: u64,
    units: u64,
    lines: u64,
    names: u64,
    headers: u64,
}

/// The sections whose sizes depend on the number of units.
#[derive(Drop)]
struct Parts {
    frames: Vec<u8>,
    units: Vec<u8>,
    lines: Vec<u8>,
}

/// The sections of n units.
fn make_parts(alloc: Global, n: u32) -> Result<Parts, OutOfMemory>
    requires few { n ≤ 20000 }
    ensures frames { IfOk result (λ parts. parts.frames.items ≡ frames n) }
    ensures units { IfOk result (λ parts. parts.units.items ≡ units n) }
    ensures lines { IfOk result (λ parts. parts.lines.items ≡ line_tables n) }
{
    let frames = make_frames(alloc, n)?;
    let UnitSections { units, lines } = make_units(alloc, n)?;
    Ok(Parts {
        frames,
        units,
        lines,
    })
}

/// Where the sections begin.
#[tactic(auto, using(crate::proofs::LengthLemmas::frames_length, crate::proofs::LengthLemmas::units_length, crate::proofs::LengthLemmas::tables_length, crate::proofs::LengthLemmas::abbreviations_length, crate::proofs::LengthLemmas::names_length))]
fn layout_of(n: u32, parts: &Parts) -> Layout
    requires few { n ≤ 20000 }
    requires frames { parts.now.frames.items ≡ frames n }
    requires units { parts.now.units.items ≡ units n }
    requires lines { parts.now.lines.items ≡ line_tables n }
    ensures frames { result.frames ≡ frames_at n }
    ensures abbreviations { result.abbreviations ≡ abbreviations_at n }
    ensures units { result.units ≡ units_at n }
    ensures lines { result.lines ≡ lines_at n }
    ensures names { result.names ≡ names_at n }
    ensures headers { result.headers ≡ headers_at n }
{
    let frames = 0x1000 + 64 * u64::from(n);
    let abbreviations = frames + parts.frames.len() as u64;
    let units = abbreviations + 53;
    let lines = units + parts.units.len() as u64;
    let names = lines + parts.lines.len() as u64;
    let headers = names + 84;
    Layout {
        frames,
        abbreviations,
        units,
        lines,
        names,
        headers,
    }
}

/// The header of a section that is not in memory.
fn plain(name: u32, kind: u32, offset: u64, size: u64) -> Section
    ensures { result ≡ plain name kind offset size }
{
    Section {
        name,
        kind,
        flags: 0,
        address: 0,
        offset,
        size,
        alignment: 1,
    }
}

/// The section headers: the null one, those of the note of the build id and of the code, and those
/// of the sections after it.
#[tactic(auto, using(crate::proofs::LengthLemmas::abbreviations_length, crate::proofs::LengthLemmas::names_length, crate::proofs::LengthLemmas::frames_length), unfolding(crate::specs::Made::sections))]
fn list_sections(n: u32, parts: &Parts, layout: &Layout) -> [Section; 8]
    requires few { n ≤ 20000 }
    requires frames { parts.now.frames.items ≡ frames n }
    requires units { parts.now.units.items ≡ units n }
    requires lines { parts.now.lines.items ≡ line_tables n }
    requires frames_at { layout.now.frames ≡ frames_at n }
    requires abbreviations_at { layout.now.abbreviations ≡ abbreviations_at n }
    requires units_at { layout.now.units ≡ units_at n }
    requires lines_at { layout.now.lines ≡ lines_at n }
    requires names_at { layout.now.names ≡ names_at n }
    ensures { result ≡ sections n }
{
    [
        Section {
            name: 0,
            kind: 0,
            flags: 0,
            address: 0,
            offset: 0,
            size: 0,
            alignment: 0,
        },
        Section {
            name: 1,
            kind: 7,
            flags: 2,
            address: 0x40_0078,
            offset: 0x78,
            size: 36,
            alignment: 4,
        },
        Section {
            name: 20,
            kind: 1,
            flags: 6,
            address: 0x40_1000,
            offset: 0x1000,
            size: 64 * u64::from(n),
            alignment: 16,
        },
        Section {
            name: 26,
            kind: 1,
            flags: 2,
            address: 0x40_0000 + layout.frames,
            offset: layout.frames,
            size: parts.frames.len() as u64,
            alignment: 8,
        },
        plain(36, 1, layout.abbreviations, 53),
        plain(50, 1, layout.units, parts.units.len() as u64),
        plain(62, 1, layout.lines, parts.lines.len() as u64),
        plain(74, 3, layout.names, 84),
    ]
}

/// Adds a section header.
#[tactic(auto, unfolding(crate::specs::Made::section_header))]
fn put_section(bytes: &mut Vec<u8>, section: &Section) -> Result<(), OutOfMemory>
    ensures { OnOk result (bytes.new.items ≡ bytes.old.items ++ section_header section.now) }
{
    put_all(
        bytes,
        &[
            &section.name.to_le_bytes(),
            &section.kind.to_le_bytes(),
            &section.flags.to_le_bytes(),
            &section.address.to_le_bytes(),
            &section.offset.to_le_bytes(),
            &section.size.to_le_bytes(),
            &[0; 8],
            &section.alignment.to_le_bytes(),
            &[0; 8],
        ],
    )
}

/// Adds section headers.
fn put_sections(bytes: &mut Vec<u8>, sections: &[Section]) -> Result<(), OutOfMemory>
    ensures { OnOk result (bytes.new.items ≡ bytes.old.items ++ flat_map section_header sections.now) }
{
    'sections: for k in 0..sections.len() {
        put_section(bytes, &sections[k])?;
    }
    Ok(())
}

/// The section headers.
#[tactic(auto, unfolding(crate::specs::Made::section_headers))]
fn section_headers(
    alloc: Global,
    n: u32,
    parts: &Parts,
    layout: &Layout,
) -> Result<Vec<u8>, OutOfMemory>
    requires few { n ≤ 20000 }
    requires frames { parts.now.frames.items ≡ frames n }
    requires units { parts.now.units.items ≡ units n }
    requires lines { parts.now.lines.items ≡ line_tables n }
    requires frames_at { layout.now.frames ≡ frames_at n }
    requires abbreviations_at { layout.now.abbreviations ≡ abbreviations_at n }
    requires units_at { layout.now.units ≡ units_at n }
    requires lines_at { layout.now.lines ≡ lines_at n }
    requires names_at { layout.now.names ≡ names_at n }
    ensures { IfOk result (λ bytes. bytes.items ≡ section_headers n) }
{
    let mut bytes = Vec::new(alloc);
    put_sections(&mut bytes, &list_sections(n, parts, layout))?;
    Ok(bytes)
}

/// Adds the ELF header, with the section headers at an offset.
#[tactic(auto, unfolding(crate::specs::Made::file_header))]
fn put_file_header(bytes: &mut Vec<u8>, headers: u64) -> Result<(), OutOfMemory>
    ensures { OnOk result (bytes.new.items ≡ bytes.old.items ++ file_header headers) }
{
    put_all(
        bytes,
        &[
            &[0x7f, 0x45, 0x4c, 0x46, 2, 1, 1, 0, 0, 0, 0, 0, 0, 0, 0, 0],
            &[2, 0, 0x3e, 0, 1, 0, 0, 0],
            &[0; 8],
            &[64, 0, 0, 0, 0, 0, 0, 0],
            &headers.to_le_bytes(),
            &[0, 0, 0, 0, 64, 0, 56, 0, 1, 0, 64, 0, 8, 0, 7, 0],
        ],
    )
}

/// Adds the program header for a number of bytes.
#[tactic(auto, unfolding(crate::specs::Made::program_header))]
fn put_program_header(bytes: &mut Vec<u8>, size: u64) -> Result<(), OutOfMemory>
    ensures { OnOk result (bytes.new.items ≡ bytes.old.items ++ program_header size) }
{
    let size = size.to_le_bytes();
    put_all(
        bytes,
        &[
            &[1, 0, 0, 0, 5, 0, 0, 0],
            &[0; 8],
            &[0, 0, 0x40, 0, 0, 0, 0, 0],
            &[0, 0, 0x40, 0, 0, 0, 0, 0],
            &size,
            &size,
            &[0, 0x10, 0, 0, 0, 0, 0, 0],
        ],
    )
}

/// Adds the note of the build id.
#[tactic(auto, unfolding(crate::specs::Made::build_id))]
fn put_build_id(bytes: &mut Vec<u8>, n: u32) -> Result<(), OutOfMemory>
    ensures { OnOk result (bytes.new.items ≡ bytes.old.items ++ build_id n) }
{
    put_all(
        bytes,
        &[
            &[4, 0, 0, 0, 20, 0, 0, 0, 3, 0, 0, 0],
            b"GNU",
            &[0],
            &[(n % 256) as u8; 20],
        ],
    )
}

/// Adds the zeros before the code.
#[tactic(auto, unfolding(crate::specs::Made::padding))]
fn put_padding(alloc: Global, bytes: &mut Vec<u8>) -> Result<(), OutOfMemory>
    ensures { OnOk result (bytes.new.items ≡ bytes.old.items ++ padding) }
{
    put_zeros(alloc, bytes, 0x1000 - 156)
}

/// The bytes before the code.
#[tactic(auto, using(crate::proofs::PieceLemmas::four_parts), unfolding(crate::specs::Made::front))]
fn make_front(alloc: Global, n: u32, layout: &Layout) -> Result<Vec<u8>, OutOfMemory>
    requires abbreviations { layout.now.abbreviations ≡ abbreviations_at n }
    requires headers { layout.now.headers ≡ headers_at n }
    ensures { IfOk result (λ bytes. bytes.items ≡ front n) }
{
    let mut bytes = Vec::new(alloc);
    put_file_header(&mut bytes, layout.headers)?;
    put_program_header(&mut bytes, layout.abbreviations)?;
    put_build_id(&mut bytes, n)?;
    put_padding(alloc, &mut bytes)?;
    Ok(bytes)
}

/// The code.
fn make_code(alloc: Global, n: u32) -> Result<Vec<u8>, OutOfMemory>
    requires few { n ≤ 20000 }
    ensures { IfOk result (λ bytes. bytes.items ≡ replicate (64 * n) 0) }
{
    let mut bytes = Vec::new(alloc);
    put_zeros(alloc, &mut bytes, 64 * n as usize)?;
    Ok(bytes)
}

/// The bytes of a file of n units.
#[tactic(auto, unfolding(crate::specs::Made::made))]
fn make_bytes(alloc: Global, n: u32) -> Result<Vec<u8>, OutOfMemory>
    requires few { n ≤ 20000 }
    ensures { IfOk result (λ bytes. bytes.items ≡ made n) }
{
    let parts = make_parts(alloc, n)?;
    let layout = layout_of(n, &parts);
    let front = make_front(alloc, n, &layout)?;
    let headers = section_headers(alloc, n, &parts, &layout)?;
    let code = make_code(alloc, n)?;
    let mut bytes = Vec::new(alloc);
    put_all(
        &mut bytes,
        &[
            &front,
            &code,
            &parts.frames,
            abbreviations(),
            &parts.units,
            &parts.lines,
            section_names(),
            &headers,
        ],
    )?;
    Ok(bytes)
}

/// A file of n units of about 360 bytes each; `specs/Made.antt` gives every byte.
#[tactic(auto, using(crate::proofs::LengthLemmas::made_short))]
pub fn make(alloc: Global, n: u32) -> Result<ByteRun, OutOfMemory>
    requires few { n ≤ 20000 }
    ensures made { IfOk result (λ file. file ≡ made n) }
    ensures short { IfOk result (λ file. length file ≤ 2 ^ 29) }
{
    let bytes = make_bytes(alloc, n)?;
    Ok(ByteRun::of(bytes))
}
