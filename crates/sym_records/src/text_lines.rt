//! Adding records to a text without making them first. Numbers are written backward, into a line
//! that has room for them.
ghost use Rattle.std.specs.Prelude.{◌≡◌, ◌+◌, ◌≤◌, [], ◌∷◌, ◌++◌, length, drop, OnOk};
ghost use Rattle.std.specs.Fmt.{decimal};
ghost use Rattle.std.specs.List.{flat_map};
ghost use Rattle.sym_records.specs.Canon.{canon, init_front, change_front};
ghost use Rattle.clean_names.specs.Cleaning.{cleaned};
ghost use Rattle.sym_records.specs.Fields.{hex, mark, spelled_range};
ghost use Rattle.sym_records.specs.declared.line.SymLine.TheVariants as line;

use crate::line::Extent;
use clean_names::add_cleaned;
use sym_edges::OutOfMemory;
use sym_rules::{write_byte, write_bytes, write_decimal, write_hex, write_last};

/// Room for the first words and the numbers of a line, with a space before each number.
const LINE: usize = 64;

/// Room for these, for LF, and for the text that replaces an empty name.
const ROOM: usize = 80;

/// Writes a hexadecimal number after one space.
#[inline]
fn write_hex_field(number: u64, line: &mut [u8], end: usize) -> usize
    requires room { 17 ≤ end }
    requires within { end ≤ length line.old }
    ensures below { result ≤ end }
    ensures short { end ≤ result + 17 }
    ensures written { drop result line.new ≡ (32 ∷ hex number) ++ drop end line.old }
{
    let start = write_hex(number, line, end);
    write_byte(b' ', line, start)
}

/// Writes a decimal number after one space.
#[inline]
fn write_decimal_field(number: u32, line: &mut [u8], end: usize) -> usize
    requires room { 11 ≤ end }
    requires within { end ≤ length line.old }
    ensures below { result ≤ end }
    ensures short { end ≤ result + 11 }
    ensures written { drop result line.new ≡ (32 ∷ decimal number) ++ drop end line.old }
{
    let start = write_decimal(number, line, end);
    write_byte(b' ', line, start)
}

/// Writes `m` after one space, if `many`.
#[inline]
fn write_mark(many: bool, line: &mut [u8], end: usize) -> usize
    requires room { 2 ≤ end }
    requires within { end ≤ length line.old }
    ensures below { result ≤ end }
    ensures short { end ≤ result + 2 }
    ensures written { drop result line.new ≡ mark many ++ drop end line.old }
{
    if many {
        return write_bytes(b" m", line, end);
    }
    end
}

/// Adds the first words of a line, and makes room for `room` more bytes and for the end of the
/// line.
#[inline]
fn begin(text: &mut Vec<u8>, words: &[u8], room: usize) -> Result<(), OutOfMemory>
    ensures { OnOk result (text.new.items ≡ text.old.items ++ words.now) }
{
    text.reserve(room.saturating_add(ROOM))?;
    text.extend_from_slice(words)?;
    Ok(())
}

/// Adds a word after one space.
fn add_word(text: &mut Vec<u8>, word: &[u8]) -> Result<(), OutOfMemory>
    ensures { OnOk result (text.new.items ≡ text.old.items ++ 32 ∷ word.now) }
{
    text.push(b' ')?;
    text.extend_from_slice(word)?;
    Ok(())
}

/// Adds LF.
#[inline]
fn end(text: &mut Vec<u8>) -> Result<(), OutOfMemory>
    ensures { OnOk result (text.new.items ≡ text.old.items ++ 10 ∷ []) }
{
    text.push(b'\n')?;
    Ok(())
}

/// Adds a cleaned name and LF. The space before the name is already there.
fn end_with_name(text: &mut Vec<u8>, name: &[u8]) -> Result<(), OutOfMemory>
    ensures { OnOk result (text.new.items ≡ text.old.items ++ cleaned name.now ++ 10 ∷ []) }
{
    add_cleaned(text, name)?;
    end(text)
}

/// Writes the start of a `STACK CFI INIT` record up to its rules.
#[tactic(auto, using(crate::proofs::AddingLemmas::init_before))]
pub fn write_init(address: u64, size: u64, line: &mut [u8], end: usize) -> usize
    requires room { 48 ≤ end }
    requires within { end ≤ length line.old }
    ensures below { result ≤ end }
    ensures short { end ≤ result + 48 }
    ensures written { drop result line.new ≡ init_front address size ++ drop end line.old }
{
    let at = write_hex_field(size, line, end);
    let at = write_hex_field(address, line, at);
    write_bytes(b"STACK CFI INIT", line, at)
}

/// Writes the start of a `STACK CFI` record up to its rules.
#[tactic(auto, using(crate::proofs::AddingLemmas::change_before))]
pub fn write_change(address: u64, line: &mut [u8], end: usize) -> usize
    requires room { 26 ≤ end }
    requires within { end ≤ length line.old }
    ensures below { result ≤ end }
    ensures short { end ≤ result + 26 }
    ensures written { drop result line.new ≡ change_front address ++ drop end line.old }
{
    let at = write_hex_field(address, line, end);
    write_bytes(b"STACK CFI", line, at)
}

/// Adds a range.
#[tactic(auto, using(crate::proofs::AddingLemmas::adds_range), unfolding(crate::specs::Fields::spelled_range))]
fn add_range(text: &mut Vec<u8>, range: Extent) -> Result<(), OutOfMemory>
    ensures { OnOk result (text.new.items ≡ text.old.items ++ spelled_range range) }
{
    let mut line = [0; LINE];
    let at = write_hex_field(range.size, &mut line, LINE);
    let at = write_hex_field(range.address, &mut line, at);
    text.extend_from_slice(&line[at..])?;
    Ok(())
}

#[tactic(auto, using(crate::proofs::AddingLemmas::adds_piece, crate::proofs::AddingLemmas::adds_all))]
fn add_ranges(text: &mut Vec<u8>, ranges: &[Extent]) -> Result<(), OutOfMemory>
    ensures { OnOk result (text.new.items ≡ text.old.items ++ flat_map spelled_range ranges.now) }
{
    for range in ranges {
        add_range(text, *range)?;
    }
    Ok(())
}

/// Adds `MODULE` with its name cleaned.
#[tactic(auto, using(crate::proofs::AddingLemmas::adds_module))]
pub fn add_module(
    text: &mut Vec<u8>,
    os: &[u8],
    arch: &[u8],
    id: &[u8],
    name: &[u8],
) -> Result<(), OutOfMemory>
    ensures { OnOk result (text.new.items ≡ text.old.items ++ canon (line.Module (record { os = os.now; arch = arch.now; id = id.now; name = cleaned name.now }))) }
{
    begin(text, b"MODULE", name.len())?;
    add_word(text, os)?;
    add_word(text, arch)?;
    add_word(text, id)?;
    text.push(b' ')?;
    end_with_name(text, name)
}

/// Adds `INFO` with this text, which is not cleaned.
#[tactic(auto, using(crate::proofs::AddingLemmas::adds_info))]
pub fn add_info(text: &mut Vec<u8>, words: &[u8]) -> Result<(), OutOfMemory>
    ensures { OnOk result (text.new.items ≡ text.old.items ++ canon (line.Info words.now)) }
{
    begin(text, b"INFO", words.len())?;
    add_word(text, words)?;
    end(text)
}

/// Adds `FILE` with its name cleaned.
pub fn add_file(text: &mut Vec<u8>, number: u32, name: &[u8]) -> Result<(), OutOfMemory>
    ensures { OnOk result (text.new.items ≡ text.old.items ++ canon (line.File number (cleaned name.now))) }
{
    let mut line = [0; LINE];
    let at = write_last(b' ', &mut line);
    let at = write_decimal_field(number, &mut line, at);
    let at = write_bytes(b"FILE", &mut line, at);
    begin(text, &line[at..], name.len())?;
    end_with_name(text, name)
}

/// Adds `INLINE_ORIGIN` with its name cleaned.
pub fn add_origin(text: &mut Vec<u8>, number: u32, name: &[u8]) -> Result<(), OutOfMemory>
    ensures { OnOk result (text.new.items ≡ text.old.items ++ canon (line.Origin number (cleaned name.now))) }
{
    let mut line = [0; LINE];
    let at = write_last(b' ', &mut line);
    let at = write_decimal_field(number, &mut line, at);
    let at = write_bytes(b"INLINE_ORIGIN", &mut line, at);
    begin(text, &line[at..], name.len())?;
    end_with_name(text, name)
}

/// Adds `FUNC` with its name cleaned.
pub fn add_func(
    text: &mut Vec<u8>,
    many: bool,
    address: u64,
    size: u64,
    params: u64,
    name: &[u8],
) -> Result<(), OutOfMemory>
    ensures { OnOk result (text.new.items ≡ text.old.items ++ canon (line.Func many address size params (cleaned name.now))) }
{
    let mut line = [0; LINE];
    let at = write_last(b' ', &mut line);
    let at = write_hex_field(params, &mut line, at);
    let at = write_hex_field(size, &mut line, at);
    let at = write_hex_field(address, &mut line, at);
    let at = write_mark(many, &mut line, at);
    let at = write_bytes(b"FUNC", &mut line, at);
    begin(text, &line[at..], name.len())?;
    end_with_name(text, name)
}

/// Adds `INLINE`.
pub fn add_inline(
    text: &mut Vec<u8>,
    level: u32,
    call_line: u32,
    call_file: u32,
    origin: u32,
    ranges: &[Extent],
) -> Result<(), OutOfMemory>
    ensures { OnOk result (text.new.items ≡ text.old.items ++ canon (line.Inline level call_line call_file origin ranges.now)) }
{
    let mut line = [0; LINE];
    let at = write_decimal_field(origin, &mut line, LINE);
    let at = write_decimal_field(call_file, &mut line, at);
    let at = write_decimal_field(call_line, &mut line, at);
    let at = write_decimal_field(level, &mut line, at);
    let at = write_bytes(b"INLINE", &mut line, at);
    begin(text, &line[at..], 0)?;
    add_ranges(text, ranges)?;
    end(text)
}

/// Adds a line record.
pub fn add_line(
    text: &mut Vec<u8>,
    address: u64,
    size: u64,
    number: u32,
    file: u32,
) -> Result<(), OutOfMemory>
    ensures { OnOk result (text.new.items ≡ text.old.items ++ canon (line.Line address size number file)) }
{
    let mut line = [0; LINE];
    let at = write_last(b'\n', &mut line);
    let at = write_decimal_field(file, &mut line, at);
    let at = write_decimal_field(number, &mut line, at);
    let at = write_hex_field(size, &mut line, at);
    let at = write_hex(address, &mut line, at);
    text.extend_from_slice(&line[at..])?;
    Ok(())
}

/// Adds `PUBLIC` with its name cleaned.
pub fn add_public(
    text: &mut Vec<u8>,
    many: bool,
    address: u64,
    params: u64,
    name: &[u8],
) -> Result<(), OutOfMemory>
    ensures { OnOk result (text.new.items ≡ text.old.items ++ canon (line.Public many address params (cleaned name.now))) }
{
    let mut line = [0; LINE];
    let at = write_last(b' ', &mut line);
    let at = write_hex_field(params, &mut line, at);
    let at = write_hex_field(address, &mut line, at);
    let at = write_mark(many, &mut line, at);
    let at = write_bytes(b"PUBLIC", &mut line, at);
    begin(text, &line[at..], name.len())?;
    end_with_name(text, name)
}
