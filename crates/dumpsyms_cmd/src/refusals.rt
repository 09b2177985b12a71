//! The lines with which files are refused.
ghost use Rattle.std.specs.Prelude.{◌≡◌, ◌++◌, ◌∷◌, [], codes, IfOk};
ghost use Rattle.sym_records.specs.Canon.{spaced};
ghost use Rattle.elf_sections.specs.FaultWords.{fault_word};
ghost use Rattle.abbrev_units.specs.FaultWords.{dwarf_word};
ghost use Rattle.core_file.specs.FaultWords.{joined_word};
ghost use Rattle.dumpsyms_cmd.specs.Judgement.{err_bytes};
ghost use Rattle.stack_text.specs.Lines.{line};
ghost use Rattle.dumpsyms_cmd.specs.Refusals.{core_line, unread_lines, elf_line, debug_elf_line, frame_line, sup_elf_line, sup_line, debug_line, located_line, fault_at, text_line, state_line};

use crate::judgement::Message;
use abbrev_units::DwarfFault;
use clean_names::add_cleaned;
use core_file::CoreFault;
use debug_pair::SupFault;
use debug_read::DebugFault;
use elf_sections::ElfFault;
use frame_entries::FrameFault;
use itoa::Buffer;
use stack_text::add_line;
use state_file::StateFault;
use std::alloc::{AllocError, Global};
use sym_edges::{OutOfMemory, Sect};
use sym_records::{ByteText, HexText};
use sym_rules::TextFault;

/// The line for a file above the size limit.
pub const TOO_LONG: &[u8] = b"refused input too-long\n";

/// The line for a file that could not be read.
pub const UNREAD: &[u8] = b"cannot read input\n";

/// The line for a state without rip, at which a walk begins.
pub const NO_RIP: &[u8] = b"refused walk no-rip\n";

/// The line if the file `name` could not be read. Under `--full` it has the cleaned name.
pub fn unread_line(alloc: Global, full: bool, name: &[u8]) -> Result<Message, OutOfMemory>
    ensures { IfOk result (λ message. err_bytes message ≡ unread_lines full name.now) }
{
    if !full {
        return Ok(Message::Fixed(UNREAD));
    }
    let mut text = Vec::from_slice(alloc, b"cannot read ")?;
    add_cleaned(&mut text, name)?;
    text.push(b'\n')?;
    Ok(Message::Made(ByteText::of(text)))
}

/// A line with what is refused and a word, which may have a number after it.
fn word_line(
    alloc: Global,
    refused: &'static [u8],
    word: &'static [u8],
    index: Option<u32>,
) -> Result<ByteText, AllocError>
    ensures { IfOk result (λ text. text ≡ line (refused.now ++ joined_word word.now index)) }
{
    let mut text = Vec::from_slice(alloc, refused)?;
    text.extend_from_slice(word)?;
    if let Some(index) = index {
        let mut buffer = Buffer::new();
        text.extend_from_slice(buffer.format(index).as_bytes())?;
    }
    text.extend_from_slice(b"\n")?;
    Ok(ByteText::of(text))
}

/// A line with what is refused and the fault of an image.
fn image_line(
    alloc: Global,
    refused: &'static [u8],
    fault: ElfFault,
) -> Result<ByteText, AllocError>
    ensures { IfOk result (λ text. text ≡ line (refused.now ++ fault_word fault)) }
{
    let (word, index) = fault.word();
    word_line(alloc, refused, word, index)
}

/// The line that names the fault in the image of an ELF file.
pub fn fault_line(alloc: Global, fault: ElfFault) -> Result<ByteText, AllocError>
    ensures { IfOk result (λ text. text ≡ elf_line fault) }
{
    image_line(alloc, b"refused elf ", fault)
}

/// The line that names the fault in a core file.
pub fn core_line(alloc: Global, fault: CoreFault) -> Result<ByteText, AllocError>
    ensures { IfOk result (λ text. text ≡ core_line fault) }
{
    let (word, index) = fault.word();
    word_line(alloc, b"refused core ", word, index)
}

/// The line that names the fault in the image of a separate debug file.
pub fn debug_fault_line(alloc: Global, fault: ElfFault) -> Result<ByteText, AllocError>
    ensures { IfOk result (λ text. text ≡ debug_elf_line fault) }
{
    image_line(alloc, b"refused debug ", fault)
}

/// The line that names the fault in the image of a supplementary file.
pub fn sup_fault_line(alloc: Global, fault: ElfFault) -> Result<ByteText, AllocError>
    ensures { IfOk result (λ text. text ≡ sup_elf_line fault) }
{
    image_line(alloc, b"refused sup ", fault)
}

/// The line that says why a file is not read with the supplementary file to which it links.
pub fn sup_line(alloc: Global, fault: SupFault) -> Result<ByteText, AllocError>
    ensures { IfOk result (λ text. text ≡ sup_line fault) }
{
    let words = [fault.word()];
    let mut text = Vec::new(alloc);
    add_line(&mut text, b"refused sup", &words)?;
    Ok(ByteText::of(text))
}

/// The line with the word for why a binary and a debug file are no pair.
pub fn pair_line(alloc: Global, word: &'static [u8]) -> Result<ByteText, AllocError>
    ensures { IfOk result (λ text. text ≡ line (spaced (codes "refused pair") (word.now ∷ []))) }
{
    let words = [word];
    let mut text = Vec::new(alloc);
    add_line(&mut text, b"refused pair", &words)?;
    Ok(ByteText::of(text))
}

/// The line that names a fault by its kind, its section and its place.
fn located_line(
    alloc: Global,
    refused: &'static [u8],
    kind: &'static [u8],
    section: Sect,
    at: usize,
) -> Result<ByteText, AllocError>
    ensures { IfOk result (λ text. text ≡ located_line refused.now kind.now section at) }
{
    let at = HexText::of(at as u64);
    let words = [kind, section.word(), at.as_slice()];
    let mut text = Vec::new(alloc);
    add_line(&mut text, refused, &words)?;
    Ok(ByteText::of(text))
}

/// The line with what is refused and a fault in debugging information.
fn dwarf_line(
    alloc: Global,
    refused: &'static [u8],
    fault: DwarfFault,
) -> Result<ByteText, AllocError>
    ensures { IfOk result (λ text. text ≡ located_line refused.now (dwarf_word fault.kind) fault.section fault.at) }
{
    located_line(alloc, refused, fault.kind.word(), fault.section, fault.at)
}

/// The line that names a fault in a section of frame entries.
fn frame_line(alloc: Global, fault: FrameFault) -> Result<ByteText, AllocError>
    ensures { IfOk result (λ text. text ≡ frame_line fault) }
{
    located_line(
        alloc,
        b"refused frame",
        fault.kind.word(),
        fault.section,
        fault.at,
    )
}

/// The line that names a fault in a text, with the number of the bad line.
fn text_fault_line(
    alloc: Global,
    refused: &'static [u8],
    kind: &'static [u8],
    line: u64,
) -> Result<ByteText, AllocError>
    ensures { IfOk result (λ text. text ≡ fault_at refused.now kind.now line) }
{
    let mut buffer = Buffer::new();
    let words = [kind, b"line", buffer.format(line).as_bytes()];
    let mut text = Vec::new(alloc);
    add_line(&mut text, refused, &words)?;
    Ok(ByteText::of(text))
}

/// The line that names the first fault in a symbol file.
pub fn text_line(alloc: Global, fault: TextFault) -> Result<ByteText, AllocError>
    ensures { IfOk result (λ text. text ≡ text_line fault) }
{
    text_fault_line(alloc, b"refused text", fault.kind.word(), fault.line)
}

/// The line that names the first fault in a state file.
pub fn state_line(alloc: Global, fault: StateFault) -> Result<ByteText, AllocError>
    ensures { IfOk result (λ text. text ≡ state_line fault) }
{
    text_fault_line(alloc, b"refused state", fault.kind.word(), fault.line)
}

/// The line that names a fault in what is read after the image.
pub fn debug_line(alloc: Global, fault: DebugFault) -> Result<ByteText, AllocError>
    ensures { IfOk result (λ text. text ≡ debug_line fault) }
{
    match fault {
        DebugFault::Dwarf(fault) => dwarf_line(alloc, b"refused dwarf", fault),
        DebugFault::Sup(fault) => dwarf_line(alloc, b"refused sup-dwarf", fault),
        DebugFault::Frame(fault) => frame_line(alloc, fault),
    }
}
