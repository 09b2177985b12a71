//! Entries of the tables of directories and files.
ghost use Rattle.std.specs.Prelude.{◌≡◌, ◌==◌, Some, None, if◌then◌else◌};
ghost use Rattle.std.specs.Option.{option_copied, option_or};
ghost use Rattle.leb_cursor.specs.Ahead.{gave};
ghost use Rattle.line_program.specs.FileTables.{old_entry_at, pair_at, value_at, path_in, directory_in, entry_at};
ghost use Rattle.line_program.specs.internal.Needed.{is_idle};

use crate::entry_format::EntryFormat;
use crate::fault::LineFault;
use crate::file_entry::FileEntry;
use crate::opcode_reader::read_file_behind;
use abbrev_units::{DwarfKind, Sections, Value, read_form, read_place, read_text};
use code_table::{DW_FORM_flag_present, DW_FORM_implicit_const, DW_FORM_line_strp, DW_FORM_udata};
use leb_cursor::Cursor;
use text_table::held_text;

// The content types of version 5 whose values are used (DWARF 5, table 7.27).
pub const DW_LNCT_path: u64 = 1;

pub const DW_LNCT_directory_index: u64 = 2;

/// Reads an entry of versions 2 to 4: a directory, or a file, which has more fields after its path.
#[tactic(auto, unfolding(crate::specs::FileTables::old_entry_at))]
pub fn read_old_entry<'a>(
    cursor: &mut Cursor<'a>,
    of_files: bool,
) -> Result<Option<FileEntry<'a>>, LineFault>
    ensures { gave result cursor.new ≡ old_entry_at of_files cursor.old }
{
    let path = cursor.text()?;
    if path.is_empty() {
        return Ok(None);
    }
    if of_files {
        let file = read_file_behind(cursor, path)?;
        return Ok(Some(file));
    }
    let path = held_text(path);
    Ok(Some(FileEntry { path, directory: 0 }))
}

/// Reads a pair of a format.
#[tactic(auto, unfolding(crate::specs::FileTables::pair_at))]
pub fn read_pair(cursor: &mut Cursor<'_>) -> Result<EntryFormat, LineFault>
    ensures { gave result cursor.new ≡ pair_at cursor.old }
{
    let content = cursor.uleb()?;
    let form = cursor.uleb()?;
    Ok(EntryFormat { content, form })
}

/// Reads a value of any form.
#[tactic(auto, unfolding(crate::specs::FileTables::value_at))]
fn read_any(cursor: &mut Cursor<'_>, form: u64, wide: bool) -> Result<Value, LineFault>
    ensures { gave result cursor.new ≡ value_at wide form cursor.old }
{
    if form == DW_FORM_implicit_const {
        return Err(LineFault::at(DwarfKind::UnknownForm, cursor.at()));
    }
    let value = read_form(cursor, form, 0, wide)?;
    Ok(value)
}

/// Reads a value. The usual forms of paths and of numbers are read here, others by `read_any`.
#[inline]
#[tactic(auto, using(crate::proofs::ValueLemmas::number_read, crate::proofs::ValueLemmas::path_read))]
fn read_value(cursor: &mut Cursor<'_>, form: u64, wide: bool) -> Result<Value, LineFault>
    ensures { gave result cursor.new ≡ value_at wide form cursor.old }
{
    match form {
        DW_FORM_udata => match cursor.uleb() {
            Ok(number) => Ok(Value::Num(number)),
            Err(fault) => Err(fault.into()),
        },
        DW_FORM_line_strp => match read_place(cursor, wide) {
            Ok(place) => Ok(Value::LineStrAt(place)),
            Err(fault) => Err(fault.into()),
        },
        _ => read_any(cursor, form, wide),
    }
}

/// The value that was kept. If there is none, this value, if it has the content type.
fn kept_or(kept: Option<Value>, content: u64, of: u64, value: Value) -> Option<Value>
    ensures { result ≡ option_or kept (if of == content then Some value else None) }
{
    if kept.is_some() {
        return kept;
    }
    if of == content { Some(value) } else { None }
}

/// The text of a path; empty if the path is missing.
fn path_in<'a>(sections: &Sections<'a>, path: Option<Value>) -> &'a [u8]
    ensures { result.now ≡ path_in sections.now path }
{
    let Some(value) = path else {
        return &[];
    };
    match read_text(sections, sections.line, false, None, value) {
        Some(text) => text,
        None => &[],
    }
}

fn directory_in(directory: Option<Value>) -> u64
    ensures { result ≡ directory_in directory }
{
    match directory {
        Some(Value::Num(number)) => number,
        _ => 0,
    }
}

/// Whether a pair has no effect on entries: its values have no bytes, and it is neither the first
/// pair of a path nor the first of a directory.
#[tactic(auto, unfolding(crate::specs::internal::Needed::is_idle))]
pub fn is_idle(path: bool, directory: bool, pair: EntryFormat) -> bool
    ensures { result ≡ is_idle path directory pair }
{
    if pair.form != DW_FORM_flag_present {
        return false;
    }
    match pair.content {
        DW_LNCT_path => path,
        DW_LNCT_directory_index => directory,
        _ => true,
    }
}

/// Reads an entry of version 5.
#[tactic(auto, using(crate::proofs::EntryLemmas::entry_begins, crate::proofs::EntryLemmas::entry_more, crate::proofs::EntryLemmas::entry_cut, crate::proofs::EntryLemmas::entry_ends))]
pub fn read_entry<'a>(
    cursor: &mut Cursor<'a>,
    sections: &Sections<'a>,
    pairs: &[EntryFormat],
    wide: bool,
) -> Result<FileEntry<'a>, LineFault>
    ensures { gave result cursor.new ≡ entry_at sections.now pairs.now wide cursor.old }
{
    let mut path = None;
    let mut directory = None;
    'pairs: for pair in pairs {
        let value = read_value(cursor, pair.form, wide)?;
        path = kept_or(path, DW_LNCT_path, pair.content, value);
        directory = kept_or(directory, DW_LNCT_directory_index, pair.content, value);
    }
    Ok(FileEntry {
        path: path_in(sections, path),
        directory: directory_in(directory),
    })
}
