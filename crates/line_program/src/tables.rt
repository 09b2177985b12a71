//! The tables of directories and files.
ghost use Rattle.std.specs.Prelude.{◌≡◌, ◌==◌, ◌||◌, false, IfOk, OnOk};
ghost use Rattle.leb_cursor.specs.Ahead.{gave_as};
ghost use Rattle.leb_cursor.specs.Lists.{list_at};
ghost use Rattle.line_program.specs.FileTables.{old_entry_at, old_tables_at, pair_at, pairs_at, counted_at, entries_at, new_tables_at, tables_at};
ghost use Rattle.line_program.specs.Lists.{several_at};
ghost use Rattle.line_program.specs.internal.Needed.{needed};

use crate::entries::{
    DW_LNCT_directory_index, DW_LNCT_path, is_idle, read_entry, read_old_entry, read_pair,
};
use crate::entry_format::EntryFormat;
use crate::fault::{LineFault, Reading};
use crate::file_entry::FileEntry;
use crate::header::Header;
use abbrev_units::{DwarfKind, Sections};
use leb_cursor::Cursor;
use std::alloc::Global;
use std::marker::Model;
use sym_edges::OutOfMemory;

/// At first memory for at most this many entries is allocated; most tables have no more.
const USUAL: usize = 512;

/// The pairs of an entry format of version 5, and those of them that have an effect on entries.
#[derive(Drop)]
pub struct FormatLists {
    pairs: Vec<EntryFormat>,
    needed: Vec<EntryFormat>,
}

impl FormatLists {
    pub fn new(alloc: Global) -> FormatLists {
        FormatLists {
            pairs: Vec::new(alloc),
            needed: Vec::new(alloc),
        }
    }
}

/// What is needed to read entries of version 5: the sections that have their paths, the place of
/// the line table, and whether its format is the 64-bit one.
#[derive(Drop)]
struct EntrySource<'s, 'a> {
    alloc: Global,
    sections: &'s Sections<'a>,
    start: usize,
    wide: bool,
}

/// The tables of directories and of files.
#[derive(Drop)]
pub struct Tables<'a> {
    pub directories: Vec<FileEntry<'a>>,
    pub files: Vec<FileEntry<'a>>,
}

impl<'a> Model for Tables<'a> {
    ghost use Rattle.line_program.specs.FileTables.{Tables};

    ghost Value = { Tables };

    ghost view = { λ t. record { directories = t.directories.items; files = t.files.items } };
}

/// Reads a list of versions 2 to 4, up to the empty path that ends it.
#[tactic(auto, using(crate::proofs::EntryLemmas::list_begins, crate::proofs::EntryLemmas::list_one, crate::proofs::EntryLemmas::list_done, crate::proofs::EntryLemmas::list_cut, crate::proofs::EntryLemmas::list_shorter))]
fn read_old_entries<'a>(
    alloc: Global,
    cursor: &mut Cursor<'a>,
    of_files: bool,
) -> Reading<Vec<FileEntry<'a>>>
    ensures { IfOk result (λ read. gave_as (λ entries. entries.items) read cursor.new ≡ list_at (old_entry_at of_files) cursor.old) }
{
    let mut entries = Vec::new(alloc);
    'entries: loop {
        match read_old_entry(cursor, of_files) {
            Ok(Some(entry)) => entries.push(entry)?,
            Ok(None) => return Ok(Ok(entries)),
            Err(fault) => return Ok(Err(fault)),
        }
    }
}

/// Replaces `pairs` by the next `count` pairs of a format.
#[tactic(auto, using(crate::proofs::EntryLemmas::pairs_begin, crate::proofs::EntryLemmas::pairs_one, crate::proofs::EntryLemmas::pairs_done, crate::proofs::EntryLemmas::pairs_cut))]
fn read_some_pairs(cursor: &mut Cursor<'_>, pairs: &mut Vec<EntryFormat>, count: u8) -> Reading<()>
    ensures { IfOk result (λ read. gave_as (λ u. pairs.new.items) read cursor.new ≡ several_at pair_at count cursor.old) }
{
    pairs.clear();
    'pairs: for turn in 0..count {
        match read_pair(cursor) {
            Ok(pair) => pairs.push(pair)?,
            Err(fault) => return Ok(Err(fault)),
        }
    }
    Ok(Ok(()))
}

/// Replaces `pairs` by the pairs of a format, which come after their count.
#[tactic(auto, unfolding(crate::specs::FileTables::pairs_at))]
fn read_pairs(cursor: &mut Cursor<'_>, pairs: &mut Vec<EntryFormat>) -> Reading<()>
    ensures { IfOk result (λ read. gave_as (λ u. pairs.new.items) read cursor.new ≡ pairs_at cursor.old) }
{
    match cursor.u8() {
        Ok(count) => read_some_pairs(cursor, pairs, count),
        Err(fault) => Ok(Err(fault.into())),
    }
}

/// Whether a content type was seen before or is this one.
fn is_seen(before: bool, content: u64, of: u64) -> bool
    ensures { result ≡ (before || (content == of)) }
{
    before || content == of
}

/// Replaces `kept` by the pairs that have an effect on entries. Of the pairs whose values have no
/// bytes these are only the first one of a path and the first one of a directory.
#[tactic(auto, using(crate::proofs::NeededLemmas::needed_begins, crate::proofs::NeededLemmas::needed_idle, crate::proofs::NeededLemmas::needed_one, crate::proofs::NeededLemmas::needed_all))]
fn keep_needed(kept: &mut Vec<EntryFormat>, pairs: &[EntryFormat]) -> Result<(), OutOfMemory>
    ensures { OnOk result (kept.new.items ≡ needed false false pairs.now) }
{
    kept.clear();
    let mut path = false;
    let mut directory = false;
    'pairs: for place in 0..pairs.len() {
        let pair = pairs[place];
        if is_idle(path, directory, pair) {
            continue;
        }
        path = is_seen(path, pair.content, DW_LNCT_path);
        directory = is_seen(directory, pair.content, DW_LNCT_directory_index);
        kept.push(pair)?;
    }
    Ok(())
}

/// Reads `count` entries of version 5. It is a fault if the count is greater than the number of
/// bytes left.
#[tactic(auto, using(crate::proofs::EntryLemmas::entries_begin, crate::proofs::EntryLemmas::entries_one, crate::proofs::EntryLemmas::entries_done, crate::proofs::EntryLemmas::entries_cut), unfolding(crate::specs::FileTables::counted_at))]
fn read_counted<'a>(
    source: &EntrySource<'_, 'a>,
    cursor: &mut Cursor<'a>,
    pairs: &[EntryFormat],
    count: u64,
) -> Reading<Vec<FileEntry<'a>>>
    ensures { IfOk result (λ read. gave_as (λ entries. entries.items) read cursor.new ≡ counted_at source.now.sections.now source.now.start pairs.now source.now.wide count cursor.old) }
{
    let left = (cursor.end() - cursor.at()) as u64;
    if left < count {
        return Ok(Err(LineFault::at(DwarfKind::LineHeader, source.start)));
    }
    let sections = source.sections;
    let wide = source.wide;
    let mut entries = Vec::with_capacity(source.alloc, (count as usize).min(USUAL))?;
    'entries: for turn in 0..count {
        match read_entry(cursor, sections, pairs, wide) {
            Ok(entry) => entries.push(entry)?,
            Err(fault) => return Ok(Err(fault)),
        }
    }
    Ok(Ok(entries))
}

/// Reads a table of version 5.
#[tactic(auto, using(crate::proofs::NeededLemmas::counted_same), unfolding(crate::specs::FileTables::entries_at))]
fn read_entries<'a>(
    source: &EntrySource<'_, 'a>,
    formats: &mut FormatLists,
    cursor: &mut Cursor<'a>,
) -> Reading<Vec<FileEntry<'a>>>
    ensures { IfOk result (λ read. gave_as (λ entries. entries.items) read cursor.new ≡ entries_at source.now.sections.now source.now.start source.now.wide cursor.old) }
{
    match read_pairs(cursor, &mut formats.pairs)? {
        Ok(()) => {}
        Err(fault) => return Ok(Err(fault)),
    }
    keep_needed(&mut formats.needed, formats.pairs.as_slice())?;
    match cursor.uleb() {
        Ok(count) => read_counted(source, cursor, formats.needed.as_slice(), count),
        Err(fault) => Ok(Err(fault.into())),
    }
}

/// Reads the tables of versions 2 to 4.
#[tactic(auto, unfolding(crate::specs::FileTables::old_tables_at))]
fn read_old_tables<'a>(alloc: Global, mut cursor: Cursor<'a>) -> Reading<Tables<'a>>
    ensures { IfOk result (λ read. read ≡ old_tables_at cursor.entry) }
{
    let directories = match read_old_entries(alloc, &mut cursor, false)? {
        Ok(directories) => directories,
        Err(fault) => return Ok(Err(fault)),
    };
    match read_old_entries(alloc, &mut cursor, true)? {
        Ok(files) => Ok(Ok(Tables { directories, files })),
        Err(fault) => Ok(Err(fault)),
    }
}

/// Reads the tables of version 5.
#[tactic(auto, unfolding(crate::specs::FileTables::new_tables_at))]
fn read_new_tables<'a>(
    source: &EntrySource<'_, 'a>,
    formats: &mut FormatLists,
    mut cursor: Cursor<'a>,
) -> Reading<Tables<'a>>
    ensures { IfOk result (λ read. read ≡ new_tables_at source.now.sections.now source.now.start source.now.wide cursor.entry) }
{
    let directories = match read_entries(source, formats, &mut cursor)? {
        Ok(directories) => directories,
        Err(fault) => return Ok(Err(fault)),
    };
    match read_entries(source, formats, &mut cursor)? {
        Ok(files) => Ok(Ok(Tables { directories, files })),
        Err(fault) => Ok(Err(fault)),
    }
}

/// Reads the tables of a line table that starts at `start`, given its header.
#[tactic(auto, unfolding(crate::specs::FileTables::tables_at))]
pub fn read_tables<'a>(
    alloc: Global,
    formats: &mut FormatLists,
    sections: &Sections<'a>,
    start: usize,
    header: &Header<'a>,
) -> Reading<Tables<'a>>
    ensures { IfOk result (λ read. read ≡ tables_at sections.now start header.now) }
{
    let cursor = header.tables.fork();
    if header.program.version != 5 {
        return read_old_tables(alloc, cursor);
    }
    let source = EntrySource {
        alloc,
        sections,
        start,
        wide: header.wide,
    };
    read_new_tables(&source, formats, cursor)
}
