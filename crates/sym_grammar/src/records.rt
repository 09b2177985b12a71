//! Each record, read from the bytes after its keyword.
ghost use Rattle.std.specs.Prelude.{◌≡◌, codes};
ghost use Rattle.std.specs.Str.{bytes_eq};
ghost use Rattle.sym_records.specs.Text.{key_of, record_of, record_at, line_read};
ghost use Rattle.sym_records.specs.declared.keyword.Keyword.TheVariants as key;
ghost use Rattle.sym_grammar.specs.internal.Given.{Gives};

use crate::fields::{decimal_at, hex_at, last_at, marked_at, name_at, ranges_at, word_at};
use crate::keys::key_at;
use crate::rules::rules_at;
use std::alloc::Global;
use sym_edges::Stop;
use sym_records::{Binary, BoxedBinary, Keyword, SymLine};
use sym_rules::{ByteText, TextKind, cut_word, is_blank, skip_spaces, trim_crs, trim_margin};

/// `MODULE os arch id name`
#[tactic(auto, unfolding(sym_records::specs::FieldReading::fields_at))]
fn module_of(alloc: Global, bytes: &[u8]) -> Result<SymLine, Stop<TextKind>>
    ensures { Gives result (λ s. s) (record_of key.Module bytes.now) }
{
    let (os, rest) = word_at(trim_crs(bytes))?;
    let (arch, rest) = word_at(rest)?;
    let (id, rest) = word_at(rest)?;
    let name = name_at(alloc, rest)?;
    let binary = Binary {
        os: ByteText::of(Vec::from_slice(alloc, os)?),
        arch: ByteText::of(Vec::from_slice(alloc, arch)?),
        id: ByteText::of(Vec::from_slice(alloc, id)?),
        name,
    };
    Ok(SymLine::Module {
        binary: BoxedBinary::of(alloc, binary)?,
    })
}

/// `INFO text`
#[tactic(auto, unfolding(sym_records::specs::FieldReading::fields_at))]
fn info_of(alloc: Global, bytes: &[u8]) -> Result<SymLine, Stop<TextKind>>
    ensures { Gives result (λ s. s) (record_of key.Info bytes.now) }
{
    let text = name_at(alloc, trim_crs(bytes))?;
    Ok(SymLine::Info { text })
}

/// `FILE number name`
#[tactic(auto, unfolding(sym_records::specs::FieldReading::fields_at))]
fn file_of(alloc: Global, bytes: &[u8]) -> Result<SymLine, Stop<TextKind>>
    ensures { Gives result (λ s. s) (record_of key.File bytes.now) }
{
    let (number, rest) = decimal_at(trim_crs(bytes))?;
    let name = name_at(alloc, rest)?;
    Ok(SymLine::File { number, name })
}

/// `INLINE_ORIGIN number name`
#[tactic(auto, unfolding(sym_records::specs::FieldReading::fields_at))]
fn origin_of(alloc: Global, bytes: &[u8]) -> Result<SymLine, Stop<TextKind>>
    ensures { Gives result (λ s. s) (record_of key.Origin bytes.now) }
{
    let (number, rest) = decimal_at(trim_crs(bytes))?;
    let name = name_at(alloc, rest)?;
    Ok(SymLine::Origin { number, name })
}

/// `FUNC [m] address size params name`
#[tactic(auto, unfolding(sym_records::specs::FieldReading::fields_at))]
fn func_of(alloc: Global, bytes: &[u8]) -> Result<SymLine, Stop<TextKind>>
    ensures { Gives result (λ s. s) (record_of key.Func bytes.now) }
{
    let ((many, address), rest) = marked_at(trim_crs(bytes))?;
    let (size, rest) = hex_at(rest)?;
    let (params, rest) = hex_at(rest)?;
    let name = name_at(alloc, rest)?;
    Ok(SymLine::Func {
        many,
        address,
        size,
        params,
        name,
    })
}

/// `INLINE level call_line call_file origin ranges`
#[tactic(auto, unfolding(sym_records::specs::FieldReading::fields_at))]
fn inline_of(alloc: Global, bytes: &[u8]) -> Result<SymLine, Stop<TextKind>>
    ensures { Gives result (λ s. s) (record_of key.Inline bytes.now) }
{
    let (level, rest) = decimal_at(trim_margin(bytes))?;
    let (call_line, rest) = decimal_at(rest)?;
    let (call_file, rest) = decimal_at(rest)?;
    let (origin, rest) = decimal_at(rest)?;
    let ranges = ranges_at(alloc, rest)?;
    Ok(SymLine::Inline {
        level,
        call_line,
        call_file,
        origin,
        ranges,
    })
}

/// `address size line file`
#[inline]
#[tactic(auto, unfolding(sym_records::specs::FieldReading::fields_at))]
fn line_of(bytes: &[u8]) -> Result<SymLine, Stop<TextKind>>
    ensures { Gives result (λ s. s) (record_of key.Line bytes.now) }
{
    let (address, rest) = hex_at(trim_margin(bytes))?;
    let (size, rest) = hex_at(rest)?;
    let (line, rest) = decimal_at(rest)?;
    let file = last_at(rest)?;
    Ok(SymLine::Line {
        address,
        size,
        line,
        file,
    })
}

/// `PUBLIC [m] address params name`
#[tactic(auto, unfolding(sym_records::specs::FieldReading::fields_at))]
fn public_of(alloc: Global, bytes: &[u8]) -> Result<SymLine, Stop<TextKind>>
    ensures { Gives result (λ s. s) (record_of key.Public bytes.now) }
{
    let ((many, address), rest) = marked_at(trim_crs(bytes))?;
    let (params, rest) = hex_at(rest)?;
    let name = name_at(alloc, rest)?;
    Ok(SymLine::Public {
        many,
        address,
        params,
        name,
    })
}

/// `STACK CFI INIT address size rules`
#[tactic(auto, unfolding(sym_records::specs::FieldReading::fields_at))]
fn init_of(alloc: Global, bytes: &[u8]) -> Result<SymLine, Stop<TextKind>>
    ensures { Gives result (λ s. s) (record_of key.Init bytes.now) }
{
    let (address, rest) = hex_at(trim_margin(bytes))?;
    let (size, rest) = hex_at(rest)?;
    let rules = rules_at(alloc, rest)?;
    Ok(SymLine::Init {
        address,
        size,
        rules,
    })
}

/// `STACK CFI address rules`
#[tactic(auto, unfolding(sym_records::specs::FieldReading::fields_at))]
fn change_of(alloc: Global, bytes: &[u8]) -> Result<SymLine, Stop<TextKind>>
    ensures { Gives result (λ s. s) (record_of key.Change bytes.now) }
{
    let (address, rest) = hex_at(trim_margin(bytes))?;
    let rules = rules_at(alloc, rest)?;
    Ok(SymLine::Change { address, rules })
}

/// The record with a keyword, read from the bytes after the keyword.
#[inline]
fn record_of(alloc: Global, keyword: Keyword, bytes: &[u8]) -> Result<SymLine, Stop<TextKind>>
    ensures { Gives result (λ s. s) (record_of keyword bytes.now) }
{
    match keyword {
        Keyword::Module => module_of(alloc, bytes),
        Keyword::Info => info_of(alloc, bytes),
        Keyword::File => file_of(alloc, bytes),
        Keyword::Origin => origin_of(alloc, bytes),
        Keyword::Func => func_of(alloc, bytes),
        Keyword::Inline => inline_of(alloc, bytes),
        Keyword::Line => line_of(bytes),
        Keyword::Public => public_of(alloc, bytes),
        Keyword::Init => init_of(alloc, bytes),
        Keyword::Change => change_of(alloc, bytes),
    }
}

/// The record of a line that is not blank.
#[inline]
#[tactic(auto, unfolding(sym_records::specs::Text::record_at))]
fn record_at(alloc: Global, line: &[u8]) -> Result<SymLine, Stop<TextKind>>
    ensures { Gives result (λ s. s) (record_at line.now) }
{
    let (keyword, rest) = key_at(skip_spaces(trim_crs(line)))?;
    record_of(alloc, keyword, rest)
}

/// What a line has: a record, or nothing if it is blank.
#[inline]
#[tactic(auto, unfolding(sym_records::specs::Text::line_read))]
pub(crate) fn line_read(alloc: Global, line: &[u8]) -> Result<Option<SymLine>, Stop<TextKind>>
    ensures { Gives result (λ s. s) (line_read line.now) }
{
    if is_blank(line) {
        return Ok(None);
    }
    let record = record_at(alloc, line)?;
    Ok(Some(record))
}

/// Whether the first word of the line is `MODULE`.
#[tactic(auto, unfolding(sym_records::specs::Text::key_of))]
pub(crate) fn begins_module(line: &[u8]) -> bool
    ensures { result ≡ bytes_eq (key_of line.now) (codes "MODULE") }
{
    let (word, _) = cut_word(skip_spaces(trim_crs(line)));
    word == b"MODULE".as_slice()
}
