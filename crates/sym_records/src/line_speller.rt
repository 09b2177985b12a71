//! Putting a record into a buffer in front of a sink.
ghost use Rattle.std.specs.Prelude.{◌≡◌, ◌<◌, ◌∷◌, ◌++◌, length};
ghost use Rattle.std.specs.Fmt.{decimal};
ghost use Rattle.std.specs.List.{flat_map};
ghost use Rattle.sym_rules.specs.Buffer.{Hands};
ghost use Rattle.sym_records.specs.Canon.{body, canon};
ghost use Rattle.sym_records.specs.Fields.{hex, mark, spelled_range};
ghost use Rattle.sym_records.specs.Listed.{said, spelled_field};
ghost use Rattle.sym_records.specs.Records.{headed, keyword};

use crate::digits::HexText;
use crate::field::Field;
use crate::line::{Extent, SymLine};
use crate::table::{fields_of, headed, keyword_of};
use itoa::Buffer;
use sym_edges::{Failed, Sink};
use sym_rules::{Waiting, put, put_rules, put_word};

/// Puts a space and a hexadecimal number.
fn put_hex<O: Sink, const N: usize>(
    sink: &mut O,
    waiting: &mut Waiting<N>,
    number: u64,
) -> Result<(), Failed>
    ensures { Hands result (O.taken sink.old) (O.faults sink.old) waiting.old (32 ∷ hex number) (O.taken sink.new) (O.faults sink.new) waiting.new }
{
    let digits = HexText::of(number);
    put_word(sink, waiting, digits.as_slice())
}

/// Puts a space and a decimal number.
fn put_decimal<O: Sink, const N: usize>(
    sink: &mut O,
    waiting: &mut Waiting<N>,
    number: u32,
) -> Result<(), Failed>
    ensures { Hands result (O.taken sink.old) (O.faults sink.old) waiting.old (32 ∷ decimal number) (O.taken sink.new) (O.faults sink.new) waiting.new }
{
    let mut buffer = Buffer::new();
    put_word(sink, waiting, buffer.format(number).as_bytes())
}

/// Puts a space and `m`, if `many`.
fn put_mark<O: Sink, const N: usize>(
    sink: &mut O,
    waiting: &mut Waiting<N>,
    many: bool,
) -> Result<(), Failed>
    ensures { Hands result (O.taken sink.old) (O.faults sink.old) waiting.old (mark many) (O.taken sink.new) (O.faults sink.new) waiting.new }
{
    if many {
        put(sink, waiting, b" m")
    } else {
        put(sink, waiting, b"")
    }
}

/// Puts ` m` if `many`, then a space and a hexadecimal number.
fn put_marked<O: Sink, const N: usize>(
    sink: &mut O,
    waiting: &mut Waiting<N>,
    many: bool,
    number: u64,
) -> Result<(), Failed>
    ensures { Hands result (O.taken sink.old) (O.faults sink.old) waiting.old (mark many ++ 32 ∷ hex number) (O.taken sink.new) (O.faults sink.new) waiting.new }
{
    match put_mark(sink, waiting, many) {
        Ok(()) => {}
        Err(Failed) => return Err(Failed),
    }
    put_hex(sink, waiting, number)
}

fn put_range<O: Sink, const N: usize>(
    sink: &mut O,
    waiting: &mut Waiting<N>,
    range: Extent,
) -> Result<(), Failed>
    ensures { Hands result (O.taken sink.old) (O.faults sink.old) waiting.old (spelled_range range) (O.taken sink.new) (O.faults sink.new) waiting.new }
{
    match put_hex(sink, waiting, range.address) {
        Ok(()) => {}
        Err(Failed) => return Err(Failed),
    }
    put_hex(sink, waiting, range.size)
}

/// Puts ranges, with one space before each word.
fn put_ranges<O: Sink, const N: usize>(
    sink: &mut O,
    waiting: &mut Waiting<N>,
    ranges: &[Extent],
) -> Result<(), Failed>
    ensures { Hands result (O.taken sink.old) (O.faults sink.old) waiting.old (flat_map spelled_range ranges.now) (O.taken sink.new) (O.faults sink.new) waiting.new }
{
    for range in ranges {
        match put_range(sink, waiting, *range) {
            Ok(()) => {}
            Err(Failed) => return Err(Failed),
        }
    }
    Ok(())
}

/// Puts a space and a field.
fn put_field<O: Sink, const N: usize>(
    sink: &mut O,
    waiting: &mut Waiting<N>,
    field: Field<'_>,
) -> Result<(), Failed>
    ensures { Hands result (O.taken sink.old) (O.faults sink.old) waiting.old (spelled_field (said field.entry)) (O.taken sink.new) (O.faults sink.new) waiting.new }
{
    match field {
        Field::Word(word) => put_word(sink, waiting, word),
        Field::Name(name) => put_word(sink, waiting, name),
        Field::Hex(number) => put_hex(sink, waiting, number),
        Field::Marked(many, number) => put_marked(sink, waiting, many, number),
        Field::Decimal(number) => put_decimal(sink, waiting, number),
        Field::Ranges(ranges) => put_ranges(sink, waiting, ranges),
        Field::Rules(rules) => put_rules(sink, waiting, rules),
    }
}

/// Puts fields, with one space before each.
fn put_fields<O: Sink, const N: usize>(
    sink: &mut O,
    waiting: &mut Waiting<N>,
    fields: &[Field<'_>],
) -> Result<(), Failed>
    ensures { Hands result (O.taken sink.old) (O.faults sink.old) waiting.old (flat_map (λ f. spelled_field (said f)) fields.now) (O.taken sink.new) (O.faults sink.new) waiting.new }
{
    for field in fields {
        match put_field(sink, waiting, *field) {
            Ok(()) => {}
            Err(Failed) => return Err(Failed),
        }
    }
    Ok(())
}

/// Puts a record that has a keyword, without LF.
fn put_worded<O: Sink, const N: usize>(
    sink: &mut O,
    waiting: &mut Waiting<N>,
    line: &SymLine,
) -> Result<(), Failed>
    requires { 0 < length (headed (keyword line.now)) }
    ensures { Hands result (O.taken sink.old) (O.faults sink.old) waiting.old (body line.now) (O.taken sink.new) (O.faults sink.new) waiting.new }
{
    let list = fields_of(line);
    let fields = list.as_slice();
    let words = headed(keyword_of(line));
    match put(sink, waiting, words.split_at(1).1) {
        Ok(()) => {}
        Err(Failed) => return Err(Failed),
    }
    put_fields(sink, waiting, fields)
}

/// Puts a hexadecimal number, and then fields with one space before each.
fn put_numbered<O: Sink, const N: usize>(
    sink: &mut O,
    waiting: &mut Waiting<N>,
    number: u64,
    fields: &[Field<'_>],
) -> Result<(), Failed>
    ensures { Hands result (O.taken sink.old) (O.faults sink.old) waiting.old (hex number ++ flat_map (λ f. spelled_field (said f)) fields.now) (O.taken sink.new) (O.faults sink.new) waiting.new }
{
    let start = HexText::of(number);
    match put(sink, waiting, start.as_slice()) {
        Ok(()) => {}
        Err(Failed) => return Err(Failed),
    }
    put_fields(sink, waiting, fields)
}

/// Puts a record without LF.
fn put_body<O: Sink, const N: usize>(
    sink: &mut O,
    waiting: &mut Waiting<N>,
    line: &SymLine,
) -> Result<(), Failed>
    ensures { Hands result (O.taken sink.old) (O.faults sink.old) waiting.old (body line.now) (O.taken sink.new) (O.faults sink.new) waiting.new }
{
    match line {
        SymLine::Line {
            address,
            size,
            line,
            file,
        } => {
            let rest = [
                Field::Hex(*size),
                Field::Decimal(*line),
                Field::Decimal(*file),
            ];
            put_numbered(sink, waiting, *address, &rest)
        }
        _ => put_worded(sink, waiting, line),
    }
}

/// Puts a record's canonical spelling.
pub(crate) fn put_record<O: Sink, const N: usize>(
    sink: &mut O,
    waiting: &mut Waiting<N>,
    line: &SymLine,
) -> Result<(), Failed>
    ensures { Hands result (O.taken sink.old) (O.faults sink.old) waiting.old (canon line.now) (O.taken sink.new) (O.faults sink.new) waiting.new }
{
    match put_body(sink, waiting, line) {
        Ok(()) => {}
        Err(Failed) => return Err(Failed),
    }
    put(sink, waiting, b"\n")
}
