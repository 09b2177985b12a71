//! The records, their keywords and their fields.
ghost use Rattle.std.specs.Prelude.{◌≡◌};
ghost use Rattle.sym_records.specs.Listed.{fields};
ghost use Rattle.sym_records.specs.Records.{headed, keyword};

use crate::field::Field;
use crate::keyword::Keyword;
use crate::line::SymLine;
use crate::listed::FieldList;

/// The table of records, in the form that `$make` writes: for each record the words of its keyword, with one space before each, and its fields in the
/// order of the line.
macro_rules! records {
    ($make:ident, $given:expr) => {
        $make! { $given;
            Module { binary }: b" MODULE", four(
                Word(binary.parts().os.as_slice()),
                Word(binary.parts().arch.as_slice()),
                Word(binary.parts().id.as_slice()),
                Name(binary.parts().name.as_slice())
            );
            Info { text }: b" INFO", one(Name(text.as_slice()));
            File { number, name }: b" FILE", two(Decimal(*number), Name(name.as_slice()));
            Origin { number, name }: b" INLINE_ORIGIN", two(Decimal(*number), Name(name.as_slice()));
            Func { many, address, size, params, name }: b" FUNC", four(
                Marked(*many, *address),
                Hex(*size),
                Hex(*params),
                Name(name.as_slice())
            );
            Inline { level, call_line, call_file, origin, ranges }: b" INLINE", five(
                Decimal(*level),
                Decimal(*call_line),
                Decimal(*call_file),
                Decimal(*origin),
                Ranges(ranges.as_slice())
            );
            Line { address, size, line, file }: b"", four(
                Hex(*address),
                Hex(*size),
                Decimal(*line),
                Decimal(*file)
            );
            Public { many, address, params, name }: b" PUBLIC", three(
                Marked(*many, *address),
                Hex(*params),
                Name(name.as_slice())
            );
            Init { address, size, rules }: b" STACK CFI INIT", three(
                Hex(*address),
                Hex(*size),
                Rules(rules.as_slice())
            );
            Change { address, rules }: b" STACK CFI", two(Hex(*address), Rules(rules.as_slice()));
        }
    };
}

macro_rules! keyword_by {
    ($line:expr; $($record:ident { $($held:ident),* }: $words:expr, $count:ident($($kind:ident($($value:expr),*)),*);)*) => {
        match $line {
            $(SymLine::$record { .. } => Keyword::$record,)*
        }
    };
}

macro_rules! words_by {
    ($keyword:expr; $($record:ident { $($held:ident),* }: $words:expr, $count:ident($($kind:ident($($value:expr),*)),*);)*) => {
        match $keyword {
            $(Keyword::$record => $words,)*
        }
    };
}

macro_rules! fields_by {
    ($line:expr; $($record:ident { $($held:ident),* }: $words:expr, $count:ident($($kind:ident($($value:expr),*)),*);)*) => {
        match $line {
            $(SymLine::$record { $($held),* } => FieldList::$count($(Field::$kind($($value),*)),*),)*
        }
    };
}

/// A record's keyword.
pub fn keyword_of(line: &SymLine) -> Keyword
    ensures { result ≡ keyword line.now }
{
    records!(keyword_by, line)
}

/// The words of a keyword, with one space before each. A line record has none.
pub(crate) fn headed(keyword: Keyword) -> &'static [u8]
    ensures { result.now ≡ headed keyword }
{
    records!(words_by, keyword)
}

/// The fields of a record (Breakpad's symbol_files.md): what follows its keyword.
pub fn fields_of<'a>(line: &'a SymLine) -> FieldList<'a>
    ensures { result ≡ fields line.now }
{
    records!(fields_by, line)
}
