//! Parses the command-line arguments.
ghost use Rattle.std.specs.Prelude.{◌≡◌, ◌≤◌, ◌↔◌, ℕ, IsTrue, map, slice_index};
ghost use Rattle.std.specs.String.{string_bytes};
ghost use Rattle.std.specs.Option.{option_map};
ghost use Rattle.dumpsyms_cmd.specs.Words.{source_view, command_view, command_of, number_upto, address_of, sample_of, alone, dump_usual, debug_words, dump_words, judge_words, two_words, three_words, four_words, five_words, six_words, module_name, HasWorkers, dump, lookup, frame, MOST_WORKERS, MOST_UNITS};

use memchr::memrchr;
use state_file::hex_value;

/// The number of workers if the arguments name none, and always for `judge`.
pub const USUAL_WORKERS: usize = 4;

/// The most workers that the arguments may name.
const MOST_WORKERS: usize = 64;

/// The most units of a generated file.
const MOST_UNITS: usize = 20000;

/// The line for invalid arguments.
pub const USAGE: &[u8] =
    b"usage: dumpsyms dump ELF, check SYM, lookup SYM ADDR, frame SYM ADDR STATE, sample N, walk SYM STATE, judge ELF SYM, names SYM, dump --full ELF, stacks CORE STORE\n";

/// Where the separate debug file of a binary is: at a path, or below a root directory, at a place that the binary's build id gives.
#[derive(Clone, Copy, Debug)]
pub enum DebugPlace<'w> {
    File { path: &'w str },
    Root { root: &'w str },
}

/// Which image is dumped: that of an ELF file, with a debug file or without one. Compressed sections are read if `full`.
#[derive(Clone, Copy, Debug)]
pub struct ElfPlace<'w> {
    pub full: bool,
    pub elf: &'w str,
    pub debug: Option<DebugPlace<'w>>,
}

/// What is asked of a symbol file.
#[derive(Clone, Copy, Debug)]
pub enum SymQuery {
    /// `check SYM`: what a checker finds.
    Check,
    /// `lookup SYM ADDR`: what the file names at an address.
    Lookup { address: u64 },
    /// `names SYM`: the file with its names in readable form.
    Names,
}

/// What is asked of a symbol file and a state file.
#[derive(Clone, Copy, Debug)]
pub enum StateQuery {
    /// `frame SYM ADDR STATE`: what the rules at an address evaluate to.
    Frame { address: u64 },
    /// `walk SYM STATE`: the frames of the stack.
    Walk,
}

/// What the arguments ask for.
#[derive(Clone, Copy, Debug)]
pub enum Command<'w> {
    /// `dump ELF`, also with `--full`, with `--workers N`, or with a debug file.
    Dump {
        source: ElfPlace<'w>,
        workers: usize,
    },
    /// A command on a symbol file.
    Symbols {
        sym: &'w str,
        query: SymQuery,
    },
    /// A command on a symbol file and a state file.
    States {
        sym: &'w str,
        query: StateQuery,
        state: &'w str,
    },
    /// `sample N` and `sample N --workers W`
    Sample {
        units: usize,
        workers: usize,
    },
    /// `judge ELF SYM`, also with `--full`, or with a debug file.
    Judge {
        source: ElfPlace<'w>,
        sym: &'w str,
    },
    /// `stacks CORE STORE`
    Stacks {
        core: &'w str,
        folder: &'w str,
    },
}

/// Whether an argument begins with a digit from 1 to 9.
fn begins_number(word: &[u8]) -> bool
    ensures { IsTrue result ↔ ((49 ≤ slice_index word.now 0) × (slice_index word.now 0 ≤ 57)) }
{
    if word.is_empty() {
        return false;
    }
    b'1' <= word[0] && word[0] <= b'9'
}

/// The number that an argument spells, if it is at most `most`.
#[tactic(auto, using(crate::proofs::WordLemmas::number_fits, crate::proofs::WordLemmas::number_passes, crate::proofs::WordLemmas::number_fails, crate::proofs::WordLemmas::number_other))]
fn parse_number(word: &str, most: usize) -> Option<usize>
    ensures { result ≡ number_upto most word.now }
{
    if !begins_number(word.as_bytes()) {
        return None;
    }
    match word.parse::<usize>() {
        Ok(number) => {
            if number <= most {
                return Some(number);
            }
            None
        }
        Err(_) => None,
    }
}

/// The address that an argument spells: 1 to 16 hexadecimal digits.
#[tactic(auto, using(crate::proofs::WordLemmas::no_address, crate::proofs::WordLemmas::some_address))]
fn parse_address(word: &str) -> Option<u64>
    ensures { result ≡ address_of word.now }
{
    let digits = word.as_bytes();
    if digits.is_empty() {
        return None;
    }
    hex_value(digits)
}

/// The `sample` command, given both numbers.
fn parse_sample<'w>(units: &str, workers: Option<usize>) -> Option<Command<'w>>
    ensures { option_map command_view result ≡ sample_of (number_upto MOST_UNITS units.now) workers }
{
    match parse_number(units, MOST_UNITS) {
        Some(units) => match workers {
            Some(workers) => Some(Command::Sample { units, workers }),
            None => None,
        },
        None => None,
    }
}

/// An ELF file without a debug file.
fn alone<'w>(full: bool, elf: &'w str) -> ElfPlace<'w>
    ensures { source_view result ≡ alone full elf.now }
{
    ElfPlace {
        full,
        elf,
        debug: None,
    }
}

/// A dump by the usual number of workers.
fn dump_usual<'w>(source: ElfPlace<'w>) -> Command<'w>
    ensures { command_view result ≡ dump_usual (source_view source.entry) }
{
    Command::Dump {
        source,
        workers: USUAL_WORKERS,
    }
}

/// The arguments `--debug FILE` or `--debug-root DIR` after an ELF file.
fn parse_debug<'w>(full: bool, elf: &'w str, word: &str, place: &'w str) -> Option<ElfPlace<'w>>
    ensures { option_map source_view result ≡ debug_words full elf.now word.now place.now }
{
    if word == "--debug" {
        return Some(ElfPlace {
            full,
            elf,
            debug: Some(DebugPlace::File { path: place }),
        });
    }
    if word == "--debug-root" {
        return Some(ElfPlace {
            full,
            elf,
            debug: Some(DebugPlace::Root { root: place }),
        });
    }
    None
}

/// The `dump` command with `--workers N`.
fn parse_workers<'w>(full: bool, elf: &'w str, number: &str) -> Option<Command<'w>>
    ensures { option_map command_view result ≡ option_map (dump (alone full elf.now)) (number_upto MOST_WORKERS number.now) }
{
    match parse_number(number, MOST_WORKERS) {
        Some(workers) => Some(Command::Dump {
            source: alone(full, elf),
            workers,
        }),
        None => None,
    }
}

/// The `dump` command with two arguments after the ELF file.
fn parse_dump<'w>(full: bool, elf: &'w str, word: &str, value: &'w str) -> Option<Command<'w>>
    ensures { option_map command_view result ≡ dump_words full elf.now word.now value.now }
{
    if word == "--workers" {
        return parse_workers(full, elf, value);
    }
    match parse_debug(full, elf, word, value) {
        Some(source) => Some(dump_usual(source)),
        None => None,
    }
}

/// The `judge` command with two arguments after the symbol file.
fn parse_judge<'w>(
    full: bool,
    elf: &'w str,
    sym: &'w str,
    word: &str,
    value: &'w str,
) -> Option<Command<'w>>
    ensures { option_map command_view result ≡ judge_words full elf.now sym.now word.now value.now }
{
    match parse_debug(full, elf, word, value) {
        Some(source) => Some(Command::Judge { source, sym }),
        None => None,
    }
}

/// The command `lookup SYM ADDR`.
fn parse_lookup<'w>(sym: &'w str, address: &str) -> Option<Command<'w>>
    ensures { option_map command_view result ≡ option_map (lookup sym.now) (address_of address.now) }
{
    match parse_address(address) {
        Some(address) => Some(Command::Symbols {
            sym,
            query: SymQuery::Lookup { address },
        }),
        None => None,
    }
}

/// The command `frame SYM ADDR STATE`.
fn parse_frame<'w>(sym: &'w str, address: &str, state: &'w str) -> Option<Command<'w>>
    ensures { option_map command_view result ≡ option_map (λ a. frame sym.now a state.now) (address_of address.now) }
{
    match parse_address(address) {
        Some(address) => Some(Command::States {
            sym,
            query: StateQuery::Frame { address },
            state,
        }),
        None => None,
    }
}

/// Two arguments: `dump ELF`, `check SYM`, `sample N` and `names SYM`.
fn parse_two<'w>(word: &str, name: &'w str) -> Option<Command<'w>>
    ensures { option_map command_view result ≡ two_words word.now name.now }
{
    if word == "dump" {
        return Some(dump_usual(alone(false, name)));
    }
    if word == "check" {
        return Some(Command::Symbols {
            sym: name,
            query: SymQuery::Check,
        });
    }
    if word == "sample" {
        return parse_sample(name, Some(USUAL_WORKERS));
    }
    if word == "names" {
        return Some(Command::Symbols {
            sym: name,
            query: SymQuery::Names,
        });
    }
    None
}

/// Three arguments: `lookup SYM ADDR`, `walk SYM STATE`, `judge ELF SYM`, `stacks CORE STORE` and `dump --full ELF`.
fn parse_three<'w>(word: &str, name: &'w str, third: &'w str) -> Option<Command<'w>>
    ensures { option_map command_view result ≡ three_words word.now name.now third.now }
{
    if word == "lookup" {
        return parse_lookup(name, third);
    }
    if word == "walk" {
        return Some(Command::States {
            sym: name,
            query: StateQuery::Walk,
            state: third,
        });
    }
    if word == "judge" {
        return Some(Command::Judge {
            source: alone(false, name),
            sym: third,
        });
    }
    if word == "stacks" {
        return Some(Command::Stacks {
            core: name,
            folder: third,
        });
    }
    if word == "dump" && name == "--full" {
        return Some(dump_usual(alone(true, third)));
    }
    None
}

/// Four arguments: `dump ELF` with two more, `sample N --workers W`, `frame SYM ADDR STATE` and `judge --full ELF SYM`.
fn parse_four<'w>(word: &str, name: &'w str, third: &'w str, fourth: &'w str) -> Option<Command<'w>>
    ensures { option_map command_view result ≡ four_words word.now name.now third.now fourth.now }
{
    if word == "dump" {
        return parse_dump(false, name, third, fourth);
    }
    if word == "sample" && third == "--workers" {
        return parse_sample(name, parse_number(fourth, MOST_WORKERS));
    }
    if word == "frame" {
        return parse_frame(name, third, fourth);
    }
    if word == "judge" && name == "--full" {
        return Some(Command::Judge {
            source: alone(true, third),
            sym: fourth,
        });
    }
    None
}

/// Five arguments: `dump --full ELF` with two more, and `judge ELF SYM` with two more.
fn parse_five<'w>(
    word: &str,
    name: &'w str,
    third: &'w str,
    fourth: &'w str,
    fifth: &'w str,
) -> Option<Command<'w>>
    ensures { option_map command_view result ≡ five_words word.now name.now third.now fourth.now fifth.now }
{
    if word == "dump" && name == "--full" {
        return parse_dump(true, third, fourth, fifth);
    }
    if word == "judge" {
        return parse_judge(false, name, third, fourth, fifth);
    }
    None
}

/// Six arguments: `judge --full ELF SYM` with two more. `words` has the first two.
fn parse_six<'w>(
    words: (&str, &str),
    third: &'w str,
    fourth: &'w str,
    fifth: &'w str,
    sixth: &'w str,
) -> Option<Command<'w>>
    ensures { option_map command_view result ≡ six_words words.entry.0.now words.entry.1.now third.now fourth.now fifth.now sixth.now }
{
    if words.0 == "judge" && words.1 == "--full" {
        return parse_judge(true, third, fourth, fifth, sixth);
    }
    None
}

/// The command that the arguments ask for, or none if they are invalid.
#[tactic(auto, using(crate::proofs::WordLemmas::two_few, crate::proofs::WordLemmas::three_few, crate::proofs::WordLemmas::four_few, crate::proofs::WordLemmas::five_few, crate::proofs::WordLemmas::six_few))]
pub fn parse_words(words: &[String]) -> Option<Command<'_>>
    ensures command { option_map command_view result ≡ command_of (map string_bytes words.now) }
    ensures workers { HasWorkers (option_map command_view result) }
{
    match words {
        [word, name] => parse_two(word, name),
        [word, name, third] => parse_three(word, name, third),
        [word, name, third, fourth] => parse_four(word, name, third, fourth),
        [word, name, third, fourth, fifth] => parse_five(word, name, third, fourth, fifth),
        [word, name, third, fourth, fifth, sixth] => {
            parse_six((word, name), third, fourth, fifth, sixth)
        }
        _ => None,
    }
}

/// The part of a path after its last slash, or the whole path if it has no slash.
#[tactic(auto, using(crate::proofs::WordLemmas::last_slash, crate::proofs::WordLemmas::no_slash))]
pub fn name_of(path: &[u8]) -> &[u8]
    ensures { result.now ≡ module_name path.now }
{
    match memrchr(b'/', path) {
        Some(last) => path.split_at(last + 1).1,
        None => path,
    }
}
