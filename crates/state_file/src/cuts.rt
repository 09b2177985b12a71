//! How a state file is cut into lines, and a line into words.
ghost use Rattle.std.specs.Prelude.{◌≡◌, ◌<◌, ◌∷◌, length, IfSome};
ghost use Rattle.std.specs.Option.{option_copied, option_map};
ghost use Rattle.sym_rules.specs.Cuts.{is_margin, from, trim_end, split_lines};
ghost use Rattle.sym_rules.specs.RuleReading.{words};
ghost use Rattle.sym_records.specs.Text.{key_of, trimmed};
ghost use Rattle.state_file.specs.internal.Parts.{lines_behind, two_of};

use memchr::memchr;
use sym_rules::{cut_word, skip_spaces, trim_crs, trim_margin};

/// The first line without its LF, and the bytes after that LF, if there is one.
pub(crate) fn cut_line(bytes: &[u8]) -> (&[u8], Option<&[u8]>)
    ensures lines { split_lines bytes.now ≡ result.0.now ∷ lines_behind (option_copied result.1) }
    ensures shorter { IfSome result.1 (λ behind. length behind.now < length bytes.now) }
{
    match memchr(b'\n', bytes) {
        Some(at) => (bytes.split_at(at).0, Some(bytes.split_at(at + 1).1)),
        None => (bytes, None),
    }
}

/// The first word of a line, and the bytes after it without the spaces and CRs at the end.
#[tactic(auto, unfolding(sym_records::specs::Text::key_of))]
pub(crate) fn cut_key(line: &[u8]) -> (&[u8], &[u8])
    ensures key { result.0.now ≡ key_of line.now }
    ensures fields { result.1.now ≡ trim_end is_margin (from 32 (trimmed line.now)) }
{
    let (key, behind) = cut_word(skip_spaces(trim_crs(line)));
    (key, trim_margin(behind))
}

/// The two words, if there are exactly two.
pub(crate) fn two_words(bytes: &[u8]) -> Option<(&[u8], &[u8])>
    ensures { option_map (λ two. (two.0.now, two.1.now)) result ≡ two_of (words bytes.now) }
{
    let (first, behind) = cut_word(skip_spaces(bytes));
    let (second, rest) = cut_word(skip_spaces(behind));
    if second.is_empty() {
        return None;
    }
    if !skip_spaces(rest).is_empty() {
        return None;
    }
    Some((first, second))
}
