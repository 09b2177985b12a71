//! How a text is cut into lines.
ghost use Rattle.std.specs.Prelude.{◌≡◌, ◌<◌, ◌∷◌, ◌++◌, true, length, MatchOption, IfSome};
ghost use Rattle.std.specs.List.{list_all};
ghost use Rattle.sym_rules.specs.Cuts.{is_within_line};

use memchr::memchr;

/// The first line without its LF, and the bytes after the LF; `None` if there is no LF.
#[inline]
pub(crate) fn cut_line(bytes: &[u8]) -> Option<(&[u8], &[u8])>
    ensures cut { MatchOption result (list_all is_within_line bytes.now ≡ true)
        (λ cut. (list_all is_within_line cut.0.now ≡ true) × (bytes.now ≡ cut.0.now ++ 10 ∷ cut.1.now)) }
    ensures shorter { IfSome result (λ cut. length cut.1.now < length bytes.now) }
{
    match memchr(b'\n', bytes) {
        Some(at) => Some((bytes.split_at(at).0, bytes.split_at(at + 1).1)),
        None => None,
    }
}
