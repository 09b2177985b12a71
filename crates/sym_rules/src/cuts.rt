//! How a line is cut into fields (Breakpad's symbol_files.md).
ghost use Rattle.std.specs.Prelude.{◌≡◌, ◌≤◌, length};
ghost use Rattle.std.specs.List.{list_all};
ghost use Rattle.sym_rules.specs.Cuts.{is_space, is_cr, is_margin, before, from, skip, trim_end};

/// The bytes after the leading spaces.
#[inline]
#[tactic(auto, using(clean_names::proofs::SkipLemmas::skip_stop, clean_names::proofs::SkipLemmas::skip_more, clean_names::proofs::SkipLemmas::skip_end))]
pub fn skip_spaces(bytes: &[u8]) -> &[u8]
    ensures skipped { result.now ≡ skip is_space bytes.now }
    ensures shorter { length result.now ≤ length bytes.now }
{
    for (at, b) in bytes.iter().enumerate() {
        if *b != b' ' {
            return bytes.split_at(at).1;
        }
    }
    &[]
}

/// The bytes before the first space, and the bytes from that space on.
#[inline]
#[tactic(auto, using(crate::proofs::CutLemmas::word_stop, crate::proofs::CutLemmas::rest_stop, crate::proofs::CutLemmas::word_more, crate::proofs::CutLemmas::rest_more, crate::proofs::CutLemmas::word_end, crate::proofs::CutLemmas::rest_end))]
pub fn cut_word(bytes: &[u8]) -> (&[u8], &[u8])
    ensures word { result.0.now ≡ before 32 bytes.now }
    ensures rest { result.1.now ≡ from 32 bytes.now }
{
    for (at, b) in bytes.iter().enumerate() {
        if *b == b' ' {
            return bytes.split_at(at);
        }
    }
    (bytes, &[])
}

/// The bytes without the CRs at the end.
#[inline]
#[tactic(auto, using(crate::proofs::CutLemmas::cr_stop, crate::proofs::CutLemmas::cr_more, crate::proofs::CutLemmas::cr_end))]
pub fn trim_crs(bytes: &[u8]) -> &[u8]
    ensures { result.now ≡ trim_end is_cr bytes.now }
{
    let mut end = bytes.len();
    'ends: while end > 0 {
        if bytes[end - 1] != b'\r' {
            return bytes.split_at(end).0;
        }
        end -= 1;
    }
    &[]
}

/// Whether the byte is a space or CR.
#[inline]
fn is_margin(b: u8) -> bool
    ensures { result ≡ is_margin b }
{
    b == b' ' || b == b'\r'
}

/// The bytes without the spaces and CRs at the end.
#[inline]
#[tactic(auto, using(crate::proofs::CutLemmas::margin_stop, crate::proofs::CutLemmas::margin_more, crate::proofs::CutLemmas::margin_end))]
pub fn trim_margin(bytes: &[u8]) -> &[u8]
    ensures { result.now ≡ trim_end is_margin bytes.now }
{
    let mut end = bytes.len();
    'ends: while end > 0 {
        if !is_margin(bytes[end - 1]) {
            return bytes.split_at(end).0;
        }
        end -= 1;
    }
    &[]
}

/// Whether the line has nothing but spaces and CRs.
#[inline]
pub fn is_blank(line: &[u8]) -> bool
    ensures { result ≡ list_all is_margin line.now }
{
    line.iter().all(|b| is_margin(*b))
}
