//! The identity of a file without a build id, from the first bytes of its code.
ghost use Rattle.std.specs.Prelude.{◌≡◌, ◌≤◌, length};
ghost use Rattle.elf_sections.specs.Identity.{folded, front16, folded_byte};

/// The exclusive or of all groups of 16 bytes among the first `limit` bytes; bytes after the end
/// count as zero.
#[tactic(auto, using(crate::proofs::IdentityLemmas::folded_is))]
pub fn fold_text(text: &[u8], limit: usize) -> [u8; 16]
    ensures { result ≡ folded limit text.now }
{
    let mut identity = [0u8; 16];
    let count = limit.min(text.len());
    'bytes: for k in 0..count {
        let place = k % 16;
        identity[place] ^= text[k];
    }
    identity
}

/// The first 16 bytes of an id; a shorter id is padded with zeros.
#[tactic(auto, using(crate::proofs::IdentityLemmas::front16_is))]
pub fn pad_id(id: &[u8]) -> [u8; 16]
    ensures { result ≡ front16 id.now }
{
    let mut identity = [0u8; 16];
    let count = id.len().min(16);
    identity[..count].copy_from_slice(id.split_at(count).0);
    identity
}
