//! The identity of a build, and the id by which a symbol file names it.
ghost use Rattle.std.specs.Prelude.{◌≡◌, ◌*◌, length, IfOk};
ghost use Rattle.std.specs.String.{string_bytes};
ghost use Rattle.std.specs.Str.Parse.{AllDigits};
ghost use Rattle.hex.specs.Hex.{encode_upper};
ghost use Rattle.elf_sections.specs.Identity.{front16};
ghost use Rattle.debug_pair.specs.ModuleId.{turned, module_id};

use std::alloc::Global;
use sym_edges::OutOfMemory;

/// The identity of a build, given its id: the id's first 16 bytes, padded with zeros.
#[tactic(auto, using(elf_sections::proofs::IdentityLemmas::front16_is))]
pub fn build_identity(id: &[u8]) -> [u8; 16]
    ensures { result ≡ front16 id.now }
{
    let mut identity = [0u8; 16];
    let count = id.len().min(16);
    identity[..count].copy_from_slice(id.split_at(count).0);
    identity
}

/// Bytes in upper-case hexadecimal.
#[tactic(auto, using(crate::proofs::IdentityLemmas::text_length))]
pub fn hex_text(alloc: Global, bytes: &[u8]) -> Result<Vec<u8>, OutOfMemory>
    ensures text { IfOk result (λ v. v.items ≡ encode_upper bytes.now) }
    ensures digits { IfOk result (λ v. AllDigits 16 v.items) }
    ensures len { IfOk result (λ v. length v.items ≡ 2 * length bytes.now) }
{
    Ok(hex::encode_upper(alloc, bytes)?.into_bytes())
}

/// The identity in the byte order in which a GUID is written.
#[tactic(auto, unfolding(crate::specs::ModuleId::turned))]
fn turn_identity(id: [u8; 16]) -> [u8; 16]
    ensures { result ≡ turned id }
{
    [
        id[3], id[2], id[1], id[0], id[5], id[4], id[7], id[6], id[8], id[9], id[10], id[11],
        id[12], id[13], id[14], id[15],
    ]
}

/// The id of an identity in MODULE: 33 hexadecimal digits, of which the last is the age 0.
#[tactic(auto, using(crate::proofs::IdentityLemmas::age_digit), unfolding(crate::specs::ModuleId::module_id))]
pub fn make_id(alloc: Global, identity: [u8; 16]) -> Result<Vec<u8>, OutOfMemory>
    ensures text { IfOk result (λ v. v.items ≡ module_id identity) }
    ensures digits { IfOk result (λ v. AllDigits 16 v.items) }
    ensures len { IfOk result (λ v. length v.items ≡ 33) }
{
    let turned = turn_identity(identity);
    let mut text = hex_text(alloc, &turned)?;
    text.push(b'0')?;
    Ok(text)
}

/// The same id, as a `String`.
#[tactic(auto, unfolding(crate::specs::ModuleId::module_id))]
pub(crate) fn id_text(alloc: Global, identity: [u8; 16]) -> Result<String, OutOfMemory>
    ensures { IfOk result (λ text. string_bytes text ≡ module_id identity) }
{
    let turned = turn_identity(identity);
    let mut text = hex::encode_upper(alloc, &turned)?;
    text.push_str("0")?;
    Ok(text)
}
