//! Which bytes may be a field or a name in a line.
ghost use Rattle.std.specs.Prelude.{◌≡◌};
ghost use Rattle.std.specs.List.{list_all};
ghost use Rattle.sym_rules.specs.Cuts.{is_within_line};
ghost use Rattle.sym_records.specs.Fields.{is_field, is_name};

use sym_rules::are_unparted;

/// Whether the bytes have no LF.
fn are_one_line(bytes: &[u8]) -> bool
    ensures { result ≡ list_all is_within_line bytes.now }
{
    bytes.iter().all(|b| *b != b'\n')
}

/// Whether a record may carry the bytes as a field: they are not empty, and have no space and no LF.
#[tactic(auto, unfolding(crate::specs::Fields::is_field))]
pub fn is_field(bytes: &[u8]) -> bool
    ensures { result ≡ is_field bytes.now }
{
    !bytes.is_empty() && are_unparted(bytes)
}

/// Whether a record may carry the bytes as its name: they are not empty, begin with no space, end with no CR, and have
/// no LF.
#[tactic(auto, unfolding(crate::specs::Fields::is_name))]
pub fn is_name(bytes: &[u8]) -> bool
    ensures { result ≡ is_name bytes.now }
{
    if bytes.is_empty() {
        return false;
    }
    bytes[0] != b' ' && bytes[bytes.len() - 1] != b'\r' && are_one_line(bytes)
}
