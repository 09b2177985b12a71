//! Names, cleaned for records.
ghost use Rattle.std.specs.Prelude.{◌≡◌, IfSome};
ghost use Rattle.clean_names.specs.Cleaning.{cleaned};
ghost use Rattle.die_names.specs.NameRefs.{name_bytes};

use crate::joined_name::name_slice;
use crate::name_source::NameRef;
use clean_names::is_clean;
use debug_units::Units;
use std::marker::Model;
use sym_edges::ByteRun;

/// Where the bytes of a name are.
#[derive(Drop)]
pub(crate) enum KeptName<'a> {
    Whole(&'a [u8]),
    Made(ByteRun),
}

/// A name as a record carries it; contracts see it as its bytes. If the file has the bytes as they are, they are not copied.
#[derive(Drop)]
pub struct EntryNameText<'a> {
    kept: KeptName<'a>,
}

impl<'a> Model for EntryNameText<'a> {
    ghost use Rattle.std.specs.Prelude.{List, ℕ};
    ghost use Rattle.die_names.specs.internal.KeptNames.{kept_name};

    ghost Value = { List ℕ };

    ghost view = { λ t. kept_name t.kept };
}

impl<'a> EntryNameText<'a> {
    /// A name whose bytes are in new memory.
    pub(crate) fn of(text: ByteRun) -> EntryNameText<'a>
        ensures { result ≡ text }
    {
        EntryNameText {
            kept: KeptName::Made(text),
        }
    }

    /// A name whose bytes are in the file.
    fn in_file(bytes: &'a [u8]) -> EntryNameText<'a>
        ensures { result ≡ bytes.now }
    {
        EntryNameText {
            kept: KeptName::Whole(bytes),
        }
    }

    pub fn as_slice(&self) -> &[u8]
        ensures { result.now ≡ self.now }
    {
        match &self.kept {
            KeptName::Whole(bytes) => bytes,
            KeptName::Made(text) => text.as_slice(),
        }
    }
}

/// The bytes of a name, if the file has them as they are and they are clean. Allocates no memory.
pub fn clean_slice<'a>(units: &Units<'a>, name: NameRef) -> Option<&'a [u8]>
    ensures name { IfSome result (λ bytes. bytes.now ≡ cleaned (name_bytes units.now name)) }
    ensures clean { IfSome result (λ bytes. cleaned bytes.now ≡ bytes.now) }
{
    let bytes = name_slice(units, name)?;
    if is_clean(bytes) {
        return Some(bytes);
    }
    None
}

/// A name, if the file has its bytes as they are and they are clean.
pub(crate) fn whole_name<'a>(units: &Units<'a>, name: NameRef) -> Option<EntryNameText<'a>>
    ensures { IfSome result (λ text. text ≡ cleaned (name_bytes units.now name)) }
{
    Some(EntryNameText::in_file(clean_slice(units, name)?))
}
