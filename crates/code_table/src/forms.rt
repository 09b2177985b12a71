//! The forms of attribute values (DWARF 5, 7.5.6 and table 7.6, and two of the GNU tools), by the
//! standard's names.
ghost use Rattle.std.specs.Prelude.{◌≡◌};
ghost use Rattle.code_table.specs.Forms.{place, forms, form_row};

use crate::code_row::CodeRow;
use crate::kind::{Kind, Shape};
use crate::table::Table;

pub const DW_FORM_addr: u64 = 0x01;

pub const DW_FORM_block2: u64 = 0x03;

pub const DW_FORM_block4: u64 = 0x04;

pub const DW_FORM_data2: u64 = 0x05;

pub const DW_FORM_data4: u64 = 0x06;

pub const DW_FORM_data8: u64 = 0x07;

pub const DW_FORM_string: u64 = 0x08;

pub const DW_FORM_block: u64 = 0x09;

pub const DW_FORM_block1: u64 = 0x0a;

pub const DW_FORM_data1: u64 = 0x0b;

pub const DW_FORM_flag: u64 = 0x0c;

pub const DW_FORM_sdata: u64 = 0x0d;

pub const DW_FORM_strp: u64 = 0x0e;

pub const DW_FORM_udata: u64 = 0x0f;

pub const DW_FORM_ref_addr: u64 = 0x10;

pub const DW_FORM_ref1: u64 = 0x11;

pub const DW_FORM_ref2: u64 = 0x12;

pub const DW_FORM_ref4: u64 = 0x13;

pub const DW_FORM_ref8: u64 = 0x14;

pub const DW_FORM_ref_udata: u64 = 0x15;

pub const DW_FORM_indirect: u64 = 0x16;

pub const DW_FORM_sec_offset: u64 = 0x17;

pub const DW_FORM_exprloc: u64 = 0x18;

pub const DW_FORM_flag_present: u64 = 0x19;

pub const DW_FORM_strx: u64 = 0x1a;

pub const DW_FORM_addrx: u64 = 0x1b;

pub const DW_FORM_ref_sup4: u64 = 0x1c;

pub const DW_FORM_strp_sup: u64 = 0x1d;

pub const DW_FORM_data16: u64 = 0x1e;

pub const DW_FORM_line_strp: u64 = 0x1f;

pub const DW_FORM_ref_sig8: u64 = 0x20;

pub const DW_FORM_implicit_const: u64 = 0x21;

pub const DW_FORM_loclistx: u64 = 0x22;

pub const DW_FORM_rnglistx: u64 = 0x23;

pub const DW_FORM_ref_sup8: u64 = 0x24;

pub const DW_FORM_strx1: u64 = 0x25;

pub const DW_FORM_strx2: u64 = 0x26;

pub const DW_FORM_strx3: u64 = 0x27;

pub const DW_FORM_strx4: u64 = 0x28;

pub const DW_FORM_addrx1: u64 = 0x29;

pub const DW_FORM_addrx2: u64 = 0x2a;

pub const DW_FORM_addrx3: u64 = 0x2b;

pub const DW_FORM_addrx4: u64 = 0x2c;

pub const DW_FORM_GNU_ref_alt: u64 = 0x1f20;

pub const DW_FORM_GNU_strp_alt: u64 = 0x1f21;

/// What the operand of a form stands for.
#[derive(Clone, Copy)]
pub enum FormClass {
    /// An address.
    Address,

    /// An index into `.debug_addr`.
    AddressIndex,

    /// A run of bytes, or an expression.
    Block,

    /// A number without a sign.
    Constant,

    /// A number with a sign.
    Signed,

    /// The constant in the abbreviation.
    Implicit,

    /// A flag, which is true if the number is not 0.
    Flag,

    /// A flag that is true.
    Present,

    /// A text in place.
    InlineText,

    /// A place in `.debug_str`.
    TextPlace,

    /// A place in `.debug_line_str`.
    LineTextPlace,

    /// A place in the `.debug_str` of the supplementary file (DWARF 5, 7.3.6).
    SupTextPlace,

    /// An index into `.debug_str_offsets`.
    TextIndex,

    /// A place counted from the start of the unit.
    UnitReference,

    /// A place in `.debug_info`.
    InfoReference,

    /// A place in the `.debug_info` of the supplementary file (7.3.6).
    SupReference,

    /// A place in another section.
    SectionPlace,

    /// The index of a range list.
    ListIndex,

    /// A form, whose value follows.
    Indirect,

    /// A value that is skipped: a location list, a type by its signature, or a number of 16 bytes.
    Other,
}

/// A form with the layout and the class of its operand.
#[derive(Clone, Copy)]
pub struct FormRow {
    pub code: u64,
    pub layout: Kind,
    pub class: FormClass,
}

/// The rows of the table, passed to the macro `$make`. Places in sections have the layout `$place`.
macro_rules! forms {
    ($make:ident, $given:expr, $place:expr) => {
        $make! { $given;
            DW_FORM_addr: Kind::U64, Address;
            DW_FORM_block2: Kind::Block2, Block;
            DW_FORM_block4: Kind::Block4, Block;
            DW_FORM_data2: Kind::U16, Constant;
            DW_FORM_data4: Kind::U32, Constant;
            DW_FORM_data8: Kind::U64, Constant;
            DW_FORM_string: Kind::ZeroText, InlineText;
            DW_FORM_block: Kind::BlockUleb, Block;
            DW_FORM_block1: Kind::Block1, Block;
            DW_FORM_data1: Kind::U8, Constant;
            DW_FORM_flag: Kind::U8, Flag;
            DW_FORM_sdata: Kind::Sleb, Signed;
            DW_FORM_strp: $place, TextPlace;
            DW_FORM_udata: Kind::Uleb, Constant;
            DW_FORM_ref_addr: $place, InfoReference;
            DW_FORM_ref1: Kind::U8, UnitReference;
            DW_FORM_ref2: Kind::U16, UnitReference;
            DW_FORM_ref4: Kind::U32, UnitReference;
            DW_FORM_ref8: Kind::U64, UnitReference;
            DW_FORM_ref_udata: Kind::Uleb, UnitReference;
            DW_FORM_indirect: Kind::Uleb, Indirect;
            DW_FORM_sec_offset: $place, SectionPlace;
            DW_FORM_exprloc: Kind::BlockUleb, Block;
            DW_FORM_flag_present: Kind::Nothing, Present;
            DW_FORM_strx: Kind::Uleb, TextIndex;
            DW_FORM_addrx: Kind::Uleb, AddressIndex;
            DW_FORM_ref_sup4: Kind::U32, SupReference;
            DW_FORM_strp_sup: $place, SupTextPlace;
            DW_FORM_data16: Kind::Bytes16, Other;
            DW_FORM_line_strp: $place, LineTextPlace;
            DW_FORM_ref_sig8: Kind::U64, Other;
            DW_FORM_implicit_const: Kind::Nothing, Implicit;
            DW_FORM_loclistx: Kind::Uleb, Other;
            DW_FORM_rnglistx: Kind::Uleb, ListIndex;
            DW_FORM_ref_sup8: Kind::U64, SupReference;
            DW_FORM_strx1: Kind::U8, TextIndex;
            DW_FORM_strx2: Kind::U16, TextIndex;
            DW_FORM_strx3: Kind::U24, TextIndex;
            DW_FORM_strx4: Kind::U32, TextIndex;
            DW_FORM_addrx1: Kind::U8, AddressIndex;
            DW_FORM_addrx2: Kind::U16, AddressIndex;
            DW_FORM_addrx3: Kind::U24, AddressIndex;
            DW_FORM_addrx4: Kind::U32, AddressIndex;
            DW_FORM_GNU_ref_alt: $place, SupReference;
            DW_FORM_GNU_strp_alt: $place, SupTextPlace;
        }
    };
}

macro_rules! rows {
    ($table:expr; $($code:ident: $layout:expr, $class:ident;)*) => {
        [$(CodeRow { code: $code, shape: Shape { first: $layout, second: Kind::Nothing } }),*]
    };
}

macro_rules! row_by {
    ($given:expr; $($code:ident: $layout:expr, $class:ident;)*) => {
        match $given {
            $($code => Some(FormRow { code: $code, layout: $layout, class: FormClass::$class }),)*
            _ => None,
        }
    };
}

/// The forms, in units of the 32-bit format.
pub const FORMS: Table<45> = Table {
    rows: forms!(rows, 45, Kind::U32),
};

/// The forms, in units of the 64-bit format: places in sections have eight bytes (DWARF 5, 7.4).
pub const FORMS64: Table<45> = Table {
    rows: forms!(rows, 45, Kind::U64),
};

/// The layout of a place in a section.
#[inline]
fn place(wide: bool) -> Kind
    ensures { result ≡ place wide }
{
    if wide { Kind::U64 } else { Kind::U32 }
}

/// The row of a form; `wide` means in a unit of the 64-bit format.
#[inline]
#[tactic(auto, unfolding(crate::specs::Forms::forms, crate::specs::Forms::form_row))]
pub fn find_form(code: u64, wide: bool) -> Option<FormRow>
    ensures { result ≡ form_row code (forms wide) }
{
    let place = place(wide);
    forms!(row_by, code, place)
}
