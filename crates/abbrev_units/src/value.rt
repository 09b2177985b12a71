//! The value of an attribute (DWARF 5, 7.5.5 and 7.5.6).
ghost use Rattle.std.specs.Prelude.{◌≡◌};
ghost use Rattle.abbrev_units.specs.FormValue.{value_of};

use code_table::{FormClass, Operand};

/// The value that the bytes of a form stand for. A run of bytes is given by its start and its length, in the section that the value is in.
#[derive(Clone, Copy, PartialEq, Eq, Debug)]
pub enum Value {
    Addr(u64),

    /// A block, or an expression.
    Block { start: usize, len: usize },

    /// An unsigned constant.
    Num(u64),

    /// A signed constant.
    Signed(i64),
    Flag(bool),

    /// A text inside the entry, up to the next zero byte: the place where it begins.
    InlineText(usize),

    /// A place in `.debug_str`.
    StrAt(u64),

    /// A place in `.debug_line_str`.
    LineStrAt(u64),

    /// A place in the `.debug_str` of the supplementary file (DWARF 5, 7.3.6).
    SupStrAt(u64),

    /// The index of a text in `.debug_str_offsets`.
    StrIndex(u64),

    /// The index of an address in `.debug_addr`.
    AddrIndex(u64),

    /// A place relative to the start of the unit.
    UnitRef(u64),

    /// A place in `.debug_info`.
    InfoRef(u64),

    /// A place in the `.debug_info` of the supplementary file (DWARF 5, 7.3.6).
    SupRefAt(u64),

    /// A place in the section that the attribute refers to.
    SecOffset(u64),

    /// The index of a range list.
    ListIndex(u64),

    /// A value that is ignored.
    Other,
}

/// An attribute of an entry (DWARF 5, table 7.5) with its value.
#[derive(Clone, Copy)]
pub struct Given {
    pub attribute: u64,
    pub value: Value,
}

/// The value of an operand, given its class; `implicit` is the constant in the abbreviation.
#[inline]
#[tactic(auto, unfolding(crate::specs::FormValue::value_of))]
pub fn value_of(class: FormClass, implicit: i64, operand: Operand) -> Value
    ensures { result ≡ value_of class implicit operand }
{
    match (class, operand) {
        (FormClass::Address, Operand::Num(n)) => Value::Addr(n),
        (FormClass::AddressIndex, Operand::Num(n)) => Value::AddrIndex(n),
        (FormClass::Block, Operand::Run { start, len }) => Value::Block { start, len },
        (FormClass::Constant, Operand::Num(n)) => Value::Num(n),
        (FormClass::Signed, Operand::Signed(n)) => Value::Signed(n),
        (FormClass::Implicit, _) => Value::Signed(implicit),
        (FormClass::Flag, Operand::Num(n)) => Value::Flag(n != 0),
        (FormClass::Present, _) => Value::Flag(true),
        (FormClass::InlineText, Operand::Run { start, len: _ }) => Value::InlineText(start),
        (FormClass::TextPlace, Operand::Num(n)) => Value::StrAt(n),
        (FormClass::LineTextPlace, Operand::Num(n)) => Value::LineStrAt(n),
        (FormClass::SupTextPlace, Operand::Num(n)) => Value::SupStrAt(n),
        (FormClass::TextIndex, Operand::Num(n)) => Value::StrIndex(n),
        (FormClass::UnitReference, Operand::Num(n)) => Value::UnitRef(n),
        (FormClass::InfoReference, Operand::Num(n)) => Value::InfoRef(n),
        (FormClass::SupReference, Operand::Num(n)) => Value::SupRefAt(n),
        (FormClass::SectionPlace, Operand::Num(n)) => Value::SecOffset(n),
        (FormClass::ListIndex, Operand::Num(n)) => Value::ListIndex(n),
        _ => Value::Other,
    }
}
