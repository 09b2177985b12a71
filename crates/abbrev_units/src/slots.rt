//! The values of an entry that are needed, each in a slot of its own.
ghost use Rattle.std.specs.Prelude.{◌≡◌, ℕ, None};
ghost use Rattle.std.specs.Option.{option_and_then};
ghost use Rattle.abbrev_units.specs.Picks.{IsSlot, kept_by, no_picks, pick_of, put_in, value_in};
ghost use Rattle.abbrev_units.specs.internal.Picked.{plain_of};

use crate::value::Value;
use code_table::{
    DW_AT_MIPS_linkage_name, DW_AT_abstract_origin, DW_AT_addr_base, DW_AT_call_file,
    DW_AT_call_line, DW_AT_comp_dir, DW_AT_declaration, DW_AT_high_pc, DW_AT_linkage_name,
    DW_AT_low_pc, DW_AT_name, DW_AT_ranges, DW_AT_rnglists_base, DW_AT_specification,
    DW_AT_stmt_list, DW_AT_str_offsets_base,
};
use std::marker::Model;

/// Where the value of an attribute is kept; `Passed` for an attribute that is not needed.
#[derive(Clone, Copy)]
pub enum Slot {
    Low,
    High,
    Ranges,
    CallFile,
    CallLine,
    Origin,
    Specification,
    Name,
    Linkage,
    OldLinkage,
    Declaration,
    StmtList,
    CompDir,
    StrOffsetsBase,
    AddrBase,
    RnglistsBase,
    Passed,
}

/// The class of the number of a pick. It is `Missing` if the attribute is not there, or has a value
/// of a class that the standard does not give it.
#[derive(Clone, Copy, Debug)]
pub enum Class {
    Missing,
    Addr,
    AddrIndex,
    Num,
    Signed,
    SecOffset,
    ListIndex,
    Flag,
    StrAt,
    LineStrAt,
    SupStrAt,
    StrIndex,
    UnitRef,
    InfoRef,
    SupRefAt,

    /// A text inside the entry: the number is the place where it begins.
    InlineText,
}

/// A number and its class. A signed number is stored modulo 2^64.
#[derive(Clone, Copy)]
pub struct Pick {
    pub class: Class,
    pub number: u64,
}

/// The slot of an attribute.
#[inline]
pub fn slot_of(attribute: u64) -> Slot
    ensures { IsSlot result attribute }
{
    match attribute {
        DW_AT_low_pc => Slot::Low,
        DW_AT_high_pc => Slot::High,
        DW_AT_ranges => Slot::Ranges,
        DW_AT_call_file => Slot::CallFile,
        DW_AT_call_line => Slot::CallLine,
        DW_AT_abstract_origin => Slot::Origin,
        DW_AT_specification => Slot::Specification,
        DW_AT_name => Slot::Name,
        DW_AT_linkage_name => Slot::Linkage,
        DW_AT_MIPS_linkage_name => Slot::OldLinkage,
        DW_AT_declaration => Slot::Declaration,
        DW_AT_stmt_list => Slot::StmtList,
        DW_AT_comp_dir => Slot::CompDir,
        DW_AT_str_offsets_base => Slot::StrOffsetsBase,
        DW_AT_addr_base => Slot::AddrBase,
        DW_AT_rnglists_base => Slot::RnglistsBase,
        _ => Slot::Passed,
    }
}

/// The class, if the standard gives it to the attribute of the slot (DWARF 5, 7.5.4 and table 7.5); else `Missing`.
pub fn kept_class(slot: Slot, class: Class) -> Class
    ensures { (n : ℕ) → value_in result n ≡ option_and_then (kept_by slot) (value_in class n) }
{
    match (slot, class) {
        (Slot::Low, Class::Addr | Class::AddrIndex)
        | (Slot::High, Class::Addr | Class::AddrIndex | Class::Num | Class::Signed)
        | (Slot::Ranges, Class::SecOffset | Class::Num | Class::ListIndex)
        | (Slot::CallFile | Slot::CallLine, Class::Num | Class::Signed)
        | (Slot::Origin | Slot::Specification, Class::UnitRef | Class::InfoRef | Class::SupRefAt)
        | (
            Slot::Name | Slot::Linkage | Slot::OldLinkage | Slot::CompDir,
            Class::StrAt | Class::LineStrAt | Class::SupStrAt | Class::StrIndex | Class::InlineText,
        )
        | (Slot::Declaration, Class::Flag)
        | (
            Slot::StmtList | Slot::StrOffsetsBase | Slot::AddrBase | Slot::RnglistsBase,
            Class::SecOffset | Class::Num,
        ) => class,
        _ => Class::Missing,
    }
}

/// A value as a number with its class.
fn plain(value: Value) -> Pick
    ensures { value_in result.class result.number ≡ plain_of value }
{
    let (class, number) = match value {
        Value::Addr(n) => (Class::Addr, n),
        Value::Num(n) => (Class::Num, n),
        Value::Signed(n) => (Class::Signed, n.cast_unsigned()),
        Value::Flag(said) => (Class::Flag, u64::from(said)),
        Value::InlineText(start) => (Class::InlineText, start as u64),
        Value::StrAt(n) => (Class::StrAt, n),
        Value::LineStrAt(n) => (Class::LineStrAt, n),
        Value::SupStrAt(n) => (Class::SupStrAt, n),
        Value::StrIndex(n) => (Class::StrIndex, n),
        Value::AddrIndex(n) => (Class::AddrIndex, n),
        Value::UnitRef(n) => (Class::UnitRef, n),
        Value::InfoRef(n) => (Class::InfoRef, n),
        Value::SupRefAt(n) => (Class::SupRefAt, n),
        Value::SecOffset(n) => (Class::SecOffset, n),
        Value::ListIndex(n) => (Class::ListIndex, n),
        Value::Block { start: _, len: _ } | Value::Other => (Class::Missing, 0),
    };
    Pick { class, number }
}

/// What a slot keeps of a value, as a pick.
#[tactic(auto, using(crate::proofs::KeepLemmas::keeps_plain))]
pub fn keep(slot: Slot, value: Value) -> Pick
    ensures { value_in result.class result.number ≡ kept_by slot value }
{
    let plain = plain(value);
    Pick {
        class: kept_class(slot, plain.class),
        ..plain
    }
}

impl Pick {
    /// The value that the pick stands for; none if its class is `Missing`.
    #[inline]
    pub fn value(self) -> Option<Value>
        ensures { result ≡ value_in self.class self.number }
    {
        let n = self.number;
        match self.class {
            Class::Missing => None,
            Class::Addr => Some(Value::Addr(n)),
            Class::AddrIndex => Some(Value::AddrIndex(n)),
            Class::Num => Some(Value::Num(n)),
            Class::Signed => Some(Value::Signed(n.cast_signed())),
            Class::SecOffset => Some(Value::SecOffset(n)),
            Class::ListIndex => Some(Value::ListIndex(n)),
            Class::Flag => Some(Value::Flag(n != 0)),
            Class::StrAt => Some(Value::StrAt(n)),
            Class::LineStrAt => Some(Value::LineStrAt(n)),
            Class::SupStrAt => Some(Value::SupStrAt(n)),
            Class::StrIndex => Some(Value::StrIndex(n)),
            Class::UnitRef => Some(Value::UnitRef(n)),
            Class::InfoRef => Some(Value::InfoRef(n)),
            Class::SupRefAt => Some(Value::SupRefAt(n)),
            Class::InlineText => Some(Value::InlineText(n as usize)),
        }
    }
}

/// What is kept of the values of an entry: for each slot a class and, unless that is `Missing`, a number.
#[derive(Drop)]
pub struct Picks {
    classes: [Class; 16],
    numbers: [u64; 16],
}

impl Model for Picks {
    ghost use Rattle.abbrev_units.specs.Picks.{PickFields};
    ghost use Rattle.abbrev_units.specs.internal.Picked.{pick_at};

    ghost Value = { PickFields };

    ghost view = { λ p. record {
      low = pick_at p.classes p.numbers 0;
      high = pick_at p.classes p.numbers 1;
      ranges = pick_at p.classes p.numbers 2;
      call_file = pick_at p.classes p.numbers 3;
      call_line = pick_at p.classes p.numbers 4;
      origin = pick_at p.classes p.numbers 5;
      spec = pick_at p.classes p.numbers 6;
      name = pick_at p.classes p.numbers 7;
      linkage = pick_at p.classes p.numbers 8;
      old_linkage = pick_at p.classes p.numbers 9;
      declaration = pick_at p.classes p.numbers 10;
      stmt_list = pick_at p.classes p.numbers 11;
      comp_dir = pick_at p.classes p.numbers 12;
      str_offsets_base = pick_at p.classes p.numbers 13;
      addr_base = pick_at p.classes p.numbers 14;
      rnglists_base = pick_at p.classes p.numbers 15;
    } };
}

impl Picks {
    /// No pick.
    pub fn new() -> Picks
        ensures { result ≡ no_picks }
    {
        Picks {
            classes: [Class::Missing; 16],
            numbers: [0; 16],
        }
    }

    /// Removes all picks.
    #[inline(always)]
    pub fn clear(&mut self)
        ensures { self.new ≡ no_picks }
    {
        self.classes = [Class::Missing; 16];
    }

    /// The pick of a slot.
    #[inline(always)]
    pub fn pick(&self, slot: Slot) -> Pick
        ensures { value_in result.class result.number ≡ pick_of slot self.now }
    {
        if (slot as usize) >= 16 {
            return Pick {
                class: Class::Missing,
                number: 0,
            };
        }
        Pick {
            class: self.classes[slot as usize],
            number: self.numbers[slot as usize],
        }
    }

    /// Puts a pick into a slot; nothing is put into `Passed`.
    #[inline(always)]
    pub(crate) fn put(&mut self, slot: Slot, pick: Pick)
        ensures { self.new ≡ put_in slot (value_in pick.class pick.number) self.old }
    {
        if (slot as usize) < 16 {
            self.classes[slot as usize] = pick.class;
            self.numbers[slot as usize] = pick.number;
        }
    }
}
