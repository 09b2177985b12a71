//! A short way over the values of an entry, for speed. Its result is defined by the slower way, `Abbrev::read_picks`, which reads the values by their
//! specs.
ghost use Rattle.std.specs.Prelude.{◌≡◌, ℕ, true, Ok, length, drop, IfSome, IfOk, OnOk};
ghost use Rattle.abbrev_units.specs.internal.FormRows.{size_in};
ghost use Rattle.abbrev_units.specs.internal.Listed.{Starts};
ghost use Rattle.abbrev_units.specs.internal.Takes.{AreTakes, HasClass, HasConstant, Joins, MakesNumbers, TakesValue, has_numbers, number_at, take_one, takes_at};

use crate::filled::Filled;
use crate::slots::{Class, Pick, Picks, Slot, kept_class};
use crate::spec::Spec;
use code_table::{FormClass, FormRow, Kind, Operand, read_kind};
use leb_cursor::Cursor;
use sym_edges::OutOfMemory;

/// Some bytes that are skipped, and then one operand, which goes to a slot. If the operand has no bytes, its number is the constant.
#[derive(Clone, Copy)]
pub struct Take {
    pub constant: u64,
    pub bytes: u32,
    pub slot: Slot,
    pub layout: Kind,
    pub class: Class,
}

/// The size of an operand in bytes, if it is fixed.
fn size_of(kind: Kind) -> Option<u8>
    ensures { result ≡ size_in kind }
{
    match kind {
        Kind::Nothing => Some(0),
        Kind::U8 => Some(1),
        Kind::U16 => Some(2),
        Kind::U24 => Some(3),
        Kind::U32 => Some(4),
        Kind::U64 => Some(8),
        Kind::Bytes16 => Some(16),
        _ => None,
    }
}

/// Whether the operands of a layout are unsigned numbers.
fn is_number(layout: Kind) -> bool
    ensures { result ≡ has_numbers layout }
{
    matches!(
        layout,
        Kind::U8 | Kind::U16 | Kind::U24 | Kind::U32 | Kind::U64 | Kind::Uleb
    )
}

/// The class of a pick whose number is the operand of a form, if that operand is an unsigned
/// number.
#[tactic(auto, unfolding(crate::specs::FormValue::value_of))]
fn number_class(form: FormClass) -> Option<Class>
    ensures { IfSome result (λ class. MakesNumbers form class) }
{
    match form {
        FormClass::Address => Some(Class::Addr),
        FormClass::AddressIndex => Some(Class::AddrIndex),
        FormClass::Constant => Some(Class::Num),
        FormClass::Flag => Some(Class::Flag),
        FormClass::TextPlace => Some(Class::StrAt),
        FormClass::LineTextPlace => Some(Class::LineStrAt),
        FormClass::SupTextPlace => Some(Class::SupStrAt),
        FormClass::TextIndex => Some(Class::StrIndex),
        FormClass::UnitReference => Some(Class::UnitRef),
        FormClass::InfoReference => Some(Class::InfoRef),
        FormClass::SupReference => Some(Class::SupRefAt),
        FormClass::SectionPlace => Some(Class::SecOffset),
        FormClass::ListIndex => Some(Class::ListIndex),
        _ => None,
    }
}

/// The class of a pick that is made from the operand of a form with this layout, if the short way
/// reads such forms.
fn class_of(form: FormClass, layout: Kind) -> Option<Class>
    ensures { IfSome result (λ class. HasClass form layout class) }
{
    match (form, layout) {
        (FormClass::Signed, Kind::Sleb) => Some(Class::Signed),
        (FormClass::Implicit, Kind::Nothing) => Some(Class::Signed),
        (FormClass::Present, Kind::Nothing) => Some(Class::Flag),
        (FormClass::InlineText, Kind::ZeroText) => Some(Class::InlineText),
        (FormClass::Block, _) => Some(Class::Missing),
        (FormClass::Other, _) => Some(Class::Missing),
        _ => {
            if !is_number(layout) {
                return None;
            }
            number_class(form)
        }
    }
}

/// The number that stands for a value without bytes: 1 for a flag, or else the constant in the
/// abbreviation.
fn constant_of(form: FormClass, implicit: i64) -> u64
    ensures { HasConstant form implicit result }
{
    match form {
        FormClass::Present => 1,
        _ => implicit.cast_unsigned(),
    }
}

/// The take of an attribute whose form has this row.
fn take_of(spec: &Spec, row: FormRow, bytes: u32, slot: Slot) -> Option<Take>
    ensures { IfSome result (λ take. TakesValue spec.now row bytes slot take) }
{
    match class_of(row.class, row.layout) {
        Some(class) => Some(Take {
            constant: constant_of(row.class, spec.implicit()),
            bytes,
            slot,
            layout: row.layout,
            class: kept_class(slot, class),
        }),
        None => None,
    }
}

/// The bytes to skip: those before an operand and the operand's own, if it has a fixed size and goes to no slot.
fn joined(bytes: u32, slot: Slot, layout: Kind) -> Option<u32>
    ensures { IfSome result (λ sum. Joins slot layout bytes sum) }
{
    let Slot::Passed = slot else {
        return None;
    };
    bytes.checked_add(u32::from(size_of(layout)?))
}

/// Appends the takes of attributes to a list, and returns the number of bytes after the last take.
/// If an attribute has a form that the short way does not read, returns none. If entries are kept,
/// the first value of each attribute goes to its slot; all other values are passed.
pub fn make_takes(
    takes: &mut Vec<Take>,
    specs: &[Spec],
    kept: bool,
) -> Result<Option<u32>, OutOfMemory>
    ensures starts { OnOk result (Starts takes.old.items takes.new.items) }
    ensures takes { IfOk result (λ made. IfSome made (λ tail. AreTakes kept (drop (length takes.old.items) takes.new.items) tail specs.now)) }
{
    let mut bytes: u32 = 0;
    let mut filled = Filled::none();
    'specs: for spec in specs {
        let Some(row) = spec.row() else {
            return Ok(None);
        };
        let slot = filled.fill(spec.attribute(), kept);
        if let Some(sum) = joined(bytes, slot, row.layout) {
            bytes = sum;
            continue;
        }
        let Some(take) = take_of(spec, row, bytes, slot) else {
            return Ok(None);
        };
        takes.push(take)?;
        bytes = 0;
    }
    Ok(Some(bytes))
}

/// The number of an operand of any layout that has bytes, and the cursor after it.
#[inline(never)]
fn read_any<'a>(cursor: Cursor<'a>, layout: Kind) -> Option<(Cursor<'a>, u64)>
    ensures { IfSome result (λ read. (constant : ℕ) → number_at layout constant cursor.entry ≡ Ok (read.1, read.0)) }
{
    let mut left = cursor;
    match read_kind(&mut left, layout) {
        Ok(Operand::Num(n)) => Some((left, n)),
        Ok(Operand::Signed(n)) => Some((left, n.cast_unsigned())),
        Ok(Operand::Run { start, len: _ }) => Some((left, start as u64)),
        Ok(Operand::Nothing) | Err(_) => None,
    }
}

/// The number of an operand of a rare layout. The caller's cursor stays in registers.
#[inline(always)]
fn read_other(cursor: &mut Cursor<'_>, layout: Kind) -> Option<u64>
    ensures { IfSome result (λ n. (constant : ℕ) → number_at layout constant cursor.old ≡ Ok (n, cursor.new)) }
{
    match read_any(cursor.fork(), layout) {
        Some((left, number)) => {
            *cursor = left;
            Some(number)
        }
        None => None,
    }
}

/// The number of an operand; the usual layouts are read here.
#[inline(always)]
#[tactic(auto, unfolding(code_table::specs::Layouts::kind_at, code_table::specs::Layouts::run_at))]
fn read_number(cursor: &mut Cursor<'_>, layout: Kind, constant: u64) -> Option<u64>
    ensures { IfSome result (λ n. number_at layout constant cursor.old ≡ Ok (n, cursor.new)) }
{
    match layout {
        Kind::Nothing => Some(constant),
        Kind::U8 => match cursor.u8() {
            Ok(n) => Some(u64::from(n)),
            Err(_) => None,
        },
        Kind::U16 => match cursor.u16() {
            Ok(n) => Some(u64::from(n)),
            Err(_) => None,
        },
        Kind::U32 => match cursor.u32() {
            Ok(n) => Some(u64::from(n)),
            Err(_) => None,
        },
        Kind::U64 => match cursor.u64() {
            Ok(n) => Some(n),
            Err(_) => None,
        },
        Kind::Uleb => match cursor.uleb() {
            Ok(n) => Some(n),
            Err(_) => None,
        },
        Kind::BlockUleb => match cursor.uleb() {
            Ok(count) => {
                let start = cursor.at();
                match cursor.take(count) {
                    Ok(_run) => Some(start as u64),
                    Err(_) => None,
                }
            }
            Err(_) => None,
        },
        Kind::ZeroText => {
            let start = cursor.at();
            match cursor.text() {
                Ok(_text) => Some(start as u64),
                Err(_) => None,
            }
        }
        _ => read_other(cursor, layout),
    }
}

/// Executes one take. Nothing is promised if it fails.
#[inline(always)]
fn read_take(picks: &mut Picks, cursor: &mut Cursor<'_>, take: Take) -> bool
    ensures { result ≡ true → take_one take picks.old cursor.old ≡ Ok (picks.new, cursor.new) }
{
    let Ok(_run) = cursor.take(u64::from(take.bytes)) else {
        return false;
    };
    let Some(number) = read_number(cursor, take.layout, take.constant) else {
        return false;
    };
    let class = take.class;
    picks.put(take.slot, Pick { class, number });
    true
}

/// Executes takes, and skips `tail` bytes after the last. Nothing is promised if it fails.
#[inline(always)]
#[tactic(auto, using(crate::proofs::TakeLemmas::takes_more, crate::proofs::TakeLemmas::takes_done))]
pub fn read_takes(picks: &mut Picks, cursor: &mut Cursor<'_>, takes: &[Take], tail: u32) -> bool
    ensures { result ≡ true → takes_at takes.now tail picks.old cursor.old ≡ Ok (picks.new, cursor.new) }
{
    'takes: for take in takes {
        if !read_take(picks, cursor, *take) {
            return false;
        }
    }
    match cursor.take(u64::from(tail)) {
        Ok(_run) => true,
        Err(_) => false,
    }
}
