//! The names of the registers of x86-64, and their DWARF numbers.
ghost use Rattle.std.specs.Prelude.{◌≡◌, ◌+◌, ◌<◌, ◌≤◌, ◌∷◌, ◌++◌, length, drop, IfSome};
ghost use Rattle.sym_edges.specs.Abi.{register_name};
ghost use Rattle.sym_rules.specs.RuleReading.{register_of};
ghost use Rattle.sym_rules.specs.internal.Registers.{register_in};

use crate::backward::write_bytes;

/// Continues with the name of a register, or with `$other` for a number above 15, which has no
/// name.
macro_rules! with_name {
    ($number:expr, $name:ident => $then:expr, $other:expr) => {
        match $number {
            0 => {
                let $name = b"$rax";
                $then
            }
            1 => {
                let $name = b"$rdx";
                $then
            }
            2 => {
                let $name = b"$rcx";
                $then
            }
            3 => {
                let $name = b"$rbx";
                $then
            }
            4 => {
                let $name = b"$rsi";
                $then
            }
            5 => {
                let $name = b"$rdi";
                $then
            }
            6 => {
                let $name = b"$rbp";
                $then
            }
            7 => {
                let $name = b"$rsp";
                $then
            }
            8 => {
                let $name = b"$r8";
                $then
            }
            9 => {
                let $name = b"$r9";
                $then
            }
            10 => {
                let $name = b"$r10";
                $then
            }
            11 => {
                let $name = b"$r11";
                $then
            }
            12 => {
                let $name = b"$r12";
                $then
            }
            13 => {
                let $name = b"$r13";
                $then
            }
            14 => {
                let $name = b"$r14";
                $then
            }
            15 => {
                let $name = b"$r15";
                $then
            }
            _ => $other,
        }
    };
}

/// The name of a register; it is empty for a number above 15.
#[tactic(auto, unfolding(sym_edges::specs::Abi::register_name, sym_edges::specs::Abi::register_names))]
pub fn register_name(number: u8) -> &'static [u8]
    ensures { result.now ≡ register_name number }
{
    with_name!(number, name => name, b"")
}

/// Writes the name of a register; it is empty for a number above 15.
#[inline]
#[tactic(auto, unfolding(sym_edges::specs::Abi::register_name, sym_edges::specs::Abi::register_names))]
pub fn write_register(number: u8, line: &mut [u8], end: usize) -> usize
    requires room { 4 ≤ end }
    requires within { end ≤ length line.old }
    ensures below { result ≤ end }
    ensures short { end ≤ result + 4 }
    ensures written { drop result line.new ≡ register_name number ++ drop end line.old }
{
    with_name!(number, name => write_bytes(name, line, end), end)
}

/// The number of one of the sixteen registers, given its name without `$`.
#[inline]
#[tactic(auto, unfolding(sym_edges::specs::Abi::register_names))]
fn register_in(name: &[u8]) -> Option<u8>
    ensures number { result ≡ register_in name.now }
    ensures small { IfSome result (λ register. register < 16) }
{
    if name == b"rax".as_slice() {
        return Some(0);
    }
    if name == b"rdx".as_slice() {
        return Some(1);
    }
    if name == b"rcx".as_slice() {
        return Some(2);
    }
    if name == b"rbx".as_slice() {
        return Some(3);
    }
    if name == b"rsi".as_slice() {
        return Some(4);
    }
    if name == b"rdi".as_slice() {
        return Some(5);
    }
    if name == b"rbp".as_slice() {
        return Some(6);
    }
    if name == b"rsp".as_slice() {
        return Some(7);
    }
    if name == b"r8".as_slice() {
        return Some(8);
    }
    if name == b"r9".as_slice() {
        return Some(9);
    }
    if name == b"r10".as_slice() {
        return Some(10);
    }
    if name == b"r11".as_slice() {
        return Some(11);
    }
    if name == b"r12".as_slice() {
        return Some(12);
    }
    if name == b"r13".as_slice() {
        return Some(13);
    }
    if name == b"r14".as_slice() {
        return Some(14);
    }
    if name == b"r15".as_slice() {
        return Some(15);
    }
    None
}

/// The DWARF number of a register, given its name without `$`.
#[inline]
#[tactic(auto, using(crate::proofs::RegisterLemmas::register_is))]
pub fn register_named(name: &[u8]) -> Option<u8>
    ensures number { result ≡ register_of (36 ∷ name.now) }
    ensures small { IfSome result (λ register. register < 16) }
{
    register_in(name)
}

/// The DWARF number of a register, given its name.
#[inline]
#[tactic(auto, using(crate::proofs::RegisterLemmas::none_without_sign))]
pub fn register_of(name: &[u8]) -> Option<u8>
    ensures { result ≡ register_of name.now }
{
    let Some((sign, bare)) = name.split_first() else {
        return None;
    };
    if *sign != b'$' {
        return None;
    }
    register_named(bare)
}
