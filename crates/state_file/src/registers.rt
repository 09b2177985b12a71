//! The registers to which lines give values.
ghost use Rattle.std.specs.Prelude.{◌≡◌, IfSome};
ghost use Rattle.state_file.specs.StateText.{named_register, with_value};
ghost use Rattle.state_file.specs.internal.Parts.{HasPlace};

use cfi_eval::Regs;
use sym_rules::register_named;

/// The register with this name: the number of one of the sixteen, or rip, which has no number.
#[tactic(auto, unfolding(crate::specs::StateText::named_register))]
pub(crate) fn named_register(name: &[u8]) -> Option<Option<u8>>
    ensures register { result ≡ named_register name.now }
    ensures small { IfSome result (λ register. HasPlace register) }
{
    if name == b"rip".as_slice() {
        return Some(None);
    }
    match register_named(name) {
        Some(register) => Some(Some(register)),
        None => None,
    }
}

/// Gives a value to a register.
pub(crate) fn give_value(regs: &mut Regs, register: Option<u8>, value: u64)
    requires { HasPlace register }
    ensures { regs.new ≡ with_value register value regs.old }
{
    match register {
        Some(number) => regs.values[usize::from(number)] = Some(value),
        None => regs.rip = Some(value),
    }
}
