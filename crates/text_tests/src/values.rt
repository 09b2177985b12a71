//! Rules of a text with their values (`cfi_eval`).
use crate::comparison::same;
use crate::texts::file_of_text;
use cfi_eval::{Cause, MemRun, Memory, Outcome, Regs, eval};
use std::alloc::Global;
use std::test::Fail;
use sym_edges::{ByteRun, OutOfMemory};
use sym_records::SymLine;
use sym_rules::{RuleText, Target};

/// The rules after a push of rbp, and a rule for each cause.
const RULES: &[u8] = b"MODULE Linux x86_64 0 a\nSTACK CFI INIT 1001 3 \
    .cfa: $rsp 16 + .ra: .cfa -8 + ^ $rbp: .cfa -16 + ^ \
    a: 1023 16 @ b: 7 0 / c: 1 2 d: 1 10 @ e: -8 f: $rip g: $rax h: $nothing i: .undef\n";

/// What is saved at 7ffe0010.
const SAVED: &[u8] = b"\x40\0\xfe\x7f\0\0\0\0\x34\x12\x40\0\0\0\0\0";

const VALUES: [Outcome; 12] = [
    Outcome::Value(0x7ffe_0020),
    Outcome::Value(0x40_1234),
    Outcome::Value(0x7ffe_0040),
    Outcome::Value(0x3f0),
    Outcome::Failed(Cause::Divide),
    Outcome::Failed(Cause::Stack),
    Outcome::Failed(Cause::Align),
    Outcome::Value(0xffff_ffff_ffff_fff8),
    Outcome::Failed(Cause::Missing(16)),
    Outcome::Failed(Cause::Missing(0)),
    Outcome::Failed(Cause::UnknownName),
    Outcome::Undefined,
];

/// The rules of the first INIT.
fn init_rules(lines: &[SymLine]) -> &[RuleText] {
    for line in lines {
        if let SymLine::Init { rules, .. } = line {
            return rules.as_slice();
        }
    }
    &[]
}

/// The values of rules, if rsp is 7ffe0010 and these bytes are saved there.
fn values_of(alloc: Global, rules: &[RuleText], saved: &[u8]) -> Result<Vec<Outcome>, OutOfMemory> {
    let mut regs = Regs {
        values: [None; 16],
        rip: None,
    };
    regs.values[7] = Some(0x7ffe_0010);
    let mut runs = Vec::new(alloc);
    runs.push(MemRun {
        start: 0x7ffe_0010,
        bytes: ByteRun::of(Vec::from_slice(alloc, saved)?),
    })?;
    let memory = Memory::of(alloc, runs)?;
    let mut values = Vec::new(alloc);
    for rule in rules {
        let cfa = match rule.target {
            Target::Cfa => None,
            _ => Some(Outcome::Value(0x7ffe_0020)),
        };
        values.push(eval(alloc, rule.tokens.as_slice(), &regs, cfa, &memory)?)?;
    }
    Ok(values)
}

#[test]
fn rules_have_their_values(rt: HostRuntime) -> Result<(), Fail> {
    let alloc = rt.alloc();
    let file = file_of_text(alloc, RULES)?;
    let rules = init_rules(file.as_slice());
    same(&rt, "values", &values_of(alloc, rules, SAVED)?, &VALUES);
    let mut wanted = VALUES;
    wanted[1] = Outcome::Failed(Cause::Unreadable(0x7ffe_0018));
    let cut = SAVED.split_at(SAVED.len().min(15)).0;
    same(&rt, "a byte less", &values_of(alloc, rules, cut)?, &wanted);
    Ok(())
}
