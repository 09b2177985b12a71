//! Reading the steps of an expression, one after another.
ghost use Rattle.std.specs.Prelude.{◌≡◌, ℕ, ◌<◌, ◌^◌, [], Option, Some, None, MatchResult, MatchOption};
ghost use Rattle.expr_steps.specs.declared.operation.Operation.TheVariants.{Constant, And, Shl, Ge};
ghost use Rattle.expr_steps.specs.Steps.{in_front, mask_size, step_alone, steps_at, steps};
ghost use Rattle.expr_steps.specs.internal.Reading.{constant_of, IsPair, IsAlone, IsNoStep, steps_behind};

use crate::operation::Operation;
use crate::step::Step;
use leb_cursor::Cursor;
use std::marker::Model;
use sym_edges::Reason;

/// Reads the steps of an expression. Contracts see the steps that are left, or none if what is left is not made of steps.
#[derive(Drop)]
pub struct StepReader<'a> {
    cursor: Cursor<'a>,
    /// The power of two of the previous step, if that was an `and`.
    kept: Option<u64>,
}

impl<'a> Model for StepReader<'a> {
    ghost use Rattle.std.specs.Prelude.{List, Option};
    ghost use Rattle.expr_steps.specs.declared.step.Step.{Step};
    ghost use Rattle.expr_steps.specs.Steps.{steps_at};

    ghost Value = { Option (List Step) };

    ghost view = { λ r. steps_at r.kept r.cursor };
}

/// A step and, if it is an `and`, its power of two.
#[derive(Clone, Copy)]
struct Found {
    step: Step,
    kept: Option<u64>,
}

/// A step other than an `and`.
fn alone(step: Step) -> Found
    ensures step { result.step ≡ step }
    ensures kept { result.kept ≡ None }
{
    Found { step, kept: None }
}

#[tactic(auto, using(std::proofs::lemmas::Nat::one_shl))]
fn power_of_two(bits: u64) -> u64
    requires small { bits < 64 }
    ensures { result ≡ 2 ^ bits }
{
    1u64 << bits
}

/// The power of two that is one more than a constant, if it is at most 2^62.
#[tactic(auto, using(crate::proofs::StepLemmas::mask_found, crate::proofs::StepLemmas::mask_lower, crate::proofs::StepLemmas::mask_none, std::proofs::lemmas::Nat::pow_pos))]
fn mask_size(value: u64) -> Option<u64>
    ensures { result ≡ mask_size 63 value }
{
    let mut bits = 63u64;
    'sizes: while bits > 0 {
        bits -= 1;
        let size = power_of_two(bits);
        if value == size - 1 {
            return Some(size);
        }
    }
    None
}

fn constant_of(operation: Operation) -> Option<u64>
    ensures { result ≡ constant_of operation }
{
    match operation {
        Operation::Constant { value } => Some(value),
        Operation::Breg { .. }
        | Operation::Deref
        | Operation::And
        | Operation::Minus
        | Operation::Mul
        | Operation::Plus
        | Operation::PlusUconst { .. }
        | Operation::Shl
        | Operation::Ge => None,
    }
}

/// The step of an operation alone.
fn step_alone(operation: Operation) -> Option<Step>
    ensures { result ≡ step_alone operation }
{
    match operation {
        Operation::Constant { value } => Some(Step::Constant { value }),
        Operation::Breg { register, offset } => {
            if register > 16 {
                return None;
            }
            Some(Step::Register { register, offset })
        }
        Operation::Deref => Some(Step::Fetch),
        Operation::Plus => Some(Step::Add),
        Operation::Minus => Some(Step::Subtract),
        Operation::Mul => Some(Step::Multiply),
        Operation::PlusUconst { addend } => Some(Step::AddConstant { addend }),
        Operation::And | Operation::Shl | Operation::Ge => None,
    }
}

/// The step of a constant and `and`.
#[tactic(auto, using(crate::proofs::StepLemmas::pair_and, crate::proofs::StepLemmas::no_mask))]
fn masked(value: u64) -> Result<Found, Reason>
    ensures { MatchResult result (λ read. (kept : Option ℕ) → IsPair kept value And read.step read.kept) (λ _. (kept : Option ℕ) → IsNoStep kept value And) }
{
    match mask_size(value) {
        Some(size) => Ok(Found {
            step: Step::Remainder { size },
            kept: Some(size),
        }),
        None => Err(Reason::Expression),
    }
}

/// The step of a constant and `shl`.
#[tactic(auto, using(crate::proofs::StepLemmas::pair_shl, crate::proofs::StepLemmas::far_shl))]
fn shifted(value: u64) -> Result<Found, Reason>
    ensures { MatchResult result (λ read. (kept : Option ℕ) → IsPair kept value Shl read.step read.kept) (λ _. (kept : Option ℕ) → IsNoStep kept value Shl) }
{
    if value > 62 {
        return Err(Reason::Expression);
    }
    Ok(alone(Step::Product {
        factor: power_of_two(value),
    }))
}

/// The step of a constant and `ge`.
#[tactic(auto, using(crate::proofs::StepLemmas::pair_ge, crate::proofs::StepLemmas::far_ge, crate::proofs::StepLemmas::no_and))]
fn compared(kept: Option<u64>, value: u64) -> Result<Found, Reason>
    ensures { MatchResult result (λ read. IsPair kept value Ge read.step read.kept) (λ _. IsNoStep kept value Ge) }
{
    let Some(size) = kept else {
        return Err(Reason::Expression);
    };
    if value > size {
        return Err(Reason::Expression);
    }
    Ok(alone(Step::Reaches {
        lift: size - value,
        size,
    }))
}

/// The step of a constant together with the operation after it, or none if the constant alone is a
/// step.
#[tactic(auto, using(crate::proofs::StepLemmas::constant_alone))]
fn pair_of(kept: Option<u64>, value: u64, operation: Operation) -> Result<Option<Found>, Reason>
    ensures { MatchResult result
        (λ pair. MatchOption pair (IsAlone kept value operation) (λ read. IsPair kept value operation read.step read.kept))
        (λ _. IsNoStep kept value operation) }
{
    match operation {
        Operation::And => Ok(Some(masked(value)?)),
        Operation::Shl => Ok(Some(shifted(value)?)),
        Operation::Ge => Ok(Some(compared(kept, value)?)),
        Operation::Constant { .. }
        | Operation::Breg { .. }
        | Operation::Deref
        | Operation::Minus
        | Operation::Mul
        | Operation::Plus
        | Operation::PlusUconst { .. } => Ok(None),
    }
}

/// The step of a constant, together with the operation after it if both are one step.
#[tactic(auto, using(crate::proofs::StepLemmas::paired, crate::proofs::StepLemmas::left_alone, crate::proofs::StepLemmas::no_step, crate::proofs::StepLemmas::last_constant, crate::proofs::StepLemmas::unread_behind))]
fn read_behind_constant<'a>(
    cursor: &mut Cursor<'a>,
    kept: Option<u64>,
    value: u64,
) -> Result<Found, Reason>
    ensures { MatchResult result
        (λ read. steps_behind (Constant value) kept cursor.old ≡ in_front read.step (steps_at read.kept cursor.new))
        (λ _. steps_behind (Constant value) kept cursor.old ≡ None) }
{
    let mut behind = cursor.fork();
    let Some(operation) = Operation::next(&mut behind)? else {
        return Ok(alone(Step::Constant { value }));
    };
    let Some(pair) = pair_of(kept, value, operation)? else {
        return Ok(alone(Step::Constant { value }));
    };
    *cursor = behind;
    Ok(pair)
}

/// The step of an operation, together with the operation after it if both are one step.
#[tactic(auto, using(crate::proofs::StepLemmas::constant_is, crate::proofs::StepLemmas::steps_alone, crate::proofs::StepLemmas::none_alone))]
fn read_behind(
    cursor: &mut Cursor<'_>,
    kept: Option<u64>,
    operation: Operation,
) -> Result<Found, Reason>
    ensures { MatchResult result
        (λ read. steps_behind operation kept cursor.old ≡ in_front read.step (steps_at read.kept cursor.new))
        (λ _. steps_behind operation kept cursor.old ≡ None) }
{
    if let Some(value) = constant_of(operation) {
        return read_behind_constant(cursor, kept, value);
    }
    let Some(step) = step_alone(operation) else {
        return Err(Reason::Expression);
    };
    Ok(alone(step))
}

impl<'a> StepReader<'a> {
    /// A reader at the first byte of an expression.
    #[tactic(auto, using(crate::proofs::StepLemmas::reads_all))]
    pub fn new(expr: &'a [u8]) -> StepReader<'a>
        ensures { result ≡ steps expr.now }
    {
        StepReader {
            cursor: Cursor::new(expr, 0, expr.len()),
            kept: None,
        }
    }

    /// The next step, or none if no byte is left. If what is left is not made of steps, some call
    /// fails, at the latest at the byte that belongs to no step.
    #[tactic(auto, using(crate::proofs::StepLemmas::next_ends, crate::proofs::StepLemmas::next_steps, crate::proofs::StepLemmas::next_unread))]
    pub fn next(&mut self) -> Result<Option<Step>, Reason>
        ensures { MatchResult result
            (λ found. MatchOption found (self.old ≡ Some []) (λ step. self.old ≡ in_front step self.new))
            (λ why. (why ≡ Reason.Expression) × (self.old ≡ None)) }
    {
        let operation = match Operation::next(&mut self.cursor) {
            Ok(Some(operation)) => operation,
            Ok(None) => return Ok(None),
            Err(_) => return Err(Reason::Expression),
        };
        match read_behind(&mut self.cursor, self.kept, operation) {
            Ok(found) => {
                self.kept = found.kept;
                Ok(Some(found.step))
            }
            Err(_) => Err(Reason::Expression),
        }
    }
}
