//! Which expressions rule text can express.
ghost use Rattle.std.specs.Prelude.{◌≡◌};
ghost use Rattle.expr_steps.specs.Standing.{is_one, standing, standing_by};

use crate::step_reader::StepReader;

/// How an expression that rule text can express uses the CFA.
#[derive(Clone, Copy, PartialEq, Eq, Debug)]
pub enum Standing {
    /// It needs no value below its own ones on the stack.
    Free,
    /// It begins with the CFA on the stack, and its value takes the CFA's place.
    OverCfa,
}

/// The most words that the rule of an expression may have.
const MAX_WORDS: u32 = 1024;

fn is_one(depth: Option<u32>) -> bool
    ensures { result ≡ is_one depth }
{
    match depth {
        Some(depth) => depth == 1,
        None => false,
    }
}

#[tactic(auto, unfolding(crate::specs::Standing::standing_by))]
fn standing_by(start: bool, count: u32, free: Option<u32>, over: Option<u32>) -> Option<Standing>
    ensures { result ≡ standing_by start count free over }
{
    if is_one(free) && count <= MAX_WORDS {
        return Some(Standing::Free);
    }
    if start && is_one(over) && count < MAX_WORDS {
        return Some(Standing::OverCfa);
    }
    None
}

/// How an expression uses the CFA, or none exactly if rule text cannot express it. It cannot in
/// these cases: a byte belongs to no operation that is read, an operation is in no step, a step
/// does not find its values, the number of values that are left is not one, or there are more than
/// 1,024 words. `start` says that the CFA may be on the stack. This is so for `DW_CFA_expression`
/// and `DW_CFA_val_expression`, but not for `DW_CFA_def_cfa_expression`. Allocates no memory.
#[tactic(auto, using(crate::proofs::StandingLemmas::stands_all, crate::proofs::StandingLemmas::stands_more, crate::proofs::StandingLemmas::stands_long, crate::proofs::StandingLemmas::stands_not, crate::proofs::StandingLemmas::deeper, crate::proofs::StandingLemmas::some_words, crate::proofs::StandingLemmas::standing_is))]
pub fn find_standing(expr: &[u8], start: bool) -> Option<Standing>
    ensures { result ≡ standing start expr.now }
{
    let mut reader = StepReader::new(expr);
    let mut count = 0u32;
    let mut free = Some(0u32);
    let mut over = Some(1u32);
    'steps: loop {
        match reader.next() {
            Ok(Some(step)) => {
                count += step.words();
                if count > MAX_WORDS {
                    return None;
                }
                free = step.after(free);
                over = step.after(over);
            }
            Ok(None) => return standing_by(start, count, free, over),
            Err(_) => return None,
        }
    }
}
