//! What is true of walks. Each function does nothing: its contract is the law.
ghost use Rattle.std.specs.Prelude.{◌≡◌, ◌+◌, ◌<◌, ◌≤◌, ℕ, false, List, Some, None, length};
ghost use Rattle.sym_records.specs.declared.line.SymLine.{SymLine};
ghost use Rattle.state_file.specs.declared.state.State.{State};
ghost use Rattle.stack_walk.specs.declared.steps.Walk.{Walk};
ghost use Rattle.cfi_eval.specs.declared.registers.Regs.{Regs};
ghost use Rattle.stack_walk.specs.declared.callers.Place.{Place};
ghost use Rattle.stack_walk.specs.Walk.{Process, first_place, walk_from, walk_of};
ghost use Rattle.stack_walk.specs.Callers.{IsStack, IsStackOf};
ghost use Rattle.stack_walk.specs.Rising.{CfasRise, HaveNoSignals};

/// In every process the CFA of each step but the last is a value. It is above the CFA of the step
/// before, except at frames of signals; there are no such frames if the process does not recognize
/// them. A walk has at most `most` steps.
#[tactic(auto, using(crate::proofs::RisingLemmas::rise_from, crate::proofs::RisingLemmas::no_signals_from, crate::proofs::RisingLemmas::few_from))]
pub fn frames_lie_above_one_another()
    ensures rise { (process : Process) (most : ℕ) (here : Place) → CfasRise here.before (walk_from process most here).steps }
    ensures no_signals { (process : Process) (most : ℕ) (here : Place) → process.signals ≡ false → HaveNoSignals (walk_from process most here).steps }
    ensures few { (process : Process) (most : ℕ) (here : Place) → length (walk_from process most here).steps ≤ most }
{}

/// In every process the first step is at the first address, with the first registers. Each other step is the caller of the step before, with the
/// registers to which the rules of that step gave a value. Each step has the values of the rules of its module, and the names at its address.
#[tactic(auto, using(crate::proofs::StackLemmas::stack_from))]
pub fn each_step_is_the_caller_of_the_one_before()
    ensures { (process : Process) (more rip : ℕ) (regs : Regs) → IsStack process regs rip (walk_from process (more + 1) (first_place regs rip)).steps }
{}

/// The walk of a state, given the records of one symbol file, has no frames of signals: the CFAs of its steps but the last rise strictly. It has from
/// one to 1,024 steps, each the caller of the one before.
#[tactic(auto, using(crate::proofs::StateLemmas::walks_rise, crate::proofs::StateLemmas::walks_have_no_signals, crate::proofs::StateLemmas::walks_some, crate::proofs::StateLemmas::walks_few, crate::proofs::StateLemmas::walks_are_stacks))]
pub fn walks_of_a_state_are_stacks()
    ensures rise { (lines : List SymLine) (state : State) (walk : Walk) → walk_of lines state ≡ Some walk → CfasRise None walk.steps }
    ensures no_signals { (lines : List SymLine) (state : State) (walk : Walk) → walk_of lines state ≡ Some walk → HaveNoSignals walk.steps }
    ensures some { (lines : List SymLine) (state : State) (walk : Walk) → walk_of lines state ≡ Some walk → 0 < length walk.steps }
    ensures few { (lines : List SymLine) (state : State) (walk : Walk) → walk_of lines state ≡ Some walk → length walk.steps ≤ 1024 }
    ensures stack { (lines : List SymLine) (state : State) (walk : Walk) → walk_of lines state ≡ Some walk → IsStackOf lines state walk.steps }
{}
