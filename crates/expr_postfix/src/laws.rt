//! Laws of the definitions, for readers and for proofs in crates that use this one. Each function does nothing: its contract is the law.
ghost use Rattle.std.specs.Prelude.{◌≡◌, ℕ, ◌<◌, ◌≤◌, Bool, true, false, List, length, Option, Some};
ghost use Rattle.std.specs.List.{list_all};
ghost use Rattle.sym_rules.specs.declared.rules.Token.{Token};
ghost use Rattle.cfi_eval.specs.declared.registers.Regs.{Regs};
ghost use Rattle.cfi_eval.specs.declared.memory.MemRun.{MemRun};
ghost use Rattle.cfi_eval.specs.declared.outcome.Outcome.{Outcome};
ghost use Rattle.cfi_eval.specs.Postfix.{rule_value};
ghost use Rattle.expr_postfix.specs.ExprTokens.{expr_tokens, rule_tokens, is_expr_word};
ghost use Rattle.expr_postfix.specs.ExprValue.{expr_value, word_of};

/// Evaluating the words of an expression gives its value, or its failure with the same cause, for all registers, rip, memory and CFA (`value`). With
/// `^` after them, the words give the word in memory at that value (`fetched`). If the CFA may not be on the stack, as in the rule of the CFA itself,
/// the value of `.cfa` does not matter (`free`).
#[tactic(auto, using(crate::proofs::WholeLemmas::value_with_cfa, crate::proofs::WholeLemmas::value_in_memory, crate::proofs::WholeLemmas::value_free))]
pub fn words_have_the_value()
    ensures value { (start : Bool) (bytes : List ℕ) (words : List Token) (regs : Regs) (memory : List MemRun) (cfa : Outcome) →
        expr_tokens start bytes ≡ Some words → rule_value regs memory (Some cfa) words ≡ expr_value regs memory cfa start bytes }
    ensures fetched { (start : Bool) (bytes : List ℕ) (words : List Token) (regs : Regs) (memory : List MemRun) (cfa : Outcome) →
        rule_tokens start true bytes ≡ Some words → rule_value regs memory (Some cfa) words ≡ word_of memory (expr_value regs memory cfa start bytes) }
    ensures free { (bytes : List ℕ) (words : List Token) (regs : Regs) (memory : List MemRun) (given : Option Outcome) (cfa : Outcome) →
        expr_tokens false bytes ≡ Some words → rule_value regs memory given words ≡ expr_value regs memory cfa false bytes }
{}

/// An expression has at least one word and at most 1,024 words, and no `Other` name except that of rip. So each word is short, and a rule can carry
/// them.
#[tactic(auto, using(crate::proofs::FitLemmas::words_some, crate::proofs::FitLemmas::words_few, crate::proofs::FitLemmas::words_plain))]
pub fn words_fit_rules()
    ensures some { (start : Bool) (bytes : List ℕ) (words : List Token) → expr_tokens start bytes ≡ Some words → 0 < length words }
    ensures few { (start : Bool) (bytes : List ℕ) (words : List Token) → expr_tokens start bytes ≡ Some words → length words ≤ 1024 }
    ensures plain { (start : Bool) (bytes : List ℕ) (words : List Token) → expr_tokens start bytes ≡ Some words → list_all is_expr_word words ≡ true }
{}
