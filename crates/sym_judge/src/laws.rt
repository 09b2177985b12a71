//! Theorems about forms and rulings. Each function does nothing: its contract is the law.
ghost use Rattle.std.specs.Prelude.{◌≡◌, ◌<◌, ◌^◌, ℕ, List, Option, None, Some};
ghost use Rattle.cfi_eval.specs.declared.memory.MemRun.{MemRun};
ghost use Rattle.cfi_eval.specs.declared.outcome.Outcome.{Outcome};
ghost use Rattle.cfi_eval.specs.declared.registers.Regs.{Regs};
ghost use Rattle.cfi_eval.specs.TextValue.{cfa_by, ra_by, register_by};
ghost use Rattle.sym_rules.specs.declared.rules.Target.TheVariants as target;
ghost use Rattle.sym_rules.specs.declared.rules.Token.{Token};
ghost use Rattle.sym_records.specs.declared.line.SymLine.{SymLine};
ghost use Rattle.sym_judge.specs.Forms.{form_by};
ghost use Rattle.cfi_eval.specs.Known.{AreWords, IsKnown};
ghost use Rattle.sym_judge.specs.FormValues.{form_value};
ghost use Rattle.sym_judge.specs.Rulings.{IsRuling};
ghost use Rattle.sym_judge.specs.SameMeaning.{NameTheSame, UnwindTheSame};
ghost use Rattle.sym_judge.specs.declared.ruling.Ruling.{Ruling};
ghost use Rattle.sym_judge.specs.declared.ruling.Ruling.TheVariants.{Yes};

/// The rule of a target, or a missing rule, gives what its form gives: for all memory, all registers of 64 bits and every CFA of the frame that is
/// not undefined.
#[tactic(auto, using(crate::proofs::FormLemmas::cfa_gives, crate::proofs::FormLemmas::ra_gives, crate::proofs::FormLemmas::register_gives))]
pub fn rules_give_what_their_forms_give()
    ensures cfa { (regs : Regs) (memory : List MemRun) (rule : Option (List Token)) → AreWords regs → cfa_by regs memory rule ≡ form_value regs memory None (form_by target.Cfa rule) }
    ensures ra { (regs : Regs) (memory : List MemRun) (cfa : Outcome) (rule : Option (List Token)) → AreWords regs → IsKnown cfa → ra_by regs memory cfa rule ≡ form_value regs memory (Some cfa) (form_by target.Ra rule) }
    ensures register { (regs : Regs) (memory : List MemRun) (cfa : Outcome) (register : ℕ) (rule : Option (List Token)) → AreWords regs → IsKnown cfa → register_by regs memory cfa register rule ≡ form_value regs memory (Some cfa) (form_by (target.Reg register) rule) }
{}

/// Rules, or missing rules, of one form give one outcome.
#[tactic(auto, using(crate::proofs::FormLemmas::same_cfa, crate::proofs::FormLemmas::same_ra, crate::proofs::FormLemmas::same_register))]
pub fn equal_forms_give_equal_outcomes()
    ensures cfa { (regs : Regs) (memory : List MemRun) (a b : Option (List Token)) → AreWords regs → form_by target.Cfa a ≡ form_by target.Cfa b → cfa_by regs memory a ≡ cfa_by regs memory b }
    ensures ra { (regs : Regs) (memory : List MemRun) (cfa : Outcome) (a b : Option (List Token)) → AreWords regs → IsKnown cfa → form_by target.Ra a ≡ form_by target.Ra b → ra_by regs memory cfa a ≡ ra_by regs memory cfa b }
    ensures register { (regs : Regs) (memory : List MemRun) (cfa : Outcome) (register : ℕ) (a b : Option (List Token)) → AreWords regs → IsKnown cfa → form_by (target.Reg register) a ≡ form_by (target.Reg register) b → register_by regs memory cfa register a ≡ register_by regs memory cfa register b }
{}

/// If `judge` says yes, both files name the same at every address, and there evaluating the frame rules of the second gives what those of the first
/// give.
#[tactic(auto, using(crate::proofs::LawLemmas::yes_names, crate::proofs::LawLemmas::yes_frames))]
pub fn yes_keeps_the_meaning()
    ensures names { (own other : List SymLine) (x : ℕ) → IsRuling own other Yes → x < 2 ^ 64 → NameTheSame own other x }
    ensures frames { (own other : List SymLine) (x : ℕ) → IsRuling own other Yes → x < 2 ^ 64 → UnwindTheSame own other x }
{}

/// A file says the same as itself.
#[tactic(auto, using(crate::proofs::LawLemmas::itself))]
pub fn a_file_is_like_itself()
    ensures { (lines : List SymLine) (ruling : Ruling) → IsRuling lines lines ruling → ruling ≡ Yes }
{}
