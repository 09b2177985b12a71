//! What holds of all runs of the program, and what its commands say about each other's texts. Each function does nothing: its contract is the law.
ghost use Rattle.std.specs.Prelude.{◌≡◌, ◌+◌, ◌-◌, ◌<◌, ◌≤◌, ◌↔◌, ℕ, Bool, false, List, Some, None, IsSome, Ok};
ghost use Rattle.sym_edges.specs.Outside.{Files};
ghost use Rattle.elf_sections.specs.Image.{ImageParts};
ghost use Rattle.full_image.specs.FullImage.{any_image};
ghost use Rattle.sym_records.specs.declared.line.SymLine.{SymLine};
ghost use Rattle.state_file.specs.declared.state.State.{State};
ghost use Rattle.stack_walk.specs.declared.steps.Walk.{Walk};
ghost use Rattle.stack_walk.specs.Walk.{Process, is_nowhere, walk_of};
ghost use Rattle.stack_walk.specs.Callers.{IsLookedUp};
ghost use Rattle.stack_walk.specs.declared.steps.WalkStep.{WalkStep};
ghost use Rattle.cfi_eval.specs.declared.registers.Regs.{Regs};
ghost use Rattle.dumpsyms_cmd.specs.commands.Dump.{DumpsParts, written_of};
ghost use Rattle.dumpsyms_cmd.specs.Words.{command_of, dump};
ghost use Rattle.dumpsyms_cmd.specs.ElfInput.{DebugFile, ElfSource, path_of};
ghost use Rattle.dumpsyms_cmd.specs.Verdict.{Verdict};
ghost use Rattle.dumpsyms_cmd.specs.Answers.{IsVerdict};
ghost use Rattle.dumpsyms_cmd.specs.Program.{Run, Promises};
ghost use Rattle.worked.specs.OwnLink.{LeadsAlike};
ghost use Rattle.worked.specs.Runs.{RunAlike, EndAlike};
ghost use Rattle.dumpsyms_cmd.specs.commands.Judge.{JudgePromises};
ghost use Rattle.dumpsyms_cmd.specs.declared.judgement.Judgement.{Judgement};
ghost use Rattle.worked.specs.RowSteps.{IsRowStep, AreRowSteps};
ghost use Rattle.worked.specs.Judged.{SaysAsFile};
ghost use Rattle.worked.specs.DumpedJudged.{JudgesWhatWasDumped, AnswersYes};

/// Arguments and files have at most one verdict, whichever files could not be read. The definitions say what a text says at each address, and only
/// one text satisfies them.
#[tactic(auto, using(crate::proofs::OneVerdict::one_verdict))]
pub fn verdicts_are_one()
    ensures { (words : List (List ℕ)) (files : Files) (missed : List (List ℕ)) (v w : Verdict) → IsVerdict (command_of words) files missed v → IsVerdict (command_of words) files missed w → v ≡ w }
{}

/// Suppose that two runs ask for the same, by any numbers of workers, that their stores have the
/// same known files, and that their sinks held the same. If both have status 0, 1 or 2, they return
/// the same status and leave the same in their sinks. For `stacks` this also requires that neither
/// store failed.
pub fn judging_runs_end_alike()
    ensures { (one other : Run) → Promises one → Promises other → RunAlike one other → one.status < 3 → other.status < 3 → EndAlike one other }
{}

/// If the debug file of a binary is the binary itself, and the binary has a build id, the verdict is that of the binary alone. With a supplementary
/// file (DWARF 5, 7.3.6) this holds if the link leads from both names to the same place.
pub fn own_debug_files_change_nothing()
    ensures { (full : Bool) (elf file path : List ℕ) (debug : DebugFile) (workers : ℕ) (files : Files) (missed : List (List ℕ)) (parts : ImageParts) (v : Verdict) →
        files elf ≡ Some file → any_image full file ≡ Ok parts → IsSome parts.build_id → path_of debug parts ≡ Ok path → files path ≡ Some file → LeadsAlike full elf path debug parts →
        IsVerdict (Some (dump (record { full = full; elf = elf; debug = Some debug }) workers)) files missed v ↔
        IsVerdict (Some (dump (record { full = full; elf = elf; debug = None }) workers)) files missed v }
{}

/// A walk over the records that `dump` writes, from any state, unwinds as DWARF says. At each step inside a written frame entry, it has the CFA, the
/// return address and the registers of the entry's row, evaluated with the registers that the row before gave. At any other step it ends.
pub fn walks_go_by_the_rows()
    ensures { (full : Bool) (parts : ImageParts) (name : List ℕ) (lines : List SymLine) (text : List ℕ) (dumped : DumpsParts full parts name lines text) (state : State) (walk : Walk) →
        walk_of lines state ≡ Some walk → AreRowSteps parts.base (written_of parts dumped.found) state.memory state.regs walk.steps }
{}

/// A step of a stack unwinds as DWARF says, too, if the text of its module is what `dump` writes, at the module's base. The step has what the row of
/// the written frame entry gives at its address, evaluated with the step's registers and the memory of the process. This does not cover a step at an
/// address without code, to which a call led.
pub fn stacks_go_by_the_rows()
    ensures { (full : Bool) (parts : ImageParts) (name : List ℕ) (lines : List SymLine) (text : List ℕ) (dumped : DumpsParts full parts name lines text) (process : Process) (regs : Regs) (step : WalkStep) (base : ℕ) →
        (process.known_at step.at).records ≡ Ok (record { base = base; lines = lines }) → base ≤ step.at → is_nowhere (process.known_at step.at) step.rip step.at ≡ false →
        IsLookedUp process regs step → IsRowStep ((step.at - base) + parts.base) (written_of parts dumped.found) regs process.memory step }
{}

/// Suppose that `judge` gives status 0 (a yes) for a symbol file and an ELF file, alone or with its debug file. Then the symbol file names at each
/// address the function, the inlined calls and the line that DWARF names, and evaluating its frame rules gives what the rows of the written frame
/// entries give.
pub fn a_yes_says_what_the_file_says()
    ensures { (source : ElfSource) (sym : List ℕ) (files : Files) (j : Judgement) → JudgePromises source sym (Some files) j → j.status ≡ 0 → SaysAsFile source sym files }
{}

/// What `dump` writes gets a yes. The first run dumped a source with status 0. The second run is asked to judge that source and a symbol file with
/// the text that the first run wrote, of at most 2^29 bytes. Then the second run answers `yes` with status 0, unless a file could not be read, a
/// stream failed, or memory ran out.
pub fn dumped_texts_are_judged_right()
    ensures { (dumping judging : Run) → Promises dumping → Promises judging → JudgesWhatWasDumped dumping judging → judging.status < 3 → AnswersYes judging }
{}
