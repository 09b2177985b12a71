//! Laws of the whole program, and worked examples: small ELF files with the status and the two texts that they give.
//!
//! [`laws::verdicts_are_one`]: arguments and files have at most one verdict by `IsVerdict` of
//! dumpsyms_cmd. [`laws::judging_runs_end_alike`]: if two runs keep `Promises`, the contract of
//! `run`, ask for the same and answer it, they end in the same way, whatever their numbers of
//! workers. [`laws::own_debug_files_change_nothing`]: a file with itself as its debug file is
//! dumped as it is dumped alone. [`laws::a_yes_says_what_the_file_says`]: if `judge` answers yes
//! for a symbol file, the symbol file says what DWARF says in the ELF file.
//!
//! If no unit of a file is read, or the file is refused, `proofs/Plain.antt` computes its verdict and proves that it is one. The contract of `run`
//! ties the program to that definition. Each worked example in `proofs/Worked*.antt` says what is computed on a file that is written out field by
//! field. `proofs/Elf.antt` has the parts of these files.
#![tactic(auto)]

pub mod laws;
