//! The program: from arguments and files it makes a status and two texts.
//!
//! `dump ELF` reads a file and its debugging information, by as many workers as the arguments say. It writes the records of the symbol file
//! (Breakpad's symbol_files.md), or it names the first fault. `dump ELF --debug FILE` and `dump ELF --debug-root DIR` take the debugging information
//! of a stripped file from a second file of the same build. `dump --full` reads compressed sections. `check SYM` prints what a checker finds in a
//! symbol file of any tool, and `lookup SYM ADDR` what the file names at an address. `frame SYM ADDR STATE` prints what the file's frame rules
//! evaluate to there, and `walk SYM STATE` the frames of a stack by these rules. `judge ELF SYM` compares a symbol file with what `dump` writes, and
//! `names SYM` writes it with readable names. `stacks CORE STORE` prints the stacks of a core file's threads by the symbol files in a folder.
//! `sample N` prints counts for a dump of a generated file with N units.
//!
//! The contract of `run` says which status comes, what each text holds, and which names are asked for. It says three things about a dump. At every
//! address of the units that are read, the text names DWARF's function, inline chain and line. Evaluating the rules of each written frame entry gives
//! DWARF's CFA, return address and registers, for all registers and memory. The text reads back as the file's records.
//!
//! A reader begins with `specs/Program.antt` and `program`. Then come the module of each command in
//! `specs/commands/`; `words` and `commands`; `dump`, `omissions`, `split_units` and `refusals`;
//! `symbol_input` with `check`, `lookup` and `names`; `state_input` with `frame` and `walk`;
//! `elf_input` with the files of `dump`; `judge_input` with `judge`.
#![tactic(auto)]

// The program, its arguments, and what is decided before anything is written.
mod commands;
mod judgement;
mod program;
mod refusals;
mod watched_crew;
mod words;

// `dump`, also with a separate debug file, and `sample`.
mod dump;
mod elf_input;
mod omissions;
mod read_back;
mod sample;
mod split_units;
mod sup_input;

// `judge`.
mod judge;
mod judge_input;

// The commands on symbol files.
mod check;
mod frame;
mod lookup;
mod names;
mod stacks;
mod stacks_input;
mod state_input;
mod symbol_input;
mod walk;

pub use dump::{Dumped, assemble};
pub use program::run;
