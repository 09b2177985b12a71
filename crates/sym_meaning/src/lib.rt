//! The meaning of the records of a symbol file (Breakpad's symbol_files.md): which names and lines
//! they give to an address, and in which lists of records a checker finds nothing. The crate has
//! only definitions, and no calls.
//!
//! The function of an address is the first `FUNC` that covers it. Only the records directly under
//! this `FUNC` count for the line and the inlined copies. The line is that of the first line record
//! that covers the address, and the path is that of the first `FILE` with the record's number. For
//! each level from 0 on, up to the first level without one, the inlined copy is the first `INLINE`
//! of this level that covers the address. `specs/TextNames.antt` defines all this.
//!
//! `specs/Findings.antt` says in which lists of records a checker finds nothing, and
//! `specs/Inits.antt` which addresses frame records cover.
#![tactic(auto)]
