//! A reader of a symbol file that comes in pieces.
ghost use Rattle.std.specs.Prelude.{◌≡◌, ◌^◌, ℕ, List, [], ⊤, None, Ok, Err, IfSome, OnOk};
ghost use Rattle.sym_edges.specs.Outside.{MatchStop};
ghost use Rattle.sym_records.specs.Reading.{reading};
ghost use Rattle.sym_edges.specs.declared.fault.Stop.TheVariants.{Fault};
ghost use Rattle.sym_grammar.specs.Answer.{answer, lifted, fed_nothing, Feeds, IsUpToDate, stop_of};
ghost use Rattle.sym_grammar.specs.Input.{decided, IfNone};

use crate::pieces::take_piece;
use crate::progress::{Progress, add_numbered, into_records, started};
use std::alloc::Global;
use std::marker::Model;
use sym_edges::Stop;
use sym_records::{SymFile, file_of_valid};
use sym_rules::{TextFault, TextKind};

/// The greatest number of bytes of a line without its LF: 2^20.
const LINE_LIMIT: usize = 0x10_0000;

/// A reader of a symbol file that comes in pieces.
#[derive(Debug, Drop)]
pub struct Reader {
    seen: Progress,
    held: Vec<u8>,
    stop: Option<Stop<TextFault>>,
}

impl Model for Reader {
    ghost use Rattle.std.specs.Prelude.{◌^◌};
    ghost use Rattle.sym_grammar.specs.Answer.{Reads};
    ghost use Rattle.sym_grammar.specs.internal.Parts.{IsFront, part_of};

    ghost Value = { Reads };

    ghost view = { λ r. record { part = part_of r.seen r.held.items; stop = r.stop } };

    ghost invariant = { λ r. IsFront (2 ^ 20) r.held.items };
}

impl Reader {
    /// A reader that was fed nothing. Allocates no memory.
    #[tactic(auto, using(crate::proofs::ReaderLemmas::starts))]
    pub fn new(alloc: Global) -> Reader
        ensures nothing { result ≡ fed_nothing }
        ensures reads { (bytes : List ℕ) → answer result bytes ≡ lifted (reading bytes) }
    {
        Reader {
            seen: started(alloc),
            held: Vec::new(alloc),
            stop: None,
        }
    }

    /// Reads the next piece of the text, of any length.
    ///
    /// A fault is returned as soon as the byte that decides it was fed: the LF of a line, or the byte that makes a line too long. After a fault, and
    /// after memory ran out, each call returns the same.
    #[tactic(auto, using(crate::proofs::ReaderLemmas::fed, crate::proofs::DecidedLemmas::ok_decided, crate::proofs::DecidedLemmas::stop_decided))]
    pub fn feed(&mut self, alloc: Global, piece: &[u8]) -> Result<(), Stop<TextFault>>
        ensures feeds { Feeds result self.old piece.now self.new }
        ensures eager { OnOk result (IsUpToDate (2 ^ 20) self.old.part piece.now self.new.part) }
        ensures decides { IfNone self.old.stop (MatchStop result (λ _. decided (2 ^ 20) self.old.part piece.now ≡ Ok self.new.part) (λ fault. decided (2 ^ 20) self.old.part piece.now ≡ Err fault) ⊤) }
        ensures stopped { IfSome self.old.stop (λ stop. result ≡ Err stop) }
        ensures stop { self.new.stop ≡ stop_of result }
    {
        match self.stop {
            Some(stop) => return Err(stop),
            None => {}
        }
        match take_piece(alloc, LINE_LIMIT, &mut self.seen, &mut self.held, piece) {
            Ok(()) => Ok(()),
            Err(stop) => {
                self.stop = Some(stop);
                Err(stop)
            }
        }
    }

    /// Ends the text, and returns its records.
    #[tactic(auto, using(crate::proofs::ReaderLemmas::ended, crate::proofs::ReaderLemmas::ended_empty, crate::proofs::ProgressLemmas::some_good))]
    pub fn finish(self, alloc: Global) -> Result<SymFile, Stop<TextFault>>
        ensures finishes { MatchStop result (λ file. answer self [] ≡ Ok file) (λ fault. answer self [] ≡ Err (Fault fault)) ⊤ }
        ensures stopped { IfSome self.stop (λ stop. result ≡ Err stop) }
    {
        let Reader {
            mut seen,
            held,
            stop,
        } = self;
        match stop {
            Some(stop) => return Err(stop),
            None => {}
        }
        match add_numbered(alloc, LINE_LIMIT, &mut seen, held.as_slice()) {
            Ok(()) => {}
            Err(stop) => return Err(stop),
        }
        let records = into_records(seen);
        if records.is_empty() {
            return Err(Stop::Fault(TextFault {
                kind: TextKind::Empty,
                line: 1,
            }));
        }
        Ok(file_of_valid(records))
    }
}
