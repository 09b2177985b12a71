//! The canonical texts of symbol files.
ghost use Rattle.std.specs.Prelude.{◌≡◌, ◌≤◌, Ok, OnOk, OnErr};
ghost use Rattle.std.specs.List.{flat_map};
ghost use Rattle.sym_edges.specs.Outside.{append_told, AddsFront, Rose};
ghost use Rattle.sym_rules.specs.Buffer.{Hands};
ghost use Rattle.sym_records.specs.Canon.{canon_text};
ghost use Rattle.sym_records.specs.Reading.{reading};
ghost use Rattle.sym_records.specs.Spelled.{records_in, text_bytes, IsSpelled};

use crate::pieces::TextPieces;
use std::marker::Model;
use sym_edges::{Failed, Sink};
use sym_rules::{ByteText, Waiting, hand_on, put};

/// The canonical text of a symbol file. Contracts see its records, but only the text is stored.
#[derive(Debug, Drop)]
pub struct SymText {
    text: TextPieces,
}

impl Model for SymText {
    ghost use Rattle.std.specs.Prelude.{List};
    ghost use Rattle.sym_records.specs.declared.line.SymLine.{SymLine};
    ghost use Rattle.sym_records.specs.Spelled.{records_in, text_bytes, IsSpelled};

    ghost Value = { List SymLine };

    ghost view = { λ t. records_in (text_bytes t.text) };

    ghost invariant = { λ t. IsSpelled (text_bytes t.text) };
}

/// Puts the pieces of a text into the buffer.
fn put_pieces<O: Sink, const N: usize>(
    sink: &mut O,
    waiting: &mut Waiting<N>,
    pieces: &[ByteText],
) -> Result<(), Failed>
    ensures { Hands result (O.taken sink.old) (O.faults sink.old) waiting.old (flat_map (λ piece. piece) pieces.now) (O.taken sink.new) (O.faults sink.new) waiting.new }
{
    for piece in pieces {
        match put(sink, waiting, piece.as_slice()) {
            Ok(()) => {}
            Err(Failed) => return Err(Failed),
        }
    }
    Ok(())
}

/// Puts a text into the buffer.
fn put_text<O: Sink, const N: usize>(
    sink: &mut O,
    waiting: &mut Waiting<N>,
    text: &TextPieces,
) -> Result<(), Failed>
    ensures { Hands result (O.taken sink.old) (O.faults sink.old) waiting.old (text_bytes text.now) (O.taken sink.new) (O.faults sink.new) waiting.new }
{
    match put_pieces(sink, waiting, text.full.as_slice()) {
        Ok(()) => {}
        Err(Failed) => return Err(Failed),
    }
    put(sink, waiting, text.last.as_slice())
}

impl SymText {
    /// A text, which must be the canonical text of its records. Allocates no memory.
    pub fn of(text: TextPieces) -> SymText
        requires { IsSpelled (text_bytes text) }
        ensures { result ≡ records_in (text_bytes text) }
    {
        SymText { text }
    }

    /// Writes the text into a sink. If it fails, a prefix of the text was written. What was written
    /// reads back as the records. Allocates no memory.
    #[tactic(auto, using(crate::proofs::SpelledLemmas::wrote_all, crate::proofs::SpelledLemmas::wrote_front, crate::proofs::SpelledLemmas::wrote_not_on, crate::proofs::SpelledLemmas::spelled_reads))]
    pub fn write<O: Sink>(&self, sink: &mut O) -> Result<(), Failed>
        ensures written { OnOk result (O.taken sink.new ≡ append_told (O.taken sink.old) (canon_text self.now)) }
        ensures front { OnErr result (AddsFront (O.taken sink.old) (O.taken sink.new) (canon_text self.now)) }
        ensures faults { O.faults sink.old ≤ O.faults sink.new }
        ensures cause { OnErr result (Rose (O.faults sink.old) (O.faults sink.new)) }
        ensures reads { reading (canon_text self.now) ≡ Ok self.now }
    {
        let mut waiting = Waiting::<64>::new();
        match put_text(sink, &mut waiting, &self.text) {
            Ok(()) => {}
            Err(Failed) => return Err(Failed),
        }
        match hand_on(sink, &mut waiting) {
            Ok(()) => Ok(()),
            Err(Failed) => Err(Failed),
        }
    }
}
