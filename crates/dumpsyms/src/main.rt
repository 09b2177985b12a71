//! The program `dumpsyms`: gives its arguments to `run`, with the system's files and streams.
#![tactic(auto)]

use dumpsyms_cmd::run;
use std::io::ErrorKind;
use std::process::ExitCode;
use std::rt::Env;
use std::{env, io};
use sym_edges::{FileStore, StreamSink};
use unit_workers::NoGate;

/// The status if memory ran out.
const NO_MEMORY: u8 = 5;

/// The arguments after the program's name.
fn read_words(rt: &(impl Env + AllocGlobal)) -> io::Result<Vec<String>> {
    let mut words = Vec::new(rt.alloc());
    for word in env::args(rt)?.skip(1) {
        words.push(word)?;
    }
    Ok(words)
}

fn main(rt: HostRuntime) -> ExitCode {
    let words = match read_words(&rt) {
        Ok(words) => words,
        Err(error) => {
            if error.kind() == ErrorKind::OutOfMemory {
                return ExitCode::from(NO_MEMORY);
            }
            // An argument that is no text is invalid for every command.
            Vec::new(rt.alloc())
        }
    };
    let mut store = FileStore::new(rt.alloc(), &rt);
    let mut out = StreamSink::new(rt.stdout());
    let mut err = StreamSink::new(rt.stderr());
    let status = run(
        &rt,
        rt.alloc(),
        &words,
        &mut store,
        &mut out,
        &mut err,
        &NoGate,
    );
    ExitCode::from(status)
}
