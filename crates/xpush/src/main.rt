//! xpush: which subscriptions a document matches.
//!
//! `plain` holds the theorem of the commands that need no runtime, and `run` that of all. This
//! file gives them the words of the command line and the standard streams, and ends with the
//! number of their status.
#![tactic(auto)]

mod document;
mod hub_words;
pub mod laws;
mod making;
mod matching;
mod options;
pub mod plain;
mod proving;
pub mod run;
mod running;
mod showing;
mod stop;
#[cfg(test)]
mod tests;
mod words;

use px_feed::Status;
use px_io::{OpenGate, StdSink, StdSource};
use run::run;
use std::alloc::Global;
use std::env;
use std::env::Env;
use std::io::{ErrorKind, Stdin, Stdout};
use std::process::ExitCode;

// The words behind the program's name. Words that are not UTF-8 are `Usage`.
fn words_of(rt: &(impl Env + Alloc<A = Global>)) -> Result<Vec<String>, Status> {
    match env::args(rt) {
        Ok(args) => args.skip(1).collect(rt.alloc()).map_err(|_| Status::Memory),
        Err(e) if e.kind() == ErrorKind::OutOfMemory => Err(Status::Memory),
        Err(_) => Err(Status::Usage),
    }
}

// What standard error is told of a status, if anything.
fn message(status: Status) -> Option<&'static str> {
    match status {
        Status::Done | Status::Refused => None,
        Status::Usage => Some("xpush: usage"),
        Status::ReadFault => Some("xpush: read fault"),
        Status::WriteFault => Some("xpush: write fault"),
        Status::Memory => Some("xpush: out of memory"),
    }
}

fn main(rt: HostRuntime) -> ExitCode {
    let status = match words_of(&rt) {
        Ok(words) => {
            let mut source = StdSource::new(rt.stdin());
            let mut sink = StdSink::new(rt.stdout());
            run(
                &rt,
                rt.alloc(),
                words.as_slice(),
                &mut source,
                &mut sink,
                &OpenGate,
            )
        }
        Err(status) => status,
    };
    if let Some(text) = message(status) {
        // Nobody is left to be told of a fault of standard error.
        let _ = eprintln!(rt; "{text}");
    }
    ExitCode::from(status.number())
}
