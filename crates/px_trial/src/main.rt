//! px_trial: a tool for comparisons and benchmarks. It is no part of the product, and nothing
//! stands on it.
//!
//! `px_trial compare` reads a feed of adds and documents from standard input, computes the ids of
//! each document by the two machines and by the plain evaluator, and prints how many documents
//! there were, how many ids, how often a machine gave other ids than the plain evaluator, and how
//! often the machine of `serial` had forgotten all. It ends with 1 where ids differ.
//!
//! `px_trial read` reads a document from standard input, with no machine behind it, and prints how
//! many events it has.
//!
//! `px_trial times N` adds N generated filters one by one, with a list of those that are live after
//! each, builds their program, and prints how long that took and how long a thousand calls of each
//! function on sets of states took, and a thousand documents that match none of the filters.
//!
//! A trial that was cut short ends with 2. The tests follow the machine step by step along a run
//! that was worked out by hand, and over small workloads whose ids are known.
#![tactic(auto)]

mod compare;
mod document;
mod operands;
mod quiet;
mod read;
#[cfg(test)]
mod tests;
mod timing;
mod trouble;
mod workload;

use compare::{Counts, compare};
use px_feed::id_of;
use px_io::{Source, StdSource};
use read::count_events;
use std::alloc::Global;
use std::env;
use std::env::Env;
use std::io::{ErrorKind, Stdin};
use std::process::ExitCode;
use std::time::Clock;
use timing::time_all;
use trouble::Trouble;

const USAGE: &str = "usage: px_trial compare | read | times N";

/// The most filters of which times are printed.
const MOST_FILTERS: u32 = 50_000;

// The words behind the program's name.
fn words_of(rt: &(impl Env + Alloc<A = Global>)) -> Result<Vec<String>, Trouble> {
    match env::args(rt) {
        Ok(args) => Ok(args.skip(1).collect(rt.alloc())?),
        Err(e) if e.kind() == ErrorKind::OutOfMemory => Err(Trouble::Memory),
        Err(_) => Err(Trouble::Usage),
    }
}

// Compares, and prints the counts: the status.
fn print_comparison<S: Source>(
    rt: &(impl Print + Alloc<A = Global>),
    source: &mut S,
) -> Result<u8, Trouble> {
    let Counts {
        documents,
        ids,
        differences,
        forgotten,
    } = compare(rt.alloc(), source)?;
    match println!(rt;
        "documents={documents} ids={ids} differences={differences} forgotten={forgotten}"
    ) {
        Ok(()) => Ok(if differences == 0 { 0 } else { 1 }),
        Err(_) => Err(Trouble::Write),
    }
}

// Prints how many events the document has: the status.
fn print_events<S: Source>(
    rt: &(impl Print + Alloc<A = Global>),
    source: &mut S,
) -> Result<u8, Trouble> {
    let events = count_events(rt.alloc(), source)?;
    match println!(rt; "events={events}") {
        Ok(()) => Ok(0),
        Err(_) => Err(Trouble::Write),
    }
}

// Prints the times for as many filters as a word says: the status.
fn print_times(
    rt: &(impl Clock + Print + Alloc<A = Global>),
    word: Option<&String>,
) -> Result<u8, Trouble> {
    let Some(word) = word else {
        return Err(Trouble::Usage);
    };
    match id_of(word.as_str().as_bytes()) {
        Some(count) if count <= MOST_FILTERS => {
            time_all(rt, rt.alloc(), count)?;
            Ok(0)
        }
        Some(_) | None => Err(Trouble::Usage),
    }
}

// Prints how the program is called.
fn print_usage(rt: &impl Print) -> Result<u8, Trouble> {
    match println!(rt; "{USAGE}") {
        Ok(()) => Ok(0),
        Err(_) => Err(Trouble::Write),
    }
}

// Does what the words ask for: the status.
fn run<S: Source>(
    rt: &(impl Clock + Env + Print + Alloc<A = Global>),
    source: &mut S,
) -> Result<u8, Trouble> {
    let words = words_of(rt)?;
    match words.first() {
        None => print_usage(rt),
        Some(word) if word.as_str() == "compare" => print_comparison(rt, source),
        Some(word) if word.as_str() == "read" => print_events(rt, source),
        Some(word) if word.as_str() == "times" => print_times(rt, words.get(1)),
        Some(_) => Err(Trouble::Usage),
    }
}

fn main(rt: HostRuntime) -> ExitCode {
    let mut source = StdSource::new(rt.stdin());
    match run(&rt, &mut source) {
        Ok(status) => ExitCode::from(status),
        Err(trouble) => {
            let text = trouble.message();
            // Nobody is left to be told of a fault of standard error.
            let _ = eprintln!(rt; "px_trial: {text}");
            ExitCode::from(2)
        }
    }
}
