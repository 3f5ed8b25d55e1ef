//! px_hub_trial: a hub of two passes and one bank, once through. It is no part of the product, and
//! nothing stands on it.
//!
//! One pass adds a filter and filters a document twice; the other adds a second filter and takes
//! the bank; the first filters the document once more. Each call is told by a line. A call to which
//! memory was refused is told by a line with the version at which the pass then stands, and is made
//! once more. So where one growth is refused, the lines are those of a run where none is, with one
//! line more.
#![tactic(auto)]

ghost use Rattle.std.specs.Prelude.{◌≡◌};

use px_hub::{Config, FilterCallFault, Hub, HubName, Parts, Pass, Reply, SubscribeFault};
use std::alloc::Global;
use std::marker::Brand;
use std::process::ExitCode;
use std::sync::Wait;

/// Two passes, and one bank between them.
const SMALL: Config = Config {
    passes: 2,
    banks: 1,
    node_bits: 4,
    step_bits: 6,
};

/// How often a call is made where memory is refused.
const TURNS: u32 = 2;

/// The document, an empty element.
const DOCUMENT: &[u8] = b"(a\n)a\n";

/// What ends the trial before its time.
#[derive(Clone, Copy, Debug, Drop)]
enum Trouble {
    /// Memory was refused where the trial cannot go on without it.
    Memory,
    /// Standard output met a fault.
    Write,
    /// A call answered what it never should.
    Call,
}

// Tells what a call answered.
fn tell(rt: &impl Print, call: &str, number: u32) -> Result<(), Trouble> {
    match println!(rt; "{call} {number}") {
        Ok(()) => Ok(()),
        Err(_) => Err(Trouble::Write),
    }
}

// Tells that memory was refused to a call, and the version at which its pass then stands.
fn tell_refused<N: HubName>(rt: &impl Print, pass: &Pass<N>) -> Result<(), Trouble> {
    tell(rt, "refused", pass.version())
}

// Adds a filter.
fn add<N: HubName, R: Wait + Print>(
    rt: &R,
    hub: &Hub<N>,
    pass: &mut Pass<N>,
    filter: &[u8],
) -> Result<(), Trouble> {
    for _ in 0..TURNS {
        if pass.is_open() {
            return Err(Trouble::Call);
        }
        match hub.subscribe(rt, pass, filter) {
            Ok(id) => return tell(rt, "added", id),
            Err(SubscribeFault::Memory) => tell_refused(rt, pass)?,
            Err(_) => return Err(Trouble::Call),
        }
    }
    Err(Trouble::Memory)
}

// Takes the pass to the newest version.
fn refresh<N: HubName, R: Wait + Print>(
    rt: &R,
    hub: &Hub<N>,
    pass: &mut Pass<N>,
) -> Result<(), Trouble> {
    for _ in 0..TURNS {
        if pass.is_open() {
            return Err(Trouble::Call);
        }
        match hub.refresh(rt, pass) {
            Ok(version) => return tell(rt, "refreshed", version),
            Err(_) => tell_refused(rt, pass)?,
        }
    }
    Err(Trouble::Memory)
}

// Filters the document.
fn filter<N: HubName, R: Wait + Print>(
    rt: &R,
    hub: &Hub<N>,
    pass: &mut Pass<N>,
) -> Result<(), Trouble> {
    for _ in 0..TURNS {
        if pass.is_open() {
            return Err(Trouble::Call);
        }
        match hub.filter(pass, DOCUMENT) {
            Ok(reply) => return tell_reply(rt, &reply),
            Err(FilterCallFault::Memory) => tell_refused(rt, pass)?,
            Err(FilterCallFault::Doc(_)) => return Err(Trouble::Call),
        }
    }
    Err(Trouble::Memory)
}

// Tells a reply: its version, the ids, and how many steps were the bank's and the call's own.
fn tell_reply(rt: &impl Print, reply: &Reply) -> Result<(), Trouble> {
    tell(rt, "filtered", reply.version)?;
    for id in reply.ids.as_slice() {
        tell(rt, "  id", *id)?;
    }
    if reply.own == 0 {
        tell(rt, "  own", 0)
    } else {
        tell(rt, "  own", 1)
    }
}

fn run_as<N: HubName, R: Wait + Print>(rt: &R, parts: Parts) -> Result<(), Trouble>
    requires table { N.table ≡ parts.shared }
    requires passes { N.passes ≡ parts.passes }
{
    let Ok((hub, mut passes)) = Hub::<N>::create(parts) else {
        return Err(Trouble::Memory);
    };
    let (Some(mut other), Some(mut pass)) = (passes.pop(), passes.pop()) else {
        return Err(Trouble::Call);
    };
    add(rt, &hub, &mut pass, b"/a")?;
    refresh(rt, &hub, &mut pass)?;
    filter(rt, &hub, &mut pass)?;
    filter(rt, &hub, &mut pass)?;
    add(rt, &hub, &mut other, b"/b")?;
    refresh(rt, &hub, &mut other)?;
    filter(rt, &hub, &mut pass)
}

fn run<R: Wait + Print>(rt: &R, alloc: Global) -> Result<(), Trouble> {
    match Parts::new(alloc, SMALL) {
        Ok(parts) => run_as::<Brand, R>(rt, parts),
        Err(_) => Err(Trouble::Memory),
    }
}

fn main(rt: HostRuntime) -> ExitCode {
    match run(&rt, rt.alloc()) {
        Ok(()) => ExitCode::from(0),
        Err(Trouble::Call) => ExitCode::from(1),
        Err(Trouble::Write) => ExitCode::from(4),
        Err(Trouble::Memory) => ExitCode::from(5),
    }
}
