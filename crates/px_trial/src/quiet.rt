//! How long a document takes that no filter matches.

ghost use Rattle.std.specs.Prelude.{◌≡◌, []};
ghost use Rattle.px_text.specs.Nodes.{Root};
ghost use Rattle.px_reader.specs.Spelling as spelling;
ghost use Rattle.px_afa.specs.Building.{Automata};
ghost use Rattle.px_machine.specs.Machines.{HasRun};

use crate::document::{events_in, ids_by_machine, ids_by_runner};
use crate::timing::{CALLS, nanos_since, now, print_time};
use crate::trouble::Trouble;
use px_afa::Program;
use px_machine::Machine;
use px_prune::Compiled;
use px_reader::Event;
use px_runner::PrivateMemo;
use std::alloc::{AllocError, Global};
use std::sync::Arc;
use std::time::Clock;

/// A document with names that no generated filter has.
const QUIET: &[u8] = b"(q\n(p\nAz 5\n-5\n)p\n(p\n-of no number\n)p\n)q\n";

/// Times a document that no generated filter matches, by both machines, each of which has taken it
/// once before.
pub fn time_quiet<R: Clock + Print>(
    rt: &R,
    alloc: Global,
    program: Arc<Program>,
    compiled: Arc<Compiled>,
) -> Result<(), Trouble> {
    let events = events_in(alloc, QUIET)?;
    time_runner(rt, alloc, compiled, &events)?;
    time_machine(rt, alloc, program, &events)
}

// The same by the machine that makes steps.
fn time_runner<R: Clock + Print>(
    rt: &R,
    alloc: Global,
    compiled: Arc<Compiled>,
    events: &[Event],
) -> Result<(), Trouble>
    requires tree { (root : Root) × (events.now ≡ spelling.events_of root) }
{
    let mut memo = PrivateMemo::new(alloc, compiled);
    ids_by_runner(alloc, &mut memo, events)?;
    let start = now(rt)?;
    let ids = ids_by_runner_often(alloc, &mut memo, events)?;
    print_time(rt, "quiet_by_runner", CALLS, nanos_since(rt, &start)?, ids)
}

// The same by the machine of `serial`.
fn time_machine<R: Clock + Print>(
    rt: &R,
    alloc: Global,
    program: Arc<Program>,
    events: &[Event],
) -> Result<(), Trouble>
    requires tree { (root : Root) × (events.now ≡ spelling.events_of root) }
{
    let mut machine = Machine::new(alloc, program)?;
    ids_by_machine(&mut machine, events)?;
    let start = now(rt)?;
    let ids = ids_by_machine_often(&mut machine, events)?;
    print_time(rt, "quiet_by_machine", CALLS, nanos_since(rt, &start)?, ids)
}

// The ids by the machine that makes steps, often: how many there are.
fn ids_by_runner_often(
    alloc: Global,
    memo: &mut PrivateMemo,
    events: &[Event],
) -> Result<usize, Trouble>
    requires tree { (root : Root) × (events.now ≡ spelling.events_of root) }
{
    let mut ids = 0;
    for _ in 0..CALLS {
        ids = ids_by_runner(alloc, memo, events)?.as_slice().len();
    }
    Ok(ids)
}

// The ids by the machine of `serial`, often: how many there are.
fn ids_by_machine_often(machine: &mut Machine, events: &[Event]) -> Result<usize, AllocError>
    requires ready { (program : Automata) × HasRun machine.old program [] }
    requires tree { (root : Root) × (events.now ≡ spelling.events_of root) }
{
    let mut ids = 0;
    for _ in 0..CALLS {
        ids = ids_by_machine(machine, events)?.as_slice().len();
    }
    Ok(ids)
}
