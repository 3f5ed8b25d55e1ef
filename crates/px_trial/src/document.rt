//! The events of a document, and its ids by the two machines and by the plain evaluator.

ghost use Rattle.std.specs.Prelude.{◌≡◌, ◌<◌, ◌≤◌, ◌^◌, ◌++◌, List, [], length, IfOk, OnOk};
ghost use Rattle.px_reader.specs.declared.event.Event.{Event as Happened};
ghost use Rattle.px_afa.specs.Building.{Automata};
ghost use Rattle.px_machine.specs.Machines as machines;
ghost use Rattle.px_machine.specs.Machines.{program_of};
ghost use Rattle.px_text.specs.Nodes.{Root};
ghost use Rattle.px_reader.specs.Spelling as spelling;
ghost use Rattle.px_runner.specs.Running.{HasRun};

use crate::trouble::Trouble;
use px_machine::Machine;
use px_meaning::holds;
use px_reader::{Doc, Event, Reader};
use px_runner::{Memo, Runner};
use px_text::{Bytes, Ids};
use px_tree::build;
use px_xpath::Numbered;
use std::alloc::{AllocError, Global};

/// More events than a document has.
const MOST_EVENTS: usize = 1_000_000_000;

/// The events of a document.
pub fn events_of(alloc: Global, doc: &Doc) -> Result<Vec<Event>, Trouble>
    ensures tree { IfOk result (λ events. (root : Root) ×
        (events.items ≡ spelling.events_of root)) }
{
    let mut reader = Reader::new(alloc)?;
    let mut events = Vec::new(alloc);
    reader.feed(doc.bytes(), &mut events)?;
    reader.end(&mut events)?;
    Ok(events)
}

/// The events of the document that bytes spell.
pub fn events_in(alloc: Global, document: &[u8]) -> Result<Vec<Event>, Trouble>
    ensures tree { IfOk result (λ events. (root : Root) ×
        (events.items ≡ spelling.events_of root)) }
{
    let doc = Doc::of(alloc, Bytes::of(alloc, document)?)?;
    events_of(alloc, &doc)
}

/// The ids of the filters that hold of a document, by the machine of `serial`, which is then before
/// the next document.
pub fn ids_by_machine(machine: &mut Machine, events: &[Event]) -> Result<Ids, AllocError>
    requires ready { (program : Automata) × machines.HasRun machine.old program [] }
    requires tree { (root : Root) × (events.now ≡ spelling.events_of root) }
    ensures ready { OnOk result (machines.HasRun machine.new (program_of machine.old) []) }
{
    take_all(machine, events)?;
    machine.finish()
}

// Gives the machine all events of a document.
fn take_all(machine: &mut Machine, events: &[Event]) -> Result<(), AllocError>
    requires ready { (program : Automata) × machines.HasRun machine.old program [] }
    ensures ok { OnOk result ((program : Automata) → machines.HasRun machine.old program [] →
        machines.HasRun machine.new program events.now) }
    ensures same { program_of machine.new ≡ program_of machine.old }
{
    for event in events {
        machine.event(event.seen())?;
    }
    Ok(())
}

/// The ids of the filters that hold of a document, by the machine that makes steps.
pub fn ids_by_runner<M: Memo>(alloc: Global, memo: &mut M, events: &[Event]) -> Result<Ids, Trouble>
    requires tree { (root : Root) × (events.now ≡ spelling.events_of root) }
{
    let runner = run_over(alloc, memo, events)?;
    Ok(runner.finish(alloc, memo)?)
}

/// The machine behind the events of a document.
pub fn run_over<M: Memo>(alloc: Global, memo: &mut M, events: &[Event]) -> Result<Runner, Trouble>
    ensures run { IfOk result (λ runner. HasRun M.automata M.stands_for memo.new runner
        events.now) }
{
    if events.len() > MOST_EVENTS {
        return Err(Trouble::Feed);
    }
    let mut runner = Runner::new(alloc, memo)?;
    for event in events {
        runner.event(event.seen(), memo)?;
    }
    Ok(runner)
}

/// The ids of the filters that hold of a document, by the plain evaluator.
pub fn ids_by_meaning(
    alloc: Global,
    filters: &[Numbered],
    events: &[Event],
) -> Result<Ids, AllocError>
    requires tree { (root : Root) × (events.now ≡ spelling.events_of root) }
{
    let tree = build(alloc, events)?;
    let mut ids = Vec::new(alloc);
    for numbered in filters {
        if holds(&numbered.filter, &tree) {
            ids.push(numbered.id)?;
        }
    }
    Ok(Ids::of(ids))
}
