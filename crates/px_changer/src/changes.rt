//! Changes, and their lines.
ghost use Rattle.std.specs.Prelude.{◌≡◌, List, Some, None, Ok, IfOk, OnOk};
ghost use Rattle.px_feed.specs.declared.line.OutLine.TheVariants.{ReplaceUnknown};
ghost use Rattle.px_feed.specs.Items.{Adding, Removing, Replacing};
ghost use Rattle.px_feed.specs.Outputs.{AsksDrop};
ghost use Rattle.px_workload.specs.declared.change.Change.{Change};
ghost use Rattle.px_lines.specs.Replying.{Answered, Replies};
ghost use Rattle.px_changer.specs.Alone.{IsAlone};
ghost use Rattle.px_changer.specs.Telling.{told};
ghost use Rattle.px_changer.specs.Lines.{AnsweredNamed};

use crate::lines::{line_of_add, line_of_drop, line_of_fault, line_of_replacement};
use crate::notes::tell;
use px_feed::{OutLine, id_of};
use px_hub::{Hub, HubName, Pass};
use px_xpath::{Filter, parse};
use std::alloc::{AllocError, Global};
use std::sync::Wait;

/// Adds the filter that a text writes, and answers the line for it. Its only failure is want of
/// memory.
pub fn add<N: HubName>(
    rt: &impl Wait,
    hub: &Hub<N>,
    first: &mut Pass<N>,
    others: &mut [Pass<N>],
    text: &[u8],
) -> Result<OutLine, AllocError>
    requires alone { IsAlone N.passes first.old others.old }
    ensures alone { OnOk result (IsAlone N.passes first.new others.new) }
    ensures line { IfOk result
        (λ line. Answered (Adding text.now) (told first.old) (told first.new) line) }
{
    let outcome = hub.subscribe(rt, first, text);
    tell(hub, first, others)?;
    line_of_add(outcome)
}

/// Drops the filter whose id a text names, and answers the line for it. Its only failure is want of
/// memory.
pub fn remove<N: HubName>(
    rt: &impl Wait,
    hub: &Hub<N>,
    first: &mut Pass<N>,
    others: &mut [Pass<N>],
    text: &[u8],
) -> Result<OutLine, AllocError>
    requires alone { IsAlone N.passes first.old others.old }
    ensures alone { OnOk result (IsAlone N.passes first.new others.new) }
    ensures line { IfOk result
        (λ line. Answered (Removing text.now) (told first.old) (told first.new) line) }
{
    match id_of(text) {
        Some(id) => remove_named(rt, hub, first, others, id),
        None => Ok(OutLine::DropUnknown),
    }
}

// Drops the filter of an id.
fn remove_named<N: HubName>(
    rt: &impl Wait,
    hub: &Hub<N>,
    first: &mut Pass<N>,
    others: &mut [Pass<N>],
    id: u32,
) -> Result<OutLine, AllocError>
    requires alone { IsAlone N.passes first.old others.old }
    ensures alone { OnOk result (IsAlone N.passes first.new others.new) }
    ensures line { IfOk result
        (λ line. Replies (AsksDrop (Some id)) (told first.old) (told first.new) line) }
{
    let outcome = hub.unsubscribe(rt, first, id);
    tell(hub, first, others)?;
    line_of_drop(id, outcome)
}

/// Puts the filter that a text writes in the place of the one whose id a name is, and answers the
/// line for it. Its only failure is want of memory.
pub fn replace<N: HubName>(
    rt: &impl Wait,
    alloc: Global,
    hub: &Hub<N>,
    first: &mut Pass<N>,
    others: &mut [Pass<N>],
    name: &[u8],
    text: &[u8],
) -> Result<OutLine, AllocError>
    requires alone { IsAlone N.passes first.old others.old }
    ensures alone { OnOk result (IsAlone N.passes first.new others.new) }
    ensures line { IfOk result
        (λ line. Answered (Replacing name.now text.now) (told first.old) (told first.new) line) }
{
    match id_of(name) {
        Some(id) => replace_named(rt, hub, first, others, id, text),
        None => unknown(alloc, text),
    }
}

// Replaces the filter of an id.
fn replace_named<N: HubName>(
    rt: &impl Wait,
    hub: &Hub<N>,
    first: &mut Pass<N>,
    others: &mut [Pass<N>],
    id: u32,
    text: &[u8],
) -> Result<OutLine, AllocError>
    requires alone { IsAlone N.passes first.old others.old }
    ensures alone { OnOk result (IsAlone N.passes first.new others.new) }
    ensures line { IfOk result
        (λ line. AnsweredNamed (Some id) text.now (told first.old) (told first.new) line) }
{
    let outcome = hub.replace(rt, first, id, text);
    tell(hub, first, others)?;
    line_of_replacement(id, outcome)
}

// The line for a replacement that names no id.
fn unknown(alloc: Global, text: &[u8]) -> Result<OutLine, AllocError>
    ensures { (changes : List Change) → IfOk result
        (λ line. AnsweredNamed None text.now changes changes line) }
{
    match parse(alloc, text) {
        Ok(filter) => without_id(filter),
        Err(fault) => line_of_fault(fault),
    }
}

// The line for a filter that comes with no id.
fn without_id(_filter: Filter) -> Result<OutLine, AllocError>
    ensures { result ≡ Ok ReplaceUnknown }
{
    Ok(OutLine::ReplaceUnknown)
}
