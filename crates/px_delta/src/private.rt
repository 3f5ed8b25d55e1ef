//! A machine of some filters alone, over one document.

ghost use Rattle.std.specs.Prelude.{◌≡◌, ◌++◌, List, [], IfOk, OnOk};
ghost use Rattle.px_text.specs.Nodes.{Root};
ghost use Rattle.px_reader.specs.Spelling.{events_of};
ghost use Rattle.px_reader.specs.declared.event.Event.{Event as Happened};
ghost use Rattle.px_xpath.specs.Meaning.{holds};
ghost use Rattle.px_xpath.specs.Subscribed.{subscriptions};
ghost use Rattle.px_afa.specs.Building.{Automata};
ghost use Rattle.px_afa.specs.Sound.{AreLive};
ghost use Rattle.px_machine.specs.Machines.{HasRun};
ghost use Rattle.px_delta.specs.Lists.{matching};

use px_afa::Program;
use px_machine::Machine;
use px_reader::EventList;
use px_text::Ids;
use px_xpath::Numbered;
use std::alloc::{AllocError, Global};
use std::sync::Arc;

/// The ids of the filters that hold of the document of these events, rising. Where there are no
/// filters the events are not looked at. Its only failure is want of memory.
pub(crate) fn ids_beside(
    alloc: Global,
    filters: &[Numbered],
    events: &EventList,
) -> Result<Ids, AllocError>
    requires live { AreLive (subscriptions filters.now) }
    requires tree { (root : Root) × (events.now ≡ events_of root) }
    ensures ids { IfOk result (λ ids. (root : Root) → events.now ≡ events_of root →
        ids ≡ matching (λ filter. holds filter root) (subscriptions filters.now)) }
{
    if filters.is_empty() {
        return Ok(Ids::of(Vec::new(alloc)));
    }
    let program = Program::build(alloc, filters)?;
    let mut machine = Machine::new(alloc, Arc::new(alloc, program)?)?;
    take_all(&mut machine, events)?;
    machine.finish()
}

// Gives the machine the events of a list, in order.
fn take_all(machine: &mut Machine, events: &EventList) -> Result<(), AllocError>
    requires begun { (program : Automata) × (given : List Happened) ×
        HasRun machine.old program given }
    ensures ok { OnOk result ((program : Automata) (given : List Happened) →
        HasRun machine.old program given → HasRun machine.new program (given ++ events.now)) }
{
    for place in 0..events.len() {
        machine.event(events.get(place))?;
    }
    Ok(())
}
