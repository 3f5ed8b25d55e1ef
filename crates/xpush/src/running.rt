//! The machine over the events of a document as they come.

ghost use Rattle.std.specs.Prelude.{◌≡◌, ◌++◌, List, [], IfOk, OnOk};
ghost use Rattle.px_text.specs.Nodes.{Root};
ghost use Rattle.px_reader.specs.Spelling.{events_of};
ghost use Rattle.px_reader.specs.declared.event.Event.{Event as Happened};
ghost use Rattle.px_afa.specs.Building.{Automata};
ghost use Rattle.px_machine.specs.Machines.{HasRun, program_of};
ghost use Rattle.xpush.specs.Verdicts.{ids_accepted};

use px_machine::Machine;
use px_reader::Event;
use px_text::Ids;
use std::alloc::AllocError;

/// Gives the machine the events that come next, in order. It takes memory as the machine needs it,
/// and its only failure is want of memory. The machine may then only be dropped, or restarted.
pub fn take_all(machine: &mut Machine, events: &[Event]) -> Result<(), AllocError>
    requires begun { (program : Automata) × (given : List Happened) ×
        HasRun machine.old program given }
    ensures ok { OnOk result ((program : Automata) (given : List Happened) →
        HasRun machine.old program given → HasRun machine.new program (given ++ events.now)) }
    ensures same { program_of machine.new ≡ program_of machine.old }
{
    for next in events {
        machine.event(next.seen())?;
    }
    Ok(())
}

/// The ids of the filters that hold of a document, when these last events of it have been taken
/// as well. The machine is then before the next document.
pub fn ids_behind(machine: &mut Machine, events: &[Event]) -> Result<Ids, AllocError>
    requires last { (program : Automata) × (given : List Happened) × (root : Root) ×
        HasRun machine.old program given × (events_of root ≡ given ++ events.now) }
    ensures ids { IfOk result (λ ids. (program : Automata) (given : List Happened) (root : Root) →
        HasRun machine.old program given →
        events_of root ≡ given ++ events.now → ids ≡ ids_accepted program root) }
    ensures ready { OnOk result (HasRun machine.new (program_of machine.old) []) }
{
    take_all(machine, events)?;
    machine.finish()
}
