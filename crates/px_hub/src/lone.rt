//! A machine of one thread that counts the steps of its run.
ghost use Rattle.std.specs.Prelude.{◌≡◌, ◌+◌, ◌<◌, ◌^◌, ◌∷◌, ◌++◌, [], List, length, IfOk, OnOk};
ghost use Rattle.std.specs.Arc.{arc_value};
ghost use Rattle.px_text.specs.Nodes.{Root};
ghost use Rattle.px_reader.specs.declared.event.Event.{Event as Happened};
ghost use Rattle.px_reader.specs.declared.event.Event.TheVariants.{End};
ghost use Rattle.px_reader.specs.Happenings.{event_of};
ghost use Rattle.px_reader.specs.Spelling.{events_of};
ghost use Rattle.px_xpath.specs.Histories.{Change, live, matches};
ghost use Rattle.px_afa.specs.Accepting.{HaveSteps};
ghost use Rattle.px_afa.specs.Building.{Automata, program};
ghost use Rattle.px_afa.specs.Steps.{steps_of};
ghost use Rattle.px_hub.specs.Counting.{steps_at, depth_behind, HasCounted};

use px_afa::Program;
use px_machine::Machine;
use px_reader::Happening;
use px_text::Ids;
use std::alloc::{AllocError, Global};
use std::sync::Arc;

/// A machine of a program over the events of one document. It makes its steps in its own way, and
/// counts those of the run by its events.
#[derive(Drop)]
pub(crate) struct Lone {
    machine: Machine,
    // how many elements are open
    depth: u64,
    steps: u64,
}

impl Lone {
    /// A machine before the first event. Its only failure is want of memory.
    pub(crate) fn new(alloc: Global, program: Arc<Program>) -> Result<Lone, AllocError>
        ensures { IfOk result (λ lone. HasCounted lone (arc_value program) []) }
    {
        Ok(Lone {
            machine: Machine::new(alloc, program)?,
            depth: 0,
            steps: 0,
        })
    }

    /// Takes the next event. Its only failure is want of memory.
    pub(crate) fn event(&mut self, next: Happening<'_>) -> Result<(), AllocError>
        requires begun { (automata : Automata) × (given : List Happened) ×
            HasCounted self.old automata given × (length given + 1 < 2 ^ 60) }
        ensures ok { OnOk result ((automata : Automata) (given : List Happened) →
            HasCounted self.old automata given → HasCounted self.new automata (given ++
            (event_of next.entry) ∷ [])) }
    {
        let (steps, depth) = counted(self.depth, next);
        self.steps += steps;
        self.depth = depth;
        self.machine.event(next)
    }

    /// The ids of the filters that hold of the document, rising, when all its events have been
    /// taken, and how many steps its run has. Its only failure is want of memory.
    pub(crate) fn finish(self) -> Result<(Ids, u64), AllocError>
        requires whole { (automata : Automata) × (root : Root) ×
            HasCounted self automata (events_of root) }
        ensures matches { IfOk result (λ r. (history : List Change) (root : Root) →
            HaveSteps (live history) → HasCounted self (program history) (events_of root) →
            r.0 ≡ matches history root) }
        ensures steps { IfOk result (λ r. (history : List Change) (root : Root) →
            HasCounted self (program history) (events_of root) → r.1 ≡ steps_of history root) }
    {
        let Lone {
            mut machine,
            depth: _,
            steps,
        } = self;
        let ids = machine.finish()?;
        Ok((ids, steps))
    }
}

// How many steps an event brings while so many elements are open, and how many are open behind it.
fn counted(depth: u64, next: Happening<'_>) -> (u64, u64)
    requires deep { depth < 2 ^ 60 }
    ensures steps { result.0 ≡ steps_at depth (event_of next.entry) }
    ensures depth { result.1 ≡ depth_behind depth (event_of next.entry) }
{
    match next {
        Happening::Start { .. } => (1, depth + 1),
        Happening::Attr { .. } => (6, depth),
        Happening::Text { .. } => (6, depth),
        Happening::End => ended(depth),
    }
}

// The same of an end.
fn ended(depth: u64) -> (u64, u64)
    ensures steps { result.0 ≡ steps_at depth End }
    ensures depth { result.1 ≡ depth_behind depth End }
{
    if depth == 0 { (0, 0) } else { (7, depth - 1) }
}
