//! The machine of some filters.

ghost use Rattle.std.specs.Prelude.{◌≡◌, ◌++◌, List, [], IfOk, OnOk, map};
ghost use Rattle.px_text.specs.Nodes.{Root};
ghost use Rattle.px_reader.specs.Spelling.{events_of};
ghost use Rattle.px_reader.specs.declared.event.Event.{Event as Happened};
ghost use Rattle.px_xpath.specs.Histories.{Subscription};
ghost use Rattle.px_xpath.specs.Meaning.{holds};
ghost use Rattle.px_xpath.specs.Subscribed.{subscriptions};
ghost use Rattle.px_afa.specs.Building.{Automata};
ghost use Rattle.px_afa.specs.Sound.{AreLive};
ghost use Rattle.px_machine.specs.Machines.{HasRun, program_of, bound_of};
ghost use Rattle.px_tiers.specs.Bytes.{IsWithin};
ghost use Rattle.px_tiers.specs.Parts.{ids_where};
ghost use Rattle.px_tiers.specs.Standings.{IsTier};

use px_afa::Program;
use px_machine::Machine;
use px_reader::EventList;
use px_text::Ids;
use px_xpath::Numbered;
use std::alloc::{AllocError, Global};
use std::sync::Arc;

/// A machine, and the ids of its filters, rising. Some of them may no longer be live as they are
/// there.
#[derive(Drop)]
pub(crate) struct Tier {
    machine: Machine,
    ids: Vec<u32>,
}

impl Tier {
    /// The machine of these filters, before a document. From one document to the next it remembers
    /// so many bytes at most. Its only failure is want of memory.
    pub(crate) fn build(alloc: Global, filters: &[Numbered], bound: u64) -> Result<Tier, AllocError>
        requires live { AreLive (subscriptions filters.now) }
        ensures tier { IfOk result (λ tier. IsTier tier (subscriptions filters.now)) }
        ensures bound { IfOk result (λ tier. bound_of tier.machine ≡ bound) }
    {
        let program = Program::build(alloc, filters)?;
        let machine = Machine::bounded(alloc, Arc::new(alloc, program)?, bound)?;
        let ids = ids_of(alloc, filters)?;
        Ok(Tier { machine, ids })
    }

    /// The ids of its filters, rising.
    pub(crate) fn ids(&self) -> &[u32]
        ensures all { result.now ≡ self.now.ids.items }
    {
        &self.ids
    }

    /// The ids of its filters that match the document of these events, rising. It is then before
    /// the next document, and remembers no more bytes than it may. Its only failure is want of
    /// memory.
    pub(crate) fn matches(&mut self, events: &EventList) -> Result<Ids, AllocError>
        requires stands { (part : List Subscription) × IsTier self.old part }
        requires whole { (root : Root) × (events_of root ≡ events.now) }
        ensures ids { IfOk result (λ ids. (part : List Subscription) (root : Root) →
            IsTier self.old part → events_of root ≡ events.now →
            ids ≡ ids_where (λ filter. holds filter root) part) }
        ensures stands { OnOk result ((part : List Subscription) → IsTier self.old part →
            IsTier self.new part) }
        ensures bound { bound_of self.new.machine ≡ bound_of self.old.machine }
        ensures within { OnOk result (IsWithin self.new) }
    {
        take_all(&mut self.machine, events)?;
        self.machine.finish()
    }
}

// Gives the machine the events of a list, in order.
fn take_all(machine: &mut Machine, events: &EventList) -> Result<(), AllocError>
    requires begun { (program : Automata) × (given : List Happened) ×
        HasRun machine.old program given }
    ensures ok { OnOk result ((program : Automata) (given : List Happened) →
        HasRun machine.old program given → HasRun machine.new program (given ++ events.now)) }
    ensures same { program_of machine.new ≡ program_of machine.old }
    ensures bound { bound_of machine.new ≡ bound_of machine.old }
{
    for place in 0..events.len() {
        machine.event(events.get(place))?;
    }
    Ok(())
}

// The ids of these filters, in their order.
fn ids_of(alloc: Global, filters: &[Numbered]) -> Result<Vec<u32>, AllocError>
    ensures all { IfOk result (λ ids. ids.items ≡ map (λ s. s.id) (subscriptions filters.now)) }
{
    let mut ids = Vec::with_capacity(alloc, filters.len())?;
    for numbered in filters {
        ids.push(numbered.id)?;
    }
    Ok(ids)
}
