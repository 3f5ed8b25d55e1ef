//! The changes that were accepted, one after another.

ghost use Rattle.std.specs.Prelude.{◌≡◌, ◌<◌, ◌≤◌, ◌+◌, ◌++◌, ◌∷◌, [], ℕ, length, option_map, None, IfOk, IfSome, IsSome, IsTrue, ◌↔◌, OnOk};
ghost use Rattle.std.specs.List.{find};
ghost use Rattle.px_xpath.specs.Histories as histories;
ghost use Rattle.px_xpath.specs.Whole as whole;
ghost use Rattle.px_xpath.specs.declared.filter.Filter.{Filter};
ghost use Rattle.px_xpath.specs.Subscribed.{subscriptions};
ghost use Rattle.px_workload.specs.Changes as changes;
ghost use Rattle.px_workload.specs.Refusals.{refusal, refuses_all, refuses_beside, refuses_drop, refuses_replacement};
ghost use Rattle.px_workload.specs.Slots.{named};

use crate::change::Change;
use crate::live::Live;
use crate::past::Past;
use crate::refusal::Refusal;
use crate::snapshot::{shares, shares_after};
use crate::table::Table;
use px_xpath::{Filter, size};
use std::alloc::{AllocError, Global};
use std::marker::Model;

// What the live filters may measure together.
const MOST_SIZE: u64 = 500_000;

// The most changes of one history.
const MOST_CHANGES: u32 = 1_048_575;

/// The history of a workload. Contracts see the changes that were accepted, which are a legal
/// history, and how many more fit in the memory that was taken. What it keeps is the filters that
/// are live and a slot for each change.
#[derive(Drop)]
pub struct Journal {
    past: Past,
    table: Table,
}

impl Model for Journal {
    ghost use Rattle.std.specs.Prelude.{◌-◌};
    ghost use Rattle.std.specs.Vec.{vec_len, vec_capacity};
    ghost use Rattle.px_workload.specs.Accepted.{Accepted, accepted_code};
    ghost use Rattle.px_workload.specs.Stands.{Stands};

    ghost Value = { Accepted };

    ghost coded = { accepted_code };

    ghost view = { λ j. record {
      changes = j.past.changes;
      room = vec_capacity j.table.slots -
          vec_len j.table.slots;
    } };

    ghost invariant = { λ j. Stands j.past.changes j.table.slots.items };
}

impl Journal {
    /// A journal of no changes. It takes no memory.
    pub fn new(alloc: Global) -> Journal
        ensures empty { result.changes ≡ [] }
    {
        Journal {
            past: Past::new(),
            table: Table::new(alloc),
        }
    }

    /// Makes room for one change at least, and changes nothing else.
    pub fn reserve(&mut self) -> Result<(), AllocError>
        ensures same { self.new.changes ≡ self.old.changes }
        ensures room { OnOk result (1 ≤ self.new.room) }
        ensures kept { self.old.room ≤ self.new.room }
    {
        self.table.slots.reserve(1)
    }

    /// Accepts a change that may come where it stands, and answers the new version.
    pub fn append(&mut self, change: Change) -> u32
        requires room { 1 ≤ self.old.room }
        requires legal { histories.IsLegal (changes.history (self.old.changes ++ change ∷ [])) }
        ensures accepted { self.new.changes ≡ self.old.changes ++ change ∷ [] }
        ensures room { self.new.room + 1 ≡ self.old.room }
        ensures version { result ≡ length self.new.changes }
    {
        self.past = Past::with(&self.past, &change);
        self.table.take(change);
        self.version()
    }

    /// Why a change may not come next, or none where it may. It takes no memory.
    pub fn refusal(&self, change: &Change) -> Option<Refusal>
        ensures refusal { result ≡ refusal (changes.history self.now.changes)
            (changes.change change.now) }
        ensures legal { result ≡ None → histories.IsLegal (changes.history (self.now.changes ++
            change.now ∷ [])) }
    {
        // The history is legal.
        let _version = self.version();
        match change {
            Change::Add { filter, .. } => self.refuses_beside(self.live_size(), filter),
            Change::Drop { id, .. } => self.refuses_drop(*id),
            Change::Replace { id, filter, .. } => self.refuses_replacement(*id, filter),
        }
    }

    // Why an id may not be dropped.
    fn refuses_drop(&self, id: u32) -> Option<Refusal>
        ensures refusal { result ≡ refuses_drop (changes.history self.now.changes)
            (find (histories.is_of id) (histories.live (changes.history self.now.changes))) }
    {
        if !self.is_live(id) {
            return Some(Refusal::Unknown);
        }
        self.refuses_all()
    }

    // Why a filter may not take the place of that of an id.
    fn refuses_replacement(&self, id: u32, filter: &Filter) -> Option<Refusal>
        ensures refusal { result ≡ refuses_replacement (changes.history self.now.changes)
            (find (histories.is_of id) (histories.live (changes.history self.now.changes)))
            (whole.filter filter.now) }
        ensures live { result ≡ None → histories.IsLive id
            (histories.live (changes.history self.now.changes)) }
        ensures fits { result ≡ None → (histories.live_size
            (histories.after 0 (histories.live (changes.history self.now.changes))
            (histories.Replaces 0 id (whole.filter filter.now))) ≤ 500_000)
            × (length (changes.history self.now.changes) < 1_048_575) }
    {
        if !self.is_live(id) {
            return Some(Refusal::Unknown);
        }
        let others = self.live_size().saturating_sub(self.size_of(id));
        self.refuses_beside(others, filter)
    }

    // Why a filter may not come beside others of this size.
    fn refuses_beside(&self, others: u32, filter: &Filter) -> Option<Refusal>
        ensures refusal { result ≡ refuses_beside (changes.history self.now.changes) others
            (whole.filter filter.now) }
    {
        if u64::from(others) + u64::from(size(filter)) > MOST_SIZE {
            return Some(Refusal::TooLarge { live: others });
        }
        self.refuses_all()
    }

    // Why no change may come.
    fn refuses_all(&self) -> Option<Refusal>
        ensures refusal { result ≡ refuses_all (changes.history self.now.changes) }
    {
        if self.version() >= MOST_CHANGES {
            return Some(Refusal::NoVersions);
        }
        None
    }

    /// How many changes were accepted.
    pub fn version(&self) -> u32
        ensures version { result ≡ length self.now.changes }
        ensures legal { histories.IsLegal (changes.history self.now.changes) }
    {
        self.table.slots.len() as u32
    }

    /// The sizes of the live filters together.
    pub fn live_size(&self) -> u32
        ensures { result ≡ histories.live_size (histories.live (changes.history self.now.changes)) }
    {
        self.table.live_size
    }

    pub fn is_live(&self, id: u32) -> bool
        ensures { IsTrue result ↔ histories.IsLive id
            (histories.live (changes.history self.now.changes)) }
    {
        self.table.filter_of(id).is_some()
    }

    /// The live filter of an id. It takes no memory.
    pub fn filter_of(&self, id: u32) -> Option<&Filter>
        ensures found { option_map (λ filter. named id filter.now) result ≡
            find (histories.is_of id) (histories.live (changes.history self.now.changes)) }
    {
        self.table.filter_of(id)
    }

    /// The size of a live filter. Without it, and with the size of another, the live size is that
    /// of the workload in which the other takes its place.
    pub fn size_of(&self, id: u32) -> u32
        requires live { histories.IsLive id (histories.live (changes.history self.now.changes)) }
        ensures size { IfSome (find (histories.is_of id)
            (histories.live (changes.history self.now.changes))) (λ s. result ≡
            histories.size s.filter) }
        ensures others { (new : Filter) →
            let live = histories.live (changes.history self.now.changes) in histories.live_size
            (histories.after 0 live (histories.Replaces 0 id (whole.filter new))) + result ≡
            histories.live_size live + histories.size (whole.filter new) }
    {
        match self.table.filter_of(id) {
            Some(filter) => size(filter),
            None => unreachable!(),
        }
    }

    /// The live filters in the order of their ids. It takes memory for the list alone, and fails
    /// only where that is refused.
    pub fn snapshot(&self, alloc: Global) -> Result<Live, AllocError>
        ensures live { IfOk result (λ live. subscriptions live.filters ≡
            histories.live (changes.history self.now.changes)) }
    {
        Ok(Live::of(shares(alloc, &self.table.slots)?))
    }

    /// The filters that would be live behind a change that may come next, in the order of their
    /// ids. It takes memory for the list alone, and its only failure is want of memory.
    pub fn snapshot_after(&self, alloc: Global, change: &Change) -> Result<Live, AllocError>
        requires legal { histories.IsLegal (changes.history (self.now.changes ++ change.now ∷ [])) }
        ensures live { IfOk result (λ live. subscriptions live.filters ≡
            histories.live (changes.history (self.now.changes ++ change.now ∷ []))) }
    {
        Ok(Live::of(shares_after(alloc, &self.table.slots, change)?))
    }
}
