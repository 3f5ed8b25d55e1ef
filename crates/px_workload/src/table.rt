//! The filters that are live, each in the slot of the version that added it.

ghost use Rattle.std.specs.Prelude.{◌≡◌, ◌<◌, ◌≤◌, ◌+◌, ◌-◌, ◌*◌, ◌^◌, ◌++◌, ◌∷◌, [], length, slice_set, option_map, IfSome};
ghost use Rattle.std.specs.List.{find};
ghost use Rattle.std.specs.Vec.{vec_len, vec_capacity};
ghost use Rattle.px_workload.specs.Slots.{listed, kept, named, slot_size, slots_size};
ghost use Rattle.px_xpath.specs.Histories as histories;
ghost use Rattle.px_xpath.specs.Histories.{is_of};
ghost use Rattle.px_xpath.specs.Whole as whole;
ghost use Rattle.px_workload.specs.Changes as changes;

use crate::change::Change;
use px_xpath::{Filter, size};
use std::alloc::Global;
use std::mem;

/// A table with a slot for each version, and the sum of the sizes of the filters in it.
#[derive(Drop)]
pub(crate) struct Table {
    pub(crate) slots: Vec<Option<Filter>>,
    pub(crate) live_size: u32,
    ghost sums: { live_size ≡ slots_size slots.items },
    ghost bounded: { live_size ≤ 500_000 },
}

impl Table {
    pub(crate) fn new(alloc: Global) -> Table
        ensures empty { result.slots.items ≡ [] }
        ensures len { vec_len result.slots ≡ 0 }
    {
        Table {
            slots: Vec::new(alloc),
            live_size: 0,
        }
    }

    /// Takes a change that may come next.
    pub(crate) fn take(&mut self, change: Change)
        requires room { vec_len self.old.slots < vec_capacity self.old.slots }
        requires names_live { histories.NamesLive (changes.change change)
            (listed self.old.slots.items) }
        requires small { histories.live_size
            (histories.after (length self.old.slots.items + 1) (listed self.old.slots.items)
            (changes.change change)) ≤ 500_000 }
        ensures listed { listed self.new.slots.items ≡
            histories.after (length self.old.slots.items + 1) (listed self.old.slots.items)
            (changes.change change) }
        ensures len { vec_len self.new.slots ≡ vec_len self.old.slots + 1 }
        ensures capacity { vec_capacity self.new.slots ≡ vec_capacity self.old.slots }
    {
        match change {
            Change::Add { filter, .. } => self.add(filter),
            Change::Drop { id, .. } => self.remove(id),
            Change::Replace { id, filter, .. } => self.replace(id, filter),
        }
    }

    // A version that adds a filter.
    fn add(&mut self, filter: Filter)
        requires room { vec_len self.old.slots < vec_capacity self.old.slots }
        requires small { histories.live_size (listed self.old.slots.items ++
            named (length self.old.slots.items + 1) filter ∷ []) ≤ 500_000 }
        ensures listed { listed self.new.slots.items ≡ listed self.old.slots.items ++
            named (length self.old.slots.items + 1) filter ∷ [] }
        ensures len { vec_len self.new.slots ≡ vec_len self.old.slots + 1 }
        ensures capacity { vec_capacity self.new.slots ≡ vec_capacity self.old.slots }
    {
        self.push(Some(filter));
    }

    // A version that takes a live filter away.
    fn remove(&mut self, id: u32)
        requires room { vec_len self.old.slots < vec_capacity self.old.slots }
        requires live { histories.IsLive id (listed self.old.slots.items) }
        ensures listed { listed self.new.slots.items ≡
            kept (histories.Drops 0 id) (listed self.old.slots.items) }
        ensures len { vec_len self.new.slots ≡ vec_len self.old.slots + 1 }
        ensures capacity { vec_capacity self.new.slots ≡ vec_capacity self.old.slots }
    {
        self.set(id, None);
        self.push(None);
    }

    // A version that gives a live id another filter.
    fn replace(&mut self, id: u32, filter: Filter)
        requires room { vec_len self.old.slots < vec_capacity self.old.slots }
        requires live { histories.IsLive id (listed self.old.slots.items) }
        requires small { histories.live_size
            (kept (histories.Replaces 0 id (whole.filter filter)) (listed self.old.slots.items)) ≤
            500_000 }
        ensures listed { listed self.new.slots.items ≡
            kept (histories.Replaces 0 id (whole.filter filter)) (listed self.old.slots.items) }
        ensures len { vec_len self.new.slots ≡ vec_len self.old.slots + 1 }
        ensures capacity { vec_capacity self.new.slots ≡ vec_capacity self.old.slots }
    {
        self.set(id, Some(filter));
        self.push(None);
    }

    /// A new last slot.
    pub(crate) fn push(&mut self, slot: Option<Filter>)
        requires room { vec_len self.old.slots < vec_capacity self.old.slots }
        requires fits { self.old.live_size + slot_size slot ≤ 500_000 }
        ensures slots { self.new.slots.items ≡ self.old.slots.items ++ slot ∷ [] }
        ensures len { vec_len self.new.slots ≡ vec_len self.old.slots + 1 }
        ensures capacity { vec_capacity self.new.slots ≡ vec_capacity self.old.slots }
    {
        self.live_size += size_of_slot(&slot);
        self.slots.push_reserved(slot);
    }

    /// Puts a slot in the place of that of an id.
    pub(crate) fn set(&mut self, id: u32, slot: Option<Filter>)
        requires from_1 { 0 < id }
        requires within { id ≤ vec_len self.old.slots }
        requires fits { slots_size (slice_set self.old.slots.items (id - 1) slot) ≤ 500_000 }
        ensures slots { self.new.slots.items ≡ slice_set self.old.slots.items (id - 1) slot }
        ensures len { vec_len self.new.slots ≡ vec_len self.old.slots }
        ensures capacity { vec_capacity self.new.slots ≡ vec_capacity self.old.slots }
    {
        let grown = size_of_slot(&slot);
        let old = mem::replace(&mut self.slots[id as usize - 1], slot);
        self.live_size = self.live_size - size_of_slot(&old) + grown;
    }

    /// The live filter of an id.
    pub(crate) fn filter_of(&self, id: u32) -> Option<&Filter>
        ensures found { option_map (λ filter. named id filter.now) result ≡
            find (is_of id) (listed self.now.slots.items) }
        ensures small { IfSome result (λ filter. histories.size (whole.filter filter.now) ≤
            500_000) }
    {
        if id == 0 {
            return None;
        }
        match self.slots.get(id as usize - 1) {
            Some(slot) => slot.as_ref(),
            None => None,
        }
    }
}

// How many states a slot's filter takes.
fn size_of_slot(slot: &Option<Filter>) -> u32
    requires { slot_size slot.now < 2 ^ 32 }
    ensures { result ≡ slot_size slot.now }
{
    match slot {
        Some(filter) => size(filter),
        None => 0,
    }
}
