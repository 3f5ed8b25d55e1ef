//! The filters that are live at one version.

ghost use Rattle.std.specs.Prelude.{◌≡◌, ◌≤◌, ◌+◌, ◌++◌, ◌∷◌, [], map, IfOk, OnOk};
ghost use Rattle.px_text.specs.Sets.{Rising};
ghost use Rattle.px_xpath.specs.Histories.{after};
ghost use Rattle.px_xpath.specs.Subscribed.{subscriptions};
ghost use Rattle.px_workload.specs.Changes as changes;
ghost use Rattle.px_workload.specs.Listed.{AreInOrder};

use crate::change::Change;
use crate::places::{remove, replace};
use px_xpath::Numbered;
use std::alloc::{AllocError, Global};
use std::marker::Model;

/// Live filters with their ids, which rise. Contracts see the list of them, and how many more fit
/// in the memory that was taken. Lists share their filters: none is copied.
#[derive(Drop)]
pub struct Live {
    filters: Vec<Numbered>,
}

impl Model for Live {
    ghost use Rattle.std.specs.Prelude.{◌-◌};
    ghost use Rattle.std.specs.Vec.{vec_len, vec_capacity};
    ghost use Rattle.px_workload.specs.Listed.{Listed, listed_code, AreInOrder};

    ghost Value = { Listed };

    ghost coded = { listed_code };

    ghost view = { λ live. record {
      filters = live.filters.items;
      room = vec_capacity live.filters -
          vec_len live.filters;
    } };

    ghost invariant = { λ live. AreInOrder live.filters.items };
}

impl Live {
    /// A list of no filters. It takes no memory.
    pub fn new(alloc: Global) -> Live
        ensures empty { result.filters ≡ [] }
    {
        Live {
            filters: Vec::new(alloc),
        }
    }

    pub(crate) fn of(filters: Vec<Numbered>) -> Live
        requires order { AreInOrder filters.items }
        ensures same { result.filters ≡ filters.items }
    {
        Live { filters }
    }

    /// The filters in the order of their ids. It takes no memory.
    pub fn as_slice(&self) -> &[Numbered]
        ensures same { result.now ≡ self.now.filters }
        ensures order { AreInOrder self.now.filters }
    {
        self.filters.as_slice()
    }

    /// An equal list, with the same filters. It takes memory for the list alone, and fails only
    /// where that is refused.
    pub fn copy(&self, alloc: Global) -> Result<Live, AllocError>
        ensures equal { IfOk result (λ copy. subscriptions copy.filters ≡
            subscriptions self.now.filters) }
    {
        Ok(Live::of(share_all(alloc, &self.filters)?))
    }

    /// Makes room for one filter at least, and changes nothing else.
    pub fn reserve(&mut self) -> Result<(), AllocError>
        ensures same { self.new.filters ≡ self.old.filters }
        ensures room { OnOk result (1 ≤ self.new.room) }
        ensures kept { self.old.room ≤ self.new.room }
    {
        self.filters.reserve(1)
    }

    /// Takes the change that makes a version, which is above all ids. An added filter goes to the
    /// end, and the others are found by halves.
    pub fn take(&mut self, version: u32, change: Change)
        requires room { 1 ≤ self.old.room }
        requires next { Rising (map (λ s. s.id) (subscriptions self.old.filters) ++ version ∷ []) }
        ensures taken { subscriptions self.new.filters ≡
            after version (subscriptions self.old.filters) (changes.change change) }
        ensures room { self.old.room ≤ self.new.room + 1 }
    {
        match change {
            Change::Add { filter, .. } => self.filters.push_reserved(Numbered {
                id: version,
                filter,
            }),
            Change::Drop { id, .. } => remove(&mut self.filters, id),
            Change::Replace { id, filter, .. } => replace(&mut self.filters, id, filter),
        }
    }
}

fn share_all(alloc: Global, filters: &[Numbered]) -> Result<Vec<Numbered>, AllocError>
    ensures { IfOk result (λ shared. subscriptions shared.items ≡ subscriptions filters.now) }
{
    let mut shared = Vec::with_capacity(alloc, filters.len())?;
    for numbered in filters {
        shared.push(numbered.share()?)?;
    }
    Ok(shared)
}
