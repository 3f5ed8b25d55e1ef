//! The filters of a table, shared.

ghost use Rattle.std.specs.Prelude.{◌≡◌, ◌<◌, ◌≤◌, ◌+◌, ◌++◌, ℕ, length, IfOk, OnOk};
ghost use Rattle.px_xpath.specs.Histories.{after};
ghost use Rattle.px_xpath.specs.Subscribed.{subscriptions};
ghost use Rattle.px_workload.specs.Changes as changes;
ghost use Rattle.px_workload.specs.Slots.{added, kept, listed, listed_one, read_slot};

use crate::change::Change;
use px_xpath::{Filter, Numbered};
use std::alloc::{AllocError, Global};

/// The filters, with their ids.
pub(crate) fn shares(alloc: Global, slots: &[Option<Filter>]) -> Result<Vec<Numbered>, AllocError>
    requires { length slots.now ≤ 1_048_575 }
    ensures { IfOk result (λ live. subscriptions live.items ≡ listed slots.now) }
{
    let mut live = Vec::new(alloc);
    for (at, slot) in slots.iter().enumerate() {
        push_share(&mut live, at as u32 + 1, slot.as_ref())?;
    }
    Ok(live)
}

/// The filters that would stand behind a change, with their ids.
pub(crate) fn shares_after(
    alloc: Global,
    slots: &[Option<Filter>],
    change: &Change,
) -> Result<Vec<Numbered>, AllocError>
    requires { length slots.now ≤ 1_048_575 }
    ensures { IfOk result (λ live. subscriptions live.items ≡
        after (length slots.now + 1) (listed slots.now) (changes.change change.now)) }
{
    let mut live = shares_kept(alloc, slots, change)?;
    push_share(&mut live, slots.len() as u32 + 1, added_by(change))?;
    Ok(live)
}

// The filters that a change leaves or exchanges, with their ids.
fn shares_kept(
    alloc: Global,
    slots: &[Option<Filter>],
    change: &Change,
) -> Result<Vec<Numbered>, AllocError>
    requires { length slots.now ≤ 1_048_575 }
    ensures { IfOk result (λ live. subscriptions live.items ≡
        kept (changes.change change.now) (listed slots.now)) }
{
    let mut live = Vec::new(alloc);
    for (at, slot) in slots.iter().enumerate() {
        let id = at as u32 + 1;
        push_share(&mut live, id, kept_by(slot, id, change))?;
    }
    Ok(live)
}

// What stands at an id behind a change, of what stood there before it.
fn kept_by<'a>(slot: &'a Option<Filter>, id: u32, change: &'a Change) -> Option<&'a Filter>
    ensures { listed_one id (read_slot result) ≡
        kept (changes.change change.now) (listed_one id slot.now) }
{
    let filter = slot.as_ref()?;
    match change {
        Change::Drop { id: dropped, .. } if *dropped == id => None,
        Change::Replace {
            id: replaced,
            filter,
            ..
        } if *replaced == id => Some(filter),
        _ => Some(filter),
    }
}

// The filter that a change adds at the version that it makes.
fn added_by(change: &Change) -> Option<&Filter>
    ensures { (version : ℕ) → listed_one version (read_slot result) ≡
        added version (changes.change change.now) }
{
    match change {
        Change::Add { filter, .. } => Some(filter),
        _ => None,
    }
}

// Adds the filter that stands at an id, if one does.
fn push_share(live: &mut Vec<Numbered>, id: u32, filter: Option<&Filter>) -> Result<(), AllocError>
    ensures { OnOk result (subscriptions live.new.items ≡ subscriptions live.old.items ++
        listed_one id (read_slot filter.entry)) }
{
    let Some(filter) = filter else {
        return Ok(());
    };
    let filter = filter.share()?;
    live.push(Numbered { id, filter })?;
    Ok(())
}
