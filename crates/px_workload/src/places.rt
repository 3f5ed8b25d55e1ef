//! Filters in the order of their ids, and their places.

ghost use Rattle.std.specs.Prelude.{◌≡◌, ◌≢◌, ◌<◌, ◌≤◌, All, IfNone, IfSome, length};
ghost use Rattle.std.specs.List.{AllWithin, HoldsAt};
ghost use Rattle.std.specs.Vec.{vec_len, vec_capacity};
ghost use Rattle.px_xpath.specs.declared.numbered.Numbered as declared;
ghost use Rattle.px_xpath.specs.Histories.{Drops, Replaces};
ghost use Rattle.px_xpath.specs.Subscribed.{subscriptions};
ghost use Rattle.px_xpath.specs.Whole as whole;
ghost use Rattle.px_workload.specs.Listed.{AreInOrder};
ghost use Rattle.px_workload.specs.Slots.{kept};

use px_xpath::{Filter, Numbered};

/// Takes the filter of an id away, if there is one.
pub(crate) fn remove(filters: &mut Vec<Numbered>, id: u32)
    requires order { AreInOrder filters.old.items }
    ensures kept { subscriptions filters.new.items ≡
        kept (Drops 0 id) (subscriptions filters.old.items) }
    ensures len { vec_len filters.new ≤ vec_len filters.old }
    ensures capacity { vec_capacity filters.new ≡ vec_capacity filters.old }
{
    match place_of(filters, id) {
        Some(at) => {
            filters.remove(at);
        }
        None => {}
    }
}

/// Gives an id another filter, if it has one.
pub(crate) fn replace(filters: &mut Vec<Numbered>, id: u32, filter: Filter)
    requires order { AreInOrder filters.old.items }
    ensures kept { subscriptions filters.new.items ≡
        kept (Replaces 0 id (whole.filter filter)) (subscriptions filters.old.items) }
    ensures len { vec_len filters.new ≡ vec_len filters.old }
    ensures capacity { vec_capacity filters.new ≡ vec_capacity filters.old }
{
    match place_of(filters, id) {
        Some(at) => filters[at] = Numbered { id, filter },
        None => {}
    }
}

// The place of an id, if it has one.
fn place_of(filters: &[Numbered], id: u32) -> Option<usize>
    requires order { AreInOrder filters.now }
    ensures within { IfSome result (λ at. at < length filters.now) }
    ensures found { IfSome result (HoldsAt (λ (n : declared.Numbered). n.id ≡ id) filters.now) }
    ensures none { IfNone result (All (λ (n : declared.Numbered). n.id ≢ id) filters.now) }
{
    let at = count_below(filters, id);
    match filters.get(at) {
        Some(numbered) if numbered.id == id => Some(at),
        _ => None,
    }
}

// How many of the filters have a lower id. It is found by halves.
fn count_below(filters: &[Numbered], id: u32) -> usize
    requires order { AreInOrder filters.now }
    ensures within { result ≤ length filters.now }
    ensures lower { AllWithin (λ (n : declared.Numbered). n.id < id) filters.now 0 result }
    ensures others { AllWithin (λ (n : declared.Numbered). id ≤
        n.id) filters.now result (length filters.now) }
{
    filters.partition_point(|numbered| numbered.id < id)
}
