//! Pairs of id and filter in live lists, whose ids rise.

ghost use Rattle.std.specs.Prelude.{◌≡◌, ◌≤◌, ◌<◌, length, option_map};
ghost use Rattle.std.specs.List.{AllWithin, find, list_any};
ghost use Rattle.px_xpath.specs.declared.numbered.Numbered as declared;
ghost use Rattle.px_xpath.specs.Histories.{is_of};
ghost use Rattle.px_xpath.specs.Subscribed.{subscription, subscriptions};
ghost use Rattle.px_workload.specs.Listed.{AreInOrder};
ghost use Rattle.px_delta.specs.Lists.{has_id as is_among, is_pair};
ghost use Rattle.px_delta.specs.Sameness.{same_way};

use crate::same::is_same;
use px_xpath::Numbered;

/// Whether a list has a pair: the same filter under the same id.
pub(crate) fn has_pair(list: &[Numbered], numbered: &Numbered) -> bool
    requires order { AreInOrder list.now }
    ensures { result ≡ list_any (is_pair same_way (subscription numbered.now)) (subscriptions
        list.now) }
{
    match of_id(list, numbered.id) {
        Some(other) => is_same(&numbered.filter, &other.filter),
        None => false,
    }
}

/// Whether a list has an id.
pub(crate) fn has_id(list: &[Numbered], id: u32) -> bool
    requires order { AreInOrder list.now }
    ensures { result ≡ is_among (subscriptions list.now) id }
{
    of_id(list, id).is_some()
}

// The filter of an id, if the list has one. It is found by halves.
fn of_id(list: &[Numbered], id: u32) -> Option<&Numbered>
    requires order { AreInOrder list.now }
    ensures { option_map (λ n. subscription n.now) result ≡
        find (is_of id) (subscriptions list.now) }
{
    match list.get(count_below(list, id)) {
        Some(numbered) if numbered.id == id => Some(numbered),
        _ => None,
    }
}

// How many of a list have a lower id. It is found by halves.
fn count_below(list: &[Numbered], id: u32) -> usize
    requires order { AreInOrder list.now }
    ensures within { result ≤ length list.now }
    ensures lower { AllWithin (λ (n : declared.Numbered). n.id < id) list.now 0 result }
    ensures others { AllWithin (λ (n : declared.Numbered). id ≤
        n.id) list.now result (length list.now) }
{
    list.partition_point(|numbered| numbered.id < id)
}
